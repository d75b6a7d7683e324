//! How many dimensions types have (JVMS 4.3.2).

ghost use Rattle.std.specs.Prelude.{◌≡◌, ◌+◌, nat_le, IfSome, IfNone};
ghost use Rattle.dj_names.specs.Types.{view_type};
ghost use Rattle.dj_names.specs.Descriptors.{dimensions};

use dj_names::JType;

/// The type of the elements of an array.
fn element_of(kind: &JType) -> Option<&JType>
    ensures array { IfSome result (λ element. dimensions (view_type kind.now) ≡ dimensions (view_type element.now) + 1) }
    ensures other { IfNone result (dimensions (view_type kind.now) ≡ 0) }
{
    match kind {
        JType::Array(element) => Some(element.get()),
        JType::Boolean
        | JType::Byte
        | JType::Char
        | JType::Short
        | JType::Int
        | JType::Long
        | JType::Float
        | JType::Double
        | JType::Class(_) => None,
    }
}

/// Whether a type has so many dimensions, or more.
pub fn has_dimensions(kind: &JType, least: u8) -> bool
    ensures dimensions { result ≡ nat_le least (dimensions (view_type kind.now)) }
{
    let mut inner = kind;
    for _ in 0..least {
        match element_of(inner) {
            Some(element) => inner = element,
            None => return false,
        }
    }
    true
}
