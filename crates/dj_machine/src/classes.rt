//! Which class or type goes where, as the tests of the definition say.

ghost use Rattle.std.specs.Prelude.{◌≡◌, Bool, true, List, Option, Some, None};
ghost use Rattle.dj_names.specs.Types.{view_type};
ghost use Rattle.dj_values.specs.Fits as fits;
ghost use Rattle.dj_values.specs.Deciding as deciding;

use dj_headers::{Headers, is_subtype};
use dj_names::{ClassName, JType};

/// Whether a type goes where another is wanted, without a cast.
pub fn goes(headers: &Headers, from: &JType, to: &JType) -> bool
    ensures goes { result ≡ deciding.is_subtype headers.now (view_type from.now) (view_type to.now) }
{
    is_subtype(headers, from, to)
}

/// Whether a class is the second, or stands below it.
pub fn is_subclass(headers: &Headers, lower: &ClassName, upper: &ClassName) -> bool
    ensures below { result ≡ deciding.is_subclass headers.now lower.now upper.now }
{
    headers.is_subclass(lower, upper)
}

/// Whether a type is a class that is the second, or stands below it.
pub fn is_instance(headers: &Headers, kind: &JType, class: &ClassName) -> bool
    ensures instance { result ≡ deciding.is_instance headers.now (view_type kind.now) class.now }
{
    match kind {
        JType::Class(name) => is_subclass(headers, name, class),
        JType::Boolean
        | JType::Byte
        | JType::Char
        | JType::Short
        | JType::Int
        | JType::Long
        | JType::Float
        | JType::Double
        | JType::Array(_) => false,
    }
}

/// Whether a class is a type's, or stands below it.
pub fn is_below(headers: &Headers, class: &ClassName, owner: &JType) -> bool
    ensures below { result ≡ deciding.is_some_and (fits.class_of (view_type owner.now)) (λ name. deciding.is_subclass headers.now class.now name) }
{
    match owner {
        JType::Class(name) => is_subclass(headers, class, name),
        JType::Boolean
        | JType::Byte
        | JType::Char
        | JType::Short
        | JType::Int
        | JType::Long
        | JType::Float
        | JType::Double
        | JType::Array(_) => false,
    }
}
