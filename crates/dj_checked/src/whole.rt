//! Whether the classes of the world are whole: each class above one has a header, too.

ghost use Rattle.std.specs.Prelude.{◌≡◌, ◌∷◌, [], IfOk};
ghost use Rattle.std.specs.List.{list_all};
ghost use Rattle.std.specs.Option.{option_map};
ghost use Rattle.dj_names.specs.Types.{view_type, view_static};
ghost use Rattle.dj_typing.specs.Sites as spec;
ghost use Rattle.dj_typing.specs.Expressions.{is_whole_static};
ghost use Rattle.dj_typing.specs.Operands.{if_typed};

use dj_headers::Headers;
use dj_names::{ClassName, Items, JType, StaticType};
use dj_sayable::all_above;
use std::alloc::{AllocError, Global};

/// Whether a class has a header.
fn has_header(headers: &Headers, name: &ClassName) -> bool
    ensures header { result ≡ spec.has_header headers.now name.now }
{
    match headers.place(name) {
        None => false,
        Some(_) => true,
    }
}

/// Whether each of these classes has a header.
fn have_headers(headers: &Headers, classes: &[ClassName]) -> bool
    ensures headers { result ≡ list_all (spec.has_header headers.now) classes.now }
{
    for class in classes {
        if !has_header(headers, class) {
            return false;
        }
    }
    true
}

/// A list of one class.
fn one_class(alloc: Global, class: &ClassName) -> Result<Items<ClassName>, AllocError>
    ensures one { IfOk result (λ classes. classes ≡ class.now ∷ []) }
{
    let mut classes = Items::new(alloc);
    classes.push(class.copy(alloc)?)?;
    Ok(classes)
}

/// Whether a class has a header, and each class above it has one.
pub fn is_whole(alloc: Global, headers: &Headers, class: &ClassName) -> Result<bool, AllocError>
    ensures whole { IfOk result (λ whole. whole ≡ spec.is_whole headers.now class.now) }
{
    let own = one_class(alloc, class)?;
    let above = all_above(alloc, headers, own.as_slice())?;
    Ok(have_headers(headers, above.as_slice()))
}

/// Whether the class of a type's innermost elements is whole, where it has one.
pub fn is_whole_type(alloc: Global, headers: &Headers, kind: &JType) -> Result<bool, AllocError>
    ensures whole { IfOk result (λ whole. whole ≡ spec.is_whole_type headers.now (view_type kind.now)) }
{
    match kind {
        JType::Class(name) => is_whole(alloc, headers, name),
        JType::Array(element) => is_whole_type(alloc, headers, element.get()),
        JType::Boolean
        | JType::Byte
        | JType::Char
        | JType::Short
        | JType::Int
        | JType::Long
        | JType::Float
        | JType::Double => Ok(true),
    }
}

/// Whether the class in the type of an expression is whole, where it has a type; null has none.
pub fn is_whole_static(
    alloc: Global,
    headers: &Headers,
    found: &Option<StaticType>,
) -> Result<bool, AllocError>
    ensures whole { IfOk result (λ whole. whole ≡ if_typed (option_map view_static found.now) (is_whole_static headers.now)) }
{
    match found {
        None => Ok(true),
        Some(StaticType::Null) => Ok(true),
        Some(StaticType::Of(kind)) => is_whole_type(alloc, headers, kind),
    }
}
