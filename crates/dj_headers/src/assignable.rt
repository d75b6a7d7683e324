//! Which types go where without a cast (JLS 4.10, 5.1.2).

ghost use Rattle.std.specs.Prelude.{◌↔◌, IsTrue, Contains};
ghost use Rattle.dj_names.specs.Types.{Class, view_type, view_static};
ghost use Rattle.dj_names.specs.Assignable.{wider_types, above_arrays, IsReference, IsSubtype, IsAssignable};

use crate::headers::Headers;
use dj_names::{ClassName, JType, StaticType, is_among, is_word, same_type};

/// The classes and interfaces above every array.
const ABOVE_ARRAYS: [&str; 3] = [
    "java/lang/Object",
    "java/lang/Cloneable",
    "java/io/Serializable",
];

/// Whether every array goes to this class or interface.
pub fn is_above_arrays(class: &ClassName) -> bool
    ensures above { IsTrue result ↔ Contains above_arrays class.now }
{
    is_among(class.as_slice(), &ABOVE_ARRAYS)
}

/// Whether a class or interface goes to another: it stands above, or is Object and the first an
/// interface.
pub fn is_class_assignable(headers: &Headers, from: &ClassName, to: &ClassName) -> bool
    ensures goes { IsTrue result ↔ IsSubtype headers.now (Class from.now) (Class to.now) }
{
    headers.implements(from, to)
        || is_word(to.as_slice(), "java/lang/Object") && headers.is_interface(from)
}

/// Whether the second is a wider number type than the first.
fn is_wider(from: &JType, to: &JType) -> bool
    ensures wider { IsTrue result ↔ Contains (wider_types (view_type from.now)) (view_type to.now) }
{
    match from {
        JType::Boolean => false,
        JType::Byte => matches!(
            to,
            JType::Short | JType::Int | JType::Long | JType::Float | JType::Double
        ),
        JType::Char => matches!(to, JType::Int | JType::Long | JType::Float | JType::Double),
        JType::Short => matches!(to, JType::Int | JType::Long | JType::Float | JType::Double),
        JType::Int => matches!(to, JType::Long | JType::Float | JType::Double),
        JType::Long => matches!(to, JType::Float | JType::Double),
        JType::Float => matches!(to, JType::Double),
        JType::Double => false,
        JType::Class(_) => false,
        JType::Array(_) => false,
    }
}

/// Whether the type is a class, an interface or an array.
pub fn is_reference(kind: &JType) -> bool
    ensures reference { IsTrue result ↔ IsReference (view_type kind.now) }
{
    match kind {
        JType::Boolean => false,
        JType::Byte => false,
        JType::Char => false,
        JType::Short => false,
        JType::Int => false,
        JType::Long => false,
        JType::Float => false,
        JType::Double => false,
        JType::Class(_) => true,
        JType::Array(_) => true,
    }
}

/// Whether a value of one type goes where the other is wanted, without a cast.
pub fn is_subtype(headers: &Headers, from: &JType, to: &JType) -> bool
    ensures subtype { IsTrue result ↔ IsSubtype headers.now (view_type from.now) (view_type to.now) }
{
    match from {
        JType::Class(from) => match to {
            JType::Class(to) => is_class_assignable(headers, from, to),
            _ => false,
        },
        JType::Array(from) => match to {
            JType::Class(to) => is_above_arrays(to),
            JType::Array(to) => {
                if is_reference(from.get()) {
                    is_subtype(headers, from.get(), to.get())
                } else {
                    same_type(from.get(), to.get())
                }
            }
            _ => false,
        },
        _ => same_type(from, to) || is_wider(from, to),
    }
}

/// Whether a value of a static type goes where a type is wanted; `null` goes where a reference does.
pub fn is_assignable(headers: &Headers, from: &StaticType, to: &JType) -> bool
    ensures assignable { IsTrue result ↔ IsAssignable headers.now (view_static from.now) (view_type to.now) }
{
    match from {
        StaticType::Null => is_reference(to),
        StaticType::Of(from) => is_subtype(headers, from, to),
    }
}
