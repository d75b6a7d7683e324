//! Which values a type has, and which references are new objects, new arrays and exceptions (JVMS 2.3, 2.4, 2.10).

ghost use Rattle.std.specs.Prelude.{◌≡◌, ◌↔◌, Some, pos, negsuc, ◌≤ℤ◌, codes, IsTrue, slice_get};
ghost use Rattle.dj_names.specs.Types as types;
ghost use Rattle.dj_names.specs.Types.{Class, Of, view_type};
ghost use Rattle.dj_names.specs.Assignable.{IsReference, IsAssignable, object_name};
ghost use Rattle.dj_values.specs.Views.{view_reference, view_value};
ghost use Rattle.dj_values.specs.Fits.{innermost, IsReferenceOf, IsValueOf, IsObject, IsThrowable};
ghost use Rattle.dj_values.specs.Answers.{IsNewArray, IsTrapped};

use crate::reference::RefValue;
use crate::types::{
    MAX_LENGTH, goes_to_object, innermost, is_array, is_class, is_in_range, is_length_of,
};
use crate::value::Value;
use dj_headers::{Headers, is_reference, is_subtype};
use dj_names::{ClassName, JType, is_word, same_type};

/// Whether the innermost elements, where they are references, go where an Object is wanted.
fn elements_go_to_object(headers: &Headers, class: &JType) -> bool
    ensures elements { IsTrue result ↔ (IsReference (innermost (view_type class.now))
        → IsAssignable headers.now (Of (innermost (view_type class.now))) (Class object_name)) }
{
    let kind = innermost(class);
    !is_reference(kind) || goes_to_object(headers, kind)
}

/// Whether a reference is one of the type.
pub fn is_reference_of(headers: &Headers, kind: &JType, reference: &RefValue) -> bool
    ensures reference { IsTrue result ↔ IsReferenceOf headers.now (view_type kind.now) (view_reference reference.now) }
{
    let class = &reference.class;
    is_reference(kind)
        && is_length_of(class, reference.length)
        && is_subtype(headers, class, kind)
        && goes_to_object(headers, class)
        && elements_go_to_object(headers, class)
}

/// Whether the type is long: it has each of these numbers.
fn is_long(kind: &JType, number: i64) -> bool
    ensures long { IsTrue result ↔ ((view_type kind.now ≡ types.Long)
        × (negsuc 9223372036854775807 ≤ℤ number) × (number ≤ℤ pos 9223372036854775807)) }
{
    let _ = number;
    matches!(kind, JType::Long)
}

/// Whether the value is one of the type.
pub fn is_value_of(headers: &Headers, kind: &JType, value: &Value) -> bool
    ensures value { IsTrue result ↔ IsValueOf headers.now (view_type kind.now) (view_value value.now) }
{
    match value {
        Value::Int(number) => is_in_range(kind, *number),
        Value::Long(number) => is_long(kind, *number),
        Value::Null => is_reference(kind),
        Value::Ref(reference) => is_reference_of(headers, kind, reference),
    }
}

/// Whether a reference is an object of exactly this class.
pub fn is_object(class: &ClassName, reference: &RefValue) -> bool
    ensures object { IsTrue result ↔ IsObject class.now (view_reference reference.now) }
{
    is_class(&reference.class, class) && reference.length == 0
}

/// Whether a reference is an object of java/lang/Class.
pub fn is_class_object(reference: &RefValue) -> bool
    ensures object { IsTrue result ↔ IsObject (codes "java/lang/Class") (view_reference reference.now) }
{
    match &reference.class {
        JType::Class(name) => is_word(name.as_slice(), "java/lang/Class") && reference.length == 0,
        _ => false,
    }
}

/// Whether the first size is this length.
fn is_first_size(sizes: &[i32], length: u32) -> bool
    ensures first { IsTrue result ↔ (slice_get sizes.now 0 ≡ Some (pos length)) }
{
    match sizes {
        [] => false,
        [first, ..] => i64::from(*first) == i64::from(length),
    }
}

/// Whether a reference is a new array of this type and these sizes.
pub fn is_new_array(kind: &JType, sizes: &[i32], reference: &RefValue) -> bool
    ensures array { IsTrue result ↔ IsNewArray (view_type kind.now) sizes.now (view_reference reference.now) }
{
    is_array(kind)
        && same_type(&reference.class, kind)
        && is_first_size(sizes, reference.length)
        && reference.length <= MAX_LENGTH
}

/// Whether a reference is an exception.
pub fn is_throwable(headers: &Headers, reference: &RefValue) -> bool
    ensures throwable { IsTrue result ↔ IsThrowable headers.now (view_reference reference.now) }
{
    match &reference.class {
        JType::Class(name) => reference.length == 0 && headers.is_throwable(name),
        _ => false,
    }
}

/// Whether a reference is an exception of exactly this class.
pub fn is_trapped(headers: &Headers, class: &ClassName, reference: &RefValue) -> bool
    ensures trapped { IsTrue result ↔ IsTrapped headers.now class.now (view_reference reference.now) }
{
    is_throwable(headers, reference) && is_class(&reference.class, class)
}
