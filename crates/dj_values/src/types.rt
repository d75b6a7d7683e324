//! What a value's type says of it (JVMS 2.3, 2.4).

ghost use Rattle.std.specs.Prelude.{◌≡◌, ◌↔◌, ℕ, Some, ◌≤ℤ◌, IsTrue, IsSomeAnd};
ghost use Rattle.dj_names.specs.Types.{Class, Of, view_type};
ghost use Rattle.dj_names.specs.Assignable.{IsReference, IsAssignable, object_name};
ghost use Rattle.dj_values.specs.Fits.{int_range, class_of, innermost, IsArray, IsLengthOf};

use dj_headers::Headers;
use dj_names::{ClassName, JType};

/// The greatest length of an array.
pub const MAX_LENGTH: u32 = 2_147_483_647;

/// Whether the type is an array's.
pub fn is_array(kind: &JType) -> bool
    ensures array { IsTrue result ↔ IsArray (view_type kind.now) }
{
    match kind {
        JType::Boolean => false,
        JType::Byte => false,
        JType::Char => false,
        JType::Short => false,
        JType::Int => false,
        JType::Long => false,
        JType::Float => false,
        JType::Double => false,
        JType::Class(_) => false,
        JType::Array(_) => true,
    }
}

/// Whether an int is one of the type.
pub fn is_in_range(kind: &JType, number: i32) -> bool
    ensures range { IsTrue result ↔ IsSomeAnd (int_range (view_type kind.now)) (λ range. (range.0 ≤ℤ number) × (number ≤ℤ range.1)) }
{
    match kind {
        JType::Boolean => 0 <= number && number <= 1,
        JType::Byte => -128 <= number && number <= 127,
        JType::Char => 0 <= number && number <= 65_535,
        JType::Short => -32_768 <= number && number <= 32_767,
        JType::Int => true,
        JType::Long => false,
        JType::Float => false,
        JType::Double => false,
        JType::Class(_) => false,
        JType::Array(_) => false,
    }
}

/// Whether a reference of the class may have this length.
pub fn is_length_of(class: &JType, length: u32) -> bool
    ensures length { IsTrue result ↔ IsLengthOf (view_type class.now) length }
{
    match class {
        JType::Boolean => false,
        JType::Byte => false,
        JType::Char => false,
        JType::Short => false,
        JType::Int => false,
        JType::Long => false,
        JType::Float => false,
        JType::Double => false,
        JType::Class(_) => length == 0,
        JType::Array(_) => length <= MAX_LENGTH,
    }
}

/// The type of the innermost elements.
pub fn innermost(kind: &JType) -> &JType
    ensures innermost { view_type result.now ≡ innermost (view_type kind.now) }
{
    match kind {
        JType::Array(element) => innermost(element.get()),
        _ => kind,
    }
}

/// Whether the type is the class of this name.
pub fn is_class(kind: &JType, class: &ClassName) -> bool
    ensures class { IsTrue result ↔ (view_type kind.now ≡ Class class.now) }
{
    match kind {
        JType::Class(name) => name == class,
        _ => false,
    }
}

/// Whether a value of the type goes where an Object is wanted.
pub fn goes_to_object(headers: &Headers, kind: &JType) -> bool
    ensures object { IsTrue result ↔ IsAssignable headers.now (Of (view_type kind.now)) (Class object_name) }
{
    match kind {
        JType::Boolean => false,
        JType::Byte => false,
        JType::Char => false,
        JType::Short => false,
        JType::Int => false,
        JType::Long => false,
        JType::Float => false,
        JType::Double => false,
        JType::Class(name) => headers.is_object(name) || headers.is_interface(name),
        JType::Array(_) => true,
    }
}
