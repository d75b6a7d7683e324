//! Which types may be cast to which (JLS 5.5).

ghost use Rattle.std.specs.Prelude.{◌≡◌, ◌&&◌, not, slice_get};
ghost use Rattle.std.specs.Option.{option_copied};
ghost use Rattle.dj_names.specs.Assignable.{above_arrays};
ghost use Rattle.dj_names.specs.Headers.{HasDistinctNames};
ghost use Rattle.dj_names.specs.Types.{view_type, view_static};
ghost use Rattle.dj_values.specs.Deciding as tests;
ghost use Rattle.dj_typing.specs.Casting as spec;
ghost use Rattle.dj_checked.specs.Flags.{has_flag, flag_in};
ghost use Rattle.dj_typing.specs.Words.{is_among};

use dj_headers::{Headers, is_class_assignable};
use dj_names::{ClassName, Header, JType, StaticType, same_type};

/// Whether a type is one of numbers.
pub fn is_number(kind: &JType) -> bool
    ensures number { result ≡ spec.is_number (view_type kind.now) }
{
    match kind {
        JType::Byte
        | JType::Char
        | JType::Short
        | JType::Int
        | JType::Long
        | JType::Float
        | JType::Double => true,
        JType::Boolean | JType::Class(_) | JType::Array(_) => false,
    }
}

/// Whether types are the same.
pub fn is_type(first: &JType, second: &JType) -> bool
    ensures same { result ≡ tests.is_type (view_type first.now) (view_type second.now) }
{
    same_type(first, second)
}

/// Whether a type is a class, an interface or an array.
pub fn is_reference(kind: &JType) -> bool
    ensures reference { result ≡ tests.is_reference (view_type kind.now) }
{
    match kind {
        JType::Class(_) | JType::Array(_) => true,
        JType::Boolean
        | JType::Byte
        | JType::Char
        | JType::Short
        | JType::Int
        | JType::Long
        | JType::Float
        | JType::Double => false,
    }
}

/// The header at a place.
pub fn header_at(headers: &Headers, at: usize) -> Option<&Header>
    ensures header { option_copied result ≡ slice_get headers.now at }
    ensures distinct { HasDistinctNames headers.now }
{
    headers.as_slice().get(at)
}

/// Whether a header has one of these flags, where there is one.
fn flag_in(header: Option<&Header>, flag: u16) -> bool
    ensures flag { result ≡ flag_in flag (option_copied header.entry) }
{
    match header {
        None => false,
        Some(header) => header.flags & flag != 0,
    }
}

/// Whether a class has a header with one of these flags.
pub fn has_flag(headers: &Headers, class: &ClassName, flag: u16) -> bool
    ensures flag { result ≡ has_flag flag headers.now class.now }
{
    match headers.place(class) {
        None => false,
        Some(at) => flag_in(header_at(headers, at), flag),
    }
}

/// Whether a class goes to another without a cast.
fn goes_up(headers: &Headers, from: &ClassName, to: &ClassName) -> bool
    ensures goes { result ≡ tests.goes_up headers.now from.now to.now }
{
    is_class_assignable(headers, from, to)
}

/// Whether an object of one class may be of an interface: the class can have it below, or has it above.
fn may_have(headers: &Headers, interface: &ClassName, class: &ClassName) -> bool
    ensures may { result ≡ (has_flag 0x0200 headers.now interface.now && not (has_flag 0x0010 headers.now class.now)) }
{
    has_flag(headers, interface, 0x0200) && !has_flag(headers, class, 0x0010)
}

/// Whether an object may be of both classes.
fn may_be_both(headers: &Headers, first: &ClassName, second: &ClassName) -> bool
    ensures both { result ≡ spec.may_be_both headers.now first.now second.now }
{
    goes_up(headers, first, second)
        || goes_up(headers, second, first)
        || may_have(headers, first, second)
        || may_have(headers, second, first)
}

/// Whether arrays go to a class.
fn is_above_arrays(class: &ClassName) -> bool
    ensures above { result ≡ is_among above_arrays class.now }
{
    dj_headers::is_above_arrays(class)
}

/// Whether a reference may be of both types.
pub fn may_be(headers: &Headers, from: &JType, to: &JType) -> bool
    ensures may { result ≡ spec.may_be headers.now (view_type from.now) (view_type to.now) }
{
    match from {
        JType::Class(from) => match to {
            JType::Class(to) => may_be_both(headers, from, to),
            JType::Array(_) => is_above_arrays(from),
            JType::Boolean
            | JType::Byte
            | JType::Char
            | JType::Short
            | JType::Int
            | JType::Long
            | JType::Float
            | JType::Double => false,
        },
        JType::Array(from) => match to {
            JType::Class(to) => is_above_arrays(to),
            JType::Array(to) => {
                is_type(from.get(), to.get()) || may_be(headers, from.get(), to.get())
            }
            JType::Boolean
            | JType::Byte
            | JType::Char
            | JType::Short
            | JType::Int
            | JType::Long
            | JType::Float
            | JType::Double => false,
        },
        JType::Boolean
        | JType::Byte
        | JType::Char
        | JType::Short
        | JType::Int
        | JType::Long
        | JType::Float
        | JType::Double => false,
    }
}

/// Whether an expression of a type may be of another as a reference.
pub fn may_be_of(headers: &Headers, from: &StaticType, to: &JType) -> bool
    ensures may { result ≡ spec.may_be_of headers.now (view_static from.now) (view_type to.now) }
{
    match from {
        StaticType::Null => is_reference(to),
        StaticType::Of(from) => may_be(headers, from, to),
    }
}

/// Whether an expression of a type may be cast to another.
pub fn may_cast(headers: &Headers, from: &StaticType, to: &JType) -> bool
    ensures may { result ≡ spec.may_cast headers.now (view_static from.now) (view_type to.now) }
{
    match from {
        StaticType::Null => is_reference(to),
        StaticType::Of(from) => { (is_number(from) && is_number(to)) || may_be(headers, from, to) }
    }
}
