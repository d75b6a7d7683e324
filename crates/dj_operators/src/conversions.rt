//! What becomes of a value where a type is wanted, and casts (JLS 5.1.2, 5.1.3, 5.2, 5.3, 5.5, 15.20.2).

ghost use Rattle.std.specs.Prelude.{◌≡◌, pos};
ghost use Rattle.std.specs.Int.{w8, w16, w32, int_wrap, int_rem_euclid};
ghost use Rattle.dj_names.specs.Types.{view_type};
ghost use Rattle.dj_values.specs.Views.{view_reference, view_value};
ghost use Rattle.dj_values.specs.Deciding as deciding;
ghost use Rattle.dj_meaning.specs.Conversions as spec;
ghost use Rattle.dj_meaning.specs.Objects as spec_objects;
ghost use Rattle.dj_operators.specs.Computed.{view_computed};

use crate::computed::{Computed, int, long, truth};
use dj_headers::{Headers, is_subtype};
use dj_names::JType;
use dj_outside::Trap;
use dj_values::{RefValue, Value};

/// The low eight bits of a number.
fn to_byte(number: i64) -> i8
    ensures byte { result ≡ int_wrap w8 number }
{
    (number.rem_euclid(256) as u8).cast_signed()
}

/// The low sixteen bits of a number.
fn to_short(number: i64) -> i16
    ensures short { result ≡ int_wrap w16 number }
{
    (number.rem_euclid(65_536) as u16).cast_signed()
}

/// The low 32 bits of a number.
fn to_int(number: i64) -> i32
    ensures int { result ≡ int_wrap w32 number }
{
    (number.rem_euclid(4_294_967_296) as u32).cast_signed()
}

/// The low sixteen bits of a number, without a sign.
fn to_char(number: i64) -> i32
    ensures char { result ≡ int_rem_euclid number (pos 65536) }
{
    number.rem_euclid(65_536) as i32
}

/// An int where a type is wanted.
fn converted_int(kind: &JType, number: i32) -> Computed
    ensures converted { view_computed result ≡ spec.converted_int (view_type kind.now) number }
{
    match kind {
        JType::Boolean => int(number & 1),
        JType::Byte => int(i32::from(to_byte(i64::from(number)))),
        JType::Char => int(to_char(i64::from(number))),
        JType::Short => int(i32::from(to_short(i64::from(number)))),
        JType::Int => int(number),
        JType::Long => long(i64::from(number)),
        JType::Float | JType::Double => Computed::More,
        JType::Class(_) | JType::Array(_) => Computed::Stuck,
    }
}

/// A long where a type is wanted.
fn converted_long(kind: &JType, number: i64) -> Computed
    ensures converted { view_computed result ≡ spec.converted_long (view_type kind.now) number }
{
    match kind {
        JType::Long => long(number),
        JType::Float | JType::Double => Computed::More,
        JType::Boolean
        | JType::Byte
        | JType::Char
        | JType::Short
        | JType::Int
        | JType::Class(_)
        | JType::Array(_) => Computed::Stuck,
    }
}

/// A reference or null where a type is wanted.
fn converted_reference(kind: &JType, value: Value) -> Computed
    ensures converted { view_computed result ≡ spec.converted_reference (view_type kind.now) (view_value value) }
{
    match kind {
        JType::Class(_) | JType::Array(_) => Computed::Gives(value),
        JType::Boolean
        | JType::Byte
        | JType::Char
        | JType::Short
        | JType::Int
        | JType::Long
        | JType::Float
        | JType::Double => Computed::Stuck,
    }
}

/// A value where a type is wanted.
pub fn converted(kind: &JType, value: Value) -> Computed
    ensures converted { view_computed result ≡ spec.converted (view_type kind.now) (view_value value) }
{
    match value {
        Value::Int(number) => converted_int(kind, number),
        Value::Long(number) => converted_long(kind, number),
        Value::Null => converted_reference(kind, Value::Null),
        Value::Ref(reference) => converted_reference(kind, Value::Ref(reference)),
    }
}

/// A long that is cast to a type.
fn cast_long(kind: &JType, number: i64) -> Computed
    ensures cast { view_computed result ≡ spec.cast_long (view_type kind.now) number }
{
    match kind {
        JType::Byte => int(i32::from(to_byte(number))),
        JType::Char => int(to_char(number)),
        JType::Short => int(i32::from(to_short(number))),
        JType::Int => int(to_int(number)),
        JType::Long => long(number),
        JType::Float | JType::Double => Computed::More,
        JType::Boolean | JType::Class(_) | JType::Array(_) => Computed::Stuck,
    }
}

/// Whether the first type goes where the second is wanted.
fn goes(headers: &Headers, from: &JType, to: &JType) -> bool
    ensures goes { result ≡ deciding.is_subtype headers.now (view_type from.now) (view_type to.now) }
{
    is_subtype(headers, from, to)
}

/// A reference that is cast to a type: one whose class doesn't go there traps.
fn cast_reference(headers: &Headers, kind: &JType, reference: RefValue) -> Computed
    ensures cast { view_computed result ≡ spec.cast_reference headers.now (view_type kind.now) (view_reference reference) }
{
    match kind {
        JType::Class(_) | JType::Array(_) => {
            if goes(headers, &reference.class, kind) {
                Computed::Gives(Value::Ref(reference))
            } else {
                Computed::Traps(Trap::Cast)
            }
        }
        JType::Boolean
        | JType::Byte
        | JType::Char
        | JType::Short
        | JType::Int
        | JType::Long
        | JType::Float
        | JType::Double => Computed::Stuck,
    }
}

/// A value that is cast to a type.
pub fn cast(headers: &Headers, kind: &JType, value: Value) -> Computed
    ensures cast { view_computed result ≡ spec.cast headers.now (view_type kind.now) (view_value value) }
{
    match value {
        Value::Int(number) => converted_int(kind, number),
        Value::Long(number) => cast_long(kind, number),
        Value::Null => converted_reference(kind, Value::Null),
        Value::Ref(reference) => cast_reference(headers, kind, reference),
    }
}

/// Whether a value is of a type; null is of none.
pub fn is_of(headers: &Headers, kind: &JType, value: &Value) -> Computed
    ensures of { view_computed result ≡ spec_objects.is_of headers.now (view_type kind.now) (view_value value.now) }
{
    match value {
        Value::Null => truth(false),
        Value::Ref(reference) => truth(goes(headers, &reference.class, kind)),
        Value::Int(_) | Value::Long(_) => Computed::Stuck,
    }
}
