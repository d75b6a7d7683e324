//! Values as they go into types (JVMS 2.11.1, 6.5).

ghost use Rattle.std.specs.Prelude.{◌≡◌, IfOk, option_map};
ghost use Rattle.std.specs.Int.{w8, w16, int_wrap};
ghost use Rattle.dj_names.specs.Types.{view_type, view_types, view_descriptor, parameters_of, Long};
ghost use Rattle.dj_values.specs.Values.{Int};
ghost use Rattle.dj_values.specs.Views.{view_value, view_values};
ghost use Rattle.dj_values.specs.Outcomes.{there};
ghost use Rattle.dj_values.specs.Deciding as deciding;
ghost use Rattle.dj_bytecode.specs.Operands as spec;

use dj_names::{Descriptor, Items, JType};
use dj_values::Value;
use std::alloc::{AllocError, Global};

/// The low eight bits of an int.
fn to_byte(number: i32) -> i8
    ensures byte { result ≡ int_wrap w8 number }
{
    (number.rem_euclid(256) as u8).cast_signed()
}

/// The low sixteen bits of an int.
fn to_short(number: i32) -> i16
    ensures short { result ≡ int_wrap w16 number }
{
    (number.rem_euclid(65_536) as u16).cast_signed()
}

/// An int as a type keeps it, None where the type isn't kept as one.
pub fn narrowed(kind: &JType, number: i32) -> Option<i32>
    ensures narrowed { there (option_map Int result) ≡ spec.narrowed (view_type kind.now) number }
{
    match kind {
        JType::Boolean => Some(number & 1),
        JType::Byte => Some(i32::from(to_byte(number))),
        JType::Char => Some(number.rem_euclid(65_536)),
        JType::Short => Some(i32::from(to_short(number))),
        JType::Int => Some(number),
        JType::Long | JType::Float | JType::Double | JType::Class(_) | JType::Array(_) => None,
    }
}

/// Whether the type is a class or interface, or an array.
fn is_reference(kind: &JType) -> bool
    ensures reference { result ≡ deciding.is_reference (view_type kind.now) }
{
    match kind {
        JType::Class(_) | JType::Array(_) => true,
        JType::Boolean
        | JType::Byte
        | JType::Char
        | JType::Short
        | JType::Int
        | JType::Long
        | JType::Float
        | JType::Double => false,
    }
}

/// Whether the type is long.
fn is_long(kind: &JType) -> bool
    ensures long { result ≡ deciding.is_type (view_type kind.now) Long }
{
    matches!(kind, JType::Long)
}

/// A value as it goes into a type, None where it is of another kind.
pub fn fitted(alloc: Global, kind: &JType, value: &Value) -> Result<Option<Value>, AllocError>
    ensures fitted { IfOk result (λ kept. there (option_map view_value kept) ≡ spec.fitted (view_type kind.now) (view_value value.now)) }
{
    match value {
        Value::Int(number) => match narrowed(kind, *number) {
            Some(kept) => Ok(Some(Value::Int(kept))),
            None => Ok(None),
        },
        Value::Long(number) => {
            if is_long(kind) {
                Ok(Some(Value::Long(*number)))
            } else {
                Ok(None)
            }
        }
        Value::Null => {
            if is_reference(kind) {
                Ok(Some(Value::Null))
            } else {
                Ok(None)
            }
        }
        Value::Ref(reference) => {
            if is_reference(kind) {
                Ok(Some(Value::Ref(reference.copy(alloc)?)))
            } else {
                Ok(None)
            }
        }
    }
}

/// The parameters of a method.
pub fn parameters_of(descriptor: &Descriptor) -> &[JType]
    ensures parameters { view_types result.now ≡ parameters_of (view_descriptor descriptor.now) }
{
    match descriptor {
        Descriptor::Method { parameters, .. } => parameters.as_slice(),
        Descriptor::Field(_) => &[],
    }
}

/// Values as they go into types, one each; None where there are more or fewer, or one is of another
/// kind.
pub fn all_fitted(
    alloc: Global,
    kinds: &[JType],
    values: &[Value],
) -> Result<Option<Items<Value>>, AllocError>
    ensures fitted { IfOk result (λ kept. there (option_map view_values kept) ≡ spec.all_fitted (view_types kinds.now) (view_values values.now)) }
{
    let mut kept = Items::new(alloc);
    for at in 0..kinds.len() {
        if at >= values.len() {
            return Ok(None);
        }
        let Some(value) = fitted(alloc, &kinds[at], &values[at])? else {
            return Ok(None);
        };
        kept.push(value)?;
    }
    if values.len() <= kinds.len() {
        Ok(Some(kept))
    } else {
        Ok(None)
    }
}
