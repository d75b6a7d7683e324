//! Arrays (JVMS 2.11.5, 6.5).

ghost use Rattle.std.specs.Prelude.{◌≡◌, ℤ, pos, int_le, int_lt, ◌&&◌, List, Option, IfOk, MatchOption};
ghost use Rattle.std.specs.List.{list_any};
ghost use Rattle.dj_names.specs.Types.{view_type, Array};
ghost use Rattle.dj_values.specs.Values as plain;
ghost use Rattle.dj_values.specs.Values.{ArrayStore};
ghost use Rattle.dj_values.specs.Views.{view_reference, view_value, view_values};
ghost use Rattle.dj_values.specs.Fits.{element_of};
ghost use Rattle.dj_values.specs.Outcomes as outcomes;
ghost use Rattle.dj_values.specs.Outcomes.{Halts, ask, there, then_on};
ghost use Rattle.dj_bytecode.specs.Operands as spec;
ghost use Rattle.dj_bytecode.specs.Operands.{with_ints};
ghost use Rattle.dj_bytecode.specs.Objects.{with_element, stored, element_read, element_written, length_read, array_made};
ghost use Rattle.dj_operands.specs.Replies.{view_reply};

use crate::classes::goes;
use dj_headers::Headers;
use dj_names::{Items, JType, Shared};
use dj_operands::{Reply, fitted, int};
use dj_outside::Trap;
use dj_values::{Action, RefValue, Value};
use std::alloc::{AllocError, Global};

/// Whether an index is within an array.
fn is_within(array: &RefValue, index: i32) -> bool
    ensures within { result ≡ (int_le (pos 0) index && int_lt index (pos array.now.length)) }
{
    0 <= index && i64::from(index) < i64::from(array.length)
}

/// `iaload` and those like it.
pub fn load_element(alloc: Global, operands: &[Value]) -> Result<Reply, AllocError>
    ensures read { IfOk result (λ reply. view_reply reply ≡ element_read (view_values operands.now)) }
{
    match operands {
        [Value::Ref(array), Value::Int(index)] => {
            if is_within(array, *index) {
                Ok(Reply::Asks(Action::ArrayLoad(array.copy(alloc)?, *index)))
            } else {
                Ok(Reply::Traps(Trap::Bounds))
            }
        }
        [Value::Null, Value::Int(_)] => Ok(Reply::Traps(Trap::Null)),
        _ => Ok(Reply::Stuck),
    }
}

/// A value that isn't a reference, or is null, stored in an array of such elements.
fn store_fitted(
    alloc: Global,
    array: &RefValue,
    index: i32,
    element: &JType,
    value: &Value,
) -> Result<Reply, AllocError>
    ensures stored { IfOk result (λ reply. view_reply reply ≡ then_on (spec.fitted (view_type element.now) (view_value value.now)) (λ kept. ask (ArrayStore (view_reference array.now) index kept))) }
{
    match fitted(alloc, element, value)? {
        Some(kept) => Ok(Reply::Asks(Action::ArrayStore(array.copy(alloc)?, index, kept))),
        None => Ok(Reply::Stuck),
    }
}

/// A value stored in an array of such elements; a reference that doesn't go there traps.
fn store(
    alloc: Global,
    headers: &Headers,
    array: &RefValue,
    index: i32,
    element: &JType,
    value: &Value,
) -> Result<Reply, AllocError>
    ensures stored { IfOk result (λ reply. view_reply reply ≡ stored headers.now (view_reference array.now) index (view_type element.now) (view_value value.now)) }
{
    match value {
        Value::Ref(reference) => {
            if goes(headers, &reference.class, element) {
                let kept = Value::Ref(reference.copy(alloc)?);
                Ok(Reply::Asks(Action::ArrayStore(array.copy(alloc)?, index, kept)))
            } else {
                Ok(Reply::Traps(Trap::Store))
            }
        }
        Value::Int(_) | Value::Long(_) | Value::Null => {
            store_fitted(alloc, array, index, element, value)
        }
    }
}

/// A value stored in an array: the bounds are looked at first.
fn store_within(
    alloc: Global,
    headers: &Headers,
    array: &RefValue,
    index: i32,
    value: &Value,
) -> Result<Reply, AllocError>
    ensures stored { IfOk result (λ reply. view_reply reply ≡ with_element (view_reference array.now) index (then_on (there (element_of (view_type array.now.class))) (λ element. stored headers.now (view_reference array.now) index element (view_value value.now)))) }
{
    if !is_within(array, index) {
        return Ok(Reply::Traps(Trap::Bounds));
    }
    match &array.class {
        JType::Array(element) => store(alloc, headers, array, index, element.get(), value),
        JType::Boolean
        | JType::Byte
        | JType::Char
        | JType::Short
        | JType::Int
        | JType::Long
        | JType::Float
        | JType::Double
        | JType::Class(_) => Ok(Reply::Stuck),
    }
}

/// `iastore` and those like it.
pub fn store_element(
    alloc: Global,
    headers: &Headers,
    operands: &[Value],
) -> Result<Reply, AllocError>
    ensures written { IfOk result (λ reply. view_reply reply ≡ element_written headers.now (view_values operands.now)) }
{
    match operands {
        [Value::Ref(array), Value::Int(index), value] => {
            store_within(alloc, headers, array, *index, value)
        }
        [Value::Null, Value::Int(_), _] => Ok(Reply::Traps(Trap::Null)),
        _ => Ok(Reply::Stuck),
    }
}

/// `arraylength`
pub fn array_length(operands: &[Value]) -> Reply
    ensures length { view_reply result ≡ length_read (view_values operands.now) }
{
    match operands {
        [Value::Ref(array)] => int(array.length.cast_signed()),
        [Value::Null] => Reply::Traps(Trap::Null),
        _ => Reply::Stuck,
    }
}

/// The ints that values are, None where one is none.
fn ints_of(alloc: Global, values: &[Value]) -> Result<Option<Items<i32>>, AllocError>
    ensures ints { IfOk result (λ ints. MatchOption ints
        ((next : List ℤ → outcomes.Reply (Option plain.Value)) → with_ints (view_values values.now) next ≡ Halts outcomes.Stuck)
        (λ numbers. (next : List ℤ → outcomes.Reply (Option plain.Value)) → with_ints (view_values values.now) next ≡ next numbers)) }
{
    let mut ints = Items::new(alloc);
    for value in values {
        let Value::Int(number) = value else {
            return Ok(None);
        };
        ints.push(*number)?;
    }
    Ok(Some(ints))
}

/// Whether a size is negative.
fn has_negative(sizes: &[i32]) -> bool
    ensures negative { result ≡ list_any (λ size. int_lt size (pos 0)) sizes.now }
{
    sizes.iter().any(|size| *size < 0)
}

/// A new array of this type; a negative size traps, once all are there.
pub fn make_array(alloc: Global, kind: JType, operands: &[Value]) -> Result<Reply, AllocError>
    ensures made { IfOk result (λ reply. view_reply reply ≡ array_made (view_type kind) (view_values operands.now)) }
{
    let Some(sizes) = ints_of(alloc, operands)? else {
        return Ok(Reply::Stuck);
    };
    if has_negative(sizes.as_slice()) {
        Ok(Reply::Traps(Trap::Size))
    } else {
        Ok(Reply::Asks(Action::NewArray(kind, sizes)))
    }
}

/// `newarray` and `anewarray`
pub fn make_row(alloc: Global, element: &JType, operands: &[Value]) -> Result<Reply, AllocError>
    ensures made { IfOk result (λ reply. view_reply reply ≡ array_made (Array (view_type element.now)) (view_values operands.now)) }
{
    let element = Shared::new(alloc, element.copy(alloc)?)?;
    make_array(alloc, JType::Array(element), operands)
}
