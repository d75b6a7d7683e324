//! Arrays (JLS 10.5, 10.7, 15.10, 15.13, 15.26.1).

ghost use Rattle.std.specs.Prelude.{◌≡◌, ◌&&◌, ℤ, pos, int_le, int_lt, List, IfOk, MatchOption};
ghost use Rattle.std.specs.List.{list_any};
ghost use Rattle.dj_names.specs.Types.{view_type};
ghost use Rattle.dj_values.specs.Values as plain;
ghost use Rattle.dj_values.specs.Views.{view_reference, view_value, view_values};
ghost use Rattle.dj_values.specs.Deciding as deciding;
ghost use Rattle.dj_values.specs.Outcomes as outcomes;
ghost use Rattle.dj_meaning.specs.Objects as spec;
ghost use Rattle.dj_objects.specs.Replies.{view_reply, view_value_reply};

use crate::replies::Reply;
use dj_headers::{Headers, is_subtype};
use dj_names::{Items, JType};
use dj_outside::Trap;
use dj_static::element_of;
use dj_values::{Action, RefValue, Value};
use std::alloc::{AllocError, Global};

/// Whether a type goes where another is wanted, without a cast.
fn goes(headers: &Headers, from: &JType, to: &JType) -> bool
    ensures goes { result ≡ deciding.is_subtype headers.now (view_type from.now) (view_type to.now) }
{
    is_subtype(headers, from, to)
}

/// Whether an index is within an array.
fn is_within(array: &RefValue, index: i32) -> bool
    ensures within { result ≡ (int_le (pos 0) index && int_lt index (pos array.now.length)) }
{
    0 <= index && i64::from(index) < i64::from(array.length)
}

/// An element that is read: null traps first.
pub fn read(array: Value, index: &Value) -> Reply
    ensures read { view_value_reply result ≡ spec.element_read (view_value array) (view_value index.now) }
{
    match (array, index) {
        (Value::Ref(array), Value::Int(index)) => {
            if is_within(&array, *index) {
                Reply::Asks(Action::ArrayLoad(array, *index))
            } else {
                Reply::Traps(Trap::Bounds)
            }
        }
        (Value::Null, Value::Int(_)) => Reply::Traps(Trap::Null),
        _ => Reply::Stuck,
    }
}

/// A value that goes into an element: a reference that the array doesn't hold traps.
fn held(headers: &Headers, array: RefValue, index: i32, value: Value) -> Reply
    ensures written { view_reply result ≡ spec.element_held headers.now (view_reference array) index (view_value value) }
{
    match value {
        Value::Ref(reference) => match element_of(&array.class) {
            Some(element) => {
                if goes(headers, &reference.class, element) {
                    Reply::Asks(Action::ArrayStore(array, index, Value::Ref(reference)))
                } else {
                    Reply::Traps(Trap::Store)
                }
            }
            None => Reply::Stuck,
        },
        Value::Int(number) => Reply::Asks(Action::ArrayStore(array, index, Value::Int(number))),
        Value::Long(number) => Reply::Asks(Action::ArrayStore(array, index, Value::Long(number))),
        Value::Null => Reply::Asks(Action::ArrayStore(array, index, Value::Null)),
    }
}

/// A value that goes into the element at an index: null traps first, then an index that isn't within the array.
pub fn write(headers: &Headers, array: Value, index: &Value, value: Value) -> Reply
    ensures written { view_reply result ≡ spec.element_written headers.now (view_value array) (view_value index.now) (view_value value) }
{
    match (array, index) {
        (Value::Ref(array), Value::Int(index)) => {
            if is_within(&array, *index) {
                held(headers, array, *index, value)
            } else {
                Reply::Traps(Trap::Bounds)
            }
        }
        (Value::Null, Value::Int(_)) => Reply::Traps(Trap::Null),
        _ => Reply::Stuck,
    }
}

/// The ints that values are, None where one is none.
fn ints_of(alloc: Global, values: &[Value]) -> Result<Option<Items<i32>>, AllocError>
    ensures ints { IfOk result (λ ints. MatchOption ints
        ((next : List ℤ → outcomes.Reply plain.Value) → spec.with_ints (view_values values.now) next ≡ outcomes.Halts outcomes.Stuck)
        (λ numbers. (next : List ℤ → outcomes.Reply plain.Value) → spec.with_ints (view_values values.now) next ≡ next numbers)) }
{
    let mut ints = Items::new(alloc);
    for value in values {
        let Value::Int(number) = value else {
            return Ok(None);
        };
        ints.push(*number)?;
    }
    Ok(Some(ints))
}

/// Whether a size is negative.
fn has_negative(sizes: &[i32]) -> bool
    ensures negative { result ≡ list_any (λ size. int_lt size (pos 0)) sizes.now }
{
    sizes.iter().any(|size| *size < 0)
}

/// A new array of this type; a negative size traps, once all are there.
pub fn make(alloc: Global, kind: JType, sizes: &[Value]) -> Result<Reply, AllocError>
    ensures made { IfOk result (λ reply. view_value_reply reply ≡ spec.array_made (view_type kind) (view_values sizes.now)) }
{
    let Some(numbers) = ints_of(alloc, sizes)? else {
        return Ok(Reply::Stuck);
    };
    if has_negative(numbers.as_slice()) {
        Ok(Reply::Traps(Trap::Size))
    } else {
        Ok(Reply::Asks(Action::NewArray(kind, numbers)))
    }
}
