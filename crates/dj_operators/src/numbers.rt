//! Operators on two numbers, and shifts (JLS 15.17 to 15.20, 15.22).

ghost use Rattle.std.specs.Prelude.{◌≡◌, ◌<◌, pos, unsigned_abs};
ghost use Rattle.std.specs.Int.{int_rem_euclid};
ghost use Rattle.dj_values.specs.Values.{Int, Long};
ghost use Rattle.dj_values.specs.Views.{view_value};
ghost use Rattle.dj_operators.specs.Computed.{view_computed};
ghost use Rattle.dj_operators.specs.Strict.{operation_of, IsOfNumbers, IsShift};

use crate::computed::{Computed, int, long, truth};
use dj_outside::Trap;
use dj_syntax::Op;
use dj_values::Value;

/// What an operator on numbers makes of two ints; a divisor of 0 traps.
fn of_ints(operator: Op, left: i32, right: i32) -> Computed
    ensures ints { IsOfNumbers operator → view_computed result ≡ operation_of operator (Int left) (Int right) }
{
    match operator {
        Op::Mul => int(left.wrapping_mul(right)),
        Op::Div if right == 0 => Computed::Traps(Trap::Arithmetic),
        Op::Div => int(left.wrapping_div(right)),
        Op::Rem if right == 0 => Computed::Traps(Trap::Arithmetic),
        Op::Rem => int(left.wrapping_rem(right)),
        Op::Add => int(left.wrapping_add(right)),
        Op::Sub => int(left.wrapping_sub(right)),
        Op::Lt => truth(left < right),
        Op::Le => truth(left <= right),
        Op::Gt => truth(left > right),
        Op::Ge => truth(left >= right),
        Op::And => int(left & right),
        Op::Xor => int(left ^ right),
        Op::Or => int(left | right),
        Op::Shl | Op::Shr | Op::Ushr | Op::Eq | Op::Ne | Op::AndAlso | Op::OrElse => {
            Computed::Stuck
        }
    }
}

/// What an operator on numbers makes of two longs; a divisor of 0 traps.
fn of_longs(operator: Op, left: i64, right: i64) -> Computed
    ensures longs { IsOfNumbers operator → view_computed result ≡ operation_of operator (Long left) (Long right) }
{
    match operator {
        Op::Mul => long(left.wrapping_mul(right)),
        Op::Div if right == 0 => Computed::Traps(Trap::Arithmetic),
        Op::Div => long(left.wrapping_div(right)),
        Op::Rem if right == 0 => Computed::Traps(Trap::Arithmetic),
        Op::Rem => long(left.wrapping_rem(right)),
        Op::Add => long(left.wrapping_add(right)),
        Op::Sub => long(left.wrapping_sub(right)),
        Op::Lt => truth(left < right),
        Op::Le => truth(left <= right),
        Op::Gt => truth(left > right),
        Op::Ge => truth(left >= right),
        Op::And => long(left & right),
        Op::Xor => long(left ^ right),
        Op::Or => long(left | right),
        Op::Shl | Op::Shr | Op::Ushr | Op::Eq | Op::Ne | Op::AndAlso | Op::OrElse => {
            Computed::Stuck
        }
    }
}

/// What an operator on numbers makes of its operands, both as longs where one of them is.
pub fn of_numbers(operator: Op, left: &Value, right: &Value) -> Computed
    ensures numbers { IsOfNumbers operator → view_computed result ≡ operation_of operator (view_value left.now) (view_value right.now) }
{
    match (left, right) {
        (Value::Int(left), Value::Int(right)) => of_ints(operator, *left, *right),
        (Value::Int(left), Value::Long(right)) => of_longs(operator, i64::from(*left), *right),
        (Value::Long(left), Value::Int(right)) => of_longs(operator, *left, i64::from(*right)),
        (Value::Long(left), Value::Long(right)) => of_longs(operator, *left, *right),
        (Value::Null | Value::Ref(_), _) | (_, Value::Null | Value::Ref(_)) => Computed::Stuck,
    }
}

/// How far an int is shifted: the low five bits of the distance.
fn int_places(distance: i64) -> u32
    ensures places { result ≡ unsigned_abs (int_rem_euclid distance (pos 32)) }
    ensures below { result < 32 }
{
    distance.rem_euclid(32) as u32
}

/// How far a long is shifted: the low six bits of the distance.
fn long_places(distance: i64) -> u32
    ensures places { result ≡ unsigned_abs (int_rem_euclid distance (pos 64)) }
    ensures below { result < 64 }
{
    distance.rem_euclid(64) as u32
}

/// An int that is shifted.
fn int_shifted(operator: Op, number: i32, distance: i64) -> Computed
    ensures shifted { IsShift operator → view_computed result ≡ operation_of operator (Int number) (Long distance) }
{
    let places = int_places(distance);
    match operator {
        Op::Shl => int(number << places),
        Op::Shr => int(number >> places),
        Op::Ushr => int((number.cast_unsigned() >> places).cast_signed()),
        Op::Mul
        | Op::Div
        | Op::Rem
        | Op::Add
        | Op::Sub
        | Op::Lt
        | Op::Le
        | Op::Gt
        | Op::Ge
        | Op::Eq
        | Op::Ne
        | Op::And
        | Op::Xor
        | Op::Or
        | Op::AndAlso
        | Op::OrElse => Computed::Stuck,
    }
}

/// A long that is shifted.
fn long_shifted(operator: Op, number: i64, distance: i64) -> Computed
    ensures shifted { IsShift operator → view_computed result ≡ operation_of operator (Long number) (Long distance) }
{
    let places = long_places(distance);
    match operator {
        Op::Shl => long(number << places),
        Op::Shr => long(number >> places),
        Op::Ushr => long((number.cast_unsigned() >> places).cast_signed()),
        Op::Mul
        | Op::Div
        | Op::Rem
        | Op::Add
        | Op::Sub
        | Op::Lt
        | Op::Le
        | Op::Gt
        | Op::Ge
        | Op::Eq
        | Op::Ne
        | Op::And
        | Op::Xor
        | Op::Or
        | Op::AndAlso
        | Op::OrElse => Computed::Stuck,
    }
}

/// A shift, of a number as wide as it is by itself.
pub fn shifted(operator: Op, left: &Value, right: &Value) -> Computed
    ensures shifted { IsShift operator → view_computed result ≡ operation_of operator (view_value left.now) (view_value right.now) }
{
    match (left, right) {
        (Value::Int(number), Value::Int(distance)) => {
            int_shifted(operator, *number, i64::from(*distance))
        }
        (Value::Int(number), Value::Long(distance)) => int_shifted(operator, *number, *distance),
        (Value::Long(number), Value::Int(distance)) => {
            long_shifted(operator, *number, i64::from(*distance))
        }
        (Value::Long(number), Value::Long(distance)) => long_shifted(operator, *number, *distance),
        (Value::Null | Value::Ref(_), _) | (_, Value::Null | Value::Ref(_)) => Computed::Stuck,
    }
}
