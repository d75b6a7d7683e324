//! Arithmetic on ints and longs (JVMS 2.11.3, 6.5).

ghost use Rattle.std.specs.Prelude.{◌≡◌, ◌<◌, Some};
ghost use Rattle.std.specs.Int.{w32, w64};
ghost use Rattle.dj_values.specs.Values.{Int, Long};
ghost use Rattle.dj_values.specs.Views.{view_values};
ghost use Rattle.dj_values.specs.Outcomes.{Gives, then_on};
ghost use Rattle.dj_bytecode.specs.Calculations as spec;
ghost use Rattle.dj_bytecode.specs.Calculations.{calculated, distance};
ghost use Rattle.dj_instructions.specs.declared.kinds.Calc.TheVariants.{Neg};
ghost use Rattle.dj_bytecode.specs.Meanings.{calculation, int_calculation, long_calculation};
ghost use Rattle.dj_operands.specs.Replies.{view_reply, operation_of, IsShift, IsPlain};

use crate::reply::{Reply, int, long};
use dj_instructions::{Calc, Kind};
use dj_outside::Trap;
use dj_values::Value;

/// How far to shift an int: the low five bits of the distance.
fn int_distance(number: i32) -> u32
    ensures distance { result ≡ distance w32 number }
    ensures below { result < 32 }
{
    number.rem_euclid(32) as u32
}

/// How far to shift a long: the low six bits of the distance.
fn long_distance(number: i32) -> u32
    ensures distance { result ≡ distance w64 number }
    ensures below { result < 64 }
{
    number.rem_euclid(64) as u32
}

/// What an operation makes of two ints; a divisor of 0 traps.
fn int_calculated(operation: Calc, left: i32, right: i32) -> Reply
    ensures calculated { view_reply result ≡ then_on (calculated w32 operation left right) (λ number. Gives (Some (Int number))) }
{
    match operation {
        Calc::Add => int(left.wrapping_add(right)),
        Calc::Sub => int(left.wrapping_sub(right)),
        Calc::Mul => int(left.wrapping_mul(right)),
        Calc::Div => {
            if right == 0 {
                Reply::Traps(Trap::Arithmetic)
            } else {
                int(left.wrapping_div(right))
            }
        }
        Calc::Rem => {
            if right == 0 {
                Reply::Traps(Trap::Arithmetic)
            } else {
                int(left.wrapping_rem(right))
            }
        }
        Calc::Neg => Reply::Stuck,
        Calc::Shl => int(left << int_distance(right)),
        Calc::Shr => int(left >> int_distance(right)),
        Calc::Ushr => int((left.cast_unsigned() >> int_distance(right)).cast_signed()),
        Calc::And => int(left & right),
        Calc::Or => int(left | right),
        Calc::Xor => int(left ^ right),
    }
}

/// What an operation other than a shift makes of two longs; a divisor of 0 traps.
fn long_calculated(operation: Calc, left: i64, right: i64) -> Reply
    ensures calculated { IsPlain operation → view_reply result ≡ then_on (spec.long_calculated operation left right) (λ given. Gives (Some given)) }
{
    match operation {
        Calc::Add => long(left.wrapping_add(right)),
        Calc::Sub => long(left.wrapping_sub(right)),
        Calc::Mul => long(left.wrapping_mul(right)),
        Calc::Div => {
            if right == 0 {
                Reply::Traps(Trap::Arithmetic)
            } else {
                long(left.wrapping_div(right))
            }
        }
        Calc::Rem => {
            if right == 0 {
                Reply::Traps(Trap::Arithmetic)
            } else {
                long(left.wrapping_rem(right))
            }
        }
        Calc::And => long(left & right),
        Calc::Or => long(left | right),
        Calc::Xor => long(left ^ right),
        Calc::Neg | Calc::Shl | Calc::Shr | Calc::Ushr => Reply::Stuck,
    }
}

/// A long shifted as far as an int says.
fn long_shifted(operation: Calc, number: i64, by: i32) -> Reply
    ensures shifted { IsShift operation → view_reply result ≡ then_on (calculated w64 operation number by) (λ given. Gives (Some (Long given))) }
{
    let places = long_distance(by);
    match operation {
        Calc::Shl => long(number << places),
        Calc::Shr => long(number >> places),
        Calc::Ushr => long((number.cast_unsigned() >> places).cast_signed()),
        Calc::Add
        | Calc::Sub
        | Calc::Mul
        | Calc::Div
        | Calc::Rem
        | Calc::Neg
        | Calc::And
        | Calc::Or
        | Calc::Xor => Reply::Stuck,
    }
}

/// An operation on two ints.
fn on_ints(operation: Calc, operands: &[Value]) -> Reply
    ensures ints { view_reply result ≡ spec.on_ints (calculated w32 operation) (view_values operands.now) }
{
    match operands {
        [Value::Int(left), Value::Int(right)] => int_calculated(operation, *left, *right),
        _ => Reply::Stuck,
    }
}

/// An operation on two longs.
fn on_longs(operation: Calc, operands: &[Value]) -> Reply
    ensures longs { IsPlain operation → view_reply result ≡ spec.on_longs (spec.long_calculated operation) (view_values operands.now) }
{
    match operands {
        [Value::Long(left), Value::Long(right)] => long_calculated(operation, *left, *right),
        _ => Reply::Stuck,
    }
}

/// A shift of a long.
fn on_long_and_int(operation: Calc, operands: &[Value]) -> Reply
    ensures shift { IsShift operation → view_reply result ≡ spec.on_long_and_int (calculated w64 operation) (view_values operands.now) }
{
    match operands {
        [Value::Long(number), Value::Int(by)] => long_shifted(operation, *number, *by),
        _ => Reply::Stuck,
    }
}

/// An int with the other sign.
fn negated_int(operands: &[Value]) -> Reply
    ensures negated { view_reply result ≡ operation_of (int_calculation Neg) (view_values operands.now) }
{
    match operands {
        [Value::Int(number)] => int(number.wrapping_neg()),
        _ => Reply::Stuck,
    }
}

/// A long with the other sign.
fn negated_long(operands: &[Value]) -> Reply
    ensures negated { view_reply result ≡ operation_of (long_calculation Neg) (view_values operands.now) }
{
    match operands {
        [Value::Long(number)] => long(number.wrapping_neg()),
        _ => Reply::Stuck,
    }
}

/// Arithmetic on ints.
fn calculate_ints(operation: Calc, operands: &[Value]) -> Reply
    ensures calculated { view_reply result ≡ operation_of (int_calculation operation) (view_values operands.now) }
{
    match operation {
        Calc::Neg => negated_int(operands),
        Calc::Add
        | Calc::Sub
        | Calc::Mul
        | Calc::Div
        | Calc::Rem
        | Calc::Shl
        | Calc::Shr
        | Calc::Ushr
        | Calc::And
        | Calc::Or
        | Calc::Xor => on_ints(operation, operands),
    }
}

/// Arithmetic on longs.
fn calculate_longs(operation: Calc, operands: &[Value]) -> Reply
    ensures calculated { view_reply result ≡ operation_of (long_calculation operation) (view_values operands.now) }
{
    match operation {
        Calc::Neg => negated_long(operands),
        Calc::Shl | Calc::Shr | Calc::Ushr => on_long_and_int(operation, operands),
        Calc::Add
        | Calc::Sub
        | Calc::Mul
        | Calc::Div
        | Calc::Rem
        | Calc::And
        | Calc::Or
        | Calc::Xor => on_longs(operation, operands),
    }
}

/// Arithmetic of a kind.
pub fn calculate(operation: Calc, kind: Kind, operands: &[Value]) -> Reply
    ensures calculated { view_reply result ≡ operation_of (calculation operation kind) (view_values operands.now) }
{
    match kind {
        Kind::Int => calculate_ints(operation, operands),
        Kind::Long => calculate_longs(operation, operands),
        Kind::Float | Kind::Double | Kind::Ref => Reply::Stuck,
    }
}
