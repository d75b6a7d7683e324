//! Conversions of numbers, and their comparison (JVMS 2.11.4, 2.11.7, 6.5).

ghost use Rattle.std.specs.Prelude.{◌≡◌};
ghost use Rattle.std.specs.Int.{w32, int_wrap};
ghost use Rattle.dj_names.specs.Types.{view_type};
ghost use Rattle.dj_values.specs.Views.{view_values};
ghost use Rattle.dj_values.specs.Values.{Int, Long};
ghost use Rattle.dj_values.specs.Outcomes.{Gives};
ghost use Rattle.dj_bytecode.specs.Operands as spec;
ghost use Rattle.dj_bytecode.specs.Calculations.{on_int, on_long, compared};
ghost use Rattle.dj_bytecode.specs.Meanings.{int_conversion, long_conversion, conversion, comparison};
ghost use Rattle.dj_operands.specs.Replies.{view_reply, operation_of};

use crate::operands::narrowed;
use crate::reply::{Reply, int, long};
use dj_instructions::Kind;
use dj_names::JType;
use dj_values::Value;

/// The low 32 bits of a long.
fn to_int(number: i64) -> i32
    ensures int { result ≡ int_wrap w32 number }
{
    (number.rem_euclid(4_294_967_296) as u32).cast_signed()
}

/// An int as a narrower type keeps it.
fn narrow(kind: &JType, operands: &[Value]) -> Reply
    ensures narrowed { view_reply result ≡ on_int (spec.narrowed (view_type kind.now)) (view_values operands.now) }
{
    match operands {
        [Value::Int(number)] => match narrowed(kind, *number) {
            Some(kept) => int(kept),
            None => Reply::Stuck,
        },
        [Value::Long(_)] | [Value::Null] | [Value::Ref(_)] => Reply::Stuck,
        [] | [_, _, ..] => Reply::Stuck,
    }
}

/// An int as a long.
fn widen(operands: &[Value]) -> Reply
    ensures widened { view_reply result ≡ on_int (λ number. Gives (Long number)) (view_values operands.now) }
{
    match operands {
        [Value::Int(number)] => long(i64::from(*number)),
        _ => Reply::Stuck,
    }
}

/// A long as an int.
fn cut(operands: &[Value]) -> Reply
    ensures cut { view_reply result ≡ on_long (λ number. Gives (Int (int_wrap w32 number))) (view_values operands.now) }
{
    match operands {
        [Value::Long(number)] => int(to_int(*number)),
        _ => Reply::Stuck,
    }
}

/// A conversion of an int.
fn convert_int(to: &JType, operands: &[Value]) -> Reply
    ensures converted { view_reply result ≡ operation_of (int_conversion (view_type to.now)) (view_values operands.now) }
{
    match to {
        JType::Byte | JType::Char | JType::Short => narrow(to, operands),
        JType::Long => widen(operands),
        JType::Boolean
        | JType::Int
        | JType::Float
        | JType::Double
        | JType::Class(_)
        | JType::Array(_) => Reply::Stuck,
    }
}

/// A conversion of a long.
fn convert_long(to: &JType, operands: &[Value]) -> Reply
    ensures converted { view_reply result ≡ operation_of (long_conversion (view_type to.now)) (view_values operands.now) }
{
    match to {
        JType::Int => cut(operands),
        JType::Boolean
        | JType::Byte
        | JType::Char
        | JType::Short
        | JType::Long
        | JType::Float
        | JType::Double
        | JType::Class(_)
        | JType::Array(_) => Reply::Stuck,
    }
}

/// A conversion from a kind.
pub fn convert(from: Kind, to: &JType, operands: &[Value]) -> Reply
    ensures converted { view_reply result ≡ operation_of (conversion from (view_type to.now)) (view_values operands.now) }
{
    match from {
        Kind::Int => convert_int(to, operands),
        Kind::Long => convert_long(to, operands),
        Kind::Float | Kind::Double | Kind::Ref => Reply::Stuck,
    }
}

/// -1, 0 or 1, as the first long is less, equal or greater.
fn compared(left: i64, right: i64) -> i32
    ensures compared { compared left right ≡ Gives (Int result) }
{
    if left < right {
        -1
    } else if left == right {
        0
    } else {
        1
    }
}

/// A comparison of two numbers of a kind.
pub fn compare(kind: Kind, operands: &[Value]) -> Reply
    ensures compared { view_reply result ≡ operation_of (comparison kind) (view_values operands.now) }
{
    match kind {
        Kind::Long => match operands {
            [Value::Long(left), Value::Long(right)] => int(compared(*left, *right)),
            _ => Reply::Stuck,
        },
        Kind::Int | Kind::Float | Kind::Double | Kind::Ref => Reply::Stuck,
    }
}
