//! Operators between their operands (JLS 15.7, 15.23, 15.24).

ghost use Rattle.std.specs.Prelude.{◌≡◌};
ghost use Rattle.dj_values.specs.Views.{view_value};
ghost use Rattle.dj_operators.specs.Computed.{view_computed};
ghost use Rattle.dj_meaning.specs.Operators as spec;
ghost use Rattle.dj_evaluating.specs.Operands.{after_answer, operation_in, IsBehindLeft};

use dj_operators::{Computed, operated, truth_of};
use dj_outside::Stop;
use dj_syntax::Op;
use dj_values::Value;

/// What comes of an operator's left operand: the operator's value, or that the right one is wanted besides.
#[derive(Drop)]
pub enum Left {
    Gives(Value),
    Wants(Value),
}

/// A boolean, as an int.
pub fn truth(answer: bool) -> Value
    ensures truth { view_value result ≡ spec.truth answer }
{
    Value::Int(i32::from(answer))
}

/// The answer of the left operand after which the right one is wanted, of an operator that looks at it first.
fn answer_wanted(operator: Op) -> Option<bool>
    ensures wanted { result ≡ after_answer (spec.operator_of operator) }
{
    match operator {
        Op::AndAlso => Some(true),
        Op::OrElse => Some(false),
        Op::Mul
        | Op::Div
        | Op::Rem
        | Op::Add
        | Op::Sub
        | Op::Shl
        | Op::Shr
        | Op::Ushr
        | Op::Lt
        | Op::Le
        | Op::Gt
        | Op::Ge
        | Op::Eq
        | Op::Ne
        | Op::And
        | Op::Xor
        | Op::Or => None,
    }
}

/// Whether the right operand is wanted after this answer of the left one.
fn is_wanted(wanted: bool, answer: bool) -> bool
    ensures wanted { result ≡ spec.is_wanted wanted answer }
{
    if wanted { answer } else { !answer }
}

/// What comes of the value of an operator's left operand, which goes no further where it becomes a float or double.
#[tactic(auto, using(crate::proofs::OperandLemmas::floats_more, crate::proofs::OperandLemmas::wants_right, crate::proofs::OperandLemmas::no_truth, crate::proofs::OperandLemmas::wants_after, crate::proofs::OperandLemmas::gives_after))]
pub fn after_left(operator: Op, floating: bool, value: Value) -> Result<Left, Stop>
    ensures left { IsBehindLeft (spec.operator_of operator) floating (view_value value) result }
{
    match answer_wanted(operator) {
        None => {
            if floating {
                Err(Stop::More)
            } else {
                Ok(Left::Wants(value))
            }
        }
        Some(wanted) => match truth_of(&value) {
            None => Err(Stop::Stuck),
            Some(answer) => {
                if is_wanted(wanted, answer) {
                    Ok(Left::Wants(value))
                } else {
                    Ok(Left::Gives(truth(answer)))
                }
            }
        },
    }
}

/// What an operator makes of both its operands' values, where it wants the right one.
#[tactic(auto, using(crate::proofs::OperandLemmas::joined_strict, crate::proofs::OperandLemmas::joined_after))]
pub fn joined(operator: Op, left: &Value, right: &Value) -> Computed
    ensures joined { view_computed result ≡ operation_in (spec.operator_of operator) (view_value left.now) (view_value right.now) }
{
    match answer_wanted(operator) {
        None => operated(operator, left, right),
        Some(_) => match truth_of(right) {
            None => Computed::Stuck,
            Some(answer) => Computed::Gives(truth(answer)),
        },
    }
}
