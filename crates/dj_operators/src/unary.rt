//! Operators of one operand, and booleans (JLS 15.15, 15.23 to 15.25).

ghost use Rattle.std.specs.Prelude.{◌≡◌};
ghost use Rattle.dj_values.specs.Views.{view_value};
ghost use Rattle.dj_values.specs.Outcomes.{there};
ghost use Rattle.dj_meaning.specs.Operators as spec;
ghost use Rattle.dj_meaning.specs.UnaryOperators as spec_unary;
ghost use Rattle.dj_operators.specs.Computed.{view_computed};

use crate::computed::{Computed, int, long, truth};
use dj_values::Value;

/// A number with its sign changed.
pub fn negated(value: &Value) -> Computed
    ensures negated { view_computed result ≡ spec_unary.negated (view_value value.now) }
{
    match value {
        Value::Int(number) => int(number.wrapping_neg()),
        Value::Long(number) => long(number.wrapping_neg()),
        Value::Null | Value::Ref(_) => Computed::Stuck,
    }
}

/// A value as a boolean, None where it is none.
pub fn truth_of(value: &Value) -> Option<bool>
    ensures truth { spec.truth_of (view_value value.now) ≡ there result }
{
    match value {
        Value::Int(number) => Some(*number != 0),
        Value::Long(_) | Value::Null | Value::Ref(_) => None,
    }
}

/// The other boolean.
pub fn inverted(value: &Value) -> Computed
    ensures inverted { view_computed result ≡ spec_unary.inverted (view_value value.now) }
{
    match value {
        Value::Int(number) => truth(*number == 0),
        Value::Long(_) | Value::Null | Value::Ref(_) => Computed::Stuck,
    }
}
