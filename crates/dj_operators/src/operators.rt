//! Binary operators (JLS 15.17 to 15.24).

ghost use Rattle.std.specs.Prelude.{◌≡◌};
ghost use Rattle.dj_values.specs.Views.{view_value};
ghost use Rattle.dj_operators.specs.Computed.{view_computed};
ghost use Rattle.dj_operators.specs.Strict.{operation_of};

use crate::computed::Computed;
use crate::equality::{differs, equals};
use crate::numbers::{of_numbers, shifted};
use dj_syntax::Op;
use dj_values::Value;

/// What an operator makes of its operands' values; `&&` and `||`, which look at the left one first,
/// make nothing of both.
pub fn operated(operator: Op, left: &Value, right: &Value) -> Computed
    ensures operated { view_computed result ≡ operation_of operator (view_value left.now) (view_value right.now) }
{
    match operator {
        Op::Mul
        | Op::Div
        | Op::Rem
        | Op::Add
        | Op::Sub
        | Op::Lt
        | Op::Le
        | Op::Gt
        | Op::Ge
        | Op::And
        | Op::Xor
        | Op::Or => of_numbers(operator, left, right),
        Op::Shl | Op::Shr | Op::Ushr => shifted(operator, left, right),
        Op::Eq => equals(left, right),
        Op::Ne => differs(left, right),
        Op::AndAlso | Op::OrElse => Computed::Stuck,
    }
}
