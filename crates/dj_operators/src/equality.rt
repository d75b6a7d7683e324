//! `==` and `!=` (JLS 15.21).

ghost use Rattle.std.specs.Prelude.{◌≡◌, Bool};
ghost use Rattle.dj_syntax.specs.declared.operator.Op.TheVariants.{Eq, Ne};
ghost use Rattle.dj_values.specs.Views.{view_id, view_value};
ghost use Rattle.dj_meaning.specs.Operators as spec;
ghost use Rattle.dj_operators.specs.Computed.{view_computed, answered};
ghost use Rattle.dj_operators.specs.Strict.{operation_of};

use crate::computed::{Computed, truth};
use dj_values::{RefId, Value};

/// Whether two references are the same.
fn is_same(first: &RefId, second: &RefId) -> bool
    ensures same { result ≡ spec.is_same (view_id first.now) (view_id second.now) }
{
    match first {
        RefId::Number(number) => match second {
            RefId::Number(other) => number == other,
            RefId::Text(_) => false,
        },
        RefId::Text(units) => match second {
            RefId::Number(_) => false,
            RefId::Text(other) => units == other,
        },
    }
}

/// Whether two values are equal, None where they can't be compared.
fn equal(left: &Value, right: &Value) -> Option<bool>
    ensures equal { (answer : Bool → Bool) → spec.equality answer (view_value left.now) (view_value right.now) ≡ answered answer result }
{
    match (left, right) {
        (Value::Int(left), Value::Int(right)) => Some(left == right),
        (Value::Int(left), Value::Long(right)) => Some(i64::from(*left) == *right),
        (Value::Long(left), Value::Int(right)) => Some(*left == i64::from(*right)),
        (Value::Long(left), Value::Long(right)) => Some(left == right),
        (Value::Null, Value::Null) => Some(true),
        (Value::Null, Value::Ref(_)) | (Value::Ref(_), Value::Null) => Some(false),
        (Value::Ref(left), Value::Ref(right)) => Some(is_same(&left.id, &right.id)),
        (Value::Int(_) | Value::Long(_), Value::Null | Value::Ref(_))
        | (Value::Null | Value::Ref(_), Value::Int(_) | Value::Long(_)) => None,
    }
}

/// `==`
pub fn equals(left: &Value, right: &Value) -> Computed
    ensures equals { view_computed result ≡ operation_of Eq (view_value left.now) (view_value right.now) }
{
    match equal(left, right) {
        Some(answer) => truth(answer),
        None => Computed::Stuck,
    }
}

/// `!=`
pub fn differs(left: &Value, right: &Value) -> Computed
    ensures differs { view_computed result ≡ operation_of Ne (view_value left.now) (view_value right.now) }
{
    match equal(left, right) {
        Some(answer) => truth(!answer),
        None => Computed::Stuck,
    }
}
