//! What an operation on values comes to.

ghost use Rattle.std.specs.Prelude.{◌≡◌};
ghost use Rattle.dj_values.specs.Values.{Int, Long};
ghost use Rattle.dj_values.specs.Outcomes.{Gives};
ghost use Rattle.dj_meaning.specs.Operators as spec;
ghost use Rattle.dj_operators.specs.Computed.{view_computed};

use dj_outside::Trap;
use dj_values::Value;

/// What an operation on values comes to: a value, an exception, or a stop.
#[derive(Drop)]
pub enum Computed {
    Gives(Value),
    Traps(Trap),
    /// It would be a float or double.
    More,
    /// A value is of the wrong sort.
    Stuck,
}

/// An int.
pub fn int(number: i32) -> Computed
    ensures int { view_computed result ≡ Gives (Int number) }
{
    Computed::Gives(Value::Int(number))
}

/// A long.
pub fn long(number: i64) -> Computed
    ensures long { view_computed result ≡ Gives (Long number) }
{
    Computed::Gives(Value::Long(number))
}

/// A boolean, as an int.
pub fn truth(answer: bool) -> Computed
    ensures truth { view_computed result ≡ Gives (spec.truth answer) }
{
    int(i32::from(answer))
}
