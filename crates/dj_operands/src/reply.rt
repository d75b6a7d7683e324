//! What an instruction asks of the outside, or comes to by itself.

ghost use Rattle.std.specs.Prelude.{◌≡◌, Some};
ghost use Rattle.dj_values.specs.Values.{Int, Long};
ghost use Rattle.dj_values.specs.Outcomes.{Gives};
ghost use Rattle.dj_operands.specs.Replies.{view_reply};

use dj_outside::Trap;
use dj_values::{Action, RefValue, Value};

/// What an instruction asks of the outside, or comes to by itself.
#[derive(Drop)]
pub enum Reply {
    /// A value, or none.
    Gives(Option<Value>),
    Throws(RefValue),
    Asks(Action),
    Traps(Trap),
    /// An operand is missing or of another kind.
    Stuck,
}

/// An int is given.
pub fn int(number: i32) -> Reply
    ensures int { view_reply result ≡ Gives (Some (Int number)) }
{
    Reply::Gives(Some(Value::Int(number)))
}

/// A long is given.
pub fn long(number: i64) -> Reply
    ensures long { view_reply result ≡ Gives (Some (Long number)) }
{
    Reply::Gives(Some(Value::Long(number)))
}
