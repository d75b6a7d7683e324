//! What operations on values come to, before the outside is asked.

ghost use Rattle.std.specs.Prelude.{◌≡◌};
ghost use Rattle.dj_operators.specs.Computed.{view_computed};
ghost use Rattle.dj_objects.specs.Replies.{view_value_reply};

use dj_operators::Computed;
use dj_outside::Trap;
use dj_values::{Action, Value};

/// What an operation comes to: a value, an action that the outside is asked, an exception that the machine throws by
/// itself, or a stop.
#[derive(Drop)]
pub enum Reply {
    Gives(Value),
    Asks(Action),
    Traps(Trap),
    More,
    Stuck,
}

/// What an operator, a conversion or a cast comes to.
pub fn reply_of(computed: Computed) -> Reply
    ensures same { view_value_reply result ≡ view_computed computed }
{
    match computed {
        Computed::Gives(value) => Reply::Gives(value),
        Computed::Traps(trap) => Reply::Traps(trap),
        Computed::More => Reply::More,
        Computed::Stuck => Reply::Stuck,
    }
}
