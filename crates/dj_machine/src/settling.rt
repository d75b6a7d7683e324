//! What replies come to.

ghost use Rattle.std.specs.Prelude.{option_map};
ghost use Rattle.dj_values.specs.Views.{view_value};
ghost use Rattle.dj_values.specs.Outcomes as outcomes;
ghost use Rattle.dj_operands.specs.Replies.{view_reply};
ghost use Rattle.dj_outside.specs.Runs.{world_of, alone, Ends};

use dj_headers::Headers;
use dj_operands::Reply;
use dj_outside::{Outside, Stop};
use dj_values::Value;
use std::alloc::Global;

/// What a reply comes to: what is given, or told of the action that is asked.
pub fn settle(
    alloc: Global,
    headers: &Headers,
    reply: Reply,
    outside: &mut Outside<'_>,
) -> Result<Option<Value>, Stop>
    ensures settled { Ends (option_map view_value) result (alone (world_of outside.new))
        (outcomes.outside headers.now (view_reply reply) (alone (world_of outside.old))) }
{
    match reply {
        Reply::Gives(value) => Ok(value),
        Reply::Throws(reference) => Err(Stop::Throws(reference)),
        Reply::Asks(action) => {
            let told = outside.ask(alloc, headers, action)?;
            Ok(told)
        }
        Reply::Traps(trap) => Err(outside.trap(alloc, headers, trap)),
        Reply::Stuck => Err(Stop::Stuck),
    }
}
