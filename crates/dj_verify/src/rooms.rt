//! Whether a frame is within the limits of the code (JVMS 4.10.1.6).

ghost use Rattle.std.specs.Prelude.{◌↔◌, ◌≤◌, IsTrue};
ghost use Rattle.dj_frames.specs.Frames.{view_tags};
ghost use Rattle.dj_code.specs.MethodCode.{view_code};
ghost use Rattle.dj_effects.specs.Doing.{view_working};
ghost use Rattle.dj_verify.specs.Rules.{stack_words, HasRoom};
ghost use Rattle.dj_verify.specs.Checking.{FlowFits, flow_of};

use dj_code::Code;
use dj_effects::{Stack, Working};

/// Whether the entries of a stack take no more words than there are.
fn has_stack_room(stack: &Stack, max_stack: u16) -> bool
    ensures room { IsTrue result ↔ (stack_words (view_tags stack.now) ≤ max_stack) }
{
    stack.fits(max_stack)
}

/// Whether the locals and the stack of a frame are within the limits.
pub fn has_room(code: &Code, frame: &Working) -> bool
    ensures room { IsTrue result ↔ HasRoom (view_code code.now) (view_working frame.now) }
{
    frame.locals.len() <= usize::from(code.max_locals)
        && has_stack_room(&frame.stack, code.max_stack)
}

/// Whether what flows in has no more locals than there are.
pub fn flow_fits(code: &Code, flow: &Option<Working>) -> bool
    ensures fits { IsTrue result ↔ FlowFits (view_code code.now) (flow_of flow.now) }
{
    match flow {
        Some(frame) => frame.locals.len() <= usize::from(code.max_locals),
        None => true,
    }
}
