//! One frame behind others (JVMS 4.7.4).

ghost use Rattle.std.specs.Prelude.{◌≡◌, ◌≤◌, ◌+◌, ◌^◌, ◌++◌, ◌∷◌, [], length, IfOk, MatchOption};
ghost use Rattle.dj_instructions.specs.Instructions.{view_instructions, IsRising};
ghost use Rattle.dj_frames.specs.Frames.{view_tags};
ghost use Rattle.dj_stack_map.specs.StackMap.{form_of, changed, chopped};
ghost use Rattle.dj_stack_map.specs.Reading.{CanFollow, IsBehind};

use crate::form::{Change, form_of};
use crate::places::start_at;
use crate::written::Written;
use dj_frames::{Frame, Locals, Tag};
use dj_instructions::Instruction;
use dj_names::Items;
use std::alloc::{AllocError, Global};
use std::mem;

/// The frames so far by their pcs, the locals of the last one, where a frame with delta 0 is behind
/// it, and the place of the first instruction that isn't before that.
#[derive(Drop)]
pub struct Listed {
    pub frames: Items<(u32, Frame)>,
    pub locals: Locals,
    pub least: u64,
    pub near: usize,
}

/// Makes the locals of the frame before those of a frame, by the values that are written; None where
/// fewer are there than are chopped.
fn change_locals(
    alloc: Global,
    locals: &mut Locals,
    change: Change,
    written: Items<Tag>,
) -> Result<Option<()>, AllocError>
    ensures changed { IfOk result (λ found. MatchOption found (¬ (chopped change ≤ length locals.old)) (λ _. view_tags locals.new ≡ changed change (view_tags locals.old) (view_tags written))) }
    ensures enough { IfOk result (λ found. MatchOption found (¬ (chopped change ≤ length locals.old)) (λ _. chopped change ≤ length locals.old)) }
{
    match change {
        Change::Keeps => Ok(Some(())),
        Change::Chops(count) => Ok(locals.chop(count)),
        Change::Appends => {
            let before = mem::replace(locals, Locals::none(alloc));
            *locals = before.with_all(alloc, written)?;
            Ok(Some(()))
        }
        Change::Replaces => {
            *locals = Locals::from_values(alloc, written)?;
            Ok(Some(()))
        }
    }
}

/// Puts a written frame behind the others; None where it stands at no instruction, or chops more
/// values than there are.
pub fn follow(
    alloc: Global,
    instructions: &[(u32, Instruction)],
    listed: &mut Listed,
    written: Written,
) -> Result<Option<()>, AllocError>
    requires rising { IsRising (view_instructions instructions.now) }
    requires low { listed.old.least ≤ 2 ^ 32 }
    ensures behind { IfOk result (λ found. MatchOption found (¬ CanFollow (view_instructions instructions.now) listed.old written) (λ _. IsBehind listed.old written listed.new)) }
    ensures can { IfOk result (λ found. MatchOption found (¬ CanFollow (view_instructions instructions.now) listed.old written) (λ _. CanFollow (view_instructions instructions.now) listed.old written)) }
{
    let at = listed.least + u64::from(written.delta);
    let Some((place, pc)) = start_at(instructions, listed.near, at) else {
        return Ok(None);
    };
    let how = form_of(written.kind).change;
    let Some(()) = change_locals(alloc, &mut listed.locals, how, written.locals)? else {
        return Ok(None);
    };
    let frame = listed.locals.frame(alloc, written.stack)?;
    listed.frames.push((pc, frame))?;
    listed.least = u64::from(pc) + 1;
    listed.near = place + 1;
    Ok(Some(()))
}
