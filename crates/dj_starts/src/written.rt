//! The births that can be written as one expression.

ghost use Rattle.std.specs.Prelude.{◌↔◌, ℕ, [], map, IfOk};
ghost use Rattle.dj_instructions.specs.Instructions.{view_instructions, IsRising};
ghost use Rattle.dj_frames.specs.Frames.{view_frame};
ghost use Rattle.dj_stack_map.specs.StackMap.{IsNewAt};
ghost use Rattle.dj_code.specs.MethodCode.{view_code, view_typed};
ghost use Rattle.dj_starts.specs.Births.{IsWritten, IsBound};
ghost use Rattle.dj_starts.specs.Marks.{IsMarked, MarksMore};
ghost use Rattle.dj_starts.specs.Walking.{IsTable, IsFences, IsWalked};

use crate::calls::{Met, ended};
use crate::marks::{is_marked, mark, no_marks};
use crate::roles::{Role, first_role, role_of};
use crate::starts::{frames_from, mark_given};
use crate::walk::{Walk, step};
use dj_code::{Code, Handler, Typed};
use dj_names::Items;
use std::alloc::{AllocError, Global};

/// Marks the pcs at which ranges begin and end.
fn mark_bounds(handlers: &[Handler], marks: &mut Items<bool>)
    ensures more { MarksMore marks.old marks.new (IsBound handlers.now) }
{
    for handler in handlers {
        mark(handler.start, marks);
        mark(handler.end, marks);
    }
}

/// Marks of the pcs that no birth goes over.
fn fences(alloc: Global, code: &Code) -> Result<Items<bool>, AllocError>
    requires rising { IsRising (view_instructions code.now.instructions) }
    ensures fences { IfOk result (IsFences (view_code code.now)) }
{
    let mut marks = no_marks(alloc, code.instructions.as_slice())?;
    mark_given(code.frames.as_slice(), &mut marks);
    mark_bounds(code.handlers.as_slice(), &mut marks);
    Ok(marks)
}

/// The walk before any instruction.
fn start(alloc: Global, typed: &Typed) -> Result<Walk, AllocError>
    requires rising { IsRising (view_instructions typed.now.code.instructions) }
    ensures start { IfOk result (IsWalked (view_typed typed.now) []) }
{
    Ok(Walk {
        unborn: Items::new(alloc),
        written: no_marks(alloc, typed.code.instructions.as_slice())?,
        before: Role::Plain,
    })
}

/// Marks of the births that can be written as one expression, by the pcs of their `new`.
pub fn written_births(
    alloc: Global,
    typed: &Typed,
    calls: &[Met],
) -> Result<Items<bool>, AllocError>
    requires rising { IsRising (view_instructions typed.now.code.instructions) }
    requires table { IsTable (view_instructions typed.now.code.instructions) (map view_frame typed.now.frames) calls.now }
    ensures exact { IfOk result (λ written. (start : ℕ) → IsNewAt (view_instructions typed.now.code.instructions) start → IsMarked written start ↔ ((call : ℕ) × IsWritten (view_typed typed.now) start call)) }
{
    let instructions = typed.code.instructions.as_slice();
    let fences = fences(alloc, &typed.code)?;
    let mut walk = start(alloc, typed)?;
    for (place, at) in instructions.iter().enumerate() {
        let fenced = is_marked(fences.as_slice(), at.0);
        let ended = ended(calls, at, frames_from(typed.frames.as_slice(), place));
        let behind = first_role(&instructions[place + 1..]);
        step(fenced, at.0, role_of(&at.1), behind, ended, &mut walk)?;
    }
    Ok(walk.written)
}
