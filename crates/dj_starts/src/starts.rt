//! Where blocks start.

ghost use Rattle.std.specs.Prelude.{◌≡◌, ◌<◌, ◌↔◌, ℕ, IfOk, OnOk, IsTrue, map, drop};
ghost use Rattle.std.specs.List.{AllPairs, Contains};
ghost use Rattle.dj_instructions.specs.Instructions.{view_instruction, view_instructions, IsRising};
ghost use Rattle.dj_frames.specs.Frames.{view_frame, view_frames};
ghost use Rattle.dj_code.specs.MethodCode.{view_typed};
ghost use Rattle.dj_starts.specs.Edges.{first_pc};
ghost use Rattle.dj_starts.specs.Starts as spec;
ghost use Rattle.dj_starts.specs.Starts.{IsGiven, TableAsks, EndsBlock, BeginsBehind, CodeAsks, IsBlockStart};
ghost use Rattle.dj_starts.specs.Marks.{IsMarked, MarksMore, IsBothMarked};

use crate::control::control_of;
use crate::marks::{is_marked, mark, mark_all, no_marks};
use crate::reach::reached;
use crate::stores::changes_first;
use crate::ways::{covers, push_targets};
use dj_code::{Frame, Handler, Instruction, Typed};
use dj_names::Items;
use std::alloc::{AllocError, Global};

/// Whether the range of some entry has the pc.
pub fn in_range(handlers: &[Handler], pc: u32) -> bool
    ensures range { result ≡ spec.in_range handlers.now pc }
{
    handlers.iter().any(|handler| covers(handler, pc))
}

/// Marks the pcs at which frames are given.
pub fn mark_given(frames: &[(u32, Frame)], begins: &mut Items<bool>)
    ensures more { MarksMore begins.old begins.new (IsGiven (view_frames frames.now)) }
{
    for frame in frames {
        mark(frame.0, begins);
    }
}

/// Marks where ranges start and end, and where handlers are.
fn mark_table(handlers: &[Handler], begins: &mut Items<bool>)
    ensures more { MarksMore begins.old begins.new (TableAsks handlers.now) }
{
    for handler in handlers {
        mark(handler.start, begins);
        mark(handler.end, begins);
        mark(handler.target, begins);
    }
}

/// Whether a block ends with the instruction at a pc, where another stands behind it.
fn ends_block(
    handlers: &[Handler],
    pc: u32,
    instruction: &Instruction,
    frames: &[Frame],
    behind: u32,
) -> bool
    ensures exact { IsTrue result ↔ EndsBlock handlers.now pc (view_instruction instruction.now) (map view_frame frames.now) behind }
{
    if control_of(instruction).ends_block() {
        return true;
    }
    changes_first(instruction, frames) && (in_range(handlers, pc) || in_range(handlers, behind))
}

/// Marks the instruction behind the one at a pc, where a block ends with that.
fn mark_behind(
    handlers: &[Handler],
    at: &(u32, Instruction),
    frames: &[Frame],
    rest: &[(u32, Instruction)],
    begins: &mut Items<bool>,
)
    ensures more { MarksMore begins.old begins.new (BeginsBehind handlers.now at.now.0 (view_instruction at.now.1) (map view_frame frames.now) (first_pc (view_instructions rest.now))) }
{
    if let [behind, ..] = rest {
        if ends_block(handlers, at.0, &at.1, frames, behind.0) {
            mark(behind.0, begins);
        }
    }
}

/// The frames from a place on.
pub fn frames_from(frames: &[Frame], place: usize) -> &[Frame]
    ensures from { result.now ≡ drop place frames.now }
{
    if place < frames.len() {
        &frames[place..]
    } else {
        &[]
    }
}

/// Marks where instructions jump to, and those behind which others end a block.
fn mark_code(
    alloc: Global,
    handlers: &[Handler],
    instructions: &[(u32, Instruction)],
    frames: &[Frame],
    begins: &mut Items<bool>,
) -> Result<(), AllocError>
    ensures more { OnOk result (MarksMore begins.old begins.new (CodeAsks handlers.now (view_instructions instructions.now) (map view_frame frames.now))) }
{
    for (place, at) in instructions.iter().enumerate() {
        let mut targets = Items::new(alloc);
        push_targets(&at.1, &mut targets)?;
        mark_all(targets.as_slice(), begins);
        let frames = frames_from(frames, place);
        mark_behind(handlers, at, frames, &instructions[place + 1..], begins);
    }
    Ok(())
}

/// Whether a pc is marked in both lists.
fn is_both_marked(seen: &[bool], begins: &[bool], pc: u32) -> bool
    ensures exact { IsTrue result ↔ (IsMarked seen.now pc × IsMarked begins.now pc) }
{
    is_marked(seen, pc) && is_marked(begins, pc)
}

/// The pcs of instructions that are marked in both lists.
pub fn both_marked(
    alloc: Global,
    instructions: &[(u32, Instruction)],
    seen: &[bool],
    begins: &[bool],
) -> Result<Items<u32>, AllocError>
    requires rising { IsRising (view_instructions instructions.now) }
    ensures exact { IfOk result (λ starts. (pc : ℕ) → Contains starts pc ↔ IsBothMarked (view_instructions instructions.now) seen.now begins.now pc) }
    ensures rising { IfOk result (AllPairs (λ x y. x < y)) }
{
    let mut starts = Items::new(alloc);
    for at in instructions {
        if is_both_marked(seen, begins, at.0) {
            starts.push(at.0)?;
        }
    }
    Ok(starts)
}

/// The pcs where the blocks of code start, of those that control reaches, in rising order.
pub fn block_starts(alloc: Global, typed: &Typed) -> Result<Items<u32>, AllocError>
    requires rising { IsRising (view_instructions typed.now.code.instructions) }
    ensures exact { IfOk result (λ starts. (pc : ℕ) → Contains starts pc ↔ IsBlockStart (view_typed typed.now) pc) }
    ensures rising { IfOk result (AllPairs (λ x y. x < y)) }
{
    let code = &typed.code;
    let instructions = code.instructions.as_slice();
    let handlers = code.handlers.as_slice();
    let seen = reached(alloc, code)?;
    let mut begins = no_marks(alloc, instructions)?;
    mark(0, &mut begins);
    mark_given(code.frames.as_slice(), &mut begins);
    mark_table(handlers, &mut begins);
    mark_code(
        alloc,
        handlers,
        instructions,
        typed.frames.as_slice(),
        &mut begins,
    )?;
    let starts = both_marked(alloc, instructions, seen.as_slice(), begins.as_slice())?;
    Ok(starts)
}
