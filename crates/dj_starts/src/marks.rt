//! Marks of pcs, one by pc.

ghost use Rattle.std.specs.Prelude.{◌≡◌, ◌↔◌, ℕ, length, IfOk, IsTrue};
ghost use Rattle.std.specs.List.{Contains};
ghost use Rattle.dj_instructions.specs.Instructions.{view_instructions, IsRising};
ghost use Rattle.dj_starts.specs.Marks.{IsMarked, MarksMore, IsRoom};

use dj_code::Instruction;
use dj_names::Items;
use std::alloc::{AllocError, Global};

/// As many pcs as there are up to the last instruction.
pub fn room(instructions: &[(u32, Instruction)]) -> usize
    requires rising { IsRising (view_instructions instructions.now) }
    ensures room { IsRoom (view_instructions instructions.now) result }
{
    match instructions.last() {
        Some(at) => at.0 as usize + 1,
        None => 0,
    }
}

/// Marks of no pc, with room for all instructions.
pub fn no_marks(
    alloc: Global,
    instructions: &[(u32, Instruction)],
) -> Result<Items<bool>, AllocError>
    requires rising { IsRising (view_instructions instructions.now) }
    ensures room { IfOk result (λ marks. IsRoom (view_instructions instructions.now) (length marks)) }
    ensures none { IfOk result (λ marks. (pc : ℕ) → ¬ IsMarked marks pc) }
{
    let mut marks = Items::new(alloc);
    for _ in 0..room(instructions) {
        marks.push(false)?;
    }
    Ok(marks)
}

/// Whether a pc is marked.
pub fn is_marked(marks: &[bool], pc: u32) -> bool
    ensures exact { IsTrue result ↔ IsMarked marks.now pc }
{
    match marks.get(pc as usize) {
        Some(mark) => *mark,
        None => false,
    }
}

/// Marks a pc, where there is room for it.
pub fn mark(pc: u32, marks: &mut Items<bool>)
    ensures more { MarksMore marks.old marks.new (λ other. other ≡ pc) }
{
    let place = pc as usize;
    if place < marks.len() {
        marks.set(place, true);
    }
}

/// Marks pcs, where there is room for them.
pub fn mark_all(pcs: &[u32], marks: &mut Items<bool>)
    ensures more { MarksMore marks.old marks.new (Contains pcs.now) }
{
    for pc in pcs {
        mark(*pc, marks);
    }
}
