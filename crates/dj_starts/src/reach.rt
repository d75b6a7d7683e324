//! The instructions that control reaches.

ghost use Rattle.std.specs.Prelude.{◌≡◌, ◌↔◌, ℕ, IfOk, OnOk};
ghost use Rattle.dj_instructions.specs.Instructions.{view_instructions, IsRising};
ghost use Rattle.dj_code.specs.MethodCode.{view_code};
ghost use Rattle.dj_code.specs.Targets.{IsStart};
ghost use Rattle.dj_starts.specs.Edges.{Reaches};
ghost use Rattle.dj_starts.specs.Marks.{IsMarked, IsTarget, Visits};

use crate::marks::no_marks;
use crate::ways::{Edge, edges};
use dj_code::Code;
use dj_names::Items;
use std::alloc::{AllocError, Global};

/// Marks a pc, and keeps it for later where it is new.
fn visit(pc: u32, seen: &mut Items<bool>, pending: &mut Items<u32>) -> Result<(), AllocError>
    ensures visits { OnOk result (Visits seen.old seen.new pending.old pending.new (λ other. other ≡ pc)) }
{
    let place = pc as usize;
    if place < seen.len() && !seen.as_slice()[place] {
        seen.set(place, true);
        pending.push(pc)?;
    }
    Ok(())
}

/// Marks the pcs that ways lead to, and keeps the new ones for later.
fn visit_all(
    ways: &[Edge],
    seen: &mut Items<bool>,
    pending: &mut Items<u32>,
) -> Result<(), AllocError>
    ensures visits { OnOk result (Visits seen.old seen.new pending.old pending.new (IsTarget ways.now)) }
{
    for way in ways {
        visit(way.target, seen, pending)?;
    }
    Ok(())
}

/// For each pc up to the last instruction, whether control reaches it.
pub fn reached(alloc: Global, code: &Code) -> Result<Items<bool>, AllocError>
    requires rising { IsRising (view_instructions code.now.instructions) }
    ensures exact { IfOk result (λ seen. (pc : ℕ) → IsStart (view_instructions code.now.instructions) pc → IsMarked seen pc ↔ Reaches (view_code code.now) pc) }
{
    let mut seen = no_marks(alloc, code.instructions.as_slice())?;
    let mut pending = Items::new(alloc);
    visit(0, &mut seen, &mut pending)?;
    while let Some(pc) = pending.pop() {
        let ways = edges(alloc, code, pc)?;
        visit_all(ways.as_slice(), &mut seen, &mut pending)?;
    }
    Ok(seen)
}
