//! One instruction, with all that is pending spilled before it or behind it where it is to be.

ghost use Rattle.std.specs.Prelude.{◌≡◌, ℕ, IfOk, option_map};
ghost use Rattle.std.specs.Option.{option_copied};
ghost use Rattle.dj_places.specs.Surroundings.{surroundings_of};
ghost use Rattle.dj_instructions.specs.Instructions.{view_instruction};
ghost use Rattle.dj_exits.specs.Ways as ways;
ghost use Rattle.dj_pending.specs.Births.{is_kept_entry};
ghost use Rattle.dj_pending.specs.Stacks.{stacked};
ghost use Rattle.dj_pending.specs.Building.{view_built, as_built};
ghost use Rattle.dj_pending.specs.Spilling.{behind};
ghost use Rattle.dj_pending.specs.Steps.{view_target};
ghost use Rattle.dj_rebuild.specs.Slots.{names_of};
ghost use Rattle.dj_rebuild.specs.Stores.{behind_step, as_step};
ghost use Rattle.dj_rebuild.specs.Advancing.{advanced_one, is_kept_at, spilled_if};

use crate::advancing::advance;
use crate::names::Names;
use dj_instructions::Instruction;
use dj_pending::{Built, Entry, Stack, Target};
use dj_static::Classes;
use std::alloc::{AllocError, Global};

/// Whether an instruction uses operands twice.
fn uses_twice(instruction: &Instruction) -> bool
    ensures twice { result ≡ ways.uses_twice (view_instruction instruction.now) }
{
    matches!(instruction, Instruction::Compare(_, _))
}

/// Whether the entry at a place, the top being at 0, is an atom.
fn is_kept_at(stack: &Stack, place: usize) -> bool
    ensures kept { result ≡ is_kept_at place (stacked stack.now) }
{
    match stack.get(place) {
        Some(entry) => entry.is_kept(),
        None => false,
    }
}

/// Whether the two topmost entries are atoms.
fn two_atoms(stack: &Stack) -> bool
    ensures atoms { result ≡ ways.two_atoms (stacked stack.now) }
{
    is_kept_at(stack, 0) && is_kept_at(stack, 1)
}

/// Whether all that is pending is spilled before an instruction.
fn before(instruction: &Instruction, stack: &Stack) -> bool
    ensures before { result ≡ ways.before (view_instruction instruction.now) (stacked stack.now) }
{
    uses_twice(instruction) && !two_atoms(stack)
}

/// Whether the topmost expression is of more than 64 levels.
fn is_deep(stack: &Stack) -> bool
    ensures deep { result ≡ ways.is_deep (stacked stack.now) }
{
    match stack.get(0) {
        Some(Entry::Whole(_, tree)) => tree.levels > 64,
        Some(Entry::Kept(_, _) | Entry::Born(_) | Entry::Again) => false,
        None => false,
    }
}

/// Whether all that is pending is spilled behind an instruction.
fn after(stack: &Stack) -> bool
    ensures after { result ≡ ways.after (stacked stack.now) }
{
    is_deep(stack) && !stack.has_birth()
}

/// Spills all that is pending, where it is to be.
fn spill_if(alloc: Global, built: &mut Built, wanted: bool) -> Result<bool, AllocError>
    ensures spilled { IfOk result (λ done. as_built done (view_built built.new)
        ≡ behind (view_built built.old).emitted (spilled_if wanted built.old.next (stacked built.old.stack))) }
{
    if !wanted {
        return Ok(true);
    }
    let done = built.spill(alloc, &[])?;
    Ok(done)
}

/// An instruction, with all that is pending spilled before it or behind it where it is to be.
pub fn advance_one(
    alloc: Global,
    classes: &Classes<'_>,
    names: &mut Names,
    built: &mut Built,
    instruction: &Instruction,
    target: Option<&Target>,
) -> Result<bool, AllocError>
    ensures advanced { IfOk result (λ done. as_step done (view_built built.new) (names_of names.new)
        ≡ behind_step (view_built built.old).emitted (advanced_one (surroundings_of classes.now) (names_of names.old) (option_map view_target (option_copied target.entry)) (view_instruction instruction.now) built.old.next (stacked built.old.stack))) }
{
    let wanted = before(instruction, &built.stack);
    let before = spill_if(alloc, built, wanted)?;
    if !before {
        return Ok(false);
    }
    let done = advance(alloc, classes, names, built, instruction, target)?;
    if !done {
        return Ok(false);
    }
    let wanted = after(&built.stack);
    let behind = spill_if(alloc, built, wanted)?;
    Ok(behind)
}
