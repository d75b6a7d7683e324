//! The run over the instructions of a block.

ghost use Rattle.std.specs.Prelude.{◌≡◌, List, IfOk, drop};
ghost use Rattle.dj_names.specs.declared.header.Header.{Header};
ghost use Rattle.dj_names.specs.Headers.{Name};
ghost use Rattle.dj_places.specs.Surroundings.{surroundings_of};
ghost use Rattle.dj_instructions.specs.Instructions.{view_instruction, view_instructions};
ghost use Rattle.dj_bytecode.specs.Meanings.{meaning_of};
ghost use Rattle.dj_bytecode.specs.Machine.{pc_of};
ghost use Rattle.dj_blocks_shown.specs.Leaving.{is_start};
ghost use Rattle.dj_code_variables.specs.Views.{view_vars};
ghost use Rattle.dj_rebuilt.specs.Sorts.{sort_of};
ghost use Rattle.dj_rebuilt.specs.Rebuilding.{Ways, continues, rebuilt};
ghost use Rattle.dj_pending.specs.Stacks.{stacked};
ghost use Rattle.dj_pending.specs.Building.{view_built};
ghost use Rattle.dj_rebuild.specs.Slots.{names_of};
ghost use Rattle.dj_one_block.specs.OneBlock.{variable_of};
ghost use Rattle.dj_rebuild.specs.Stores.{as_step, behind_step};
ghost use Rattle.dj_rebuild.specs.Advancing.{advanced_one};
ghost use Rattle.dj_rebuild.specs.Walking.{IsServed, behind_stms, exit_built};

use crate::around::advance_one;
use crate::names::Names;
use crate::targets::target_of;
use dj_code_variables::Vars;
use dj_instructions::Instruction;
use dj_pending::Built;
use dj_static::Classes;
use std::alloc::{AllocError, Global};

/// How a run over the instructions of a block ended.
#[derive(Clone, Copy)]
pub enum Exit {
    /// Something can't be rebuilt.
    No,
    /// By the instruction at this place, which ends the block.
    Leaves(usize),
    /// Into the block that the instruction at this place begins.
    Falls(usize),
}

/// Whether control goes on behind an instruction, but for one that throws.
fn continues(instruction: &Instruction) -> bool
    ensures continues { (headers : List Header) (class : Name) → result ≡ continues (sort_of (view_instruction instruction.now)) (meaning_of headers class (view_instruction instruction.now)) }
{
    match instruction {
        Instruction::IfZero(_, _)
        | Instruction::IfInts(_, _)
        | Instruction::IfRefs(_, _)
        | Instruction::IfNull(_, _)
        | Instruction::Goto(_)
        | Instruction::TableSwitch { .. }
        | Instruction::LookupSwitch { .. }
        | Instruction::Return(_)
        | Instruction::Throw => false,
        _ => true,
    }
}

/// Whether a block starts at an offset.
fn is_start(starts: &[u32], pc: u32) -> bool
    ensures start { result ≡ is_start starts.now pc }
{
    for start in starts {
        if *start == pc {
            return true;
        }
    }
    false
}

/// The offset of the instruction at a place, or 0 behind the last one.
fn pc_at(instructions: &[(u32, Instruction)], at: usize) -> u32
    ensures pc { result ≡ pc_of (drop at (view_instructions instructions.now)) }
{
    if at < instructions.len() {
        instructions[at].0
    } else {
        0
    }
}

/// One instruction with its offset.
fn advance_at(
    alloc: Global,
    classes: &Classes<'_>,
    vars: &Vars,
    names: &mut Names,
    built: &mut Built,
    at: &(u32, Instruction),
) -> Result<bool, AllocError>
    ensures advanced { IfOk result (λ done. as_step done (view_built built.new) (names_of names.new)
        ≡ behind_step (view_built built.old).emitted (advanced_one (surroundings_of classes.now) (names_of names.old) (variable_of (view_vars vars.now).kinds ((view_vars vars.now).after at.now.0)) (view_instruction at.now.1) built.old.next (stacked built.old.stack))) }
{
    let target = target_of(alloc, vars, vars.after(at.0))?;
    let done = advance_one(alloc, classes, names, built, &at.1, target.as_ref())?;
    Ok(done)
}

/// Rebuilds instructions from a place on, up to where control leaves the block.
pub fn walk(
    alloc: Global,
    classes: &Classes<'_>,
    vars: &Vars,
    starts: &[u32],
    instructions: &[(u32, Instruction)],
    names: &mut Names,
    built: &mut Built,
) -> Result<Exit, AllocError>
    ensures walked { (class : Name) (ways : Ways) → IsServed (surroundings_of classes.now) (view_vars vars.now) ways
        → IfOk result (λ exit. exit_built ways (view_instructions instructions.now) exit (view_built built.new) (names_of names.new)
        ≡ behind_stms (view_built built.old).emitted (rebuilt classes.now.headers.now class ways (is_start starts.now) (names_of names.old) built.old.next (stacked built.old.stack) (view_instructions instructions.now))) }
{
    let mut at = 0;
    'steps: while at < instructions.len() {
        let one = &instructions[at];
        if !continues(&one.1) {
            return Ok(Exit::Leaves(at));
        }
        let done = advance_at(alloc, classes, vars, names, built, one)?;
        if !done {
            return Ok(Exit::No);
        }
        at += 1;
        if is_start(starts, pc_at(instructions, at)) {
            return Ok(Exit::Falls(at));
        }
    }
    Ok(Exit::No)
}
