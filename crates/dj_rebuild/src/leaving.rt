//! The statements by which control leaves a method: returns and throws.

ghost use Rattle.std.specs.Prelude.{◌≡◌, None, IfOk, drop, option_map};
ghost use Rattle.std.specs.Option.{option_copied};
ghost use Rattle.dj_names.specs.Types.{view_type, view_descriptor};
ghost use Rattle.dj_names.specs.Types as types;
ghost use Rattle.dj_syntax.specs.Trees.{Return};
ghost use Rattle.dj_instructions.specs.Instructions.{view_instruction, view_instructions};
ghost use Rattle.dj_rebuilding.specs.Pending as spec;
ghost use Rattle.dj_rebuilt.specs.Rebuilding.{Names};
ghost use Rattle.dj_exits.specs.Exits as exits;
ghost use Rattle.dj_lone_exits.specs.Lone.{lone_edges};
ghost use Rattle.dj_pending.specs.Stacks.{stacked};
ghost use Rattle.dj_pending.specs.Building.{view_built, as_built};
ghost use Rattle.dj_pending.specs.Spilling.{behind};
ghost use Rattle.dj_rebuild.specs.Walking.{behind_stms, first_of};
ghost use Rattle.dj_rebuild.specs.Leaving.{left_built, returned_built, thrown_built};

use dj_headers::Headers;
use dj_instructions::Instruction;
use dj_member_trees::take_fitted;
use dj_names::{ClassName, Descriptor, JType, Units};
use dj_pending::Built;
use dj_syntax::Stm;
use std::alloc::{AllocError, Global};

/// The class of all that is thrown.
fn throwable(alloc: Global) -> Result<JType, AllocError>
    ensures throwable { IfOk result (λ kind. view_type kind ≡ exits.throwable) }
{
    let name = Units::from_slice(
        alloc,
        &[
            106, 97, 118, 97, 47, 108, 97, 110, 103, 47, 84, 104, 114, 111, 119, 97, 98, 108, 101,
        ],
    )?;
    Ok(JType::Class(ClassName::new(name)))
}

/// The type of what a method gives.
fn result_of(descriptor: &Descriptor) -> Option<&JType>
    ensures found { option_map view_type (option_copied result) ≡ types.result_of (view_descriptor descriptor.now) }
{
    match descriptor {
        Descriptor::Field(kind) => Some(kind),
        Descriptor::Method { result, .. } => result.as_ref(),
    }
}

/// A return of the topmost entry; false where it can't be.
fn give(
    alloc: Global,
    headers: &Headers,
    built: &mut Built,
    kind: Option<&JType>,
) -> Result<bool, AllocError>
    ensures given { IfOk result (λ done. as_built done (view_built built.new)
        ≡ behind (view_built built.old).emitted (returned_built headers.now built.old.next (stacked built.old.stack) (option_map view_type (option_copied kind.entry)))) }
{
    let Some(kind) = kind else {
        return Ok(false);
    };
    let Some(tree) = take_fitted(alloc, headers, &mut built.stack, true, kind)? else {
        return Ok(false);
    };
    let done = built.emit(alloc, &[], Stm::Return(Some(tree.exp)))?;
    Ok(done)
}

/// A throw of the topmost entry; false where it can't be.
fn throw(alloc: Global, headers: &Headers, built: &mut Built) -> Result<bool, AllocError>
    ensures thrown { IfOk result (λ done. as_built done (view_built built.new)
        ≡ behind (view_built built.old).emitted (thrown_built headers.now built.old.next (stacked built.old.stack))) }
{
    let kind = throwable(alloc)?;
    let Some(tree) = take_fitted(alloc, headers, &mut built.stack, true, &kind)? else {
        return Ok(false);
    };
    let done = built.emit(alloc, &[], Stm::Throw(tree.exp))?;
    Ok(done)
}

/// A return of nothing.
fn finish(alloc: Global, built: &mut Built) -> Result<bool, AllocError>
    ensures finished { IfOk result (λ done. as_built done (view_built built.new)
        ≡ behind (view_built built.old).emitted (spec.emit spec.none built.old.next (stacked built.old.stack) (Return None))) }
{
    let done = built.emit(alloc, &[], Stm::Return(None))?;
    Ok(done)
}

/// What an instruction builds by which control leaves a method of one block; false where it can't be rebuilt, and for jumps.
pub fn leave(
    alloc: Global,
    headers: &Headers,
    descriptor: &Descriptor,
    built: &mut Built,
    instruction: &Instruction,
) -> Result<bool, AllocError>
    ensures left { IfOk result (λ done. as_built done (view_built built.new)
        ≡ behind (view_built built.old).emitted (left_built headers.now (types.result_of (view_descriptor descriptor.now)) built.old.next (stacked built.old.stack) (view_instruction instruction.now))) }
{
    match instruction {
        Instruction::Return(None) => finish(alloc, built),
        Instruction::Return(Some(_)) => give(alloc, headers, built, result_of(descriptor)),
        Instruction::Throw => throw(alloc, headers, built),
        _ => Ok(false),
    }
}

/// The instruction at a place.
fn instruction_at(instructions: &[(u32, Instruction)], at: usize) -> Option<&Instruction>
    ensures found { option_map (λ one. view_instruction one) (option_copied result) ≡ first_of (drop at (view_instructions instructions.now)) }
{
    if at < instructions.len() {
        Some(&instructions[at].1)
    } else {
        None
    }
}

/// What the instruction at a place builds by which control leaves; false where it can't be rebuilt, and where there is none.
pub fn leave_at(
    alloc: Global,
    headers: &Headers,
    descriptor: &Descriptor,
    built: &mut Built,
    instructions: &[(u32, Instruction)],
    at: usize,
) -> Result<bool, AllocError>
    ensures left { (names : Names) → IfOk result (λ done. exits.emitted_by (as_built done (view_built built.new))
        ≡ behind_stms (view_built built.old).emitted (exits.leave headers.now (types.result_of (view_descriptor descriptor.now)) (lone_edges headers.now) names built.old.next (stacked built.old.stack) (drop at (view_instructions instructions.now)))) }
{
    let Some(instruction) = instruction_at(instructions, at) else {
        return Ok(false);
    };
    let done = leave(alloc, headers, descriptor, built, instruction)?;
    Ok(done)
}
