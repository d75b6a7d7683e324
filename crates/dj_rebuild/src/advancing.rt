//! One instruction, by what it does to locals and to the stack.

ghost use Rattle.std.specs.Prelude.{◌≡◌, ◌∷◌, ℕ, Some, IfOk, option_map};
ghost use Rattle.std.specs.Option.{option_copied};
ghost use Rattle.dj_names.specs.Types.{Class, Null, view_type};
ghost use Rattle.dj_names.specs.Assignable.{object_name};
ghost use Rattle.dj_places.specs.Surroundings.{surroundings_of};
ghost use Rattle.dj_instructions.specs.Instructions.{view_instruction};
ghost use Rattle.dj_meaning.specs.Calls.{is_assignable};
ghost use Rattle.dj_rebuilding.specs.Pending as spec;
ghost use Rattle.dj_rebuilt.specs.Rebuilding as rebuilding;
ghost use Rattle.dj_pending.specs.Stacks.{stacked};
ghost use Rattle.dj_pending.specs.Building.{view_built, as_built};
ghost use Rattle.dj_pending.specs.Spilling.{behind};
ghost use Rattle.dj_pending.specs.Steps.{view_local, view_target, loaded};
ghost use Rattle.dj_rebuild.specs.Targets.{as_name};
ghost use Rattle.dj_rebuild.specs.Slots.{names_of};
ghost use Rattle.dj_rebuild.specs.Stores.{behind_step, as_stored, as_step, name_behind};
ghost use Rattle.dj_rebuild.specs.Advancing.{advanced, advanced_built, write_of};

use crate::names::Names;
use crate::stores::{Stored, behind_write, store};
use dj_headers::Headers;
use dj_instructions::{Instruction, Kind};
use dj_member_trees::member_step;
use dj_names::{ClassName, JType, StaticType, Units};
use dj_pending::{Atom, Built, DUP_X1, DUP_X2, DUP2, DUP2_X1, DUP2_X2, Entry, Local, SWAP, Target};
use dj_static::Classes;
use std::alloc::{AllocError, Global};

/// What an instruction writes: a slot with what stands on top of the stack, of a kind, or with a number that is added.
#[derive(Clone, Copy)]
pub enum Write {
    No,
    Stored(Kind, u16),
    Counted(u16, i16),
}

/// What an instruction writes.
fn write_of(instruction: &Instruction) -> Write
    ensures write { result ≡ write_of (view_instruction instruction.now) }
{
    match instruction {
        Instruction::Store(kind, slot) => Write::Stored(*kind, *slot),
        Instruction::Iinc(slot, by) => Write::Counted(*slot, *by),
        _ => Write::No,
    }
}

/// The class above all.
fn object_type(alloc: Global) -> Result<JType, AllocError>
    ensures object { IfOk result (λ kind. view_type kind ≡ Class object_name) }
{
    let name = Units::from_slice(
        alloc,
        &[
            106, 97, 118, 97, 47, 108, 97, 110, 103, 47, 79, 98, 106, 101, 99, 116,
        ],
    )?;
    Ok(JType::Class(ClassName::new(name)))
}

/// What a slot is that is null for sure.
fn nothing_there(alloc: Global) -> Result<Local, AllocError>
    ensures nothing { IfOk result (λ local. view_local local ≡ rebuilding.nothing_there) }
{
    let kind = object_type(alloc)?;
    let atom = Atom::Nothing;
    Ok(Local { kind, atom })
}

/// What a slot is whose variable was written.
fn named(alloc: Global, target: &Target) -> Result<Local, AllocError>
    ensures named { IfOk result (λ local. view_local local ≡ as_name (view_target target.now)) }
{
    let kind = target.kind.copy(alloc)?;
    let atom = Atom::Named(target.variable);
    Ok(Local { kind, atom })
}

/// What a slot is behind a store to it; None where nothing could be stored.
fn written(
    alloc: Global,
    target: Option<&Target>,
    stored: Stored,
) -> Result<Option<Local>, AllocError>
    ensures written { IfOk result (λ found. option_map view_local found ≡ name_behind (option_map view_target (option_copied target.entry)) stored) }
{
    match stored {
        Stored::No => Ok(None),
        Stored::Nothing => {
            let local = nothing_there(alloc)?;
            Ok(Some(local))
        }
        Stored::Variable => {
            let Some(target) = target else {
                return Ok(None);
            };
            let local = named(alloc, target)?;
            Ok(Some(local))
        }
    }
}

/// A slot is what was stored to it; false where nothing could be.
fn rename(
    alloc: Global,
    names: &mut Names,
    slot: u16,
    target: Option<&Target>,
    stored: Stored,
) -> Result<bool, AllocError>
    ensures renamed { (built : spec.Built) → IfOk result (λ done. as_step done built (names_of names.new) ≡ as_stored slot (names_of names.old) (option_map view_target (option_copied target.entry)) stored built) }
{
    let Some(local) = written(alloc, target, stored)? else {
        return Ok(false);
    };
    names.put(slot, local)?;
    Ok(true)
}

/// A store of the topmost entry to a slot.
fn store_to(
    alloc: Global,
    headers: &Headers,
    names: &mut Names,
    built: &mut Built,
    of: Kind,
    slot: u16,
    target: Option<&Target>,
) -> Result<bool, AllocError>
    ensures stored { IfOk result (λ done. as_step done (view_built built.new) (names_of names.new)
        ≡ behind_step (view_built built.old).emitted (rebuilding.store (is_assignable headers.now) of slot (names_of names.old) built.old.next (option_map view_target (option_copied target.entry)) (stacked built.old.stack))) }
{
    let stored = store(alloc, headers, built, of, target)?;
    let done = rename(alloc, names, slot, target, stored)?;
    Ok(done)
}

/// A number added to a slot.
fn count_to(
    alloc: Global,
    names: &mut Names,
    built: &mut Built,
    slot: u16,
    by: i16,
    target: Option<&Target>,
) -> Result<bool, AllocError>
    ensures counted { IfOk result (λ done. as_step done (view_built built.new) (names_of names.new)
        ≡ behind_step (view_built built.old).emitted (rebuilding.count slot by (names_of names.old) built.old.next (stacked built.old.stack) (names_of names.old slot) (option_map view_target (option_copied target.entry)))) }
{
    let done = built.count(alloc, by, names.get(slot), target)?;
    let done = rename(alloc, names, slot, target, behind_write(done))?;
    Ok(done)
}

/// A load of a slot.
fn load_from(
    alloc: Global,
    names: &Names,
    built: &mut Built,
    of: Kind,
    slot: u16,
) -> Result<bool, AllocError>
    ensures loaded { IfOk result (λ done. as_built done (view_built built.new)
        ≡ behind (view_built built.old).emitted (loaded of built.old.next (stacked built.old.stack) (names_of names.now slot))) }
{
    let done = built.load(alloc, of, names.get(slot))?;
    Ok(done)
}

/// Null.
fn push_null(built: &mut Built) -> Result<bool, AllocError>
    ensures pushed { IfOk result (λ done. as_built done (view_built built.new)
        ≡ behind (view_built built.old).emitted (spec.grown built.old.next (spec.Kept Null spec.Nothing ∷ stacked built.old.stack))) }
{
    built.push(Entry::Kept(StaticType::Null, Atom::Nothing))?;
    Ok(true)
}

/// An object whose birth begins.
fn begin_birth(alloc: Global, built: &mut Built, class: &ClassName) -> Result<bool, AllocError>
    ensures begun { IfOk result (λ done. as_built done (view_built built.new)
        ≡ behind (view_built built.old).emitted (spec.grown built.old.next (spec.Born class.now ∷ stacked built.old.stack))) }
{
    let class = class.copy(alloc)?;
    built.push(Entry::Born(class))?;
    Ok(true)
}

/// An instruction that writes no local; false where it can't be rebuilt.
fn build(
    alloc: Global,
    classes: &Classes<'_>,
    names: &Names,
    built: &mut Built,
    instruction: &Instruction,
) -> Result<bool, AllocError>
    ensures built { IfOk result (λ done. as_built done (view_built built.new)
        ≡ behind (view_built built.old).emitted (advanced_built (surroundings_of classes.now) (names_of names.now) (view_instruction instruction.now) built.old.next (stacked built.old.stack))) }
{
    match instruction {
        Instruction::Nop => Ok(true),
        Instruction::PushNull => push_null(built),
        Instruction::Push(constant) => built.push_constant(alloc, constant),
        Instruction::Load(kind, slot) => load_from(alloc, names, built, *kind, *slot),
        Instruction::Pop => built.drop_top(alloc, false),
        Instruction::Pop2 => built.drop_top(alloc, true),
        Instruction::Dup => built.double(alloc),
        Instruction::DupX1 => built.shuffle(alloc, &DUP_X1),
        Instruction::DupX2 => built.shuffle(alloc, &DUP_X2),
        Instruction::Dup2 => built.shuffle(alloc, &DUP2),
        Instruction::Dup2X1 => built.shuffle(alloc, &DUP2_X1),
        Instruction::Dup2X2 => built.shuffle(alloc, &DUP2_X2),
        Instruction::Swap => built.shuffle(alloc, &SWAP),
        Instruction::Calc(operation, kind) => built.calculate(alloc, *operation, *kind),
        Instruction::Convert(from, to) => built.convert(alloc, *from, to),
        Instruction::Compare(kind, _) => built.compare(alloc, *kind),
        Instruction::New(class) => begin_birth(alloc, built, class),
        _ => member_step(alloc, classes, built, instruction),
    }
}

/// An instruction, given the variable that it writes; false where it can't be rebuilt.
pub fn advance(
    alloc: Global,
    classes: &Classes<'_>,
    names: &mut Names,
    built: &mut Built,
    instruction: &Instruction,
    target: Option<&Target>,
) -> Result<bool, AllocError>
    ensures advanced { IfOk result (λ done. as_step done (view_built built.new) (names_of names.new)
        ≡ behind_step (view_built built.old).emitted (advanced (surroundings_of classes.now) (names_of names.old) (option_map view_target (option_copied target.entry)) (view_instruction instruction.now) built.old.next (stacked built.old.stack))) }
{
    match write_of(instruction) {
        Write::Stored(kind, slot) => {
            store_to(alloc, classes.headers, names, built, kind, slot, target)
        }
        Write::Counted(slot, by) => count_to(alloc, names, built, slot, by, target),
        Write::No => {
            let done = build(alloc, classes, names, built, instruction)?;
            Ok(done)
        }
    }
}
