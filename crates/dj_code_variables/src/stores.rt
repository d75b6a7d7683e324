//! The variables that stores write.

ghost use Rattle.std.specs.Prelude.{◌≡◌, ℕ, false, length, slice_index_or, IfOk, OnOk};
ghost use Rattle.std.specs.Option.{option_copied, option_map};
ghost use Rattle.dj_instructions.specs.Instructions.{view_instruction, view_instructions, IsRising};
ghost use Rattle.dj_frames.specs.Frames.{view_tag, view_frame};
ghost use Rattle.dj_code.specs.MethodCode.{view_typed};
ghost use Rattle.dj_numbers.specs.Numbers.{IsChained, view_variables};
ghost use Rattle.dj_numbers.specs.Frames.{ArePlain, view_first};
ghost use Rattle.dj_code_variables.specs.Stores as spec;
ghost use Rattle.dj_code_variables.specs.Stores.{top_tag, typing_of, written_at, with_typing, number_of_typing, IsNoted, IsStep, AreStored};

use dj_code::{Frame, Instruction, Tag, Typed};
use dj_names::Items;
use dj_numbers::{Numbers, PlainTypes};
use dj_starts::reached;
use std::alloc::{AllocError, Global};

/// What an instruction writes: a slot with what stands on top of the stack, or with an int.
#[derive(Clone, Copy, PartialEq, Eq)]
pub enum Write {
    No,
    Stored(u16),
    Counted(u16),
}

/// What an instruction writes.
fn write_of(instruction: &Instruction) -> Write
    ensures write { result ≡ spec.write_of (view_instruction instruction.now) }
{
    match instruction {
        Instruction::Store(_, slot) => Write::Stored(*slot),
        Instruction::Iinc(slot, _) => Write::Counted(*slot),
        _ => Write::No,
    }
}

/// What stands on top of a frame's stack.
fn top_tag(frame: &Frame) -> Option<&Tag>
    ensures top { option_map view_tag (option_copied result) ≡ top_tag (view_frame frame.now) }
{
    frame.stack.get(frame.stack.len().saturating_sub(1))
}

/// The number of the variable of a slot that is written, by the frame before, which gets the next one
/// where there is none.
fn add_write(
    alloc: Global,
    plain: &PlainTypes,
    write: Write,
    frame: &Frame,
    numbers: &mut Numbers,
) -> Result<Option<u32>, AllocError>
    requires plain { ArePlain plain.now }
    requires chained { IsChained numbers.old.variables numbers.old.lasts }
    ensures chained { OnOk result (IsChained numbers.new.variables numbers.new.lasts) }
    ensures variables { OnOk result (view_variables numbers.new.variables ≡ with_typing (view_variables numbers.old.variables) (typing_of write (view_frame frame.now))) }
    ensures number { IfOk result (λ number. number ≡ number_of_typing (view_variables numbers.new.variables) (typing_of write (view_frame frame.now))) }
{
    match write {
        Write::No => Ok(None),
        Write::Stored(slot) => match plain.of_tag(top_tag(frame)) {
            Some(kind) => {
                let number = numbers.add(alloc, usize::from(slot), kind)?;
                Ok(Some(number))
            }
            None => Ok(None),
        },
        Write::Counted(slot) => {
            let number = numbers.add(alloc, usize::from(slot), &plain.int)?;
            Ok(Some(number))
        }
    }
}

/// Notes what is written at a pc, where there is room.
fn note(pc: u32, number: Option<u32>, after: &mut Items<Option<u32>>)
    ensures noted { IsNoted pc number after.old after.new }
{
    let place = pc as usize;
    if place < after.len() {
        after.set(place, number);
    }
}

/// The number of what the instruction at a pc writes, where control reaches it.
fn add_reached(
    alloc: Global,
    plain: &PlainTypes,
    seen: &[bool],
    at: &(u32, Instruction),
    frame: Option<&Frame>,
    numbers: &mut Numbers,
) -> Result<Option<u32>, AllocError>
    requires plain { ArePlain plain.now }
    requires chained { IsChained numbers.old.variables numbers.old.lasts }
    ensures chained { OnOk result (IsChained numbers.new.variables numbers.new.lasts) }
    ensures variables { OnOk result (view_variables numbers.new.variables ≡ with_typing (view_variables numbers.old.variables) (written_at (slice_index_or seen.now at.now.0 false) (view_instruction at.now.1) (option_map view_frame (option_copied frame.entry)))) }
    ensures number { IfOk result (λ number. number ≡ number_of_typing (view_variables numbers.new.variables) (written_at (slice_index_or seen.now at.now.0 false) (view_instruction at.now.1) (option_map view_frame (option_copied frame.entry)))) }
{
    match (seen.get(at.0 as usize), frame) {
        (Some(true), Some(frame)) => add_write(alloc, plain, write_of(&at.1), frame, numbers),
        _ => Ok(None),
    }
}

/// Numbers what the instruction at a pc writes, and notes it there.
fn add_store(
    alloc: Global,
    plain: &PlainTypes,
    seen: &[bool],
    at: &(u32, Instruction),
    frame: Option<&Frame>,
    numbers: &mut Numbers,
    after: &mut Items<Option<u32>>,
) -> Result<(), AllocError>
    requires plain { ArePlain plain.now }
    requires chained { IsChained numbers.old.variables numbers.old.lasts }
    ensures chained { OnOk result (IsChained numbers.new.variables numbers.new.lasts) }
    ensures step { OnOk result (IsStep at.now.0 (written_at (slice_index_or seen.now at.now.0 false) (view_instruction at.now.1) (option_map view_frame (option_copied frame.entry))) (view_variables numbers.old.variables) (view_variables numbers.new.variables) after.old after.new) }
{
    let number = add_reached(alloc, plain, seen, at, frame, numbers)?;
    note(at.0, number, after);
    Ok(())
}

/// Nothing that is written, for so many pcs.
fn none_after(alloc: Global, room: usize) -> Result<Items<Option<u32>>, AllocError>
    ensures room { IfOk result (λ after. length after ≡ room) }
    ensures none { IfOk result (λ after. (pc : ℕ) → slice_index_or after pc None ≡ None) }
{
    let mut after = Items::new(alloc);
    for _ in 0..room {
        after.push(None)?;
    }
    Ok(after)
}

/// Numbers what is written where control goes; by pcs, the variable of each store.
pub fn add_stores(
    alloc: Global,
    plain: &PlainTypes,
    typed: &Typed,
    numbers: &mut Numbers,
) -> Result<Items<Option<u32>>, AllocError>
    requires rising { IsRising (view_instructions typed.now.code.instructions) }
    requires plain { ArePlain plain.now }
    requires chained { IsChained numbers.old.variables numbers.old.lasts }
    ensures chained { OnOk result (IsChained numbers.new.variables numbers.new.lasts) }
    ensures stored { IfOk result (λ after. AreStored (view_typed typed.now) (view_variables numbers.old.variables) (view_variables numbers.new.variables) after) }
{
    let instructions = typed.code.instructions.as_slice();
    let seen = reached(alloc, &typed.code)?;
    let marks = seen.as_slice();
    let mut after = none_after(alloc, marks.len())?;
    for (place, at) in instructions.iter().enumerate() {
        add_store(
            alloc,
            plain,
            marks,
            at,
            typed.frames.get(place),
            numbers,
            &mut after,
        )?;
    }
    Ok(after)
}
