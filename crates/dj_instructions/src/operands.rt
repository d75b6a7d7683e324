//! What stands behind opcodes, read as what the instruction means (JVMS 6.5).

ghost use Rattle.std.specs.Prelude.{◌≡◌, ℕ, List};
ghost use Rattle.std.specs.Option.{option_map};
ghost use Rattle.dj_layout.specs.Layout.{Reads, ReadsAs};
ghost use Rattle.dj_layout.specs.Parts.{tested};
ghost use Rattle.dj_pool.specs.declared.entry.Entry.{Entry};
ghost use Rattle.dj_instructions.specs.declared.form.Form.TheVariants as form;
ghost use Rattle.dj_instructions.specs.declared.kinds.BadKind.TheVariants.{Opcode};
ghost use Rattle.dj_instructions.specs.Instructions.{view_instruction};
ghost use Rattle.dj_instructions.specs.RawInstructions.{form_of, can_be_wide, widened, behind, u1};
ghost use Rattle.dj_instructions.specs.Meanings.{wide};
ghost use Rattle.dj_instructions.specs.Reads.{HasAnswer};

use crate::form::form_of;
use crate::instruction::Instruction;
use crate::jumps::target;
use crate::kinds::BadKind;
use crate::objects::sized_array_at;
use crate::plain::{widened_load, with_byte, with_count, with_short};
use dj_layout::{Stop, fault_at, u8_at, u16_at, u32_at};
use dj_pool::Pool;
use std::alloc::Global;

/// Whether `wide` may stand in front of an opcode.
fn can_be_wide(opcode: u8) -> bool
    ensures wide { result ≡ can_be_wide opcode }
{
    match opcode {
        21..=25 => true,
        54..=58 => true,
        132 => true,
        _ => false,
    }
}

/// An opcode behind `wide`.
fn wide_opcode_at(bytes: &[u8], end: usize) -> Result<(u8, &[u8]), Stop<BadKind>>
    ensures reads { Reads (tested u1 can_be_wide Opcode) (λ x. (x.0, x.1.now)) end bytes.now result }
{
    let (opcode, rest) = u8_at(bytes, end, BadKind::CutOff)?;
    if !can_be_wide(opcode) {
        return Err(Stop::Fault(fault_at(bytes, end, BadKind::Opcode)));
    }
    Ok((opcode, rest))
}

/// What stands behind `wide`.
pub fn widened_at(bytes: &[u8], end: usize) -> Result<(Option<Instruction>, &[u8]), Stop<BadKind>>
    ensures reads { ReadsAs widened (λ w found. found ≡ wide w) (λ x. (option_map view_instruction x.0, x.1.now)) end bytes.now result }
{
    let (opcode, rest) = wide_opcode_at(bytes, end)?;
    let (slot, rest) = u16_at(rest, end, BadKind::CutOff)?;
    if opcode == 132 {
        let (by, rest) = u16_at(rest, end, BadKind::CutOff)?;
        return Ok((Some(Instruction::Iinc(slot, by.cast_signed())), rest));
    }
    Ok((widened_load(opcode, slot), rest))
}

/// One byte behind an opcode.
pub fn byte_at<'a>(
    alloc: Global,
    pool: &Pool,
    opcode: u8,
    bytes: &'a [u8],
    end: usize,
) -> Result<(Option<Instruction>, &'a [u8]), Stop<BadKind>>
    requires form { form_of opcode ≡ form.Byte }
    ensures reads { (pc : ℕ) → ReadsAs (behind pc opcode form.Byte) (HasAnswer pool.now pc) (λ x. (option_map view_instruction x.0, x.1.now)) end bytes.now result }
{
    let (x, rest) = u8_at(bytes, end, BadKind::CutOff)?;
    let found = with_byte(alloc, pool, opcode, x)?;
    Ok((found, rest))
}

/// Two bytes behind an opcode at this pc.
pub fn short_at<'a>(
    alloc: Global,
    pool: &Pool,
    pc: u32,
    opcode: u8,
    bytes: &'a [u8],
    end: usize,
) -> Result<(Option<Instruction>, &'a [u8]), Stop<BadKind>>
    requires form { form_of opcode ≡ form.Short }
    ensures reads { ReadsAs (behind pc opcode form.Short) (HasAnswer pool.now pc) (λ x. (option_map view_instruction x.0, x.1.now)) end bytes.now result }
{
    let (x, rest) = u16_at(bytes, end, BadKind::CutOff)?;
    let found = with_short(alloc, pool, pc, opcode, x)?;
    Ok((found, rest))
}

/// What stands behind `goto_w` at this pc.
pub fn word_at(
    pc: u32,
    bytes: &[u8],
    end: usize,
) -> Result<(Option<Instruction>, &[u8]), Stop<BadKind>>
    ensures reads { (pool : List Entry) (op : ℕ) → form_of op ≡ form.Word → ReadsAs (behind pc op form.Word) (HasAnswer pool pc) (λ x. (option_map view_instruction x.0, x.1.now)) end bytes.now result }
{
    let (offset, rest) = u32_at(bytes, end, BadKind::CutOff)?;
    let to = target(pc, offset.cast_signed());
    Ok((Some(Instruction::Goto(to)), rest))
}

/// What stands behind `iinc`.
pub fn step_at(bytes: &[u8], end: usize) -> Result<(Option<Instruction>, &[u8]), Stop<BadKind>>
    ensures reads { (pool : List Entry) (pc op : ℕ) → form_of op ≡ form.Step → ReadsAs (behind pc op form.Step) (HasAnswer pool pc) (λ x. (option_map view_instruction x.0, x.1.now)) end bytes.now result }
{
    let (slot, rest) = u8_at(bytes, end, BadKind::CutOff)?;
    let (by, rest) = u8_at(rest, end, BadKind::CutOff)?;
    let step = Instruction::Iinc(u16::from(slot), i16::from(by.cast_signed()));
    Ok((Some(step), rest))
}

/// What stands behind `invokeinterface` and `invokedynamic`.
pub fn counted_at<'a>(
    alloc: Global,
    pool: &Pool,
    opcode: u8,
    bytes: &'a [u8],
    end: usize,
) -> Result<(Option<Instruction>, &'a [u8]), Stop<BadKind>>
    requires form { form_of opcode ≡ form.Counted }
    ensures reads { (pc : ℕ) → ReadsAs (behind pc opcode form.Counted) (HasAnswer pool.now pc) (λ x. (option_map view_instruction x.0, x.1.now)) end bytes.now result }
{
    let (index, rest) = u16_at(bytes, end, BadKind::CutOff)?;
    let (_count, rest) = u16_at(rest, end, BadKind::CutOff)?;
    let found = with_count(alloc, pool, opcode, index)?;
    Ok((found, rest))
}

/// What stands behind `multianewarray`.
pub fn sizes_at<'a>(
    alloc: Global,
    pool: &Pool,
    bytes: &'a [u8],
    end: usize,
) -> Result<(Option<Instruction>, &'a [u8]), Stop<BadKind>>
    ensures reads { (pc op : ℕ) → form_of op ≡ form.Sizes → ReadsAs (behind pc op form.Sizes) (HasAnswer pool.now pc) (λ x. (option_map view_instruction x.0, x.1.now)) end bytes.now result }
{
    let (index, rest) = u16_at(bytes, end, BadKind::CutOff)?;
    let (sizes, rest) = u8_at(rest, end, BadKind::CutOff)?;
    let found = sized_array_at(alloc, pool, index, sizes)?;
    Ok((found, rest))
}
