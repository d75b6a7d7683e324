//! An instruction, read as what it means (JVMS 6.5).

ghost use Rattle.std.specs.Option.{option_map};
ghost use Rattle.dj_layout.specs.Layout.{Reads, ReadsAs};
ghost use Rattle.dj_layout.specs.Parts.{headed};
ghost use Rattle.dj_instructions.specs.Instructions.{view_instruction};
ghost use Rattle.dj_instructions.specs.RawInstructions.{form_of, behind, opcode, opcode_of, raw_instruction};
ghost use Rattle.dj_instructions.specs.Listing.{Means, lawful_instruction};
ghost use Rattle.dj_instructions.specs.Reads.{HasAnswer};

use crate::alone::alone;
use crate::form::{Form, form_of};
use crate::instruction::Instruction;
use crate::kinds::BadKind;
use crate::operands::{byte_at, counted_at, short_at, sizes_at, step_at, widened_at, word_at};
use crate::switches::{lookup_at, table_at};
use dj_layout::{Stop, fault_at, u8_at};
use dj_pool::Pool;
use std::alloc::Global;

/// An opcode.
fn opcode_at(bytes: &[u8], end: usize) -> Result<(u8, &[u8]), Stop<BadKind>>
    ensures reads { Reads opcode (λ x. (x.0, x.1.now)) end bytes.now result }
{
    let (opcode, rest) = u8_at(bytes, end, BadKind::CutOff)?;
    if form_of(opcode) == Form::Unknown {
        return Err(Stop::Fault(fault_at(bytes, end, BadKind::Opcode)));
    }
    Ok((opcode, rest))
}

/// What stands behind an opcode at this pc.
fn behind_at<'a>(
    alloc: Global,
    pool: &Pool,
    pc: u32,
    opcode: u8,
    bytes: &'a [u8],
    end: usize,
) -> Result<(Option<Instruction>, &'a [u8]), Stop<BadKind>>
    ensures reads { ReadsAs (behind pc opcode (form_of opcode)) (HasAnswer pool.now pc) (λ x. (option_map view_instruction x.0, x.1.now)) end bytes.now result }
{
    match form_of(opcode) {
        Form::Unknown => Ok((None, bytes)),
        Form::Alone => Ok((alone(opcode), bytes)),
        Form::Byte => byte_at(alloc, pool, opcode, bytes, end),
        Form::Short => short_at(alloc, pool, pc, opcode, bytes, end),
        Form::Word => word_at(pc, bytes, end),
        Form::Step => step_at(bytes, end),
        Form::Counted => counted_at(alloc, pool, opcode, bytes, end),
        Form::Sizes => sizes_at(alloc, pool, bytes, end),
        Form::Table => table_at(alloc, pc, bytes, end),
        Form::Lookup => lookup_at(alloc, pc, bytes, end),
        Form::Wide => widened_at(bytes, end),
    }
}

/// An instruction at this pc, whose faults are told where its parts are.
fn parts_at<'a>(
    alloc: Global,
    pool: &Pool,
    pc: u32,
    bytes: &'a [u8],
    end: usize,
) -> Result<(Option<Instruction>, &'a [u8]), Stop<BadKind>>
    ensures reads { ReadsAs (headed opcode_of opcode (λ op. behind pc op (form_of op))) (HasAnswer pool.now pc) (λ x. (option_map view_instruction x.0, x.1.now)) end bytes.now result }
{
    let (opcode, rest) = opcode_at(bytes, end)?;
    behind_at(alloc, pool, pc, opcode, rest, end)
}

/// An instruction at this pc, whose faults are told where it begins.
fn raw_at<'a>(
    alloc: Global,
    pool: &Pool,
    pc: u32,
    bytes: &'a [u8],
    end: usize,
) -> Result<(Option<Instruction>, &'a [u8]), Stop<BadKind>>
    ensures reads { ReadsAs (raw_instruction pc) (HasAnswer pool.now pc) (λ x. (option_map view_instruction x.0, x.1.now)) end bytes.now result }
{
    match parts_at(alloc, pool, pc, bytes, end) {
        Ok(read) => Ok(read),
        Err(Stop::Memory) => Err(Stop::Memory),
        Err(Stop::Fault(fault)) => Err(Stop::Fault(fault_at(bytes, end, fault.kind))),
    }
}

/// An instruction at this pc whose operands the opcode takes.
pub fn instruction_read<'a>(
    alloc: Global,
    pool: &Pool,
    pc: u32,
    bytes: &'a [u8],
    end: usize,
) -> Result<(Instruction, &'a [u8]), Stop<BadKind>>
    ensures reads { ReadsAs (lawful_instruction pool.now pc) (Means pool.now pc) (λ x. (view_instruction x.0, x.1.now)) end bytes.now result }
{
    let (found, rest) = raw_at(alloc, pool, pc, bytes, end)?;
    match found {
        Some(instruction) => Ok((instruction, rest)),
        None => Err(Stop::Fault(fault_at(bytes, end, BadKind::Opcode))),
    }
}
