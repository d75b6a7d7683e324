//! The operands of switches (JVMS 6.5, `tableswitch`, `lookupswitch`).

ghost use Rattle.std.specs.Prelude.{◌≡◌, map};
ghost use Rattle.std.specs.Int.{cast_signed};
ghost use Rattle.std.specs.Option.{option_map};
ghost use Rattle.dj_layout.specs.Layout.{Reads, ReadsAs};
ghost use Rattle.dj_layout.specs.Parts.{times};
ghost use Rattle.dj_instructions.specs.Instructions.{view_instruction};
ghost use Rattle.dj_instructions.specs.RawInstructions.{padding, count_keys, pair, table, lookup, u4};
ghost use Rattle.dj_instructions.specs.Jumps.{table_with, table_switch, lookup_with, lookup_switch};
ghost use Rattle.dj_instructions.specs.Reads.{target_of, case_of};

use crate::instruction::Instruction;
use crate::jumps::{do_rise, target};
use crate::kinds::BadKind;
use dj_layout::{Stop, run_at, u32_at};
use dj_names::Items;
use std::alloc::Global;

/// The padding behind the opcode at this pc.
fn padding_at(pc: u32, bytes: &[u8], end: usize) -> Result<(&[u8], &[u8]), Stop<BadKind>>
    ensures reads { Reads (padding pc) (λ x. (x.0.now, x.1.now)) end bytes.now result }
{
    run_at(bytes, end, 3 - pc as usize % 4, BadKind::CutOff)
}

/// How many keys there are from one to another.
fn count_keys(low: i32, high: i32) -> usize
    ensures count { result ≡ count_keys low high }
{
    if high < low {
        return 0;
    }
    high.abs_diff(low) as usize + 1
}

/// An offset, as the pc that it leads to.
fn target_at(pc: u32, bytes: &[u8], end: usize) -> Result<(u32, &[u8]), Stop<BadKind>>
    ensures reads { ReadsAs u4 (λ offset to. to ≡ target_of pc offset) (λ x. (x.0, x.1.now)) end bytes.now result }
{
    let (offset, rest) = u32_at(bytes, end, BadKind::CutOff)?;
    Ok((target(pc, offset.cast_signed()), rest))
}

/// So many offsets.
fn target_list(
    alloc: Global,
    pc: u32,
    count: usize,
    bytes: &[u8],
    end: usize,
) -> Result<(Items<u32>, &[u8]), Stop<BadKind>>
    ensures reads { ReadsAs (times count u4) (λ offsets targets. targets ≡ map (target_of pc) offsets) (λ x. (x.0, x.1.now)) end bytes.now result }
{
    let mut found = Items::new(alloc);
    let mut rest = bytes;
    for _ in 0..count {
        let (to, after) = target_at(pc, rest, end)?;
        found.push(to)?;
        rest = after;
    }
    Ok((found, rest))
}

/// A key and its offset.
fn case_at(pc: u32, bytes: &[u8], end: usize) -> Result<((i32, u32), &[u8]), Stop<BadKind>>
    ensures reads { ReadsAs pair (λ p case. case ≡ case_of pc p) (λ x. (x.0, x.1.now)) end bytes.now result }
{
    let (key, rest) = u32_at(bytes, end, BadKind::CutOff)?;
    let (offset, rest) = u32_at(rest, end, BadKind::CutOff)?;
    let case = (key.cast_signed(), target(pc, offset.cast_signed()));
    Ok((case, rest))
}

/// So many keys with their offsets.
fn case_list(
    alloc: Global,
    pc: u32,
    count: u32,
    bytes: &[u8],
    end: usize,
) -> Result<(Items<(i32, u32)>, &[u8]), Stop<BadKind>>
    ensures reads { ReadsAs (times count pair) (λ pairs cases. cases ≡ map (case_of pc) pairs) (λ x. (x.0, x.1.now)) end bytes.now result }
{
    let mut found = Items::new(alloc);
    let mut rest = bytes;
    for _ in 0..count {
        let (case, after) = case_at(pc, rest, end)?;
        found.push(case)?;
        rest = after;
    }
    Ok((found, rest))
}

/// A `tableswitch` with these targets.
fn table_switch(
    pc: u32,
    other: u32,
    low: u32,
    high: u32,
    targets: Items<u32>,
) -> Option<Instruction>
    ensures switch { option_map view_instruction result ≡ table_with pc other low high targets }
{
    let low = low.cast_signed();
    if high.cast_signed() < low {
        return None;
    }
    Some(Instruction::TableSwitch {
        low,
        targets,
        other: target(pc, other.cast_signed()),
    })
}

/// What stands behind the `tableswitch` at this pc.
pub fn table_at(
    alloc: Global,
    pc: u32,
    bytes: &[u8],
    end: usize,
) -> Result<(Option<Instruction>, &[u8]), Stop<BadKind>>
    ensures reads { ReadsAs (table pc) (λ t found. found ≡ table_switch pc t) (λ x. (option_map view_instruction x.0, x.1.now)) end bytes.now result }
{
    let (_padding, rest) = padding_at(pc, bytes, end)?;
    let (other, rest) = u32_at(rest, end, BadKind::CutOff)?;
    let (low, rest) = u32_at(rest, end, BadKind::CutOff)?;
    let (high, rest) = u32_at(rest, end, BadKind::CutOff)?;
    let count = count_keys(low.cast_signed(), high.cast_signed());
    let (targets, rest) = target_list(alloc, pc, count, rest, end)?;
    Ok((table_switch(pc, other, low, high, targets), rest))
}

/// A `lookupswitch` with these keys and targets.
fn lookup_switch(pc: u32, other: u32, cases: Items<(i32, u32)>) -> Option<Instruction>
    ensures switch { option_map view_instruction result ≡ lookup_with pc other cases }
{
    if !do_rise(cases.as_slice()) {
        return None;
    }
    Some(Instruction::LookupSwitch {
        cases,
        other: target(pc, other.cast_signed()),
    })
}

/// What stands behind the `lookupswitch` at this pc.
pub fn lookup_at(
    alloc: Global,
    pc: u32,
    bytes: &[u8],
    end: usize,
) -> Result<(Option<Instruction>, &[u8]), Stop<BadKind>>
    ensures reads { ReadsAs (lookup pc) (λ l found. found ≡ lookup_switch pc l) (λ x. (option_map view_instruction x.0, x.1.now)) end bytes.now result }
{
    let (_padding, rest) = padding_at(pc, bytes, end)?;
    let (other, rest) = u32_at(rest, end, BadKind::CutOff)?;
    let (count, rest) = u32_at(rest, end, BadKind::CutOff)?;
    let (cases, rest) = case_list(alloc, pc, count, rest, end)?;
    Ok((lookup_switch(pc, other, cases), rest))
}
