//! The StackMapTable of a method (JVMS 4.7.4).

ghost use Rattle.std.specs.Prelude.{◌≡◌, ◌≤◌, ◌-◌, ◌==◌, ◌^◌, ◌++◌, ◌∷◌, [], List, length};
ghost use Rattle.dj_layout.specs.declared.fault.Stop.TheVariants as stop;
ghost use Rattle.dj_layout.specs.Layout.{Reads, ReadsAs};
ghost use Rattle.dj_layout.specs.Passes.{asked, sequence};
ghost use Rattle.dj_instructions.specs.declared.kinds.BadKind.TheVariants as kind;
ghost use Rattle.dj_instructions.specs.Instructions.{view_instructions, IsRising};
ghost use Rattle.dj_frames.specs.Frames.{Tag, view_tags};
ghost use Rattle.dj_stack_map.specs.StackMap.{RawFrame, u2, told_at, tag, frame_with, Follows, frame_behind, spell_frame, table};
ghost use Rattle.dj_stack_map.specs.Reading.{IsListedTo, ReadsTable};

use crate::follow::{Listed, follow};
use crate::written::written_at;
use dj_frames::Locals;
use dj_instructions::{BadKind, Instruction};
use dj_layout::{Fault, Stop, fault_at, u16_at};
use dj_names::Items;
use dj_pool::Pool;
use std::alloc::Global;

/// The fault at the last of the frames, 0 where there is none, by where one with delta 0 would be
/// behind it.
pub fn fault_behind(least: u64) -> Stop<BadKind>
    ensures fault { result ≡ stop.Fault (record { kind = kind.Frame; offset = least - 1 }) }
{
    Stop::Fault(Fault {
        kind: BadKind::Frame,
        offset: least.saturating_sub(1) as usize,
    })
}

/// Puts a frame behind others, its fault where it begins.
fn next_at<'a>(
    alloc: Global,
    pool: &Pool,
    instructions: &[(u32, Instruction)],
    listed: &mut Listed,
    bytes: &'a [u8],
    end: usize,
) -> Result<&'a [u8], Stop<BadKind>>
    requires rising { IsRising (view_instructions instructions.now) }
    requires low { listed.old.least ≤ 2 ^ 32 }
    ensures reads { (values : List Tag) (before : List RawFrame) → IsListedTo pool.now (view_instructions instructions.now) values before listed.old → ReadsAs (asked (frame_with (tag pool.now (view_instructions instructions.now))) (Follows (view_instructions instructions.now) (length values) before) kind.Frame) (λ raw now. IsListedTo pool.now (view_instructions instructions.now) values (before ++ raw ∷ []) now) (λ rest. (listed.new, rest.now)) end bytes.now result }
{
    let (written, rest) = written_at(alloc, pool, instructions, bytes, end)?;
    match follow(alloc, instructions, listed, written)? {
        Some(()) => Ok(rest),
        None => Err(Stop::Fault(fault_at(bytes, end, BadKind::Frame))),
    }
}

/// Puts a frame behind others, its fault at the last of them.
fn frame_at<'a>(
    alloc: Global,
    pool: &Pool,
    instructions: &[(u32, Instruction)],
    listed: &mut Listed,
    bytes: &'a [u8],
    end: usize,
) -> Result<&'a [u8], Stop<BadKind>>
    requires rising { IsRising (view_instructions instructions.now) }
    requires low { listed.old.least ≤ 2 ^ 32 }
    ensures reads { (values : List Tag) (before : List RawFrame) → IsListedTo pool.now (view_instructions instructions.now) values before listed.old → ReadsAs (frame_behind pool.now (view_instructions instructions.now) (length values) before) (λ raw now. IsListedTo pool.now (view_instructions instructions.now) values (before ++ raw ∷ []) now) (λ rest. (listed.new, rest.now)) end bytes.now result }
{
    let least = listed.least;
    match next_at(alloc, pool, instructions, listed, bytes, end) {
        Ok(rest) => Ok(rest),
        Err(Stop::Fault(_)) => Err(fault_behind(least)),
        Err(Stop::Memory) => Err(Stop::Memory),
    }
}

/// So many frames behind the entry of a method.
fn frame_list<'a>(
    alloc: Global,
    pool: &Pool,
    instructions: &[(u32, Instruction)],
    entry: Locals,
    count: u16,
    bytes: &'a [u8],
    end: usize,
) -> Result<(Listed, &'a [u8]), Stop<BadKind>>
    requires rising { IsRising (view_instructions instructions.now) }
    ensures reads { ReadsAs (sequence spell_frame (λ xs. length xs == count) (frame_behind pool.now (view_instructions instructions.now) (length (view_tags entry)))) (IsListedTo pool.now (view_instructions instructions.now) (view_tags entry)) (λ x. (x.0, x.1.now)) end bytes.now result }
{
    let room = bytes.len().min(usize::from(count));
    let mut listed = Listed {
        frames: Items::from_vec(Vec::with_capacity(alloc, room)?),
        locals: entry,
        least: 0,
        near: 0,
    };
    let mut rest = bytes;
    for _ in 0..count {
        let after = frame_at(alloc, pool, instructions, &mut listed, rest, end)?;
        rest = after;
    }
    Ok((listed, rest))
}

/// The number of frames; where it isn't there, there is no last frame.
fn count_at(bytes: &[u8], end: usize) -> Result<(u16, &[u8]), Stop<BadKind>>
    ensures reads { Reads (told_at u2 0) (λ x. (x.0, x.1.now)) end bytes.now result }
{
    match u16_at(bytes, end, BadKind::Frame) {
        Ok((count, rest)) => Ok((count, rest)),
        Err(Stop::Fault(_)) => Err(fault_behind(0)),
        Err(Stop::Memory) => Err(Stop::Memory),
    }
}

/// The frames of a table and the bytes behind it.
fn table_at<'a>(
    alloc: Global,
    pool: &Pool,
    instructions: &[(u32, Instruction)],
    entry: Locals,
    bytes: &'a [u8],
    end: usize,
) -> Result<(Listed, &'a [u8]), Stop<BadKind>>
    requires rising { IsRising (view_instructions instructions.now) }
    ensures reads { ReadsAs (table pool.now (view_instructions instructions.now) (length (view_tags entry))) (IsListedTo pool.now (view_instructions instructions.now) (view_tags entry)) (λ x. (x.0, x.1.now)) end bytes.now result }
{
    let (count, rest) = count_at(bytes, end)?;
    let (listed, rest) = frame_list(alloc, pool, instructions, entry, count, rest, end)?;
    Ok((listed, rest))
}

/// The frames of a table that is all of the bytes.
pub fn read_table(
    alloc: Global,
    pool: &Pool,
    instructions: &[(u32, Instruction)],
    entry: Locals,
    content: &[u8],
) -> Result<Listed, Stop<BadKind>>
    requires rising { IsRising (view_instructions instructions.now) }
    ensures reads { ReadsTable pool.now (view_instructions instructions.now) (view_tags entry) content.now result }
{
    let end = content.len();
    let (listed, rest) = table_at(alloc, pool, instructions, entry, content, end)?;
    if !rest.is_empty() {
        return Err(fault_behind(listed.least));
    }
    Ok(listed)
}
