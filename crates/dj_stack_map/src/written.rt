//! Frames as a StackMapTable has them, by what their tags mean (JVMS 4.7.4).

ghost use Rattle.std.specs.Prelude.{◌≡◌};
ghost use Rattle.dj_layout.specs.Layout.{Reads, ReadsAs};
ghost use Rattle.dj_layout.specs.Parts.{tested};
ghost use Rattle.dj_instructions.specs.declared.kinds.BadKind.TheVariants as kind;
ghost use Rattle.dj_instructions.specs.Instructions.{view_instructions, IsRising};
ghost use Rattle.dj_stack_map.specs.StackMap.{u1, is_kind, delta, tag, frame_with, IsItemOf};
ghost use Rattle.dj_stack_map.specs.Reading.{view_written};

use crate::form::form_of;
use crate::tags::{slots_at, tags_at};
use dj_frames::{Slots, Tag};
use dj_instructions::{BadKind, Instruction};
use dj_layout::{Stop, fault_at, u8_at, u16_at};
use dj_names::Items;
use dj_pool::Pool;
use std::alloc::Global;

/// A frame as it is written: its kind, the delta of its offset, and the locals and stack entries
/// that stand there.
#[derive(Drop)]
pub struct Written {
    pub kind: u8,
    pub delta: u16,
    pub locals: Items<Tag>,
    pub stack: Slots,
}

/// The kind of a frame.
fn kind_at(bytes: &[u8], end: usize) -> Result<(u8, &[u8]), Stop<BadKind>>
    ensures reads { Reads (tested u1 is_kind kind.Frame) (λ x. (x.0, x.1.now)) end bytes.now result }
{
    let (kind, rest) = u8_at(bytes, end, BadKind::Frame)?;
    match kind {
        128..=246 => Err(Stop::Fault(fault_at(bytes, end, BadKind::Frame))),
        _ => Ok((kind, rest)),
    }
}

/// The delta of an offset, where the kind has it or in two bytes.
fn delta_at(given: Option<u8>, bytes: &[u8], end: usize) -> Result<(u16, &[u8]), Stop<BadKind>>
    ensures reads { Reads (delta given) (λ x. (x.0, x.1.now)) end bytes.now result }
{
    match given {
        Some(delta) => Ok((u16::from(delta), bytes)),
        None => u16_at(bytes, end, BadKind::Frame),
    }
}

/// A frame whose tags mean something.
pub fn written_at<'a>(
    alloc: Global,
    pool: &Pool,
    instructions: &[(u32, Instruction)],
    bytes: &'a [u8],
    end: usize,
) -> Result<(Written, &'a [u8]), Stop<BadKind>>
    requires rising { IsRising (view_instructions instructions.now) }
    ensures reads { ReadsAs (frame_with (tag pool.now (view_instructions instructions.now))) (IsItemOf pool.now (view_instructions instructions.now)) (λ x. (view_written x.0, x.1.now)) end bytes.now result }
{
    let (kind, rest) = kind_at(bytes, end)?;
    let form = form_of(kind);
    let (delta, rest) = delta_at(form.delta, rest, end)?;
    let (locals, rest) = tags_at(alloc, pool, instructions, form.locals, rest, end)?;
    let (stack, rest) = slots_at(alloc, pool, instructions, form.stack, rest, end)?;
    let written = Written {
        kind,
        delta,
        locals,
        stack,
    };
    Ok((written, rest))
}
