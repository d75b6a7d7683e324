//! Verification types as a StackMapTable has them (JVMS 4.7.4).

ghost use Rattle.std.specs.Prelude.{◌≡◌, nat_le, option_map, IfOk};
ghost use Rattle.std.specs.List.{AllZip};
ghost use Rattle.dj_layout.specs.Layout.{Reads, ReadsAs};
ghost use Rattle.dj_layout.specs.Parts.{exactly, times, tested, choice};
ghost use Rattle.dj_instructions.specs.declared.kinds.BadKind.TheVariants as kind;
ghost use Rattle.dj_instructions.specs.Instructions.{view_instructions, IsRising};
ghost use Rattle.dj_instructions.specs.PoolNames.{Finds};
ghost use Rattle.dj_frames.specs.Frames.{view_tag, view_tags};
ghost use Rattle.dj_stack_map.specs.StackMap.{u1, u2, raw_tag, plain_tag, IsTagOf, tag, many};

use crate::form::Count;
use crate::places::is_new_at;
use dj_frames::{Slots, Tag};
use dj_instructions::{BadKind, Instruction, type_of_class};
use dj_layout::{Stop, fault_at, u8_at, u16_at};
use dj_names::Items;
use dj_pool::Pool;
use std::alloc::{AllocError, Global};

/// The tag of a verification type.
fn known_tag_at(bytes: &[u8], end: usize) -> Result<(u8, &[u8]), Stop<BadKind>>
    ensures reads { Reads (tested u1 (λ tag. nat_le tag 8) kind.Frame) (λ x. (x.0, x.1.now)) end bytes.now result }
{
    let (tag, rest) = u8_at(bytes, end, BadKind::Frame)?;
    if tag > 8 {
        return Err(Stop::Fault(fault_at(bytes, end, BadKind::Frame)));
    }
    Ok((tag, rest))
}

/// The number behind a tag, 0 where it has none.
fn number_at(tag: u8, bytes: &[u8], end: usize) -> Result<(u16, &[u8]), Stop<BadKind>>
    ensures reads { Reads (choice (nat_le 7 tag) u2 (exactly 0)) (λ x. (x.0, x.1.now)) end bytes.now result }
{
    if tag >= 7 {
        u16_at(bytes, end, BadKind::Frame)
    } else {
        Ok((0, bytes))
    }
}

/// A tag and the number behind it.
fn raw_tag_at(bytes: &[u8], end: usize) -> Result<((u8, u16), &[u8]), Stop<BadKind>>
    ensures reads { Reads raw_tag (λ x. (record { tag = x.0.0; number = x.0.1 }, x.1.now)) end bytes.now result }
{
    let (tag, rest) = known_tag_at(bytes, end)?;
    let (number, rest) = number_at(tag, rest, end)?;
    Ok(((tag, number), rest))
}

/// A tag that stands for itself.
fn plain_tag(tag: u8) -> Option<Tag>
    ensures tag { option_map view_tag result ≡ plain_tag tag }
{
    match tag {
        0 => Some(Tag::Top),
        1 => Some(Tag::Int),
        2 => Some(Tag::Float),
        3 => Some(Tag::Double),
        4 => Some(Tag::Long),
        5 => Some(Tag::Null),
        6 => Some(Tag::UnbornThis),
        _ => None,
    }
}

/// What a tag means with the number behind it.
fn tag_of(
    alloc: Global,
    pool: &Pool,
    instructions: &[(u32, Instruction)],
    tag: u8,
    number: u16,
) -> Result<Option<Tag>, AllocError>
    requires rising { IsRising (view_instructions instructions.now) }
    ensures found { IfOk result (λ found. Finds (IsTagOf pool.now (view_instructions instructions.now) (record { tag = tag; number = number })) (option_map view_tag found)) }
{
    match tag {
        7 => match type_of_class(alloc, pool, number)? {
            Some(class) => Ok(Some(Tag::Object(class))),
            None => Ok(None),
        },
        8 => {
            if is_new_at(instructions, u32::from(number)) {
                Ok(Some(Tag::Unborn(u32::from(number))))
            } else {
                Ok(None)
            }
        }
        _ => Ok(plain_tag(tag)),
    }
}

/// A verification type that means something.
fn tag_at<'a>(
    alloc: Global,
    pool: &Pool,
    instructions: &[(u32, Instruction)],
    bytes: &'a [u8],
    end: usize,
) -> Result<(Tag, &'a [u8]), Stop<BadKind>>
    requires rising { IsRising (view_instructions instructions.now) }
    ensures reads { ReadsAs (tag pool.now (view_instructions instructions.now)) (IsTagOf pool.now (view_instructions instructions.now)) (λ x. (view_tag x.0, x.1.now)) end bytes.now result }
{
    let ((tag, number), rest) = raw_tag_at(bytes, end)?;
    match tag_of(alloc, pool, instructions, tag, number)? {
        Some(meant) => Ok((meant, rest)),
        None => Err(Stop::Fault(fault_at(bytes, end, BadKind::Frame))),
    }
}

/// So many verification types.
fn tag_list<'a>(
    alloc: Global,
    pool: &Pool,
    instructions: &[(u32, Instruction)],
    count: u16,
    bytes: &'a [u8],
    end: usize,
) -> Result<(Items<Tag>, &'a [u8]), Stop<BadKind>>
    requires rising { IsRising (view_instructions instructions.now) }
    ensures reads { ReadsAs (times count (tag pool.now (view_instructions instructions.now))) (AllZip (IsTagOf pool.now (view_instructions instructions.now))) (λ x. (view_tags x.0, x.1.now)) end bytes.now result }
{
    let mut found = Items::from_vec(Vec::with_capacity(alloc, usize::from(count))?);
    let mut rest = bytes;
    for _ in 0..count {
        let (tag, after) = tag_at(alloc, pool, instructions, rest, end)?;
        found.push(tag)?;
        rest = after;
    }
    Ok((found, rest))
}

/// As many verification types as are counted.
pub fn tags_at<'a>(
    alloc: Global,
    pool: &Pool,
    instructions: &[(u32, Instruction)],
    count: Count,
    bytes: &'a [u8],
    end: usize,
) -> Result<(Items<Tag>, &'a [u8]), Stop<BadKind>>
    requires rising { IsRising (view_instructions instructions.now) }
    ensures reads { ReadsAs (many count (tag pool.now (view_instructions instructions.now))) (AllZip (IsTagOf pool.now (view_instructions instructions.now))) (λ x. (view_tags x.0, x.1.now)) end bytes.now result }
{
    match count {
        Count::Given(n) => tag_list(alloc, pool, instructions, u16::from(n), bytes, end),
        Count::Counted => {
            let (n, rest) = u16_at(bytes, end, BadKind::Frame)?;
            let (tags, rest) = tag_list(alloc, pool, instructions, n, rest, end)?;
            Ok((tags, rest))
        }
    }
}

/// As many verification types as are counted, as a list that can be shared.
pub fn slots_at<'a>(
    alloc: Global,
    pool: &Pool,
    instructions: &[(u32, Instruction)],
    count: Count,
    bytes: &'a [u8],
    end: usize,
) -> Result<(Slots, &'a [u8]), Stop<BadKind>>
    requires rising { IsRising (view_instructions instructions.now) }
    ensures reads { ReadsAs (many count (tag pool.now (view_instructions instructions.now))) (AllZip (IsTagOf pool.now (view_instructions instructions.now))) (λ x. (view_tags x.0, x.1.now)) end bytes.now result }
{
    let (tags, rest) = tags_at(alloc, pool, instructions, count, bytes, end)?;
    let slots = Slots::from_items(alloc, tags)?;
    Ok((slots, rest))
}
