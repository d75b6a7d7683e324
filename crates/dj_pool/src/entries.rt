//! The pool of a class file front to back: texts, numbers and entries (JVMS 4.4).

ghost use Rattle.std.specs.Prelude.{◌≡◌, ◌≤◌, ◌↔◌, List, Option, IsTrue, IfOk};
ghost use Rattle.std.specs.Option.{option_copied};
ghost use Rattle.dj_layout.specs.Layout.{Reads};
ghost use Rattle.dj_layout.specs.Parts.{number, tested};
ghost use Rattle.dj_layout.specs.Passes.{asked};
ghost use Rattle.dj_pool.specs.declared.fault.BrokenKind.TheVariants.{Short, Index, Tag};
ghost use Rattle.dj_pool.specs.declared.entry.Entry as spec;
ghost use Rattle.dj_pool.specs.PoolFormat.{Two, utf8, text, asked_number, behind, content_of, entry_with, tag_of, places, is_tag, tag_within, IsFound, LeadsRight};
ghost use Rattle.dj_pool.specs.PoolTable.{is_pair};

use crate::entry::{Ask, Entry};
use crate::fault::BrokenKind;
use crate::pool::Pool;
use crate::texts::{is_found, leads_right};
use dj_layout::{Stop, fault_at, run_at, u8_at, u16_at, u32_at, u64_at};
use dj_names::{NameFault, Units, read_units};
use std::alloc::Global;

/// Units in `n` bytes.
pub fn utf8_at(
    alloc: Global,
    n: u16,
    bytes: &[u8],
    end: usize,
) -> Result<(Units, &[u8]), Stop<BrokenKind>>
    ensures reads { Reads (utf8 n) (λ x. (x.0, x.1.now)) end bytes.now result }
{
    let (text, rest) = run_at(bytes, end, n as usize, BrokenKind::Short)?;
    match read_units(alloc, text) {
        Ok(units) => Ok((units, rest)),
        Err(NameFault::BadUnits(at)) => Err(Stop::Fault(fault_at(
            &bytes[at as usize..],
            end,
            BrokenKind::Units,
        ))),
        Err(NameFault::Memory(_)) => Err(Stop::Memory),
        Err(NameFault::BadDescriptor(_)) => unreachable!(),
    }
}

/// Units behind the number of their bytes.
fn text_at(alloc: Global, bytes: &[u8], end: usize) -> Result<(Units, &[u8]), Stop<BrokenKind>>
    ensures reads { Reads text (λ x. (x.0, x.1.now)) end bytes.now result }
{
    let (len, rest) = u16_at(bytes, end, BrokenKind::Short)?;
    utf8_at(alloc, len, rest, end)
}

/// Whether at an index is an entry of the tag that is asked, as far as the pool is known.
fn is_found_in(given: Option<&Pool>, ask: Ask, index: u16) -> bool
    ensures exact { IsTrue result ↔ IsFound ask (option_copied given.entry) index }
{
    match given {
        Some(pool) => is_found(pool, ask, index),
        None => true,
    }
}

/// Whether an index leads to the kind of text that is asked, as far as the pool is known.
fn leads_right_in(given: Option<&Pool>, ask: Ask, index: u16) -> bool
    ensures exact { IsTrue result ↔ LeadsRight ask (option_copied given.entry) index }
{
    match given {
        Some(pool) => leads_right(pool, ask, index),
        None => true,
    }
}

/// An index of an entry of the tag that is asked.
fn found_at<'a>(
    given: Option<&Pool>,
    ask: Ask,
    bytes: &'a [u8],
    end: usize,
) -> Result<(u16, &'a [u8]), Stop<BrokenKind>>
    ensures reads { Reads (asked (number 2 Short) (IsFound ask (option_copied given.entry)) Index) (λ x. (x.0, x.1.now)) end bytes.now result }
{
    let (index, rest) = u16_at(bytes, end, BrokenKind::Short)?;
    if !is_found_in(given, ask, index) {
        return Err(Stop::Fault(fault_at(bytes, end, BrokenKind::Index)));
    }
    Ok((index, rest))
}

/// An index that leads to what is asked.
fn index_at<'a>(
    given: Option<&Pool>,
    ask: Ask,
    bytes: &'a [u8],
    end: usize,
) -> Result<(u16, &'a [u8]), Stop<BrokenKind>>
    ensures reads { Reads (asked_number (option_copied given.entry) 2 ask) (λ x. (x.0, x.1.now)) end bytes.now result }
{
    let (index, rest) = found_at(given, ask, bytes, end)?;
    if !leads_right_in(given, ask, index) {
        return Err(Stop::Fault(fault_at(bytes, end, BrokenKind::Descriptor)));
    }
    Ok((index, rest))
}

/// How many indices an entry of this tag takes.
pub fn places(tag: u8) -> u16
    ensures places { result ≡ places tag }
{
    if tag == 5 || tag == 6 { 2 } else { 1 }
}

/// Whether there are entries of this tag.
fn is_tag(tag: u8) -> bool
    ensures tag { result ≡ is_tag tag }
{
    tag == 1 || (3 <= tag && tag <= 12) || tag == 15 || tag == 16 || tag == 18
}

/// A tag of an entry.
fn known_tag_at(bytes: &[u8], end: usize) -> Result<(u8, &[u8]), Stop<BrokenKind>>
    ensures reads { Reads (tested (number 1 Short) is_tag Tag) (λ x. (x.0, x.1.now)) end bytes.now result }
{
    let (tag, rest) = u8_at(bytes, end, BrokenKind::Short)?;
    if !is_tag(tag) {
        return Err(Stop::Fault(fault_at(bytes, end, BrokenKind::Tag)));
    }
    Ok((tag, rest))
}

/// A tag of an entry that has room in so many indices.
pub fn tag_at(room: u16, bytes: &[u8], end: usize) -> Result<(u8, &[u8]), Stop<BrokenKind>>
    ensures reads { Reads (tag_within room) (λ x. (x.0, x.1.now)) end bytes.now result }
{
    let (tag, rest) = known_tag_at(bytes, end)?;
    if places(tag) > room {
        return Err(Stop::Fault(fault_at(bytes, end, BrokenKind::Index)));
    }
    Ok((tag, rest))
}

/// What follows the tag of a text.
pub fn utf8_entry_at(
    alloc: Global,
    bytes: &[u8],
    end: usize,
) -> Result<(Entry, &[u8]), Stop<BrokenKind>>
    ensures reads { (given : Option (List spec.Entry)) → Reads (behind given 1 (content_of 1)) (λ x. (x.0, x.1.now)) end bytes.now result }
    ensures tag { IfOk result (λ x. tag_of x.0 ≡ 1) }
{
    let (units, rest) = text_at(alloc, bytes, end)?;
    Ok((Entry::Utf8(units), rest))
}

/// What follows the tag of an Integer.
pub fn integer_at(bytes: &[u8], end: usize) -> Result<(Entry, &[u8]), Stop<BrokenKind>>
    ensures reads { (given : Option (List spec.Entry)) → Reads (behind given 3 (content_of 3)) (λ x. (x.0, x.1.now)) end bytes.now result }
    ensures tag { IfOk result (λ x. tag_of x.0 ≡ 3) }
{
    let (bits, rest) = u32_at(bytes, end, BrokenKind::Short)?;
    Ok((Entry::Integer(bits.cast_signed()), rest))
}

/// What follows the tag of a Float.
pub fn float_at(bytes: &[u8], end: usize) -> Result<(Entry, &[u8]), Stop<BrokenKind>>
    ensures reads { (given : Option (List spec.Entry)) → Reads (behind given 4 (content_of 4)) (λ x. (x.0, x.1.now)) end bytes.now result }
    ensures tag { IfOk result (λ x. tag_of x.0 ≡ 4) }
{
    let (bits, rest) = u32_at(bytes, end, BrokenKind::Short)?;
    Ok((Entry::Float(bits), rest))
}

/// What follows the tag of a Long.
pub fn long_at(bytes: &[u8], end: usize) -> Result<(Entry, &[u8]), Stop<BrokenKind>>
    ensures reads { (given : Option (List spec.Entry)) → Reads (behind given 5 (content_of 5)) (λ x. (x.0, x.1.now)) end bytes.now result }
    ensures tag { IfOk result (λ x. tag_of x.0 ≡ 5) }
{
    let (bits, rest) = u64_at(bytes, end, BrokenKind::Short)?;
    Ok((Entry::Long(bits.cast_signed()), rest))
}

/// What follows the tag of a Double.
pub fn double_at(bytes: &[u8], end: usize) -> Result<(Entry, &[u8]), Stop<BrokenKind>>
    ensures reads { (given : Option (List spec.Entry)) → Reads (behind given 6 (content_of 6)) (λ x. (x.0, x.1.now)) end bytes.now result }
    ensures tag { IfOk result (λ x. tag_of x.0 ≡ 6) }
{
    let (bits, rest) = u64_at(bytes, end, BrokenKind::Short)?;
    Ok((Entry::Double(bits), rest))
}

/// What follows the tag of a Class.
pub fn class_at<'a>(
    given: Option<&Pool>,
    bytes: &'a [u8],
    end: usize,
) -> Result<(Entry, &'a [u8]), Stop<BrokenKind>>
    ensures reads { Reads (behind (option_copied given.entry) 7 (content_of 7)) (λ x. (x.0, x.1.now)) end bytes.now result }
{
    let (name, rest) = index_at(given, Ask::ClassText, bytes, end)?;
    Ok((Entry::Class(name), rest))
}

/// What follows the tag of a String.
pub fn string_at<'a>(
    given: Option<&Pool>,
    bytes: &'a [u8],
    end: usize,
) -> Result<(Entry, &'a [u8]), Stop<BrokenKind>>
    ensures reads { Reads (behind (option_copied given.entry) 8 (content_of 8)) (λ x. (x.0, x.1.now)) end bytes.now result }
{
    let (units, rest) = index_at(given, Ask::Text, bytes, end)?;
    Ok((Entry::Text(units), rest))
}

/// What follows the tag of a MethodType.
pub fn method_type_at<'a>(
    given: Option<&Pool>,
    bytes: &'a [u8],
    end: usize,
) -> Result<(Entry, &'a [u8]), Stop<BrokenKind>>
    ensures reads { Reads (behind (option_copied given.entry) 16 (content_of 16)) (λ x. (x.0, x.1.now)) end bytes.now result }
{
    let (descriptor, rest) = index_at(given, Ask::MethodText, bytes, end)?;
    Ok((Entry::MethodType(descriptor), rest))
}

/// The entry of this tag with two indices.
fn pair(tag: u8, first: u16, second: u16) -> Entry
    requires tag { IsTrue (is_pair tag) }
    ensures entry { result ≡ entry_with tag first second }
{
    match tag {
        9 => Entry::FieldRef(first, second),
        10 => Entry::MethodRef(first, second),
        11 => Entry::InterfaceMethodRef(first, second),
        12 => Entry::NameAndType(first, second),
        _ => Entry::InvokeDynamic(first, second),
    }
}

/// What follows the tag of an entry of two indices, of which this is asked.
pub fn pair_at<'a>(
    given: Option<&Pool>,
    tag: u8,
    first: Ask,
    second: Ask,
    bytes: &'a [u8],
    end: usize,
) -> Result<(Entry, &'a [u8]), Stop<BrokenKind>>
    requires tag { IsTrue (is_pair tag) }
    ensures reads { Reads (behind (option_copied given.entry) tag (Two 2 first 2 second)) (λ x. (x.0, x.1.now)) end bytes.now result }
{
    let (one, rest) = index_at(given, first, bytes, end)?;
    let (other, rest) = index_at(given, second, rest, end)?;
    Ok((pair(tag, one, other), rest))
}

/// What follows the tag of a MethodHandle.
pub fn method_handle_at<'a>(
    given: Option<&Pool>,
    bytes: &'a [u8],
    end: usize,
) -> Result<(Entry, &'a [u8]), Stop<BrokenKind>>
    ensures reads { Reads (behind (option_copied given.entry) 15 (content_of 15)) (λ x. (x.0, x.1.now)) end bytes.now result }
{
    let (kind, rest) = u8_at(bytes, end, BrokenKind::Short)?;
    let (reference, rest) = index_at(given, Ask::Reference, rest, end)?;
    Ok((Entry::MethodHandle(kind, reference), rest))
}
