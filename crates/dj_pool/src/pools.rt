//! The pool of a class file: entries of one or two indices, up to their count (JVMS 4.4).

ghost use Rattle.std.specs.Prelude.{◌≡◌, ◌≤◌, ◌+◌, ◌++◌, length, nat_le, IsTrue, IfOk, OnOk};
ghost use Rattle.std.specs.Option.{option_copied};
ghost use Rattle.dj_layout.specs.Layout.{Reads};
ghost use Rattle.dj_layout.specs.Parts.{tested};
ghost use Rattle.dj_pool.specs.declared.fault.BrokenKind.TheVariants.{Index};
ghost use Rattle.dj_pool.specs.SharedParts.{u2};
ghost use Rattle.dj_pool.specs.PoolFormat.{behind, content_of, tag_of, places, is_tag, entry_within, spread, entries, pool};

use crate::entries::{
    class_at, double_at, float_at, integer_at, long_at, method_handle_at, method_type_at, pair_at,
    places, string_at, tag_at, utf8_entry_at,
};
use crate::entry::{Ask, Entry};
use crate::fault::BrokenKind;
use crate::pool::Pool;
use dj_layout::{Stop, fault_at, u16_at};
use dj_names::Items;
use std::alloc::{AllocError, Global};

/// What follows a tag of an entry.
pub fn behind_at<'a>(
    alloc: Global,
    given: Option<&Pool>,
    tag: u8,
    bytes: &'a [u8],
    end: usize,
) -> Result<(Entry, &'a [u8]), Stop<BrokenKind>>
    requires tag { IsTrue (is_tag tag) }
    ensures reads { Reads (behind (option_copied given.entry) tag (content_of tag)) (λ x. (x.0, x.1.now)) end bytes.now result }
    ensures tag { IfOk result (λ x. tag_of x.0 ≡ tag) }
{
    match tag {
        1 => utf8_entry_at(alloc, bytes, end),
        3 => integer_at(bytes, end),
        4 => float_at(bytes, end),
        5 => long_at(bytes, end),
        6 => double_at(bytes, end),
        7 => class_at(given, bytes, end),
        8 => string_at(given, bytes, end),
        9 => pair_at(given, 9, Ask::Class, Ask::FieldMember, bytes, end),
        10 => pair_at(given, 10, Ask::Class, Ask::MethodMember, bytes, end),
        11 => pair_at(given, 11, Ask::Class, Ask::MethodMember, bytes, end),
        12 => pair_at(given, 12, Ask::Text, Ask::AnyText, bytes, end),
        15 => method_handle_at(given, bytes, end),
        16 => method_type_at(given, bytes, end),
        _ => pair_at(given, 18, Ask::Free, Ask::MethodMember, bytes, end),
    }
}

/// An entry that has room in so many indices.
fn entry_at<'a>(
    alloc: Global,
    given: Option<&Pool>,
    room: u16,
    bytes: &'a [u8],
    end: usize,
) -> Result<(Entry, &'a [u8]), Stop<BrokenKind>>
    ensures reads { Reads (entry_within (option_copied given.entry) room) (λ x. (x.0, x.1.now)) end bytes.now result }
{
    let (tag, rest) = tag_at(room, bytes, end)?;
    behind_at(alloc, given, tag, rest, end)
}

/// Adds an entry and the indices that it takes, and answers how many they are.
fn push_entry(found: &mut Items<Entry>, entry: Entry) -> Result<u16, AllocError>
    ensures pushed { OnOk result (found.new ≡ found.old ++ spread entry) }
    ensures taken { IfOk result (λ taken. taken ≡ places (tag_of entry)) }
{
    let taken = places(entry.tag());
    found.push(entry)?;
    if taken == 2 {
        found.push(Entry::Skip)?;
    }
    Ok(taken)
}

/// The entries from index 1 on, as a list from index 0 on.
fn entries_at<'a>(
    alloc: Global,
    given: Option<&Pool>,
    count: u16,
    bytes: &'a [u8],
    end: usize,
) -> Result<(Items<Entry>, &'a [u8]), Stop<BrokenKind>>
    ensures reads { Reads (entries (option_copied given.entry) count) (λ x. (x.0, x.1.now)) end bytes.now result }
    ensures filled { IfOk result (λ x. length x.0 ≡ count + 1) }
{
    // An entry takes three bytes at least, so a short file asks for little room.
    let most = usize::from(count).min(bytes.len() / 3);
    let mut found = Items::from_vec(Vec::with_capacity(alloc, most + 1)?);
    found.push(Entry::Skip)?;
    let mut rest = bytes;
    let mut room = count;
    while room > 0 {
        let (entry, after) = entry_at(alloc, given, room, rest, end)?;
        room -= push_entry(&mut found, entry)?;
        rest = after;
    }
    Ok((found, rest))
}

/// The count of a pool.
pub fn count_at(bytes: &[u8], end: usize) -> Result<(u16, &[u8]), Stop<BrokenKind>>
    ensures reads { Reads (tested u2 (λ count. nat_le 1 count) Index) (λ x. (x.0, x.1.now)) end bytes.now result }
{
    let (count, rest) = u16_at(bytes, end, BrokenKind::Short)?;
    if count < 1 {
        return Err(Stop::Fault(fault_at(bytes, end, BrokenKind::Index)));
    }
    Ok((count, rest))
}

/// The pool behind its count; where a pool is given, that is what its indices are looked up in.
pub fn pool_at<'a>(
    alloc: Global,
    given: Option<&Pool>,
    bytes: &'a [u8],
    end: usize,
) -> Result<(Items<Entry>, &'a [u8]), Stop<BrokenKind>>
    ensures reads { Reads (pool (option_copied given.entry)) (λ x. (x.0, x.1.now)) end bytes.now result }
{
    let (count, rest) = count_at(bytes, end)?;
    let (entries, rest) = entries_at(alloc, given, count - 1, rest, end)?;
    Ok((entries, rest))
}
