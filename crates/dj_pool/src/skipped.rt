//! The pool of a class file once more, when it is known: what its indices lead to is looked up, and nothing is kept (JVMS 4.4).

ghost use Rattle.std.specs.Prelude.{◌≡◌, ◌≤◌, ◌+◌, Some, IsTrue, IfOk};
ghost use Rattle.dj_layout.specs.Layout.{ReadsAs, Skips};
ghost use Rattle.dj_pool.specs.PoolFormat.{behind, content_of, tag_of, places, is_tag, utf8, text, entry_within, entries, pool};

use crate::entries::{places, tag_at, utf8_at};
use crate::fault::BrokenKind;
use crate::modified_utf8::are_units;
use crate::pool::Pool;
use crate::pools::{behind_at, count_at};
use dj_layout::{Stop, run_at, u16_at};
use std::alloc::Global;

/// Units in `n` bytes.
fn skip_utf8(alloc: Global, n: u16, bytes: &[u8], end: usize) -> Result<&[u8], Stop<BrokenKind>>
    ensures reads { Skips (utf8 n) (λ x. x.now) end bytes.now result }
{
    let (text, rest) = run_at(bytes, end, n as usize, BrokenKind::Short)?;
    if are_units(text) {
        return Ok(rest);
    }
    // Which of the bytes are none is for the reader of units to say.
    let (_units, rest) = utf8_at(alloc, n, bytes, end)?;
    Ok(rest)
}

/// Units behind the number of their bytes.
fn skip_text(alloc: Global, bytes: &[u8], end: usize) -> Result<&[u8], Stop<BrokenKind>>
    ensures reads { Skips text (λ x. x.now) end bytes.now result }
{
    let (len, rest) = u16_at(bytes, end, BrokenKind::Short)?;
    skip_utf8(alloc, len, rest, end)
}

/// What follows a tag of an entry.
fn skip_behind<'a>(
    alloc: Global,
    given: &Pool,
    tag: u8,
    bytes: &'a [u8],
    end: usize,
) -> Result<&'a [u8], Stop<BrokenKind>>
    requires tag { IsTrue (is_tag tag) }
    ensures reads { ReadsAs (behind (Some given.now) tag (content_of tag)) (λ entry tag. tag_of entry ≡ tag) (λ x. (tag, x.now)) end bytes.now result }
{
    if tag == 1 {
        let rest = skip_text(alloc, bytes, end)?;
        return Ok(rest);
    }
    let (_entry, rest) = behind_at(alloc, Some(given), tag, bytes, end)?;
    Ok(rest)
}

/// How many indices an entry takes that has room in so many.
fn skip_entry<'a>(
    alloc: Global,
    given: &Pool,
    room: u16,
    bytes: &'a [u8],
    end: usize,
) -> Result<(u16, &'a [u8]), Stop<BrokenKind>>
    ensures reads { ReadsAs (entry_within (Some given.now) room) (λ entry taken. places (tag_of entry) ≡ taken) (λ x. (x.0, x.1.now)) end bytes.now result }
    ensures fitting { IfOk result (λ x. x.0 ≤ room) }
{
    let (tag, rest) = tag_at(room, bytes, end)?;
    let rest = skip_behind(alloc, given, tag, rest, end)?;
    Ok((places(tag), rest))
}

/// The entries from index 1 on.
fn skip_entries<'a>(
    alloc: Global,
    given: &Pool,
    count: u16,
    bytes: &'a [u8],
    end: usize,
) -> Result<&'a [u8], Stop<BrokenKind>>
    ensures reads { Skips (entries (Some given.now) count) (λ x. x.now) end bytes.now result }
{
    let mut rest = bytes;
    let mut room = count;
    while room > 0 {
        let (taken, after) = skip_entry(alloc, given, room, rest, end)?;
        room -= taken;
        rest = after;
    }
    Ok(rest)
}

/// The pool behind its count, whose indices are looked up in the pool that is given.
pub fn skip_pool<'a>(
    alloc: Global,
    given: &Pool,
    bytes: &'a [u8],
    end: usize,
) -> Result<&'a [u8], Stop<BrokenKind>>
    ensures reads { Skips (pool (Some given.now)) (λ x. x.now) end bytes.now result }
{
    let (count, rest) = count_at(bytes, end)?;
    let rest = skip_entries(alloc, given, count - 1, rest, end)?;
    Ok(rest)
}
