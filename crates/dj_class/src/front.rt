//! What stands before the members of a class file: the magic number, the versions and the pool (JVMS 4.1).

ghost use Rattle.std.specs.Prelude.{◌≡◌, ◌≤◌, Result, Ok, Err, None, Some};
ghost use Rattle.dj_layout.specs.Layout.{Reads, ReadsAs, Skips};
ghost use Rattle.dj_pool.specs.declared.fault.BrokenKind.TheVariants.{Trailing};
ghost use Rattle.dj_class.specs.FileFormat.{magic};
ghost use Rattle.dj_class.specs.FileFormat.{major, front, file};
ghost use Rattle.dj_class.specs.FileParts.{ReadsFront};

use crate::skipped::skip_rest;
use dj_layout::{Stop, fault_at, u16_at, u32_at};
use dj_names::Items;
use dj_pool::{BrokenKind, Entry, Pool, pool_at, skip_pool};
use std::alloc::Global;

const MAGIC: u32 = 0xcafe_babe;

/// The minor and the major version of a class file, and its pool.
#[derive(Drop)]
pub struct Front {
    pub minor: u16,
    pub major: u16,
    pub pool: Items<Entry>,
}

/// The magic number.
pub fn magic_at(bytes: &[u8], end: usize) -> Result<(u32, &[u8]), Stop<BrokenKind>>
    ensures reads { Reads magic (λ x. (x.0, x.1.now)) end bytes.now result }
{
    match u32_at(bytes, end, BrokenKind::Short)? {
        (MAGIC, rest) => Ok((MAGIC, rest)),
        _ => Err(Stop::Fault(fault_at(bytes, end, BrokenKind::Magic))),
    }
}

/// The major version.
fn major_at(oldest: u16, bytes: &[u8], end: usize) -> Result<(u16, &[u8]), Stop<BrokenKind>>
    ensures reads { Reads (major oldest) (λ x. (x.0, x.1.now)) end bytes.now result }
{
    let (major, rest) = u16_at(bytes, end, BrokenKind::Short)?;
    if major < oldest || major > 52 {
        return Err(Stop::Fault(fault_at(bytes, end, BrokenKind::Version)));
    }
    Ok((major, rest))
}

/// The versions and the pool.
fn front_at(
    alloc: Global,
    oldest: u16,
    bytes: &[u8],
    end: usize,
) -> Result<(Front, &[u8]), Stop<BrokenKind>>
    ensures reads { Reads (front oldest None) (λ x. (x.0, x.1.now)) end bytes.now result }
{
    let (minor, rest) = u16_at(bytes, end, BrokenKind::Short)?;
    let (major, rest) = major_at(oldest, rest, end)?;
    let (pool, rest) = pool_at(alloc, None, rest, end)?;
    Ok((Front { minor, major, pool }, rest))
}

/// The versions and the pool, whose indices are looked up in this pool.
pub fn skip_front<'a>(
    alloc: Global,
    oldest: u16,
    pool: &Pool,
    bytes: &'a [u8],
    end: usize,
) -> Result<&'a [u8], Stop<BrokenKind>>
    ensures reads { Skips (front oldest (Some pool.now)) (λ x. x.now) end bytes.now result }
{
    let (_minor, rest) = u16_at(bytes, end, BrokenKind::Short)?;
    let (_major, rest) = major_at(oldest, rest, end)?;
    let rest = skip_pool(alloc, pool, rest, end)?;
    Ok(rest)
}

/// The layout of a class file, of which the front is kept.
fn file_at(
    alloc: Global,
    oldest: u16,
    bytes: &[u8],
    end: usize,
) -> Result<(Front, &[u8]), Stop<BrokenKind>>
    ensures reads { ReadsAs (file oldest) (λ raw front. raw.front ≡ front) (λ x. (x.0, x.1.now)) end bytes.now result }
{
    let (_magic, rest) = magic_at(bytes, end)?;
    let (front, rest) = front_at(alloc, oldest, rest, end)?;
    let rest = skip_rest(rest, end)?;
    Ok((front, rest))
}

/// The front of the class file that the bytes are laid out as, all of the bytes.
pub fn read_front(alloc: Global, oldest: u16, bytes: &[u8]) -> Result<Front, Stop<BrokenKind>>
    ensures reads { ReadsFront bytes.now oldest result }
{
    let end = bytes.len();
    let (front, rest) = file_at(alloc, oldest, bytes, end)?;
    if !rest.is_empty() {
        return Err(Stop::Fault(fault_at(rest, end, BrokenKind::Trailing)));
    }
    Ok(front)
}
