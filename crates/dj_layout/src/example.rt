//! The worked example of a reader: a file of a header and of entries, each a text or a number behind a tag.

ghost use Rattle.std.specs.Prelude.{Ok, Err};
ghost use Rattle.dj_layout.specs.Layout.{Reads};
ghost use Rattle.dj_layout.specs.Whole.{ReadsWhole, IsWhole, FirstFault, Gives};
ghost use Rattle.dj_layout.specs.Example as spec;
ghost use Rattle.dj_layout.specs.Example.{magic, major, header, text, entry, entries, counted, file, view, views, contents};
ghost use Rattle.dj_layout.specs.declared.fault.Fault.{Fault};
ghost use Rattle.dj_layout.specs.declared.example.Kind.{Kind};
ghost use Rattle.dj_layout.specs.declared.example.Kind.TheVariants.{Trailing};

use crate::fault::Stop;
use crate::parts::{fault_at, run_at, u8_at, u16_at, u32_at};
use std::alloc::Global;

/// What may be wrong.
#[derive(Clone, Copy, Debug, PartialEq, Eq)]
pub enum Kind {
    Short,
    Magic,
    Version,
    Tag,
    Trailing,
}

/// What stands before the entries.
#[derive(Clone, Copy, Debug, PartialEq, Eq)]
pub struct Header {
    pub minor: u16,
    pub major: u16,
    pub flags: u16,
    pub name: u32,
}

/// One entry.
#[derive(Debug, Drop)]
pub enum Entry {
    Text(Vec<u8>),
    Number(u16),
}

/// All of a file.
#[derive(Debug, Drop)]
pub struct Contents {
    pub header: Header,
    pub entries: Vec<Entry>,
}

const MAGIC: u32 = 0x4a4c_5931;

fn magic_at(bytes: &[u8], end: usize) -> Result<(u32, &[u8]), Stop<Kind>>
    ensures reads { Reads magic (λ x. (x.0, x.1.now)) end bytes.now result }
{
    let (magic, rest) = u32_at(bytes, end, Kind::Short)?;
    if magic != MAGIC {
        return Err(Stop::Fault(fault_at(bytes, end, Kind::Magic)));
    }
    Ok((magic, rest))
}

fn major_at(bytes: &[u8], end: usize) -> Result<(u16, &[u8]), Stop<Kind>>
    ensures reads { Reads major (λ x. (x.0, x.1.now)) end bytes.now result }
{
    let (major, rest) = u16_at(bytes, end, Kind::Short)?;
    if major > 52 {
        return Err(Stop::Fault(fault_at(bytes, end, Kind::Version)));
    }
    Ok((major, rest))
}

fn header_at(bytes: &[u8], end: usize) -> Result<(Header, &[u8]), Stop<Kind>>
    ensures reads { Reads header (λ x. (x.0, x.1.now)) end bytes.now result }
{
    let (minor, rest) = u16_at(bytes, end, Kind::Short)?;
    let (major, rest) = major_at(rest, end)?;
    let (flags, rest) = u16_at(rest, end, Kind::Short)?;
    let (name, rest) = u32_at(rest, end, Kind::Short)?;
    Ok((
        Header {
            minor,
            major,
            flags,
            name,
        },
        rest,
    ))
}

fn text_at(alloc: Global, bytes: &[u8], end: usize) -> Result<(Vec<u8>, &[u8]), Stop<Kind>>
    ensures reads { Reads text (λ x. (x.0.items, x.1.now)) end bytes.now result }
{
    let (len, rest) = u16_at(bytes, end, Kind::Short)?;
    let (text, rest) = run_at(rest, end, len as usize, Kind::Short)?;
    Ok((Vec::from_slice(alloc, text)?, rest))
}

fn entry_at(alloc: Global, bytes: &[u8], end: usize) -> Result<(Entry, &[u8]), Stop<Kind>>
    ensures reads { Reads entry (λ x. (view x.0, x.1.now)) end bytes.now result }
{
    let (tag, rest) = u8_at(bytes, end, Kind::Short)?;
    match tag {
        1 => {
            let (text, rest) = text_at(alloc, rest, end)?;
            Ok((Entry::Text(text), rest))
        }
        7 => {
            let (number, rest) = u16_at(rest, end, Kind::Short)?;
            Ok((Entry::Number(number), rest))
        }
        _ => Err(Stop::Fault(fault_at(bytes, end, Kind::Tag))),
    }
}

fn entries_at(
    alloc: Global,
    count: u16,
    bytes: &[u8],
    end: usize,
) -> Result<(Vec<Entry>, &[u8]), Stop<Kind>>
    ensures reads { Reads (entries count) (λ x. (views x.0.items, x.1.now)) end bytes.now result }
{
    let mut found = Vec::new(alloc);
    let mut rest = bytes;
    for _ in 0..count {
        let (entry, after) = entry_at(alloc, rest, end)?;
        found.push(entry)?;
        rest = after;
    }
    Ok((found, rest))
}

fn counted_at(alloc: Global, bytes: &[u8], end: usize) -> Result<(Vec<Entry>, &[u8]), Stop<Kind>>
    ensures reads { Reads counted (λ x. (views x.0.items, x.1.now)) end bytes.now result }
{
    let (count, rest) = u16_at(bytes, end, Kind::Short)?;
    entries_at(alloc, count, rest, end)
}

fn contents_at(alloc: Global, bytes: &[u8], end: usize) -> Result<(Contents, &[u8]), Stop<Kind>>
    ensures reads { Reads file (λ x. (contents x.0, x.1.now)) end bytes.now result }
{
    let (_, rest) = magic_at(bytes, end)?;
    let (header, rest) = header_at(rest, end)?;
    let (entries, rest) = counted_at(alloc, rest, end)?;
    Ok((Contents { header, entries }, rest))
}

fn whole(alloc: Global, bytes: &[u8]) -> Result<Contents, Stop<Kind>>
    ensures reads { ReadsWhole file Trailing contents bytes.now result }
{
    let end = bytes.len();
    let (found, rest) = contents_at(alloc, bytes, end)?;
    if !rest.is_empty() {
        return Err(Stop::Fault(fault_at(rest, end, Kind::Trailing)));
    }
    Ok(found)
}

/// What the bytes spell, all of the bytes.
pub fn read(alloc: Global, bytes: &[u8]) -> Result<Contents, Stop<Kind>>
    // What is read is spelled so, and a fault is a fault of the bytes.
    ensures reads { ReadsWhole file Trailing contents bytes.now result }
    // What is spelled so is read, unless memory runs out.
    ensures value { (x : spec.Contents) → IsWhole file bytes.now x → Gives contents result (Ok x) }
    // A fault that the bytes have is answered, unless memory runs out.
    ensures fault { (fault : Fault Kind) → FirstFault file Trailing bytes.now fault → Gives contents result (Err fault) }
{
    whole(alloc, bytes)
}
