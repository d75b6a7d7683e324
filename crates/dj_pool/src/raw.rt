//! Attributes as they are laid out: the index of a name, and bytes (JVMS 4.7).

ghost use Rattle.dj_layout.specs.Layout.{Reads};
ghost use Rattle.dj_layout.specs.Parts.{times};
ghost use Rattle.dj_pool.specs.SharedParts.{counted, attribute};

use crate::fault::BrokenKind;
use dj_layout::{Stop, run_at, u16_at, u32_at};
use dj_names::Items;
use std::alloc::Global;

/// An attribute: the index of its name, and its content.
#[derive(Drop)]
pub struct Attribute {
    pub name: u16,
    pub content: Items<u8>,
}

/// The index of the name of an attribute, and its content.
pub fn attribute_at(bytes: &[u8], end: usize) -> Result<((u16, &[u8]), &[u8]), Stop<BrokenKind>>
    ensures reads { Reads attribute (λ x. (record { name = x.0.0; content = x.0.1.now }, x.1.now)) end bytes.now result }
{
    let (name, rest) = u16_at(bytes, end, BrokenKind::Short)?;
    let (len, rest) = u32_at(rest, end, BrokenKind::Short)?;
    let (content, rest) = run_at(rest, end, len as usize, BrokenKind::Short)?;
    Ok(((name, content), rest))
}

/// An attribute of which the content is kept.
fn kept_at(alloc: Global, bytes: &[u8], end: usize) -> Result<(Attribute, &[u8]), Stop<BrokenKind>>
    ensures reads { Reads attribute (λ x. (x.0, x.1.now)) end bytes.now result }
{
    let ((name, content), rest) = attribute_at(bytes, end)?;
    let content = Items::from_slice(alloc, content)?;
    Ok((Attribute { name, content }, rest))
}

/// So many attributes.
fn attribute_list(
    alloc: Global,
    count: u16,
    bytes: &[u8],
    end: usize,
) -> Result<(Items<Attribute>, &[u8]), Stop<BrokenKind>>
    ensures reads { Reads (times count attribute) (λ x. (x.0, x.1.now)) end bytes.now result }
{
    let mut found = Items::new(alloc);
    let mut rest = bytes;
    for _ in 0..count {
        let (attribute, after) = kept_at(alloc, rest, end)?;
        found.push(attribute)?;
        rest = after;
    }
    Ok((found, rest))
}

/// Attributes behind their number.
pub fn attributes_at(
    alloc: Global,
    bytes: &[u8],
    end: usize,
) -> Result<(Items<Attribute>, &[u8]), Stop<BrokenKind>>
    ensures reads { Reads (counted attribute) (λ x. (x.0, x.1.now)) end bytes.now result }
{
    let (count, rest) = u16_at(bytes, end, BrokenKind::Short)?;
    attribute_list(alloc, count, rest, end)
}
