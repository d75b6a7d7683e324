//! What follows the pool of a class file, front to back: the first pass looks at how long each part is and keeps nothing (JVMS 4.5 to 4.7).

ghost use Rattle.dj_layout.specs.Layout.{Skips};
ghost use Rattle.dj_layout.specs.Parts.{times};
ghost use Rattle.dj_pool.specs.SharedParts.{u2, counted, attribute};
ghost use Rattle.dj_class.specs.Members.{member};
ghost use Rattle.dj_class.specs.FileFormat.{plain_own, plain_listed, plain_rest};

use dj_layout::{Stop, run_at, u16_at, u32_at};
use dj_pool::BrokenKind;

/// An attribute.
fn skip_attribute(bytes: &[u8], end: usize) -> Result<&[u8], Stop<BrokenKind>>
    ensures reads { Skips attribute (λ x. x.now) end bytes.now result }
{
    let (_name, rest) = u16_at(bytes, end, BrokenKind::Short)?;
    let (len, rest) = u32_at(rest, end, BrokenKind::Short)?;
    let (_content, rest) = run_at(rest, end, len as usize, BrokenKind::Short)?;
    Ok(rest)
}

/// So many attributes.
fn skip_attribute_list(count: u16, bytes: &[u8], end: usize) -> Result<&[u8], Stop<BrokenKind>>
    ensures reads { Skips (times count attribute) (λ x. x.now) end bytes.now result }
{
    let mut rest = bytes;
    for _ in 0..count {
        rest = skip_attribute(rest, end)?;
    }
    Ok(rest)
}

/// Attributes behind their number.
fn skip_attributes(bytes: &[u8], end: usize) -> Result<&[u8], Stop<BrokenKind>>
    ensures reads { Skips (counted attribute) (λ x. x.now) end bytes.now result }
{
    let (count, rest) = u16_at(bytes, end, BrokenKind::Short)?;
    skip_attribute_list(count, rest, end)
}

/// A field or a method.
fn skip_member(bytes: &[u8], end: usize) -> Result<&[u8], Stop<BrokenKind>>
    ensures reads { Skips member (λ x. x.now) end bytes.now result }
{
    let (_flags, rest) = u16_at(bytes, end, BrokenKind::Short)?;
    let (_name, rest) = u16_at(rest, end, BrokenKind::Short)?;
    let (_descriptor, rest) = u16_at(rest, end, BrokenKind::Short)?;
    let rest = skip_attributes(rest, end)?;
    Ok(rest)
}

/// So many fields or methods.
fn skip_member_list(count: u16, bytes: &[u8], end: usize) -> Result<&[u8], Stop<BrokenKind>>
    ensures reads { Skips (times count member) (λ x. x.now) end bytes.now result }
{
    let mut rest = bytes;
    for _ in 0..count {
        rest = skip_member(rest, end)?;
    }
    Ok(rest)
}

/// Fields or methods behind their number.
fn skip_members(bytes: &[u8], end: usize) -> Result<&[u8], Stop<BrokenKind>>
    ensures reads { Skips (counted member) (λ x. x.now) end bytes.now result }
{
    let (count, rest) = u16_at(bytes, end, BrokenKind::Short)?;
    skip_member_list(count, rest, end)
}

/// So many indices.
fn skip_index_list(count: u16, bytes: &[u8], end: usize) -> Result<&[u8], Stop<BrokenKind>>
    ensures reads { Skips (times count u2) (λ x. x.now) end bytes.now result }
{
    let mut rest = bytes;
    for _ in 0..count {
        let (_index, after) = u16_at(rest, end, BrokenKind::Short)?;
        rest = after;
    }
    Ok(rest)
}

/// Indices behind their number.
fn skip_indices(bytes: &[u8], end: usize) -> Result<&[u8], Stop<BrokenKind>>
    ensures reads { Skips (counted u2) (λ x. x.now) end bytes.now result }
{
    let (count, rest) = u16_at(bytes, end, BrokenKind::Short)?;
    skip_index_list(count, rest, end)
}

/// Flags, the class and its superclass.
fn skip_own(bytes: &[u8], end: usize) -> Result<&[u8], Stop<BrokenKind>>
    ensures reads { Skips plain_own (λ x. x.now) end bytes.now result }
{
    let (_flags, rest) = u16_at(bytes, end, BrokenKind::Short)?;
    let (_this_class, rest) = u16_at(rest, end, BrokenKind::Short)?;
    let (_super_class, rest) = u16_at(rest, end, BrokenKind::Short)?;
    Ok(rest)
}

/// Interfaces, fields, methods and attributes.
fn skip_listed(bytes: &[u8], end: usize) -> Result<&[u8], Stop<BrokenKind>>
    ensures reads { Skips plain_listed (λ x. x.now) end bytes.now result }
{
    let rest = skip_indices(bytes, end)?;
    let rest = skip_members(rest, end)?;
    let rest = skip_members(rest, end)?;
    let rest = skip_attributes(rest, end)?;
    Ok(rest)
}

/// All that follows the pool.
pub fn skip_rest(bytes: &[u8], end: usize) -> Result<&[u8], Stop<BrokenKind>>
    ensures reads { Skips plain_rest (λ x. x.now) end bytes.now result }
{
    let rest = skip_own(bytes, end)?;
    let rest = skip_listed(rest, end)?;
    Ok(rest)
}
