//! The content of a Code attribute as plain data, and its reader (JVMS 4.7.3).

ghost use Rattle.std.specs.Prelude.{IfOk, IfSome, IfNone};
ghost use Rattle.dj_layout.specs.Layout.{Reads};
ghost use Rattle.dj_layout.specs.Parts.{times};
ghost use Rattle.dj_layout.specs.Whole.{ReadsWhole, IsWhole};
ghost use Rattle.dj_pool.specs.declared.fault.BrokenKind.TheVariants.{Trailing};
ghost use Rattle.dj_pool.specs.SharedParts.{counted};
ghost use Rattle.dj_code.specs.CodeContent.{code_length, code, handler, content};
ghost use Rattle.dj_code.specs.CodeContent as spec;
ghost use Rattle.dj_code.specs.declared.content.CodeContent.{CodeContent};

use dj_class::{Attribute, BrokenKind, attributes_at};
use dj_layout::{Stop, fault_at, run_at, u16_at, u32_at};
use dj_names::Items;
use std::alloc::{AllocError, Global};

/// An entry of the exception table: pcs, and the index of a class or 0.
#[derive(Clone, Copy, PartialEq, Eq)]
pub struct RawHandler {
    pub start: u16,
    pub end: u16,
    pub target: u16,
    pub class: u16,
}

/// The content of a Code attribute.
#[derive(Drop)]
pub struct CodeContent {
    pub max_stack: u16,
    pub max_locals: u16,
    pub code: Items<u8>,
    pub handlers: Items<RawHandler>,
    pub attributes: Items<Attribute>,
}

/// The number of bytes of the instructions.
fn code_length_at(bytes: &[u8], end: usize) -> Result<(u32, &[u8]), Stop<BrokenKind>>
    ensures reads { Reads code_length (λ x. (x.0, x.1.now)) end bytes.now result }
{
    let (length, rest) = u32_at(bytes, end, BrokenKind::Short)?;
    match length {
        1..=65_535 => Ok((length, rest)),
        _ => Err(Stop::Fault(fault_at(bytes, end, BrokenKind::Index))),
    }
}

/// The bytes of the instructions.
fn code_at(alloc: Global, bytes: &[u8], end: usize) -> Result<(Items<u8>, &[u8]), Stop<BrokenKind>>
    ensures reads { Reads code (λ x. (x.0, x.1.now)) end bytes.now result }
{
    let (length, rest) = code_length_at(bytes, end)?;
    let (code, rest) = run_at(rest, end, length as usize, BrokenKind::Short)?;
    Ok((Items::from_slice(alloc, code)?, rest))
}

/// An entry of the exception table.
fn handler_at(bytes: &[u8], end: usize) -> Result<(RawHandler, &[u8]), Stop<BrokenKind>>
    ensures reads { Reads handler (λ x. (x.0, x.1.now)) end bytes.now result }
{
    let (start, rest) = u16_at(bytes, end, BrokenKind::Short)?;
    let (stop, rest) = u16_at(rest, end, BrokenKind::Short)?;
    let (target, rest) = u16_at(rest, end, BrokenKind::Short)?;
    let (class, rest) = u16_at(rest, end, BrokenKind::Short)?;
    let handler = RawHandler {
        start,
        end: stop,
        target,
        class,
    };
    Ok((handler, rest))
}

/// So many entries of the exception table.
fn handler_list(
    alloc: Global,
    count: u16,
    bytes: &[u8],
    end: usize,
) -> Result<(Items<RawHandler>, &[u8]), Stop<BrokenKind>>
    ensures reads { Reads (times count handler) (λ x. (x.0, x.1.now)) end bytes.now result }
{
    let mut found = Items::new(alloc);
    let mut rest = bytes;
    for _ in 0..count {
        let (handler, after) = handler_at(rest, end)?;
        found.push(handler)?;
        rest = after;
    }
    Ok((found, rest))
}

/// The exception table behind its number of entries.
fn handlers_at(
    alloc: Global,
    bytes: &[u8],
    end: usize,
) -> Result<(Items<RawHandler>, &[u8]), Stop<BrokenKind>>
    ensures reads { Reads (counted handler) (λ x. (x.0, x.1.now)) end bytes.now result }
{
    let (count, rest) = u16_at(bytes, end, BrokenKind::Short)?;
    handler_list(alloc, count, rest, end)
}

/// The content of a Code attribute, and what follows it.
fn content_at(
    alloc: Global,
    bytes: &[u8],
    end: usize,
) -> Result<(CodeContent, &[u8]), Stop<BrokenKind>>
    ensures reads { Reads content (λ x. (x.0, x.1.now)) end bytes.now result }
{
    let (max_stack, rest) = u16_at(bytes, end, BrokenKind::Short)?;
    let (max_locals, rest) = u16_at(rest, end, BrokenKind::Short)?;
    let (code, rest) = code_at(alloc, rest, end)?;
    let (handlers, rest) = handlers_at(alloc, rest, end)?;
    let (attributes, rest) = attributes_at(alloc, rest, end)?;
    let content = CodeContent {
        max_stack,
        max_locals,
        code,
        handlers,
        attributes,
    };
    Ok((content, rest))
}

/// All of the bytes as the content of a Code attribute.
fn whole(alloc: Global, bytes: &[u8]) -> Result<CodeContent, Stop<BrokenKind>>
    ensures reads { ReadsWhole content Trailing (λ x. x) bytes.now result }
{
    let end = bytes.len();
    let (content, rest) = content_at(alloc, bytes, end)?;
    if !rest.is_empty() {
        return Err(Stop::Fault(fault_at(rest, end, BrokenKind::Trailing)));
    }
    Ok(content)
}

/// The content of a Code attribute that the bytes are, if they are one.
pub fn read_content(alloc: Global, bytes: &[u8]) -> Result<Option<CodeContent>, AllocError>
    ensures read { IfOk result (λ found. IfSome found (λ content. IsWhole spec.content bytes.now content)) }
    ensures absent { IfOk result (λ found. IfNone found ((content : CodeContent) → ¬ IsWhole spec.content bytes.now content)) }
{
    match whole(alloc, bytes) {
        Ok(content) => Ok(Some(content)),
        Err(Stop::Fault(_)) => Ok(None),
        Err(Stop::Memory) => Err(AllocError),
    }
}
