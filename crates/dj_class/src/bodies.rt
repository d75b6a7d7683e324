//! The attributes of a method, of which Code and Exceptions have to be right (JVMS 4.7.3, 4.7.5).

ghost use Rattle.std.specs.Prelude.{◌≡◌, ◌↔◌, List, [], ◌∷◌, ◌++◌, ◌==◌, IsTrue, IfOk, IfSome, IfNone, codes, length};
ghost use Rattle.std.specs.Option.{option_copied};
ghost use Rattle.dj_layout.specs.Layout.{ReadsAs, Skips};
ghost use Rattle.dj_layout.specs.Parts.{times};
ghost use Rattle.dj_layout.specs.Passes.{asked, sequence};
ghost use Rattle.dj_pool.specs.declared.raw.Attribute as spec;
ghost use Rattle.dj_pool.specs.declared.fault.BrokenKind.TheVariants.{Attribute};
ghost use Rattle.dj_pool.specs.SharedParts.{counted, attribute};
ghost use Rattle.dj_pool.specs.PoolFormat.{text_at};
ghost use Rattle.dj_class.specs.FileFormat.{lawful_in_method, counted_in_turn, method_attributes, HasBodyAs, IsExceptions};
ghost use Rattle.dj_class.specs.Described.{IsThrown};
ghost use Rattle.dj_class.specs.FileParts.{HasFound, HasNoCode};

use crate::attributes::named_at;
use crate::flags::are_bodiless;
use crate::own::classes_at;
use dj_layout::{Stop, fault_at, u16_at};
use dj_names::{ClassName, Items};
use dj_pool::{BrokenKind, Pool, attribute_at, is_name};
use std::alloc::{AllocError, Global};

/// The content of a Code, and the classes of an Exceptions.
#[derive(Drop)]
pub struct Found<'a> {
    pub code: Option<&'a [u8]>,
    pub thrown: Option<Items<ClassName>>,
}

/// The classes that the content of an Exceptions names, if it is right.
fn exceptions_of(
    alloc: Global,
    pool: &Pool,
    content: &[u8],
) -> Result<Option<Items<ClassName>>, AllocError>
    ensures some { IfOk result (λ found. IfSome found (λ thrown. IsThrown pool.now (content.now ∷ []) thrown)) }
    ensures right { IfOk result (λ found. IfSome found (λ thrown. IsExceptions pool.now content.now)) }
    ensures none { IfOk result (λ found. IfNone found (¬ IsExceptions pool.now content.now)) }
{
    match classes_at(alloc, pool, content, content.len()) {
        Ok((thrown, rest)) => {
            if rest.is_empty() {
                Ok(Some(thrown))
            } else {
                Ok(None)
            }
        }
        Err(Stop::Fault(_)) => Ok(None),
        Err(Stop::Memory) => Err(AllocError),
    }
}

/// An attribute of a method, behind others of which this was found.
fn method_attribute_at<'a>(
    alloc: Global,
    pool: &Pool,
    found: Found<'a>,
    bytes: &'a [u8],
    end: usize,
) -> Result<(Found<'a>, &'a [u8]), Stop<BrokenKind>>
    ensures reads { (before : List spec.Attribute) → HasFound pool.now before (option_copied found.entry.code, found.entry.thrown) → ReadsAs (lawful_in_method pool.now before) (λ this now. HasFound pool.now (before ++ this ∷ []) now) (λ x. ((option_copied x.0.code, x.0.thrown), x.1.now)) end bytes.now result }
{
    let ((name, content), rest) = named_at(pool, bytes, end)?;
    if is_name(pool, name, "Code") {
        if found.code.is_some() {
            return Err(Stop::Fault(fault_at(bytes, end, BrokenKind::Attribute)));
        }
        return Ok((
            Found {
                code: Some(content),
                thrown: found.thrown,
            },
            rest,
        ));
    }
    if !is_name(pool, name, "Exceptions") {
        return Ok((found, rest));
    }
    if found.thrown.is_some() {
        return Err(Stop::Fault(fault_at(bytes, end, BrokenKind::Attribute)));
    }
    match exceptions_of(alloc, pool, content)? {
        Some(thrown) => Ok((
            Found {
                code: found.code,
                thrown: Some(thrown),
            },
            rest,
        )),
        None => Err(Stop::Fault(fault_at(bytes, end, BrokenKind::Attribute))),
    }
}

/// So many attributes of a method, of which the code and the classes thrown are kept.
fn method_attribute_list<'a>(
    alloc: Global,
    pool: &Pool,
    count: u16,
    bytes: &'a [u8],
    end: usize,
) -> Result<(Found<'a>, &'a [u8]), Stop<BrokenKind>>
    ensures reads { ReadsAs (sequence attribute.spell (λ xs. length xs == count) (lawful_in_method pool.now)) (HasFound pool.now) (λ x. ((option_copied x.0.code, x.0.thrown), x.1.now)) end bytes.now result }
{
    let mut found = Found {
        code: None,
        thrown: None,
    };
    let mut rest = bytes;
    for _ in 0..count {
        let (now, after) = method_attribute_at(alloc, pool, found, rest, end)?;
        found = now;
        rest = after;
    }
    Ok((found, rest))
}

/// The attributes of a method behind their number, of which the code and the classes thrown are
/// kept.
fn lawful_attributes_at<'a>(
    alloc: Global,
    pool: &Pool,
    bytes: &'a [u8],
    end: usize,
) -> Result<(Found<'a>, &'a [u8]), Stop<BrokenKind>>
    ensures reads { ReadsAs (counted_in_turn (lawful_in_method pool.now)) (HasFound pool.now) (λ x. ((option_copied x.0.code, x.0.thrown), x.1.now)) end bytes.now result }
{
    let (count, rest) = u16_at(bytes, end, BrokenKind::Short)?;
    let (found, rest) = method_attribute_list(alloc, pool, count, rest, end)?;
    Ok((found, rest))
}

/// Whether there is no Code yet, behind an attribute of this name.
fn is_still_none(pool: &Pool, none: bool, name: u16) -> bool
    ensures exact { IsTrue result ↔ (IsTrue none × (¬ (text_at pool.now name ≡ Some (codes "Code")))) }
{
    none && !is_name(pool, name, "Code")
}

/// So many attributes, and whether none of them is a Code.
fn code_list<'a>(
    pool: &Pool,
    count: u16,
    bytes: &'a [u8],
    end: usize,
) -> Result<(bool, &'a [u8]), Stop<BrokenKind>>
    ensures reads { ReadsAs (times count attribute) (HasNoCode pool.now) (λ x. (x.0, x.1.now)) end bytes.now result }
{
    let mut none = true;
    let mut rest = bytes;
    for _ in 0..count {
        let ((name, _content), after) = attribute_at(rest, end)?;
        none = is_still_none(pool, none, name);
        rest = after;
    }
    Ok((none, rest))
}

/// Attributes behind their number, and whether none of them is a Code.
fn codes_at<'a>(
    pool: &Pool,
    bytes: &'a [u8],
    end: usize,
) -> Result<(bool, &'a [u8]), Stop<BrokenKind>>
    ensures reads { ReadsAs (counted attribute) (HasNoCode pool.now) (λ x. (x.0, x.1.now)) end bytes.now result }
{
    let (count, rest) = u16_at(bytes, end, BrokenKind::Short)?;
    let (none, rest) = code_list(pool, count, rest, end)?;
    Ok((none, rest))
}

/// The attributes of a method with these flags, of which it is asked that there is a Code or that
/// there needn't be one.
fn body_at<'a>(
    pool: &Pool,
    flags: u16,
    bytes: &'a [u8],
    end: usize,
) -> Result<&'a [u8], Stop<BrokenKind>>
    ensures reads { Skips (asked (counted attribute) (HasBodyAs pool.now flags) Attribute) (λ x. x.now) end bytes.now result }
{
    let (none, rest) = codes_at(pool, bytes, end)?;
    if none != are_bodiless(flags) {
        return Err(Stop::Fault(fault_at(bytes, end, BrokenKind::Attribute)));
    }
    Ok(rest)
}

/// The attributes of a method with these flags: whether there is a Code is looked at first.
pub fn method_attributes_at<'a>(
    alloc: Global,
    pool: &Pool,
    flags: u16,
    bytes: &'a [u8],
    end: usize,
) -> Result<(Found<'a>, &'a [u8]), Stop<BrokenKind>>
    ensures reads { ReadsAs (method_attributes pool.now flags) (HasFound pool.now) (λ x. ((option_copied x.0.code, x.0.thrown), x.1.now)) end bytes.now result }
{
    let _behind = body_at(pool, flags, bytes, end)?;
    let (found, rest) = lawful_attributes_at(alloc, pool, bytes, end)?;
    Ok((found, rest))
}
