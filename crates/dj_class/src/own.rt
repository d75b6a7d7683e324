//! Flags, class, superclass and interfaces of a class file, by the names that indices lead to (JVMS 4.1).

ghost use Rattle.std.specs.Prelude.{◌≡◌, ◌↔◌, ◌⊎◌, IsTrue, IfOk, IfSome, IfNone};
ghost use Rattle.std.specs.List.{AllZip};
ghost use Rattle.dj_layout.specs.Layout.{Reads, ReadsAs};
ghost use Rattle.dj_layout.specs.Parts.{times};
ghost use Rattle.dj_layout.specs.Passes.{asked};
ghost use Rattle.dj_names.specs.Assignable.{object_name};
ghost use Rattle.dj_names.specs.ClassNames.{IsClassName};
ghost use Rattle.dj_pool.specs.declared.fault.BrokenKind.TheVariants.{Flags, Index};
ghost use Rattle.dj_pool.specs.SharedParts.{u2};
ghost use Rattle.dj_pool.specs.PoolFormat.{IsClassIndex};
ghost use Rattle.dj_class.specs.FileFormat.{HasClassFlags, LeadsTo, IsSuperIndex, class_indices, lawful_own};
ghost use Rattle.dj_class.specs.FileParts.{DescribesOwn};

use crate::flags::{are_class_flags, is_interface};
use dj_layout::{Stop, fault_at, u16_at};
use dj_names::{ClassName, Items, Units, is_word};
use dj_pool::{BrokenKind, Pool, class_name_of, class_text_at, is_class_index};
use std::alloc::Global;

/// The flags of a class, and the names of the class and its superclass.
#[derive(Drop)]
pub struct OwnNames {
    pub flags: u16,
    pub this_class: ClassName,
    pub super_class: Option<ClassName>,
}

/// The name of the class, no array, that the entry at an index leads to.
fn class_name_at(pool: &Pool, index: u16) -> Option<&Units>
    ensures some { IfSome result (λ name. LeadsTo pool.now index name.now) }
    ensures class { IfSome result (λ name. IsClassName name.now) }
    ensures none { IfNone result (¬ IsClassIndex pool.now index) }
{
    let name = pool.entry_at(index)?.class_name()?;
    if !pool.is_class_name_at(name) {
        return None;
    }
    pool.text_at(name)
}

/// Whether an index leads to the class java/lang/Object.
fn leads_to_object(pool: &Pool, index: u16) -> bool
    ensures exact { IsTrue result ↔ LeadsTo pool.now index object_name }
{
    match class_text_at(pool, index) {
        Some(units) => is_word(units.as_slice(), "java/lang/Object"),
        None => false,
    }
}

/// Whether a class may have the superclass at an index, or none where it is 0.
fn is_super_or_none(pool: &Pool, this_class: u16, index: u16) -> bool
    ensures exact { IsTrue result ↔ (((index ≡ 0) × LeadsTo pool.now this_class object_name) ⊎ IsClassIndex pool.now index) }
{
    if index == 0 && leads_to_object(pool, this_class) {
        return true;
    }
    is_class_index(pool, index)
}

/// Whether a class of these flags may have the superclass at an index.
fn is_super_index(pool: &Pool, flags: u16, this_class: u16, index: u16) -> bool
    ensures exact { IsTrue result ↔ IsSuperIndex pool.now flags this_class index }
{
    is_super_or_none(pool, this_class, index)
        && (!is_interface(flags) || leads_to_object(pool, index))
}

/// The flags of a class.
fn flags_at(bytes: &[u8], end: usize) -> Result<(u16, &[u8]), Stop<BrokenKind>>
    ensures reads { Reads (asked u2 HasClassFlags Flags) (λ x. (x.0, x.1.now)) end bytes.now result }
{
    let (flags, rest) = u16_at(bytes, end, BrokenKind::Short)?;
    if !are_class_flags(flags) {
        return Err(Stop::Fault(fault_at(bytes, end, BrokenKind::Flags)));
    }
    Ok((flags, rest))
}

/// The index of a class, and its name.
fn class_at<'p, 'b>(
    pool: &'p Pool,
    bytes: &'b [u8],
    end: usize,
) -> Result<((u16, &'p Units), &'b [u8]), Stop<BrokenKind>>
    ensures reads { Reads (asked u2 (IsClassIndex pool.now) Index) (λ x. (x.0.0, x.1.now)) end bytes.now result }
    ensures leads { IfOk result (λ x. LeadsTo pool.now x.0.0 x.0.1.now) }
{
    let (index, rest) = u16_at(bytes, end, BrokenKind::Short)?;
    match class_name_at(pool, index) {
        Some(name) => Ok(((index, name), rest)),
        None => Err(Stop::Fault(fault_at(bytes, end, BrokenKind::Index))),
    }
}

/// The index of the superclass.
fn super_at<'a>(
    pool: &Pool,
    flags: u16,
    this_class: u16,
    bytes: &'a [u8],
    end: usize,
) -> Result<(u16, &'a [u8]), Stop<BrokenKind>>
    ensures reads { Reads (asked u2 (IsSuperIndex pool.now flags this_class) Index) (λ x. (x.0, x.1.now)) end bytes.now result }
{
    let (index, rest) = u16_at(bytes, end, BrokenKind::Short)?;
    if !is_super_index(pool, flags, this_class, index) {
        return Err(Stop::Fault(fault_at(bytes, end, BrokenKind::Index)));
    }
    Ok((index, rest))
}

/// Flags, class and superclass.
pub fn own_at<'a>(
    alloc: Global,
    pool: &Pool,
    bytes: &'a [u8],
    end: usize,
) -> Result<(OwnNames, &'a [u8]), Stop<BrokenKind>>
    ensures reads { ReadsAs (lawful_own pool.now) (DescribesOwn pool.now) (λ x. (x.0, x.1.now)) end bytes.now result }
{
    let (flags, rest) = flags_at(bytes, end)?;
    let ((this_class, name), rest) = class_at(pool, rest, end)?;
    let (super_class, rest) = super_at(pool, flags, this_class, rest, end)?;
    let this_class = ClassName::new(name.copy(alloc)?);
    let super_class = class_name_of(alloc, pool, super_class)?;
    Ok((
        OwnNames {
            flags,
            this_class,
            super_class,
        },
        rest,
    ))
}

/// So many classes.
fn class_list<'a>(
    alloc: Global,
    pool: &Pool,
    count: u16,
    bytes: &'a [u8],
    end: usize,
) -> Result<(Items<ClassName>, &'a [u8]), Stop<BrokenKind>>
    ensures reads { ReadsAs (times count (asked u2 (IsClassIndex pool.now) Index)) (AllZip (LeadsTo pool.now)) (λ x. (x.0, x.1.now)) end bytes.now result }
{
    let mut found = Items::new(alloc);
    let mut rest = bytes;
    for _ in 0..count {
        let ((_index, name), after) = class_at(pool, rest, end)?;
        found.push(ClassName::new(name.copy(alloc)?))?;
        rest = after;
    }
    Ok((found, rest))
}

/// Classes behind their number.
pub fn classes_at<'a>(
    alloc: Global,
    pool: &Pool,
    bytes: &'a [u8],
    end: usize,
) -> Result<(Items<ClassName>, &'a [u8]), Stop<BrokenKind>>
    ensures reads { ReadsAs (class_indices pool.now) (AllZip (LeadsTo pool.now)) (λ x. (x.0, x.1.now)) end bytes.now result }
{
    let (count, rest) = u16_at(bytes, end, BrokenKind::Short)?;
    let (names, rest) = class_list(alloc, pool, count, rest, end)?;
    Ok((names, rest))
}
