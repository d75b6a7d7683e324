//! The attributes of a field, of which a ConstantValue has to be right (JVMS 4.7.2).

ghost use Rattle.std.specs.Prelude.{◌≡◌, List, [], ◌∷◌, ◌++◌, codes, length, ◌==◌};
ghost use Rattle.dj_layout.specs.Layout.{ReadsAs};
ghost use Rattle.dj_layout.specs.Passes.{sequence};
ghost use Rattle.dj_pool.specs.declared.raw.Attribute as spec;
ghost use Rattle.dj_pool.specs.declared.fault.BrokenKind.TheVariants.{Attribute};
ghost use Rattle.dj_pool.specs.SharedParts.{attribute};
ghost use Rattle.dj_pool.specs.Attributes.{contents};
ghost use Rattle.dj_class.specs.FileFormat.{lawful_in_field, counted_in_turn};
ghost use Rattle.dj_class.specs.Described.{IsConstant};
ghost use Rattle.dj_class.specs.FileParts.{HasConstantIndex};

use crate::attributes::{constant_at, constant_index, named_at};
use dj_layout::{Stop, fault_at, u16_at};
use dj_names::Constant;
use dj_pool::{BrokenKind, Pool, is_name};
use std::alloc::Global;

/// An attribute of a field, behind others of which one may have been a ConstantValue with this
/// index.
fn field_attribute_at<'a>(
    pool: &Pool,
    descriptor: u16,
    found: Option<u16>,
    bytes: &'a [u8],
    end: usize,
) -> Result<(Option<u16>, &'a [u8]), Stop<BrokenKind>>
    ensures reads { (before : List spec.Attribute) → HasConstantIndex pool.now before found → ReadsAs (lawful_in_field pool.now descriptor before) (λ this now. HasConstantIndex pool.now (before ++ this ∷ []) now) (λ x. (x.0, x.1.now)) end bytes.now result }
{
    let ((name, content), rest) = named_at(pool, bytes, end)?;
    if !is_name(pool, name, "ConstantValue") {
        return Ok((found, rest));
    }
    if found.is_some() {
        return Err(Stop::Fault(fault_at(bytes, end, BrokenKind::Attribute)));
    }
    match constant_index(pool, descriptor, content) {
        Some(index) => Ok((Some(index), rest)),
        None => Err(Stop::Fault(fault_at(bytes, end, BrokenKind::Attribute))),
    }
}

/// So many attributes of a field, of which the index of a ConstantValue is kept.
fn field_attribute_list<'a>(
    pool: &Pool,
    descriptor: u16,
    count: u16,
    bytes: &'a [u8],
    end: usize,
) -> Result<(Option<u16>, &'a [u8]), Stop<BrokenKind>>
    ensures reads { ReadsAs (sequence attribute.spell (λ xs. length xs == count) (lawful_in_field pool.now descriptor)) (HasConstantIndex pool.now) (λ x. (x.0, x.1.now)) end bytes.now result }
{
    let mut found = None;
    let mut rest = bytes;
    for _ in 0..count {
        let (now, after) = field_attribute_at(pool, descriptor, found, rest, end)?;
        found = now;
        rest = after;
    }
    Ok((found, rest))
}

/// The attributes of a field behind their number, of which the constant is kept.
pub fn field_attributes_at<'a>(
    alloc: Global,
    pool: &Pool,
    descriptor: u16,
    bytes: &'a [u8],
    end: usize,
) -> Result<(Option<Constant>, &'a [u8]), Stop<BrokenKind>>
    ensures reads { ReadsAs (counted_in_turn (lawful_in_field pool.now descriptor)) (λ attributes found. IsConstant pool.now (contents pool.now (codes "ConstantValue") attributes) found) (λ x. (x.0, x.1.now)) end bytes.now result }
{
    let (count, rest) = u16_at(bytes, end, BrokenKind::Short)?;
    let (found, rest) = field_attribute_list(pool, descriptor, count, rest, end)?;
    let constant = constant_at(alloc, pool, found)?;
    Ok((constant, rest))
}
