//! What follows the pool of a class file, by what its indices lead to (JVMS 4.1).

ghost use Rattle.std.specs.Prelude.{◌≡◌, map};
ghost use Rattle.std.specs.List.{AllZip};
ghost use Rattle.dj_layout.specs.Layout.{ReadsAs, Skips};
ghost use Rattle.dj_layout.specs.Parts.{times};
ghost use Rattle.dj_pool.specs.SharedParts.{counted};
ghost use Rattle.dj_class.specs.Views.{view_field, view_method};
ghost use Rattle.dj_class.specs.FileFormat.{named, field, method, lawful_listed, lawful_rest, sound};
ghost use Rattle.dj_class.specs.Described.{DescribesField, DescribesMethod};
ghost use Rattle.dj_class.specs.FileParts.{DescribesListed, DescribesRest, view_members};

use crate::attributes::named_at;
use crate::front::{magic_at, skip_front};
use crate::members::{field_at, method_at};
use crate::method::Method;
use crate::own::{OwnNames, classes_at, own_at};
use dj_layout::{Stop, u16_at};
use dj_names::{ClassName, Field, Items};
use dj_pool::{BrokenKind, Pool};
use std::alloc::Global;

/// The interfaces, fields and methods of a class.
#[derive(Drop)]
pub struct Members {
    pub interfaces: Items<ClassName>,
    pub fields: Items<Field>,
    pub methods: Items<Method>,
}

/// So many fields.
fn field_list<'a>(
    alloc: Global,
    pool: &Pool,
    count: u16,
    bytes: &'a [u8],
    end: usize,
) -> Result<(Items<Field>, &'a [u8]), Stop<BrokenKind>>
    ensures reads { ReadsAs (times count (field pool.now)) (AllZip (DescribesField pool.now)) (λ x. (map view_field x.0, x.1.now)) end bytes.now result }
{
    let mut found = Items::new(alloc);
    let mut rest = bytes;
    for _ in 0..count {
        let (field, after) = field_at(alloc, pool, rest, end)?;
        found.push(field)?;
        rest = after;
    }
    Ok((found, rest))
}

/// Fields behind their number.
fn fields_at<'a>(
    alloc: Global,
    pool: &Pool,
    bytes: &'a [u8],
    end: usize,
) -> Result<(Items<Field>, &'a [u8]), Stop<BrokenKind>>
    ensures reads { ReadsAs (counted (field pool.now)) (AllZip (DescribesField pool.now)) (λ x. (map view_field x.0, x.1.now)) end bytes.now result }
{
    let (count, rest) = u16_at(bytes, end, BrokenKind::Short)?;
    let (fields, rest) = field_list(alloc, pool, count, rest, end)?;
    Ok((fields, rest))
}

/// So many methods.
fn method_list<'a>(
    alloc: Global,
    pool: &Pool,
    count: u16,
    bytes: &'a [u8],
    end: usize,
) -> Result<(Items<Method>, &'a [u8]), Stop<BrokenKind>>
    ensures reads { ReadsAs (times count (method pool.now)) (AllZip (DescribesMethod pool.now)) (λ x. (map view_method x.0, x.1.now)) end bytes.now result }
{
    let mut found = Items::new(alloc);
    let mut rest = bytes;
    for _ in 0..count {
        let (method, after) = method_at(alloc, pool, rest, end)?;
        found.push(method)?;
        rest = after;
    }
    Ok((found, rest))
}

/// Methods behind their number.
fn methods_at<'a>(
    alloc: Global,
    pool: &Pool,
    bytes: &'a [u8],
    end: usize,
) -> Result<(Items<Method>, &'a [u8]), Stop<BrokenKind>>
    ensures reads { ReadsAs (counted (method pool.now)) (AllZip (DescribesMethod pool.now)) (λ x. (map view_method x.0, x.1.now)) end bytes.now result }
{
    let (count, rest) = u16_at(bytes, end, BrokenKind::Short)?;
    let (methods, rest) = method_list(alloc, pool, count, rest, end)?;
    Ok((methods, rest))
}

/// So many attributes, each with a name.
fn skip_named_list<'a>(
    pool: &Pool,
    count: u16,
    bytes: &'a [u8],
    end: usize,
) -> Result<&'a [u8], Stop<BrokenKind>>
    ensures reads { Skips (times count (named pool.now)) (λ x. x.now) end bytes.now result }
{
    let mut rest = bytes;
    for _ in 0..count {
        let ((_name, _content), after) = named_at(pool, rest, end)?;
        rest = after;
    }
    Ok(rest)
}

/// Attributes behind their number, each with a name.
fn skip_named<'a>(pool: &Pool, bytes: &'a [u8], end: usize) -> Result<&'a [u8], Stop<BrokenKind>>
    ensures reads { Skips (counted (named pool.now)) (λ x. x.now) end bytes.now result }
{
    let (count, rest) = u16_at(bytes, end, BrokenKind::Short)?;
    let rest = skip_named_list(pool, count, rest, end)?;
    Ok(rest)
}

/// Interfaces, fields, methods and attributes.
fn listed_at<'a>(
    alloc: Global,
    pool: &Pool,
    bytes: &'a [u8],
    end: usize,
) -> Result<(Members, &'a [u8]), Stop<BrokenKind>>
    ensures reads { ReadsAs (lawful_listed pool.now) (DescribesListed pool.now) (λ x. (view_members x.0, x.1.now)) end bytes.now result }
{
    let (interfaces, rest) = classes_at(alloc, pool, bytes, end)?;
    let (fields, rest) = fields_at(alloc, pool, rest, end)?;
    let (methods, rest) = methods_at(alloc, pool, rest, end)?;
    let rest = skip_named(pool, rest, end)?;
    Ok((
        Members {
            interfaces,
            fields,
            methods,
        },
        rest,
    ))
}

/// What follows the pool.
fn rest_at<'a>(
    alloc: Global,
    pool: &Pool,
    bytes: &'a [u8],
    end: usize,
) -> Result<((OwnNames, Members), &'a [u8]), Stop<BrokenKind>>
    ensures reads { ReadsAs (lawful_rest pool.now) (DescribesRest pool.now) (λ x. ((x.0.0, view_members x.0.1), x.1.now)) end bytes.now result }
{
    let (own, rest) = own_at(alloc, pool, bytes, end)?;
    let (members, rest) = listed_at(alloc, pool, rest, end)?;
    Ok(((own, members), rest))
}

/// A class file with this pool, of which what follows the pool is kept.
pub fn sound_at<'a>(
    alloc: Global,
    oldest: u16,
    pool: &Pool,
    bytes: &'a [u8],
    end: usize,
) -> Result<((OwnNames, Members), &'a [u8]), Stop<BrokenKind>>
    ensures reads { ReadsAs (sound oldest pool.now) (λ raw found. DescribesRest pool.now raw.rest found) (λ x. ((x.0.0, view_members x.0.1), x.1.now)) end bytes.now result }
{
    let (_magic, rest) = magic_at(bytes, end)?;
    let rest = skip_front(alloc, oldest, pool, rest, end)?;
    let (found, rest) = rest_at(alloc, pool, rest, end)?;
    Ok((found, rest))
}
