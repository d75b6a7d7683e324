//! A class file by its indices, written (JVMS 4.1).

ghost use Rattle.std.specs.Prelude.{◌≡◌, ◌<◌, ◌^◌, ℕ, IfOk, length};
ghost use Rattle.dj_class.specs.FileFormat.{file, front, plain_listed, plain_own};
ghost use Rattle.dj_pool.specs.SharedParts.{counted, u2};
ghost use Rattle.dj_write.specs.Appends.{Appends};
ghost use Rattle.dj_write.specs.Files.{HasRoom, view_file};

use crate::entries::put_pool;
use crate::members::{RawMember, put_attributes, put_members};
use crate::parts::{put_u16, put_u32};
use dj_class::{Attribute, Entry};
use dj_names::Items;
use std::alloc::{AllocError, Global};

/// The number that every class file begins with.
const MAGIC: u32 = 0xcafe_babe;

/// A class file by its indices. The pool has an item an index, Skip where no entry stands.
#[derive(Drop)]
pub struct RawFile {
    pub minor: u16,
    pub major: u16,
    pub pool: Items<Entry>,
    pub flags: u16,
    pub this_class: u16,
    pub super_class: u16,
    pub interfaces: Items<u16>,
    pub fields: Items<RawMember>,
    pub methods: Items<RawMember>,
    pub attributes: Items<Attribute>,
}

/// Indices behind their number.
pub(crate) fn put_indices(out: &mut Vec<u8>, indices: &[u16]) -> Result<(), AllocError>
    requires few { length indices.now < 2 ^ 16 }
    ensures put { Appends (counted u2) indices.now out.old.items out.new.items result }
{
    put_u16(out, indices.len() as u16)?;
    for index in indices {
        put_u16(out, *index)?;
    }
    Ok(())
}

/// What stands up to the pool and with it.
fn put_front(alloc: Global, out: &mut Vec<u8>, raw: &RawFile) -> Result<(), AllocError>
    requires room { HasRoom (view_file raw.now) }
    ensures put { Appends (front 0 None) (view_file raw.now).front out.old.items out.new.items result }
{
    put_u16(out, raw.minor)?;
    put_u16(out, raw.major)?;
    put_pool(alloc, out, raw.pool.as_slice())
}

/// The flags, the class and the superclass.
fn put_own(out: &mut Vec<u8>, raw: &RawFile) -> Result<(), AllocError>
    ensures put { Appends plain_own (view_file raw.now).rest.own out.old.items out.new.items result }
{
    put_u16(out, raw.flags)?;
    put_u16(out, raw.this_class)?;
    put_u16(out, raw.super_class)
}

/// The interfaces, the members and the attributes.
fn put_listed(out: &mut Vec<u8>, raw: &RawFile) -> Result<(), AllocError>
    requires room { HasRoom (view_file raw.now) }
    ensures put { Appends plain_listed (view_file raw.now).rest.listed out.old.items out.new.items result }
{
    put_indices(out, raw.interfaces.as_slice())?;
    put_members(out, raw.fields.as_slice())?;
    put_members(out, raw.methods.as_slice())?;
    put_attributes(out, raw.attributes.as_slice())
}

/// The bytes of a class file, whatever the oldest version that a reader takes.
pub fn write_file(alloc: Global, raw: &RawFile) -> Result<Vec<u8>, AllocError>
    requires room { HasRoom (view_file raw.now) }
    ensures written { (oldest : ℕ) → IfOk result (λ bytes. bytes.items ≡ (file oldest).spell (view_file raw.now)) }
{
    let mut out = Vec::new(alloc);
    put_u32(&mut out, MAGIC)?;
    put_front(alloc, &mut out, raw)?;
    put_own(&mut out, raw)?;
    put_listed(&mut out, raw)?;
    Ok(out)
}
