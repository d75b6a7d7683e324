//! The pool of a class file, written (JVMS 4.4).

ghost use Rattle.std.specs.Prelude.{◌≡◌, ◌<◌, ◌^◌, ◌++◌, [], OnOk, All, length};
ghost use Rattle.dj_names.specs.Utf8.{spell_units};
ghost use Rattle.dj_pool.specs.PoolFormat.{pool, spell_entry};
ghost use Rattle.dj_pool.specs.declared.entry.Entry.TheVariants as entry;
ghost use Rattle.dj_write.specs.Appends.{Appends, u1, u4, u8};
ghost use Rattle.dj_write.specs.Files.{HasRoomForText, slot_bytes};
ghost use Rattle.dj_pool.specs.SharedParts.{u2};

use crate::parts::{put_u8, put_u16, put_u32, put_u64};
use dj_class::Entry;
use dj_names::{Units, write_units};
use std::alloc::{AllocError, Global};

/// A text.
fn put_text(alloc: Global, out: &mut Vec<u8>, units: &Units) -> Result<(), AllocError>
    requires room { length (spell_units units.now) < 2 ^ 16 }
    ensures put { OnOk result (out.new.items ≡ out.old.items ++ spell_entry (entry.Utf8 units.now)) }
{
    let bytes = write_units(alloc, units)?;
    put_u8(out, 1)?;
    put_u16(out, bytes.len() as u16)?;
    out.extend_from_slice(bytes.as_slice())
}

/// A tag and a number of two bytes.
fn put_index(out: &mut Vec<u8>, tag: u8, index: u16) -> Result<(), AllocError>
    ensures put { OnOk result (out.new.items ≡ out.old.items ++ (u1.spell tag ++ (u2.spell index ++ []))) }
{
    put_u8(out, tag)?;
    put_u16(out, index)
}

/// A tag and two numbers of two bytes.
fn put_pair(out: &mut Vec<u8>, tag: u8, first: u16, second: u16) -> Result<(), AllocError>
    ensures put { OnOk result (out.new.items ≡ out.old.items ++ (u1.spell tag ++ (u2.spell first ++ (u2.spell second ++ [])))) }
{
    put_u8(out, tag)?;
    put_u16(out, first)?;
    put_u16(out, second)
}

/// A tag and a number of four bytes.
fn put_single(out: &mut Vec<u8>, tag: u8, number: u32) -> Result<(), AllocError>
    ensures put { OnOk result (out.new.items ≡ out.old.items ++ (u1.spell tag ++ (u4.spell number ++ []))) }
{
    put_u8(out, tag)?;
    put_u32(out, number)
}

/// A tag and a number of eight bytes.
fn put_double(out: &mut Vec<u8>, tag: u8, number: u64) -> Result<(), AllocError>
    ensures put { OnOk result (out.new.items ≡ out.old.items ++ (u1.spell tag ++ (u8.spell number ++ []))) }
{
    put_u8(out, tag)?;
    put_u64(out, number)
}

/// A method handle.
fn put_handle(out: &mut Vec<u8>, kind: u8, reference: u16) -> Result<(), AllocError>
    ensures put { OnOk result (out.new.items ≡ out.old.items ++ spell_entry (entry.MethodHandle kind reference)) }
{
    put_u8(out, 15)?;
    put_u8(out, kind)?;
    put_u16(out, reference)
}

/// What stands in the file for one index of the pool.
fn put_slot(alloc: Global, out: &mut Vec<u8>, entry: &Entry) -> Result<(), AllocError>
    requires room { HasRoomForText entry.now }
    ensures put { OnOk result (out.new.items ≡ out.old.items ++ slot_bytes entry.now) }
{
    match entry {
        Entry::Skip => Ok(()),
        Entry::Utf8(units) => put_text(alloc, out, units),
        Entry::Integer(number) => put_single(out, 3, number.cast_unsigned()),
        Entry::Float(bits) => put_single(out, 4, *bits),
        Entry::Long(number) => put_double(out, 5, number.cast_unsigned()),
        Entry::Double(bits) => put_double(out, 6, *bits),
        Entry::Class(name) => put_index(out, 7, *name),
        Entry::Text(units) => put_index(out, 8, *units),
        Entry::FieldRef(class, member) => put_pair(out, 9, *class, *member),
        Entry::MethodRef(class, member) => put_pair(out, 10, *class, *member),
        Entry::InterfaceMethodRef(class, member) => put_pair(out, 11, *class, *member),
        Entry::NameAndType(name, descriptor) => put_pair(out, 12, *name, *descriptor),
        Entry::MethodHandle(kind, reference) => put_handle(out, *kind, *reference),
        Entry::MethodType(descriptor) => put_index(out, 16, *descriptor),
        Entry::InvokeDynamic(bootstrap, member) => put_pair(out, 18, *bootstrap, *member),
    }
}

/// The pool behind its count.
pub(crate) fn put_pool(
    alloc: Global,
    out: &mut Vec<u8>,
    entries: &[Entry],
) -> Result<(), AllocError>
    requires few { length entries.now < 2 ^ 16 }
    requires room { All HasRoomForText entries.now }
    ensures put { Appends (pool None) entries.now out.old.items out.new.items result }
{
    put_u16(out, entries.len() as u16)?;
    for entry in entries {
        put_slot(alloc, out, entry)?;
    }
    Ok(())
}
