//! What the texts of a pool are, each judged once (JVMS 4.2.1, 4.3).

ghost use Rattle.std.specs.Prelude.{◌≡◌, ◌↔◌, IsTrue, IsSomeAnd, IfOk, Some, slice_get};
ghost use Rattle.std.specs.Option.{option_copied, option_and_then};
ghost use Rattle.dj_pool.specs.PoolTable.{IsReadOf, Agrees, IsTable};

use crate::entry::Entry;
use crate::names::is_class_name;
use dj_names::{Descriptor, NameFault, Units, read_descriptor};
use std::alloc::{AllocError, Global};

/// Whether an entry is the name of a class, and the descriptor that it spells.
#[derive(Drop)]
pub struct Parsed {
    pub is_class_name: bool,
    pub descriptor: Option<Descriptor>,
}

/// The descriptor that the units spell.
fn descriptor_of(alloc: Global, units: &Units) -> Result<Option<Descriptor>, AllocError>
    ensures read { IfOk result (IsReadOf (Some units.now)) }
{
    match read_descriptor(alloc, units) {
        Ok(descriptor) => Ok(Some(descriptor)),
        Err(NameFault::BadDescriptor(_) | NameFault::BadUnits(_)) => Ok(None),
        Err(NameFault::Memory(error)) => Err(error),
    }
}

/// What an entry is.
fn parsed_of(alloc: Global, entry: &Entry) -> Result<Parsed, AllocError>
    ensures agrees { IfOk result (Agrees entry.now) }
{
    match entry.text() {
        Some(units) => {
            let is_class_name = is_class_name(units.as_slice());
            let descriptor = descriptor_of(alloc, units)?;
            Ok(Parsed {
                is_class_name,
                descriptor,
            })
        }
        None => Ok(Parsed {
            is_class_name: false,
            descriptor: None,
        }),
    }
}

/// What each entry is.
pub fn parsed_table(alloc: Global, entries: &[Entry]) -> Result<Vec<Parsed>, AllocError>
    ensures table { IfOk result (λ table. IsTable entries.now table.items) }
{
    let mut table = Vec::with_capacity(alloc, entries.len())?;
    for entry in entries {
        let parsed = parsed_of(alloc, entry)?;
        table.push(parsed)?;
    }
    Ok(table)
}

/// The descriptor that the table has at an index.
pub fn parsed_descriptor(table: &[Parsed], index: u16) -> Option<&Descriptor>
    ensures kept { option_copied result ≡ option_and_then (λ parsed. parsed.descriptor) (slice_get table.now index) }
{
    table.get(index as usize)?.descriptor.as_ref()
}

/// Whether the table has a class's name at an index.
pub fn is_named(table: &[Parsed], index: u16) -> bool
    ensures kept { IsTrue result ↔ IsSomeAnd (slice_get table.now index) (λ parsed. IsTrue parsed.is_class_name) }
{
    match table.get(index as usize) {
        Some(parsed) => parsed.is_class_name,
        None => false,
    }
}
