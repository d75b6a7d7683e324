//! The constant pool of a class file, and what its indices lead to (JVMS 4.4).

ghost use Rattle.std.specs.Prelude.{◌≡◌, ◌↔◌, IsTrue, IsSomeAnd, IfOk, slice_get};
ghost use Rattle.std.specs.Option.{option_copied};
ghost use Rattle.dj_names.specs.ClassNames.{IsClassName};
ghost use Rattle.dj_pool.specs.PoolFormat.{text_at};
ghost use Rattle.dj_pool.specs.PoolTable.{IsReadOf};

use crate::entry::Entry;
use crate::parsed::{Parsed, is_named, parsed_descriptor, parsed_table};
use dj_names::{Descriptor, Items, Units};
use std::alloc::{AllocError, Global};
use std::marker::Model;

/// The entries of a pool by their indices, with what each text is besides.
#[derive(Drop)]
pub struct Pool {
    entries: Items<Entry>,
    parsed: Vec<Parsed>,
}

impl Model for Pool {
    ghost use Rattle.std.specs.Prelude.{List};
    ghost use Rattle.dj_pool.specs.declared.entry.Entry as spec;

    ghost Value = { List spec.Entry };

    ghost use Rattle.dj_pool.specs.PoolTable.{IsTable};

    ghost view = { λ p. p.entries };

    ghost invariant = { λ p. IsTable p.entries p.parsed.items };
}

/// Equal entries, in order.
fn copy_entries(alloc: Global, entries: &[Entry]) -> Result<Items<Entry>, AllocError>
    ensures equal { IfOk result (λ copy. copy ≡ entries.now) }
{
    let mut copy = Items::new(alloc);
    for entry in entries {
        copy.push(entry.copy(alloc)?)?;
    }
    Ok(copy)
}

impl Pool {
    /// The pool of these entries.
    pub fn new(alloc: Global, entries: Items<Entry>) -> Result<Pool, AllocError>
        ensures entries { IfOk result (λ made. made ≡ entries) }
    {
        let parsed = parsed_table(alloc, entries.as_slice())?;
        Ok(Pool { entries, parsed })
    }

    /// An equal pool, which shares its units with this one.
    pub fn copy(&self, alloc: Global) -> Result<Pool, AllocError>
        ensures equal { IfOk result (λ copy. copy ≡ self.now) }
    {
        let entries = copy_entries(alloc, self.entries.as_slice())?;
        Pool::new(alloc, entries)
    }

    /// The entries by their indices, from 0 on.
    pub fn as_slice(&self) -> &[Entry]
        ensures entries { result.now ≡ self.now }
    {
        self.entries.as_slice()
    }

    /// The entry at an index.
    pub fn entry_at(&self, index: u16) -> Option<&Entry>
        ensures entry { option_copied result ≡ slice_get self.now index }
    {
        self.entries.as_slice().get(index as usize)
    }

    /// The units of the Utf8 entry at an index.
    pub fn text_at(&self, index: u16) -> Option<&Units>
        ensures text { option_copied result ≡ text_at self.now index }
    {
        self.entry_at(index)?.text()
    }

    /// The descriptor that the Utf8 entry at an index spells.
    pub fn descriptor_at(&self, index: u16) -> Option<&Descriptor>
        ensures read { IsReadOf (text_at self.now index) (option_copied result) }
    {
        parsed_descriptor(&self.parsed, index)
    }

    /// Whether the Utf8 entry at an index is the name of a class.
    pub fn is_class_name_at(&self, index: u16) -> bool
        ensures named { IsTrue result ↔ IsSomeAnd (text_at self.now index) IsClassName }
    {
        is_named(&self.parsed, index)
    }
}
