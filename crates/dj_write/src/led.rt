//! What the indices of a pool lead to: texts, classes and constants (JVMS 4.4).

ghost use Rattle.std.specs.Prelude.{◌≡◌, ◌+◌, ◌<◌, ◌^◌, IfOk, OnOk, length};
ghost use Rattle.std.specs.BTreeMap as tree;
ghost use Rattle.std.specs.Option.{option_map};
ghost use Rattle.dj_pool.specs.PoolFormat.{class_at, text_at};
ghost use Rattle.dj_class.specs.Described.{constant_of};
ghost use Rattle.dj_write.specs.Found.{Finds, key_at, key_of};

use crate::constants::{ConstantKey, key_of};
use dj_class::{Entry, Pool};
use dj_names::{ClassName, Constant, Units};
use dj_pool::class_name_of;
use std::alloc::{AllocError, Global};
use std::collections::BTreeMap;

/// What an index of a pool may lead to.
pub(crate) trait Led: Ord + Drop {
    ghost use Rattle.std.specs.Prelude.{◌≡◌, ℕ, List, Option, IfOk};
    ghost use Rattle.std.specs.declared.cmp.Ordering.TheVariants.{Equal};
    ghost use Rattle.dj_pool.specs.declared.entry.Entry as spec;

    /// What an index leads to, if it leads to such a thing.
    ghost led: { List spec.Entry → ℕ → Option Self };

    /// What an index leads to, if it leads to such a thing.
    fn led(alloc: Global, pool: &Pool, index: u16) -> Result<Option<Self>, AllocError>
        ensures led { IfOk result (λ found. found ≡ led pool.now index) };

    /// The order tells two that differ apart.
    ghost exact: { (x y : Self) → Self.cmp x y ≡ Equal → x ≡ y };
}

impl Led for Units {
    ghost use Rattle.std.proofs.lemmas.Map.Lookups.{exact_bytes};

    ghost led = { text_at };

    ghost exact = { exact_bytes };

    fn led(alloc: Global, pool: &Pool, index: u16) -> Result<Option<Units>, AllocError> {
        match pool.text_at(index) {
            Some(units) => Ok(Some(units.copy(alloc)?)),
            None => Ok(None),
        }
    }
}

impl Led for ClassName {
    ghost use Rattle.std.proofs.lemmas.Map.Lookups.{exact_bytes};

    ghost led = { class_at };

    ghost exact = { exact_bytes };

    fn led(alloc: Global, pool: &Pool, index: u16) -> Result<Option<ClassName>, AllocError> {
        class_name_of(alloc, pool, index)
    }
}

/// The constant of an entry.
fn constant_of(alloc: Global, pool: &Pool, entry: &Entry) -> Result<Option<Constant>, AllocError>
    ensures constant { IfOk result (λ found. found ≡ constant_of pool.now entry.now) }
{
    match entry {
        Entry::Integer(number) => Ok(Some(Constant::Int(*number))),
        Entry::Float(bits) => Ok(Some(Constant::Float(*bits))),
        Entry::Long(number) => Ok(Some(Constant::Long(*number))),
        Entry::Double(bits) => Ok(Some(Constant::Double(*bits))),
        Entry::Text(units) => match pool.text_at(*units) {
            Some(units) => Ok(Some(Constant::Text(units.copy(alloc)?))),
            None => Ok(None),
        },
        Entry::Skip
        | Entry::Utf8(_)
        | Entry::Class(_)
        | Entry::FieldRef(_, _)
        | Entry::MethodRef(_, _)
        | Entry::InterfaceMethodRef(_, _)
        | Entry::NameAndType(_, _)
        | Entry::MethodHandle(_, _)
        | Entry::MethodType(_)
        | Entry::InvokeDynamic(_, _) => Ok(None),
    }
}

/// What the constant of an entry is found by.
fn entry_key(alloc: Global, pool: &Pool, entry: &Entry) -> Result<Option<ConstantKey>, AllocError>
    ensures key { IfOk result (λ found. found ≡ option_map key_of (constant_of pool.now entry.now)) }
{
    match constant_of(alloc, pool, entry)? {
        Some(constant) => Ok(Some(key_of(alloc, &constant)?)),
        None => Ok(None),
    }
}

impl Led for ConstantKey {
    ghost use Rattle.dj_write.specs.Keys.{exact_keys};

    ghost led = { key_at };

    ghost exact = { exact_keys };

    fn led(alloc: Global, pool: &Pool, index: u16) -> Result<Option<ConstantKey>, AllocError> {
        match pool.entry_at(index) {
            Some(entry) => entry_key(alloc, pool, entry),
            None => Ok(None),
        }
    }
}

/// Keeps an index by what it leads to, if it leads to such a thing.
fn keep<K: Led>(
    alloc: Global,
    pool: &Pool,
    index: u16,
    indices: &mut BTreeMap<K, u16>,
) -> Result<(), AllocError>
    ensures found { OnOk result (Finds (K.led pool.now) index (tree.get K.cmp indices.old) → Finds (K.led pool.now) (index + 1) (tree.get K.cmp indices.new)) }
{
    match K::led(alloc, pool, index)? {
        Some(found) => {
            indices.insert(found, index)?;
            Ok(())
        }
        None => Ok(()),
    }
}

/// For each thing that some index of the pool leads to, such an index.
pub(crate) fn indices<K: Led>(alloc: Global, pool: &Pool) -> Result<BTreeMap<K, u16>, AllocError>
    requires few { length pool.now < 2 ^ 16 }
    ensures found { IfOk result (λ indices. Finds (K.led pool.now) (length pool.now) (tree.get K.cmp indices)) }
{
    let mut indices = BTreeMap::new(alloc);
    for index in 0..pool.as_slice().len() as u16 {
        keep(alloc, pool, index, &mut indices)?;
    }
    Ok(indices)
}
