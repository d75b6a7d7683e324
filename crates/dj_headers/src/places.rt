//! A place for each name, looked up by the name.

ghost use Rattle.std.specs.Prelude.{◌≡◌, ◌↔◌, ℕ, List, Some, Contains, IsTrue, IfOk, OnOk, OnErr};
ghost use Rattle.dj_headers.specs.Table.{digest, place_of, count, IsBehind, HasPlace, IsIndex, Extends, Gains, Keeps, HasNone, IsParent};

use dj_names::{ClassName, Header};
use indexmap::IndexMap;
use std::alloc::{AllocError, Global};
use std::collections::BTreeMap;

/// A name with its place.
#[derive(Drop)]
pub struct Placed {
    pub name: ClassName,
    pub at: usize,
}

/// The place of each name that has one. The first name of each digest stands in a hash map, the
/// others in an ordered one: so names that strangers make alike are still found in few steps.
#[derive(Drop)]
pub struct Places {
    pub firsts: IndexMap<u16, Placed>,
    pub others: BTreeMap<ClassName, usize>,
}

/// A number that is mostly one name's alone.
fn digest(name: &ClassName) -> u16
    ensures digest { result ≡ digest name.now }
{
    let mut sum: u16 = 0;
    for unit in name.as_slice() {
        sum = sum.wrapping_mul(40_503).wrapping_add(*unit);
    }
    sum
}

/// No places.
pub fn no_places(alloc: Global) -> Places
    ensures none { HasNone result }
{
    Places {
        firsts: IndexMap::new(alloc),
        others: BTreeMap::new(alloc),
    }
}

/// The place of a name, if it has one.
pub fn place(places: &Places, name: &ClassName) -> Option<usize>
    ensures place { result ≡ place_of places.now name.now }
{
    match places.firsts.get(&digest(name)) {
        Some(first) => {
            if first.name == *name {
                Some(first.at)
            } else {
                places.others.get(name).copied()
            }
        }
        None => places.others.get(name).copied(),
    }
}

/// Whether another name had the digest of this one first.
fn is_behind(places: &Places, digest: u16, name: &ClassName) -> bool
    ensures behind { IsTrue result ↔ IsBehind places.now digest name.now }
{
    match places.firsts.get(&digest) {
        Some(first) => first.name != *name,
        None => false,
    }
}

/// How many names have a place.
fn count(places: &Places) -> usize
    ensures count { result ≡ count places.now }
{
    places.firsts.len() + places.others.len()
}

/// Gives a name a place.
pub fn put(places: &mut Places, name: ClassName, at: usize) -> Result<(), AllocError>
    ensures gains { OnOk result (Gains places.old places.new name at) }
    ensures kept { OnErr result (Keeps places.old places.new) }
{
    let digest = digest(&name);
    if is_behind(places, digest, &name) {
        places.others.insert(name, at)?;
    } else {
        places.firsts.insert(digest, Placed { name, at })?;
    }
    Ok(())
}

/// The place of a name that has one.
pub fn place_at(places: &Places, name: &ClassName) -> usize
    requires known { HasPlace places.now name.now }
    ensures place { place_of places.now name.now ≡ Some result }
{
    match place(places, name) {
        Some(at) => at,
        None => unreachable!(),
    }
}

/// The place of a name, which gets the next one where it has none.
pub fn learn(alloc: Global, places: &mut Places, name: &ClassName) -> Result<usize, AllocError>
    ensures place { IfOk result (λ at. place_of places.new name.now ≡ Some at) }
    ensures extends { Extends places.old places.new }
    ensures index { IsIndex places.old → IsIndex places.new }
{
    match place(places, name) {
        Some(at) => Ok(at),
        None => {
            let at = count(places);
            put(places, name.copy(alloc)?, at)?;
            Ok(at)
        }
    }
}

/// Gives each of the names a place.
pub fn learn_all(alloc: Global, places: &mut Places, names: &[ClassName]) -> Result<(), AllocError>
    ensures known { OnOk result ((name : List ℕ) → Contains names.now name → HasPlace places.new name) }
    ensures extends { Extends places.old places.new }
    ensures index { IsIndex places.old → IsIndex places.new }
{
    for name in names {
        learn(alloc, places, name)?;
    }
    Ok(())
}

/// Gives a superclass, if there is one, and interfaces a place each.
fn learn_parents(
    alloc: Global,
    places: &mut Places,
    superclass: &Option<ClassName>,
    interfaces: &[ClassName],
) -> Result<(), AllocError>
    ensures known { OnOk result ((name : List ℕ) → IsParent superclass.now interfaces.now name → HasPlace places.new name) }
    ensures extends { Extends places.old places.new }
    ensures index { IsIndex places.old → IsIndex places.new }
{
    learn_all(alloc, places, interfaces)?;
    match superclass {
        Some(superclass) => {
            learn(alloc, places, superclass)?;
            Ok(())
        }
        None => Ok(()),
    }
}

/// Gives the class of a header and each of its parents a place, and answers that of the class.
pub fn learn_header(
    alloc: Global,
    places: &mut Places,
    header: &Header,
) -> Result<usize, AllocError>
    ensures place { IfOk result (λ at. place_of places.new header.now.name ≡ Some at) }
    ensures known { OnOk result ((name : List ℕ) → IsParent header.now.superclass header.now.interfaces name → HasPlace places.new name) }
    ensures extends { Extends places.old places.new }
    ensures index { IsIndex places.old → IsIndex places.new }
{
    learn_parents(
        alloc,
        places,
        &header.superclass,
        header.interfaces.as_slice(),
    )?;
    let class = learn(alloc, places, &header.name)?;
    Ok(class)
}
