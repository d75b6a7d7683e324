//! Names in order, with a table of where each stands.

ghost use Rattle.std.specs.Prelude.{◌≡◌, ◌↔◌, ℕ, ◌<◌, List, [], ◌∷◌, ◌++◌, true, false, Some, IsTrue, OnOk, OnErr, length, slice_get};
ghost use Rattle.dj_members.specs.Names.{IsLast};
ghost use Rattle.dj_members.specs.Picks.{PicksFirst, IsPickedAt};

use dj_names::{Items, Units};
use std::alloc::{AllocError, Global};
use std::collections::BTreeMap;
use std::marker::Model;

/// A name, and the last place before its own where it stands.
#[derive(Drop)]
pub struct Link {
    name: Units,
    before: Option<usize>,
}

/// Names in order. From the last place of a name a chain leads through all its places.
#[derive(Drop)]
pub struct NameTable {
    links: Items<Link>,
    last: BTreeMap<Units, usize>,
    alloc: Global,
}

impl Model for NameTable {
    ghost use Rattle.std.specs.Prelude.{List, ℕ};
    ghost use Rattle.dj_members.specs.Links.{linked_names, KeepsNames};

    ghost Value = { List (List ℕ) };

    ghost view = { λ t. linked_names t.links };

    ghost invariant = { λ t. KeepsNames t.links t.last };
}

impl NameTable {
    /// No names.
    pub fn new(alloc: Global) -> NameTable
        ensures empty { result ≡ [] }
    {
        NameTable {
            links: Items::new(alloc),
            last: BTreeMap::new(alloc),
            alloc,
        }
    }

    /// Puts a name behind the others.
    pub fn push(&mut self, name: &Units) -> Result<(), AllocError>
        ensures ok { OnOk result (self.new ≡ self.old ++ name.now ∷ []) }
        ensures kept { OnErr result (self.new ≡ self.old) }
    {
        let at = self.links.len();
        let before = self.last.get(name).copied();
        let key = name.copy(self.alloc)?;
        let name = name.copy(self.alloc)?;
        self.links.push(Link { name, before })?;
        match self.last.insert(key, at) {
            Ok(_) => Ok(()),
            Err(failed) => {
                self.links.pop();
                Err(failed.into())
            }
        }
    }

    /// The last place of a name, if it stands anywhere.
    pub fn last(&self, name: &Units) -> Option<usize>
        ensures last { IsLast self.now name.now (length self.now) result }
    {
        self.last.get(name).copied()
    }

    /// The last place before this one of the same name.
    pub fn before(&self, at: usize) -> Option<usize>
        requires there { at < length self.now }
        ensures last { (name : List ℕ) → slice_get self.now at ≡ Some name → IsLast self.now name at result }
    {
        self.links.as_slice()[at].before
    }
}

/// Tells which places are meant.
pub trait Picker {
    ghost use Rattle.std.specs.Prelude.{ℕ};

    ghost picks: { Self → ℕ → Type 0 };

    fn picks(&self, at: usize) -> bool
        ensures { IsTrue result ↔ picks self.now at };
}

/// The first place of a name that is picked.
pub fn first_named<P: Picker>(names: &NameTable, name: &Units, picker: &P) -> Option<usize>
    ensures first { PicksFirst (λ at. (slice_get names.now at ≡ Some name.now) × P.picks picker.now at) result }
{
    let mut found = None;
    let mut place = names.last(name);
    while let Some(at) = place {
        if picker.picks(at) {
            found = Some(at);
        }
        place = names.before(at);
    }
    found
}

/// Whether each place of a name is picked.
pub fn all_named<P: Picker>(names: &NameTable, name: &Units, picker: &P) -> bool
    ensures all { IsTrue result → (at : ℕ) → slice_get names.now at ≡ Some name.now → P.picks picker.now at }
    ensures other { result ≡ false → IsPickedAt names.now name.now (λ at. ¬ P.picks picker.now at) }
{
    let mut place = names.last(name);
    while let Some(at) = place {
        if !picker.picks(at) {
            return false;
        }
        place = names.before(at);
    }
    true
}
