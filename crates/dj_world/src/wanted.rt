//! Which names headers want as superclasses and which as interfaces.

ghost use Rattle.std.specs.Prelude.{◌≡◌, ◌↔◌, ◌+◌, ◌<◌, List, [], OnOk, IsTrue, Any, Contains, Some, length};
ghost use Rattle.dj_names.specs.declared.header.Header.{Header};
ghost use Rattle.dj_world.specs.Learning.{Learns, LearnsSome};
ghost use Rattle.dj_world.specs.Wanting.{WantsAsSuperclass, WantsAsInterface, KeepsWanted, KnowsAll};

use crate::named::learn;
use dj_names::{ClassName, Header};
use std::alloc::{AllocError, Global};
use std::collections::BTreeSet;

/// The names that headers want, read from the first ones of a list that grows.
#[derive(Drop)]
pub struct Wanted {
    pub superclasses: BTreeSet<ClassName>,
    pub interfaces: BTreeSet<ClassName>,
    pub read: usize,
}

/// Adds the name of the superclass, if there is one.
fn learn_superclass(
    alloc: Global,
    names: &mut BTreeSet<ClassName>,
    header: &Header,
) -> Result<(), AllocError>
    ensures learns { OnOk result (Learns names.old names.new (λ name. header.now.superclass ≡ Some name)) }
    ensures some { LearnsSome names.old names.new (λ name. header.now.superclass ≡ Some name) }
{
    match &header.superclass {
        Some(superclass) => {
            learn(alloc, names, superclass)?;
            Ok(())
        }
        None => Ok(()),
    }
}

/// Adds the names of interfaces.
fn learn_interfaces(
    alloc: Global,
    names: &mut BTreeSet<ClassName>,
    interfaces: &[ClassName],
) -> Result<(), AllocError>
    ensures learns { OnOk result (Learns names.old names.new (Contains interfaces.now)) }
    ensures some { LearnsSome names.old names.new (Contains interfaces.now) }
{
    for interface in interfaces {
        learn(alloc, names, interface)?;
    }
    Ok(())
}

impl Wanted {
    /// What no headers want.
    pub fn new(alloc: Global) -> Wanted
        ensures keeps { KeepsWanted [] result }
    {
        Wanted {
            superclasses: BTreeSet::new(alloc),
            interfaces: BTreeSet::new(alloc),
            read: 0,
        }
    }

    /// Reads the next header.
    fn read_one(&mut self, alloc: Global, headers: &[Header], at: usize) -> Result<(), AllocError>
        requires next { self.old.read ≡ at }
        requires within { at < length headers.now }
        requires keeps { KeepsWanted headers.now self.old }
        ensures keeps { KeepsWanted headers.now self.new }
        ensures next { OnOk result (self.new.read ≡ at + 1) }
    {
        let header = &headers[at];
        learn_superclass(alloc, &mut self.superclasses, header)?;
        learn_interfaces(alloc, &mut self.interfaces, header.interfaces.as_slice())?;
        self.read = at + 1;
        Ok(())
    }

    /// Reads the headers that came since it last did. After want of memory it may have read some.
    pub fn read_on(&mut self, alloc: Global, headers: &[Header]) -> Result<(), AllocError>
        requires keeps { KeepsWanted headers.now self.old }
        ensures keeps { KeepsWanted headers.now self.new }
        ensures all { OnOk result (KnowsAll headers.now self.new) }
    {
        for at in self.read..headers.len() {
            self.read_one(alloc, headers, at)?;
        }
        Ok(())
    }

    /// Whether a header names the class as its superclass.
    pub fn is_superclass(&self, class: &ClassName) -> bool
        ensures exact { (headers : List Header) → KnowsAll headers self.now → IsTrue result ↔ Any (WantsAsSuperclass class.now) headers }
    {
        self.superclasses.contains(class)
    }

    /// Whether a header lists the class among its interfaces.
    pub fn is_listed(&self, class: &ClassName) -> bool
        ensures exact { (headers : List Header) → KnowsAll headers self.now → IsTrue result ↔ Any (WantsAsInterface class.now) headers }
    {
        self.interfaces.contains(class)
    }
}
