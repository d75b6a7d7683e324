//! The classes and interfaces that stand above others, each once.

ghost use Rattle.std.specs.Prelude.{◌≡◌, ◌↔◌, Some, Contains, OnOk, IfOk};
ghost use Rattle.dj_names.specs.Headers.{Name, HasParent};
ghost use Rattle.dj_sayable.specs.Above.{IsAtOrAbove};
ghost use Rattle.dj_sayable.specs.Gathering.{HasJust, Gains, Continues};

use dj_headers::Headers;
use dj_names::{ClassName, Items};
use std::alloc::{AllocError, Global};
use std::collections::BTreeSet;

/// Names in order, no two equal, with the set of them.
#[derive(Drop)]
struct Found {
    names: Items<ClassName>,
    known: BTreeSet<ClassName>,
}

impl Found {
    /// Puts a name behind the others, unless it is among them.
    fn add(&mut self, alloc: Global, name: &ClassName) -> Result<(), AllocError>
        requires paired { HasJust self.old.known self.old.names }
        ensures paired { OnOk result (HasJust self.new.known self.new.names) }
        ensures gains { OnOk result (Gains self.old.names self.new.names (λ other. name.now ≡ other)) }
        ensures continues { OnOk result (Continues self.old.names self.new.names) }
    {
        let key = name.copy(alloc)?;
        let copy = name.copy(alloc)?;
        let first = self.known.insert(key)?;
        if !first {
            return Ok(());
        }
        self.names.push(copy)?;
        Ok(())
    }

    /// Puts those of these names behind the others that aren't among them.
    fn add_all(&mut self, alloc: Global, names: &[ClassName]) -> Result<(), AllocError>
        requires paired { HasJust self.old.known self.old.names }
        ensures paired { OnOk result (HasJust self.new.known self.new.names) }
        ensures gains { OnOk result (Gains self.old.names self.new.names (Contains names.now)) }
        ensures continues { OnOk result (Continues self.old.names self.new.names) }
    {
        for name in names {
            self.add(alloc, name)?;
        }
        Ok(())
    }

    /// Puts a superclass behind the others, if there is one and it isn't among them.
    fn add_superclass(
        &mut self,
        alloc: Global,
        superclass: &Option<ClassName>,
    ) -> Result<(), AllocError>
        requires paired { HasJust self.old.known self.old.names }
        ensures paired { OnOk result (HasJust self.new.known self.new.names) }
        ensures gains { OnOk result (Gains self.old.names self.new.names (λ other. superclass.now ≡ Some other)) }
        ensures continues { OnOk result (Continues self.old.names self.new.names) }
    {
        match superclass {
            Some(name) => {
                self.add(alloc, name)?;
                Ok(())
            }
            None => Ok(()),
        }
    }

    /// Puts those names behind the others that the header of a class names as its superclass or among
    /// its interfaces, and that aren't among them.
    fn add_parents(
        &mut self,
        alloc: Global,
        headers: &Headers,
        class: &ClassName,
    ) -> Result<(), AllocError>
        requires paired { HasJust self.old.known self.old.names }
        ensures paired { OnOk result (HasJust self.new.known self.new.names) }
        ensures gains { OnOk result (Gains self.old.names self.new.names (HasParent headers.now class.now)) }
        ensures continues { OnOk result (Continues self.old.names self.new.names) }
    {
        match headers.place(class) {
            Some(at) => {
                let header = &headers.as_slice()[at];
                self.add_superclass(alloc, &header.superclass)?;
                self.add_all(alloc, header.interfaces.as_slice())?;
                Ok(())
            }
            None => Ok(()),
        }
    }
}

/// These classes, and the classes and interfaces above them, each once.
pub fn all_above(
    alloc: Global,
    headers: &Headers,
    classes: &[ClassName],
) -> Result<Items<ClassName>, AllocError>
    ensures above { IfOk result (λ all. (name : Name) → Contains all name ↔ IsAtOrAbove headers.now (Contains classes.now) name) }
{
    let mut found = Found {
        names: Items::new(alloc),
        known: BTreeSet::new(alloc),
    };
    found.add_all(alloc, classes)?;
    let mut at = 0;
    while at < found.names.len() {
        let class = found.names.as_slice()[at].copy(alloc)?;
        found.add_parents(alloc, headers, &class)?;
        at += 1;
    }
    Ok(found.names)
}
