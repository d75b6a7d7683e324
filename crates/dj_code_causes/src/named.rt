//! Names of classes, each once.

ghost use Rattle.std.specs.Prelude.{◌≡◌, [], Contains, OnOk};
ghost use Rattle.dj_sayable.specs.Gathering.{HasJust, Gains};

use dj_causes::add_name;
use dj_names::{ClassName, Items};
use std::alloc::{AllocError, Global};
use std::collections::BTreeSet;

/// Names in order, with the set of them.
#[derive(Drop)]
pub struct Named {
    pub names: Items<ClassName>,
    pub known: BTreeSet<ClassName>,
}

impl Named {
    /// No names.
    pub fn new(alloc: Global) -> Named
        ensures none { result.names ≡ [] }
        ensures paired { HasJust result.known result.names }
    {
        Named {
            names: Items::new(alloc),
            known: BTreeSet::new(alloc),
        }
    }

    /// Puts a name behind the others, unless it is among them.
    fn include(&mut self, alloc: Global, name: &ClassName) -> Result<(), AllocError>
        requires paired { HasJust self.old.known self.old.names }
        ensures paired { OnOk result (HasJust self.new.known self.new.names) }
        ensures gains { OnOk result (Gains self.old.names self.new.names (λ other. name.now ≡ other)) }
    {
        let key = name.copy(alloc)?;
        let first = self.known.insert(key)?;
        if !first {
            return Ok(());
        }
        add_name(alloc, &mut self.names, name)?;
        Ok(())
    }

    /// Puts those of these names behind the others that aren't among them.
    pub fn include_all(&mut self, alloc: Global, names: &[ClassName]) -> Result<(), AllocError>
        requires paired { HasJust self.old.known self.old.names }
        ensures paired { OnOk result (HasJust self.new.known self.new.names) }
        ensures gains { OnOk result (Gains self.old.names self.new.names (Contains names.now)) }
    {
        for name in names {
            self.include(alloc, name)?;
        }
        Ok(())
    }
}
