//! The binary name of a class, with `/` between its segments (JVMS 4.2.1).

ghost use Rattle.std.specs.Prelude.{◌≡◌, IfOk};

use crate::units::Units;
use sqlite_items::Items;
use std::alloc::{AllocError, Global};
use std::marker::Model;

/// The name of a class or interface in internal form, as `java/lang/Object`.
#[derive(Drop)]
pub struct ClassName {
    units: Units,
}

impl Model for ClassName {
    ghost use Rattle.std.specs.Prelude.{List, ℕ};

    ghost Value = { List ℕ };

    ghost view = { λ n. n.units };
}

impl ClassName {
    /// The class whose internal form has these units.
    pub fn new(units: Units) -> ClassName
        ensures units { result ≡ units }
    {
        ClassName { units }
    }

    pub fn as_slice(&self) -> &[u16]
        ensures units { result.now ≡ self.now }
    {
        self.units.as_slice()
    }

    /// An equal name.
    pub fn copy(&self, alloc: Global) -> Result<ClassName, AllocError>
        ensures equal { IfOk result (λ copy. copy ≡ self.now) }
    {
        Ok(ClassName {
            units: self.units.copy(alloc)?,
        })
    }
}

/// Names equal to these, in order.
pub fn copy_names(alloc: Global, names: &[ClassName]) -> Result<Items<ClassName>, AllocError>
    ensures equal { IfOk result (λ copy. copy ≡ names.now) }
{
    let mut copy = Items::new(alloc);
    for name in names {
        copy.push(name.copy(alloc)?)?;
    }
    Ok(copy)
}
