//! What a class says of the classes right above it (JVMS 4.1).

ghost use Rattle.std.specs.Prelude.{◌≡◌, IfOk};

use crate::class_name::{ClassName, copy_names};
use sqlite_items::Items;
use std::alloc::{AllocError, Global};

/// A class or interface, its superclass and its interfaces by name, and its flags.
#[derive(Drop)]
pub struct Header {
    pub name: ClassName,
    pub superclass: Option<ClassName>,
    pub interfaces: Items<ClassName>,
    pub flags: u16,
}

impl Header {
    /// An equal header.
    pub fn copy(&self, alloc: Global) -> Result<Header, AllocError>
        ensures equal { IfOk result (λ copy. copy ≡ self.now) }
    {
        let superclass = match &self.superclass {
            Some(superclass) => Some(superclass.copy(alloc)?),
            None => None,
        };
        Ok(Header {
            name: self.name.copy(alloc)?,
            superclass,
            interfaces: copy_names(alloc, self.interfaces.as_slice())?,
            flags: self.flags,
        })
    }
}
