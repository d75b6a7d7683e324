//! The fields and methods that instructions name (JVMS 4.4.2).

ghost use Rattle.std.specs.Prelude.{◌≡◌, IfOk};

use dj_names::{Descriptor, JType, Units};
use std::alloc::{AllocError, Global};

/// A field by the class or array type that it is looked for in, its name and its type.
#[derive(Drop)]
pub struct FieldRef {
    pub owner: JType,
    pub name: Units,
    pub kind: JType,
}

impl FieldRef {
    /// An equal reference, which shares its parts with this one.
    pub fn copy(&self, alloc: Global) -> Result<FieldRef, AllocError>
        ensures equal { IfOk result (λ copy. copy ≡ self.now) }
    {
        Ok(FieldRef {
            owner: self.owner.copy(alloc)?,
            name: self.name.copy(alloc)?,
            kind: self.kind.copy(alloc)?,
        })
    }
}

/// A method by the class or array type that it is looked for in, its name and its descriptor.
#[derive(Drop)]
pub struct MethodRef {
    pub owner: JType,
    /// Whether the entry of the pool is an InterfaceMethodref.
    pub interface: bool,
    pub name: Units,
    pub descriptor: Descriptor,
}

impl MethodRef {
    /// An equal reference, which shares its parts with this one.
    pub fn copy(&self, alloc: Global) -> Result<MethodRef, AllocError>
        ensures equal { IfOk result (λ copy. copy ≡ self.now) }
    {
        Ok(MethodRef {
            owner: self.owner.copy(alloc)?,
            interface: self.interface,
            name: self.name.copy(alloc)?,
            descriptor: self.descriptor.copy(alloc)?,
        })
    }
}
