//! A method of a class file (JVMS 4.6).

ghost use Rattle.std.specs.Prelude.{◌≡◌, IfOk};

use dj_names::{ClassName, Descriptor, Items, Units, copy_names};
use std::alloc::{AllocError, Global};

/// A method: its flags, name and descriptor, the classes that it declares to throw, and the
/// content of its Code attribute.
#[derive(Drop)]
pub struct Method {
    pub flags: u16,
    pub name: Units,
    pub descriptor: Descriptor,
    pub thrown: Items<ClassName>,
    pub code: Option<Items<u8>>,
}

impl Method {
    /// An equal method, which shares its name and its types with this one.
    pub fn copy(&self, alloc: Global) -> Result<Method, AllocError>
        ensures equal { IfOk result (λ copy. copy ≡ self.now) }
    {
        let code = match &self.code {
            Some(content) => Some(Items::from_slice(alloc, content.as_slice())?),
            None => None,
        };
        Ok(Method {
            flags: self.flags,
            name: self.name.copy(alloc)?,
            descriptor: self.descriptor.copy(alloc)?,
            thrown: copy_names(alloc, self.thrown.as_slice())?,
            code,
        })
    }
}
