//! References to objects and arrays (JVMS 2.3, 2.4).

ghost use Rattle.std.specs.Prelude.{◌≡◌, IfOk};

use dj_names::{JType, Units};
use std::alloc::{AllocError, Global};

/// What tells references apart: a number, or the characters of a string constant.
#[derive(Drop)]
pub enum RefId {
    Number(u64),
    Text(Units),
}

impl RefId {
    /// An equal id.
    pub fn copy(&self, alloc: Global) -> Result<RefId, AllocError>
        ensures equal { IfOk result (λ copy. copy ≡ self.now) }
    {
        match self {
            RefId::Number(number) => Ok(RefId::Number(*number)),
            RefId::Text(units) => Ok(RefId::Text(units.copy(alloc)?)),
        }
    }
}

/// A reference to an object or array, with its class and an array's length, which never change.
#[derive(Drop)]
pub struct RefValue {
    pub id: RefId,
    pub class: JType,
    pub length: u32,
}

impl RefValue {
    /// An equal reference.
    pub fn copy(&self, alloc: Global) -> Result<RefValue, AllocError>
        ensures equal { IfOk result (λ copy. copy ≡ self.now) }
    {
        Ok(RefValue {
            id: self.id.copy(alloc)?,
            class: self.class.copy(alloc)?,
            length: self.length,
        })
    }
}
