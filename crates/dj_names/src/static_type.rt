//! The type of an expression (JLS 4.1).

ghost use Rattle.std.specs.Prelude.{◌≡◌, IfOk};

use crate::types::JType;
use std::alloc::{AllocError, Global};

/// The type of `null`, or a type of the machine.
#[derive(Drop)]
pub enum StaticType {
    Null,
    Of(JType),
}

impl StaticType {
    /// An equal type.
    pub fn copy(&self, alloc: Global) -> Result<StaticType, AllocError>
        ensures equal { IfOk result (λ copy. copy ≡ self.now) }
    {
        match self {
            StaticType::Null => Ok(StaticType::Null),
            StaticType::Of(kind) => Ok(StaticType::Of(kind.copy(alloc)?)),
        }
    }
}
