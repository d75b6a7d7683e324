//! What a field or a method takes and gives (JVMS 4.3).

ghost use Rattle.std.specs.Prelude.{◌≡◌, IfOk};

use crate::shared_list::SharedList;
use crate::types::JType;
use std::alloc::{AllocError, Global};

/// A field's type, or a method's parameter types and its result, None for `void`.
#[derive(Drop)]
pub enum Descriptor {
    Field(JType),
    Method {
        parameters: SharedList<JType>,
        result: Option<JType>,
    },
}

impl Descriptor {
    /// An equal descriptor, which shares its parts with this one and takes no room of its own.
    pub fn copy(&self, alloc: Global) -> Result<Descriptor, AllocError>
        ensures equal { IfOk result (λ copy. copy ≡ self.now) }
    {
        match self {
            Descriptor::Field(kind) => Ok(Descriptor::Field(kind.copy(alloc)?)),
            Descriptor::Method { parameters, result } => {
                let result = match result {
                    Some(kind) => Some(kind.copy(alloc)?),
                    None => None,
                };
                Ok(Descriptor::Method {
                    parameters: parameters.share()?,
                    result,
                })
            }
        }
    }
}
