//! Values (JVMS 2.3, 2.4).

ghost use Rattle.std.specs.Prelude.{◌≡◌, IfOk};

use crate::reference::RefValue;
use dj_names::Items;
use std::alloc::{AllocError, Global};

/// What a local, a stack entry or a variable holds; a boolean is the int 0 or 1.
#[derive(Drop)]
pub enum Value {
    Int(i32),
    Long(i64),
    Null,
    Ref(RefValue),
}

impl Value {
    /// An equal value.
    pub fn copy(&self, alloc: Global) -> Result<Value, AllocError>
        ensures equal { IfOk result (λ copy. copy ≡ self.now) }
    {
        match self {
            Value::Int(number) => Ok(Value::Int(*number)),
            Value::Long(number) => Ok(Value::Long(*number)),
            Value::Null => Ok(Value::Null),
            Value::Ref(reference) => Ok(Value::Ref(reference.copy(alloc)?)),
        }
    }
}

/// Values equal to these, in order.
pub fn copy_values(alloc: Global, values: &[Value]) -> Result<Items<Value>, AllocError>
    ensures equal { IfOk result (λ copy. copy ≡ values.now) }
{
    let mut copy = Items::new(alloc);
    for value in values {
        copy.push(value.copy(alloc)?)?;
    }
    Ok(copy)
}
