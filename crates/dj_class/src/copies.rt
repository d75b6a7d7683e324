//! Copies of the methods of a class file.

ghost use Rattle.std.specs.Prelude.{◌≡◌, IfOk};

use crate::method::Method;
use dj_names::Items;
use std::alloc::{AllocError, Global};

/// Equal methods, in order.
pub fn copy_methods(alloc: Global, methods: &[Method]) -> Result<Items<Method>, AllocError>
    ensures equal { IfOk result (λ copy. copy ≡ methods.now) }
{
    let mut copy = Items::new(alloc);
    for method in methods {
        copy.push(method.copy(alloc)?)?;
    }
    Ok(copy)
}
