//! Lists in no more room than they need.

ghost use Rattle.std.specs.Prelude.{◌≡◌, IfOk};

use dj_names::{Boxed, Items};
use std::alloc::{AllocError, Global};

/// The same list, in no more room than its elements take.
pub fn fitted<T: Drop>(alloc: Global, list: Items<T>) -> Result<Items<T>, AllocError>
    ensures same { IfOk result (λ fitted. fitted ≡ list) }
{
    let mut fitted = Items::from_vec(Vec::with_capacity(alloc, list.len())?);
    fitted.append(list)?;
    Ok(fitted)
}

/// The same list, in a box, and in no more room than its elements take.
pub fn boxed_list<T: Drop>(alloc: Global, list: Items<T>) -> Result<Boxed<Items<T>>, AllocError>
    ensures same { IfOk result (λ boxed. boxed ≡ list) }
{
    let list = fitted(alloc, list)?;
    Ok(Boxed::new(alloc, list)?)
}
