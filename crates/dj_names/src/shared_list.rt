//! A list with several owners, which contracts see as the list.

ghost use Rattle.std.specs.Prelude.{◌≡◌, IfOk};

use std::alloc::{AllocError, Global};
use std::marker::Model;
use std::rc::Rc;

/// A list that is kept once, however many own it.
#[derive(Drop)]
pub struct SharedList<T> {
    inner: Rc<Vec<T>>,
}

impl<T> Model for SharedList<T> {
    ghost use Rattle.std.specs.Prelude.{List};
    ghost use Rattle.std.specs.Coded.{coded_list};

    ghost Value = { List T };

    ghost coded = { coded_list T.code };

    ghost view = { λ s. s.inner.value.items };
}

impl<T> SharedList<T> {
    pub fn as_slice(&self) -> &[T]
        ensures items { result.now ≡ self.now }
    {
        self.inner.as_ref().as_slice()
    }
}

impl<T: Drop> SharedList<T> {
    /// The list, with one owner.
    pub fn from_vec(alloc: Global, items: Vec<T>) -> Result<SharedList<T>, AllocError>
        ensures items { IfOk result (λ made. made ≡ items.items) }
    {
        Ok(SharedList {
            inner: Rc::new(alloc, items)?,
        })
    }

    /// The same list with one more owner. It takes no room; an error says that there are too many.
    pub fn share(&self) -> Result<SharedList<T>, AllocError>
        ensures same { IfOk result (λ shared. shared ≡ self.now) }
    {
        Ok(SharedList {
            inner: self.inner.clone()?,
        })
    }
}
