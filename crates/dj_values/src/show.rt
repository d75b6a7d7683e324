//! The observable trace of a bounded run.

ghost use Rattle.std.specs.Prelude.{◌≡◌, IfOk};

use crate::action::Action;
use crate::reference::RefValue;
use crate::value::Value;
use dj_names::Items;
use std::alloc::{AllocError, Global};

/// How far a run has come: it goes on, has returned, or has left by an exception.
#[derive(Drop)]
pub enum End {
    More,
    Return(Option<Value>),
    Throw(RefValue),
}

impl End {
    /// An equal end.
    pub fn copy(&self, alloc: Global) -> Result<End, AllocError>
        ensures equal { IfOk result (λ copy. copy ≡ self.now) }
    {
        match self {
            End::More => Ok(End::More),
            End::Return(None) => Ok(End::Return(None)),
            End::Return(Some(value)) => Ok(End::Return(Some(value.copy(alloc)?))),
            End::Throw(reference) => Ok(End::Throw(reference.copy(alloc)?)),
        }
    }
}

/// The actions of a run, the oldest first, and how far it has come.
#[derive(Drop)]
pub struct Show {
    pub actions: Items<Action>,
    pub end: End,
}

impl Show {
    /// An equal trace.
    pub fn copy(&self, alloc: Global) -> Result<Show, AllocError>
        ensures equal { IfOk result (λ copy. copy ≡ self.now) }
    {
        let mut actions = Items::new(alloc);
        for action in self.actions.as_slice() {
            actions.push(action.copy(alloc)?)?;
        }
        let end = self.end.copy(alloc)?;
        Ok(Show { actions, end })
    }
}
