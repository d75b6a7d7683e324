//! What the outside tells of an action.

ghost use Rattle.std.specs.Prelude.{◌≡◌, IfOk};

use crate::reference::RefValue;
use crate::value::Value;
use std::alloc::{AllocError, Global};

/// A value, that the action is done, or an exception.
#[derive(Drop)]
pub enum Answer {
    Value(Value),
    Done,
    Thrown(RefValue),
}

impl Answer {
    /// An equal answer.
    pub fn copy(&self, alloc: Global) -> Result<Answer, AllocError>
        ensures equal { IfOk result (λ copy. copy ≡ self.now) }
    {
        match self {
            Answer::Value(value) => Ok(Answer::Value(value.copy(alloc)?)),
            Answer::Done => Ok(Answer::Done),
            Answer::Thrown(reference) => Ok(Answer::Thrown(reference.copy(alloc)?)),
        }
    }
}
