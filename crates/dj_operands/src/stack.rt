//! The operand stack (JVMS 2.6.2).

ghost use Rattle.std.specs.Prelude.{◌≡◌, ◌<◌, ◌+◌, ◌∷◌, ◌++◌, [], IfOk, OnOk, MatchOption, drop, slice_get, length, option_map};
ghost use Rattle.std.specs.Option.{option_copied};
ghost use Rattle.dj_values.specs.Views.{view_value};
ghost use Rattle.dj_operands.specs.Stacks.{top_down, stacked};

use dj_values::Value;
use std::alloc::{AllocError, Global};

/// A stack of values.
#[derive(Drop)]
pub struct Stack {
    /// The top last.
    values: Vec<Value>,
}

impl Stack {
    /// No values.
    pub fn new(alloc: Global) -> Stack
        ensures empty { stacked result ≡ [] }
    {
        Stack {
            values: Vec::new(alloc),
        }
    }

    /// Puts a value on top.
    pub fn push(&mut self, value: Value) -> Result<(), AllocError>
        ensures pushed { OnOk result (stacked self.new ≡ view_value value ∷ stacked self.old) }
    {
        self.values.push(value)?;
        Ok(())
    }

    /// Takes the value on top away.
    pub fn pop(&mut self) -> Option<Value>
        ensures popped { MatchOption result ((stacked self.old ≡ []) × (stacked self.new ≡ [])) (λ top. stacked self.old ≡ view_value top ∷ stacked self.new) }
    {
        self.values.pop()
    }

    /// The value at a place, the top being at 0.
    pub fn get(&self, place: usize) -> Option<&Value>
        ensures value { option_map view_value (option_copied result) ≡ slice_get (stacked self.now) place }
    {
        if place < self.values.len() {
            Some(&self.values[self.values.len() - 1 - place])
        } else {
            None
        }
    }

    /// Takes so many values away, in the order in which they were pushed; None where fewer are there.
    pub fn take(&mut self, count: usize) -> Result<Option<Vec<Value>>, AllocError>
        ensures taken { IfOk result (λ taken. MatchOption taken (length (stacked self.old) < count)
            (λ operands. (stacked self.old ≡ top_down operands.items ++ stacked self.new) × (length operands.items ≡ count))) }
    {
        if self.values.len() < count {
            return Ok(None);
        }
        let operands = self.values.split_off(self.values.len() - count)?;
        Ok(Some(operands))
    }

    /// Takes so many values away, and one below them.
    pub fn take_with_one(&mut self, count: usize) -> Result<Option<Vec<Value>>, AllocError>
        ensures taken { IfOk result (λ taken. MatchOption taken (length (stacked self.old) < count + 1)
            (λ operands. (stacked self.old ≡ top_down operands.items ++ stacked self.new) × (length operands.items ≡ count + 1))) }
    {
        if self.values.len() <= count {
            return Ok(None);
        }
        let operands = self.values.split_off(self.values.len() - count - 1)?;
        Ok(Some(operands))
    }

    /// Drops so many values from the top.
    pub fn shrink(&mut self, count: usize)
        ensures dropped { stacked self.new ≡ drop count (stacked self.old) }
    {
        let kept = self.values.len().saturating_sub(count);
        self.values.truncate(kept);
    }

    /// Drops all values.
    pub fn clear(&mut self)
        ensures empty { stacked self.new ≡ [] }
    {
        self.values.clear();
    }
}
