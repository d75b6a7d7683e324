//! The stack of pending expressions (JVMS 2.6.2).

ghost use Rattle.std.specs.Prelude.{◌≡◌, ◌∷◌, [], OnOk, MatchOption, drop, slice_get, option_map};
ghost use Rattle.std.specs.Option.{option_copied};
ghost use Rattle.dj_pending.specs.Births.{has_birth, is_born};
ghost use Rattle.dj_pending.specs.Stacks.{stacked};
ghost use Rattle.dj_pending.specs.Entries.{view_entry};

use crate::entry::Entry;
use std::alloc::{AllocError, Global};

/// A stack of entries.
#[derive(Drop)]
pub struct Stack {
    /// The top last.
    entries: Vec<Entry>,
}

impl Stack {
    /// No entries.
    pub fn new(alloc: Global) -> Stack
        ensures empty { stacked result ≡ [] }
    {
        Stack {
            entries: Vec::new(alloc),
        }
    }

    /// Puts an entry on top.
    pub fn push(&mut self, entry: Entry) -> Result<(), AllocError>
        ensures pushed { OnOk result (stacked self.new ≡ view_entry entry ∷ stacked self.old) }
    {
        self.entries.push(entry)?;
        Ok(())
    }

    /// Takes the entry on top away.
    pub fn pop(&mut self) -> Option<Entry>
        ensures popped { MatchOption result ((stacked self.old ≡ []) × (stacked self.new ≡ [])) (λ top. stacked self.old ≡ view_entry top ∷ stacked self.new) }
    {
        self.entries.pop()
    }

    /// The entry at a place, the top being at 0.
    pub fn get(&self, place: usize) -> Option<&Entry>
        ensures entry { option_map view_entry (option_copied result) ≡ slice_get (stacked self.now) place }
    {
        if place < self.entries.len() {
            Some(&self.entries[self.entries.len() - 1 - place])
        } else {
            None
        }
    }

    /// Drops so many entries from the top.
    pub fn shrink(&mut self, count: usize)
        ensures dropped { stacked self.new ≡ drop count (stacked self.old) }
    {
        let kept = self.entries.len().saturating_sub(count);
        self.entries.truncate(kept);
    }

    /// Whether an object whose birth has begun lies on the stack.
    pub fn has_birth(&self) -> bool
        ensures birth { result ≡ has_birth (stacked self.now) }
    {
        for entry in &self.entries {
            if entry.is_unborn() {
                return true;
            }
        }
        false
    }

    /// Whether an object whose birth has begun is on top.
    pub fn is_born(&self) -> bool
        ensures born { result ≡ is_born (stacked self.now) }
    {
        match self.get(0) {
            Some(entry) => entry.is_born(),
            None => false,
        }
    }
}
