//! The operand stack as an instruction works on it.

ghost use Rattle.std.specs.Prelude.{◌≡◌, ◌↔◌, ◌<◌, ◌≤◌, ◌+◌, ◌∷◌, ◌++◌, flat_map, length, map, drop, slice_get, IfNone, IfOk, IfSome, IsTrue, OnOk};
ghost use Rattle.std.specs.List.{list_any};
ghost use Rattle.std.specs.Option.{option_copied};
ghost use Rattle.dj_frames.specs.Frames.{view_tag, view_tags, slots_of, is_unborn};
ghost use Rattle.dj_tags.specs.Goes.{reversed};
ghost use Rattle.dj_effects.specs.Effects.{instead};
ghost use Rattle.dj_effects.specs.Stacked.{tags_of};

use crate::unborn::{is_kept, replace_all};
use dj_frames::{Slots, Tag, Unborn, is_unborn};
use smallvec::SmallVec;
use std::alloc::{AllocError, Global};
use std::default::MadeWith;
use std::marker::Model;

/// How many pushed entries take no memory.
const FEW: usize = 4;

/// How many pushed entries lie apart from what was there before.
const MOST: usize = 16;

/// An entry of the stack.
#[derive(Drop)]
pub struct Entry {
    pub tag: Tag,
}

impl MadeWith<Global> for Entry {
    ghost use Rattle.std.specs.Prelude.{◌≡◌};
    ghost use Rattle.dj_frames.specs.declared.tag.Tag.TheVariants.{Top};

    ghost is_made_with = { λ e. e.tag ≡ Top };

    fn made_with(_alloc: Global) -> Entry {
        Entry { tag: Tag::Top }
    }
}

/// An operand stack, which contracts see from the top down. What was there before is shared; what an
/// instruction pushes lies on it.
#[derive(Drop)]
pub struct Stack {
    below: Slots,
    top: SmallVec<Entry, FEW>,
}

impl Model for Stack {
    ghost use Rattle.std.specs.Prelude.{List};
    ghost use Rattle.std.specs.Coded.{coded_list};
    ghost use Rattle.dj_frames.specs.declared.tag.Tag as spec;
    ghost use Rattle.dj_frames.specs.contracts.tag.Tag.{the_row};

    ghost Value = { List spec.Tag };

    ghost coded = { coded_list the_row.coded };

    ghost use Rattle.dj_effects.specs.Stacked.{stacked};

    ghost view = { λ s. stacked s.below s.top.items };
}

/// Puts entries on a stack that is listed from the bottom up.
fn settle(alloc: Global, below: &mut Slots, top: &[Entry]) -> Result<(), AllocError>
    ensures ok { OnOk result (below.new ≡ below.old ++ tags_of top.now) }
{
    for entry in top {
        below.push(alloc, entry.tag.copy(alloc)?)?;
    }
    Ok(())
}

/// How many of so many words these entries leave; none where they take more.
fn words_left(top: &[Entry], most: usize) -> Option<usize>
    ensures left { IfSome result (λ left. length (flat_map slots_of (view_tags (tags_of top.now))) + left ≡ most) }
    ensures none { IfNone result (most < length (flat_map slots_of (view_tags (tags_of top.now)))) }
{
    let mut left = most;
    for entry in top {
        let words = entry.tag.words();
        if left < words {
            return None;
        }
        left -= words;
    }
    Some(left)
}

/// Whether an entry is the object.
fn is_pushed(top: &[Entry], unborn: Unborn) -> bool
    ensures pushed { result ≡ list_any (is_unborn unborn) (view_tags (tags_of top.now)) }
{
    for entry in top {
        if is_unborn(unborn, &entry.tag) {
            return true;
        }
    }
    false
}

impl Stack {
    /// A stack of these entries, which are listed from the bottom up.
    pub fn from_slots(alloc: Global, slots: &Slots) -> Result<Stack, AllocError>
        ensures same { IfOk result (λ stack. stack ≡ reversed slots.now) }
    {
        Ok(Stack {
            below: slots.copy(alloc)?,
            top: SmallVec::new(alloc),
        })
    }

    /// The entry with so many on top of it.
    pub fn peek(&self, depth: usize) -> Option<&Tag>
        ensures entry { option_copied result ≡ slice_get self.now depth }
    {
        let top = self.top.as_slice();
        if depth < top.len() {
            return Some(&top[top.len() - 1 - depth].tag);
        }
        let depth = depth - top.len();
        if depth < self.below.len() {
            return self.below.get(self.below.len() - 1 - depth);
        }
        None
    }

    /// Whether the entries take no more than so many words: a Long or a Double takes two, each other one.
    pub fn fits(&self, most: u16) -> bool
        ensures fits { IsTrue result ↔ (length (flat_map slots_of (view_tags self.now)) ≤ most) }
    {
        match words_left(self.top.as_slice(), usize::from(most)) {
            Some(left) => self.below.words() <= left,
            None => false,
        }
    }

    /// The entries from the bottom up. They are those of the stack too from now on, and shared.
    pub fn slots(&mut self, alloc: Global) -> Result<Slots, AllocError>
        ensures slots { IfOk result (λ slots. reversed slots ≡ self.old) }
        ensures same { OnOk result (self.new ≡ self.old) }
    {
        settle(alloc, &mut self.below, self.top.as_slice())?;
        self.top.clear();
        let slots = self.below.copy(alloc)?;
        Ok(slots)
    }

    /// Lays what was pushed with what was there before, where it is more than 16 entries.
    pub fn settle(&mut self, alloc: Global) -> Result<(), AllocError>
        ensures same { OnOk result (self.new ≡ self.old) }
    {
        if self.top.len() > MOST {
            self.slots(alloc)?;
        }
        Ok(())
    }

    /// Puts an entry on top.
    pub fn push(&mut self, tag: Tag) -> Result<(), AllocError>
        ensures ok { OnOk result (self.new ≡ tag ∷ self.old) }
    {
        self.top.push(Entry { tag })?;
        Ok(())
    }

    /// Takes so many entries from the top, or all that there are.
    pub fn remove(&mut self, count: usize)
        ensures rest { self.new ≡ drop count self.old }
    {
        let top = self.top.len();
        if count <= top {
            self.top.truncate(top - count);
        } else {
            self.top.clear();
            self.below
                .truncate(self.below.len().saturating_sub(count - top));
        }
    }

    /// Whether the object, which isn't constructed yet, is on the stack.
    pub fn holds(&self, unborn: Unborn) -> bool
        ensures holds { result ≡ list_any (is_unborn unborn) (view_tags self.now) }
    {
        is_pushed(self.top.as_slice(), unborn) || is_kept(&self.below, unborn)
    }

    /// Puts a tag in place of the object wherever it is on the stack.
    pub fn replace(&mut self, alloc: Global, unborn: Unborn, now: &Tag) -> Result<(), AllocError>
        ensures ok { OnOk result (view_tags self.new ≡ map (instead (is_unborn unborn) (view_tag now.now)) (view_tags self.old)) }
    {
        settle(alloc, &mut self.below, self.top.as_slice())?;
        self.top.clear();
        replace_all(alloc, &mut self.below, unborn, now)?;
        Ok(())
    }
}
