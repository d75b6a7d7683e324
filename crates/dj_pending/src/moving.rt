//! What becomes of entries whatever they are (JVMS 2.11.2, 6.5, `pop` to `swap`).

ghost use Rattle.std.specs.Prelude.{◌≡◌, ◌↔◌, ◌++◌, List, Some, IsTrue, map, slice_get, slice_index_or, option_map, IfOk, OnOk};
ghost use Rattle.std.specs.Option.{option_copied};
ghost use Rattle.dj_names.specs.Types.{Null, view_static};
ghost use Rattle.dj_rebuilding.specs.Pending.{Nothing, Kept};
ghost use Rattle.dj_rebuilt.specs.Moving as spec;
ghost use Rattle.dj_pending.specs.Entries.{view_entry};
ghost use Rattle.dj_pending.specs.Stacks.{stacked};
ghost use Rattle.dj_pending.specs.Forms.{view_form, form_of, as_shuffled};

use crate::entry::{Atom, Entry};
use crate::stack::Stack;
use dj_names::{Items, JType, StaticType};
use std::alloc::{AllocError, Global};

/// The words of the entries that are taken, and the places among them of those that are put back; the
/// top first in both.
#[derive(Clone, Copy)]
pub struct Form {
    takes: &'static [u8],
    gives: &'static [usize],
}

pub const POP: [Form; 1] = [Form {
    takes: &[1],
    gives: &[],
}];

pub const POP2: [Form; 2] = [
    Form {
        takes: &[1, 1],
        gives: &[],
    },
    Form {
        takes: &[2],
        gives: &[],
    },
];

pub const DUP: [Form; 1] = [Form {
    takes: &[1],
    gives: &[0, 0],
}];

pub const DUP_X1: [Form; 1] = [Form {
    takes: &[1, 1],
    gives: &[0, 1, 0],
}];

pub const DUP_X2: [Form; 2] = [
    Form {
        takes: &[1, 1, 1],
        gives: &[0, 1, 2, 0],
    },
    Form {
        takes: &[1, 2],
        gives: &[0, 1, 0],
    },
];

pub const DUP2: [Form; 2] = [
    Form {
        takes: &[1, 1],
        gives: &[0, 1, 0, 1],
    },
    Form {
        takes: &[2],
        gives: &[0, 0],
    },
];

pub const DUP2_X1: [Form; 2] = [
    Form {
        takes: &[1, 1, 1],
        gives: &[0, 1, 2, 0, 1],
    },
    Form {
        takes: &[2, 1],
        gives: &[0, 1, 0],
    },
];

pub const DUP2_X2: [Form; 4] = [
    Form {
        takes: &[1, 1, 1, 1],
        gives: &[0, 1, 2, 3, 0, 1],
    },
    Form {
        takes: &[2, 1, 1],
        gives: &[0, 1, 2, 0],
    },
    Form {
        takes: &[1, 1, 2],
        gives: &[0, 1, 2, 0, 1],
    },
    Form {
        takes: &[2, 2],
        gives: &[0, 1, 0],
    },
];

pub const SWAP: [Form; 1] = [Form {
    takes: &[1, 1],
    gives: &[1, 0],
}];

/// How many words values of a type take.
pub fn type_words(kind: &StaticType) -> u8
    ensures words { result ≡ spec.type_words (view_static kind.now) }
{
    match kind {
        StaticType::Of(JType::Long) => 2,
        StaticType::Null
        | StaticType::Of(
            JType::Boolean
            | JType::Byte
            | JType::Char
            | JType::Short
            | JType::Int
            | JType::Float
            | JType::Double
            | JType::Class(_)
            | JType::Array(_),
        ) => 1,
    }
}

/// How many words an entry's value takes.
fn words(entry: &Entry) -> u8
    ensures words { result ≡ spec.entry_words (view_entry entry.now) }
{
    match entry {
        Entry::Kept(kind, _) => type_words(kind),
        Entry::Whole(kind, _) => type_words(kind),
        Entry::Born(_) => 1,
        Entry::Again => 1,
    }
}

/// Whether the entry at a place has these words.
fn has_word(stack: &Stack, place: usize, wanted: u8) -> bool
    ensures word { IsTrue result ↔ (slice_get (map spec.entry_words (stacked stack.now)) place ≡ Some wanted) }
{
    match stack.get(place) {
        Some(entry) => words(entry) == wanted,
        None => false,
    }
}

/// Whether the topmost entries have these words.
fn has_words(stack: &Stack, takes: &[u8]) -> bool
    ensures words { result ≡ spec.have_words takes.now (stacked stack.now) }
{
    for place in 0..takes.len() {
        if !has_word(stack, place, takes[place]) {
            return false;
        }
    }
    true
}

/// The first form that fits the stack.
fn form_of<'a>(stack: &Stack, forms: &'a [Form]) -> Option<&'a Form>
    ensures first { option_map view_form (option_copied result) ≡ form_of (map view_form forms.now) (stacked stack.now) }
{
    for form in forms {
        if has_words(stack, form.takes) {
            return Some(form);
        }
    }
    None
}

/// A copy of the entry at a place, null where there is none.
fn copied(alloc: Global, place: usize, stack: &Stack) -> Result<Entry, AllocError>
    ensures copied { IfOk result (λ copy. view_entry copy ≡ slice_index_or (stacked stack.now) place (Kept Null Nothing)) }
{
    match stack.get(place) {
        Some(entry) => Ok(entry.copy(alloc)?),
        None => Ok(Entry::Kept(StaticType::Null, Atom::Nothing)),
    }
}

/// Copies of the entries at these places.
fn copies(alloc: Global, places: &[usize], stack: &Stack) -> Result<Items<Entry>, AllocError>
    ensures copied { IfOk result (λ copies. map view_entry copies ≡ map (λ place. slice_index_or (stacked stack.now) place (Kept Null Nothing)) places.now) }
{
    let mut copies = Items::new(alloc);
    for place in places {
        copies.push(copied(alloc, *place, stack)?)?;
    }
    Ok(copies)
}

/// Puts entries on the stack, the first on top.
fn put(entries: Items<Entry>, stack: &mut Stack) -> Result<(), AllocError>
    ensures put { OnOk result (stacked stack.new ≡ map view_entry entries ++ stacked stack.old) }
{
    let mut left = entries;
    while let Some(entry) = left.pop() {
        stack.push(entry)?;
    }
    Ok(())
}

/// Moves the entries of the stack in a form.
fn rearrange(alloc: Global, form: &Form, stack: &mut Stack) -> Result<(), AllocError>
    ensures moved { OnOk result (stacked stack.new ≡ spec.moved_entries (view_form form.now) (stacked stack.old)) }
{
    let copies = copies(alloc, form.gives, stack)?;
    stack.shrink(form.takes.len());
    put(copies, stack)?;
    Ok(())
}

/// Moves the entries of the stack in the first of these forms that fits; false where none does.
pub fn moves(alloc: Global, forms: &[Form], stack: &mut Stack) -> Result<bool, AllocError>
    ensures moved { IfOk result (λ done. as_shuffled done (stacked stack.new) ≡ spec.shuffled_entries (map view_form forms.now) (stacked stack.old)) }
{
    match form_of(stack, forms) {
        Some(form) => {
            rearrange(alloc, form, stack)?;
            Ok(true)
        }
        None => Ok(false),
    }
}
