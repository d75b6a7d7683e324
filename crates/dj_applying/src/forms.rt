//! The instructions that rearrange the stack (JVMS 6.5, `pop` to `swap`).

ghost use Rattle.std.specs.Prelude.{◌≡◌, ◌++◌, ◌↔◌, Some, IsTrue, map, take, drop, option_map, slice_get, IfOk, OnOk};
ghost use Rattle.std.specs.Option.{option_copied};
ghost use Rattle.dj_frames.specs.Frames.{view_tag, view_tags};
ghost use Rattle.dj_effects.specs.Works.{Moves};
ghost use Rattle.dj_effects.specs.Operands.{moved_words, begins, form_of};
ghost use Rattle.dj_effects.specs.Effects.{picked, moved};
ghost use Rattle.dj_effects.specs.Doing.{view_working};
ghost use Rattle.dj_applying.specs.Done.{view_form, Did};
ghost use Rattle.dj_code.specs.MethodCode.{view_code};

use dj_code::Code;
use dj_effects::{Stack, Working};
use dj_frames::Tag;
use dj_names::Items;
use dj_tags::Goes;
use std::alloc::{AllocError, Global};

/// The words of the entries that are taken, and the places among them of those that are put back; the
/// top first in both.
#[derive(Clone, Copy)]
pub struct Form {
    pub takes: &'static [u8],
    pub gives: &'static [u8],
}

pub const POP: [Form; 1] = [Form {
    takes: &[1],
    gives: &[],
}];

pub const POP2: [Form; 2] = [
    Form {
        takes: &[1, 1],
        gives: &[],
    },
    Form {
        takes: &[2],
        gives: &[],
    },
];

pub const DUP: [Form; 1] = [Form {
    takes: &[1],
    gives: &[0, 0],
}];

pub const DUP_X1: [Form; 1] = [Form {
    takes: &[1, 1],
    gives: &[0, 1, 0],
}];

pub const DUP_X2: [Form; 2] = [
    Form {
        takes: &[1, 1, 1],
        gives: &[0, 1, 2, 0],
    },
    Form {
        takes: &[1, 2],
        gives: &[0, 1, 0],
    },
];

pub const DUP2: [Form; 2] = [
    Form {
        takes: &[1, 1],
        gives: &[0, 1, 0, 1],
    },
    Form {
        takes: &[2],
        gives: &[0, 0],
    },
];

pub const DUP2_X1: [Form; 2] = [
    Form {
        takes: &[1, 1, 1],
        gives: &[0, 1, 2, 0, 1],
    },
    Form {
        takes: &[2, 1],
        gives: &[0, 1, 0],
    },
];

pub const DUP2_X2: [Form; 4] = [
    Form {
        takes: &[1, 1, 1, 1],
        gives: &[0, 1, 2, 3, 0, 1],
    },
    Form {
        takes: &[2, 1, 1],
        gives: &[0, 1, 2, 0],
    },
    Form {
        takes: &[1, 1, 2],
        gives: &[0, 1, 2, 0, 1],
    },
    Form {
        takes: &[2, 2],
        gives: &[0, 1, 0],
    },
];

pub const SWAP: [Form; 1] = [Form {
    takes: &[1, 1],
    gives: &[1, 0],
}];

/// The words of an entry that is moved, 0 where nothing takes it.
fn moved_words(tag: &Tag) -> u8
    ensures words { result ≡ moved_words (view_tag tag.now) }
{
    match tag {
        Tag::Top => 0,
        Tag::Double | Tag::Long => 2,
        Tag::Int | Tag::Float | Tag::Null | Tag::UnbornThis | Tag::Object(_) | Tag::Unborn(_) => 1,
    }
}

/// Whether the entry with so many on top of it has these words.
fn has_words(stack: &Stack, depth: usize, words: u8) -> bool
    ensures words { IsTrue result ↔ (slice_get (map moved_words (view_tags stack.now)) depth ≡ Some words) }
{
    match stack.peek(depth) {
        Some(tag) => moved_words(tag) == words,
        None => false,
    }
}

/// Whether the stack begins with entries of these words.
fn begins(stack: &Stack, takes: &[u8]) -> bool
    ensures begins { result ≡ begins takes.now (map moved_words (view_tags stack.now)) }
{
    for depth in 0..takes.len() {
        if !has_words(stack, depth, takes[depth]) {
            return false;
        }
    }
    true
}

/// The first form that fits the stack.
pub fn form_of<'a>(stack: &Stack, forms: &'a [Form]) -> Option<&'a Form>
    ensures first { option_map view_form (option_copied result) ≡ form_of (map view_form forms.now) (map moved_words (view_tags stack.now)) }
{
    for form in forms {
        if begins(stack, form.takes) {
            return Some(form);
        }
    }
    None
}

/// Puts the entry at a place behind others, where there is one.
fn pick(alloc: Global, stack: &Stack, place: usize, tags: &mut Items<Tag>) -> Result<(), AllocError>
    ensures ok { OnOk result (view_tags tags.new ≡ view_tags tags.old ++ take 1 (drop place (view_tags stack.now))) }
{
    match stack.peek(place) {
        Some(tag) => {
            tags.push(tag.copy(alloc)?)?;
            Ok(())
        }
        None => Ok(()),
    }
}

/// The entries at these places.
fn picked(alloc: Global, stack: &Stack, places: &[u8]) -> Result<Items<Tag>, AllocError>
    ensures picked { IfOk result (λ tags. view_tags tags ≡ picked places.now (view_tags stack.now)) }
{
    let mut tags = Items::new(alloc);
    for place in places {
        pick(alloc, stack, usize::from(*place), &mut tags)?;
    }
    Ok(tags)
}

/// Puts entries on the stack, the first one on top.
fn push_all(alloc: Global, stack: &mut Stack, tags: &[Tag]) -> Result<(), AllocError>
    ensures ok { OnOk result (stack.new ≡ tags.now ++ stack.old) }
{
    for place in 0..tags.len() {
        stack.push(tags[tags.len() - 1 - place].copy(alloc)?)?;
    }
    Ok(())
}

/// Rearranges the stack in a form.
fn rearrange(alloc: Global, stack: &mut Stack, form: &Form) -> Result<(), AllocError>
    ensures ok { OnOk result (view_tags stack.new ≡ moved (Some (view_form form.now)) (view_tags stack.old)) }
{
    let tags = picked(alloc, stack, form.gives)?;
    stack.remove(form.takes.len());
    push_all(alloc, stack, tags.as_slice())?;
    Ok(())
}

/// Rearranges the stack in the first of these forms that fits.
pub fn moves<G: Goes>(
    alloc: Global,
    _goes: &G,
    code: &Code,
    _pc: u32,
    frame: &mut Working,
    forms: &[Form],
) -> Result<bool, AllocError>
    ensures did { IfOk result (λ done. Did (G.relation _goes.now) (G.known _goes.now) (view_code code.now) _pc (Moves (map view_form forms.now)) (view_working frame.old) done (view_working frame.new)) }
{
    match form_of(&frame.stack, forms) {
        Some(form) => {
            rearrange(alloc, &mut frame.stack, form)?;
            Ok(true)
        }
        None => Ok(false),
    }
}
