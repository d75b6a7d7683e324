//! Instructions that work on locals (JVMS 4.10.1.7).

ghost use Rattle.std.specs.Prelude.{◌≡◌, ◌<◌, ◌^◌, IsTrue, ◌↔◌, slice_get, slice_set, IfOk, OnOk};
ghost use Rattle.dj_frames.specs.Frames.{view_tag, view_tags};
ghost use Rattle.dj_code.specs.MethodCode.{view_code};
ghost use Rattle.dj_tags.specs.Goes.{words};
ghost use Rattle.dj_effects.specs.Works.{Loads, Stores, Counts};
ghost use Rattle.dj_effects.specs.Rows.{work};
ghost use Rattle.dj_effects.specs.Effects.{or_top, cut_below, stored, kind_words};
ghost use Rattle.dj_effects.specs.Doing.{view_working};
ghost use Rattle.dj_applying.specs.Done.{Did};

use dj_code::Code;
use dj_effects::{Working, has_kind};
use dj_frames::{Slots, Tag};
use dj_instructions::Kind;
use dj_tags::Goes;
use std::alloc::{AllocError, Global};

/// Loads a local of a kind.
pub fn load<G: Goes>(
    alloc: Global,
    _goes: &G,
    code: &Code,
    _pc: u32,
    frame: &mut Working,
    kind: Kind,
    slot: u16,
) -> Result<bool, AllocError>
    ensures did { IfOk result (λ done. Did (G.relation _goes.now) (G.known _goes.now) (view_code code.now) _pc (Loads kind slot) (view_working frame.old) done (view_working frame.new)) }
{
    if slot >= code.max_locals {
        return Ok(false);
    }
    match frame.locals.get(usize::from(slot)) {
        Some(tag) => {
            if !has_kind(kind, tag) {
                return Ok(false);
            }
            let tag = tag.copy(alloc)?;
            frame.stack.push(tag)?;
            Ok(true)
        }
        None => Ok(false),
    }
}

/// Adds to the int in a local.
pub fn count<G: Goes>(_goes: &G, code: &Code, _pc: u32, frame: &Working, slot: u16) -> bool
    ensures did { Did (G.relation _goes.now) (G.known _goes.now) (view_code code.now) _pc (Counts slot) (view_working frame.now) result (view_working frame.now) }
{
    if slot >= code.max_locals {
        return false;
    }
    match frame.locals.get(usize::from(slot)) {
        Some(tag) => matches!(tag, Tag::Int),
        None => false,
    }
}

/// Whether a value of two words begins in the slot.
fn is_wide(locals: &Slots, slot: usize) -> bool
    ensures wide { IsTrue result ↔ (words (or_top (slice_get (view_tags locals.now) slot)) ≡ 2) }
{
    match locals.get(slot) {
        Some(tag) => tag.words() == 2,
        None => false,
    }
}

/// Puts a tag into a slot, where there is one.
fn set(alloc: Global, locals: &mut Slots, slot: usize, tag: Tag) -> Result<(), AllocError>
    ensures set { OnOk result (view_tags locals.new ≡ slice_set (view_tags locals.old) slot (view_tag tag)) }
{
    if slot < locals.len() {
        locals.set(alloc, slot, tag)?;
    }
    Ok(())
}

/// Cuts a value of two words that begins right below the slot.
fn cut_below(alloc: Global, locals: &mut Slots, slot: usize) -> Result<(), AllocError>
    ensures cut { OnOk result (view_tags locals.new ≡ cut_below slot (view_tags locals.old)) }
{
    if slot > 0 && is_wide(locals, slot - 1) {
        set(alloc, locals, slot - 1, Tag::Top)?;
    }
    Ok(())
}

/// Puts a value into a slot, and into the next one too where it has two words.
fn put(alloc: Global, locals: &mut Slots, slot: usize, tag: Tag) -> Result<(), AllocError>
    requires small { slot < 2 ^ 16 }
    ensures stored { OnOk result (view_tags locals.new ≡ stored slot (view_tag tag) (view_tags locals.old)) }
{
    let words = tag.words();
    cut_below(alloc, locals, slot)?;
    set(alloc, locals, slot, tag)?;
    if words == 2 {
        set(alloc, locals, slot + 1, Tag::Top)?;
    }
    Ok(())
}

/// Stores a value of a kind in a local.
pub fn store<G: Goes>(
    alloc: Global,
    _goes: &G,
    code: &Code,
    _pc: u32,
    frame: &mut Working,
    kind: Kind,
    slot: u16,
) -> Result<bool, AllocError>
    ensures did { IfOk result (λ done. Did (G.relation _goes.now) (G.known _goes.now) (view_code code.now) _pc (Stores kind slot) (view_working frame.old) done (view_working frame.new)) }
{
    match frame.stack.peek(0) {
        Some(tag) => {
            if !has_kind(kind, tag) {
                return Ok(false);
            }
            let tag = tag.copy(alloc)?;
            put(alloc, &mut frame.locals, usize::from(slot), tag)?;
            frame.stack.remove(1);
            Ok(true)
        }
        None => Ok(false),
    }
}

/// The words of a kind of values.
pub fn kind_words(kind: Kind) -> usize
    ensures words { result ≡ kind_words kind }
{
    match kind {
        Kind::Long | Kind::Double => 2,
        Kind::Int | Kind::Float | Kind::Ref => 1,
    }
}
