//! The locals of a method as they change from frame to frame (JVMS 4.7.4).

ghost use Rattle.std.specs.Prelude.{◌≡◌, ◌<◌, ◌≤◌, ◌-◌, ◌++◌, ◌∷◌, [], length, take, flat_map, position, IfOk, OnOk, IsTrue, MatchOption, List};
ghost use Rattle.dj_frames.specs.Frames.{view_tag, view_tags, view_frame, slots_of, is_unborn_this, frame_of};
ghost use Rattle.dj_frames.specs.declared.tag.Tag as spec_tag;
ghost use Rattle.dj_frames.specs.Locals.{IsFront};

use crate::frame::Frame;
use crate::slots::Slots;
use crate::tag::Tag;
use dj_names::Items;
use std::alloc::{AllocError, Global};
use std::marker::Model;

/// The values of locals, the slots that they take, and the place of the first that is UnbornThis.
/// A frame shares the slots.
#[derive(Drop)]
pub struct Locals {
    values: Items<Tag>,
    slots: Slots,
    unborn: Option<usize>,
}

impl Model for Locals {
    ghost use Rattle.std.specs.Prelude.{List};
    ghost use Rattle.std.specs.Coded.{coded_list};
    ghost use Rattle.dj_frames.specs.declared.tag.Tag as spec;
    ghost use Rattle.dj_frames.specs.contracts.tag.Tag.{the_row};

    ghost Value = { List spec.Tag };

    ghost coded = { coded_list the_row.coded };

    ghost use Rattle.dj_frames.specs.Locals.{IsSpread};

    ghost view = { λ l. l.values };

    ghost invariant = { λ l. IsSpread l.values l.slots l.unborn };
}

/// Puts a value behind others, over the slots that it takes.
fn push_value(alloc: Global, slots: &mut Items<Tag>, value: &Tag) -> Result<(), AllocError>
    ensures ok { OnOk result (view_tags slots.new ≡ view_tags slots.old ++ slots_of (view_tag value.now)) }
{
    slots.push(value.copy(alloc)?)?;
    if value.words() == 2 {
        slots.push(Tag::Top)?;
    }
    Ok(())
}

/// The slots that values take.
fn spread(alloc: Global, values: &[Tag]) -> Result<Items<Tag>, AllocError>
    ensures spread { IfOk result (λ slots. view_tags slots ≡ flat_map slots_of (view_tags values.now)) }
{
    let room = values.len().saturating_mul(2);
    let mut slots = Items::from_vec(Vec::with_capacity(alloc, room)?);
    for value in values {
        push_value(alloc, &mut slots, value)?;
    }
    Ok(slots)
}

/// Whether each value takes one slot.
fn is_narrow(values: &[Tag]) -> bool
    ensures narrow { IsTrue result → flat_map slots_of (view_tags values.now) ≡ view_tags values.now }
{
    for value in values {
        if value.words() == 2 {
            return false;
        }
    }
    true
}

/// The slots that values take, as a list that can be shared.
fn slots_of(alloc: Global, values: &[Tag]) -> Result<Slots, AllocError>
    ensures spread { IfOk result (λ slots. view_tags slots ≡ flat_map slots_of (view_tags values.now)) }
{
    if is_narrow(values) {
        return Slots::from_slice(alloc, values);
    }
    let spread = spread(alloc, values)?;
    let slots = Slots::from_items(alloc, spread)?;
    Ok(slots)
}

/// Puts values behind others, over the slots that they take.
fn push_values(alloc: Global, slots: &mut Slots, values: &[Tag]) -> Result<(), AllocError>
    ensures ok { OnOk result (view_tags slots.new ≡ view_tags slots.old ++ flat_map slots_of (view_tags values.now)) }
{
    if is_narrow(values) {
        slots.append(alloc, values)?;
        return Ok(());
    }
    let spread = spread(alloc, values)?;
    slots.append(alloc, spread.as_slice())?;
    Ok(())
}

/// The place of the first UnbornThis, by that among so many first values.
fn first_unborn(values: &[Tag], known: usize, unborn: Option<usize>) -> Option<usize>
    requires within { known ≤ length values.now }
    requires known { unborn ≡ position is_unborn_this (view_tags (take known values.now)) }
    ensures first { result ≡ position is_unborn_this (view_tags values.now) }
{
    if let Some(at) = unborn {
        return Some(at);
    }
    for place in known..values.len() {
        if values[place].is_unborn_this() {
            return Some(place);
        }
    }
    None
}

/// The place of the first UnbornThis among so many first values.
fn unborn_before(unborn: Option<usize>, count: usize) -> Option<usize>
    ensures first { (values front : List spec_tag.Tag) → unborn ≡ position is_unborn_this (view_tags values) → IsFront front values → count ≡ length front → result ≡ position is_unborn_this (view_tags front) }
{
    match unborn {
        Some(at) => { if at < count { Some(at) } else { None } }
        None => None,
    }
}

impl Locals {
    /// Locals with these values.
    pub fn from_values(alloc: Global, values: Items<Tag>) -> Result<Locals, AllocError>
        ensures same { IfOk result (λ now. now ≡ values) }
    {
        let slots = slots_of(alloc, values.as_slice())?;
        let unborn = first_unborn(values.as_slice(), 0, None);
        Ok(Locals {
            values,
            slots,
            unborn,
        })
    }

    /// No values.
    pub fn none(alloc: Global) -> Locals
        ensures none { result ≡ [] }
    {
        Locals {
            values: Items::new(alloc),
            slots: Slots::new(),
            unborn: None,
        }
    }

    /// The locals with these values behind them.
    pub fn with_all(self, alloc: Global, more: Items<Tag>) -> Result<Locals, AllocError>
        ensures more { IfOk result (λ now. now ≡ self ++ more) }
    {
        let Locals {
            mut values,
            mut slots,
            unborn,
        } = self;
        push_values(alloc, &mut slots, more.as_slice())?;
        let known = values.len();
        values.append(more)?;
        let unborn = first_unborn(values.as_slice(), known, unborn);
        Ok(Locals {
            values,
            slots,
            unborn,
        })
    }

    /// Takes the last value away; None where there is none.
    fn chop_last(&mut self) -> Option<()>
        ensures fewer { MatchOption result (self.old ≡ []) (λ _. IsFront self.new self.old) }
    {
        let last = self.values.pop()?;
        let left = self.slots.len() - last.words();
        self.slots.truncate(left);
        self.unborn = unborn_before(self.unborn, self.values.len());
        Some(())
    }

    /// Takes so many last values away; None where there are fewer.
    pub fn chop(&mut self, count: u8) -> Option<()>
        ensures fewer { MatchOption result (length self.old < count) (λ _. self.new ≡ take (length self.old - count) self.old) }
        ensures enough { MatchOption result (length self.old < count) (λ _. count ≤ length self.old) }
    {
        for _ in 0..count {
            self.chop_last()?;
        }
        Some(())
    }

    /// The frame with these locals and this stack.
    pub fn frame(&self, alloc: Global, stack: Slots) -> Result<Frame, AllocError>
        ensures frame { IfOk result (λ frame. view_frame frame ≡ frame_of (view_tags self.now) (view_tags stack)) }
    {
        let locals = self.slots.copy(alloc)?;
        Ok(Frame {
            locals,
            stack,
            unborn_this: self.unborn.is_some(),
        })
    }
}
