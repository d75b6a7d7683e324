//! The slots of a frame are numbered.

ghost use Rattle.std.specs.Prelude.{◌≡◌, ◌+◌, length, map, OnOk};
ghost use Rattle.dj_frames.specs.Frames.{view_frame, view_tags};
ghost use Rattle.dj_numbers.specs.Numbers.{IsChained, view_variables, number_of_any, with_variable, with_slots};
ghost use Rattle.dj_numbers.specs.Frames.{ArePlain, frame_type, view_first, with_first, with_frames};

use crate::kinds::{PlainTypes, frame_tag};
use crate::numbers::{Numbers, find};
use dj_frames::Frame;
use std::alloc::{AllocError, Global};

/// Gives the variable of a slot a number, where the frame gives the slot a type and there is none yet.
fn add_slot(
    alloc: Global,
    plain: &PlainTypes,
    most: u16,
    frame: &Frame,
    slot: usize,
    numbers: &mut Numbers,
) -> Result<(), AllocError>
    requires plain { ArePlain plain.now }
    requires chained { IsChained numbers.old.variables numbers.old.lasts }
    ensures chained { OnOk result (IsChained numbers.new.variables numbers.new.lasts) }
    ensures variables { OnOk result (view_variables numbers.new.variables ≡ with_variable (view_variables numbers.old.variables) slot (frame_type most (view_frame frame.now) slot)) }
{
    match plain.of_tag(frame_tag(most, frame, slot)) {
        Some(kind) => {
            numbers.add(alloc, slot, kind)?;
            Ok(())
        }
        None => Ok(()),
    }
}

/// Gives the variables of a frame's slots their numbers, slot by slot: of so many locals, and of the
/// entries of the stack from the bottom; an error says that memory is wanting, or that there are too many.
pub fn add_frame(
    alloc: Global,
    plain: &PlainTypes,
    most: u16,
    frame: &Frame,
    numbers: &mut Numbers,
) -> Result<(), AllocError>
    requires plain { ArePlain plain.now }
    requires chained { IsChained numbers.old.variables numbers.old.lasts }
    ensures chained { OnOk result (IsChained numbers.new.variables numbers.new.lasts) }
    ensures variables { OnOk result (view_variables numbers.new.variables ≡ with_slots (view_variables numbers.old.variables) (frame_type most (view_frame frame.now)) (most + length (view_frame frame.now).stack)) }
{
    let count = match (most as usize).checked_add(frame.stack.len()) {
        Some(count) => count,
        None => return Err(AllocError),
    };
    for slot in 0..count {
        add_slot(alloc, plain, most, frame, slot, numbers)?;
    }
    Ok(())
}

/// Likewise of a frame, where it is there.
fn add_first(
    alloc: Global,
    plain: &PlainTypes,
    most: u16,
    first: &Option<Frame>,
    numbers: &mut Numbers,
) -> Result<(), AllocError>
    requires plain { ArePlain plain.now }
    requires chained { IsChained numbers.old.variables numbers.old.lasts }
    ensures chained { OnOk result (IsChained numbers.new.variables numbers.new.lasts) }
    ensures variables { OnOk result (view_variables numbers.new.variables ≡ with_first most (view_variables numbers.old.variables) (view_first first.now)) }
{
    match first {
        Some(frame) => add_frame(alloc, plain, most, frame, numbers),
        None => Ok(()),
    }
}

/// Likewise of frames, one after another.
pub fn add_frames(
    alloc: Global,
    plain: &PlainTypes,
    most: u16,
    firsts: &[Option<Frame>],
    numbers: &mut Numbers,
) -> Result<(), AllocError>
    requires plain { ArePlain plain.now }
    requires chained { IsChained numbers.old.variables numbers.old.lasts }
    ensures chained { OnOk result (IsChained numbers.new.variables numbers.new.lasts) }
    ensures variables { OnOk result (view_variables numbers.new.variables ≡ with_frames most (view_variables numbers.old.variables) (map view_first firsts.now)) }
{
    for first in firsts {
        add_first(alloc, plain, most, first, numbers)?;
    }
    Ok(())
}

/// The number of a slot's variable by a frame, if it has one.
pub fn number_by(
    plain: &PlainTypes,
    most: u16,
    frame: &Frame,
    slot: usize,
    numbers: &Numbers,
) -> Option<u32>
    requires plain { ArePlain plain.now }
    requires chained { IsChained numbers.now.variables numbers.now.lasts }
    ensures number { result ≡ number_of_any (view_variables numbers.now.variables) slot (frame_type most (view_frame frame.now) slot) }
{
    match plain.of_tag(frame_tag(most, frame, slot)) {
        Some(kind) => find(
            numbers.variables.as_slice(),
            numbers.lasts.as_slice(),
            slot,
            kind,
        ),
        None => None,
    }
}
