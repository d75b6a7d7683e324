//! Objects that aren't constructed yet, wherever locals hold them (JVMS 4.10.1.9, substitute).

ghost use Rattle.std.specs.Prelude.{◌≡◌, map, OnOk};
ghost use Rattle.std.specs.List.{list_any};
ghost use Rattle.dj_frames.specs.Frames.{view_tag, view_tags, is_unborn};
ghost use Rattle.dj_effects.specs.Effects.{instead};

use dj_frames::{Slots, Tag, Unborn};
use std::alloc::{AllocError, Global};

/// Whether a slot has the object.
pub fn is_kept(slots: &Slots, unborn: Unborn) -> bool
    ensures kept { result ≡ list_any (is_unborn unborn) (view_tags slots.now) }
{
    slots.next_of(0, unborn).is_some()
}

/// Puts a tag in place of the object in each slot.
pub fn replace_all(
    alloc: Global,
    slots: &mut Slots,
    unborn: Unborn,
    now: &Tag,
) -> Result<(), AllocError>
    ensures ok { OnOk result (view_tags slots.new ≡ map (instead (is_unborn unborn) (view_tag now.now)) (view_tags slots.old)) }
{
    let count = slots.len();
    let mut start = 0;
    while start < count {
        match slots.next_of(start, unborn) {
            Some(slot) => {
                slots.set(alloc, slot, now.copy(alloc)?)?;
                start = slot + 1;
            }
            None => return Ok(()),
        }
    }
    Ok(())
}
