//! Which frames go where (JVMS 4.10.1.4, frameIsAssignable).

ghost use Rattle.std.specs.Prelude.{◌↔◌, ◌<◌, IsTrue, length, get_or};
ghost use Rattle.dj_frames.specs.Frames.{Top, view_tag, view_tags, view_frame};
ghost use Rattle.dj_tags.specs.Goes.{reversed, LocalGoes, EntryGoes, EntriesGo, LocalsGo, FrameGoes, top_down};

use crate::goes::{Goes, entry_goes, local_goes};
use dj_frames::{Frame, Slots, Tag};

/// Whether the local in a slot, of which nothing is known where there is none, may stand where the tag
/// is wanted.
fn slot_goes<G: Goes>(goes: &G, from: &Slots, slot: usize, to: &Tag) -> bool
    ensures goes { IsTrue result ↔ LocalGoes (G.relation goes.now) (get_or (view_tags from.now) slot Top) (view_tag to.now) }
{
    match from.get(slot) {
        Some(from) => local_goes(goes, from, to),
        None => matches!(to, Tag::Top),
    }
}

/// Whether the local in a slot may stand where the other one is wanted.
fn local_at_goes<G: Goes>(goes: &G, from: &Slots, to: &Slots, slot: usize) -> bool
    requires within { slot < length to.now }
    ensures goes { IsTrue result ↔ LocalGoes (G.relation goes.now) (get_or (view_tags from.now) slot Top) (get_or (view_tags to.now) slot Top) }
{
    match to.get(slot) {
        Some(to) => slot_goes(goes, from, slot, to),
        None => unreachable!(),
    }
}

/// Whether locals go one by one.
pub fn locals_go<G: Goes>(goes: &G, from: &Slots, to: &Slots) -> bool
    ensures go { IsTrue result ↔ LocalsGo (G.relation goes.now) (view_tags from.now) (view_tags to.now) }
{
    for slot in 0..to.len() {
        if !local_at_goes(goes, from, to, slot) {
            return false;
        }
    }
    true
}

/// Whether the entry at a place may stand where the other one is wanted.
fn place_goes<G: Goes>(goes: &G, from: &Slots, to: &Slots, place: usize) -> bool
    requires from_within { place < length from.now }
    requires to_within { place < length to.now }
    ensures goes { IsTrue result ↔ EntryGoes (G.relation goes.now) (get_or (view_tags from.now) place Top) (get_or (view_tags to.now) place Top) }
{
    match (from.get(place), to.get(place)) {
        (Some(from), Some(to)) => entry_goes(goes, from, to),
        _ => unreachable!(),
    }
}

/// Whether entries of the stack, listed from the bottom up, go one by one.
pub fn entries_go<G: Goes>(goes: &G, from: &Slots, to: &Slots) -> bool
    ensures go { IsTrue result ↔ EntriesGo (G.relation goes.now) (reversed (view_tags from.now)) (reversed (view_tags to.now)) }
{
    if from.len() != to.len() {
        return false;
    }
    for place in 0..to.len() {
        if !place_goes(goes, from, to, place) {
            return false;
        }
    }
    true
}

/// Whether a frame may stand where another is wanted.
pub fn frame_goes<G: Goes>(goes: &G, from: &Frame, to: &Frame) -> bool
    ensures goes { IsTrue result ↔ FrameGoes (G.relation goes.now) (top_down (view_frame from.now)) (top_down (view_frame to.now)) }
{
    (to.unborn_this || !from.unborn_this)
        && entries_go(goes, &from.stack, &to.stack)
        && locals_go(goes, &from.locals, &to.locals)
}
