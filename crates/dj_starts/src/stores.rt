//! Stores that change what locals hold (JVMS 4.10.1.9).

ghost use Rattle.std.specs.Prelude.{◌≡◌, ◌<◌, ◌↔◌, IsTrue, map};
ghost use Rattle.dj_instructions.specs.Instructions.{view_instruction};
ghost use Rattle.dj_frames.specs.Frames.{view_tag, view_frame};
ghost use Rattle.dj_starts.specs.Starts as spec;
ghost use Rattle.dj_starts.specs.Starts.{local_of, top_of, ChangesTo, ChangesFirst};

use dj_code::{Frame, Instruction, Tag};
use dj_names::same_type;

/// Whether two tags are equal.
fn same_tag(first: &Tag, second: &Tag) -> bool
    ensures same { IsTrue result ↔ (view_tag first.now ≡ view_tag second.now) }
{
    match first {
        Tag::Top => matches!(second, Tag::Top),
        Tag::Int => matches!(second, Tag::Int),
        Tag::Float => matches!(second, Tag::Float),
        Tag::Double => matches!(second, Tag::Double),
        Tag::Long => matches!(second, Tag::Long),
        Tag::Null => matches!(second, Tag::Null),
        Tag::UnbornThis => matches!(second, Tag::UnbornThis),
        Tag::Object(kind) => match second {
            Tag::Object(other) => same_type(kind, other),
            _ => false,
        },
        Tag::Unborn(pc) => match second {
            Tag::Unborn(other) => pc == other,
            _ => false,
        },
    }
}

/// Whether a value takes two locals.
fn is_wide(tag: &Tag) -> bool
    ensures wide { result ≡ spec.is_wide (view_tag tag.now) }
{
    tag.words() == 2
}

/// Whether a local holds what the tag says.
fn is_local(frame: &Frame, local: usize, tag: &Tag) -> bool
    ensures same { IsTrue result ↔ (view_tag tag.now ≡ local_of (view_frame frame.now) local) }
{
    match frame.locals.get(local) {
        Some(own) => same_tag(tag, own),
        None => same_tag(tag, &Tag::Top),
    }
}

/// Whether a local holds a value that takes two.
fn is_wide_local(frame: &Frame, local: usize) -> bool
    ensures wide { result ≡ spec.is_wide (local_of (view_frame frame.now) local) }
{
    match frame.locals.get(local) {
        Some(own) => is_wide(own),
        None => false,
    }
}

/// Whether a store of a value into a slot changes what some local holds.
fn changes_to(frame: &Frame, slot: usize, value: &Tag) -> bool
    requires small { slot < 65536 }
    ensures exact { IsTrue result ↔ ChangesTo (view_frame frame.now) slot (view_tag value.now) }
{
    if !is_local(frame, slot, value) {
        return true;
    }
    if is_wide(value) && !is_local(frame, slot + 1, &Tag::Top) {
        return true;
    }
    slot > 0 && is_wide_local(frame, slot - 1)
}

/// Whether a store into a slot changes what some local holds.
fn changes_local(frame: &Frame, slot: u16) -> bool
    ensures exact { IsTrue result ↔ ChangesTo (view_frame frame.now) slot (top_of (view_frame frame.now)) }
{
    let slot = usize::from(slot);
    match frame.stack.get(frame.stack.len().saturating_sub(1)) {
        Some(top) => changes_to(frame, slot, top),
        None => changes_to(frame, slot, &Tag::Top),
    }
}

/// Whether the instruction is a store that changes what a local holds, by the first of some frames.
pub fn changes_first(instruction: &Instruction, frames: &[Frame]) -> bool
    ensures exact { IsTrue result ↔ ChangesFirst (view_instruction instruction.now) (map view_frame frames.now) }
{
    if let Instruction::Store(_, slot) = instruction {
        if let [frame, ..] = frames {
            return changes_local(frame, *slot);
        }
    }
    false
}
