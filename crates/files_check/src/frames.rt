//! Frames as words: whether `this` isn't constructed yet, the locals, and the operand stack.

use dj_code::{Frame, Slots, Tag};
use run_lines::TypeText;
use std::fmt;
use std::fmt::Write;

/// A frame, to be shown.
#[derive(Clone, Copy)]
pub struct FrameText<'a>(pub &'a Frame);

impl fmt::Display for FrameText<'_> {
    fn fmt<W: Write>(&self, f: &mut fmt::Formatter<W>) -> fmt::Result {
        let frame = self.0;
        write!(f, "{}", frame.unborn_this)?;
        put_slots(&frame.locals, f)?;
        f.write_str(" /")?;
        put_slots(&frame.stack, f)
    }
}

fn put_slots<W: Write>(slots: &Slots, f: &mut fmt::Formatter<W>) -> fmt::Result {
    for slot in 0..slots.len() {
        if let Some(tag) = slots.get(slot) {
            put_tag(tag, f)?;
        }
    }
    Ok(())
}

/// A tag behind a space.
fn put_tag<W: Write>(tag: &Tag, f: &mut fmt::Formatter<W>) -> fmt::Result {
    match tag {
        Tag::Top => f.write_str(" Top"),
        Tag::Int => f.write_str(" Int"),
        Tag::Float => f.write_str(" Float"),
        Tag::Double => f.write_str(" Double"),
        Tag::Long => f.write_str(" Long"),
        Tag::Null => f.write_str(" Null"),
        Tag::UnbornThis => f.write_str(" UnbornThis"),
        Tag::Object(kind) => write!(f, " {}", TypeText(kind)),
        Tag::Unborn(pc) => write!(f, " Unborn:{pc}"),
    }
}
