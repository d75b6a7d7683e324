//! Objects that aren't constructed yet (JVMS 4.10.1.2), and their ranks.

ghost use Rattle.std.specs.Prelude.{◌≡◌};
ghost use Rattle.dj_frames.specs.Frames.{view_tag, is_unborn};
ghost use Rattle.dj_frames.specs.SlotTree.{rank, rank_of};

use crate::tag::Tag;

/// An object that isn't constructed yet: `this`, or what the `new` at a pc made.
#[derive(Clone, Copy)]
pub enum Unborn {
    This,
    At(u32),
}

/// Whether the tag is that of the object.
pub fn is_unborn(unborn: Unborn, tag: &Tag) -> bool
    ensures unborn { result ≡ is_unborn unborn (view_tag tag.now) }
{
    match unborn {
        Unborn::This => matches!(tag, Tag::UnbornThis),
        Unborn::At(pc) => matches!(tag, Tag::Unborn(other) if *other == pc),
    }
}

/// The rank of the object that a tag is of, 0 of each that is constructed.
pub fn rank(tag: &Tag) -> u64
    ensures rank { result ≡ rank (view_tag tag.now) }
{
    match tag {
        Tag::UnbornThis => 1,
        Tag::Unborn(pc) => u64::from(*pc) + 2,
        Tag::Top | Tag::Int | Tag::Float | Tag::Double | Tag::Long | Tag::Null | Tag::Object(_) =>
            0,
    }
}

/// The rank of an object: `this` has the first, and others have theirs in the order of their `new`s.
pub fn rank_of(unborn: Unborn) -> u64
    ensures rank { result ≡ rank_of unborn }
{
    match unborn {
        Unborn::This => 1,
        Unborn::At(pc) => u64::from(pc) + 2,
    }
}
