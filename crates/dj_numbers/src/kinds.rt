//! The types of variables, by what frames say of slots.

ghost use Rattle.std.specs.Prelude.{◌≡◌, IfOk};
ghost use Rattle.std.specs.Option.{option_copied, option_map};
ghost use Rattle.dj_names.specs.Types.{view_type};
ghost use Rattle.dj_frames.specs.Frames.{view_tag, view_frame};
ghost use Rattle.dj_numbers.specs.Frames.{type_of_slot};
ghost use Rattle.dj_numbers.specs.Frames as spec;
ghost use Rattle.dj_numbers.specs.Frames.{ArePlain};

use dj_frames::{Frame, Tag};
use dj_headers::class_of;
use dj_names::JType;
use std::alloc::{AllocError, Global};

/// The types that tags are of by themselves.
#[derive(Drop)]
pub struct PlainTypes {
    pub int: JType,
    pub long: JType,
    pub float: JType,
    pub double: JType,
    pub object: JType,
}

impl PlainTypes {
    /// These types.
    pub fn new(alloc: Global) -> Result<PlainTypes, AllocError>
        ensures plain { IfOk result ArePlain }
    {
        Ok(PlainTypes {
            int: JType::Int,
            long: JType::Long,
            float: JType::Float,
            double: JType::Double,
            object: JType::Class(class_of(alloc, "java/lang/Object")?),
        })
    }

    /// The type of the variable of a slot of which a frame says this: none where nothing is known, or
    /// where its object isn't born.
    pub fn of_tag<'a>(&'a self, tag: Option<&'a Tag>) -> Option<&'a JType>
        requires plain { ArePlain self.now }
        ensures of { option_map view_type (option_copied result) ≡ type_of_slot (option_map view_tag (option_copied tag.entry)) }
    {
        match tag {
            Some(Tag::Int) => Some(&self.int),
            Some(Tag::Long) => Some(&self.long),
            Some(Tag::Float) => Some(&self.float),
            Some(Tag::Double) => Some(&self.double),
            Some(Tag::Null) => Some(&self.object),
            Some(Tag::Object(kind)) => Some(kind),
            Some(Tag::Top | Tag::UnbornThis | Tag::Unborn(_)) | None => None,
        }
    }
}

/// What a frame says of a slot, if anything.
pub fn frame_tag(most: u16, frame: &Frame, slot: usize) -> Option<&Tag>
    ensures tag { option_map view_tag (option_copied result) ≡ spec.frame_tag most (view_frame frame.now) slot }
{
    let most = most as usize;
    if slot < most {
        frame.locals.get(slot)
    } else {
        frame.stack.get(slot - most)
    }
}
