//! The frame that a method begins with (JVMS 4.10.1.6).

ghost use Rattle.std.specs.Prelude.{◌≡◌, ◌++◌, ◌↔◌, map, IfOk};
ghost use Rattle.dj_names.specs.Types.{view_types};
ghost use Rattle.dj_class.specs.Views.{view_method};
ghost use Rattle.dj_frames.specs.Frames.{view_tag, view_tags, view_frame, tag_of, has_unborn_this, this_of, receiver_of, entry_values, entry_frame};

use crate::frame::Frame;
use crate::locals::Locals;
use crate::slots::Slots;
use crate::tag::Tag;
use dj_class::Method;
use dj_names::{ClassName, Descriptor, Items, JType, is_word};
use std::alloc::{AllocError, Global};

const STATIC: u16 = 0x8;

/// Whether a method of this name is a constructor that has another to call.
fn has_unborn_this(class: &ClassName, name: &[u16]) -> bool
    ensures exact { result ≡ has_unborn_this class.now name.now }
{
    is_word(name, "<init>") && !is_word(class.as_slice(), "java/lang/Object")
}

/// What `this` is in a method that has one.
fn this_of(alloc: Global, class: &ClassName, method: &Method) -> Result<Tag, AllocError>
    ensures this { IfOk result (λ tag. view_tag tag ≡ this_of class.now (view_method method.now)) }
{
    if has_unborn_this(class, method.name.as_slice()) {
        Ok(Tag::UnbornThis)
    } else {
        Ok(Tag::Object(JType::Class(class.copy(alloc)?)))
    }
}

/// The value of `this`, where the method has one.
fn receiver(alloc: Global, class: &ClassName, method: &Method) -> Result<Items<Tag>, AllocError>
    ensures receiver { IfOk result (λ values. view_tags values ≡ receiver_of class.now (view_method method.now)) }
{
    let mut values = Items::new(alloc);
    if method.flags & STATIC == 0 {
        values.push(this_of(alloc, class, method)?)?;
    }
    Ok(values)
}

/// These values, and those of parameters of these types behind them.
fn with_parameters(
    alloc: Global,
    values: Items<Tag>,
    kinds: &[JType],
) -> Result<Items<Tag>, AllocError>
    ensures more { IfOk result (λ now. view_tags now ≡ view_tags values ++ map tag_of (view_types kinds.now)) }
{
    let mut values = values;
    for kind in kinds {
        values.push(Tag::of_type(alloc, kind)?)?;
    }
    Ok(values)
}

/// The values that the locals hold as a method of a class begins.
fn entry_values(alloc: Global, class: &ClassName, method: &Method) -> Result<Items<Tag>, AllocError>
    ensures entry { IfOk result (λ values. view_tags values ≡ entry_values class.now (view_method method.now)) }
{
    let values = receiver(alloc, class, method)?;
    match &method.descriptor {
        Descriptor::Method { parameters, .. } => {
            let values = with_parameters(alloc, values, parameters.as_slice())?;
            Ok(values)
        }
        Descriptor::Field(_) => Ok(values),
    }
}

/// The locals as a method of a class begins.
pub fn entry_locals(alloc: Global, class: &ClassName, method: &Method) -> Result<Locals, AllocError>
    ensures entry { IfOk result (λ locals. view_tags locals ≡ entry_values class.now (view_method method.now)) }
{
    let values = entry_values(alloc, class, method)?;
    let locals = Locals::from_values(alloc, values)?;
    Ok(locals)
}

/// The frame that a method of a class begins with.
pub fn entry_frame(alloc: Global, class: &ClassName, method: &Method) -> Result<Frame, AllocError>
    ensures entry { IfOk result (λ frame. view_frame frame ≡ entry_frame class.now (view_method method.now)) }
{
    let locals = entry_locals(alloc, class, method)?;
    let frame = locals.frame(alloc, Slots::new())?;
    Ok(frame)
}
