//! The types that instructions name by themselves, made once.

ghost use Rattle.std.specs.Prelude.{◌≡◌, IfOk};
ghost use Rattle.dj_names.specs.Types.{Class, Array, view_type};
ghost use Rattle.dj_names.specs.Assignable.{object_name};
ghost use Rattle.dj_frames.specs.Frames.{Object, view_tag};
ghost use Rattle.dj_effects.specs.Rows.{object};
ghost use Rattle.dj_effects.specs.Doing.{AreClasses, AreArrays, IsKnown};

use dj_frames::Tag;
use dj_headers::class_of;
use dj_names::{JType, Shared};
use std::alloc::{AllocError, Global};

/// A reference of the class whose name is this text.
fn object(alloc: Global, name: &str) -> Result<Tag, AllocError>
    ensures object { IfOk result (λ tag. view_tag tag ≡ object name.now) }
{
    Ok(Tag::Object(JType::Class(class_of(alloc, name)?)))
}

/// A reference of an array of such elements.
pub fn array(alloc: Global, element: JType) -> Result<Tag, AllocError>
    ensures array { IfOk result (λ tag. view_tag tag ≡ Object (Array (view_type element))) }
{
    Ok(Tag::Object(JType::Array(Shared::new(alloc, element)?)))
}

/// References of the classes that instructions name by themselves.
#[derive(Drop)]
pub struct ClassTags {
    pub object: Tag,
    pub throwable: Tag,
    pub string: Tag,
    pub class: Tag,
    pub handle: Tag,
    pub method_type: Tag,
}

/// References of the arrays that instructions work on.
#[derive(Drop)]
pub struct ArrayTags {
    pub ints: Tag,
    pub longs: Tag,
    pub floats: Tag,
    pub doubles: Tag,
    pub objects: Tag,
    pub chars: Tag,
    pub shorts: Tag,
}

/// The references that instructions name by themselves.
#[derive(Drop)]
pub struct Known {
    pub classes: ClassTags,
    pub arrays: ArrayTags,
}

/// Those of classes.
fn class_tags(alloc: Global) -> Result<ClassTags, AllocError>
    ensures known { IfOk result AreClasses }
{
    Ok(ClassTags {
        object: object(alloc, "java/lang/Object")?,
        throwable: object(alloc, "java/lang/Throwable")?,
        string: object(alloc, "java/lang/String")?,
        class: object(alloc, "java/lang/Class")?,
        handle: object(alloc, "java/lang/invoke/MethodHandle")?,
        method_type: object(alloc, "java/lang/invoke/MethodType")?,
    })
}

/// Those of arrays, of which those of objects have this type as their elements.
fn array_tags(alloc: Global, object: JType) -> Result<ArrayTags, AllocError>
    requires object { view_type object ≡ Class object_name }
    ensures known { IfOk result AreArrays }
{
    Ok(ArrayTags {
        objects: array(alloc, object)?,
        ints: array(alloc, JType::Int)?,
        longs: array(alloc, JType::Long)?,
        floats: array(alloc, JType::Float)?,
        doubles: array(alloc, JType::Double)?,
        chars: array(alloc, JType::Char)?,
        shorts: array(alloc, JType::Short)?,
    })
}

impl Known {
    /// The references.
    pub fn new(alloc: Global) -> Result<Known, AllocError>
        ensures known { IfOk result IsKnown }
    {
        let object = JType::Class(class_of(alloc, "java/lang/Object")?);
        let arrays = array_tags(alloc, object)?;
        let classes = class_tags(alloc)?;
        Ok(Known { classes, arrays })
    }
}
