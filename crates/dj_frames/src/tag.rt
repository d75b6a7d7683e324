//! What a local or an entry of the operand stack holds (JVMS 4.7.4, 4.10.1.2).

ghost use Rattle.std.specs.Prelude.{◌≡◌, IfOk, IsTrue, length};
ghost use Rattle.dj_names.specs.Types.{view_type};
ghost use Rattle.dj_frames.specs.Frames.{view_tag, slots_of, is_unborn_this, tag_of};

use dj_names::JType;
use std::alloc::{AllocError, Global};

/// A verification type. UnbornThis is `this` before its constructor is called, and Unborn an object
/// before its own, by the pc of its `new`.
#[derive(Drop)]
pub enum Tag {
    Top,
    Int,
    Float,
    Double,
    Long,
    Null,
    UnbornThis,
    Object(JType),
    Unborn(u32),
}

impl Tag {
    /// An equal tag, which shares its type with this one.
    pub fn copy(&self, alloc: Global) -> Result<Tag, AllocError>
        ensures equal { IfOk result (λ copy. copy ≡ self.now) }
    {
        match self {
            Tag::Top => Ok(Tag::Top),
            Tag::Int => Ok(Tag::Int),
            Tag::Float => Ok(Tag::Float),
            Tag::Double => Ok(Tag::Double),
            Tag::Long => Ok(Tag::Long),
            Tag::Null => Ok(Tag::Null),
            Tag::UnbornThis => Ok(Tag::UnbornThis),
            Tag::Object(class) => Ok(Tag::Object(class.copy(alloc)?)),
            Tag::Unborn(pc) => Ok(Tag::Unborn(*pc)),
        }
    }

    /// The tag of a value of a type.
    pub fn of_type(alloc: Global, kind: &JType) -> Result<Tag, AllocError>
        ensures tag { IfOk result (λ tag. view_tag tag ≡ tag_of (view_type kind.now)) }
    {
        match kind {
            JType::Boolean | JType::Byte | JType::Char | JType::Short | JType::Int => Ok(Tag::Int),
            JType::Long => Ok(Tag::Long),
            JType::Float => Ok(Tag::Float),
            JType::Double => Ok(Tag::Double),
            JType::Class(_) | JType::Array(_) => Ok(Tag::Object(kind.copy(alloc)?)),
        }
    }

    /// Whether the other is equal to this one, as far as that is told: of types only classes are compared.
    pub fn is_surely(&self, other: &Tag) -> bool
        ensures equal { IsTrue result → self.now ≡ other.now }
    {
        match self {
            Tag::Top => matches!(other, Tag::Top),
            Tag::Int => matches!(other, Tag::Int),
            Tag::Float => matches!(other, Tag::Float),
            Tag::Double => matches!(other, Tag::Double),
            Tag::Long => matches!(other, Tag::Long),
            Tag::Null => matches!(other, Tag::Null),
            Tag::UnbornThis => matches!(other, Tag::UnbornThis),
            Tag::Object(JType::Class(name)) => {
                matches!(other, Tag::Object(JType::Class(same)) if name == same)
            }
            Tag::Object(_) => false,
            Tag::Unborn(pc) => matches!(other, Tag::Unborn(same) if pc == same),
        }
    }

    /// How many locals a value takes.
    pub fn words(&self) -> usize
        ensures words { result ≡ length (slots_of (view_tag self.now)) }
    {
        match self {
            Tag::Double | Tag::Long => 2,
            Tag::Top
            | Tag::Int
            | Tag::Float
            | Tag::Null
            | Tag::UnbornThis
            | Tag::Object(_)
            | Tag::Unborn(_) => 1,
        }
    }

    /// Whether it is `this` before its constructor is called.
    pub fn is_unborn_this(&self) -> bool
        ensures unborn { result ≡ is_unborn_this (view_tag self.now) }
    {
        match self {
            Tag::UnbornThis => true,
            Tag::Top
            | Tag::Int
            | Tag::Float
            | Tag::Double
            | Tag::Long
            | Tag::Null
            | Tag::Object(_)
            | Tag::Unborn(_) => false,
        }
    }
}
