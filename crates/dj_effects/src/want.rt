//! What instructions want of the entries of the stack.

ghost use Rattle.std.specs.Prelude.{◌≡◌, ◌↔◌, IsTrue, true};
ghost use Rattle.dj_names.specs.Types.{view_type};
ghost use Rattle.dj_frames.specs.Frames.{view_tag, tag_of};
ghost use Rattle.dj_tags.specs.Goes.{LocalGoes};
ghost use Rattle.dj_effects.specs.Operands.{is_reference, is_array_of, is_byte_or_boolean, HasKind, IsWanted};
ghost use Rattle.dj_effects.specs.Doing.{view_want};

use dj_frames::Tag;
use dj_instructions::Kind;
use dj_names::JType;
use dj_tags::{Goes, local_goes, reference_goes};

/// What an instruction wants of an entry.
#[derive(Clone, Copy)]
pub enum Want<'a> {
    /// A value that may stand where the tag is wanted.
    Of(&'a Tag),
    /// A value of the type.
    Value(&'a JType),
    /// A reference of the type.
    Object(&'a JType),
    /// A reference, to an object that is constructed or not, or null.
    Reference,
    /// An array, or null.
    AnyArray,
    /// An array of bytes or of booleans, or null.
    ByteArray,
}

/// Whether the tag is that of a reference, to an object that is constructed or not, or of null.
pub fn is_reference(tag: &Tag) -> bool
    ensures reference { result ≡ is_reference (view_tag tag.now) }
{
    match tag {
        Tag::Null | Tag::UnbornThis | Tag::Object(_) | Tag::Unborn(_) => true,
        Tag::Top | Tag::Int | Tag::Float | Tag::Double | Tag::Long => false,
    }
}

/// Whether the tag is of a kind of values.
pub fn has_kind(kind: Kind, tag: &Tag) -> bool
    ensures kind { IsTrue result ↔ HasKind kind (view_tag tag.now) }
{
    match kind {
        Kind::Int => matches!(tag, Tag::Int),
        Kind::Long => matches!(tag, Tag::Long),
        Kind::Float => matches!(tag, Tag::Float),
        Kind::Double => matches!(tag, Tag::Double),
        Kind::Ref => is_reference(tag),
    }
}

/// Whether the tag is that of an array, or of null.
fn is_any_array(tag: &Tag) -> bool
    ensures array { result ≡ is_array_of (λ element. true) (view_tag tag.now) }
{
    match tag {
        Tag::Null => true,
        Tag::Object(JType::Array(_)) => true,
        Tag::Object(_)
        | Tag::Top
        | Tag::Int
        | Tag::Float
        | Tag::Double
        | Tag::Long
        | Tag::UnbornThis
        | Tag::Unborn(_) => false,
    }
}

/// Whether `baload` and `bastore` work on elements of this type.
fn is_byte_or_boolean(kind: &JType) -> bool
    ensures element { result ≡ is_byte_or_boolean (view_type kind.now) }
{
    match kind {
        JType::Boolean | JType::Byte => true,
        JType::Char
        | JType::Short
        | JType::Int
        | JType::Long
        | JType::Float
        | JType::Double
        | JType::Class(_)
        | JType::Array(_) => false,
    }
}

/// Whether the tag is that of an array of bytes or of booleans, or of null.
fn is_byte_array(tag: &Tag) -> bool
    ensures array { result ≡ is_array_of is_byte_or_boolean (view_tag tag.now) }
{
    match tag {
        Tag::Null => true,
        Tag::Object(JType::Array(element)) => is_byte_or_boolean(element.get()),
        Tag::Object(_)
        | Tag::Top
        | Tag::Int
        | Tag::Float
        | Tag::Double
        | Tag::Long
        | Tag::UnbornThis
        | Tag::Unborn(_) => false,
    }
}

/// Whether a value of the tag may stand where one of the type is wanted.
fn value_goes<G: Goes>(goes: &G, from: &Tag, to: &JType) -> bool
    ensures goes { IsTrue result ↔ LocalGoes (G.relation goes.now) (view_tag from.now) (tag_of (view_type to.now)) }
{
    match to {
        JType::Boolean | JType::Byte | JType::Char | JType::Short | JType::Int => {
            matches!(from, Tag::Int)
        }
        JType::Long => matches!(from, Tag::Long),
        JType::Float => matches!(from, Tag::Float),
        JType::Double => matches!(from, Tag::Double),
        JType::Class(_) | JType::Array(_) => reference_goes(goes, from, to),
    }
}

/// Whether an entry is what is wanted.
pub fn is_wanted<G: Goes>(goes: &G, want: Want<'_>, found: &Tag) -> bool
    ensures wanted { IsTrue result ↔ IsWanted (G.relation goes.now) (view_want want.entry) (view_tag found.now) }
{
    match want {
        Want::Of(tag) => local_goes(goes, found, tag),
        Want::Value(kind) => value_goes(goes, found, kind),
        Want::Object(kind) => reference_goes(goes, found, kind),
        Want::Reference => is_reference(found),
        Want::AnyArray => is_any_array(found),
        Want::ByteArray => is_byte_array(found),
    }
}
