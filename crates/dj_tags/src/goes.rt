//! Which references, tags and frames go where (JVMS 4.10.1.2, 4.10.1.4).

ghost use Rattle.std.specs.Prelude.{◌≡◌, ◌↔◌, IsTrue};
ghost use Rattle.dj_names.specs.Types.{view_type};
ghost use Rattle.dj_frames.specs.Frames.{view_tag};
ghost use Rattle.dj_tags.specs.Goes.{ReferenceGoes, LocalGoes, EntryGoes};

use dj_frames::Tag;
use dj_headers::Headers;
use dj_names::JType;

/// Tells which references may stand where which are wanted, by the headers of the classes there are.
pub trait Goes {
    ghost use Rattle.std.specs.Prelude.{List};
    ghost use Rattle.dj_names.specs.declared.header.Header.{Header};
    ghost use Rattle.dj_names.specs.Types as types;

    /// The relation, by the types of the two.
    ghost relation: { Self → types.JType → types.JType → Type 0 };

    /// The headers.
    ghost known: { Self → List Header };

    /// Whether a reference of one type may stand where the other is wanted.
    fn goes(&self, from: &JType, to: &JType) -> bool
        ensures goes { IsTrue result ↔ relation self.now (view_type from.now) (view_type to.now) };

    /// The headers of the classes there are.
    fn headers(&self) -> &Headers
        ensures headers { result.now ≡ known self.now };
}

/// Whether a value of the tag may stand where a reference of the type is wanted.
pub fn reference_goes<G: Goes>(goes: &G, from: &Tag, to: &JType) -> bool
    ensures goes { IsTrue result ↔ ReferenceGoes (G.relation goes.now) (view_tag from.now) (view_type to.now) }
{
    match from {
        Tag::Null => true,
        Tag::Object(from) => goes.goes(from, to),
        Tag::Top
        | Tag::Int
        | Tag::Float
        | Tag::Double
        | Tag::Long
        | Tag::UnbornThis
        | Tag::Unborn(_) => false,
    }
}

/// Whether a local of one tag may stand where the other is wanted.
pub fn local_goes<G: Goes>(goes: &G, from: &Tag, to: &Tag) -> bool
    ensures goes { IsTrue result ↔ LocalGoes (G.relation goes.now) (view_tag from.now) (view_tag to.now) }
{
    match to {
        Tag::Top => true,
        Tag::Int => matches!(from, Tag::Int),
        Tag::Float => matches!(from, Tag::Float),
        Tag::Double => matches!(from, Tag::Double),
        Tag::Long => matches!(from, Tag::Long),
        Tag::Null => matches!(from, Tag::Null),
        Tag::UnbornThis => matches!(from, Tag::UnbornThis),
        Tag::Object(to) => reference_goes(goes, from, to),
        Tag::Unborn(pc) => matches!(from, Tag::Unborn(other) if other == pc),
    }
}

/// Whether an entry of the stack may stand where the other is wanted.
pub fn entry_goes<G: Goes>(goes: &G, from: &Tag, to: &Tag) -> bool
    ensures goes { IsTrue result ↔ EntryGoes (G.relation goes.now) (view_tag from.now) (view_tag to.now) }
{
    local_goes(goes, from, to) && from.words() == to.words()
}
