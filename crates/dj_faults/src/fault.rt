//! Faults, and which of two counts.

ghost use Rattle.std.specs.Prelude.{◌≡◌};
ghost use Rattle.dj_faults.specs.Faults as spec;

use dj_places::TypeKind;

/// A rule that is broken: its place, at most 4,294,967,295, and its kind.
#[derive(Clone, Copy)]
pub struct Fault {
    pub place: u32,
    pub kind: TypeKind,
}

/// Where a kind stands in the order that counts at one place.
fn rank(kind: TypeKind) -> u8
    ensures rank { result ≡ spec.rank kind }
{
    match kind {
        TypeKind::Name => 1,
        TypeKind::WrongType => 2,
        TypeKind::Call => 3,
        TypeKind::Access => 4,
        TypeKind::Reach => 5,
        TypeKind::Assigned => 6,
        TypeKind::Thrown => 7,
        TypeKind::Catch => 8,
        TypeKind::Label => 9,
    }
}

impl Fault {
    /// Whether it counts before another: at a lower place, or there by a lower kind.
    pub fn is_before(self, other: Fault) -> bool
        ensures before { result ≡ spec.is_before self other }
    {
        self.place < other.place
            || (self.place == other.place && rank(self.kind) < rank(other.kind))
    }
}

/// Of two faults, where there are two, the one that counts.
pub fn lower(first: Option<Fault>, second: Option<Fault>) -> Option<Fault>
    ensures lower { result ≡ spec.lower first second }
{
    match (first, second) {
        (None, second) => second,
        (Some(first), None) => Some(first),
        (Some(first), Some(second)) => Some(if second.is_before(first) {
            second
        } else {
            first
        }),
    }
}

/// The fault of a rule at a place, if it isn't kept.
pub fn broken(place: u32, kind: TypeKind, kept: bool) -> Option<Fault>
    ensures broken { result ≡ spec.fault_at place kind kept }
{
    if kept {
        None
    } else {
        Some(Fault { place, kind })
    }
}
