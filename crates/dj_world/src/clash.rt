//! What stands against adding a class to headers (JVMS 4.10, 5.3.5).

ghost use Rattle.std.specs.Prelude.{◌≡◌, ◌↔◌, ◌⊎◌, ◌++◌, List, [], ◌∷◌, Some, None, IsTrue, IsSomeAnd, Any, Contains, MatchOption, IsBitSet};
ghost use Rattle.dj_names.specs.declared.header.Header.{Header};
ghost use Rattle.dj_names.specs.Headers.{names, IsInterface, Implements};
ghost use Rattle.dj_world.specs.Clashes.{HasCircle, HasFinalSuper, HasMismatch, HasWrongKind, IsFinal, IsClass, IsLawful, IsLeastClash, MayBeAdded};
ghost use Rattle.dj_world.specs.Wanting.{WantsAsSuperclass, IsWantedOtherwise, KnowsAll};

use crate::core_kinds::{INTERFACE, breaks_core};
use crate::fault::ClashKind;
use crate::parents::{is_class, is_final, is_final_header, is_there};
use crate::wanted::Wanted;
use dj_headers::Headers;
use dj_names::{ClassName, Header};

/// Whether a class is reached from a superclass, if there is one.
fn reaches_from_superclass(
    headers: &Headers,
    superclass: &Option<ClassName>,
    class: &ClassName,
) -> bool
    ensures exact { IsTrue result ↔ IsSomeAnd superclass.now (λ upper. Implements headers.now upper class.now) }
{
    match superclass {
        Some(superclass) => headers.implements(superclass, class),
        None => false,
    }
}

/// Whether a class is reached from one of these.
fn reaches_from_any(headers: &Headers, classes: &[ClassName], class: &ClassName) -> bool
    ensures exact { IsTrue result ↔ Any (λ upper. Implements headers.now upper class.now) classes.now }
{
    classes.iter().any(|upper| headers.implements(upper, class))
}

/// Whether a class would stand above itself.
fn closes_circle(headers: &Headers, header: &Header) -> bool
    requires lawful { IsLawful headers.now }
    ensures exact { IsTrue result ↔ HasCircle (headers.now ++ header.now ∷ []) }
{
    reaches_from_superclass(headers, &header.superclass, &header.name)
        || reaches_from_any(headers, header.interfaces.as_slice(), &header.name)
}

/// Whether a superclass, if there is one, is final.
fn is_below_final(headers: &Headers, superclass: &Option<ClassName>) -> bool
    requires lawful { IsLawful headers.now }
    ensures exact { IsTrue result ↔ IsSomeAnd superclass.now (IsFinal headers.now) }
{
    match superclass {
        Some(superclass) => is_final(headers, superclass),
        None => false,
    }
}

/// Whether a header is final, and one that is there names its class as a superclass.
fn is_final_above(wanted: &Wanted, header: &Header) -> bool
    ensures exact { (headers : List Header) → KnowsAll headers wanted.now → IsTrue result ↔ (IsBitSet header.now.flags 4 × Any (WantsAsSuperclass header.now.name) headers) }
{
    is_final_header(header) && wanted.is_superclass(&header.name)
}

/// Whether a class would have a final superclass.
fn has_final_super(headers: &Headers, wanted: &Wanted, header: &Header) -> bool
    requires lawful { IsLawful headers.now }
    requires wanted { KnowsAll headers.now wanted.now }
    requires no_circle { ¬ HasCircle (headers.now ++ header.now ∷ []) }
    ensures exact { IsTrue result ↔ HasFinalSuper (headers.now ++ header.now ∷ []) }
{
    is_below_final(headers, &header.superclass) || is_final_above(wanted, header)
}

/// Whether a superclass, if there is one, is an interface.
fn is_below_interface(headers: &Headers, superclass: &Option<ClassName>) -> bool
    ensures exact { IsTrue result ↔ IsSomeAnd superclass.now (IsInterface headers.now) }
{
    match superclass {
        Some(superclass) => headers.is_interface(superclass),
        None => false,
    }
}

/// Whether one of these is a class and no interface.
fn has_class(headers: &Headers, interfaces: &[ClassName]) -> bool
    ensures exact { IsTrue result ↔ Any (IsClass headers.now) interfaces.now }
{
    interfaces
        .iter()
        .any(|interface| is_class(headers, interface))
}

/// Whether a header stands where those that are there want the other kind.
fn is_wanted_otherwise(wanted: &Wanted, header: &Header) -> bool
    ensures exact { (headers : List Header) → KnowsAll headers wanted.now → IsTrue result ↔ IsWantedOtherwise headers header.now }
{
    if header.flags & INTERFACE != 0 {
        wanted.is_superclass(&header.name)
    } else {
        wanted.is_listed(&header.name)
    }
}

/// Whether a class would list a class as an interface, or is not what others want it to be.
fn has_wrong_interface(headers: &Headers, wanted: &Wanted, header: &Header) -> bool
    requires wanted { KnowsAll headers.now wanted.now }
    ensures exact { IsTrue result ↔ (Any (IsClass headers.now) header.now.interfaces ⊎ IsWantedOtherwise headers.now header.now) }
{
    has_class(headers, header.interfaces.as_slice()) || is_wanted_otherwise(wanted, header)
}

/// Whether a superclass would be an interface, or a listed interface a class.
fn has_mismatch(headers: &Headers, wanted: &Wanted, header: &Header) -> bool
    requires lawful { IsLawful headers.now }
    requires wanted { KnowsAll headers.now wanted.now }
    requires fresh { ¬ Contains (names headers.now) header.now.name }
    requires no_circle { ¬ HasCircle (headers.now ++ header.now ∷ []) }
    ensures exact { IsTrue result ↔ HasMismatch (headers.now ++ header.now ∷ []) }
{
    is_below_interface(headers, &header.superclass) || has_wrong_interface(headers, wanted, header)
}

/// Whether a class would not be of the kind that it has to be, or name one that is not.
fn has_wrong_kind(headers: &Headers, wanted: &Wanted, header: &Header) -> bool
    requires lawful { IsLawful headers.now }
    requires wanted { KnowsAll headers.now wanted.now }
    requires fresh { ¬ Contains (names headers.now) header.now.name }
    requires no_circle { ¬ HasCircle (headers.now ++ header.now ∷ []) }
    ensures exact { IsTrue result ↔ HasWrongKind (headers.now ++ header.now ∷ []) }
{
    has_mismatch(headers, wanted, header) || breaks_core(header)
}

/// The clash of the least number that a class of this header would give.
pub fn clash_of(headers: &Headers, wanted: &Wanted, header: &Header) -> Option<ClashKind>
    requires lawful { IsLawful headers.now }
    requires wanted { KnowsAll headers.now wanted.now }
    ensures clash { MatchOption result (MayBeAdded headers.now header.now) (IsLeastClash headers.now header.now) }
{
    if is_there(headers, &header.name) {
        Some(ClashKind::Twice)
    } else if closes_circle(headers, header) {
        Some(ClashKind::Cycle)
    } else if has_final_super(headers, wanted, header) {
        Some(ClashKind::SuperIsFinal)
    } else if has_wrong_kind(headers, wanted, header) {
        Some(ClashKind::SuperKind)
    } else {
        None
    }
}
