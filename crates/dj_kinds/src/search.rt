//! The first class in an order of search that has a member itself.

ghost use Rattle.std.specs.Prelude.{◌≡◌, ℕ, ◌+◌, false, List, ◌∷◌, Some, IfSome, length, flat_map, slice_get};
ghost use Rattle.std.specs.Option.{option_copied};
ghost use Rattle.dj_names.specs.declared.header.Header.{Header};
ghost use Rattle.dj_names.specs.declared.members.Member.{Member};
ghost use Rattle.dj_names.specs.Headers.{names, HasDistinctNames, Implements};
ghost use Rattle.dj_kinds.specs.Search.{header_of, superclass_in, interfaces_in, interfaces_of, upward, depth_first, beside, enough, classes_then_interfaces, field_order, FindsOne};
ghost use Rattle.dj_kinds.specs.Deciding.{Finds};

use dj_headers::Headers;
use dj_members::{MemberTable, Picker, all_named};
use dj_names::{ClassName, Header, Member, Units};

/// A name, the lists in which the members of the name stand, and the headers of their classes.
#[derive(Clone, Copy)]
pub struct Listing<'a> {
    pub headers: &'a Headers,
    pub members: &'a MemberTable,
    pub name: &'a Units,
}

/// Tells which member a class has itself. Each that some class has is of one name.
pub trait Declares {
    ghost use Rattle.std.specs.Prelude.{◌≡◌, ℕ, List, Some, slice_get};
    ghost use Rattle.dj_names.specs.declared.header.Header.{Header};
    ghost use Rattle.dj_names.specs.declared.members.Member.{Member};
    ghost use Rattle.dj_names.specs.Headers.{names};
    ghost use Rattle.dj_members.specs.Tables.{IsNamed};
    ghost use Rattle.dj_kinds.specs.Search.{FindsOne};

    ghost own: { Self → List ℕ → Member → Type 0 };

    fn own(&self, class: &ClassName) -> Option<Member>
        ensures own { FindsOne (own self.now class.now) result };

    fn listing(&self) -> Listing<'_>
        ensures named { (class : List ℕ) (member : Member) → own self.now class member → IsNamed result.members.now member result.name.now }
        ensures class { (class : List ℕ) (member : Member) → own self.now class member → slice_get (names result.headers.now) member.class ≡ Some class };
}

/// The header at a place.
pub fn header_at(headers: &Headers, at: usize) -> Option<&Header>
    ensures header { option_copied result ≡ slice_get headers.now at }
    ensures distinct { HasDistinctNames headers.now }
{
    headers.as_slice().get(at)
}

/// The only place of a class's header, if it has one.
pub fn place_of(headers: &Headers, class: &ClassName) -> Option<usize>
    ensures place { FindsOne (λ at. slice_get (names headers.now) at ≡ Some class.now) result }
    ensures one { (first second : ℕ) → slice_get (names headers.now) first ≡ Some class.now → slice_get (names headers.now) second ≡ Some class.now → first ≡ second }
{
    if headers.as_slice().is_empty() {
        return None;
    }
    headers.place(class)
}

/// The header of a class, if there is one.
fn header_of<'a>(headers: &'a Headers, class: &ClassName) -> Option<&'a Header>
    ensures header { option_copied result ≡ header_of headers.now class.now }
{
    match headers.place(class) {
        None => None,
        Some(at) => header_at(headers, at),
    }
}

/// The interfaces that the header of a class names.
fn interfaces_of<'a>(headers: &'a Headers, class: &ClassName) -> &'a [ClassName]
    ensures interfaces { result.now ≡ interfaces_of headers.now class.now }
{
    match header_of(headers, class) {
        None => &[],
        Some(header) => header.interfaces.as_slice(),
    }
}

/// The superclass that the header of a class names.
pub fn superclass_of<'a>(headers: &'a Headers, class: &ClassName) -> Option<&'a ClassName>
    ensures superclass { option_copied result ≡ superclass_in (header_of headers.now class.now) }
{
    match header_of(headers, class) {
        None => None,
        Some(header) => match &header.superclass {
            None => None,
            Some(superclass) => Some(superclass),
        },
    }
}

/// Members, and those whose class isn't above a class or has no such member itself.
#[derive(Drop)]
struct Away<'a, D> {
    headers: &'a Headers,
    declares: &'a D,
    class: &'a ClassName,
    owners: &'a Headers,
    members: &'a [Member],
}

impl<D: Declares> Picker for Away<'_, D> {
    ghost picks = { λ p at. IfSome (slice_get p.members.now at) (λ member. IfSome (slice_get p.owners.now member.class)
        (λ header. Implements p.headers.now p.class.now header.name → (other : Member) → ¬ D.own p.declares.now header.name other)) };

    fn picks(&self, at: usize) -> bool {
        match self.members.get(at) {
            None => true,
            Some(member) => match header_at(self.owners, member.class as usize) {
                None => true,
                Some(header) => {
                    !self.headers.implements(self.class, &header.name)
                        || self.declares.own(&header.name).is_none()
                }
            },
        }
    }
}

/// Whether a class at or above this one has the member itself. It looks only at the members of the
/// name, so that a name that no member has costs nothing.
fn is_anywhere<D: Declares>(headers: &Headers, declares: &D, class: &ClassName) -> bool
    ensures nowhere { result ≡ false → (upper : List ℕ) → Implements headers.now class.now upper → (member : Member) → ¬ D.own declares.now upper member }
{
    let listing = declares.listing();
    let sites = listing.members.sites();
    let away = Away {
        headers,
        declares,
        class,
        owners: listing.headers,
        members: sites.members.as_slice(),
    };
    !all_named(&sites.names, listing.name, &away)
}

/// The first among an interface and what it extends, depth first. It goes only where it finds one, so
/// that many ways to one interface cost nothing.
fn find_above<D: Declares>(
    headers: &Headers,
    declares: &D,
    interface: &ClassName,
    most: usize,
) -> Option<Member>
    ensures found { Finds (D.own declares.now) (depth_first most headers.now interface.now) result }
{
    if most == 0 {
        return None;
    }
    if !is_anywhere(headers, declares, interface) {
        return None;
    }
    match declares.own(interface) {
        Some(member) => Some(member),
        None => {
            for parent in interfaces_of(headers, interface) {
                match find_above(headers, declares, parent, most - 1) {
                    Some(member) => return Some(member),
                    None => {}
                }
            }
            None
        }
    }
}

/// The first among the interfaces of a class and what they extend.
fn find_beside<D: Declares>(
    headers: &Headers,
    declares: &D,
    class: &ClassName,
    most: usize,
) -> Option<Member>
    ensures found { Finds (D.own declares.now) (beside most headers.now class.now) result }
{
    for interface in interfaces_of(headers, class) {
        match find_above(headers, declares, interface, most) {
            Some(member) => return Some(member),
            None => {}
        }
    }
    None
}

/// The first among a class and its superclasses.
pub fn find_upward<D: Declares>(
    headers: &Headers,
    declares: &D,
    class: &ClassName,
    most: usize,
) -> Option<Member>
    ensures found { Finds (D.own declares.now) (upward most headers.now (Some class.now)) result }
{
    let mut at = class;
    for _ in 0..most {
        match declares.own(at) {
            Some(member) => return Some(member),
            None => {}
        }
        match superclass_of(headers, at) {
            Some(superclass) => at = superclass,
            None => return None,
        }
    }
    None
}

/// The first among the interfaces of a class and of its superclasses.
fn find_in_interfaces<D: Declares>(
    headers: &Headers,
    declares: &D,
    class: &ClassName,
    most: usize,
) -> Option<Member>
    ensures found { Finds (D.own declares.now) (flat_map (beside most headers.now) (upward most headers.now (Some class.now))) result }
{
    let mut at = class;
    for _ in 0..most {
        match find_beside(headers, declares, at, most) {
            Some(member) => return Some(member),
            None => {}
        }
        match superclass_of(headers, at) {
            Some(superclass) => at = superclass,
            None => return None,
        }
    }
    None
}

/// The first in a class, its superclasses, and then their interfaces.
pub fn find<D: Declares>(headers: &Headers, declares: &D, class: &ClassName) -> Option<Member>
    ensures found { Finds (D.own declares.now) (classes_then_interfaces headers.now class.now) result }
{
    let most = headers.as_slice().len() + 1;
    match find_upward(headers, declares, class, most) {
        Some(member) => Some(member),
        None => find_in_interfaces(headers, declares, class, most),
    }
}

/// The first in a class and its interfaces.
fn find_here<D: Declares>(
    headers: &Headers,
    declares: &D,
    class: &ClassName,
    most: usize,
) -> Option<Member>
    ensures found { Finds (D.own declares.now) (class.now ∷ beside most headers.now class.now) result }
{
    match declares.own(class) {
        Some(member) => Some(member),
        None => find_beside(headers, declares, class, most),
    }
}

/// The first in a class and its interfaces, and then in the same way in its superclasses.
fn find_in_classes<D: Declares>(
    headers: &Headers,
    declares: &D,
    class: &ClassName,
    most: usize,
) -> Option<Member>
    ensures found { Finds (D.own declares.now) (flat_map (λ one. one ∷ beside most headers.now one) (upward most headers.now (Some class.now))) result }
{
    let mut at = class;
    for _ in 0..most {
        match find_here(headers, declares, at, most) {
            Some(member) => return Some(member),
            None => {}
        }
        match superclass_of(headers, at) {
            Some(superclass) => at = superclass,
            None => return None,
        }
    }
    None
}

/// The first in the order in which fields are searched for.
pub fn find_by_class<D: Declares>(
    headers: &Headers,
    declares: &D,
    class: &ClassName,
) -> Option<Member>
    ensures found { Finds (D.own declares.now) (field_order headers.now class.now) result }
{
    find_in_classes(headers, declares, class, headers.as_slice().len() + 1)
}
