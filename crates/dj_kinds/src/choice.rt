//! The method that a call means (JLS 15.12.2.5).

ghost use Rattle.std.specs.Prelude.{◌≡◌, ◌≢◌, ◌↔◌, ◌⊎◌, IsTrue, IsSomeAnd, IfSome, IfNone, Some, None, false, [], map, slice_get};
ghost use Rattle.std.specs.Option.{option_copied, option_map};
ghost use Rattle.dj_names.specs.declared.members.Member.{Member};
ghost use Rattle.dj_names.specs.Types.{view_type, view_static};
ghost use Rattle.dj_kinds.specs.Choice.{IsCandidate, IsMoreSpecific, IsMostSpecific, IsChosen, IsChosenIn, searched_class};
ghost use Rattle.dj_kinds.specs.Search.{FindsOne};
ghost use Rattle.dj_kinds.specs.Asking.{call_of};

use crate::candidates::{Asked, is_candidate, yields};
use dj_headers::Headers;
use dj_members::{MemberTable, Picker, all_named, first_named};
use dj_names::{ClassName, JType, Member, StaticType, Units};

/// The member at a place of a list.
fn listed_at(members: &[Member], at: usize) -> Option<Member>
    ensures listed { result ≡ slice_get members.now at }
{
    members.get(at).copied()
}

/// The members that a call couldn't mean, or than which one is more specific.
#[derive(Clone, Copy)]
struct Above<'a> {
    asked: &'a Asked<'a>,
    members: &'a [Member],
    member: Member,
}

impl Picker for Above<'_> {
    ghost picks = { λ p at. IfSome (slice_get p.members.now at)
        (λ other. IsCandidate p.asked.now.headers.now p.asked.now.members.now (call_of p.asked.now) other
        → IsMoreSpecific p.asked.now.headers.now p.asked.now.members.now p.member other) };

    fn picks(&self, at: usize) -> bool {
        match listed_at(self.members, at) {
            None => true,
            Some(other) => yields(self.asked, self.member, other),
        }
    }
}

/// Whether a call could mean a member, which is more specific than each other that it could mean.
fn is_most_specific(asked: &Asked<'_>, member: Member) -> bool
    ensures most { IsTrue result ↔ IsMostSpecific asked.now.headers.now asked.now.members.now (call_of asked.now) member }
{
    if !is_candidate(asked, member) {
        return false;
    }
    let sites = asked.members.sites();
    let above = Above {
        asked,
        members: sites.members.as_slice(),
        member,
    };
    all_named(&sites.names, asked.name, &above)
}

/// The members that are more specific than each that a call could mean.
#[derive(Clone, Copy)]
struct Lowest<'a> {
    asked: &'a Asked<'a>,
    members: &'a [Member],
}

impl Picker for Lowest<'_> {
    ghost picks = { λ p at. IsSomeAnd (slice_get p.members.now at)
        (IsMostSpecific p.asked.now.headers.now p.asked.now.members.now (call_of p.asked.now)) };

    fn picks(&self, at: usize) -> bool {
        match listed_at(self.members, at) {
            None => false,
            Some(member) => is_most_specific(self.asked, member),
        }
    }
}

/// One member, and those that aren't more specific than each that a call could mean.
#[derive(Clone, Copy)]
struct Alone<'a> {
    asked: &'a Asked<'a>,
    members: &'a [Member],
    member: Member,
}

impl Picker for Alone<'_> {
    ghost picks = { λ p at. IfSome (slice_get p.members.now at)
        (λ other. (other ≡ p.member) ⊎ ¬ IsMostSpecific p.asked.now.headers.now p.asked.now.members.now (call_of p.asked.now) other) };

    fn picks(&self, at: usize) -> bool {
        match listed_at(self.members, at) {
            None => true,
            Some(other) => other == self.member || !is_most_specific(self.asked, other),
        }
    }
}

/// Whether no other member than this one is most specific.
fn is_alone(asked: &Asked<'_>, member: Member) -> bool
    ensures alone { IsTrue result → (other : Member) → IsMostSpecific asked.now.headers.now asked.now.members.now (call_of asked.now) other → other ≡ member }
    ensures two { result ≡ false → IsMostSpecific asked.now.headers.now asked.now.members.now (call_of asked.now) member
        → (one : Member) → ¬ IsChosen asked.now.headers.now asked.now.members.now (call_of asked.now) one }
{
    let sites = asked.members.sites();
    let alone = Alone {
        asked,
        members: sites.members.as_slice(),
        member,
    };
    all_named(&sites.names, asked.name, &alone)
}

/// The only member that is most specific.
fn choose_among(asked: &Asked<'_>) -> Option<Member>
    ensures chosen { FindsOne (IsChosen asked.now.headers.now asked.now.members.now (call_of asked.now)) result }
{
    let sites = asked.members.sites();
    let members = sites.members.as_slice();
    let lowest = Lowest { asked, members };
    match first_named(&sites.names, asked.name, &lowest) {
        None => None,
        Some(at) => match listed_at(members, at) {
            None => None,
            Some(member) => {
                if is_alone(asked, member) {
                    Some(member)
                } else {
                    None
                }
            }
        },
    }
}

/// The class in which the methods of a type are searched for; before there is a header there is none.
pub fn searched_class<'a>(headers: &'a Headers, receiver: &'a JType) -> Option<&'a ClassName>
    ensures some { IfSome result (λ class. searched_class (view_type receiver.now) ≡ Some class.now) }
    ensures none { IfNone result ((searched_class (view_type receiver.now) ≡ None) ⊎ (headers.now ≡ [])) }
{
    match receiver {
        JType::Class(name) => Some(name),
        JType::Array(_) => headers.object(),
        JType::Boolean => None,
        JType::Byte => None,
        JType::Char => None,
        JType::Short => None,
        JType::Int => None,
        JType::Long => None,
        JType::Float => None,
        JType::Double => None,
    }
}

/// The method that a call means, by its name, the types of its arguments, the type in which the
/// method is searched for, and the type through which it is called, if there is one.
pub fn choose<'a>(
    headers: &'a Headers,
    members: &'a MemberTable,
    from: &'a ClassName,
    receiver: &'a JType,
    through: Option<&'a JType>,
    name: &'a Units,
    arguments: &'a [StaticType],
) -> Option<Member>
    ensures chosen { FindsOne (IsChosenIn headers.now members.now from.now (view_type receiver.now) (option_map view_type (option_copied through.entry)) name.now (map view_static arguments.now)) result }
{
    let Some(class) = searched_class(headers, receiver) else {
        return None;
    };
    let asked = Asked {
        headers,
        members,
        from,
        class,
        through,
        name,
        arguments,
    };
    choose_among(&asked)
}
