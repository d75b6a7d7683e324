//! The methods that a call could mean (JLS 15.12.2.1, 15.12.2.2).

ghost use Rattle.std.specs.Prelude.{◌≡◌, ◌↔◌, IsTrue, IfSome, IfNone, map};
ghost use Rattle.dj_names.specs.declared.members.MethodHead.{MethodHead};
ghost use Rattle.dj_names.specs.Types.{view_static};
ghost use Rattle.dj_kinds.specs.Choice.{AllAssignable, parameters, IsMethodAt, IsHeld, IsCandidate, IsMoreSpecific};
ghost use Rattle.dj_kinds.specs.Search.{FindsOne};
ghost use Rattle.dj_kinds.specs.Asking.{call_of};

use crate::access::is_accessible;
use crate::find::find_picked;
use crate::inherited::is_member_of;
use crate::pickers::Overload;
use crate::types::{are_assignable, are_subtypes, parameters_of};
use dj_headers::Headers;
use dj_members::MemberTable;
use dj_names::{ClassName, JType, Member, MethodHead, StaticType, Units};

/// A call, and the lists over which it is asked what it means.
#[derive(Clone, Copy)]
pub struct Asked<'a> {
    pub headers: &'a Headers,
    pub members: &'a MemberTable,
    pub from: &'a ClassName,
    pub class: &'a ClassName,
    pub through: Option<&'a JType>,
    pub name: &'a Units,
    pub arguments: &'a [StaticType],
}

/// The method that a member is, if it is one.
fn method_at(members: &MemberTable, member: Member) -> Option<&MethodHead>
    ensures some { IfSome result (λ method. IsMethodAt members.now member method.now) }
    ensures none { IfNone result ((method : MethodHead) → ¬ IsMethodAt members.now member method) }
{
    if !member.method {
        return None;
    }
    match members.at(member.class as usize) {
        None => None,
        Some(own) => own.methods.get(member.number as usize),
    }
}

/// Whether the class in which the method of a call is searched for has this one.
fn is_held(asked: &Asked<'_>, member: Member, method: &MethodHead) -> bool
    ensures held { IsTrue result ↔ IsHeld asked.now.headers.now asked.now.members.now asked.now.class.now member method.now }
{
    let picker = Overload {
        name: &method.name,
        parameters: parameters_of(&method.descriptor),
    };
    match find_picked(
        asked.headers,
        asked.members,
        asked.class,
        &method.name,
        &picker,
    ) {
        None => false,
        Some(found) => found == member,
    }
}

/// Whether a method takes the arguments of a call. Their number is looked at first.
fn takes_arguments(asked: &Asked<'_>, method: &MethodHead) -> bool
    ensures takes { IsTrue result ↔ AllAssignable asked.now.headers.now (map view_static asked.now.arguments.now) (parameters method.now) }
{
    let parameters = parameters_of(&method.descriptor);
    parameters.len() == asked.arguments.len()
        && are_assignable(asked.headers, asked.arguments, parameters)
}

/// Whether a call could mean a member. What is cheap is looked at first.
pub fn is_candidate(asked: &Asked<'_>, member: Member) -> bool
    ensures candidate { IsTrue result ↔ IsCandidate asked.now.headers.now asked.now.members.now (call_of asked.now) member }
{
    match method_at(asked.members, member) {
        None => false,
        Some(method) => {
            method.name == *asked.name
                && takes_arguments(asked, method)
                && is_held(asked, member, method)
                && is_member_of(asked.headers, asked.class, member, method.flags)
                && is_accessible(
                    asked.headers,
                    asked.members,
                    asked.from,
                    member,
                    asked.through,
                )
        }
    }
}

/// Whether one method takes nothing that another doesn't.
fn is_more_specific(headers: &Headers, members: &MemberTable, first: Member, second: Member) -> bool
    ensures specific { IsTrue result ↔ IsMoreSpecific headers.now members.now first second }
{
    match method_at(members, first) {
        None => true,
        Some(one) => match method_at(members, second) {
            None => true,
            Some(other) => are_subtypes(
                headers,
                parameters_of(&one.descriptor),
                parameters_of(&other.descriptor),
            ),
        },
    }
}

/// Whether a call couldn't mean the second, or the first is more specific.
pub fn yields(asked: &Asked<'_>, first: Member, second: Member) -> bool
    ensures yields { IsTrue result ↔ (IsCandidate asked.now.headers.now asked.now.members.now (call_of asked.now) second
        → IsMoreSpecific asked.now.headers.now asked.now.members.now first second) }
{
    if is_candidate(asked, second) {
        is_more_specific(asked.headers, asked.members, first, second)
    } else {
        true
    }
}
