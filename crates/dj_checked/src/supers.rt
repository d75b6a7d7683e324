//! Where `super` may stand, and what a call behind it means (JLS 15.12.1, 15.12.3).

ghost use Rattle.std.specs.Prelude.{◌≡◌, IfOk, None, map};
ghost use Rattle.std.specs.List.{list_any};
ghost use Rattle.std.specs.Option.{option_map, option_copied};
ghost use Rattle.dj_names.specs.Types.{Class, view_type, view_static};
ghost use Rattle.dj_values.specs.Deciding.{is_name, is_some_and};
ghost use Rattle.dj_meaning.specs.Calls.{MethodIn};
ghost use Rattle.dj_meaning.specs.Members as methods;
ghost use Rattle.dj_names.specs.declared.members.MethodHead.{MethodHead};
ghost use Rattle.dj_kinds.specs.Choice.{IsMethodAt};
ghost use Rattle.dj_kinds.specs.Search.{header_of, interfaces_of};
ghost use Rattle.dj_static.specs.Targets.{meant_in};
ghost use Rattle.dj_typing.specs.Expressions as spec;
ghost use Rattle.dj_checked.specs.Sites.{site_of};

use crate::casting::{has_flag, header_at};
use crate::site::Site;
use dj_kinds::choose;
use dj_members::MemberTable;
use dj_names::{ClassName, Header, Items, JType, Member, StaticType, Units};
use dj_static::Classes;
use std::alloc::{AllocError, Global};

/// The header of the class in which names stand, if there is one.
fn own_header<'a>(classes: &Classes<'a>) -> Option<&'a Header>
    ensures header { option_copied result ≡ header_of classes.now.headers.now classes.now.from.now }
{
    match classes.headers.place(classes.from) {
        None => None,
        Some(at) => header_at(classes.headers, at),
    }
}

/// The interfaces that the class in which names stand lists.
pub fn own_interfaces<'a>(classes: &Classes<'a>) -> &'a [ClassName]
    ensures interfaces { result.now ≡ interfaces_of classes.now.headers.now classes.now.from.now }
{
    match own_header(classes) {
        None => &[],
        Some(header) => header.interfaces.as_slice(),
    }
}

/// Whether two names of classes are the same.
fn is_name(first: &ClassName, second: &ClassName) -> bool
    ensures same { result ≡ is_name first.now second.now }
{
    first == second
}

/// Whether one of these names is a class.
pub fn lists(names: &[ClassName], class: &ClassName) -> bool
    ensures lists { result ≡ list_any (λ listed. is_name listed class.now) names.now }
{
    for listed in names {
        if is_name(listed, class) {
            return true;
        }
    }
    false
}

/// Whether `super` may stand so: in no interface alone, behind the name of an interface where the class lists it
/// and its text can say the name.
pub fn has_super(site: &Site<'_>, above: &Option<ClassName>) -> bool
    ensures has { result ≡ spec.has_super (site_of site.now) above.now }
{
    match above {
        None => !has_flag(site.classes.headers, site.classes.from, 0x0200),
        Some(interface) => {
            lists(own_interfaces(&site.classes), interface) && site.said.contains(interface)
        }
    }
}

/// The class above, or the interface that is named before `super`.
fn above_of<'a>(site: &Site<'a>, above: &'a Option<ClassName>) -> Option<&'a ClassName>
    ensures above { option_copied result ≡ spec.above_of (site_of site.now) above.now }
{
    match above {
        Some(interface) => Some(interface),
        None => match own_header(&site.classes) {
            None => None,
            Some(header) => match &header.superclass {
                None => None,
                Some(superclass) => Some(superclass),
            },
        },
    }
}

/// The flags of the method that a member is.
fn flags_at(members: &MemberTable, member: Member) -> u16
    ensures flags { (method : MethodHead) → IsMethodAt members.now member method → result ≡ method.flags }
{
    match members.at(member.class as usize) {
        None => 0,
        Some(declared) => match declared.methods.get(member.number as usize) {
            None => 0,
            Some(method) => method.flags,
        },
    }
}

/// The flags of the method that a call of a class means.
fn meant_flags(
    classes: &Classes<'_>,
    receiver: &JType,
    name: &Units,
    arguments: &[StaticType],
) -> Option<u16>
    ensures flags { result ≡ option_map (λ (one : MethodIn). one.method.flags)
        (meant_in classes.now.headers.now classes.now.members.now classes.now.from.now (view_type receiver.now) None name.now (map view_static arguments.now)) }
{
    if classes.headers.as_slice().is_empty() {
        return None;
    }
    match choose(
        classes.headers,
        classes.members,
        classes.from,
        receiver,
        None,
        name,
        arguments,
    ) {
        None => None,
        Some(member) => Some(flags_at(classes.members, member)),
    }
}

/// Whether flags are those of a method that is abstract, where there are any.
fn is_abstract(flags: Option<u16>) -> bool
    ensures has { result ≡ is_some_and flags (methods.has_flag 0x0400) }
{
    match flags {
        None => false,
        Some(flags) => flags & 0x0400 != 0,
    }
}

/// Whether the method is abstract that a call of a class means.
fn means_abstract_of(
    alloc: Global,
    site: &Site<'_>,
    class: &ClassName,
    name: &Units,
    arguments: &[StaticType],
) -> Result<bool, AllocError>
    ensures means { IfOk result (λ is. is ≡ is_some_and (meant_in site.now.classes.headers.now site.now.classes.members.now site.now.classes.from.now (Class class.now) None name.now (map view_static arguments.now)) (λ (one : MethodIn). methods.has_flag 0x0400 one.method.flags)) }
{
    let receiver = JType::Class(class.copy(alloc)?);
    let flags = meant_flags(&site.classes, &receiver, name, arguments);
    Ok(is_abstract(flags))
}

/// Whether the method is abstract that a call behind `super` means.
pub fn means_abstract(
    alloc: Global,
    site: &Site<'_>,
    above: &Option<ClassName>,
    name: &Units,
    given: &Option<Items<StaticType>>,
) -> Result<bool, AllocError>
    ensures means { IfOk result (λ is. is ≡ spec.means_abstract (site_of site.now) above.now name.now (option_map (map view_static) given.now)) }
{
    let Some(arguments) = given else {
        return Ok(false);
    };
    let Some(class) = above_of(site, above) else {
        return Ok(false);
    };
    let is = means_abstract_of(alloc, site, class, name, arguments.as_slice())?;
    Ok(is)
}
