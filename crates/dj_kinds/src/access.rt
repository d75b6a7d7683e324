//! Where a member may be used (JLS 6.6).

ghost use Rattle.std.specs.Prelude.{◌≡◌, ◌↔◌, ◌⊎◌, Some, IsTrue, IfSome, IsSomeAnd, MatchOption, slice_get};
ghost use Rattle.std.specs.Option.{option_copied, option_map};
ghost use Rattle.dj_names.specs.Types.{view_type};
ghost use Rattle.dj_kinds.specs.Access.{package_of, IsBelow, AllowsBelow, Allows, IsArray, IsClone, IsAccessible, flags_of};

use crate::search::header_at;
use crate::types::parameters_of;
use dj_headers::Headers;
use dj_members::MemberTable;
use dj_names::{ClassMembers, ClassName, JType, Member, is_word};

/// The units of a name up to its last slash.
fn package_of(name: &[u16]) -> &[u16]
    ensures package { result.now ≡ package_of name.now }
{
    let mut length = 0;
    for (at, unit) in name.iter().enumerate() {
        if *unit == 47 {
            length = at + 1;
        }
    }
    &name[..length]
}

/// Whether two classes are of one package.
pub fn is_same_package(first: &ClassName, second: &ClassName) -> bool
    ensures same { IsTrue result ↔ (package_of first.now ≡ package_of second.now) }
{
    package_of(first.as_slice()) == package_of(second.as_slice())
}

/// Whether a type is a class, or below it.
fn is_below(headers: &Headers, class: &ClassName, kind: &JType) -> bool
    ensures below { IsTrue result ↔ IsBelow headers.now class.now (view_type kind.now) }
{
    match kind {
        JType::Class(name) => headers.is_subclass(name, class),
        JType::Array(_) => is_word(class.as_slice(), "java/lang/Object"),
        JType::Boolean => false,
        JType::Byte => false,
        JType::Char => false,
        JType::Short => false,
        JType::Int => false,
        JType::Long => false,
        JType::Float => false,
        JType::Double => false,
    }
}

/// Whether there is no type, or one that is a class or below it.
fn is_through(headers: &Headers, class: &ClassName, through: Option<&JType>) -> bool
    ensures through { IsTrue result ↔ IfSome (option_map view_type (option_copied through.entry)) (IsBelow headers.now class.now) }
{
    match through {
        Some(kind) => is_below(headers, class, kind),
        None => true,
    }
}

/// Whether a protected member of a class may be used in a class below it.
fn allows_below(
    headers: &Headers,
    from: &ClassName,
    class: &ClassName,
    flags: u16,
    through: Option<&JType>,
) -> bool
    ensures allows { IsTrue result ↔ AllowsBelow headers.now from.now class.now flags (option_map view_type (option_copied through.entry)) }
{
    flags & 0x0004 != 0
        && headers.is_subclass(from, class)
        && !headers.is_interface(from)
        && (flags & 0x0008 != 0 || is_through(headers, from, through))
}

/// Whether a member of a class with these flags may be used in another class.
fn allows(
    headers: &Headers,
    from: &ClassName,
    class: &ClassName,
    flags: u16,
    through: Option<&JType>,
) -> bool
    ensures allows { IsTrue result ↔ Allows headers.now from.now class.now flags (option_map view_type (option_copied through.entry)) }
{
    if flags & 0x0001 != 0 {
        return true;
    }
    if flags & 0x0002 != 0 && from == class {
        return true;
    }
    if flags & 0x0002 == 0 && is_same_package(from, class) {
        return true;
    }
    allows_below(headers, from, class, flags, through)
}

/// The flags of a member of a class, if it is there.
fn flags_of(own: &ClassMembers, member: Member) -> Option<u16>
    ensures flags { result ≡ slice_get (flags_of member.method own.now) member.number }
{
    let number = member.number as usize;
    if member.method {
        match own.methods.get(number) {
            Some(method) => Some(method.flags),
            None => None,
        }
    } else {
        match own.fields.get(number) {
            Some(field) => Some(field.flags),
            None => None,
        }
    }
}

/// Whether there is a type, and it is an array.
fn is_array(through: Option<&JType>) -> bool
    ensures array { IsTrue result ↔ IsSomeAnd (option_map view_type (option_copied through.entry)) IsArray }
{
    match through {
        None => false,
        Some(kind) => matches!(kind, JType::Array(_)),
    }
}

/// Whether a member of a class is the method `clone` of Object.
fn is_clone(own: &ClassMembers, class: &ClassName, member: Member) -> bool
    ensures clone { IsTrue result ↔ IsClone own.now class.now member }
{
    if !member.method || !is_word(class.as_slice(), "java/lang/Object") {
        return false;
    }
    match own.methods.get(member.number as usize) {
        None => false,
        Some(method) => {
            is_word(method.name.as_slice(), "clone") && parameters_of(&method.descriptor).is_empty()
        }
    }
}

/// Whether a member of a class with these flags may be used in another class, or is an array's `clone`.
fn is_allowed(
    headers: &Headers,
    from: &ClassName,
    own: &ClassMembers,
    class: &ClassName,
    member: Member,
    flags: u16,
    through: Option<&JType>,
) -> bool
    ensures allowed { IsTrue result ↔ (Allows headers.now from.now class.now flags (option_map view_type (option_copied through.entry))
        ⊎ (IsSomeAnd (option_map view_type (option_copied through.entry)) IsArray × IsClone own.now class.now member)) }
{
    allows(headers, from, class, flags, through)
        || is_array(through) && is_clone(own, class, member)
}

/// Whether a member may be used in a class, through an expression of a type where there is one.
pub fn is_accessible(
    headers: &Headers,
    members: &MemberTable,
    from: &ClassName,
    member: Member,
    through: Option<&JType>,
) -> bool
    ensures accessible { IsTrue result ↔ IsAccessible headers.now members.now from.now member (option_map view_type (option_copied through.entry)) }
{
    let place = member.class as usize;
    let Some(header) = header_at(headers, place) else {
        return false;
    };
    let Some(own) = members.at(place) else {
        return false;
    };
    let Some(flags) = flags_of(own, member) else {
        return false;
    };
    is_allowed(headers, from, own, &header.name, member, flags, through)
}
