//! Which members a class has by inheritance (JLS 8.2, 8.4.8).

ghost use Rattle.std.specs.Prelude.{◌≡◌, ◌↔◌, IsTrue, IsSomeAnd, slice_get};
ghost use Rattle.dj_names.specs.Headers.{names};
ghost use Rattle.dj_kinds.specs.Inherited.{InheritsInPackage, IsInherited};

use crate::access::is_same_package;
use crate::search::{header_at, superclass_of};
use dj_headers::Headers;
use dj_names::{ClassName, Member};

/// Whether each class on the way from a class up to another, this one left out, is of its package.
/// Such a way has at most as many steps as there are headers.
fn inherits_in_package(headers: &Headers, owner: &ClassName, class: &ClassName) -> bool
    ensures inherits { IsTrue result ↔ InheritsInPackage headers.now owner.now class.now }
{
    let mut at = class;
    for _ in 0..headers.as_slice().len() + 1 {
        if at == owner {
            return true;
        }
        if !is_same_package(at, owner) {
            return false;
        }
        match superclass_of(headers, at) {
            Some(superclass) => at = superclass,
            None => return false,
        }
    }
    false
}

/// Whether a class has a member that another declares with these flags.
fn is_inherited(headers: &Headers, class: &ClassName, owner: &ClassName, flags: u16) -> bool
    ensures inherited { IsTrue result ↔ IsInherited headers.now class.now owner.now flags }
{
    if class == owner {
        return true;
    }
    if flags & 0x0001 != 0 {
        return true;
    }
    if flags & 0x0004 != 0 && headers.is_subclass(class, owner) {
        return true;
    }
    flags & 0x0002 == 0 && inherits_in_package(headers, owner, class)
}

/// Whether a class has a member with these flags, its own or by inheritance.
pub fn is_member_of(headers: &Headers, class: &ClassName, member: Member, flags: u16) -> bool
    ensures inherited { IsTrue result ↔ IsSomeAnd (slice_get (names headers.now) member.class) (λ owner. IsInherited headers.now class.now owner flags) }
{
    match header_at(headers, member.class as usize) {
        Some(header) => is_inherited(headers, class, &header.name, flags),
        None => false,
    }
}
