//! Which members a class has (JLS 8.2, 8.4.8, 9.2), and two of their flags.

ghost use Rattle.std.specs.Prelude.{◌≡◌, ◌↔◌, IsTrue};
ghost use Rattle.dj_kinds.specs.Access.{package_of};
ghost use Rattle.dj_kinds.specs.Inherited.{InheritsInPackage, IsInherited};
ghost use Rattle.dj_meaning.specs.Members.{is_private, is_of_class};
ghost use Rattle.dj_meaning.specs.Visible.{is_inherited};
ghost use Rattle.dj_values.specs.Deciding.{is_interface};

use crate::classes::superclass_of;
use dj_headers::Headers;
use dj_names::ClassName;

/// Whether a member belongs to its class, by its flags.
pub fn is_static(flags: u16) -> bool
    ensures of_class { result ≡ is_of_class flags }
{
    flags & 0x0008 != 0
}

/// Whether a member is private, by its flags.
pub fn is_private(flags: u16) -> bool
    ensures private { result ≡ is_private flags }
{
    flags & 0x0002 != 0
}

/// Whether a class is an interface by its header.
pub fn is_interface(headers: &Headers, class: &ClassName) -> bool
    ensures interface { result ≡ is_interface headers.now class.now }
{
    headers.is_interface(class)
}

/// The units of a name up to its last slash.
fn package_of(name: &[u16]) -> &[u16]
    ensures package { result.now ≡ package_of name.now }
{
    let mut length = 0;
    for (at, unit) in name.iter().enumerate() {
        if *unit == 47 {
            length = at + 1;
        }
    }
    &name[..length]
}

/// Whether two classes are of one package.
fn is_same_package(first: &ClassName, second: &ClassName) -> bool
    ensures same { IsTrue result ↔ (package_of first.now ≡ package_of second.now) }
{
    package_of(first.as_slice()) == package_of(second.as_slice())
}

/// Whether each class on the way from a class up to another, this one left out, is of its package.
/// Such a way has at most as many steps as there are headers.
fn inherits_in_package(headers: &Headers, owner: &ClassName, class: &ClassName) -> bool
    ensures inherits { IsTrue result ↔ InheritsInPackage headers.now owner.now class.now }
{
    let mut at = class;
    for _ in 0..headers.as_slice().len() + 1 {
        if at == owner {
            return true;
        }
        if !is_same_package(at, owner) {
            return false;
        }
        match superclass_of(headers, at) {
            Some(superclass) => at = superclass,
            None => return false,
        }
    }
    false
}

/// Whether a class has a member that another declares with these flags, as a relation.
fn inherits(headers: &Headers, class: &ClassName, owner: &ClassName, flags: u16) -> bool
    ensures inherited { IsTrue result ↔ IsInherited headers.now class.now owner.now flags }
{
    if class == owner {
        return true;
    }
    if flags & 0x0001 != 0 {
        return true;
    }
    if flags & 0x0004 != 0 && headers.is_subclass(class, owner) {
        return true;
    }
    flags & 0x0002 == 0 && inherits_in_package(headers, owner, class)
}

/// Whether a class has a member that another declares with these flags.
pub fn is_inherited(headers: &Headers, class: &ClassName, owner: &ClassName, flags: u16) -> bool
    ensures inherited { result ≡ is_inherited headers.now class.now owner.now flags }
{
    inherits(headers, class, owner, flags)
}
