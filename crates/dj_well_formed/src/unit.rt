//! Which units have a text that no other has: their names are names, and each head says what its members are.

ghost use Rattle.std.specs.Prelude.{◌↔◌, IsTrue, IfSome};
ghost use Rattle.dj_syntax.specs.Trees.{view_unit};
ghost use Rattle.dj_syntax.specs.WellFormed.{IsHelperName, IsQualified, IsSuperclass, IsWellFormed};

use crate::members::{are_well_formed_fields, are_well_formed_methods};
use crate::names::{are_qualified, is_helper_name, is_qualified};
use dj_names::{ClassName, Units, is_identifier};
use dj_syntax::{Unit, held_class, is_interface};

/// `java/lang/Object`, in units.
const OBJECT: [u16; 16] = [
    106, 97, 118, 97, 47, 108, 97, 110, 103, 47, 79, 98, 106, 101, 99, 116,
];

/// Whether a unit is well formed, so that its text is that of no other well formed unit.
pub fn is_well_formed(unit: &Unit) -> bool
    ensures exact { IsTrue result ↔ IsWellFormed (view_unit unit.now) }
{
    let interface = is_interface(unit.flags);
    is_package(&unit.package)
        && is_identifier(&unit.name)
        && unit.flags == held_class(unit.flags)
        && has_superclass(interface, &unit.superclass)
        && are_qualified(unit.interfaces.as_slice())
        && are_well_formed_fields(interface, unit.fields.as_slice())
        && has_helper_name(&unit.helper)
        && are_well_formed_methods(unit, unit.methods.as_slice())
}

/// Whether a package, where there is one, has a qualified name.
fn is_package(name: &Option<ClassName>) -> bool
    ensures package { IsTrue result ↔ IfSome name.now IsQualified }
{
    match name {
        None => true,
        Some(name) => is_qualified(name.as_slice()),
    }
}

/// Whether the superclass, where there is one, may be named.
fn has_superclass(interface: bool, name: &Option<ClassName>) -> bool
    ensures superclass { IsTrue result ↔ IfSome name.now (IsSuperclass interface) }
{
    match name {
        None => true,
        Some(name) => is_superclass(interface, name.as_slice()),
    }
}

/// Whether a class may name this superclass: no interface names one, and no class java/lang/Object.
fn is_superclass(interface: bool, name: &[u16]) -> bool
    ensures superclass { IsTrue result ↔ IsSuperclass interface name.now }
{
    !interface && is_qualified(name) && name != OBJECT.as_slice()
}

/// Whether the helper, where there is one, has the name of a helper.
fn has_helper_name(name: &Option<Units>) -> bool
    ensures helper { IsTrue result ↔ IfSome name.now IsHelperName }
{
    match name {
        None => true,
        Some(name) => is_helper_name(name.as_slice()),
    }
}
