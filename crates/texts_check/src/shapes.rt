//! The shape of a unit: the tree that a parser of Java makes of its text.

mod expressions;
mod members;
mod names;
mod out;
mod statements;

use crate::shapes::members::{put_field, put_helper, put_method, put_modifiers};
use crate::shapes::names::{put_class_option, put_classes};
use crate::shapes::out::Out;
use dj_syntax::{Unit, class_bits, is_interface};
use std::alloc::{AllocError, Global};

/// The shape of a unit.
pub fn shape_of(alloc: Global, unit: &Unit) -> Result<String, AllocError> {
    let mut out = Out::new(alloc);
    put_unit(&mut out, unit);
    out.into_text()
}

fn put_unit(out: &mut Out, unit: &Unit) {
    out.node("unit");
    put_class_option(out, &unit.package);
    out.empty();
    out.open();
    put_declared(out, unit, is_interface(unit.flags));
    out.close();
    out.close();
}

/// Puts the class or interface of a unit.
fn put_declared(out: &mut Out, unit: &Unit, interface: bool) {
    out.node(if interface { "interface" } else { "class" });
    out.open();
    put_modifiers(out, unit.flags & class_bits(interface));
    out.close();
    out.part(&unit.name);
    put_class_option(out, &unit.superclass);
    put_classes(out, unit.interfaces.as_slice());
    put_members(out, unit, interface);
    out.close();
}

fn put_members(out: &mut Out, unit: &Unit, interface: bool) {
    out.open();
    for field in unit.fields.as_slice() {
        put_field(out, field, interface);
    }
    if let Some(name) = &unit.helper {
        put_helper(out, name);
    }
    for method in unit.methods.as_slice() {
        put_method(out, method, unit, interface);
    }
    out.close();
}
