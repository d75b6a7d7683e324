//! Statements without statements in them.

use crate::shapes::expressions::{
    open_call, put_arguments, put_element, put_exp, put_member, put_option,
};
use crate::shapes::names::{ClassShape, TypeShape, name_of, name_of_label};
use crate::shapes::out::Out;
use dj_syntax::{Exp, Stm, Unit, Var};

/// Puts a statement that sets a variable.
pub fn put_set(out: &mut Out, variable: Var, value: &Exp) {
    out.node("run");
    out.node_of("=", &name_of(variable));
    put_stored(out, value);
}

/// Puts the value of a store, with which its statement ends.
fn put_stored(out: &mut Out, value: &Exp) {
    put_exp(out, value);
    out.close();
    out.close();
}

/// Puts a store.
fn put_store(out: &mut Out, stm: &Stm) {
    out.node("run");
    out.node("=");
    match stm {
        Stm::SetField(object, name, value) => {
            put_member(out, object, name);
            put_stored(out, value);
        }
        Stm::SetStatic(class, name, value) => {
            out.dotted(&ClassShape(class), name);
            put_stored(out, value);
        }
        Stm::SetElement(array, index, value) => {
            put_element(out, array, index);
            put_stored(out, value);
        }
        _ => {}
    }
}

/// Puts a throw of a variable through the helper, whose name stands behind that of its class.
fn put_rethrow(out: &mut Out, variable: Var, unit: &Unit) {
    out.node("throw");
    out.node("call");
    out.word("((. (. java lang) RuntimeException))");
    out.node(".");
    match &unit.package {
        None => out.part(&unit.name),
        Some(package) => out.dotted(&ClassShape(package), &unit.name),
    }
    if let Some(helper) = &unit.helper {
        out.part(helper);
    }
    out.close();
    out.open();
    out.part(&name_of(variable));
    out.close();
    out.close();
    out.close();
}

/// Puts a call of a constructor, of this class or else of the one above.
fn put_construct(out: &mut Out, own: bool, arguments: &[Exp]) {
    out.node("run");
    open_call(out);
    out.word(if own { "this" } else { "super" });
    put_arguments(out, arguments);
}

/// Puts a statement without statements in it.
pub fn put_simple(out: &mut Out, stm: &Stm, unit: &Unit) {
    match stm {
        Stm::Declare(variable, kind, value) => {
            out.node("var");
            out.empty();
            out.part(&TypeShape(kind));
            out.part(&name_of(*variable));
            put_option(out, value);
        }
        Stm::Set(variable, value) => return put_set(out, *variable, value),
        Stm::Run(call) => {
            out.node("run");
            put_exp(out, call);
        }
        Stm::Break(label) => out.node_of("break", &name_of_label(*label)),
        Stm::Continue(label) => out.node_of("continue", &name_of_label(*label)),
        Stm::Return(value) => {
            out.node("return");
            put_option(out, value);
        }
        Stm::Throw(value) => {
            out.node("throw");
            put_exp(out, value);
        }
        Stm::Rethrow(variable) => return put_rethrow(out, *variable, unit),
        Stm::Construct(own, arguments) => put_construct(out, *own, arguments.as_slice()),
        _ => return put_store(out, stm),
    }
    out.close();
}
