//! Fields, methods, constructors, static initialisers and the helper.

use crate::shapes::expressions::put_option;
use crate::shapes::names::{Numbered, TypeShape, put_classes, put_variable};
use crate::shapes::out::Out;
use crate::shapes::statements::{put_block, put_stms};
use dj_names::{Descriptor, Units};
use dj_syntax::{
    Body, FieldText, MethodText, Unit, field_bits, is_constructor, is_initialiser, method_bits,
};

const STATIC: u16 = 0x0008;

/// Modifiers and their bits, in the order in which a text has them.
const MODIFIERS: &[(u16, &str)] = &[
    (0x0001, "public"),
    (0x0004, "protected"),
    (0x0002, "private"),
    (0x0400, "abstract"),
    (0x0008, "static"),
    (0x0010, "final"),
    (0x0020, "synchronized"),
    (0x0100, "native"),
    (0x0080, "transient"),
    (0x0040, "volatile"),
];

/// Puts the modifiers whose bits are among these.
pub fn put_modifiers(out: &mut Out, bits: u16) {
    for (bit, word) in MODIFIERS {
        if bits & *bit != 0 {
            out.word(word);
        }
    }
}

/// Puts a field.
pub fn put_field(out: &mut Out, field: &FieldText, interface: bool) {
    out.node("var");
    out.open();
    put_modifiers(
        out,
        field.flags & field_bits(interface, field.value.is_some()),
    );
    out.close();
    out.part(&TypeShape(&field.kind));
    out.part(&field.name);
    put_option(out, &field.value);
    out.close();
}

/// Puts the helper that throws any throwable.
pub fn put_helper(out: &mut Out, name: &Units) {
    out.node("method");
    out.word("(static) ((type T (. (. java lang) Throwable)))");
    out.word("(. (. java lang) RuntimeException)");
    out.part(name);
    out.word("((var () (. (. java lang) Throwable) t -)) (T)");
    out.word("(block (throw (cast T t)))");
    out.close();
}

/// Puts a method, a constructor or a static initialiser.
pub fn put_method(out: &mut Out, method: &MethodText, unit: &Unit, interface: bool) {
    if is_initialiser(&method.name) {
        put_initialiser(out, &method.body, unit);
    } else {
        put_named(out, method, unit, interface);
    }
}

fn put_initialiser(out: &mut Out, body: &Option<Body>, unit: &Unit) {
    out.node("static");
    if let Some(body) = body {
        put_stms(out, body.statements.as_slice(), unit);
    }
    out.close();
}

/// Puts a method or a constructor.
fn put_named(out: &mut Out, method: &MethodText, unit: &Unit, interface: bool) {
    out.node("method");
    put_method_modifiers(out, method, interface);
    out.empty();
    put_head(out, method);
    put_classes(out, method.thrown.as_slice());
    match &method.body {
        None => out.none(),
        Some(body) => put_block(out, body.statements.as_slice(), unit),
    }
    out.close();
}

/// Puts what a method shows, with `default` where an interface has its body.
fn put_method_modifiers(out: &mut Out, method: &MethodText, interface: bool) {
    out.open();
    put_modifiers(out, method.flags & method_bits(interface));
    if interface && method.body.is_some() && method.flags & STATIC == 0 {
        out.word("default");
    }
    out.close();
}

/// Puts the result of a method, which a constructor has not, its name and its parameters.
fn put_head(out: &mut Out, method: &MethodText) {
    let Descriptor::Method { parameters, result } = &method.descriptor else {
        return;
    };
    match result {
        _ if is_constructor(&method.name) => out.none(),
        Some(kind) => out.part(&TypeShape(kind)),
        None => out.word("void"),
    }
    out.part(&method.name);
    out.open();
    for (index, kind) in parameters.as_slice().iter().enumerate() {
        put_variable(out, &TypeShape(kind), Numbered('p', index as u64));
    }
    out.close();
}
