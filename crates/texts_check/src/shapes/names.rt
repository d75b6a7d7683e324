//! Names, types, variables and texts.

use crate::shapes::out::Out;
use dj_names::{ClassName, JType, Units, is_shown_plain};
use dj_syntax::{Var, VarKind};
use std::fmt;
use std::fmt::Write;

const SLASH: u16 = b'/' as u16;

/// The name of a class or a package: each segment but the first stands behind a dot.
#[derive(Clone, Copy)]
pub struct ClassShape<'a>(pub &'a ClassName);

impl fmt::Display for ClassShape<'_> {
    fn fmt<W: Write>(&self, f: &mut fmt::Formatter<W>) -> fmt::Result {
        put_class(self.0.as_slice(), f)
    }
}

fn put_class<W: Write>(name: &[u16], f: &mut fmt::Formatter<W>) -> fmt::Result {
    for _ in name.iter().filter(|unit| **unit == SLASH) {
        f.write_str("(. ")?;
    }
    for (index, segment) in name.split(|unit| *unit == SLASH).enumerate() {
        if index > 0 {
            f.write_str(" ")?;
        }
        put_segment(segment, f)?;
        if index > 0 {
            f.write_str(")")?;
        }
    }
    Ok(())
}

fn put_segment<W: Write>(units: &[u16], f: &mut fmt::Formatter<W>) -> fmt::Result {
    for unit in units {
        if is_shown_plain(*unit) {
            f.write_char(char::from(*unit as u8))?;
        } else {
            write!(f, "\\u{unit:04x}")?;
        }
    }
    Ok(())
}

/// A type.
#[derive(Clone, Copy)]
pub struct TypeShape<'a>(pub &'a JType);

impl fmt::Display for TypeShape<'_> {
    fn fmt<W: Write>(&self, f: &mut fmt::Formatter<W>) -> fmt::Result {
        put_type(self.0, f)
    }
}

fn put_type<W: Write>(kind: &JType, f: &mut fmt::Formatter<W>) -> fmt::Result {
    match kind {
        JType::Boolean => f.write_str("boolean"),
        JType::Byte => f.write_str("byte"),
        JType::Char => f.write_str("char"),
        JType::Short => f.write_str("short"),
        JType::Int => f.write_str("int"),
        JType::Long => f.write_str("long"),
        JType::Float => f.write_str("float"),
        JType::Double => f.write_str("double"),
        JType::Class(name) => put_class(name.as_slice(), f),
        JType::Array(element) => {
            f.write_str("(array ")?;
            put_type(element.get(), f)?;
            f.write_str(")")
        }
    }
}

/// A type behind so many pairs of brackets.
#[derive(Clone, Copy)]
pub struct ArrayShape<'a>(pub &'a JType, pub u32);

impl fmt::Display for ArrayShape<'_> {
    fn fmt<W: Write>(&self, f: &mut fmt::Formatter<W>) -> fmt::Result {
        for _ in 0..self.1 {
            f.write_str("(array ")?;
        }
        put_type(self.0, f)?;
        for _ in 0..self.1 {
            f.write_str(")")?;
        }
        Ok(())
    }
}

/// A name that is a letter and a number.
#[derive(Clone, Copy)]
pub struct Numbered(pub char, pub u64);

impl fmt::Display for Numbered {
    fn fmt<W: Write>(&self, f: &mut fmt::Formatter<W>) -> fmt::Result {
        write!(f, "{}{}", self.0, self.1)
    }
}

/// The name of a variable.
pub fn name_of(variable: Var) -> Numbered {
    let letter = match variable.kind {
        VarKind::Param => 'p',
        VarKind::Local => 'v',
        VarKind::Caught => 'e',
        VarKind::State => 's',
    };
    Numbered(letter, u64::from(variable.number))
}

/// The name of a label.
pub fn name_of_label(label: u32) -> Numbered {
    Numbered('l', u64::from(label))
}

/// A text by its units.
#[derive(Clone, Copy)]
pub struct TextShape<'a>(pub &'a Units);

impl fmt::Display for TextShape<'_> {
    fn fmt<W: Write>(&self, f: &mut fmt::Formatter<W>) -> fmt::Result {
        write!(f, "\"{}\"", self.0)
    }
}

/// Puts a list of classes.
pub fn put_classes(out: &mut Out, names: &[ClassName]) {
    out.open();
    for name in names {
        out.part(&ClassShape(name));
    }
    out.close();
}

/// Puts a class where one is named.
pub fn put_class_option(out: &mut Out, name: &Option<ClassName>) {
    match name {
        None => out.none(),
        Some(name) => out.part(&ClassShape(name)),
    }
}

/// Puts a variable without a value and without modifiers.
pub fn put_variable<T: fmt::Display>(out: &mut Out, kind: &T, name: Numbered) {
    out.node("var");
    out.empty();
    out.part(kind);
    out.part(&name);
    out.none();
    out.close();
}
