//! What a run shows, in words: how many actions, and the result, or the last action where it goes on.

use crate::types::{DescriptorText, TypeText};
use dj_names::JType;
use dj_values::{Action, End, InvokeKind, RefId, RefValue, Show, Value};
use std::fmt;
use std::fmt::Write;

/// A reference, to be shown.
#[derive(Clone, Copy)]
struct RefText<'a>(&'a RefValue);

impl fmt::Display for RefText<'_> {
    fn fmt<W: Write>(&self, f: &mut fmt::Formatter<W>) -> fmt::Result {
        match &self.0.id {
            RefId::Number(number) => {
                write!(f, "r{number}:{}:{}", TypeText(&self.0.class), self.0.length)
            }
            RefId::Text(units) => write!(f, "s{units}"),
        }
    }
}

/// A value, to be shown.
#[derive(Clone, Copy)]
struct ValueText<'a>(&'a Value);

impl fmt::Display for ValueText<'_> {
    fn fmt<W: Write>(&self, f: &mut fmt::Formatter<W>) -> fmt::Result {
        match self.0 {
            Value::Int(number) => write!(f, "i{number}"),
            Value::Long(number) => write!(f, "l{number}"),
            Value::Null => f.write_str("n"),
            Value::Ref(reference) => write!(f, "{}", RefText(reference)),
        }
    }
}

/// How a call finds its method, in a word.
fn kind_word(kind: InvokeKind) -> &'static str {
    match kind {
        InvokeKind::Virtual => "virtual",
        InvokeKind::Interface => "interface",
        InvokeKind::Static => "static",
        InvokeKind::Special => "special",
    }
}

fn put_values<W: Write>(values: &[Value], f: &mut fmt::Formatter<W>) -> fmt::Result {
    for value in values {
        write!(f, " {}", ValueText(value))?;
    }
    Ok(())
}

fn put_array<W: Write>(kind: &JType, sizes: &[i32], f: &mut fmt::Formatter<W>) -> fmt::Result {
    write!(f, "array {}", TypeText(kind))?;
    for size in sizes {
        write!(f, " {size}")?;
    }
    Ok(())
}

/// An action, to be shown.
#[derive(Clone, Copy)]
struct ActionText<'a>(&'a Action);

impl fmt::Display for ActionText<'_> {
    fn fmt<W: Write>(&self, f: &mut fmt::Formatter<W>) -> fmt::Result {
        match self.0 {
            Action::New(class) => write!(f, "new {class}"),
            Action::NewArray(kind, sizes) => put_array(kind, sizes.as_slice(), f),
            Action::GetField(object, _, name, kind) => {
                write!(f, "get {} {name} {}", RefText(object), TypeText(kind))
            }
            Action::PutField(object, _, name, _, value) => {
                write!(f, "put {} {name} {}", RefText(object), ValueText(value))
            }
            Action::GetStatic(class, name, kind) => {
                write!(f, "getstatic {} {name} {}", TypeText(class), TypeText(kind))
            }
            Action::PutStatic(class, name, _, value) => {
                write!(
                    f,
                    "putstatic {} {name} {}",
                    TypeText(class),
                    ValueText(value)
                )
            }
            Action::ArrayLoad(array, index) => write!(f, "load {} {index}", RefText(array)),
            Action::ArrayStore(array, index, value) => {
                write!(f, "store {} {index} {}", RefText(array), ValueText(value))
            }
            Action::Invoke(kind, class, name, descriptor, values) => {
                let kind = kind_word(*kind);
                let descriptor = DescriptorText(descriptor);
                write!(f, "call {kind} {} {name} {descriptor}", TypeText(class))?;
                put_values(values.as_slice(), f)
            }
            Action::ClassConstant(kind) => write!(f, "class {}", TypeText(kind)),
            Action::Enter(object) => write!(f, "enter {}", RefText(object)),
            Action::Exit(object) => write!(f, "exit {}", RefText(object)),
            Action::Trap(class) => write!(f, "trap {class}"),
        }
    }
}

/// A show, to be shown.
#[derive(Clone, Copy)]
pub struct ShowText<'a>(pub &'a Show);

impl fmt::Display for ShowText<'_> {
    fn fmt<W: Write>(&self, f: &mut fmt::Formatter<W>) -> fmt::Result {
        let actions = self.0.actions.as_slice();
        write!(f, "{} ", actions.len())?;
        match &self.0.end {
            End::More => match actions.last() {
                Some(action) => write!(f, "more {}", ActionText(action)),
                None => f.write_str("more"),
            },
            End::Return(Some(value)) => write!(f, "return {}", ValueText(value)),
            End::Return(None) => f.write_str("return"),
            End::Throw(reference) => write!(f, "throw {}", RefText(reference)),
        }
    }
}
