//! Types and descriptors, as they are spelled (JVMS 4.3).

use dj_names::{Descriptor, JType};
use std::fmt;
use std::fmt::Write;

/// A type, to be shown.
#[derive(Clone, Copy)]
pub struct TypeText<'a>(pub &'a JType);

impl fmt::Display for TypeText<'_> {
    fn fmt<W: Write>(&self, f: &mut fmt::Formatter<W>) -> fmt::Result {
        put_type(self.0, f)
    }
}

/// A type as it is spelled.
fn put_type<W: Write>(kind: &JType, f: &mut fmt::Formatter<W>) -> fmt::Result {
    match kind {
        JType::Boolean => f.write_str("Z"),
        JType::Byte => f.write_str("B"),
        JType::Char => f.write_str("C"),
        JType::Short => f.write_str("S"),
        JType::Int => f.write_str("I"),
        JType::Long => f.write_str("J"),
        JType::Float => f.write_str("F"),
        JType::Double => f.write_str("D"),
        JType::Class(name) => write!(f, "L{name};"),
        JType::Array(element) => {
            f.write_str("[")?;
            put_type(element.get(), f)
        }
    }
}

/// A descriptor, to be shown.
#[derive(Clone, Copy)]
pub struct DescriptorText<'a>(pub &'a Descriptor);

impl fmt::Display for DescriptorText<'_> {
    fn fmt<W: Write>(&self, f: &mut fmt::Formatter<W>) -> fmt::Result {
        match self.0 {
            Descriptor::Field(kind) => put_type(kind, f),
            Descriptor::Method { parameters, result } => {
                f.write_str("(")?;
                for kind in parameters.as_slice() {
                    put_type(kind, f)?;
                }
                match result {
                    Some(kind) => write!(f, "){}", TypeText(kind)),
                    None => f.write_str(")V"),
                }
            }
        }
    }
}
