//! The types of fields, parameters and results (JVMS 4.3.2).

ghost use Rattle.std.specs.Prelude.{◌≡◌, ◌↔◌, IsTrue, IfOk};
ghost use Rattle.dj_names.specs.Types.{view_type};
ghost use Rattle.dj_names.specs.Descriptors.{words};

use crate::class_name::ClassName;
use crate::shared::Shared;
use std::alloc::{AllocError, Global};

/// A type of the machine: primitive, a class or interface, or an array of a type.
#[derive(Drop)]
pub enum JType {
    Boolean,
    Byte,
    Char,
    Short,
    Int,
    Long,
    Float,
    Double,
    Class(ClassName),
    Array(Shared<JType>),
}

impl JType {
    /// How many words a parameter of the type takes.
    pub fn words(&self) -> u8
        ensures words { result ≡ words (view_type self.now) }
    {
        match self {
            JType::Long | JType::Double => 2,
            JType::Boolean => 1,
            JType::Byte => 1,
            JType::Char => 1,
            JType::Short => 1,
            JType::Int => 1,
            JType::Float => 1,
            JType::Class(_) => 1,
            JType::Array(_) => 1,
        }
    }

    /// An equal type, which shares its parts with this one and takes no room of its own.
    pub fn copy(&self, alloc: Global) -> Result<JType, AllocError>
        ensures equal { IfOk result (λ copy. copy ≡ self.now) }
    {
        match self {
            JType::Boolean => Ok(JType::Boolean),
            JType::Byte => Ok(JType::Byte),
            JType::Char => Ok(JType::Char),
            JType::Short => Ok(JType::Short),
            JType::Int => Ok(JType::Int),
            JType::Long => Ok(JType::Long),
            JType::Float => Ok(JType::Float),
            JType::Double => Ok(JType::Double),
            JType::Class(name) => Ok(JType::Class(name.copy(alloc)?)),
            JType::Array(element) => Ok(JType::Array(element.share()?)),
        }
    }
}

/// Whether two types are the same.
pub fn same_type(first: &JType, second: &JType) -> bool
    ensures same { IsTrue result ↔ (view_type first.now ≡ view_type second.now) }
{
    match first {
        JType::Boolean => matches!(second, JType::Boolean),
        JType::Byte => matches!(second, JType::Byte),
        JType::Char => matches!(second, JType::Char),
        JType::Short => matches!(second, JType::Short),
        JType::Int => matches!(second, JType::Int),
        JType::Long => matches!(second, JType::Long),
        JType::Float => matches!(second, JType::Float),
        JType::Double => matches!(second, JType::Double),
        JType::Class(name) => matches!(second, JType::Class(other) if name == other),
        JType::Array(element) => match second {
            JType::Array(other) => same_type(element.get(), other.get()),
            _ => false,
        },
    }
}
