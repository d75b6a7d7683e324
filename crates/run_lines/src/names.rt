//! Names and types from texts, as they are spelled (JVMS 4.2, 4.3).

use anyhow::Result;
use dj_names::{ClassName, Descriptor, JType, Units, read_descriptor, read_units};
use std::alloc::Global;

/// The units of a text.
pub fn units_of(alloc: Global, text: &str) -> Result<Units> {
    Ok(read_units(alloc, text.as_bytes())?)
}

/// The class of this name.
pub fn class_name_of(alloc: Global, text: &str) -> Result<ClassName> {
    Ok(ClassName::new(units_of(alloc, text)?))
}

/// The descriptor that a text spells.
pub fn descriptor_of(alloc: Global, text: &str) -> Result<Descriptor> {
    Ok(read_descriptor(alloc, &units_of(alloc, text)?)?)
}

/// The type that a field's descriptor spells; int, where it is a method's.
pub fn type_of(alloc: Global, text: &str) -> Result<JType> {
    match descriptor_of(alloc, text)? {
        Descriptor::Field(kind) => Ok(kind),
        Descriptor::Method { .. } => Ok(JType::Int),
    }
}
