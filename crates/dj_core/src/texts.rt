//! Names and descriptors made of texts.

ghost use Rattle.std.specs.Prelude.{◌≡◌, IfOk, option_map};
ghost use Rattle.dj_names.specs.Types.{view_descriptor};
ghost use Rattle.dj_names.specs.Descriptors.{SpellsDescriptor};
ghost use Rattle.dj_core.specs.Rows.{texts, IsSpelling};

use dj_names::{ClassName, Descriptor, Items, NameFault, Units, read_descriptor};
use std::alloc::{AllocError, Global};

/// Units that are the bytes of a text.
pub fn units_of(alloc: Global, text: &str) -> Result<Units, AllocError>
    ensures units { IfOk result (λ units. units ≡ text.now) }
{
    let mut units = Vec::new(alloc);
    for byte in text.as_bytes() {
        units.push(u16::from(*byte))?;
    }
    Units::from_vec(units)
}

/// The class of this name.
pub fn class_of(alloc: Global, text: &str) -> Result<ClassName, AllocError>
    ensures name { IfOk result (λ name. name ≡ text.now) }
{
    Ok(ClassName::new(units_of(alloc, text)?))
}

/// The class of this name, if there is one.
pub fn maybe_class(alloc: Global, text: Option<&str>) -> Result<Option<ClassName>, AllocError>
    ensures name { IfOk result (λ name. name ≡ option_map (λ text. text.now) text.entry) }
{
    match text {
        Some(text) => Ok(Some(class_of(alloc, text)?)),
        None => Ok(None),
    }
}

/// The classes of these names.
pub fn classes_of(alloc: Global, names: &[&str]) -> Result<Items<ClassName>, AllocError>
    ensures names { IfOk result (λ classes. classes ≡ texts names.now) }
{
    let mut classes = Items::new(alloc);
    for name in names {
        classes.push(class_of(alloc, name)?)?;
    }
    Ok(classes)
}

/// The descriptor that a text spells.
pub fn descriptor_of(alloc: Global, text: &str) -> Result<Descriptor, AllocError>
    requires spelling { IsSpelling text.now }
    ensures spelled { IfOk result (λ read. SpellsDescriptor text.now (view_descriptor read)) }
{
    let units = units_of(alloc, text)?;
    match read_descriptor(alloc, &units) {
        Ok(read) => Ok(read),
        Err(NameFault::Memory(error)) => Err(error),
        Err(NameFault::BadDescriptor(_)) => unreachable!(),
        Err(NameFault::BadUnits(_)) => unreachable!(),
    }
}
