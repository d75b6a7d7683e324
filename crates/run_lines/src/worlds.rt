//! A world of classes from their bytes.

use anyhow::{Result, bail};
use dj_class::{ClassFault, ClassFile, read_class};
use dj_world::{AddFault, ClashKind, World};
use std::alloc::Global;

/// The oldest major version whose classes are run.
const OLDEST: u16 = 50;

/// How many fields a class file has at most, how many methods, and how many classes are added here.
const MOST: usize = 65_535;

/// The class of these hexadecimal bytes, where they are a class file.
pub fn class_of_digits(alloc: Global, digits: &str) -> Result<Option<ClassFile>> {
    let bytes = hex::decode(alloc, digits.as_bytes())?;
    match read_class(alloc, bytes.as_slice(), OLDEST) {
        Ok(class) => Ok(Some(class)),
        Err(ClassFault::Broken { .. }) => Ok(None),
        Err(ClassFault::Memory(error)) => Err(error.into()),
    }
}

/// Adds a class to a world, or tells how it clashes with those that are there.
pub fn add_class(world: &mut World, class: &ClassFile) -> Result<Option<ClashKind>> {
    if class.fields.len() > MOST
        || class.methods.len() > MOST
        || world.members().classes.len() > MOST
    {
        bail!("too many classes or members");
    }
    match world.add(class) {
        Ok(()) => Ok(None),
        Err(AddFault::Clash(kind)) => Ok(Some(kind)),
        Err(AddFault::Memory(error)) => Err(error.into()),
    }
}

/// Adds the core classes that are missing.
pub fn fill(world: &mut World) -> Result<()> {
    if world.members().classes.len() > MOST {
        bail!("too many classes");
    }
    world.fill()?;
    Ok(())
}

/// Adds a class, unless it clashes, and then the core classes that are missing.
pub fn add_filled(world: &mut World, class: &ClassFile) -> Result<Option<ClashKind>> {
    let clash = add_class(world, class)?;
    fill(world)?;
    Ok(clash)
}
