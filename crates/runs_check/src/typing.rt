//! The rules of bodies.
//! `class` and the hexadecimal bytes of a class file add it to a world, with `end`, or with `broken` or `clash`; `unit` and a text in hexadecimal tell of each method of its unit that has a body its name, its descriptor and the verdict, a line each, and then `end`. A verdict is `kept`, or the place and the kind of the first rule that the body breaks.

use anyhow::Result;
use dj_bodies::type_body;
use dj_faults::BodyFault;
use dj_read::{ReadUnitFault, read_unit};
use dj_syntax::{Body, MethodText, Unit};
use dj_world::World;
use run_lines::{DescriptorText, add_filled, class_of_digits};
use std::alloc::Global;
use std::io::Write;

/// Tells the verdict on a body.
fn put_verdict<W: Write>(alloc: Global, world: &World, out: &mut W, body: &Body) -> Result<()> {
    match type_body(alloc, world, body) {
        Ok(()) => writeln!(out, "kept")?,
        Err(BodyFault::TypeFault { place, kind }) => writeln!(out, "{place} {kind:?}")?,
        Err(BodyFault::Memory(error)) => return Err(error.into()),
    }
    Ok(())
}

/// Tells the name and the descriptor of a method, and the verdict on its body, where it has one.
fn put_method<W: Write>(
    alloc: Global,
    world: &World,
    out: &mut W,
    method: &MethodText,
) -> Result<()> {
    let Some(body) = &method.body else {
        return Ok(());
    };
    let descriptor = DescriptorText(&method.descriptor);
    write!(out, "{} {descriptor} ", method.name)?;
    put_verdict(alloc, world, out, body)
}

/// The same of each method of a unit, a line each.
fn put_methods<W: Write>(alloc: Global, world: &World, out: &mut W, unit: &Unit) -> Result<()> {
    for method in unit.methods.as_slice() {
        put_method(alloc, world, out, method)?;
    }
    Ok(())
}

/// The methods of the unit of a text in hexadecimal.
fn put_unit<W: Write>(alloc: Global, world: &World, out: &mut W, digits: &str) -> Result<()> {
    let bytes = hex::decode(alloc, digits.as_bytes())?;
    match read_unit(alloc, bytes.as_slice()) {
        Ok(unit) => put_methods(alloc, world, out, &unit)?,
        Err(ReadUnitFault::Misread) => writeln!(out, "misread")?,
        Err(ReadUnitFault::Deep) => writeln!(out, "deep")?,
        Err(ReadUnitFault::Memory(error)) => return Err(error.into()),
    }
    writeln!(out, "end")?;
    Ok(())
}

/// Adds the class of these hexadecimal bytes to a world, and the core classes that are missing: what became of it.
fn add_class(alloc: Global, world: &mut World, digits: &str) -> Result<&'static str> {
    let Some(class) = class_of_digits(alloc, digits)? else {
        return Ok("broken");
    };
    match add_filled(world, &class)? {
        Some(_) => Ok("clash"),
        None => Ok("end"),
    }
}

/// Answers a line in the world, which it may change.
pub fn put_answer<W: Write>(
    alloc: Global,
    world: &mut World,
    out: &mut W,
    line: &str,
) -> Result<()> {
    match line.split_once(' ') {
        Some(("class", digits)) => writeln!(out, "{}", add_class(alloc, world, digits)?)?,
        Some(("unit", digits)) => put_unit(alloc, world, out, digits)?,
        _ => writeln!(out, "unknown")?,
    }
    Ok(())
}
