//! A world that lines add classes to.

use crate::questions::put_question;
use anyhow::Result;
use dj_class::{ClassFault, read_class};
use dj_world::World;
use run_lines::{add_class, fill};
use std::alloc::Global;
use std::io::Write;

/// The oldest major version of a class that is added.
const OLDEST: u16 = 45;

/// Adds the class that the bytes are, and tells what became of it.
fn put_added<W: Write>(alloc: Global, world: &mut World, out: &mut W, digits: &str) -> Result<()> {
    let bytes = hex::decode(alloc, digits.as_bytes())?;
    match read_class(alloc, bytes.as_slice(), OLDEST) {
        Ok(class) => match add_class(world, &class)? {
            None => writeln!(out, "added")?,
            Some(kind) => writeln!(out, "clash {kind:?}")?,
        },
        Err(ClassFault::Broken { .. }) => writeln!(out, "broken")?,
        Err(ClassFault::Memory(error)) => return Err(error.into()),
    }
    Ok(())
}

/// Tells how many classes the world has.
fn put_count<W: Write>(world: &World, out: &mut W) -> Result<()> {
    let count = world.headers().as_slice().len();
    writeln!(out, "{count} classes")?;
    Ok(())
}

/// Answers a question of several words, or adds the class that one word is.
fn put_told<W: Write>(alloc: Global, world: &mut World, out: &mut W, line: &str) -> Result<()> {
    let mut words = Vec::new(alloc);
    for word in line.split(' ') {
        words.push(word)?;
    }
    if words.len() == 1 {
        put_added(alloc, world, out, line)
    } else {
        put_question(alloc, world, out, words.as_slice())
    }
}

/// Answers a line: `fill` adds the core classes that are missing, and `empty` begins anew, each with how many classes there are then; hexadecimal bytes are a class that is added, with `added`, the clash, or `broken`; several words are a question.
pub fn put_world<W: Write>(
    alloc: Global,
    world: &mut World,
    out: &mut W,
    line: &str,
) -> Result<()> {
    match line {
        "fill" => fill(world)?,
        "empty" => *world = World::new(alloc),
        _ => return put_told(alloc, world, out, line),
    }
    put_count(world, out)
}
