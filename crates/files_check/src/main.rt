//! Answers lines on names, class files, code, a world of classes and command lines; the first word of a line says what it is on.
//! It stands on names, the readers of class files and of code, the world, type checking and the words of a command line, and reads and prints.
//! No layer stands above it: independent checks compare its answers with those of Java, of the JVM and of second readings.
//!
//! - `name` before `u` and bytes, or `d` or `i` and units, in hexadecimal (`names`);
//! - `class` before the hexadecimal bytes of a class file: `whole`, or the kind and offset of the fault;
//! - `code` before such bytes: the code of its methods, a line each head, limits, instruction, handler and frame, or their first fault, and then `end`;
//! - `verify` before such bytes: what type checking finds of each method with code, in the world of now, a line each, and then `end`;
//! - `world` before such bytes, `fill`, `empty` or a question of several words (`worlds`, `questions`);
//! - `words` before a command line (`words`).
//!
//! Where a line asks none of these, `unknown` is told.
#![tactic(auto)]

mod files;
mod frames;
mod instructions;
mod methods;
mod names;
mod questions;
mod variants;
mod words;
mod worlds;

use anyhow::Result;
use dj_world::World;
use std::alloc::Global;
use std::io;
use std::io::{BufRead, BufReader, BufWriter, Write};

/// Answers a line in the world, which it may change.
fn put_answer<W: Write>(alloc: Global, world: &mut World, out: &mut W, line: &str) -> Result<()> {
    match line.split_once(' ') {
        Some(("name", rest)) => names::put_name(alloc, out, rest),
        Some(("class", digits)) => files::put_file(alloc, out, digits),
        Some(("code", digits)) => files::put_code(alloc, out, digits),
        Some(("verify", digits)) => files::put_verified(alloc, world.headers(), out, digits),
        Some(("world", rest)) => worlds::put_world(alloc, world, out, rest),
        Some(("words", rest)) => words::put_order(alloc, out, rest),
        _ => Ok(writeln!(out, "unknown")?),
    }
}

/// Answers each line of the input.
fn main(rt: HostRuntime) -> Result<()> {
    let alloc = rt.alloc();
    let mut out = BufWriter::new(alloc, io::writer(&rt))?;
    let lines = BufReader::new(alloc, rt.reader())?.lines(alloc);
    let mut world = World::new(alloc);
    for line in lines {
        put_answer(alloc, &mut world, &mut out, line?.as_str())?;
    }
    out.flush()?;
    Ok(())
}
