//! Answers lines on headers and values, on runs of code and of bodies, and on the rules of bodies; the first word of a line says what it is on.
//! It stands on headers, values and the world, on the readers of class files, code and texts, on the machine, on the program of source, and on the checks of bodies.
//! No layer stands above it: independent checks answer what runs ask from a heap of their own, and compare results and verdicts with those of the JVM and of javac.
//!
//! - `values` before a class and what stands above it, or a question on headers, or an action, a bar and an answer (`headers`, `actions`);
//! - `machine` before `class`, `run` or `more` (`machine`);
//! - `source` before `class`, `unit`, `run` or `more` (`source`);
//! - `typing` before `class` or `unit` (`typing`).
//!
//! Each has a world of its own. Where a line asks none of these, `unknown` is told.
#![tactic(auto)]

mod actions;
mod headers;
mod machine;
mod source;
mod typing;

use crate::machine::Codes;
use crate::source::Bodies;
use anyhow::Result;
use dj_headers::Headers;
use dj_world::World;
use std::alloc::Global;
use std::io;
use std::io::{BufRead, BufReader, BufWriter, Write};

/// What was told so far, and is asked about.
#[derive(Drop)]
struct Session {
    headers: Headers,
    codes: Codes,
    bodies: Bodies,
    typed: World,
}

impl Session {
    /// Nothing yet.
    fn new(alloc: Global) -> Session {
        Session {
            headers: Headers::new(alloc),
            codes: Codes::new(alloc),
            bodies: Bodies::new(alloc),
            typed: World::new(alloc),
        }
    }
}

/// Answers a line, at once.
fn put_answer<W: Write>(
    alloc: Global,
    session: &mut Session,
    out: &mut W,
    line: &str,
) -> Result<()> {
    match line.split_once(' ') {
        Some(("values", rest)) => headers::put_answer(alloc, &mut session.headers, out, rest)?,
        Some(("machine", rest)) => session.codes.put_answer(alloc, out, rest)?,
        Some(("source", rest)) => session.bodies.put_answer(alloc, out, rest)?,
        Some(("typing", rest)) => typing::put_answer(alloc, &mut session.typed, out, rest)?,
        _ => writeln!(out, "unknown")?,
    }
    out.flush()?;
    Ok(())
}

/// Answers each line of the input.
fn answer_lines(rt: HostRuntime, session: &mut Session) -> Result<()> {
    let alloc = rt.alloc();
    let mut out = BufWriter::new(alloc, io::writer(&rt))?;
    let lines = BufReader::new(alloc, rt.reader())?.lines(alloc);
    for line in lines {
        put_answer(alloc, session, &mut out, line?.as_str())?;
    }
    Ok(())
}

fn main(rt: HostRuntime) -> Result<()> {
    let mut session = Session::new(rt.alloc());
    answer_lines(rt, &mut session)
}
