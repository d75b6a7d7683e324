//! Reads texts, and tells of each unit that is read the tree that a parser of Java has to make of its text.
//! It stands on the reader, the printer and the trees, and on `dj_outer` for files, and reads lines and prints.
//! No layer stands above it: an independent check lets the parser of the JDK read the same texts, and compares the trees; benches run it on large texts.
//!
//! - `read` before a text in hexadecimal: `unit` and the tree; `otherwise`, where the printer gives the unit another text; `misread`, where it is no unit's text; or `deep`, where it nests too deep to be read;
//! - `file` before the name of a file that `decompile` printed: whether its text is read back, `read`, `misread` or `deep`; or `no text`;
//! - `print` before the name of such a file: where its text is read, how many bytes it has when it is printed again.
//!
//! Where a line asks none of these, `unknown` is told.
#![tactic(auto)]

ghost use Rattle.std.specs.Prelude.{IfOk};
ghost use Rattle.dj_syntax.specs.Trees.{view_unit};
ghost use Rattle.dj_syntax.specs.WellFormed.{IsWellFormed};

mod shapes;

use crate::shapes::shape_of;
use anyhow::Result;
use dj_outer::{DiskFiles, Files, Loaded};
use dj_print::unit_bytes;
use dj_read::{ReadUnitFault, read_unit};
use dj_syntax::Unit;
use std::alloc::Global;
use std::io;
use std::io::{BufRead, BufReader, BufWriter, Write};

/// The most bytes that the text of a file may have.
const MOST_BYTES: usize = 1 << 30;

/// The unit that is read of a text, or the word for why none is.
fn unit_of(alloc: Global, text: &[u8]) -> Result<Result<Unit, &'static str>>
    ensures well_formed { IfOk result (λ read. IfOk read (λ unit. IsWellFormed (view_unit unit))) }
{
    match read_unit(alloc, text) {
        Ok(unit) => Ok(Ok(unit)),
        Err(ReadUnitFault::Misread) => Ok(Err("misread")),
        Err(ReadUnitFault::Deep) => Ok(Err("deep")),
        Err(ReadUnitFault::Memory(error)) => Err(error.into()),
    }
}

/// The text that a unit is printed as.
fn text_of(alloc: Global, unit: &Unit) -> Result<Vec<u8>>
    requires well_formed { IsWellFormed (view_unit unit.now) }
{
    Ok(unit_bytes(alloc, unit)?)
}

/// Tells the tree of a text in hexadecimal.
fn put_tree<W: Write>(alloc: Global, out: &mut W, digits: &str) -> Result<()> {
    let text = hex::decode(alloc, digits.as_bytes())?;
    match unit_of(alloc, text.as_slice())? {
        Ok(unit) if text_of(alloc, &unit)? == text => {
            writeln!(out, "unit {}", shape_of(alloc, &unit)?)?;
        }
        Ok(_) => writeln!(out, "otherwise")?,
        Err(word) => writeln!(out, "{word}")?,
    }
    Ok(())
}

/// The lines behind the first one, which names the file that the text belongs in.
fn unit_text(text: &[u8]) -> &[u8] {
    let end = text
        .iter()
        .position(|byte| *byte == b'\n')
        .unwrap_or(text.len());
    match text.get(end..) {
        Some([_, lines @ ..]) => lines,
        Some([]) | None => &[],
    }
}

/// The unit that is read of a file, or the word for why none is.
fn unit_in(alloc: Global, files: &mut impl Files, name: &str) -> Result<Result<Unit, &'static str>>
    ensures well_formed { IfOk result (λ read. IfOk read (λ unit. IsWellFormed (view_unit unit))) }
{
    match files.load(alloc, name, MOST_BYTES) {
        Ok(Loaded::Whole(text)) => unit_of(alloc, unit_text(text.as_slice())),
        Ok(Loaded::Over) | Err(_) => Ok(Err("no text")),
    }
}

/// Tells whether the text of a file is read, or of how many bytes it is when it is printed again.
fn put_file<W: Write>(
    alloc: Global,
    files: &mut impl Files,
    out: &mut W,
    name: &str,
    again: bool,
) -> Result<()> {
    match unit_in(alloc, files, name)? {
        Ok(unit) if again => writeln!(out, "{}", text_of(alloc, &unit)?.len())?,
        Ok(_) => writeln!(out, "read")?,
        Err(word) => writeln!(out, "{word}")?,
    }
    Ok(())
}

/// Answers a line.
fn put_answer<W: Write>(
    alloc: Global,
    files: &mut impl Files,
    out: &mut W,
    line: &str,
) -> Result<()> {
    match line.split_once(' ') {
        Some(("read", digits)) => put_tree(alloc, out, digits),
        Some(("file", name)) => put_file(alloc, files, out, name, false),
        Some(("print", name)) => put_file(alloc, files, out, name, true),
        _ => Ok(writeln!(out, "unknown")?),
    }
}

/// Answers each line of the input.
fn main(rt: HostRuntime) -> Result<()> {
    let alloc = rt.alloc();
    let mut files = DiskFiles::new(&rt);
    let mut out = BufWriter::new(alloc, io::writer(&rt))?;
    for line in BufReader::new(alloc, rt.reader())?.lines(alloc) {
        put_answer(alloc, &mut files, &mut out, line?.as_str())?;
    }
    out.flush()?;
    Ok(())
}
