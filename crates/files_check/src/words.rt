//! What a command line asks for.

use anyhow::Result;
use dj_words::{Order, WordsFault, read_words};
use std::alloc::Global;
use std::io::Write;

/// The words of a line, with a tab between.
fn words_of(alloc: Global, line: &str) -> Result<Vec<String>> {
    let mut words = Vec::new(alloc);
    for word in line.split('\t') {
        words.push(String::from_str(alloc, word)?)?;
    }
    Ok(words)
}

/// Tells the order to print files.
fn put_files<W: Write>(
    out: &mut W,
    named: &[String],
    list: &Option<String>,
    raw: bool,
) -> Result<()> {
    write!(out, "files")?;
    for name in named {
        write!(out, " <{name}>")?;
    }
    if let Some(list) = list {
        write!(out, " world <{list}>")?;
    }
    writeln!(out, "{}", if raw { " raw" } else { "" })?;
    Ok(())
}

/// Tells what the words of a line ask for; the first is the program's name.
pub fn put_order<W: Write>(alloc: Global, out: &mut W, line: &str) -> Result<()> {
    let words = words_of(alloc, line)?;
    match read_words(alloc, words.as_slice()) {
        Ok(Order::Files { named, list, raw }) => put_files(out, named.as_slice(), &list, raw),
        Ok(Order::Make(number)) => Ok(writeln!(out, "make {number}")?),
        Err(WordsFault::Usage(kind)) => Ok(writeln!(out, "usage {kind:?}")?),
        Err(WordsFault::Memory(error)) => Err(error.into()),
    }
}
