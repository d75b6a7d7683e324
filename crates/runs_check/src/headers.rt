//! Headers from texts, which class stands above which, and which answer an action can have; `unknown` where a line asks neither.
use crate::actions::action_answer;
use anyhow::Result;
use dj_headers::Headers;
use dj_names::{ClassName, Header, Items};
use run_lines::class_name_of;
use std::alloc::Global;
use std::io::Write;

/// The text before a separator and what is behind it, or the whole text and none.
pub fn cut(text: &str, separator: char) -> (&str, &str) {
    text.split_once(separator).unwrap_or((text, ""))
}

/// Adds a header, where its class has none yet.
fn add(
    headers: &mut Headers,
    name: ClassName,
    superclass: Option<ClassName>,
    interfaces: Items<ClassName>,
    flags: u16,
) -> Result<&'static str> {
    if headers.place(&name).is_some() {
        return Ok("known");
    }
    headers.push(Header {
        name,
        superclass,
        interfaces,
        flags,
    })?;
    Ok("added")
}

fn class_names(alloc: Global, text: &str) -> Result<Items<ClassName>> {
    let mut names = Items::new(alloc);
    for word in text.split_whitespace() {
        names.push(class_name_of(alloc, word)?)?;
    }
    Ok(names)
}

/// No class where the text is `-`.
fn superclass_of(alloc: Global, text: &str) -> Result<Option<ClassName>> {
    match text {
        "-" => Ok(None),
        _ => Ok(Some(class_name_of(alloc, text)?)),
    }
}

/// A class, its superclass and its interfaces.
fn add_class(alloc: Global, headers: &mut Headers, text: &str, flags: u16) -> Result<&'static str> {
    let (name, rest) = cut(text, ' ');
    let (superclass, interfaces) = cut(rest, ' ');
    let name = class_name_of(alloc, name)?;
    let superclass = superclass_of(alloc, superclass)?;
    let interfaces = class_names(alloc, interfaces)?;
    add(headers, name, superclass, interfaces, flags)
}

/// The class of a word and a number.
fn numbered(alloc: Global, word: &str, number: u32) -> Result<ClassName> {
    let text = format!(in alloc; "{word}{number}")?;
    class_name_of(alloc, text.as_str())
}

fn add_link(alloc: Global, headers: &mut Headers, word: &str, number: u32) -> Result<()> {
    let name = numbered(alloc, word, number)?;
    let superclass = numbered(alloc, word, number.saturating_sub(1))?;
    add(headers, name, Some(superclass), Items::new(alloc), 0x0021)?;
    Ok(())
}

/// Classes of a word and the numbers up to this one, each the superclass of the next; they come
/// from the highest or, from below, from the lowest.
fn add_chain(
    alloc: Global,
    headers: &mut Headers,
    text: &str,
    from_below: bool,
) -> Result<&'static str> {
    let (word, last) = cut(text, ' ');
    let Some(last) = last.parse::<u32>().ok() else {
        return Ok("unknown");
    };
    for step in 0..last {
        let number = if from_below { last - step } else { step + 1 };
        add_link(alloc, headers, word, number)?;
    }
    Ok("added")
}

/// An interface with both interfaces of the level above as its own.
fn add_diamond(alloc: Global, headers: &mut Headers, word: &str, level: u32) -> Result<()> {
    let name = numbered(alloc, word, level)?;
    let mut above = Items::new(alloc);
    above.push(numbered(alloc, "left", level.saturating_sub(1))?)?;
    above.push(numbered(alloc, "right", level.saturating_sub(1))?)?;
    add(headers, name, None, above, 0x0601)?;
    Ok(())
}

/// Levels of two interfaces, each with both of the level above as its own.
fn diamonds(alloc: Global, headers: &mut Headers, text: &str) -> Result<&'static str> {
    let Some(levels) = text.parse::<u32>().ok() else {
        return Ok("unknown");
    };
    for step in 0..levels {
        add_diamond(alloc, headers, "left", step + 1)?;
        add_diamond(alloc, headers, "right", step + 1)?;
    }
    Ok("added")
}

/// How the second class stands above the first.
fn below(alloc: Global, headers: &Headers, text: &str) -> Result<&'static str> {
    let (lower, upper) = cut(text, ' ');
    let lower = class_name_of(alloc, lower)?;
    let upper = class_name_of(alloc, upper)?;
    if headers.is_subclass(&lower, &upper) {
        return Ok("subclass");
    }
    Ok(if headers.implements(&lower, &upper) {
        "implements"
    } else {
        "no"
    })
}

/// The headers are a copy of themselves from here on.
fn copied(alloc: Global, headers: &mut Headers) -> Result<&'static str> {
    *headers = headers.copy(alloc)?;
    Ok("copied")
}

/// What is told of a line.
fn answer(alloc: Global, headers: &mut Headers, line: &str) -> Result<&'static str> {
    let (word, rest) = cut(line, ' ');
    match word {
        "class" => add_class(alloc, headers, rest, 0x0021),
        "interface" => add_class(alloc, headers, rest, 0x0601),
        "chain" => add_chain(alloc, headers, rest, false),
        "chain_from_below" => add_chain(alloc, headers, rest, true),
        "diamonds" => diamonds(alloc, headers, rest),
        "below" => below(alloc, headers, rest),
        "copy" => copied(alloc, headers),
        _ => action_answer(alloc, headers, line),
    }
}

/// Answers a line.
pub fn put_answer<W: Write>(
    alloc: Global,
    headers: &mut Headers,
    out: &mut W,
    line: &str,
) -> Result<()> {
    let answer = answer(alloc, headers, line)?;
    writeln!(out, "{answer}")?;
    Ok(())
}
