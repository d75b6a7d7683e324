//! Values and answers from texts: `i5`, `l5`, `n`, `r3:[I:2` for a reference with its type and length, `sab` for a string constant; `d` for done, and `t3:Ljava/lang/Error;:0` for what is thrown.

use crate::names::{type_of, units_of};
use anyhow::Result;
use dj_values::{Answer, RefId, RefValue, Value};
use std::alloc::Global;

/// A reference: its number, its type and its length.
fn reference(alloc: Global, text: &str) -> Result<RefValue> {
    let (number, rest) = text.split_once(':').unwrap_or((text, ""));
    let (class, length) = rest.split_once(':').unwrap_or((rest, ""));
    Ok(RefValue {
        id: RefId::Number(number.parse::<u64>().unwrap_or(0)),
        class: type_of(alloc, class)?,
        length: length.parse::<u32>().unwrap_or(0),
    })
}

/// The reference of a string constant.
fn string(alloc: Global, characters: &str) -> Result<RefValue> {
    Ok(RefValue {
        id: RefId::Text(units_of(alloc, characters)?),
        class: type_of(alloc, "Ljava/lang/String;")?,
        length: 0,
    })
}

/// A value; null where the text is none.
fn value(alloc: Global, text: &str) -> Result<Value> {
    if let Some(number) = text.strip_prefix('i') {
        return Ok(Value::Int(number.parse::<i32>().unwrap_or(0)));
    }
    if let Some(number) = text.strip_prefix('l') {
        return Ok(Value::Long(number.parse::<i64>().unwrap_or(0)));
    }
    if let Some(characters) = text.strip_prefix('s') {
        return Ok(Value::Ref(string(alloc, characters)?));
    }
    match text.strip_prefix('r') {
        Some(rest) => Ok(Value::Ref(reference(alloc, rest)?)),
        None => Ok(Value::Null),
    }
}

/// An answer.
fn answer(alloc: Global, text: &str) -> Result<Answer> {
    if text == "d" {
        return Ok(Answer::Done);
    }
    match text.strip_prefix('t') {
        Some(rest) => Ok(Answer::Thrown(reference(alloc, rest)?)),
        None => Ok(Answer::Value(value(alloc, text)?)),
    }
}

/// Values with blanks between them.
pub fn values_of(alloc: Global, text: &str) -> Result<Vec<Value>> {
    let mut values = Vec::new(alloc);
    for word in text.split_whitespace() {
        let one = value(alloc, word)?;
        values.push(one)?;
    }
    Ok(values)
}

/// Puts answers with blanks between them behind those that are there.
pub fn put_answers(alloc: Global, answers: &mut Vec<Answer>, text: &str) -> Result<()> {
    for word in text.split_whitespace() {
        let one = answer(alloc, word)?;
        answers.push(one)?;
    }
    Ok(())
}
