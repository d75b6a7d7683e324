//! Names, types and lists of them, read from words (JLS 4, 6.5, 8.4.1).

ghost use Rattle.std.specs.Prelude.{◌≡◌, ◌++◌, true, codes, IfOk, IfSome, MatchOption, OnOk, option_map};
ghost use Rattle.dj_names.specs.Types.{Class, view_type, view_types};
ghost use Rattle.dj_tokens.specs.Words.{comes};
ghost use Rattle.dj_tokens.specs.Names.{IsWhole, more_type, read_name, read_names, read_parameters, read_result, read_type, type_of};

use crate::words::{Reader, is_word};
use dj_names::{ClassName, Items, JType, Shared, Units};
use std::alloc::{AllocError, Global};

/// What stands between the segments of a class's name.
pub const SLASH: u16 = b'/' as u16;

/// The units of a word.
pub fn units_of(alloc: Global, word: &[u8]) -> Result<Units, AllocError>
    ensures units { IfOk result (λ units. units ≡ word.now) }
{
    let mut units = Vec::with_capacity(alloc, word.len())?;
    add_word(&mut units, word)?;
    Units::from_vec(units)
}

/// Appends the units of a word.
fn add_word(units: &mut Vec<u16>, word: &[u8]) -> Result<(), AllocError>
    ensures added { OnOk result (units.new.items ≡ units.old.items ++ word.now) }
{
    for byte in word {
        units.push(u16::from(*byte))?;
    }
    Ok(())
}

/// A name of segments with dots between them, to its end.
pub fn read_name(alloc: Global, reader: &mut Reader) -> Result<ClassName, AllocError>
    ensures read { IfOk result (λ name. (name, reader.new) ≡ read_name reader.old) }
{
    let mut name = Vec::new(alloc);
    add_word(&mut name, reader.take())?;
    while reader.is_at(b".") {
        reader.advance();
        name.push(SLASH)?;
        add_word(&mut name, reader.take())?;
    }
    Ok(ClassName::new(Units::from_vec(name)?))
}

/// Names with commas between them, behind this keyword, where it stands.
pub fn read_names(
    alloc: Global,
    reader: &mut Reader,
    keyword: &[u8],
) -> Result<Items<ClassName>, AllocError>
    ensures read { IfOk result (λ names. (names, reader.new) ≡ read_names keyword.now reader.old) }
{
    let mut names = Items::new(alloc);
    if !reader.is_at(keyword) {
        return Ok(names);
    }
    reader.advance();
    names.push(read_name(alloc, reader)?)?;
    while reader.is_at(b",") {
        reader.advance();
        names.push(read_name(alloc, reader)?)?;
    }
    Ok(names)
}

/// A type.
pub fn read_type(alloc: Global, reader: &mut Reader) -> Result<JType, AllocError>
    ensures read { IfOk result (λ kind. (view_type kind, reader.new) ≡ read_type reader.old) }
{
    let mut kind = read_element(alloc, reader)?;
    // A segment behind a keyword or behind brackets, which no type has, is passed over.
    while reader.is_at(b"[") || reader.is_at(b".") {
        if reader.is_at(b"[") {
            kind = JType::Array(Shared::new(alloc, kind)?);
        }
        reader.skip(2);
    }
    Ok(kind)
}

/// A primitive type, or a class by its whole name: where a segment follows, the type isn't changed by it.
fn read_element(alloc: Global, reader: &mut Reader) -> Result<JType, AllocError>
    ensures read { IfOk result (λ kind. more_type (view_type kind) reader.new ≡ read_type reader.old) }
    ensures whole { IfOk result (λ kind. comes (codes ".") reader.new ≡ true → IsWhole (view_type kind)) }
{
    match primitive(reader.first()) {
        Some(kind) => {
            reader.advance();
            Ok(kind)
        }
        None => Ok(JType::Class(read_name(alloc, reader)?)),
    }
}

/// The primitive type whose keyword a word is.
fn primitive(word: &[u8]) -> Option<JType>
    ensures kind { MatchOption result (type_of word.now ≡ Class word.now) (λ kind. type_of word.now ≡ view_type kind) }
    ensures whole { IfSome result (λ kind. IsWhole (view_type kind)) }
{
    if is_word(word, b"boolean") {
        Some(JType::Boolean)
    } else if is_word(word, b"byte") {
        Some(JType::Byte)
    } else if is_word(word, b"char") {
        Some(JType::Char)
    } else if is_word(word, b"short") {
        Some(JType::Short)
    } else if is_word(word, b"int") {
        Some(JType::Int)
    } else if is_word(word, b"long") {
        Some(JType::Long)
    } else if is_word(word, b"float") {
        Some(JType::Float)
    } else if is_word(word, b"double") {
        Some(JType::Double)
    } else {
        None
    }
}

/// A result: a type, or `void`.
pub fn read_result(alloc: Global, reader: &mut Reader) -> Result<Option<JType>, AllocError>
    ensures read { IfOk result (λ kind. (option_map view_type kind, reader.new) ≡ read_result reader.old) }
{
    if reader.is_at(b"void") {
        reader.advance();
        Ok(None)
    } else {
        Ok(Some(read_type(alloc, reader)?))
    }
}

/// The types of parameters, behind their parenthesis and past the one that ends them.
pub fn read_parameters(alloc: Global, reader: &mut Reader) -> Result<Vec<JType>, AllocError>
    ensures read { IfOk result (λ kinds. (view_types kinds.items, reader.new) ≡ read_parameters reader.old) }
{
    let mut kinds = Vec::new(alloc);
    while !reader.is_at(b")") {
        kinds.push(read_type(alloc, reader)?)?;
        reader.advance();
        let goes_on = reader.is_at(b",");
        reader.advance();
        if !goes_on {
            return Ok(kinds);
        }
    }
    reader.advance();
    Ok(kinds)
}
