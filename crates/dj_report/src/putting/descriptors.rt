//! Descriptors, put as a report shows them (JVMS 4.3).

ghost use Rattle.std.specs.Prelude.{◌≡◌, ◌≤◌, ◌++◌, codes, flat_map, replicate};
ghost use Rattle.std.specs.Option.{option_map};
ghost use Rattle.dj_names.specs.Types.{view_descriptor, view_type, view_types};
ghost use Rattle.dj_names.specs.Descriptors.{spell_descriptor, spell_result, spell_type};
ghost use Rattle.dj_names.specs.Shown.{show_units};
ghost use Rattle.dj_outer.specs.Sink.{Puts};

use crate::putting::{put_piece, put_units};
use dj_names::{ClassName, Descriptor, JType};
use dj_outer::{Failed, Sink};

/// The brackets of an array of as many dimensions as there can be.
const BRACKETS: [u8; 255] = [b'['; 255];

/// Puts a class's name between `L` and `;`.
fn put_class<S: Sink>(sink: &mut S, name: &ClassName) -> Result<(), Failed>
    ensures puts { Puts result (S.taken sink.old) (S.taken sink.new) (S.faults sink.old) (S.faults sink.new) (show_units (codes "L" ++ name.now ++ codes ";")) }
{
    put_piece(sink, b"L")?;
    put_units(sink, name.as_slice())?;
    put_piece(sink, b";")
}

/// Puts a type, a bracket at a time.
fn put_by_brackets<S: Sink>(sink: &mut S, kind: &JType) -> Result<(), Failed>
    ensures puts { Puts result (S.taken sink.old) (S.taken sink.new) (S.faults sink.old) (S.faults sink.new) (show_units (spell_type (view_type kind.now))) }
{
    match kind {
        JType::Boolean => put_piece(sink, b"Z"),
        JType::Byte => put_piece(sink, b"B"),
        JType::Char => put_piece(sink, b"C"),
        JType::Short => put_piece(sink, b"S"),
        JType::Int => put_piece(sink, b"I"),
        JType::Long => put_piece(sink, b"J"),
        JType::Float => put_piece(sink, b"F"),
        JType::Double => put_piece(sink, b"D"),
        JType::Class(name) => put_class(sink, name),
        JType::Array(element) => {
            put_piece(sink, b"[")?;
            put_by_brackets(sink, element.get())
        }
    }
}

/// How many brackets a type begins with, as many as there can be at most, and the type behind them.
fn split_brackets(kind: &JType) -> (usize, &JType)
    ensures few { result.0 ≤ 255 }
    ensures split { spell_type (view_type kind.now) ≡ replicate result.0 91 ++ spell_type (view_type result.1.now) }
{
    let mut rest = kind;
    let mut count = 0;
    while let JType::Array(element) = rest {
        if count == 255 {
            break;
        }
        rest = element.get();
        count += 1;
    }
    (count, rest)
}

/// Puts so many brackets, where there are any, in one piece.
fn put_brackets<S: Sink>(sink: &mut S, count: usize) -> Result<(), Failed>
    requires few { count ≤ 255 }
    ensures puts { Puts result (S.taken sink.old) (S.taken sink.new) (S.faults sink.old) (S.faults sink.new) (replicate count 91) }
{
    if count == 0 {
        return Ok(());
    }
    put_piece(sink, &BRACKETS[..count])
}

/// Puts a type, all its brackets in one piece.
pub fn put_type<S: Sink>(sink: &mut S, kind: &JType) -> Result<(), Failed>
    ensures puts { Puts result (S.taken sink.old) (S.taken sink.new) (S.faults sink.old) (S.faults sink.new) (show_units (spell_type (view_type kind.now))) }
{
    let (count, element) = split_brackets(kind);
    put_brackets(sink, count)?;
    put_by_brackets(sink, element)
}

/// Puts types, one after another.
fn put_types<S: Sink>(sink: &mut S, kinds: &[JType]) -> Result<(), Failed>
    ensures puts { Puts result (S.taken sink.old) (S.taken sink.new) (S.faults sink.old) (S.faults sink.new) (show_units (flat_map spell_type (view_types kinds.now))) }
{
    for kind in kinds {
        put_type(sink, kind)?;
    }
    Ok(())
}

/// Puts a result, `V` for none.
fn put_result<S: Sink>(sink: &mut S, kind: &Option<JType>) -> Result<(), Failed>
    ensures puts { Puts result (S.taken sink.old) (S.taken sink.new) (S.faults sink.old) (S.faults sink.new) (show_units (spell_result (option_map view_type kind.now))) }
{
    match kind {
        Some(kind) => put_type(sink, kind),
        None => put_piece(sink, b"V"),
    }
}

/// Puts a descriptor.
pub fn put_descriptor<S: Sink>(sink: &mut S, descriptor: &Descriptor) -> Result<(), Failed>
    ensures puts { Puts result (S.taken sink.old) (S.taken sink.new) (S.faults sink.old) (S.faults sink.new) (show_units (spell_descriptor (view_descriptor descriptor.now))) }
{
    match descriptor {
        Descriptor::Field(kind) => put_type(sink, kind),
        Descriptor::Method { parameters, result } => {
            put_piece(sink, b"(")?;
            put_types(sink, parameters.as_slice())?;
            put_piece(sink, b")")?;
            put_result(sink, result)
        }
    }
}
