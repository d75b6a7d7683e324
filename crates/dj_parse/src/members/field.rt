//! Fields, read from words (JLS 8.3, 9.3).

ghost use Rattle.std.specs.Prelude.{◌≡◌, IfOk};
ghost use Rattle.dj_names.specs.Types.{view_type};
ghost use Rattle.dj_syntax.specs.Trees.{view_field};
ghost use Rattle.dj_grammar.specs.Members.{read_field};
ghost use Rattle.dj_parse.specs.Views.{view_place};

use crate::members::Place;
use dj_names::{JType, Units};
use dj_statements::read_value;
use dj_syntax::{FieldText, held_field};
use dj_tokens::{KnownNames, Reader};
use std::alloc::{AllocError, Global};

/// A field from behind its name on: its value, where it has one, and the semicolon.
pub fn read_field(
    alloc: Global,
    place: &Place,
    names: &mut KnownNames,
    bits: u16,
    kind: JType,
    name: Units,
    reader: &mut Reader,
) -> Result<FieldText, AllocError>
    ensures read { IfOk result (λ field. (view_field field, reader.new) ≡ read_field (view_place place.now) bits (view_type kind) name reader.old) }
{
    if reader.is_at(b"=") {
        reader.advance();
    }
    let value = read_value(alloc, names, reader)?;
    reader.advance();
    let mut field = FieldText {
        flags: bits,
        kind,
        name,
        value,
    };
    field.flags = held_field(place.interface, &field);
    Ok(field)
}
