//! Values of fields, read from words (JLS 8.3, 9.3).

ghost use Rattle.std.specs.Prelude.{◌≡◌, [], IfOk, option_map};
ghost use Rattle.dj_syntax.specs.Trees.{view_exp};
ghost use Rattle.dj_grammar.specs.Readings.{Wanted};
ghost use Rattle.dj_grammar.specs.Values.{read_value};

use crate::statement_ends::value_in;
use dj_expressions::Reading;
use dj_names::Items;
use dj_syntax::Exp;
use dj_tokens::{KnownNames, Reader};
use std::alloc::{AllocError, Global};

/// The expression up to a semicolon, where there is one. The semicolon isn't taken.
pub fn read_value(
    alloc: Global,
    names: &mut KnownNames,
    reader: &mut Reader,
) -> Result<Option<Exp>, AllocError>
    ensures read { IfOk result (λ value. (option_map view_exp value, reader.new) ≡ read_value (Wanted []) reader.old) }
{
    let mut reading = Reading::Wanted(Items::new(alloc));
    while !reader.is_at_end() && !reader.is_at(b";") {
        reading = reading.read_word(alloc, names, reader.take())?;
    }
    value_in(alloc, reading)
}
