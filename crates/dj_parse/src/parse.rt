//! The parser of units.

ghost use Rattle.std.specs.Prelude.{IfOk};
ghost use Rattle.dj_syntax.specs.Trees.{view_unit};
ghost use Rattle.dj_grammar.specs.Parsing.{IsParsed};

use crate::units::unit_from_words;
use dj_syntax::Unit;
use dj_tokens::Reader;
use std::alloc::{AllocError, Global};

/// The unit whose text this is, if it is the text of a well formed unit; any other text is parsed as some unit.
pub fn parse_unit(alloc: Global, text: &[u8]) -> Result<Unit, AllocError>
    ensures parsed { IfOk result (λ unit. IsParsed text.now (view_unit unit)) }
{
    let mut reader = Reader::new(text);
    let unit = unit_from_words(alloc, text.len(), &mut reader)?;
    Ok(unit)
}
