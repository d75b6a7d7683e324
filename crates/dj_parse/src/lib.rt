//! The parser of the one text of a unit: it makes a unit of whatever text, the right one of the text of a well formed unit.
//! It stands on `dj_tokens` for names and types, on `dj_statements` for bodies and values, and on `dj_grammar` for what the words of a unit mean.
//! The layer above, `dj_read`, uses `parse_unit`, and tests what was parsed.
#![tactic(auto)]

mod members;
mod parse;
mod units;

pub use parse::parse_unit;
