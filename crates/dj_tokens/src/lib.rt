//! The words of a text: what each is, and the names, types and literals that words spell.
//! It stands on `dj_syntax` for the trees of literals, and on `dj_names` for names and types.
//! `dj_grammar` uses the definitions; `dj_depth`, `dj_expressions`, `dj_statements` and `dj_parse` use `Reader`, `token_of`, `KnownNames`, `DottedName` and the readers of names, types and literals, each of which is exact.
#![tactic(auto)]

mod dotted;
mod kept;
mod literals;
mod names;
mod tokens;
mod words;

pub use dotted::{DottedName, Primitive};
pub use kept::KnownNames;
pub use literals::{literal_of, negated_int, negated_long, unquoted, variable_of};
pub use names::{SLASH, read_name, read_names, read_parameters, read_result, read_type, units_of};
pub use tokens::{Token, token_of};
pub use words::{Reader, is_word};
