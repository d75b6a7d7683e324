//! Statements, read a word at a time, up to the brace that ends them.
//! It stands on `dj_expressions` for the expressions within, and on `dj_grammar` for what each word means.
//! The layer above, `dj_parse`, uses `read_statements` and `read_value`, which read exactly as the grammar says.
#![tactic(auto)]

mod braces;
mod frames;
mod last_statements;
mod lists;
mod statement_ends;
mod statements;
mod values;

pub use statements::read_statements;
pub use values::read_value;
