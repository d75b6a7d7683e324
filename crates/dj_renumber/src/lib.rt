//! Trees with other names: parameters in place of the variables that hold them, and numbers in the order of the text.
//! It stands on `dj_parameters` and `dj_numbered` for which names those are, and that bodies stay typed and show the same.
//! The layers above use `with_parameters` and `numbered`, whose results are what those definitions say.
#![tactic(auto)]

mod bodies;
mod copies;
mod expressions;
mod names;
mod openings;
mod statements;
mod used;
mod uses;

pub use bodies::{numbered, with_parameters};
