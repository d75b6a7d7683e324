//! Expressions, read a word at a time.
//! It stands on `dj_tokens` for words, and on `dj_grammar` for what each word means.
//! The layer above, `dj_statements`, uses `Reading::read_word` and `Reading::pass`, and what is open around a reading.
#![tactic(auto)]

mod brackets;
mod frames;
mod passing;
mod readings;
mod steps;

pub use brackets::open_more;
pub use frames::{Callee, Opener, Pending, Standing, pop_opener, take_start};
pub use readings::Reading;
pub use steps::variable_in_value;
