//! What the words of a run ask for: which files to print, or how many classes to make, or what is wrong with them.
//! It stands on `clap`, which takes the words apart, and on no other crate of the workspace.
//! The layer above uses `read_words` (`order`, and `taken` for words that keep the grammar).
#![tactic(auto)]

mod command;
mod number;
mod order;

pub use order::{Order, UsageKind, WordsFault, read_words};
