//! How the words of a text are read: what each word does to what is open, and that what a tree spells is read as it.
//! It stands on `dj_syntax` for the trees and their text, and on `dj_tokens` for words.
//! The layers above read as `specs/` says; that no two well formed units have one text is a law, `units_have_one_text`.
#![tactic(auto)]

mod law;

pub use law::{expressions_are_read, statements_are_read, units_have_one_text};
