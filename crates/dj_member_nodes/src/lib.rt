//! What stands for instructions on fields, arrays, classes and methods, with the casts that are written; it keeps Java's rules, and shows what they do: definitions and laws.
//! It stands on `dj_members_shown` for what members mean, on `dj_blocks_formed` for the rules, and on `dj_strict_entries` for what passes the tests of static types.
//! The layers above use the laws `methods_are_formed` and `nodes_show`.
#![tactic(auto)]

mod laws;

pub use laws::{methods_are_formed, nodes_keep_rules, nodes_show, suited_operands_fit};
