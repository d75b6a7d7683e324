//! Sets of variables, as lists of those that aren't in them.
//! It stands on `dj_syntax` for variables.
//! The layers above use `union`, `common`, `removed` and `is_among`; the sets that they keep are those of `proofs/ListLemmas`.
#![tactic(auto)]

mod lists;

pub use lists::{common, is_among, removed, union};
