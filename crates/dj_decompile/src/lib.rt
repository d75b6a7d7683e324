//! The body of a verified method whose code is one block, or where it can't be had yet.
//! It stands on `dj_rebuild` for the statements of the block, on `dj_declarer` and `dj_renumber` for the body, and on `dj_decompiled` for what is printed.
//! The layer above uses `decompile_method`, whose answer is exact; that its body shows what the code shows is a law of `dj_decompiled`.
#![tactic(auto)]

mod bars;
mod decompile;
mod entry;
mod head;
mod made;
mod writable;

pub use decompile::{Decompiled, decompile_method};
