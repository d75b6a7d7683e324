//! The body of a method whose code is one block shows what the code shows, and is typed where what it throws is lawful.
//! It stands on `dj_one_block` for the body, on `dj_member_ways` and `dj_one_block_formed` for what its statements do and which rules they keep, and on `dj_method`.
//! The layers above use the law `one_block_methods_are_shown`.
#![tactic(auto)]

mod laws;

pub use laws::one_block_methods_are_shown;
