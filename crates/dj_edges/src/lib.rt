//! The edges between the blocks of code: which variables are put before a jump, and that it enters the block; how a method is split, with its handlers.
//! It stands on `dj_rebuilt` for what is pending and what locals are named, and on `dj_blocks_shown` for copies and catchers.
//! The layers above use `jump` and `edge` of its definitions, and the laws `edges_enter_blocks` and `blocks_have_catchers`.
#![tactic(auto)]

mod laws;

pub use laws::{blocks_have_catchers, edges_enter_blocks};
