//! Blocks are rebuilt to formed trees: definitions and laws.
//! It stands on `dj_rebuilt` for how a block is rebuilt, and on `dj_formed` for what formed trees are.
//! The layers above use the law `blocks_are_formed`: what blocks are rebuilt to keeps the rules of formed trees.
#![tactic(auto)]

mod laws;

pub use laws::{blocks_are_formed, exits_keep_rules, this_stays_pending};
