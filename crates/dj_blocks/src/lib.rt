//! Runs of a method's code by blocks, whichever offsets start them: definitions, and how they stand to runs by steps.
//! It stands on `dj_bytecode` for what a step does, and on `dj_values` for outcomes and for which runs are below others.
//! Layers that speak of blocks alone use `blocks` of its definitions, and the laws `steps_are_below_blocks`, `blocks_are_below_steps` and `steps_enter_seldom`.
#![tactic(auto)]

mod laws;

pub use laws::{blocks_are_below_steps, steps_are_below_blocks, steps_enter_seldom};
