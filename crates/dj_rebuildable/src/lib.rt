//! That the statements of a block can be rebuilt, wherever no cause speaks against its method: definitions and laws.
//! It stands on `dj_rebuilt` for how, and on `dj_effects` for what the frame says of the stack.
//! The layers above use the law `blocks_can_be_rebuilt`.
#![tactic(auto)]

mod laws;

pub use laws::{blocks_can_be_rebuilt, frames_are_their_own};
