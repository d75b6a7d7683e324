//! How the instructions of a block are rebuilt, and that the statements show what they show, whichever classes run: definitions and laws.
//! It stands on `dj_rebuilding` for pending expressions, and on `dj_bytecode` for what instructions do.
//! The layers above use `rebuilt`, and the laws `blocks_are_rebuilt` and `blocks_are_rebuilt_alike`.
#![tactic(auto)]

mod laws;

pub use laws::{
    blocks_are_rebuilt, blocks_are_rebuilt_alike, calculations_are_expressions,
    narrowing_is_conversion,
};
