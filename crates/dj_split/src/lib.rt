//! Blocks of code with the handlers of their ranges.
//! It stands on `dj_code_variables` for variables, and on `dj_edges` for what handlers of blocks are.
//! The layers above use `split`, whose answer is exact.
#![tactic(auto)]

mod blocks;
mod catchers;
mod whole;

pub use catchers::Range;
pub use whole::{Divided, split};
