//! How the machine does each instruction, its operand stack, and what instructions make of values without the outside: arithmetic, conversions, shuffles and jumps.
//! It stands on `dj_bytecode` for what each instruction means, on `dj_instructions` for instructions, and on `dj_values` for values.
//! The layer above uses `family_of`, `Stack`, seen from the top down, and `calculate`, `convert`, `compare`, `fitted`, `all_fitted`, `shuffle` and `jump_of`, each exact.
#![tactic(auto)]

mod arithmetic;
mod conversions;
mod family;
mod jumps;
mod operands;
mod reply;
mod shuffles;
mod stack;

pub use arithmetic::calculate;
pub use conversions::{compare, convert};
pub use family::{Family, family_of};
pub use jumps::{Jump, jump_of};
pub use operands::{all_fitted, fitted, parameters_of};
pub use reply::{Reply, int, long};
pub use shuffles::shuffle;
pub use stack::Stack;
