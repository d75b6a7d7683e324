//! Expressions that are pending while the code of a block is rebuilt, and how they become statements.
//! It stands on `dj_rebuilding` and `dj_rebuilt` for what pending expressions are, and on `dj_syntax` for trees.
//! The layer above changes a `Built`, each of whose methods builds what one sort of instruction is rebuilt to, exactly.
#![tactic(auto)]

mod assigned;
mod built;
mod comparing;
mod constants;
mod entry;
mod locals;
mod moving;
mod numbers;
mod operands;
mod shifts;
mod stack;
mod tree;

pub use built::Built;
pub use entry::{Atom, Entry, Operand};
pub use locals::{Local, Target, takes_kind};
pub use moving::{DUP_X1, DUP_X2, DUP2, DUP2_X1, DUP2_X2, Form, SWAP};
pub use operands::{as_int, is_whole, take};
pub use stack::Stack;
pub use tree::Tree;
