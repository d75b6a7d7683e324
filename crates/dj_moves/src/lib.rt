//! Which variables the edge to a block puts, and from which slots.
//! It stands on `dj_code_variables` for variables, and on `dj_edges` for what edges are.
//! The layers above use `keeps_this` and `moves`, and by the law `edges_are_moves` make an edge of them.
#![tactic(auto)]

mod going;
mod laws;
mod this;

pub use going::{Held, Move, moves};
pub use laws::edges_are_moves;
pub use this::keeps_this;
