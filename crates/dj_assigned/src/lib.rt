//! Definite assignment: whether each variable of a body is assigned wherever it is read (JLS 16).
//! It stands on `dj_syntax` for the trees, on `dj_conditions` for what is assigned behind expressions, and on `dj_reach` for jumps and for which lists can complete.
//! The layer above uses `check_assigned`, which tells the first rule that is broken.
#![tactic(auto)]

mod check;
mod course;
mod fault;
mod statements;

pub use check::check_assigned;
pub use fault::FlowFault;
