//! The variables of code, by a walk over its blocks' first frames and its stores.
//! It stands on `dj_numbers` for numbers, on `dj_starts` for what control reaches, and on `dj_vars` for what variables are.
//! The layers above use `variables`, whose answer is `AreVars`, and the methods of `Vars`.
#![tactic(auto)]

mod firsts;
mod stores;
mod vars;
mod walk;

pub use vars::Vars;
pub use walk::variables;
