//! Which statements of a body can be reached, and whether it ends as it has to (JLS 8.4.7, 8.7, 14.21).
//! It stands on `dj_syntax` for the trees, and on `dj_places` for places, rules and constant conditions.
//! The layers above use `check_reach`, which tells the first rule that is broken, and `completes`.
#![tactic(auto)]

mod check;
mod clauses;
mod fault;
mod jump;
mod statements;
mod walk;

pub use check::{check_reach, completes};
pub use fault::ReachFault;
pub use jump::{Jump, is_one_of};
pub use statements::has_default;
