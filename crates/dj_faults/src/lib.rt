//! Faults of a body: the place where a rule is broken, and the kind of the rule.
//! It stands on `dj_places` for rules, places and kinds.
//! The layers above use `Fault` with `lower` and `broken`, and `BodyFault`, which says what a first fault is.
#![tactic(auto)]

mod body_fault;
mod fault;

pub use body_fault::BodyFault;
pub use fault::{Fault, broken, lower};
