//! Evaluates expressions of Java source on what a run has: the program of what expressions mean.
//! It stands on `dj_meaning` for that meaning, on `dj_objects` for what a run has and what is asked of objects, and on `dj_operators` for what operators make of values.
//! The layer above uses `evaluate`, `evaluate_to`, `evaluate_all`, `assign`, `test` and `perform`, each of which comes to exactly what the definition says (`value`, `values`, `assigned`, `test`, `done`).
#![tactic(auto)]

mod evaluating;
mod operands;

pub use evaluating::{assign, evaluate, evaluate_all, evaluate_to, perform, test};
