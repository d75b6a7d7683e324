//! Which variables are assigned behind expressions, and where conditions are true and false (JLS 16.1).
//! It stands on `dj_syntax` for the trees, on `dj_places` for places, rules and constant conditions, and on `dj_variables` for sets of variables.
//! The layer above walks on with a `Walk`, past expressions by `look` and `look_each`, and past conditions by `test`.
#![tactic(auto)]

mod expressions;
mod walk;

pub use expressions::{first_value, look, look_each, look_option, test};
pub use walk::Walk;
