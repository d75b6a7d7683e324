//! Whether Java accepts the statements of a body by their types, and else the first rule that they break (JLS 14).
//! It stands on `dj_typed` for the rules, on `dj_checked` for the expressions in statements, and on `dj_scopes` for scopes.
//! The layers above use `check_types`.
#![tactic(auto)]

mod around;
mod check;
mod clauses;
mod labels;
mod simple;
mod statements;
mod stores;

pub use check::check_types;
