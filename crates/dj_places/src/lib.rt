//! Places of statements and expressions, the rules that stand at them, and constant expressions (JLS 15.28).
//! It stands on `dj_syntax` for the trees, on `dj_meaning` and `dj_operators` for what operators make of values, and on `dj_static` for which field a name means.
//! The layers above use `Rules` of its definitions, `TypeKind`, `places`, `option_places`, `lower`, and `constant_truth` with `is_always`.
#![tactic(auto)]

mod constants;
mod kind;
mod numbering;

pub use constants::{constant, constant_truth, is_always};
pub use kind::TypeKind;
pub use numbering::{all_places, lower, option_places, places, plus};
