//! What operators, conversions and casts of Java source make of values, and operators of types: the program of these rules.
//! It stands on `dj_meaning` for what each of them means, on `dj_headers` for which type goes where, and on `dj_values` for values.
//! The layers above use `operated`, `negated`, `inverted`, `truth_of`, `converted`, `cast`, `is_of`, `promoted`, `result_type` and `becomes_floating`, each exact and without memory.
#![tactic(auto)]

mod computed;
mod conversions;
mod equality;
mod numbers;
mod operators;
mod promotions;
mod unary;

pub use computed::Computed;
pub use conversions::{cast, converted, is_of};
pub use operators::operated;
pub use promotions::{Number, becomes_floating, promoted, result_type};
pub use unary::{inverted, negated, truth_of};
