//! The law of straight methods and types: the body that returns the expression of such a method keeps all rules of Java.
//! It stands on `dj_straight` for these methods and their bodies, on `dj_typed` for the rules, and on `dj_sayable` for names.
//! The layer above uses the law, `straight_methods_are_typed`.
#![tactic(auto)]

mod typed;

pub use typed::straight_methods_are_typed;
