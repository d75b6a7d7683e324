//! The law of straight methods: the body that returns the expression of such a method shows what the method's code shows.
//! It stands on `dj_straight` for these methods and their bodies, on `dj_meaning` for what bodies mean, and on `dj_bytecode` for what code means.
//! The layer above uses the law, `straight_methods_show`.
#![tactic(auto)]

mod shows;

pub use shows::straight_methods_show;
