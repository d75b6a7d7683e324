//! Straight methods: code that is one expression in postfix form and `ireturn`, and the body that returns the expression.
//! It stands on `dj_class` and `dj_code` for methods and their code, and on `dj_syntax` for bodies.
//! The layer above uses `judge`, which tells the straight methods of a class from the others, and `returning_body`; that code and body show the same is a law of `dj_straight_shows`.
#![tactic(auto)]

mod declared;
mod ints;
mod part;
mod straight;
mod straight_method;

pub use declared::Declared;
pub use straight_method::{Judged, judge, returning_body};
