//! Runs a body of Java source on arguments and answers: the program of what source means.
//! It stands on `dj_meaning` for that meaning, on `dj_evaluating` for the values of expressions, and on `dj_outside` for what the outside is asked and answers.
//! The layers above use `show_source`, whose answer is exactly the show that the definition gives (`show`).
#![tactic(auto)]

mod completion;
mod running;
mod scopes;
mod showing;
mod simple;
mod switches;
mod throwing;

pub use showing::show_source;
