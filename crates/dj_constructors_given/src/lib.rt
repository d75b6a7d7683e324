//! What it gives the laws on constructors of one block that a constructor with code has no cause: laws alone.
//! It stands on `dj_given` for what the absence of causes gives for any method, and on `dj_constructors` for what those laws ask.
//! The layers above use the laws of `own_calls_are_given` and those beside it.
#![tactic(auto)]

mod laws;

pub use laws::{
    constructors_are_given, openings_are_given, others_are_given_but, others_do_theirs,
    own_calls_are_given,
};
