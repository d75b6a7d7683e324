//! What it gives the laws on blocks that a method with code has no cause: laws alone.
//! It stands on `dj_method_causes` for causes, and on `dj_member_nodes` for what those laws ask of instructions.
//! The layers above use the laws of `names_are_given`, `members_are_given` and those beside them.
#![tactic(auto)]

mod laws;

pub use laws::{
    classes_are_given, heads_are_given, members_are_given, names_are_given, others_are_given,
    runs_are_given, strict_is_given,
};
