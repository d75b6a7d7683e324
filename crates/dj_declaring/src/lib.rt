//! The body of a method from the tree of its graph: lawful by the rules of Java on reachability (JLS 14.21), with its variables at the head, typed, and showing what the tree shows: definitions and laws.
//! It stands on `dj_declare` for formed trees, for what is lawful and for what may stand at a head.
//! The layers above use `declared_body` of its definitions, `Entry` and `Found`, and the law `declared_bodies_are_typed`.
#![tactic(auto)]

mod entry;
mod found;
mod laws;

pub use entry::Entry;
pub use found::Found;
pub use laws::{
    declared_bodies_are_typed, heads_may_stand, occurring_variables_are_found,
    one_pass_makes_trees_lawful,
};
