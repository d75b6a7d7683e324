//! A body from a formed tree: lawful by the rules of Java, with its variables at the head.
//! It stands on `dj_formed` for which trees are formed, and on `dj_typed` for which bodies are typed.
//! The layers above use the laws.
#![tactic(auto)]

mod laws;

pub use laws::{
    bodies_begin_as_graphs, bodies_throw_what_trees_do, initialisers_complete_normally,
    lawful_trees_can_be_reached, lawful_trees_keep_types, made_bodies_are_typed,
};
