//! The pass that makes a tree lawful by the rules of Java on reachability (JLS 14.21): nothing that can't be reached, no loop that never turns.
//! It stands on `dj_declaring` for what the pass makes, and on `dj_places` for constant conditions.
//! The layers above use `made_list`, whose result is `made_of` of those definitions, and `Made`.
#![tactic(auto)]

mod made;
mod walk;

pub use made::{Lost, Made, MadeClauses, MadeGroups, MadeList};
pub use walk::{made_list, pass};
