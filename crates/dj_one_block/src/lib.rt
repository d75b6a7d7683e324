//! Methods whose code is one block: the statements that their code becomes, and that none of these has statements in it.
//! It stands on `dj_exits`, `dj_lone_exits` and `dj_member_nodes` for what stands for instructions, and on `dj_declaring` for bodies.
//! The layers above use the definition `lone_tree`, and the law `lone_trees_are_flat`.
#![tactic(auto)]

mod laws;

pub use laws::lone_trees_are_flat;
