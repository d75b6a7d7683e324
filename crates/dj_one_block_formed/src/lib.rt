//! The tree of a method's one block may be declared as its body.
//! It stands on `dj_member_nodes` for what keeps the rules, on `dj_one_block` for the tree, and on `dj_declaring` for what is asked of it.
//! The layers above use the law `lone_trees_are_ready`.
#![tactic(auto)]

mod laws;

pub use laws::lone_trees_are_ready;
