//! The tree of a constructor's one block may be declared as its body.
//! It stands on `dj_member_nodes` for what keeps the rules, on `dj_constructors` for the tree, on `dj_one_block_formed` for its sister, and on `dj_declaring` for what is asked of it.
//! The layers above use the law `constructor_trees_are_ready`.
#![tactic(auto)]

mod laws;

pub use laws::constructor_trees_are_ready;
