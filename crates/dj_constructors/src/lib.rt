//! Constructors whose code is one block: the tree of the call with which they begin, and of what stands behind it.
//! It stands on `dj_one_block` for the tree of other methods, and on `dj_one_block_shown` for what holds of that.
//! The layers above use the definition `constructor_tree`, and the law `constructor_trees_show`.
#![tactic(auto)]

mod laws;

pub use laws::constructor_trees_show;
