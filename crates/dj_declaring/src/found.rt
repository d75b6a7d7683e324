//! The variables that are found in a tree so far.

use dj_names::Items;
use dj_syntax::Var;

/// Which of the variables that have kinds were found, by their numbers; and the variables that were, each once, in the
/// order in which they were found: those that have kinds, and those that hold states.
#[derive(Drop)]
pub struct Found {
    pub seen: Items<bool>,
    pub locals: Items<Var>,
    pub states: Items<Var>,
}
