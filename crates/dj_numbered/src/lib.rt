//! Bodies whose variables and labels have numbers in the order of their text, that they are typed and show the same: definitions and laws.
//! It stands on `dj_renaming` for trees with other names, and on `dj_typed` for the rules on bodies.
//! The layers above use `numbered` of its definitions, and the law `numbered_bodies_show_the_same`.
#![tactic(auto)]

mod laws;

pub use laws::{numbered_bodies_show_the_same, other_names_show_the_same};
