//! Trees with parameters in place of the variables that hold them, and the body that is printed: definitions and laws.
//! It stands on `dj_declaring` for the bodies that are made of trees, and on `dj_numbered` for trees with other names.
//! The layers above use `with_parameters` and `printed_body` of its definitions, and the law `printed_bodies_show_the_same`.
#![tactic(auto)]

mod laws;

pub use laws::{parameters_take_the_place_of_copies, printed_bodies_show_the_same};
