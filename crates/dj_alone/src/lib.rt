//! Whether no other method of a name and a number of parameters can be found through a class than one of these types.
//! It stands on `dj_members` for the members of each class by their names, and on `dj_members_shown` for what is asked.
//! The layers above use `is_alone` and `is_alone_in`.
#![tactic(auto)]

mod alone;

pub use alone::{is_alone, is_alone_in, parameters_of};
