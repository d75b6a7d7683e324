//! What is known of the classes of a world since class files made it: laws alone.
//! It stands on `dj_load` for how files make a world, and on `dj_held` for what the laws on bodies ask of members.
//! Nothing uses its laws `worlds_are_made` and `made_worlds_have_members` yet.
#![tactic(auto)]

mod laws;

pub use laws::{made_worlds_have_members, worlds_are_made};
