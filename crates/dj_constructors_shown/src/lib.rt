//! The body of a constructor whose code is one block shows what the code shows, and is typed where what it throws is lawful.
//! It stands on `dj_constructors` for what the statements do, on `dj_constructors_formed` for which rules they keep, and on `dj_one_block_shown` for what is printed with them.
//! The layers above use the definition `printed_constructor`, and the law `constructors_are_shown`.
#![tactic(auto)]

mod laws;

pub use laws::constructors_are_shown;
