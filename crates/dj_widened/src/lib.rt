//! What is true in a world of classes stays true where other classes run beside its own.
//! It stands on `dj_static` for which members names mean, on `dj_typing` for classes that a world has whole, and on `dj_loaded` for which classes may run.
//! The layers above use the laws: `what_goes_up_stays_so`, `the_same_members_are_meant` and `what_may_run_widens`.
#![tactic(auto)]

mod laws;

pub use laws::{the_same_members_are_meant, what_goes_up_stays_so, what_may_run_widens};
