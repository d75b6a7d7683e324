//! What a method's code means: a bounded run of the machine, and what it shows; and when a body shows the same.
//! It stands on `dj_code` for methods and their instructions, on `dj_values` for what a run asks, is told and comes to, on `dj_meaning` for bodies, and on `dj_loaded` for which classes may run.
//! The layers above use `bytecode_show` and `SameShows` of its definitions, and the laws on greater bounds and on results.
#![tactic(auto)]

mod bounds;
mod results;

pub use bounds::more_steps_show_more;
pub use results::returns_agree;
