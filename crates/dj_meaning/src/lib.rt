//! What Java source means: a bounded run of a body, and what it shows.
//! It stands on `dj_syntax` for the trees, on `dj_kinds` for where members are searched for, and on `dj_values` for what a run asks, is told and comes to.
//! The layers above use `source_show` of its definitions, and laws: a run with a greater bound shows more, and what each run of statements keeps.
#![tactic(auto)]

mod bounds;
mod laws;

pub use bounds::longer_bounds_show_more;
pub use laws::{
    lists_run_in_turn, monitors_are_given_back, rewrites_follow_one_another,
    statements_end_as_formed, unnamed_variables_stay,
};
