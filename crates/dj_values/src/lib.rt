//! Values, and what a run asks of the outside, is told, shows and comes to: the outcomes that bytecode and source share.
//! It stands on `dj_names` and `dj_headers`: types, headers, and which types go where.
//! The layers above use `fits`, which tells exactly which answers an action can have; `tests_decide`, by which the tests that a run makes of answers do so too; and `longer_runs_show_more`, by which a run that goes on from one that was cut shows more.
#![tactic(auto)]

mod action;
mod answer;
mod answering;
mod answers;
mod fitting;
mod reference;
mod runs;
mod show;
mod types;
mod value;

pub use action::{Action, InvokeKind};
pub use answer::Answer;
pub use answering::fits;
pub use answers::tests_decide;
pub use reference::{RefId, RefValue};
pub use runs::longer_runs_show_more;
pub use show::{End, Show};
pub use value::{Value, copy_values};
