//! The main job: class files in, Java source and a report out, with its meaning proved.
//! It stands on `dj_load` for the files, on `dj_making` for made ones, on `dj_straight`, `dj_causes`, `dj_class_text` and `dj_print` for what is told of a class, on `dj_words` for words, and on `dj_report` for lines.
//! The program uses `run`, whose clauses are the headline.
#![tactic(auto)]

mod basis;
mod endings;
mod fields;
mod last;
mod methods;
mod pieces;
mod program;
mod tally;
mod telling;

pub use dj_report::Status;
pub use dj_words::{Order, UsageKind, WordsFault, read_words};
pub use program::run;
