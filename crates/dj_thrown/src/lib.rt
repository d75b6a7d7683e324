//! What a body throws, and which catch clauses stand where nothing can be thrown that they take (JLS 11).
//! It stands on `dj_static` for the methods that calls mean, on `dj_reach` for whether a `finally` completes, and on `dj_faults` for faults.
//! The layers above use `check_thrown`, which tells the first rule that is broken, and `throws`, which tells all that a body can throw.
#![tactic(auto)]

mod assigning;
mod catching;
mod check;
mod expressions;
mod listed;
mod statements;
mod throwing;
mod walk;

pub use catching::may_escape;
pub use check::{check_thrown, throws};
pub use listed::{class_listed, construct_listed, new_listed, object_listed};
pub use throwing::Throwing;
