//! Where control goes in typed code, where blocks start, and the births of objects (JVMS 2.10, 2.11.7, 4.10.1.9).
//! It stands on `dj_code` for code and its frames, on `dj_instructions` for instructions, and on `dj_names` for names.
//! The layers above use `edges`, `reached`, `block_starts` and `births`, whose contracts are exact, and `can_throw`.
#![tactic(auto)]

mod birth;
mod calls;
mod control;
mod marks;
mod reach;
mod roles;
mod starts;
mod stores;
mod walk;
mod ways;
mod written;

pub use birth::{Birth, births};
pub use calls::{Met, calls_met, ended};
pub use control::{Control, can_throw, control_of};
pub use marks::{is_marked, mark, mark_all, no_marks};
pub use reach::reached;
pub use roles::{Role, first_role, role_of};
pub use starts::{block_starts, frames_from, in_range};
pub use walk::barred_from;
pub use ways::{Edge, edges, push_targets};
