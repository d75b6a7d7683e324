//! How the code of a block is rebuilt as statements.
//! It stands on `dj_pending` and `dj_member_trees` for what single instructions build, and on `dj_code_variables` for variables.
//! The layer above uses `lone_tree`, which answers the statements of code that is one block, exactly.
#![tactic(auto)]

mod advancing;
mod around;
mod leaving;
mod lone;
mod names;
mod stores;
mod targets;
mod walking;

pub use advancing::advance;
pub use around::advance_one;
pub use leaving::{leave, leave_at};
pub use lone::lone_tree;
pub use names::{Names, first_names};
pub use stores::{Stored, store};
pub use targets::target_of;
pub use walking::{Exit, walk};
