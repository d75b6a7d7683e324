//! Instructions on members, arrays and classes, as the expressions and statements that stand for them.
//! It stands on `dj_member_nodes` for what these are, on `dj_pending` for what is built so far, and on `dj_alone`, `dj_static` and `dj_checked` for classes.
//! The layer above uses `member_step`, which builds what such an instruction is rebuilt to, exactly, `take_fitted` where a value is wanted elsewhere, and the law `members_advance`.
#![tactic(auto)]

mod arguments;
mod arrays;
mod calls;
mod casts;
mod classes;
mod elements;
mod fields;
mod fitting;
mod laws;
mod special;
mod step;
mod trees;

pub use casts::{dressed, goes};
pub use fitting::{fits_in, take_fitted};
pub use laws::members_advance;
pub use step::{is_member, member_step};
