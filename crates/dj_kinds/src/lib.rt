//! Where a member is found, whether it may be used, and which method a call means, over a list of headers and a list of members (JVMS 5.4.3; JLS 6.6, 15.12.2).
//! It stands on `dj_headers` for what stands above what, on `dj_members` for the members of each class by their names, and on `dj_names` for names, types and members.
//! The layers above use `MemberTable`, `find_method`, `find_field`, `is_accessible`, `choose` and `Kinds`, each exact; none of these but `MemberTable::push` and `Kinds::new` takes memory.
#![tactic(auto)]

mod access;
mod candidates;
mod choice;
mod find;
mod inherited;
mod kinds;
mod own;
mod pickers;
mod search;
mod seen;
mod types;

pub use access::is_accessible;
pub use candidates::{Asked, is_candidate};
pub use choice::{choose, searched_class};
pub use dj_members::MemberTable;
pub use find::{find_field, find_method, find_overload};
pub use kinds::Kinds;
pub use types::is_same_descriptor;
