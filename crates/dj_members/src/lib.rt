//! Members of classes, found by their names.
//! It stands on `dj_names` for names and members, and on a lemma of `dj_headers` on tables of names.
//! The layers above use `MemberTable`, and `first_named` and `all_named` over the places of a name; only adding takes memory.
#![tactic(auto)]

mod member_table;
mod name_table;
mod sites;

pub use member_table::{ClassTable, MemberTable};
pub use name_table::{NameTable, Picker, all_named, first_named};
pub use sites::Sites;
