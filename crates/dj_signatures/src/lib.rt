//! Which methods of a class can't stand in one text with its others, by name, parameters and flags (JVMS 4.6; JLS 8.4.2, 8.7, 8.8, 9.4).
//! It stands on `dj_class` for methods, and on `dj_members` for tables of names.
//! The layer above uses `table_of` and `rivals_of`, made once a class, and `breaks_signature` (`breaks`).
#![tactic(auto)]

mod keys;
mod numbers;
mod rivals;
mod signatures;
mod spelled;
mod standing;

pub use rivals::rivals_of;
pub use signatures::{breaks_signature, table_of};
