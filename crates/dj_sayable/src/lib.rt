//! Which names of classes the text of a class can say (JLS 6.4.2, 6.5.2), and which classes stand above others.
//! It stands on `dj_headers` for what stands above what, on `dj_members` for tables of names, and on `dj_kinds` for packages.
//! The layers above use `Scope`, made once a class: `can_be_said` and `is_unobscured` are exact and look names up; and `all_above`.
#![tactic(auto)]

mod above;
mod scope;
mod segments;

pub use above::all_above;
pub use scope::{Scope, is_among};
pub use segments::{has_package, simple_name};
