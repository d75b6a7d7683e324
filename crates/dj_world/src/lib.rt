//! Classes by their names: which class may be added to others, the members that it brings (JVMS 5.3.5), and where a member is found.
//! It stands on `dj_headers` for what stands above what, on `dj_kinds` for the tables of members and the search in them, and on `dj_class` for class files.
//! The layers above use `World`, which is empty at first: `add` takes a class or answers the least clash, `headers` and `members` are the lists that it has, and `find_method`, `find_field` and `accessible` ask them.
#![tactic(auto)]

mod clash;
mod core_kinds;
mod fault;
mod members;
mod named;
mod parents;
mod wanted;
mod world;

pub use fault::{AddFault, ClashKind};
pub use world::World;
