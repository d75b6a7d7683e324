//! The body of a method from the tree of its graph, where no `try` stands: its variables at the head, and the tree made lawful.
//! It stands on `dj_declaring` for what the body is, and that it is typed and shows what the tree shows, and on `dj_lawful` for the pass.
//! The layers above use `declare`, whose result is `declared_body` of those definitions, and `free_label`.
#![tactic(auto)]

mod declaring;
mod finding;
mod found;
mod heads;
mod labels;
mod returning;

pub use declaring::declare;
pub use labels::free_label;
