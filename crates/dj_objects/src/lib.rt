//! What a run of a body of source knows and has, and what is asked of objects, arrays, fields and methods in it: the program of these parts of the meaning of source.
//! It stands on `dj_meaning` for what they mean, on `dj_static` for the types and members that they rest on, on `dj_operators` for conversions, and on `dj_outside` for what the outside is asked and answers.
//! The layer above makes a `Reply` of each operation (`arrays::read`, `fields::write`, `call`, and those like them) and settles it by `Method`; each comes to exactly what the definition says (`settled`).
#![tactic(auto)]

pub mod arrays;
pub mod calls;
pub mod fields;
mod replies;
mod run;
pub mod scoping;
mod values;

pub use replies::Reply;
pub use run::{Method, Run};
pub use values::Values;
