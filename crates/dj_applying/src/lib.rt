//! What each instruction does to a frame, done (JVMS 6.5, 4.10.1.9).
//! It stands on `dj_effects` for what instructions take and give and for the frame that is worked on, on `dj_tags` for what goes where, and on `dj_code` for instructions and frames.
//! The layers above use `apply`, which is exact, and `locals_needed`.
#![tactic(auto)]

mod applying;
mod births;
mod forms;
mod locals;
mod rows;
mod special;
mod taking;

pub use applying::{apply, locals_needed};
pub use forms::{DUP, DUP_X1, DUP_X2, DUP2, DUP2_X1, DUP2_X2, Form, POP, POP2, SWAP, form_of};
