//! Variables by their numbers, found by their slots and types; and the slots of frames by their types, with the numbers that they get.
//! It stands on `dj_names` for types, and on `dj_frames` for frames.
//! The layers above use `Numbers`, `find`, `PlainTypes`, `add_frames` and `number_by`.
#![tactic(auto)]

mod frames;
mod kinds;
mod numbers;

pub use frames::{add_frame, add_frames, number_by};
pub use kinds::{PlainTypes, frame_tag};
pub use numbers::{Numbers, Variable, find};
