//! The StackMapTable of a method's code, read: the frames that it gives, or where it breaks (JVMS 4.7.4).
//! It stands on `dj_frames` for frames, on `dj_instructions` for where instructions begin, on `dj_class` and `dj_pool` for attributes and the pool, on `dj_layout` for the format, and on `dj_names` for types.
//! The layers above use `read_frames`, which answers the frames exactly where the table is right and else where its first fault is.
#![tactic(auto)]

mod follow;
mod form;
mod frames;
mod places;
mod table;
mod tags;
mod written;

pub use frames::read_frames;
