//! Frames: what the locals and the operand stack of a method hold, and the frame that it begins with (JVMS 4.7.4, 4.10.1.2).
//! It stands on `dj_class` for methods, and on `dj_names` for types.
//! The layers above use `Tag`, `Slots`, `Frame`, `Locals`, which change from frame to frame, `entry_frame`, and `copy` of each type.
#![tactic(auto)]

mod entry;
mod frame;
mod locals;
mod slots;
mod tag;
mod tree;
mod unborn;

pub use entry::{entry_frame, entry_locals};
pub use frame::Frame;
pub use locals::Locals;
pub use slots::Slots;
pub use tag::Tag;
pub use unborn::{Unborn, is_unborn};
