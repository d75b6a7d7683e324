//! What each instruction takes from a frame and gives (JVMS 6.5, 4.10.1.9), as a table with a row for each, and the frame that is worked on.
//! It stands on `dj_tags` for what goes where, and on `dj_code` for instructions and frames.
//! The layers above use `Working`, `Stack`, `replace_all`, `Want`, `Known`, `is_spelled` and the tests beside them, each of which is exact.
#![tactic(auto)]

mod known;
mod spelled;
mod stack;
mod unborn;
mod want;
mod working;

pub use known::{ArrayTags, ClassTags, Known, array};
pub use spelled::{is_kind, is_spelled};
pub use stack::Stack;
pub use unborn::replace_all;
pub use want::{Want, has_kind, is_wanted};
pub use working::Working;
