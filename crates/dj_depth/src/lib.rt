//! Whether the trees that a parser makes of a text may be too deep: they are judged, printed and dropped by recursion.
//! It stands on `dj_tokens` for the words of a text.
//! The layer above, `dj_read`, uses `is_deep`, and reads no text that is.
#![tactic(auto)]

mod depth;
mod effects;
mod level;

pub use depth::is_deep;
