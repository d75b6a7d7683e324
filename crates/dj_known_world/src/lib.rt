//! Whether a world has the core of classes and right members, which the laws on bodies ask.
//! It stands on `dj_world` for worlds, and on `dj_held` for what is asked.
//! The layer above uses `is_known`, made once a run, and the law `known_worlds`.
#![tactic(auto)]

mod known;
mod laws;

pub use known::is_known;
pub use laws::known_worlds;
