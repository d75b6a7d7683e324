//! The classes of each world may be loaded side by side.
//! It stands on `dj_world` for which classes a world may have, and on `dj_loaded` for which classes a machine runs.
//! The layers above use the law, `worlds_may_run`.
#![tactic(auto)]

mod laws;

pub use laws::worlds_may_run;
