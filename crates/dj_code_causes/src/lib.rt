//! Why a method with code isn't printed, as far as its instructions and the names in it tell (JVMS 4.3, 6.5; JLS 6.4.2).
//! It stands on `dj_causes` for names that can be said, on `dj_code` for code, and on `dj_starts` for what an instruction does.
//! The layer above uses `first_float`, `first_dynamic`, `first_monitor`, `names_above`, `least_missing` and `least_unsaid_in`, whose contracts are exact.
#![tactic(auto)]

mod instructions;
mod named;
mod names;

pub use instructions::{first_dynamic, first_float, first_monitor};
pub use names::{least_missing, least_unsaid_in, names_above};
