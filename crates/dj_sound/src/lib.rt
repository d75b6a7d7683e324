//! Typed code never goes wrong: no run of it lacks an operand or meets one of a wrong kind.
//! It stands on `dj_verify` for which code is typed, on `dj_bytecode` for what code does, on `dj_typed_states` for what a frame says of a state, and on `dj_loaded` for which classes may run.
//! The layers above use the laws: `typed_runs_stand`, which says it of each step, `strict_runs_stand`, which says it of the classes of references too, and `typed_code_never_goes_wrong`.
#![tactic(auto)]

mod laws;

pub use laws::{strict_runs_stand, typed_code_never_goes_wrong, typed_runs_stand};
