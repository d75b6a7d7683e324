//! A typed body never goes wrong: no run of it stops where the rules of the language rule it out.
//! It stands on `dj_typed` for which bodies are typed, on `dj_meaning` for what they do, and on `dj_held` for what expressions do and what their runs keep.
//! The layers above use the law: `typed_bodies_never_go_wrong`.
#![tactic(auto)]

mod laws;

pub use laws::typed_bodies_never_go_wrong;
