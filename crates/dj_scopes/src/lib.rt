//! Scopes as walks over statements go through them: what is declared is put back behind its list (JLS 6.3).
//! It stands on `dj_static` for scopes, and on `dj_meaning` for what statements declare.
//! The layers above use `parameters_in`, `declare`, and `Kept` with `keep`, `keep_declared` and `put_back`.
#![tactic(auto)]

mod keeping;
mod parameters;

pub use keeping::{Kept, declare, declared, keep, keep_declared, put_back};
pub use parameters::parameters_in;
