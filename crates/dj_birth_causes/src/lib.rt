//! Births that can't be written as one expression, what stands in a constructor before it calls another one and can't be written there, and what is too large (JLS 8.8.7, 15.9).
//! It stands on `dj_starts` for births and where blocks start, on `dj_receivers` for calls of a constructor on `this`, on `dj_escaping` for checked classes, and on `dj_code` for code.
//! The layer above uses `first_before_super`, `first_unborn` and `too_much`, whose contracts are exact.
#![tactic(auto)]

mod beginning;
mod comparisons;
mod large;
mod own_calls;
mod receiver;
mod unborn;

pub use beginning::first_before_super;
pub use large::too_much;
pub use own_calls::first_own_call;
pub use unborn::first_unborn;
