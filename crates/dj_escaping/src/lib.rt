//! Which instructions call a method that lists a checked class which may not escape from their code (JLS 11.2.1).
//! It stands on `dj_thrown` for what calls list, on `dj_world` for the classes, on `dj_receivers` for calls of a constructor on `this`, and on a law of `dj_member_cause`: which method a call by its own parameters means.
//! The layer above uses `lets_escape`, which is exact.
#![tactic(auto)]

mod escaping;
mod exactly;

pub use escaping::lets_escape;
