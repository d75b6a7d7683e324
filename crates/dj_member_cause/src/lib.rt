//! Which instruction of a method names a field or a method that Java can't name as it does (JLS 6.6, 8.8, 15.9.3, 15.11, 15.12).
//! It stands on `dj_meant` for what is meant by a name, on `dj_static` for which member that is, and on `dj_receivers` for calls on `this`.
//! The layer above uses `first_lacking`, which is exact.
#![tactic(auto)]

mod above;
mod exactly;
mod fields;
mod judging;
mod known;
mod lacking;
mod methods;

pub use lacking::first_lacking;
