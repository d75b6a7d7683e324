//! What calls in Java source mean, in a world of classes (JLS 15.12).
//! It stands on `dj_world` for the classes and their members, and on `dj_kinds` for the choice among methods.
//! The layers above use `resolve_call`, which answers exactly the method that a call means, where it means one.
#![tactic(auto)]

mod calls;

pub use calls::resolve_call;
