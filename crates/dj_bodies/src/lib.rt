//! Whether Java accepts a body in a world of classes: by types, reachability, definite assignment and exceptions (JLS 11, 14, 15, 16).
//! It stands on `dj_typed` for the rules, on `dj_body_types`, `dj_reach`, `dj_assigned` and `dj_thrown`, each of which checks a part, and on `dj_world`.
//! The layers above use `type_body`, which tells the first rule that is broken.
#![tactic(auto)]

mod check;
mod parts;
mod said;

pub use check::type_body;
