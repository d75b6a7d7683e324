//! The unit of a class, given the bodies of its methods (JVMS 4.1, 4.5, 4.6; JLS 7.4, 8, 9).
//! It stands on `dj_causes` for what isn't printed, on `dj_class` for classes, and on `dj_syntax` for units.
//! The layer above uses `class_text` (`text`).
#![tactic(auto)]

mod fields;
mod helper;
mod methods;
mod rethrows;
mod split;
mod whole;

pub use whole::class_text;
