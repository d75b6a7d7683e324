//! The law that each class that is read from a file is as class texts ask: constants of their size, methods' descriptors, few methods.
//! It stands on `dj_class` for what class files are, and on `dj_class_text` for what is asked.
//! The layer above uses the law, `classes_are_from_files`.
#![tactic(auto)]

mod law;

pub use law::classes_are_from_files;
