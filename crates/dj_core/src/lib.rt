//! The 24 classes that are known without a file, with the members that are known of them.
//! It stands on `dj_names` for headers and members.
//! The layers above use `core_class`, which makes one of them as the table of `specs/CoreTable` has it.
#![tactic(auto)]

mod make;
mod rows;
mod texts;

pub use make::{CORE_CLASSES, CoreClass, core_class};
