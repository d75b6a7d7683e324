//! Class files (JVMS 4): which bytes are one, the class that they describe, and what is wrong with those that are none.
//! It stands on `dj_pool` for the constant pool and attributes, on `dj_layout` for the format, and on `dj_names` for names and descriptors.
//! The layers above use `read_class`, which answers the class exactly where the bytes are a class file and else their first fault.
#![tactic(auto)]

mod attributes;
mod bodies;
mod class;
mod constants;
mod copies;
mod fault;
mod flags;
mod front;
mod listed;
mod members;
mod method;
mod own;
mod skipped;

pub use class::{ClassFile, read_class};
pub use dj_pool::{Attribute, BrokenKind, Entry, Pool, attributes_at, has_attribute};
pub use fault::ClassFault;
pub use flags::is_interface;
pub use method::Method;
