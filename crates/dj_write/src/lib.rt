//! Class files written: a class that was read, or the parts of one by their indices into the pool, to the bytes that the layout of class files spells for them (JVMS 4.1).
//! It stands on `dj_class` and `dj_pool` for that layout, which they read by, and on `byteorder` for numbers.
//! The layer above uses `write_class`, whose bytes are a file of the class (`written`), `write_file`, whose bytes are the spelling of the file that it is given (`written`), and the writers of parts (`put`).
#![tactic(auto)]

mod attributes;
mod class;
mod constants;
mod descriptors;
mod entries;
mod file;
mod index;
mod led;
mod members;
mod parts;
mod raws;

pub use class::write_class;
pub use file::{RawFile, write_file};
pub use members::{RawMember, put_attributes};
pub use parts::{put_sized, put_u16};
