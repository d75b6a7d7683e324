//! The constant pool of a class file (JVMS 4.4) and attributes as they are laid out (JVMS 4.7).
//! It stands on `dj_layout` for the format, and on `dj_names` for names and descriptors.
//! The layers above use the clauses `reads` of `pool_at`, `skip_pool` and `attributes_at`, and what `Pool` says an index leads to.
#![tactic(auto)]

mod attributes;
mod entries;
mod entry;
mod fault;
mod modified_utf8;
mod names;
mod parsed;
mod pool;
mod pools;
mod raw;
mod skipped;
mod texts;

pub use attributes::{has_attribute, is_name};
pub use entry::Entry;
pub use fault::BrokenKind;
pub use pool::Pool;
pub use pools::pool_at;
pub use raw::{Attribute, attribute_at, attributes_at};
pub use skipped::skip_pool;
pub use texts::{class_name_of, class_text_at, has_tag, is_class_index, is_method_text, is_text};
