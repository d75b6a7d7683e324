//! Headers of classes with a table of which stands above which, so that it is looked up and not searched for.
//! It stands on `dj_names`: its names, types and headers, and what it is to stand above.
//! The layers above use `Headers` (`is_subclass`, `implements`, `is_interface`, `place`), `is_subtype` and `is_assignable`, each exact and without memory.
#![tactic(auto)]

mod assignable;
mod headers;
mod places;
mod roots;
mod rows;
mod table;
mod tables;

pub use assignable::{
    is_above_arrays, is_assignable, is_class_assignable, is_reference, is_subtype,
};
pub use headers::Headers;
pub use roots::class_of;
