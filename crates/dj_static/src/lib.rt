//! What is known of an expression without running it: its type, and which field or method each name in it means.
//! It stands on `dj_meaning` for these rules, on `dj_kinds` for which method a call means, and on `dj_syntax` for the trees.
//! The layer above uses `Classes`, `Scope`, `type_of`, `types_of`, `selected`, `named_field`, and `Target` with the functions that find one.
#![tactic(auto)]

mod classes;
mod fields;
mod marks;
mod scope;
mod targets;
mod types;
mod visible;
mod walks;

pub use classes::{Classes, superclass_of};
pub use fields::{Selection, constant_of, is_of_class, named_field, selected};
pub use scope::Scope;
pub use targets::{
    ChosenMethod, Target, by_flags, method_of, object_kind, of_class, of_construct, of_new,
    of_object, of_super,
};
pub use types::{array_of, element_of, is_floating_pair, plain_type_of, type_of, types_of};
pub use visible::is_interface;
pub use walks::{OwnField, own_field, sole_owner};
