//! Why a class, a field or a method without code isn't printed (JVMS 4; JLS 6 to 9).
//! It stands on `dj_sayable` for names that can be said, on `dj_signatures` for methods beside others, and on `dj_world` for what a world has.
//! The layers above use names gathered and the least of them that can't be said, and `Causes`, made once a class: `class_cause`, `field_cause` and `bare_cause` each answer the first cause that holds.
#![tactic(auto)]

mod bare;
mod cause;
mod causes;
mod class_causes;
mod constants;
mod tables;
mod types;
mod unsaid;

pub use bare::unsaid_method_name;
pub use cause::{Cause, ClassCause, FieldCause};
pub use causes::Causes;
pub use unsaid::{
    add_all, add_descriptor, add_name, add_type, common_names, least_of, lesser, unsaid_name,
};
