//! Names, types and descriptors of the Java virtual machine as plain data, their readers and writers, and what it is for classes and types to stand to each other.
//! It stands on the kit's lists and boxes that contracts see as what they hold, which it hands on beside shared ones of its own.
//! The layers above use `read_descriptor`, `read_units`, `write_units`, `is_identifier`, `is_sayable`, each of which is exact, and `copy` of each type, which answers an equal value.
#![tactic(auto)]

mod class_name;
mod compared;
mod descriptor;
mod descriptors;
mod fault;
mod header;
mod identifiers;
mod members;
mod method_names;
mod relations;
mod sayable;
mod shared;
mod shared_list;
mod shown;
mod static_type;
mod types;
mod units;
mod unread;
mod utf8;

pub use class_name::{ClassName, copy_names};
pub use descriptor::Descriptor;
pub use descriptors::read_descriptor;
pub use fault::NameFault;
pub use header::Header;
pub use identifiers::{is_among, is_identifier, is_word, spells_identifier};
pub use members::{ClassMembers, Constant, Field, Member, Members, MethodHead, copy_fields};
pub use method_names::{is_constructor, is_initialiser};
pub use relations::paths_can_be_cut;
pub use sayable::{is_sayable, is_variable_like};
pub use shared::Shared;
pub use shared_list::SharedList;
pub use shown::{hex_digit, is_shown_plain};
pub use sqlite_items::{Boxed, Items};
pub use static_type::StaticType;
pub use types::{JType, same_type};
pub use units::Units;
pub use utf8::{read_units, write_units};
