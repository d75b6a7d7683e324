//! The code of a method as instructions (JVMS 4.7.3, 6.5).
//! It stands on `dj_pool` for the pool, on `dj_layout` for the format, and on `dj_names` for names and types.
//! The layers above use `read_instructions`, which answers the instructions exactly where the bytes are some and else their first fault, `instruction_at`, and `copy` of instructions and of the fields and methods that they name.
#![tactic(auto)]

mod alone;
mod constants;
mod form;
mod instruction;
mod jumps;
mod kinds;
mod listing;
mod lookup;
mod members;
mod objects;
mod operands;
mod plain;
mod pool_names;
mod reading;
mod references;
mod switches;
mod types;

pub use instruction::Instruction;
pub use kinds::{BadKind, Calc, Element, Kind, Test};
pub use listing::read_instructions;
pub use lookup::{instruction_at, is_start};
pub use pool_names::type_of_class;
pub use references::{FieldRef, MethodRef};
