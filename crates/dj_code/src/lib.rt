//! The code of methods, whole: its instructions, its exception table and its frames, or the first fault (JVMS 4.7.3, 4.9.1).
//! It stands on `dj_instructions` and `dj_frames`, whose types it gives on, on `dj_stack_map` for the table of frames, on `dj_class` for attributes, on `dj_layout` for the format, and on `dj_names` for names and types.
//! The layers above use `read_code` and `read_code_of`, which answer the code exactly where the content of a Code attribute is one and else its first fault, `read_content`, and `copy` of each type.
#![tactic(auto)]

mod content;
mod fault;
mod method_code;
mod ranges;
mod reading;
mod targets;

pub use content::{CodeContent, RawHandler, read_content};
pub use dj_frames::{Frame, Slots, Tag, entry_frame};
pub use dj_instructions::{
    BadKind, Calc, Element, FieldRef, Instruction, Kind, MethodRef, Test, instruction_at, is_start,
    read_instructions, type_of_class,
};
pub use fault::CodeFault;
pub use method_code::{Code, Handler, Typed};
pub use reading::{read_code, read_code_of};
