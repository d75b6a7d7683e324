//! How a run ends, and the lines of its report.
//! It stands on `dj_outer` for sinks, on `dj_words` for what may be wrong with words, on `dj_names` for names and types, on `dj_pool` for what may be wrong with a class file, on `dj_world` for how a class may clash with others, on `dj_instructions` for what may be wrong with code, on `dj_verify` for the rules of type checking, and on `dj_causes` for why something is refused.
//! The layer above uses the functions that make a line (`line`) or the end of one (`tail`), those that put one without memory (`puts`), and `Status`.
#![tactic(auto)]

mod gathered;
mod named;
mod putting;
mod refused;
mod report;
mod status;

pub use gathered::Gathered;
pub use named::put_name_tail;
pub use putting::put_piece;
pub use refused::{
    put_field_line, put_refused_class_line, refused_class_tail, refused_field_tail,
    refused_method_tail,
};
pub use report::{
    bad_tail, broken_line, clash_line, list_line, much_line, not_yet_tail, put_method_line,
    read_line, unverified_tail, usage_line,
};
pub use status::Status;
