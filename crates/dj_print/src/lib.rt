//! The printer: the one text of a unit, as bytes, into a sink, or compared with bytes.
//! It stands on `dj_syntax` for the trees and the text of a unit, on `dj_names` for names and types, and on `dj_outer` for sinks.
//! The layer above uses `unit_bytes`, which answers the text of a well formed unit, `print_unit`, which puts it without memory, and `is_text`, which tells whether bytes are it.
#![tactic(auto)]

mod out;
mod print;

pub use print::{is_text, print_unit, unit_bytes};
