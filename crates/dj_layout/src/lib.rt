//! Binary file formats as values, and the readers of their parts.
//! It stands on `byteorder` alone; a format is a `Layout` of specs/Layout.antt, made by its combinators.
//! The layer above uses the clause `Reads layout view end bytes result` of each reader.
#![tactic(auto)]

pub mod example;
mod fault;
mod parts;

pub use fault::{Fault, Stop};
pub use parts::{fault_at, run_at, u8_at, u16_at, u32_at, u64_at};
