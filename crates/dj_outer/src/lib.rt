//! The outside as two traits: files by name, and a sink of bytes, each with a count of faults.
//! Stands on the kit alone; the real files and streams are the trusted edge, with a test each.
//! The layers above use `Files::load` and `Sink::put`, and name no implementation.
#![tactic(auto)]

mod count;
mod disk_files;
mod files;
mod memory_files;
mod memory_sink;
mod sink;
mod stream_sink;

pub use disk_files::DiskFiles;
pub use files::{Failed, Files, LoadFault, Loaded};
pub use memory_files::MemoryFiles;
pub use memory_sink::MemorySink;
pub use sink::Sink;
pub use stream_sink::StreamSink;
