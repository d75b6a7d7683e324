//! Class files that the program makes itself, for large runs: one for each number, with three methods that go from ints to an int.
//! It stands on `dj_write`, which writes a class file by its indices.
//! The layer above uses `make` (`made`): the file is the spelling of the one that `specs/Made` states.
#![tactic(auto)]

mod code;
mod file;

pub use file::make;
