//! Tests of the program's call where a sink fails, which no worked run in `rows/` shows.
//! It stands on the crate that it tests, `dj_cli`, and on the files and sinks in memory of `dj_outer`.
//! No layer stands above it.
#![tactic(auto)]

#[cfg(test)]
mod runs;
