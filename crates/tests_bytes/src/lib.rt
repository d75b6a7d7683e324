//! Tests of files as bytes through public calls: files and sinks, a layout, copies of what names have, classes as they are read, copied and written, made files, and no command line.
//! It stands on the crates that it tests, so that each of them is proved once, without tests.
//! No layer stands above it, and it has no call of its own.
#![tactic(auto)]

#[cfg(test)]
mod layouts;
#[cfg(test)]
mod names;
#[cfg(test)]
mod outer;
#[cfg(test)]
mod words;
#[cfg(test)]
mod written;
