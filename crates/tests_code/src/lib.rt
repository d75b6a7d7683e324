//! Tests of a method's code through public calls: how it is read and copied, where control goes in it, its frames, and the values of its runs.
//! It stands on the crates that it tests, so that each of them is proved once, without tests.
//! No layer stands above it, and it has no call of its own.
#![tactic(auto)]

#[cfg(test)]
mod code;
#[cfg(test)]
mod made;
#[cfg(test)]
mod starts;
#[cfg(test)]
mod tables;
#[cfg(test)]
mod values;
