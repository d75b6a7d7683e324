//! Tests of texts through public calls: texts are read, copied and printed again, also deeply nested ones, other bytes are misread, and a class's text has the name of its helper.
//! It stands on `dj_outer` for a sink, on `dj_read` and the crates of trees and their text below it, and on `dj_class_text`, `dj_causes`, `dj_world` and `dj_class` for the text of a class, whose public calls it makes.
//! No layer stands above it.
#![tactic(auto)]

#[cfg(test)]
mod helpers;
#[cfg(test)]
mod misread;
#[cfg(test)]
mod nested;
#[cfg(test)]
mod texts;
#[cfg(test)]
mod trees;
