//! What a line asks for.

use crate::values::{put_answers, values_of};
use anyhow::Result;
use dj_values::{Answer, Value};
use std::alloc::Global;

/// A run that is asked for: of which method, how far, on which arguments and with which answers.
#[derive(Drop)]
pub struct Asked {
    pub place: usize,
    pub bound: u64,
    pub arguments: Vec<Value>,
    pub answers: Vec<Answer>,
}

impl Asked {
    /// A run of the first method that goes nowhere.
    pub fn new(alloc: Global) -> Asked {
        Asked {
            place: 0,
            bound: 0,
            arguments: Vec::new(alloc),
            answers: Vec::new(alloc),
        }
    }

    /// Becomes the run that these words ask for: the method's place, a bound, arguments, a bar and answers.
    pub fn read(&mut self, alloc: Global, line: &str) -> Result<()> {
        let (before, answers) = line.split_once('|').unwrap_or((line, ""));
        let (place, rest) = before.split_once(' ').unwrap_or((before, ""));
        let (bound, arguments) = rest.split_once(' ').unwrap_or((rest, ""));
        self.place = place.parse::<usize>().unwrap_or(0);
        self.bound = bound.parse::<u64>().unwrap_or(0);
        self.arguments = values_of(alloc, arguments)?;
        self.answers = Vec::new(alloc);
        put_answers(alloc, &mut self.answers, answers)
    }

    /// The same run with these answers more.
    pub fn add(&mut self, alloc: Global, answers: &str) -> Result<()> {
        put_answers(alloc, &mut self.answers, answers)
    }
}
