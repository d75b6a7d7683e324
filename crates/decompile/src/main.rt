//! The program `decompile`: prints the class files that its words name, and ends with a status.
//! It stands on `dj_cli`, whose `run` does the work, and on the real files and streams of `dj_outer`.
//! No layer stands above it; it adds the statuses 7, want of memory, and 8, words that can't be had.
#![tactic(auto)]

use dj_cli::run;
use dj_outer::{DiskFiles, StreamSink};
use std::process::ExitCode;
use std::{env, io};

/// Memory couldn't be had.
const WANT_OF_MEMORY: u8 = 7;

/// A word isn't UTF-8.
const NO_WORDS: u8 = 8;

fn main(rt: HostRuntime) -> ExitCode {
    ExitCode::from(exit_code(&rt))
}

fn exit_code(rt: &HostRuntime) -> u8 {
    let words: Vec<String> = match env::args(rt) {
        Ok(args) => match args.collect(rt.alloc()) {
            Ok(words) => words,
            Err(_) => return WANT_OF_MEMORY,
        },
        Err(error) if error.kind() == io::ErrorKind::OutOfMemory => return WANT_OF_MEMORY,
        Err(_) => return NO_WORDS,
    };
    let mut files = DiskFiles::new(rt);
    let mut text = StreamSink::new(rt.stdout());
    let mut report = StreamSink::new(rt.stderr());
    match run(
        rt.alloc(),
        words.as_slice(),
        &mut files,
        &mut text,
        &mut report,
    ) {
        Ok(status) => status.exit_code(),
        Err(_) => WANT_OF_MEMORY,
    }
}
