//! A sink over a writer of the system: the trusted edge, which counts faults and tells nothing else.
ghost use Rattle.std.specs.Prelude.{◌≡◌, ◌≤◌, OnOk, OnErr};
ghost use Rattle.std.specs.Io.KnownBytes.{Appends};
ghost use Rattle.dj_outer.specs.Count.{Rose};
ghost use Rattle.dj_outer.specs.Sink.{AppendsFront};

use crate::count::raise;
use crate::{Failed, Sink};
use std::io::Write;

/// A sink over a writer. A put ends at the first error of the writer, which counts as a fault, and so
/// does a write that takes nothing. A put that succeeds has flushed the writer. As a sink it tells
/// nothing; over a writer that tells its bytes, the contract of this `put` says which were written.
#[derive(Drop)]
pub struct StreamSink<W> {
    writer: W,
    faults: u64,
}

impl<W> StreamSink<W> {
    ghost use Rattle.dj_outer.specs.StreamSink.{writer_of, stream_faults};

    /// A sink over this writer, with no fault so far.
    pub fn new(writer: W) -> StreamSink<W>
        ensures writer { writer_of result ≡ writer }
        ensures faults { stream_faults result ≡ 0 }
    {
        StreamSink { writer, faults: 0 }
    }
}

impl<W: Write> Sink for StreamSink<W> {
    ghost use Rattle.std.specs.Prelude.{None};
    ghost use Rattle.dj_outer.specs.StreamSink.{writer_of, stream_faults};

    ghost taken = { λ _. None };

    ghost faults = { λ sink. sink.faults };

    fn put(&mut self, piece: &[u8]) -> Result<(), Failed>
        ensures ok { OnOk result
            (Appends (W.contents (writer_of self.old)) (W.contents (writer_of self.new)) piece.now) }
        ensures prefix { OnErr result (AppendsFront (W.contents (writer_of self.old))
            (W.contents (writer_of self.new)) piece.now) }
        ensures calm { OnOk result (stream_faults self.new ≡ stream_faults self.old) }
        ensures failed { OnErr result (Rose (stream_faults self.old) (stream_faults self.new)) }
        ensures never_falls { stream_faults self.old ≤ stream_faults self.new }
    {
        let outcome = write_whole(&mut self.writer, piece);
        if outcome.is_err() {
            raise(&mut self.faults);
        }
        outcome
    }
}

fn write_whole<W: Write>(writer: &mut W, piece: &[u8]) -> Result<(), Failed>
    ensures ok { OnOk result (Appends (W.contents writer.old) (W.contents writer.new) piece.now) }
    ensures prefix { OnErr result
        (AppendsFront (W.contents writer.old) (W.contents writer.new) piece.now) }
{
    let mut rest = piece;
    while !rest.is_empty() {
        match writer.write(rest) {
            Ok(0) => return Err(Failed),
            Ok(count) => rest = &rest[count..],
            Err(_) => return Err(Failed),
        }
    }
    match writer.flush() {
        Ok(()) => Ok(()),
        Err(_) => Err(Failed),
    }
}
