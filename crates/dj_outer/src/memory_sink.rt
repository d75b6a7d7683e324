//! A sink in memory, which tells what it took.
ghost use Rattle.std.specs.Prelude.{◌≡◌, ◌≤◌, ◌↔◌, [], Err, Some, IfOk, IsErr};
ghost use Rattle.dj_outer.specs.MemorySink.{PutFails, SinkState, after_put};

use crate::count::raise;
use crate::{Failed, Sink};
use std::alloc::{AllocError, Global};
use std::marker::Model;

/// A sink in memory, for tests. Calls are numbered as in `MemoryFiles`; a call whose number is
/// listed fails, and one whose piece needs more room than is left. A call that fails takes nothing.
#[derive(Debug, Drop)]
pub struct MemorySink {
    room: usize,
    taken: Vec<u8>,
    failing: Vec<u64>,
    calls: u64,
    faults: u64,
}

impl Model for MemorySink {
    ghost use Rattle.std.specs.Prelude.{◌≤◌};
    ghost use Rattle.std.specs.Vec.{vec_len, vec_capacity};
    ghost use Rattle.dj_outer.specs.MemorySink.{SinkState};

    ghost Value = { SinkState };

    ghost view = { λ sink. record {
      room = sink.room;
      taken = sink.taken.items;
      failing = sink.failing.items;
      calls = sink.calls;
      faults = sink.faults;
    } };

    ghost invariant = { λ sink.
        (vec_len sink.taken ≤ sink.room) × (sink.room ≤ vec_capacity sink.taken) };
}

impl MemorySink {
    /// A sink in memory that takes `room` bytes in all.
    pub fn new(alloc: Global, room: usize, failing: Vec<u64>) -> Result<MemorySink, AllocError>
        ensures { IfOk result (λ sink. sink ≡ record {
          room = room;
          taken = [];
          failing = failing.items;
          calls = 0;
          faults = 0;
        }) }
    {
        Ok(MemorySink {
            room,
            taken: Vec::with_capacity(alloc, room)?,
            failing,
            calls: 0,
            faults: 0,
        })
    }

    /// All that was taken.
    pub fn taken(&self) -> &[u8]
        ensures { result.now ≡ self.now.taken }
    {
        &self.taken
    }
}

impl Sink for MemorySink {
    ghost taken = { λ sink. Some sink.taken };

    ghost faults = { λ sink. sink.faults };

    fn put(&mut self, piece: &[u8]) -> Result<(), Failed>
        ensures failed { IsErr result ↔ PutFails self.old piece.now }
        ensures after { self.new ≡ after_put self.old piece.now result }
        ensures never_falls { self.old.faults ≤ self.new.faults }
    {
        let listed = self.failing.contains(&self.calls);
        raise(&mut self.calls);
        if listed || piece.len() > self.room - self.taken.len() {
            raise(&mut self.faults);
            return Err(Failed);
        }
        self.taken.extend_from_slice(piece).unwrap();
        Ok(())
    }
}
