//! A sink of bytes, as whoever writes into it sees it.
ghost use Rattle.std.specs.Prelude.{◌≡◌, ◌≤◌, ℕ, List, Option, OnOk, OnErr};
ghost use Rattle.std.specs.Io.KnownBytes.{append_known};
ghost use Rattle.dj_outer.specs.Count.{Rose};
ghost use Rattle.dj_outer.specs.Sink.{TakesPrefix};

use crate::Failed;

/// A sink that takes pieces of bytes. `taken` is all that it took, where it is told; `faults` counts
/// what went wrong.
pub trait Sink {
    ghost taken: { Self → Option (List ℕ) };

    ghost faults: { Self → ℕ };

    /// Puts the piece after what was taken.
    fn put(&mut self, piece: &[u8]) -> Result<(), Failed>
        ensures ok { OnOk result (taken self.new ≡ append_known (taken self.old) piece.now) }
        ensures prefix { OnErr result (TakesPrefix (taken self.old) (taken self.new) piece.now) }
        ensures calm { OnOk result (faults self.new ≡ faults self.old) }
        ensures failed { OnErr result (Rose (faults self.old) (faults self.new)) }
        ensures never_falls { faults self.old ≤ faults self.new };
}
