//! A sink of a few bytes, in which lines are gathered, to be put in one piece.

ghost use Rattle.std.specs.Prelude.{◌≡◌, []};

use arrayvec::ArrayVec;
use dj_outer::{Failed, Sink};

/// How many bytes are gathered at most.
const MOST: usize = 4096;

/// Bytes as far as they are gathered, at most 4,096 of them. A piece that doesn't fit behind them isn't taken,
/// which counts as a fault.
#[derive(Drop)]
pub struct Gathered {
    pub bytes: ArrayVec<u8, MOST>,
    pub faults: u64,
}

impl Gathered {
    /// No bytes.
    pub fn new() -> Gathered
        ensures none { result.bytes.items ≡ [] }
    {
        Gathered {
            bytes: ArrayVec::new(),
            faults: 0,
        }
    }
}

impl Sink for Gathered {
    ghost use Rattle.std.specs.Prelude.{Some};

    ghost taken = { λ gathered. Some gathered.bytes.items };

    ghost faults = { λ gathered. gathered.faults };

    fn put(&mut self, piece: &[u8]) -> Result<(), Failed> {
        match self.bytes.try_extend_from_slice(piece) {
            Ok(()) => Ok(()),
            Err(_) => {
                self.faults = self.faults.saturating_add(1);
                Err(Failed)
            }
        }
    }
}
