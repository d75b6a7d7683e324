//! Files by name, as whoever loads them sees them.
ghost use Rattle.std.specs.Prelude.{◌≡◌, ◌≤◌, ◌<◌, ◌⊎◌, ℕ, List, Option, length};

use std::alloc::{AllocError, AllocFailed, Global};
use thiserror::Error;

/// What a file gave: all its bytes, or that it has more than the limit.
#[derive(Debug, PartialEq, Eq, Drop)]
pub enum Loaded {
    Whole(Vec<u8>),
    Over,
}

/// The outside failed: a file could not be read, or a piece could not be written.
#[derive(Clone, Copy, Debug, PartialEq, Eq, Error)]
#[error("the outside failed")]
pub struct Failed;

/// Why a load gave nothing: the outside failed, or memory was wanting.
#[derive(Clone, Copy, Debug, PartialEq, Eq, Error)]
pub enum LoadFault {
    #[error("the outside failed")]
    Failed,
    #[error(transparent)]
    Memory(AllocError),
}

impl From<AllocError> for LoadFault {
    ghost use Rattle.std.specs.Prelude.{◌≡◌};
    ghost use Rattle.dj_outer.specs.declared.files.LoadFault.TheVariants.{Memory};

    ghost from_gives = { λ error fault. fault ≡ Memory error };

    fn from(error: AllocError) -> LoadFault {
        LoadFault::Memory(error)
    }
}

impl<T: Drop> From<AllocFailed<T>> for LoadFault {
    ghost use Rattle.std.specs.Prelude.{◌≡◌, alloc_error};
    ghost use Rattle.dj_outer.specs.declared.files.LoadFault.TheVariants.{Memory};

    ghost from_gives = { λ _ fault. fault ≡ Memory alloc_error };

    fn from(_: AllocFailed<T>) -> LoadFault {
        LoadFault::Memory(AllocError)
    }
}

/// Files that are loaded by name. `held` is what they hold, as names with bytes, and `asked` the
/// names that were asked for, oldest first, each where it is told; `faults` counts what went wrong.
pub trait Files {
    ghost use Rattle.dj_outer.specs.Count.{Rose};
    ghost use Rattle.dj_outer.specs.Files.{IfWhole, OnOver, OnFailed, OnMemory, UnlessFailed, UnlessMemory, HasFile, with_asked};

    ghost held: { Self → Option (List (List ℕ × List ℕ)) };

    ghost asked: { Self → Option (List (List ℕ)) };

    ghost faults: { Self → ℕ };

    /// Loads the file of this name, if it has at most `limit` bytes.
    fn load(&mut self, alloc: Global, name: &str, limit: usize) -> Result<Loaded, LoadFault>
        ensures whole { IfWhole result
            (λ bytes. HasFile (held self.old) name.now (λ file. file ≡ bytes)) }
        ensures within { IfWhole result (λ bytes. length bytes ≤ limit) }
        ensures over { OnOver result
            (HasFile (held self.old) name.now (λ file. limit < length file)) }
        ensures calm { UnlessFailed result (faults self.new ≡ faults self.old) }
        ensures failed { OnFailed result (Rose (faults self.old) (faults self.new)) }

        // What the call leaves.
        ensures never_falls { faults self.old ≤ faults self.new }
        ensures kept { held self.new ≡ held self.old }
        ensures asked { UnlessMemory result
            (asked self.new ≡ with_asked (asked self.old) name.now) }
        ensures asked_at_most { OnMemory result
            ((asked self.new ≡ asked self.old)
            ⊎ (asked self.new ≡ with_asked (asked self.old) name.now)) };
}
