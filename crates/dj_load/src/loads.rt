//! Files, loaded by name one after another, within the limits.

ghost use Rattle.std.specs.Prelude.{◌≡◌, ◌≤◌, ◌<◌, ◌+◌, ◌⊎◌, [], ◌∷◌, length, IfOk, OnOk, IfErr};
ghost use Rattle.dj_outer.specs.Count.{Rose};
ghost use Rattle.dj_outer.specs.Files.{HasFile, with_asked};
ghost use Rattle.dj_load.specs.HeldFiles.{most_bytes, most_together};
ghost use Rattle.dj_load.specs.Loading.{IsWithin, LoadsMore, StoppedAt, StopsAfter, UnlessFault};

use dj_outer::{Files, LoadFault, Loaded};
use std::alloc::{AllocError, AllocFailed, Global};

/// The most bytes that a file may have.
const MOST_BYTES: usize = 16_777_216;

/// The most bytes that all files together may have.
const MOST_TOGETHER: usize = 268_435_456;

/// The most files that may be loaded.
pub(crate) const MOST_FILES: u32 = 4096;

/// Why not all files were loaded.
#[derive(Drop)]
pub enum LoadStop {
    /// The load at this place failed.
    Fault(u32),
    /// The file at this place is too large, or is with those before it, or there are too many.
    Over(u32),
    Memory(AllocError),
}

impl From<AllocError> for LoadStop {
    ghost use Rattle.std.specs.Prelude.{◌≡◌};
    ghost use Rattle.dj_load.specs.declared.loads.LoadStop.TheVariants.{Memory};

    ghost from_gives = { λ error stop. stop ≡ Memory error };

    fn from(error: AllocError) -> LoadStop {
        LoadStop::Memory(error)
    }
}

impl<T: Drop> From<AllocFailed<T>> for LoadStop {
    ghost use Rattle.std.specs.Prelude.{◌≡◌, alloc_error};
    ghost use Rattle.dj_load.specs.declared.loads.LoadStop.TheVariants.{Memory};

    ghost from_gives = { λ _ stop. stop ≡ Memory alloc_error };

    fn from(_: AllocFailed<T>) -> LoadStop {
        LoadStop::Memory(AllocError)
    }
}

/// How many files were loaded so far, and how many bytes they have together.
#[derive(Drop)]
pub(crate) struct Loads {
    place: u32,
    used: usize,
}

/// The bytes of the file of this name, which stands at this place, behind files of so many bytes together.
fn load_one<F: Files>(
    alloc: Global,
    files: &mut F,
    name: &str,
    place: u32,
    used: usize,
) -> Result<Vec<u8>, LoadStop>
    requires room { used ≤ most_together }
    ensures loaded { IfOk result (λ bytes. HasFile (F.held files.old) name.now (λ file. file ≡ bytes.items)) }
    ensures small { IfOk result (λ bytes. length bytes.items ≤ most_bytes) }
    ensures together { IfOk result (λ bytes. used + length bytes.items ≤ most_together) }
    ensures asked { OnOk result (F.asked files.new ≡ with_asked (F.asked files.old) name.now) }
    ensures stopped { IfErr result (λ stop. StoppedAt place stop (Rose (F.faults files.old) (F.faults files.new)) (HasFile (F.held files.old) name.now (λ file. (most_bytes < length file) ⊎ (most_together < used + length file))) (F.asked files.new ≡ with_asked (F.asked files.old) name.now) (F.asked files.new ≡ F.asked files.old)) }

    // What the call leaves.
    ensures kept { F.held files.new ≡ F.held files.old }
    ensures never_falls { F.faults files.old ≤ F.faults files.new }
    ensures calm { UnlessFault result (F.faults files.new ≡ F.faults files.old) }
{
    match files.load(alloc, name, MOST_BYTES) {
        Ok(Loaded::Whole(bytes)) => {
            if bytes.len() > MOST_TOGETHER - used {
                return Err(LoadStop::Over(place));
            }
            Ok(bytes)
        }
        Ok(Loaded::Over) => Err(LoadStop::Over(place)),
        Err(LoadFault::Failed) => Err(LoadStop::Fault(place)),
        Err(LoadFault::Memory(error)) => Err(LoadStop::Memory(error)),
    }
}

impl Loads {
    ghost use Rattle.std.specs.Prelude.{◌≡◌};

    /// None so far.
    pub(crate) fn new() -> Loads
        ensures place { result.place ≡ 0 }
        ensures used { result.used ≡ 0 }
    {
        Loads { place: 0, used: 0 }
    }

    /// The bytes of the file of the next name.
    pub(crate) fn load<F: Files>(
        &mut self,
        alloc: Global,
        name: &str,
        files: &mut F,
    ) -> Result<Vec<u8>, LoadStop>
        requires within { IsWithin self.old }
        ensures has { IfOk result (λ bytes. HasFile (F.held files.old) name.now (λ file. file ≡ bytes.items)) }
        ensures loaded { IfOk result (λ bytes. LoadsMore (F.held files.old) self.old self.new (F.asked files.old) (F.asked files.new) (F.faults files.old) (F.faults files.new) (name.now ∷ []) (bytes.items ∷ [])) }
        ensures counted { OnOk result (self.new.place ≡ self.old.place + 1) }
        ensures within { OnOk result (IsWithin self.new) }
        ensures stopped { IfErr result (StopsAfter (F.held files.old) self.old (F.asked files.old) (F.asked files.new) (F.faults files.old) (F.faults files.new) (name.now ∷ [])) }

        // What the call leaves.
        ensures kept { F.held files.new ≡ F.held files.old }
        ensures never_falls { F.faults files.old ≤ F.faults files.new }
        ensures calm { UnlessFault result (F.faults files.new ≡ F.faults files.old) }
    {
        if self.place == MOST_FILES {
            return Err(LoadStop::Over(self.place));
        }
        let bytes = load_one(alloc, files, name, self.place, self.used)?;
        self.used += bytes.len();
        self.place += 1;
        Ok(bytes)
    }
}
