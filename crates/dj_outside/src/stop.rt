//! Why a run stops without a result.

use dj_values::RefValue;
use std::alloc::AllocError;

/// Why a run stops without a result.
#[derive(Drop)]
pub enum Stop {
    /// There is no memory to go on with; of the run nothing is said.
    Memory(AllocError),
    /// An exception that nothing has taken yet.
    Throws(RefValue),
    /// The bound, a missing answer, or what isn't run.
    More,
    /// What the rules of code or of the language rule out.
    Stuck,
}

impl From<AllocError> for Stop {
    ghost use Rattle.std.specs.Prelude.{◌≡◌};
    ghost use Rattle.dj_outside.specs.declared.stop.Stop.TheVariants.{Memory};

    ghost from_gives = { λ error stop. stop ≡ Memory error };

    fn from(error: AllocError) -> Stop {
        Stop::Memory(error)
    }
}
