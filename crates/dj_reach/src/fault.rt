//! Why a body breaks the rules of reachability.

use std::alloc::AllocError;
use thiserror::Error;

/// The lowest place at which a rule is broken, at most 4,294,967,295; or no memory.
#[derive(Debug, Drop, Error)]
pub enum ReachFault {
    #[error("a rule of reachability is broken at place {0}")]
    Unreached(u32),
    #[error(transparent)]
    Memory(AllocError),
}

impl From<AllocError> for ReachFault {
    ghost use Rattle.std.specs.Prelude.{◌≡◌};
    ghost use Rattle.dj_reach.specs.declared.fault.ReachFault.TheVariants.{Memory};

    ghost from_gives = { λ error fault. fault ≡ Memory error };

    fn from(error: AllocError) -> ReachFault {
        ReachFault::Memory(error)
    }
}
