//! Why a body breaks the rules of definite assignment.

use std::alloc::AllocError;
use thiserror::Error;

/// The lowest place at which a variable is read that isn't assigned there, at most 4,294,967,295; or no
/// memory.
#[derive(Debug, Drop, Error)]
pub enum FlowFault {
    #[error("a variable is read at place {0} and not assigned there")]
    Unassigned(u32),
    #[error(transparent)]
    Memory(AllocError),
}

impl From<AllocError> for FlowFault {
    ghost use Rattle.std.specs.Prelude.{◌≡◌};
    ghost use Rattle.dj_assigned.specs.declared.fault.FlowFault.TheVariants.{Memory};

    ghost from_gives = { λ error fault. fault ≡ Memory error };

    fn from(error: AllocError) -> FlowFault {
        FlowFault::Memory(error)
    }
}
