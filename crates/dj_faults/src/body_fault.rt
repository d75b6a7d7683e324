//! Why a body isn't typed.

use dj_places::TypeKind;
use std::alloc::AllocError;
use thiserror::Error;

/// The lowest place at which a rule is broken, at most 4,294,967,295, and the first kind that is
/// broken there; or no memory.
#[derive(Debug, Drop, Error)]
pub enum BodyFault {
    #[error("a rule is broken at place {place}")]
    TypeFault { place: u32, kind: TypeKind },
    #[error(transparent)]
    Memory(AllocError),
}

impl From<AllocError> for BodyFault {
    ghost use Rattle.std.specs.Prelude.{◌≡◌};
    ghost use Rattle.dj_faults.specs.declared.body_fault.BodyFault.TheVariants.{Memory};

    ghost from_gives = { λ error fault. fault ≡ Memory error };

    fn from(error: AllocError) -> BodyFault {
        BodyFault::Memory(error)
    }
}
