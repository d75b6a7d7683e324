//! Why units or bytes are no name.

ghost use Rattle.std.specs.Prelude.{◌≡◌};
ghost use Rattle.dj_names.specs.Faults as faults;

use std::alloc::{AllocError, AllocFailed};
use thiserror::Error;

/// Units that spell no descriptor, or bytes that spell no units, with the place; or no memory.
#[derive(Debug, Drop, Error)]
pub enum NameFault {
    #[error("no descriptor begins with more than {0} of these units")]
    BadDescriptor(u32),
    #[error("no unit is spelled at byte {0}")]
    BadUnits(u32),
    #[error(transparent)]
    Memory(AllocError),
}

impl From<AllocError> for NameFault {
    ghost use Rattle.std.specs.Prelude.{◌≡◌};
    ghost use Rattle.dj_names.specs.declared.fault.NameFault.TheVariants.{Memory};

    ghost from_gives = { λ error fault. fault ≡ Memory error };

    fn from(error: AllocError) -> NameFault {
        NameFault::Memory(error)
    }
}

impl<T: Drop> From<AllocFailed<T>> for NameFault {
    ghost use Rattle.std.specs.Prelude.{◌≡◌, alloc_error};
    ghost use Rattle.dj_names.specs.declared.fault.NameFault.TheVariants.{Memory};

    ghost from_gives = { λ _ fault. fault ≡ Memory alloc_error };

    fn from(_failed: AllocFailed<T>) -> NameFault {
        NameFault::Memory(AllocError)
    }
}

/// A place as a fault gives it.
pub fn place(at: usize) -> u32
    ensures place { result ≡ faults.place at }
{
    u32::try_from(at).unwrap_or(u32::MAX)
}
