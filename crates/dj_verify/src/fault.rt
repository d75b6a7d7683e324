//! Why a method's code isn't verified.

use crate::rule::Rule;
use std::alloc::AllocError;
use thiserror::Error;

/// The least pc up to which no table of frames goes, with the first rule that fails there; or no
/// memory.
#[derive(Debug, Drop, Error)]
pub enum VerifyFault {
    #[error("unverified: {rule:?} at {pc}")]
    Unverified { pc: u32, rule: Rule },
    #[error(transparent)]
    Memory(AllocError),
}

impl From<AllocError> for VerifyFault {
    ghost use Rattle.std.specs.Prelude.{◌≡◌};
    ghost use Rattle.dj_verify.specs.declared.fault.VerifyFault.TheVariants.{Memory};

    ghost from_gives = { λ error fault. fault ≡ Memory error };

    fn from(error: AllocError) -> VerifyFault {
        VerifyFault::Memory(error)
    }
}
