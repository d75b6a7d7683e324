//! Why a method's code isn't read.

use dj_instructions::BadKind;
use std::alloc::AllocError;
use thiserror::Error;

/// Code with a fault at a pc; or no memory.
#[derive(Debug, Drop, Error)]
pub enum CodeFault {
    #[error("bad code: {kind:?} at {pc}")]
    BadCode { pc: u32, kind: BadKind },
    #[error(transparent)]
    Memory(AllocError),
}

impl From<AllocError> for CodeFault {
    ghost use Rattle.std.specs.Prelude.{◌≡◌};
    ghost use Rattle.dj_code.specs.declared.fault.CodeFault.TheVariants.{Memory};

    ghost from_gives = { λ error fault. fault ≡ Memory error };

    fn from(error: AllocError) -> CodeFault {
        CodeFault::Memory(error)
    }
}
