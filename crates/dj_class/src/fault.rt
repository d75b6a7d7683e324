//! Why bytes are no class file.

ghost use Rattle.std.specs.Prelude.{◌≡◌};
ghost use Rattle.dj_class.specs.FaultOf.{IsFaultOf, shown_place};

use dj_layout::Stop;
use dj_pool::BrokenKind;
use std::alloc::AllocError;
use thiserror::Error;

/// Bytes that are no class file, with the offset of the first fault; or no memory.
#[derive(Debug, Drop, Error)]
pub enum ClassFault {
    #[error("no class file: {kind:?} at byte {offset}")]
    Broken { kind: BrokenKind, offset: u32 },
    #[error(transparent)]
    Memory(AllocError),
}

impl From<AllocError> for ClassFault {
    ghost use Rattle.std.specs.Prelude.{◌≡◌};
    ghost use Rattle.dj_class.specs.declared.fault.ClassFault.TheVariants.{Memory};

    ghost from_gives = { λ error fault. fault ≡ Memory error };

    fn from(error: AllocError) -> ClassFault {
        ClassFault::Memory(error)
    }
}

/// An offset as a fault gives it.
fn place(at: usize) -> u32
    ensures place { result ≡ shown_place at }
{
    u32::try_from(at).unwrap_or(u32::MAX)
}

/// Why a class file isn't read, where its reader stopped.
pub fn fault_of(why: Stop<BrokenKind>) -> ClassFault
    ensures fault { IsFaultOf why result }
{
    match why {
        Stop::Memory => ClassFault::Memory(AllocError),
        Stop::Fault(fault) => ClassFault::Broken {
            kind: fault.kind,
            offset: place(fault.offset),
        },
    }
}
