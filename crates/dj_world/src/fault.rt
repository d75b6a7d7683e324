//! Why a class can't be added.

use std::alloc::AllocError;
use thiserror::Error;

/// What may stand against a class, in the order in which it is answered.
#[derive(Clone, Copy, Debug, PartialEq, Eq)]
pub enum ClashKind {
    /// A class of its name is there.
    Twice,
    /// Superclasses and interfaces would run in a circle.
    Cycle,
    /// A class would have a final superclass.
    SuperIsFinal,
    /// A superclass would be an interface, or a listed interface a class.
    SuperKind,
}

/// A class that clashes with those that are there; or no memory.
#[derive(Debug, Drop, Error)]
pub enum AddFault {
    #[error("the class clashes with others: {0:?}")]
    Clash(ClashKind),
    #[error(transparent)]
    Memory(AllocError),
}

impl From<AllocError> for AddFault {
    ghost use Rattle.std.specs.Prelude.{◌≡◌};
    ghost use Rattle.dj_world.specs.declared.fault.AddFault.TheVariants.{Memory};

    ghost from_gives = { λ error fault. fault ≡ Memory error };

    fn from(error: AllocError) -> AddFault {
        AddFault::Memory(error)
    }
}
