//! The reader of units: exactly the bytes that are the text of a well formed unit are read, as that unit, but for those that nest too deep.

ghost use Rattle.std.specs.Prelude.{◌≡◌, ◌↔◌, IfErr, IfOk, IsTrue, OnOk};
ghost use Rattle.dj_syntax.specs.Trees.{view_unit};
ghost use Rattle.dj_syntax.specs.UnitText.{unit_text};
ghost use Rattle.dj_syntax.specs.WellFormed.{IsWellFormed};
ghost use Rattle.dj_depth.specs.Depth.{IsDeep};
ghost use Rattle.dj_read.specs.Faults.{IsReadUnitFault};

use dj_depth::is_deep;
use dj_parse::parse_unit;
use dj_print::is_text;
use dj_syntax::Unit;
use dj_well_formed::is_well_formed;
use std::alloc::{AllocError, Global};
use thiserror::Error;

/// Why bytes aren't read as a unit.
#[derive(Debug, Drop, Error)]
pub enum ReadUnitFault {
    #[error("the bytes are the text of no unit")]
    Misread,
    #[error("the text nests too deep")]
    Deep,
    #[error(transparent)]
    Memory(AllocError),
}

impl From<AllocError> for ReadUnitFault {
    ghost use Rattle.std.specs.Prelude.{◌≡◌};
    ghost use Rattle.dj_read.specs.declared.read.ReadUnitFault.TheVariants.{Memory};

    ghost from_gives = { λ error fault. fault ≡ Memory error };

    fn from(error: AllocError) -> ReadUnitFault {
        ReadUnitFault::Memory(error)
    }
}

/// The unit whose text the bytes are.
pub fn read_unit(alloc: Global, bytes: &[u8]) -> Result<Unit, ReadUnitFault>
    ensures read { IfOk result (λ unit. IsWellFormed (view_unit unit) × (unit_text (view_unit unit) ≡ bytes.now)) }
    ensures shallow { OnOk result (¬ IsDeep bytes.now) }
    ensures fault { IfErr result (λ fault. IsReadUnitFault bytes.now fault) }
{
    if is_deep(alloc, bytes)? {
        return Err(ReadUnitFault::Deep);
    }
    let unit = parse_unit(alloc, bytes)?;
    if is_spelled(&unit, bytes) {
        Ok(unit)
    } else {
        Err(ReadUnitFault::Misread)
    }
}

/// Whether a unit is well formed, and these bytes are its text.
fn is_spelled(unit: &Unit, bytes: &[u8]) -> bool
    ensures spelled { IsTrue result ↔ (IsWellFormed (view_unit unit.now) × (unit_text (view_unit unit.now) ≡ bytes.now)) }
{
    if !is_well_formed(unit) {
        return false;
    }
    is_text(unit, bytes)
}
