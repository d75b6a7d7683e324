//! Constants.

ghost use Rattle.std.specs.Prelude.{◌≡◌, IfOk, option_map, codes};
ghost use Rattle.dj_names.specs.Types.{Of, Class, view_static};
ghost use Rattle.dj_rebuilt.specs.Known as known;
ghost use Rattle.dj_pending.specs.Entries.{view_entry};
ghost use Rattle.dj_pending.specs.Stacks.{stacked};
ghost use Rattle.dj_pending.specs.Building.{view_built, as_built};
ghost use Rattle.dj_pending.specs.Spilling.{behind};
ghost use Rattle.dj_pending.specs.Strict.{constant_built, kept_constant};

use crate::built::Built;
use crate::entry::{Atom, Entry};
use crate::numbers::number_type;
use dj_names::{ClassName, Constant, JType, StaticType, Units};
use std::alloc::{AllocError, Global};

/// The class of strings.
fn string_type(alloc: Global) -> Result<StaticType, AllocError>
    ensures string { IfOk result (λ kind. view_static kind ≡ Of (Class (codes "java/lang/String"))) }
{
    let name = Units::from_slice(
        alloc,
        &[
            106, 97, 118, 97, 47, 108, 97, 110, 103, 47, 83, 116, 114, 105, 110, 103,
        ],
    )?;
    Ok(StaticType::Of(JType::Class(ClassName::new(name))))
}

/// A constant as an entry; None for a float or a double.
fn entry_of(alloc: Global, constant: &Constant) -> Result<Option<Entry>, AllocError>
    ensures entry { IfOk result (λ found. option_map view_entry found ≡ kept_constant (known.atom_of_constant constant.now)) }
{
    match constant {
        Constant::Int(number) => {
            let kind = StaticType::Of(number_type(false));
            Ok(Some(Entry::Kept(kind, Atom::Number(*number))))
        }
        Constant::Long(number) => {
            let kind = StaticType::Of(number_type(true));
            Ok(Some(Entry::Kept(kind, Atom::Wide(*number))))
        }
        Constant::Text(units) => {
            let kind = string_type(alloc)?;
            let units = units.copy(alloc)?;
            Ok(Some(Entry::Kept(kind, Atom::Units(units))))
        }
        Constant::Float(_) => Ok(None),
        Constant::Double(_) => Ok(None),
    }
}

impl Built {
    /// Pushes a constant; false for a float or a double.
    pub fn push_constant(&mut self, alloc: Global, constant: &Constant) -> Result<bool, AllocError>
        ensures pushed { IfOk result (λ done. as_built done (view_built self.new)
            ≡ behind (view_built self.old).emitted (constant_built self.old.next (stacked self.old.stack) (known.atom_of_constant constant.now))) }
    {
        let Some(entry) = entry_of(alloc, constant)? else {
            return Ok(false);
        };
        self.push(entry)?;
        Ok(true)
    }
}
