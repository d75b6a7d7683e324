//! A name as the machine keeps it: a list of 16-bit units (JVMS 4.4.7).

ghost use Rattle.std.specs.Prelude.{◌≡◌, IfOk};

use std::alloc::{AllocError, Global};
use std::marker::Model;
use std::rc::RcSlice;

/// A list of 16-bit units, as `Utf8` entries of a class file spell them, kept once for all copies.
#[derive(Drop)]
pub struct Units {
    units: RcSlice<u16>,
}

impl Model for Units {
    ghost use Rattle.std.specs.Prelude.{List, ℕ};
    ghost use Rattle.std.specs.Rc.{rc_slice_items};

    ghost Value = { List ℕ };

    ghost view = { λ u. rc_slice_items u.units };
}

impl Units {
    /// The units of a list.
    pub fn from_vec(units: Vec<u16>) -> Result<Units, AllocError>
        ensures units { IfOk result (λ made. made ≡ units.items) }
    {
        Ok(Units {
            units: RcSlice::from_vec(units)?,
        })
    }

    /// The units of a slice, copied.
    pub fn from_slice(alloc: Global, units: &[u16]) -> Result<Units, AllocError>
        ensures units { IfOk result (λ made. made ≡ units.now) }
    {
        Units::from_vec(Vec::from_slice(alloc, units)?)
    }

    pub fn as_slice(&self) -> &[u16]
        ensures units { result.now ≡ self.now }
    {
        self.units.as_slice()
    }

    /// An equal name, which shares its units with this one and takes no room of its own.
    pub fn copy(&self, _alloc: Global) -> Result<Units, AllocError>
        ensures equal { IfOk result (λ copy. copy ≡ self.now) }
    {
        Ok(Units {
            units: self.units.clone()?,
        })
    }
}
