//! Names that were read, of which those that come again soon are kept once.

ghost use Rattle.std.specs.Prelude.{◌≡◌, [], IfOk, IfSome, IsTrue};

use crate::names::units_of;
use dj_names::{Items, Units};
use std::alloc::{AllocError, Global};

/// How many names are kept.
const MOST: usize = 16;

/// The room that a name of several words is given at first.
const ROOM: usize = 32;

/// The most units of a name whose room is used again.
const LONGEST: usize = 64;

/// The last few names that were read, and the room that one of them took and no longer takes.
#[derive(Drop)]
pub struct KnownNames {
    names: Items<Units>,
    next: usize,
    room: Option<Vec<u16>>,
}

impl KnownNames {
    /// No names.
    pub fn new(alloc: Global) -> KnownNames {
        KnownNames {
            names: Items::new(alloc),
            next: 0,
            room: None,
        }
    }

    /// Room for a name of several words, which has none yet.
    pub fn room(&mut self, alloc: Global) -> Result<Vec<u16>, AllocError>
        ensures empty { IfOk result (λ room. room.items ≡ []) }
    {
        match self.room.take() {
            Some(mut room) => {
                room.clear();
                Ok(room)
            }
            None => Ok(Vec::with_capacity(alloc, ROOM)?),
        }
    }

    /// The units of a word. They take room where the word isn't among the last names.
    pub fn word(&mut self, alloc: Global, word: &[u8]) -> Result<Units, AllocError>
        ensures units { IfOk result (λ units. units ≡ word.now) }
    {
        if let Some(units) = spelled(alloc, self.names.as_slice(), word)? {
            return Ok(units);
        }
        let units = units_of(alloc, word)?;
        self.keep(units.copy(alloc)?)?;
        Ok(units)
    }

    /// The units of a name. They take no room of their own where the name is among the last ones; the
    /// next name is then given the room of this one, unless that is a long one's.
    pub fn shared(&mut self, alloc: Global, name: Vec<u16>) -> Result<Units, AllocError>
        ensures same { IfOk result (λ shared. shared ≡ name.items) }
    {
        if let Some(units) = equal(alloc, self.names.as_slice(), name.as_slice())? {
            if name.len() <= LONGEST {
                self.room = Some(name);
            }
            return Ok(units);
        }
        let units = Units::from_vec(name)?;
        self.keep(units.copy(alloc)?)?;
        Ok(units)
    }

    /// Keeps a name, where there are many in the place of the one that is kept longest.
    fn keep(&mut self, name: Units) -> Result<(), AllocError> {
        let place = self.next % MOST;
        if place < self.names.len() {
            self.names.set(place, name);
        } else {
            self.names.push(name)?;
        }
        self.next = place + 1;
        Ok(())
    }
}

/// The one of the names that a word spells.
fn spelled(alloc: Global, names: &[Units], word: &[u8]) -> Result<Option<Units>, AllocError>
    ensures same { IfOk result (λ found. IfSome found (λ units. units ≡ word.now)) }
{
    for name in names {
        if spells(word, name.as_slice()) {
            return Ok(Some(name.copy(alloc)?));
        }
    }
    Ok(None)
}

/// The one of the names that is equal to another.
fn equal(alloc: Global, names: &[Units], other: &[u16]) -> Result<Option<Units>, AllocError>
    ensures same { IfOk result (λ found. IfSome found (λ units. units ≡ other.now)) }
{
    for name in names {
        if is_equal(name.as_slice(), other) {
            return Ok(Some(name.copy(alloc)?));
        }
    }
    Ok(None)
}

/// Whether units are equal. Their numbers are compared first, since most names differ there.
fn is_equal(units: &[u16], other: &[u16]) -> bool
    ensures equal { IsTrue result → units.now ≡ other.now }
{
    units.len() == other.len() && units == other
}

/// Whether a word has these units.
fn spells(word: &[u8], units: &[u16]) -> bool
    ensures units { IsTrue result → units.now ≡ word.now }
{
    units.len() == word.len()
        && units
            .iter()
            .zip(word)
            .all(|(unit, byte)| *unit == u16::from(*byte))
}
