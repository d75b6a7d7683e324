//! Places that are marked, in memory that grows with these and not with all places.

ghost use Rattle.std.specs.Prelude.{◌≡◌, ◌||◌, ◌==◌, ℕ, true, false, replicate, slice_get, slice_set, OnOk};
ghost use Rattle.std.specs.BTreeSet.{contains};
ghost use Rattle.std.specs.Ordering.{nat_cmp};

use std::alloc::{AllocError, Global};
use std::collections::BTreeSet;
use std::marker::Model;

/// A mark for each of so many places.
#[derive(Drop)]
pub struct Marks {
    count: usize,
    places: BTreeSet<usize>,
}

impl Model for Marks {
    ghost use Rattle.std.specs.Prelude.{List, Bool};
    ghost use Rattle.std.specs.BTreeSet.{contains};
    ghost use Rattle.std.specs.Ordering.{nat_cmp};
    ghost use Rattle.dj_static.specs.Marking.{marks_from};

    ghost Value = { List Bool };

    ghost view = { λ m. marks_from (contains nat_cmp m.places) 0 m.count };
}

/// No places.
fn no_places(alloc: Global) -> BTreeSet<usize>
    ensures none { (place : ℕ) → contains nat_cmp result place ≡ false }
{
    BTreeSet::new(alloc)
}

/// Adds a place.
fn add(places: &mut BTreeSet<usize>, place: usize) -> Result<(), AllocError>
    ensures added { OnOk result ((other : ℕ) → contains nat_cmp places.new other ≡ (place == other || contains nat_cmp places.old other)) }
{
    places.insert(place)?;
    Ok(())
}

impl Marks {
    /// Nothing is marked of so many places.
    pub fn none(alloc: Global, count: usize) -> Marks
        ensures none { result ≡ replicate count false }
    {
        Marks {
            count,
            places: no_places(alloc),
        }
    }

    /// Whether a place is marked, if it is there.
    pub fn get(&self, place: usize) -> Option<bool>
        ensures mark { result ≡ slice_get self.now place }
    {
        if place < self.count {
            Some(self.places.contains(&place))
        } else {
            None
        }
    }

    /// Marks a place.
    pub fn mark(&mut self, place: usize) -> Result<(), AllocError>
        ensures marked { OnOk result (self.new ≡ slice_set self.old place true) }
    {
        add(&mut self.places, place)?;
        Ok(())
    }
}
