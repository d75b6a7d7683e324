//! How far a walk over a body has come.

ghost use Rattle.std.specs.Prelude.{◌≡◌, IfOk};
ghost use Rattle.dj_conditions.specs.Walks as spec;

use dj_names::Items;
use dj_places::{is_always, lower, plus};
use dj_syntax::Var;
use dj_variables::{is_among, removed, union};
use std::alloc::{AllocError, Global};
use std::mem;

/// How far a walk over a body in the order of its text has come.
#[derive(Drop)]
pub struct Walk {
    /// The place of the next statement or expression, at most 4,294,967,295.
    pub place: u32,
    /// The lowest place so far at which a variable is read that isn't assigned.
    pub fault: Option<u32>,
    /// The variables that are declared and not assigned, in a rising order.
    pub unassigned: Items<Var>,
}

impl Walk {
    /// At the first statement of a body.
    pub fn new(alloc: Global) -> Walk
        ensures opening { result ≡ spec.opening }
    {
        Walk {
            place: 0,
            fault: None,
            unassigned: Items::new(alloc),
        }
    }

    /// Goes past so many places.
    pub fn skip(&mut self, places: u32)
        ensures skipped { self.new ≡ spec.skip places self.old }
    {
        self.place = plus(self.place, places);
    }

    /// Goes past one place.
    pub fn step(&mut self)
        ensures stepped { self.new ≡ spec.step self.old }
    {
        self.place = plus(self.place, 1);
    }

    /// Looks at a variable that is read at the place.
    pub fn read(&mut self, variable: Var)
        ensures read { self.new ≡ spec.read variable self.old }
    {
        if is_among(variable, self.unassigned.as_slice()) {
            self.fault = lower(self.fault, Some(self.place));
        }
    }

    /// A variable is assigned from here on.
    pub fn write(&mut self, alloc: Global, variable: Var) -> Result<(), AllocError>
        ensures written { IfOk result (λ _. self.new ≡ spec.write variable self.old) }
    {
        self.unassigned = removed(alloc, variable, self.unassigned.as_slice())?;
        Ok(())
    }

    /// A variable is declared here.
    pub fn forget(&mut self, alloc: Global, variable: Var) -> Result<(), AllocError>
        ensures forgotten { IfOk result (λ _. self.new ≡ spec.forget variable self.old) }
    {
        self.unassigned = union(alloc, self.unassigned.as_slice(), &[variable])?;
        Ok(())
    }

    /// Another way comes in, on which these variables aren't assigned.
    pub fn meet_with(&mut self, alloc: Global, unassigned: &[Var]) -> Result<(), AllocError>
        ensures met { IfOk result (λ _. self.new ≡ spec.meet_with unassigned.now self.old) }
    {
        self.unassigned = union(alloc, self.unassigned.as_slice(), unassigned)?;
        Ok(())
    }

    /// A copy of the variables that aren't assigned.
    pub fn copied(&self, alloc: Global) -> Result<Items<Var>, AllocError>
        ensures copied { IfOk result (λ copy. copy ≡ self.now.unassigned) }
    {
        Items::from_slice(alloc, self.unassigned.as_slice())
    }

    /// What isn't assigned where a condition is false, given its answer where it is constant; the walk
    /// goes on where it is true.
    pub fn sides(&mut self, alloc: Global, known: Option<bool>) -> Result<Items<Var>, AllocError>
        ensures sides { IfOk result (λ otherwise. spec.sides known self.old ≡ record { walk = self.new; otherwise = otherwise }) }
    {
        if is_always(true, known) {
            return Ok(Items::new(alloc));
        }
        if is_always(false, known) {
            return Ok(mem::replace(&mut self.unassigned, Items::new(alloc)));
        }
        self.copied(alloc)
    }
}
