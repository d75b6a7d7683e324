//! How far a walk over expressions has come.

ghost use Rattle.std.specs.Prelude.{◌≡◌, IfOk};
ghost use Rattle.std.specs.Option.{option_map};
ghost use Rattle.dj_names.specs.Types.{view_static};
ghost use Rattle.dj_checked.specs.Sites.{site_of};
ghost use Rattle.dj_checked.specs.Walks as spec;

use crate::site::Site;
use crate::whole::is_whole_static;
use dj_faults::{Fault, broken, lower};
use dj_names::StaticType;
use dj_places::{TypeKind, plus};
use std::alloc::{AllocError, Global};

/// How far a walk over expressions in the order of the text has come.
#[derive(Clone, Copy)]
pub struct Walk {
    /// The place of the next expression, at most 4,294,967,295.
    pub place: u32,
    /// The first fault so far.
    pub fault: Option<Fault>,
}

impl Walk {
    /// At the first expression.
    pub fn new() -> Walk
        ensures opening { result ≡ spec.opening }
    {
        Walk {
            place: 0,
            fault: None,
        }
    }

    /// Goes past one place, which is answered.
    pub fn step(&mut self) -> u32
        ensures stepped { self.new ≡ spec.step self.old }
        ensures place { result ≡ self.old.place }
    {
        let place = self.place;
        self.place = plus(place, 1);
        place
    }

    /// Looks at a rule on an expression, which stands at an earlier place.
    pub fn note(&mut self, place: u32, kind: TypeKind, kept: bool)
        ensures noted { self.new ≡ spec.note place kind kept self.old }
    {
        self.fault = lower(self.fault, broken(place, kind, kept));
    }

    /// Looks at the rule on an expression's type: the class that it names is whole.
    pub fn note_whole(
        &mut self,
        alloc: Global,
        site: &Site<'_>,
        place: u32,
        found: &Option<StaticType>,
    ) -> Result<(), AllocError>
        ensures noted { IfOk result (λ _. self.new ≡ spec.note_whole (site_of site.now) place (option_map view_static found.now) self.old) }
    {
        let whole = is_whole_static(alloc, site.classes.headers, found)?;
        self.note(place, TypeKind::Name, whole);
        Ok(())
    }
}
