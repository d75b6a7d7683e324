//! A walk up the classes that have no field of a name themselves (JLS 8.3).

ghost use Rattle.std.specs.Prelude.{◌≡◌, OnOk, IfOk, IfSome, MatchOption, None, [], false, replicate, ◌==◌};
ghost use Rattle.std.specs.List.{list_all};
ghost use Rattle.dj_meaning.specs.Fields.{sole};
ghost use Rattle.std.specs.Option.{option_map};
ghost use Rattle.dj_names.specs.Headers.{HasDistinctNames};
ghost use Rattle.dj_values.specs.Deciding.{parents_of};
ghost use Rattle.dj_static.specs.Walks.{own_at, meet, meet_named, meet_all, look, only, IsFieldAt, IsSole, owners_of};

use crate::classes::{Classes, header_at, place_of};
use crate::marks::Marks;
use crate::visible::is_inherited;
use dj_headers::Headers;
use dj_members::{Picker, first_named};
use dj_names::{ClassName, Field, Header, Items, Member, Units};
use std::alloc::{AllocError, Global};

/// Every place.
#[derive(Clone, Copy)]
struct Each;

impl Picker for Each {
    ghost use Rattle.std.specs.Prelude.{⊤};

    ghost picks = { λ p at. ⊤ };

    fn picks(&self, _at: usize) -> bool {
        true
    }
}

/// A field, and which member it is.
#[derive(Clone, Copy)]
pub struct OwnField<'a> {
    pub member: Member,
    pub field: &'a Field,
}

/// The first field of a name that the class at a place declares.
pub fn own_field<'a>(classes: &Classes<'a>, place: usize, name: &Units) -> Option<OwnField<'a>>
    ensures own { option_map (λ found. found.field.now) result ≡ own_at classes.now.members.now name.now place }
    ensures member { IfSome result (λ found. IsFieldAt classes.now.members.now found.member found.field.now) }
    ensures class { IfSome result (λ found. found.member.class ≡ place) }
{
    let Some(declared) = classes.members.at(place) else {
        return None;
    };
    let fields = &classes.members.names_at(place).fields;
    match first_named(fields, name, &Each) {
        None => None,
        Some(number) => match declared.fields.get(number) {
            None => None,
            Some(field) => {
                let member = Member {
                    class: place as u32,
                    method: false,
                    number: number as u32,
                };
                Some(OwnField { member, field })
            }
        },
    }
}

/// Which places of headers were met, where it is still to be looked, and where a field was found.
#[derive(Drop)]
struct Walk {
    met: Marks,
    waiting: Items<usize>,
    owners: Items<usize>,
}

impl Walk {
    /// Nothing is met of so many places.
    fn new(alloc: Global, count: usize) -> Walk
        ensures met { result.met ≡ replicate count false }
        ensures waiting { result.waiting ≡ [] }
        ensures owners { result.owners ≡ [] }
    {
        Walk {
            met: Marks::none(alloc, count),
            waiting: Items::new(alloc),
            owners: Items::new(alloc),
        }
    }

    /// Meets a place, if it is there and wasn't met before.
    fn meet(&mut self, place: usize) -> Result<(), AllocError>
        ensures ok { OnOk result (self.new ≡ meet place self.old) }
    {
        match self.met.get(place) {
            None => Ok(()),
            Some(met) => {
                if met {
                    return Ok(());
                }
                self.waiting.push(place)?;
                self.met.mark(place)?;
                Ok(())
            }
        }
    }

    /// Meets the place of a class, if there is one.
    fn meet_named(&mut self, headers: &Headers, class: &ClassName) -> Result<(), AllocError>
        ensures ok { OnOk result (self.new ≡ meet_named headers.now class.now self.old) }
    {
        match place_of(headers, class) {
            None => Ok(()),
            Some(place) => self.meet(place),
        }
    }

    /// Meets the places of interfaces.
    fn meet_all(&mut self, headers: &Headers, classes: &[ClassName]) -> Result<(), AllocError>
        ensures ok { OnOk result (self.new ≡ meet_all headers.now classes.now self.old) }
    {
        for class in classes {
            self.meet_named(headers, class)?;
        }
        Ok(())
    }

    /// Meets the places of the classes right above one.
    fn meet_parents(&mut self, headers: &Headers, header: &Header) -> Result<(), AllocError>
        ensures ok { OnOk result (self.new ≡ meet_all headers.now (parents_of header.now) self.old) }
    {
        match &header.superclass {
            None => self.meet_all(headers, header.interfaces.as_slice()),
            Some(superclass) => {
                self.meet_named(headers, superclass)?;
                self.meet_all(headers, header.interfaces.as_slice())
            }
        }
    }

    /// Looks at a place for a class in which a name stands.
    fn look(
        &mut self,
        classes: &Classes<'_>,
        class: &ClassName,
        name: &Units,
        place: usize,
    ) -> Result<(), AllocError>
        ensures ok { OnOk result (self.new ≡ look classes.now.headers.now classes.now.members.now class.now name.now place self.old) }
    {
        let Some(header) = header_at(classes.headers, place) else {
            return Ok(());
        };
        match own_field(classes, place, name) {
            None => self.meet_parents(classes.headers, header),
            Some(own) => {
                if is_inherited(classes.headers, class, &header.name, own.field.flags) {
                    self.owners.push(place)?;
                }
                Ok(())
            }
        }
    }
}

/// Whether places are all this one.
fn are_all(places: &[usize], wanted: usize) -> bool
    ensures all { result ≡ list_all (λ place. place == wanted) places.now }
{
    places.iter().all(|place| *place == wanted)
}

/// The only place among these.
fn only(places: &[usize]) -> Option<usize>
    ensures only { result ≡ only places.now }
{
    match places {
        [] => None,
        [first, rest @ ..] => {
            if are_all(rest, *first) {
                Some(*first)
            } else {
                None
            }
        }
    }
}

/// The place of the only class whose field a name may mean in a class. Each class above it is looked at
/// once.
pub fn sole_owner(
    alloc: Global,
    classes: &Classes<'_>,
    class: &ClassName,
    name: &Units,
) -> Result<Option<usize>, AllocError>
    ensures distinct { HasDistinctNames classes.now.headers.now }
    ensures owner { IfOk result (λ owner. MatchOption owner (sole (owners_of classes.now.headers.now classes.now.members.now class.now name.now) ≡ None)
        (IsSole classes.now.headers.now (sole (owners_of classes.now.headers.now classes.now.members.now class.now name.now)))) }
{
    let mut walk = Walk::new(alloc, classes.headers.as_slice().len());
    walk.meet_named(classes.headers, class)?;
    while let Some(place) = walk.waiting.pop() {
        walk.look(classes, class, name, place)?;
    }
    Ok(only(walk.owners.as_slice()))
}
