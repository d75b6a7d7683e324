//! Headers of classes, and what stands above what among them.

ghost use Rattle.std.specs.Prelude.{◌≡◌, ◌↔◌, ◌<◌, [], ◌∷◌, ◌++◌, Some, IsTrue, IfOk, IfSome, IfNone, OnOk, OnErr, MatchOption, Contains, slice_get, length, codes};
ghost use Rattle.dj_names.specs.Headers.{names, HasDistinctNames, IsInterface, IsSubclass, Implements};
ghost use Rattle.dj_names.specs.Assignable.{object_name};
ghost use Rattle.dj_headers.specs.Table.{HasPlaces};

use crate::places::{Places, no_places, place, put};
use crate::table::has_above;
use crate::tables::Tables;
use dj_names::{ClassName, Header, Items, is_word};
use std::alloc::{AllocError, Global};
use std::marker::Model;

/// Headers in order, no two of one class, with tables of what stands above what.
#[derive(Drop)]
pub struct Headers {
    headers: Items<Header>,
    heads: Places,
    tables: Tables,
}

impl Model for Headers {
    ghost use Rattle.std.specs.Prelude.{List};
    ghost use Rattle.dj_names.specs.declared.header.Header.{Header};

    ghost Value = { List Header };

    ghost use Rattle.dj_headers.specs.Table.{KeepsTables};

    ghost view = { λ h. h.headers };

    ghost invariant = { λ h. KeepsTables h.headers h.heads h.tables.places h.tables.above.items h.tables.lines.items h.tables.roots };
}

impl Headers {
    /// No headers.
    pub fn new(alloc: Global) -> Headers
        ensures empty { result ≡ [] }
    {
        Headers {
            headers: Items::new(alloc),
            heads: no_places(alloc),
            tables: Tables::new(alloc),
        }
    }

    /// The headers in the order in which they were added.
    pub fn as_slice(&self) -> &[Header]
        ensures headers { result.now ≡ self.now }
        ensures distinct { HasDistinctNames self.now }
    {
        self.headers.as_slice()
    }

    /// Adds the header of a class that has none yet. All memory is taken before what the headers say
    /// changes.
    pub fn push(&mut self, header: Header) -> Result<(), AllocError>
        requires { ¬ Contains (names self.old) header.name }
        ensures ok { OnOk result (self.new ≡ self.old ++ header ∷ []) }
        ensures kept { OnErr result (self.new ≡ self.old) }
    {
        let addition = self.tables.prepare(&header)?;
        let name = header.name.copy(self.tables.alloc)?;
        put(&mut self.heads, name, self.headers.len())?;
        self.headers.push(header)?;
        self.tables.add(addition);
        Ok(())
    }

    /// Equal headers, added one after another.
    pub fn copy(&self, alloc: Global) -> Result<Headers, AllocError>
        ensures equal { IfOk result (λ copy. copy ≡ self.now) }
    {
        let mut headers = Headers::new(alloc);
        for header in self.headers.as_slice() {
            headers.push(header.copy(alloc)?)?;
        }
        Ok(headers)
    }

    /// The place of a class's header, if it has one.
    pub fn place(&self, class: &ClassName) -> Option<usize>
        ensures place { MatchOption result (¬ Contains (names self.now) class.now) (λ at. slice_get (names self.now) at ≡ Some class.now) }
    {
        listed_at(self.headers.as_slice(), &self.heads, class)
    }

    /// Whether `upper` is `lower`, or is reached from it by superclasses.
    pub fn is_subclass(&self, lower: &ClassName, upper: &ClassName) -> bool
        ensures subclass { IsTrue result ↔ IsSubclass self.now lower.now upper.now }
    {
        has_above(
            &self.tables.places,
            self.tables.lines.as_slice(),
            lower,
            upper,
        )
    }

    /// Whether `upper` is `lower`, or is reached from it by superclasses and interfaces.
    pub fn implements(&self, lower: &ClassName, upper: &ClassName) -> bool
        ensures implements { IsTrue result ↔ Implements self.now lower.now upper.now }
    {
        has_above(
            &self.tables.places,
            self.tables.above.as_slice(),
            lower,
            upper,
        )
    }

    /// Whether the class is java/lang/Throwable, or reaches it by superclasses.
    pub fn is_throwable(&self, class: &ClassName) -> bool
        ensures throwable { IsTrue result ↔ IsSubclass self.now class.now (codes "java/lang/Throwable") }
    {
        match &self.tables.roots {
            Some(roots) => self.is_subclass(class, &roots.throwable),
            None => is_word(class.as_slice(), "java/lang/Throwable"),
        }
    }

    /// Whether the class is java/lang/Object, or reaches it by superclasses and interfaces.
    pub fn is_object(&self, class: &ClassName) -> bool
        ensures object { IsTrue result ↔ Implements self.now class.now object_name }
    {
        match &self.tables.roots {
            Some(roots) => self.implements(class, &roots.object),
            None => is_word(class.as_slice(), "java/lang/Object"),
        }
    }

    /// The name of java/lang/Object, once there is a header.
    pub fn object(&self) -> Option<&ClassName>
        ensures object { IfSome result (λ name. name.now ≡ object_name) }
        ensures none { IfNone result (self.now ≡ []) }
    {
        match &self.tables.roots {
            Some(roots) => Some(&roots.object),
            None => None,
        }
    }

    /// Whether the class has a header, and is an interface by it.
    pub fn is_interface(&self, class: &ClassName) -> bool
        ensures interface { IsTrue result ↔ IsInterface self.now class.now }
    {
        match listed_at(self.headers.as_slice(), &self.heads, class) {
            Some(at) => self.headers.as_slice()[at].flags & 0x0200 != 0,
            None => false,
        }
    }
}

/// The place of the header of this class. A place that is kept may be that of a header that was
/// never added, so the name there is looked at.
fn listed_at(headers: &[Header], heads: &Places, class: &ClassName) -> Option<usize>
    requires places { HasPlaces headers.now heads.now }
    ensures place { MatchOption result (¬ Contains (names headers.now) class.now) (λ at. slice_get (names headers.now) at ≡ Some class.now) }
    ensures within { IfSome result (λ at. at < length headers.now) }
{
    match place(heads, class) {
        Some(at) => {
            if at < headers.len() && headers[at].name == *class {
                Some(at)
            } else {
                None
            }
        }
        None => None,
    }
}
