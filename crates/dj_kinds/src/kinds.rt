//! Classes above classes, and which exceptions are checked (JLS 11.1.1).

ghost use Rattle.std.specs.Prelude.{◌≡◌, ◌↔◌, IsTrue, IfOk};
ghost use Rattle.dj_names.specs.Headers.{IsSubclass, Implements};
ghost use Rattle.dj_kinds.specs.Kinds.{IsChecked};

use dj_headers::{Headers, class_of};
use dj_names::ClassName;
use std::alloc::{AllocError, Global};
use std::marker::Model;

/// Headers, and the names of the classes below Throwable whose exceptions no method need declare.
#[derive(Drop)]
pub struct Kinds<'a> {
    headers: &'a Headers,
    runtime: ClassName,
    error: ClassName,
}

impl<'a> Model for Kinds<'a> {
    ghost use Rattle.std.specs.Prelude.{◌≡◌, List, codes};
    ghost use Rattle.dj_names.specs.declared.header.Header.{Header};

    ghost Value = { List Header };

    ghost view = { λ k. k.headers.now };

    ghost invariant = { λ k. (k.runtime ≡ codes "java/lang/RuntimeException") × (k.error ≡ codes "java/lang/Error") };
}

impl<'a> Kinds<'a> {
    /// What these headers say. The tables are those of the headers; memory is taken for two names.
    pub fn new(alloc: Global, headers: &'a Headers) -> Result<Kinds<'a>, AllocError>
        ensures headers { IfOk result (λ kinds. kinds ≡ headers.now) }
    {
        let runtime = class_of(alloc, "java/lang/RuntimeException")?;
        let error = class_of(alloc, "java/lang/Error")?;
        Ok(Kinds {
            headers,
            runtime,
            error,
        })
    }

    /// Whether `upper` is `lower`, or is reached from it by superclasses.
    pub fn subclass(&self, lower: &ClassName, upper: &ClassName) -> bool
        ensures subclass { IsTrue result ↔ IsSubclass self.now lower.now upper.now }
    {
        self.headers.is_subclass(lower, upper)
    }

    /// Whether `interface` is `class`, or is reached from it by superclasses and interfaces.
    pub fn implements(&self, class: &ClassName, interface: &ClassName) -> bool
        ensures implements { IsTrue result ↔ Implements self.now class.now interface.now }
    {
        self.headers.implements(class, interface)
    }

    /// Whether a method that throws the class must catch or declare it.
    pub fn checked(&self, class: &ClassName) -> bool
        ensures checked { IsTrue result ↔ IsChecked self.now class.now }
    {
        self.headers.is_throwable(class)
            && !self.headers.is_subclass(class, &self.runtime)
            && !self.headers.is_subclass(class, &self.error)
    }
}
