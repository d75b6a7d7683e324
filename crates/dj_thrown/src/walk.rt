//! How far a walk over statements has come.

ghost use Rattle.std.specs.Prelude.{◌≡◌, [], ◌∷◌, ◌++◌, IfOk};
ghost use Rattle.std.specs.Option.{option_map};
ghost use Rattle.dj_names.specs.Types.{view_static, view_type};
ghost use Rattle.dj_thrown.specs.Throws.{class_in, class_of, through};
ghost use Rattle.dj_thrown.specs.Walks as spec;

use crate::throwing::{Throwing, add_thrown};
use dj_faults::{Fault, broken, lower};
use dj_names::{ClassName, Items, JType, StaticType};
use dj_places::{TypeKind, plus};
use std::alloc::{AllocError, Global};

/// How far a walk over statements in the order of the text has come.
#[derive(Drop)]
pub struct Walk {
    /// The place of the next statement or expression, at most 4,294,967,295.
    pub place: u32,
    /// The first fault of a catch clause so far.
    pub fault: Option<Fault>,
    /// What is thrown, so far.
    pub thrown: Items<Throwing>,
}

impl Walk {
    /// At the first statement of a body.
    pub fn new(alloc: Global) -> Walk
        ensures opening { result ≡ spec.opening }
    {
        Walk {
            place: 0,
            fault: None,
            thrown: Items::new(alloc),
        }
    }

    /// Goes past one place.
    pub fn step(&mut self)
        ensures stepped { self.new ≡ spec.step self.old }
    {
        self.place = plus(self.place, 1);
    }

    /// Goes past one place, at which classes are thrown.
    pub fn throw_all(&mut self, alloc: Global, classes: &[ClassName]) -> Result<(), AllocError>
        ensures thrown { IfOk result (λ _. self.new ≡ spec.step (spec.throw_all classes.now self.old)) }
    {
        add_thrown(alloc, self.place, classes, &mut self.thrown)?;
        self.step();
        Ok(())
    }

    /// Goes past one place, at which a class is thrown.
    pub fn throw_one(&mut self, class: ClassName) -> Result<(), AllocError>
        ensures thrown { IfOk result (λ _. self.new ≡ spec.step (spec.throw_all (class ∷ []) self.old)) }
    {
        let place = self.place;
        self.thrown.push(Throwing { place, class })?;
        self.step();
        Ok(())
    }

    /// Goes past one place, at which an object of a type is thrown.
    fn throw_object(&mut self, alloc: Global, kind: &JType) -> Result<(), AllocError>
        ensures thrown { IfOk result (λ _. self.new ≡ spec.step (spec.throw_all (class_in (view_type kind.now)) self.old)) }
    {
        match kind {
            JType::Class(class) => {
                let class = class.copy(alloc)?;
                self.throw_one(class)
            }
            JType::Boolean
            | JType::Byte
            | JType::Char
            | JType::Short
            | JType::Int
            | JType::Long
            | JType::Float
            | JType::Double
            | JType::Array(_) => self.throw_all(alloc, &[]),
        }
    }

    /// Goes past one place, at which an expression of a type is thrown.
    pub fn throw_type(&mut self, alloc: Global, kind: &Option<StaticType>) -> Result<(), AllocError>
        ensures thrown { IfOk result (λ _. self.new ≡ spec.step (spec.throw_all (class_of (option_map view_static kind.now)) self.old)) }
    {
        match kind {
            None => self.throw_all(alloc, &[]),
            Some(StaticType::Null) => self.throw_all(alloc, &[]),
            Some(StaticType::Of(kind)) => self.throw_object(alloc, kind),
        }
    }

    /// Adds what the first part of a `finally` throws, where its last part can complete.
    pub fn let_through(
        &mut self,
        completes: bool,
        thrown: Items<Throwing>,
    ) -> Result<(), AllocError>
        ensures added { IfOk result (λ _. self.new ≡ spec.with_thrown (self.old.thrown ++ through completes thrown) self.old) }
    {
        if completes {
            self.thrown.append(thrown)?;
        }
        Ok(())
    }

    /// Looks at a rule on catch clauses, which stand at an earlier place.
    pub fn note(&mut self, place: u32, kept: bool)
        ensures noted { self.new ≡ spec.note place kept self.old }
    {
        self.fault = lower(self.fault, broken(place, TypeKind::Catch, kept));
    }
}
