//! The methods of ints that stand before another in their class, by number of parameters and name.

ghost use Rattle.std.specs.Prelude.{◌≡◌, List, [], ◌∷◌, ◌++◌, MatchBool, IfOk, IfSome, OnOk, replicate};
ghost use Rattle.dj_names.specs.Types.{Int, parameters_of, view_descriptor};
ghost use Rattle.dj_class.specs.Described.{MethodOf};
ghost use Rattle.dj_class.specs.Views.{view_method};

use crate::ints::ints_taken;
use dj_class::Method;
use dj_names::Units;
use std::alloc::{AllocError, Global};
use std::collections::BTreeSet;

/// The methods so far that take ints alone.
#[derive(Drop)]
pub struct Declared<'a> {
    /// The number of ints that each takes, and its name.
    entries: BTreeSet<(usize, &'a [u16])>,
}

impl<'a> Declared<'a> {
    ghost use Rattle.dj_straight.specs.DeclaredMethods.{Holds, IsAdmitted};
    ghost use Rattle.dj_straight.specs.StraightMethod.{HasSignature, IsDeclared};

    /// No method.
    pub fn new(alloc: Global) -> Declared<'a>
        ensures none { Holds result [] }
    {
        Declared {
            entries: BTreeSet::new(alloc),
        }
    }

    /// Adds a method of so many ints and this name; whether it is the first.
    fn add(&mut self, ints: usize, name: &'a Units) -> Result<bool, AllocError>
        ensures first { IfOk result (λ first. (before : List MethodOf) → Holds self.old before → MatchBool first (¬ IsDeclared before name.now (replicate ints Int)) (IsDeclared before name.now (replicate ints Int))) }
        ensures added { OnOk result ((before : List MethodOf) (method : MethodOf) → Holds self.old before → HasSignature name.now (replicate ints Int) method → Holds self.new (before ++ method ∷ [])) }
    {
        Ok(self.entries.insert((ints, name.as_slice()))?)
    }

    /// Adds a method. How many ints it takes, where it takes nothing else and is the first with its name that takes as many.
    pub fn admit(&mut self, method: &'a Method) -> Result<Option<usize>, AllocError>
        ensures ints { IfOk result (λ ints. IfSome ints (λ ints. parameters_of (view_descriptor method.now.descriptor) ≡ replicate ints Int)) }
        ensures admitted { IfOk result (λ ints. (before : List MethodOf) → Holds self.old before → IsAdmitted before (view_method method.now) ints) }
        ensures added { OnOk result ((before : List MethodOf) → Holds self.old before → Holds self.new (before ++ view_method method.now ∷ [])) }
    {
        let Some(ints) = ints_taken(&method.descriptor) else {
            return Ok(None);
        };
        if self.add(ints, &method.name)? {
            Ok(Some(ints))
        } else {
            Ok(None)
        }
    }
}
