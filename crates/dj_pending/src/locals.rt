//! Loads and `iinc`: locals as atoms, and statements that write one.

ghost use Rattle.std.specs.Prelude.{◌≡◌, ℕ, IfOk, option_map};
ghost use Rattle.std.specs.Option.{option_copied};
ghost use Rattle.dj_names.specs.Types.{view_type, view_static};
ghost use Rattle.dj_rebuilt.specs.Locals as locals;
ghost use Rattle.dj_rebuilt.specs.Rebuilding as spec;
ghost use Rattle.dj_pending.specs.Trees.{view_tree};
ghost use Rattle.dj_pending.specs.Entries.{view_atom};
ghost use Rattle.dj_pending.specs.Stacks.{stacked};
ghost use Rattle.dj_pending.specs.Building.{view_built, as_built};
ghost use Rattle.dj_pending.specs.Spilling.{behind};
ghost use Rattle.dj_pending.specs.Steps.{view_local, view_target, loaded, counted_to, counted_built};

use crate::built::Built;
use crate::entry::{Atom, Entry};
use crate::tree::Tree;
use dj_instructions::Kind;
use dj_names::{JType, StaticType};
use dj_syntax::{Op, Stm, Var};
use std::alloc::{AllocError, Global};

/// What a slot is: an atom of a type.
#[derive(Drop)]
pub struct Local {
    pub kind: JType,
    pub atom: Atom,
}

/// The variable that an instruction writes, with its type.
#[derive(Drop)]
pub struct Target {
    pub variable: Var,
    pub kind: JType,
}

/// Whether a type is int.
pub fn takes_ints(kind: &JType) -> bool
    ensures takes { result ≡ spec.takes_ints (view_type kind.now) }
{
    match kind {
        JType::Int => true,
        JType::Boolean
        | JType::Byte
        | JType::Char
        | JType::Short
        | JType::Long
        | JType::Float
        | JType::Double
        | JType::Class(_)
        | JType::Array(_) => false,
    }
}

/// Whether a type is long.
fn takes_longs(kind: &JType) -> bool
    ensures takes { result ≡ spec.takes_longs (view_type kind.now) }
{
    match kind {
        JType::Long => true,
        JType::Boolean
        | JType::Byte
        | JType::Char
        | JType::Short
        | JType::Int
        | JType::Float
        | JType::Double
        | JType::Class(_)
        | JType::Array(_) => false,
    }
}

/// Whether a type is that of a class or an array.
fn takes_objects(kind: &JType) -> bool
    ensures takes { result ≡ spec.takes_objects (view_type kind.now) }
{
    match kind {
        JType::Class(_) | JType::Array(_) => true,
        JType::Boolean
        | JType::Byte
        | JType::Char
        | JType::Short
        | JType::Int
        | JType::Long
        | JType::Float
        | JType::Double => false,
    }
}

/// Whether a variable of a type takes values of a kind.
pub fn takes_kind(of: Kind, kind: &JType) -> bool
    ensures takes { result ≡ spec.takes_kind of (view_type kind.now) }
{
    match of {
        Kind::Int => takes_ints(kind),
        Kind::Long => takes_longs(kind),
        Kind::Float => false,
        Kind::Double => false,
        Kind::Ref => takes_objects(kind),
    }
}

impl Local {
    /// The static type of what a slot is: null has its own.
    fn static_type(&self, alloc: Global) -> Result<StaticType, AllocError>
        ensures kind { IfOk result (λ kind. view_static kind ≡ spec.static_of (view_local self.now)) }
    {
        match &self.atom {
            Atom::Nothing => Ok(StaticType::Null),
            Atom::Number(_) | Atom::Wide(_) | Atom::Units(_) | Atom::Own | Atom::Named(_) => {
                Ok(StaticType::Of(self.kind.copy(alloc)?))
            }
        }
    }

    /// Whether it is an int.
    fn is_counted(&self) -> bool
        ensures counted { result ≡ spec.counts_on (spec.static_of (view_local self.now)) }
    {
        match &self.atom {
            Atom::Nothing => false,
            Atom::Number(_) | Atom::Wide(_) | Atom::Units(_) | Atom::Own | Atom::Named(_) => {
                takes_ints(&self.kind)
            }
        }
    }
}

/// What `iinc` puts into a variable: a negative number is taken away.
fn counted(alloc: Global, atom: &Atom, by: i16) -> Result<Tree, AllocError>
    ensures counted { IfOk result (λ made. view_tree made ≡ locals.counted (view_atom atom.now) by) }
{
    let before = atom.copy(alloc)?.into_tree();
    let number = i32::from(by);
    if number < 0 {
        let tree = Tree::binary(alloc, Op::Sub, before, Tree::int(-number))?;
        Ok(tree)
    } else {
        let tree = Tree::binary(alloc, Op::Add, before, Tree::int(number))?;
        Ok(tree)
    }
}

impl Built {
    /// A load, given what its slot is; false where it can't be loaded.
    pub fn load(
        &mut self,
        alloc: Global,
        of: Kind,
        found: Option<&Local>,
    ) -> Result<bool, AllocError>
        ensures loaded { IfOk result (λ done. as_built done (view_built self.new)
            ≡ behind (view_built self.old).emitted (loaded of self.old.next (stacked self.old.stack) (option_map view_local (option_copied found.entry)))) }
    {
        let Some(local) = found else {
            return Ok(false);
        };
        if !takes_kind(of, &local.kind) {
            return Ok(false);
        }
        let kind = local.static_type(alloc)?;
        let atom = local.atom.copy(alloc)?;
        self.push(Entry::Kept(kind, atom))?;
        Ok(true)
    }

    /// Assigns an expression to a variable, behind the pending expressions; false where one of these is none.
    pub fn put(&mut self, alloc: Global, variable: Var, new: Tree) -> Result<bool, AllocError>
        ensures put { IfOk result (λ done. as_built done (view_built self.new)
            ≡ behind (view_built self.old).emitted (counted_to self.old.next (stacked self.old.stack) variable (view_tree new))) }
    {
        let done = self.emit(alloc, &[variable], Stm::Set(variable, new.exp))?;
        Ok(done)
    }

    /// Adds a number to a local, given what it is and the variable that is written; false where it can't be.
    pub fn count(
        &mut self,
        alloc: Global,
        by: i16,
        found: Option<&Local>,
        target: Option<&Target>,
    ) -> Result<bool, AllocError>
        ensures counted { IfOk result (λ done. as_built done (view_built self.new)
            ≡ behind (view_built self.old).emitted (counted_built by self.old.next (stacked self.old.stack) (option_map view_local (option_copied found.entry)) (option_map view_target (option_copied target.entry)))) }
    {
        let Some(local) = found else {
            return Ok(false);
        };
        let Some(target) = target else {
            return Ok(false);
        };
        if !local.is_counted() {
            return Ok(false);
        }
        if !takes_ints(&target.kind) {
            return Ok(false);
        }
        let new = counted(alloc, &local.atom, by)?;
        let done = self.put(alloc, target.variable, new)?;
        Ok(done)
    }
}
