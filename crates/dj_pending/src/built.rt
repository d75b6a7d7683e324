//! What is built so far, and how pending expressions become statements.

ghost use Rattle.std.specs.Prelude.{◌≡◌, ◌∷◌, ◌++◌, ◌+◌, true, map, IfOk};
ghost use Rattle.dj_names.specs.Types.{view_type, view_static};
ghost use Rattle.dj_syntax.specs.Trees.{view_exp, view_stm};
ghost use Rattle.dj_meaning.specs.Declarations.{joined};
ghost use Rattle.dj_rebuilding.specs.Pending as spec;
ghost use Rattle.dj_pending.specs.Assigned.{is_among};
ghost use Rattle.dj_pending.specs.Entries.{view_entry, view_atom};
ghost use Rattle.dj_pending.specs.Stacks.{stacked};
ghost use Rattle.dj_pending.specs.Building.{view_built, as_built};
ghost use Rattle.dj_pending.specs.Spilling.{declared_in, settled, behind};

use crate::assigned::stays;
use crate::entry::{Atom, Entry};
use crate::stack::Stack;
use dj_names::{ClassName, Items, JType, StaticType, Units};
use dj_syntax::{Exp, Stm, Var, VarKind};
use std::alloc::{AllocError, Global};
use std::mem;

/// Statements, the stack behind them with its top last, and the number of the next fresh variable.
#[derive(Drop)]
pub struct Built {
    pub emitted: Items<Stm>,
    pub stack: Stack,
    pub next: u32,
}

/// The type of a variable that keeps values of a type.
fn declared_type(alloc: Global, kind: StaticType) -> Result<JType, AllocError>
    ensures declared { IfOk result (λ declared. view_type declared ≡ spec.declared_type (view_static kind)) }
{
    match kind {
        StaticType::Null => {
            let name = Units::from_slice(
                alloc,
                &[
                    106, 97, 118, 97, 47, 108, 97, 110, 103, 47, 79, 98, 106, 101, 99, 116,
                ],
            )?;
            Ok(JType::Class(ClassName::new(name)))
        }
        StaticType::Of(kind) => Ok(kind),
    }
}

/// The entries from the top down.
fn top_first(alloc: Global, stack: Stack) -> Result<Items<Entry>, AllocError>
    ensures turned { IfOk result (λ turned. map view_entry turned ≡ stacked stack) }
{
    let mut left = stack;
    let mut turned = Items::new(alloc);
    while let Some(entry) = left.pop() {
        turned.push(entry)?;
    }
    Ok(turned)
}

impl Built {
    /// A fresh variable. An error says that there are too many.
    fn fresh(&mut self) -> Result<Var, AllocError>
        ensures fresh { IfOk result (λ variable. (variable ≡ spec.fresh self.old.next) × (self.new ≡ record self.old { next = self.old.next + 1 })) }
    {
        let number = self.next;
        let Some(next) = number.checked_add(1) else {
            return Err(AllocError);
        };
        self.next = next;
        let kind = VarKind::Local;
        Ok(Var { kind, number })
    }

    /// Puts a statement behind those that are there.
    pub fn add(&mut self, statement: Stm) -> Result<(), AllocError>
        ensures added { IfOk result (λ _. view_built self.new ≡ record (view_built self.old) { emitted = joined (view_built self.old).emitted (spec.single (view_stm statement)) }) }
    {
        self.emitted.push(statement)?;
        Ok(())
    }

    /// Puts an entry on the stack.
    pub fn push(&mut self, entry: Entry) -> Result<(), AllocError>
        ensures pushed { IfOk result (λ _. view_built self.new ≡ record (view_built self.old) { stack = view_entry entry ∷ (view_built self.old).stack }) }
    {
        self.stack.push(entry)?;
        Ok(())
    }

    /// Declares a variable with an expression of a type as its first value, and has it pending.
    fn declare(
        &mut self,
        alloc: Global,
        variable: Var,
        kind: JType,
        exp: Exp,
    ) -> Result<(), AllocError>
        ensures declared { IfOk result (λ _. view_built self.new ≡ declared_in variable (view_type kind) (view_exp exp) (view_built self.old)) }
    {
        let pending = StaticType::Of(kind.copy(alloc)?);
        self.push(Entry::Kept(pending, Atom::Named(variable)))?;
        self.add(Stm::Declare(variable, kind, Some(exp)))?;
        Ok(())
    }

    /// Assigns an expression to a fresh variable, which is declared there and stays pending.
    fn save(&mut self, alloc: Global, kind: StaticType, exp: Exp) -> Result<(), AllocError>
        ensures saved { IfOk result (λ _. view_built self.new ≡ spec.save (view_static kind) (view_exp exp) (view_built self.old)) }
    {
        let variable = self.fresh()?;
        let declared = declared_type(alloc, kind)?;
        self.declare(alloc, variable, declared, exp)?;
        Ok(())
    }

    /// Has an atom pending as it is, or saves it where its variable is assigned.
    fn settle_atom(
        &mut self,
        alloc: Global,
        assigned: &[Var],
        kind: StaticType,
        atom: Atom,
    ) -> Result<(), AllocError>
        ensures settled { IfOk result (λ _. as_built true (view_built self.new) ≡ settled (is_among assigned.now) (spec.Kept (view_static kind) (view_atom atom)) (view_built self.old)) }
    {
        if stays(assigned, &atom) {
            self.push(Entry::Kept(kind, atom))?;
        } else {
            self.save(alloc, kind, atom.into_tree().exp)?;
        }
        Ok(())
    }

    /// Has an entry pending as an atom; false where it is no expression.
    fn settle(&mut self, alloc: Global, assigned: &[Var], entry: Entry) -> Result<bool, AllocError>
        ensures settled { IfOk result (λ done. as_built done (view_built self.new) ≡ settled (is_among assigned.now) (view_entry entry) (view_built self.old)) }
    {
        match entry {
            Entry::Kept(kind, atom) => {
                self.settle_atom(alloc, assigned, kind, atom)?;
                Ok(true)
            }
            Entry::Whole(kind, tree) => {
                self.save(alloc, kind, tree.exp)?;
                Ok(true)
            }
            Entry::Born(_) => Ok(false),
            Entry::Again => Ok(false),
        }
    }

    /// Saves each pending expression but for atoms that stay, the oldest first; false where an entry is no expression.
    pub fn spill(&mut self, alloc: Global, assigned: &[Var]) -> Result<bool, AllocError>
        ensures spilled { IfOk result (λ done. as_built done (view_built self.new)
            ≡ behind (view_built self.old).emitted (spec.spill (is_among assigned.now) self.old.next (stacked self.old.stack))) }
    {
        let stack = mem::replace(&mut self.stack, Stack::new(alloc));
        let mut left = top_first(alloc, stack)?;
        while let Some(entry) = left.pop() {
            let done = self.settle(alloc, assigned, entry)?;
            if !done {
                return Ok(false);
            }
        }
        Ok(true)
    }

    /// Puts a statement that assigns these variables behind the pending expressions; false where one of these is none.
    pub fn emit(
        &mut self,
        alloc: Global,
        assigned: &[Var],
        statement: Stm,
    ) -> Result<bool, AllocError>
        ensures emitted { IfOk result (λ done. as_built done (view_built self.new)
            ≡ behind (view_built self.old).emitted (spec.emit (is_among assigned.now) self.old.next (stacked self.old.stack) (view_stm statement))) }
    {
        let spilled = self.spill(alloc, assigned)?;
        if spilled {
            self.add(statement)?;
        }
        Ok(spilled)
    }
}
