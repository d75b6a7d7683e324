//! Words of the stack that are moved, doubled or dropped.

ghost use Rattle.std.specs.Prelude.{◌≡◌, map, IfOk, is_some};
ghost use Rattle.dj_syntax.specs.Trees.{view_exp};
ghost use Rattle.dj_rebuilt.specs.Rebuilding.{dropped, drop_words};
ghost use Rattle.dj_rebuilt.specs.Sorts.{drop_forms};
ghost use Rattle.dj_pending.specs.Stacks.{stacked};
ghost use Rattle.dj_pending.specs.Forms.{view_form};
ghost use Rattle.dj_pending.specs.Building.{view_built, as_built};
ghost use Rattle.dj_pending.specs.Spilling.{behind};
ghost use Rattle.dj_pending.specs.Shifts.{moved_built, doubled_built, dropped_built, is_droppable, call_run};

use crate::built::Built;
use crate::entry::Entry;
use crate::moving::{DUP, Form, POP, POP2, moves, type_words};
use dj_syntax::{Exp, Stm};
use std::alloc::{AllocError, Global};

/// Whether an expression may stand as a statement.
fn is_call(exp: &Exp) -> bool
    ensures call { result ≡ is_some (dropped (view_exp exp.now)) }
{
    match exp {
        Exp::Call(_, _, _) | Exp::StaticCall(_, _, _) | Exp::SuperCall(_, _, _) | Exp::New(_, _) =>
            true,
        Exp::Int(_)
        | Exp::Long(_)
        | Exp::Text(_)
        | Exp::Bool(_)
        | Exp::Null
        | Exp::This
        | Exp::Var(_)
        | Exp::ClassOf(_)
        | Exp::Field(_, _)
        | Exp::Static(_, _)
        | Exp::Element(_, _)
        | Exp::NewArray(_, _, _)
        | Exp::Cast(_, _)
        | Exp::InstanceOf(_, _)
        | Exp::Negative(_)
        | Exp::Not(_)
        | Exp::Binary(_, _, _)
        | Exp::Choice(_, _, _)
        | Exp::Assign(_, _) => false,
    }
}

/// How many words go.
fn word_count(two: bool) -> u8
    ensures words { result ≡ drop_words two }
{
    if two { 2 } else { 1 }
}

impl Built {
    /// Moves words by the first of these forms that fits, behind all that was pending; false where none does.
    pub fn shuffle(&mut self, alloc: Global, forms: &[Form]) -> Result<bool, AllocError>
        ensures moved { IfOk result (λ done. as_built done (view_built self.new)
            ≡ behind (view_built self.old).emitted (moved_built self.old.next (stacked self.old.stack) (map view_form forms.now))) }
    {
        let spilled = self.spill(alloc, &[])?;
        if !spilled {
            return Ok(false);
        }
        let done = moves(alloc, forms, &mut self.stack)?;
        Ok(done)
    }

    /// The top word twice.
    pub fn double(&mut self, alloc: Global) -> Result<bool, AllocError>
        ensures doubled { IfOk result (λ done. as_built done (view_built self.new)
            ≡ behind (view_built self.old).emitted (doubled_built self.old.next (stacked self.old.stack))) }
    {
        if self.stack.is_born() {
            self.push(Entry::Again)?;
            return Ok(true);
        }
        let done = self.shuffle(alloc, &DUP)?;
        Ok(done)
    }

    /// Whether a call, or a new object, of so many words is on top.
    fn has_call(&self, words: u8) -> bool
        ensures call { result ≡ is_droppable words (stacked self.now.stack) }
    {
        match self.stack.get(0) {
            Some(Entry::Whole(kind, tree)) => is_call(&tree.exp) && type_words(kind) == words,
            Some(Entry::Kept(_, _) | Entry::Born(_) | Entry::Again) => false,
            None => false,
        }
    }

    /// A call on top, as a statement; false where none is there, or something below is no expression.
    fn run_call(&mut self, alloc: Global) -> Result<bool, AllocError>
        ensures run { IfOk result (λ done. as_built done (view_built self.new)
            ≡ behind (view_built self.old).emitted (call_run self.old.next (stacked self.old.stack))) }
    {
        match self.stack.pop() {
            Some(Entry::Whole(_, tree)) => {
                let done = self.emit(alloc, &[], Stm::Run(tree.exp))?;
                Ok(done)
            }
            Some(Entry::Kept(_, _) | Entry::Born(_) | Entry::Again) => Ok(false),
            None => Ok(false),
        }
    }

    /// Drops words as they are.
    fn drop_words(&mut self, alloc: Global, two: bool) -> Result<bool, AllocError>
        ensures dropped { IfOk result (λ done. as_built done (view_built self.new)
            ≡ behind (view_built self.old).emitted (moved_built self.old.next (stacked self.old.stack) (drop_forms two))) }
    {
        if two {
            let done = self.shuffle(alloc, &POP2)?;
            return Ok(done);
        }
        let done = self.shuffle(alloc, &POP)?;
        Ok(done)
    }

    /// Drops one word, or two.
    pub fn drop_top(&mut self, alloc: Global, two: bool) -> Result<bool, AllocError>
        ensures dropped { IfOk result (λ done. as_built done (view_built self.new)
            ≡ behind (view_built self.old).emitted (dropped_built two self.old.next (stacked self.old.stack))) }
    {
        if self.has_call(word_count(two)) {
            let done = self.run_call(alloc)?;
            return Ok(done);
        }
        let done = self.drop_words(alloc, two)?;
        Ok(done)
    }
}
