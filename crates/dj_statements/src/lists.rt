//! How far a body is read, and how its statements begin and end (JLS 14).

ghost use Rattle.std.specs.Prelude.{◌≡◌, [], IfOk, OnOk, List, map, option_map, reverse, ℕ};
ghost use Rattle.dj_syntax.specs.Trees.{view_stm};
ghost use Rattle.dj_grammar.specs.Blocks.{beginning, completed, completed_or, labels_of};
ghost use Rattle.dj_grammar.specs.Readings as plain;
ghost use Rattle.dj_grammar.specs.Open as braces;
ghost use Rattle.dj_grammar.specs.Open.{Simple, flushed, no_statements};
ghost use Rattle.dj_statements.specs.OpenViews.{put, view_blocks, view_clause, view_listed, view_outer, view_place, with_place};
ghost use Rattle.dj_grammar.specs.Readings.{Head, Wanted};
ghost use Rattle.dj_grammar.specs.Statements.{while_of};
ghost use Rattle.dj_grammar.specs.Steps.{read_token};
ghost use Rattle.dj_expressions.specs.Views.{view_reading};

use crate::frames::{Clause, Frame, Last, Listed};
use dj_expressions::{Opener, Reading, open_more, take_start};
use dj_names::Items;
use dj_syntax::{Stm, fitted};
use dj_tokens::{KnownNames, Token};
use std::alloc::{AllocError, Global};
use std::mem;

/// The braces that are open, the innermost last, and the statements of the innermost.
#[derive(Drop)]
pub struct Lists {
    pub outer: Items<Frame>,
    pub list: Listed,
}

/// What is read of the next statement: what its words are read for, its labels, the innermost last,
/// and how far its expression is read.
#[derive(Drop)]
pub struct Place {
    pub clause: Clause,
    pub labels: Items<u32>,
    pub reading: Reading,
}

/// A statement begins, with no label so far.
pub fn beginning(alloc: Global) -> Result<Reading, AllocError>
    ensures begins { IfOk result (λ reading. view_reading reading ≡ beginning []) }
{
    open_more(Items::new(alloc), Opener::Start(Items::new(alloc)))
}

/// Between two statements.
pub fn ready(alloc: Global) -> Result<Place, AllocError>
    ensures ready { IfOk result (λ place. view_place place ≡ (Simple, [], beginning [])) }
{
    let reading = beginning(alloc)?;
    Ok(Place {
        clause: Clause::Simple,
        labels: Items::new(alloc),
        reading,
    })
}

/// The labels of a statement that begins.
pub fn labels_of(alloc: Global, reading: Reading) -> Result<Items<u32>, AllocError>
    ensures labels { IfOk result (λ labels. reverse labels ≡ labels_of (view_reading reading)) }
{
    match reading {
        Reading::Wanted(mut pending) => match take_start(&mut pending)? {
            Some(labels) => Ok(labels),
            None => Ok(Items::new(alloc)),
        },
        Reading::Negation(_)
        | Reading::Head(_)
        | Reading::Named(_, _)
        | Reading::Behind(_, _)
        | Reading::Typed(_, _)
        | Reading::Sized(_, _, _, _)
        | Reading::Called(_, _, _)
        | Reading::Declared(_, _, _)
        | Reading::Selecting(_, _)
        | Reading::Stands(_, _)
        | Reading::Helping(_)
        | Reading::Lost => {
            drop(reading);
            Ok(Items::new(alloc))
        }
    }
}

impl Place {
    /// How far the expression is read.
    pub fn into_reading(self) -> Reading
        ensures reading { result ≡ self.reading }
    {
        let Place {
            clause,
            labels,
            reading,
        } = self;
        drop(clause);
        drop(labels);
        reading
    }

    /// The labels of the statement that begins here.
    fn into_labels(self, alloc: Global) -> Result<Items<u32>, AllocError>
        ensures labels { IfOk result (λ labels. reverse labels ≡ labels_of (view_reading self.reading)) }
    {
        labels_of(alloc, self.into_reading())
    }

    /// A keyword begins a statement, whose value comes next.
    pub fn begin_value(&mut self, alloc: Global, clause: Clause) -> Result<(), AllocError>
        ensures begins { OnOk result (view_place self.new ≡ (view_clause clause, labels_of (view_reading self.old.reading), Wanted [])) }
    {
        let before = self.take(alloc);
        match before.into_labels(alloc) {
            Ok(labels) => {
                self.put(Place {
                    clause,
                    labels,
                    reading: Reading::Wanted(Items::new(alloc)),
                });
                Ok(())
            }
            Err(error) => {
                drop(clause);
                Err(error)
            }
        }
    }

    /// A keyword begins a statement, in which a parenthesis or a brace comes next.
    pub fn begin_head(&mut self, alloc: Global, clause: Clause) -> Result<(), AllocError>
        ensures begins { OnOk result (view_place self.new ≡ (view_clause clause, labels_of (view_reading self.old.reading), Head [])) }
    {
        let before = self.take(alloc);
        match before.into_labels(alloc) {
            Ok(labels) => {
                self.put(Place {
                    clause,
                    labels,
                    reading: Reading::Head(Items::new(alloc)),
                });
                Ok(())
            }
            Err(error) => {
                drop(clause);
                Err(error)
            }
        }
    }

    /// `while`, of a loop or behind the statements of a `do`.
    pub fn begin_while(&mut self, alloc: Global) -> Result<(), AllocError>
        ensures begins { OnOk result ((outer : List braces.Frame) (list : braces.Listed) → put outer list (view_place self.new) ≡ while_of (put outer list (view_place self.old)) (view_clause self.old.clause)) }
    {
        match self.clause {
            Clause::DoTest(_) => Ok(()),
            Clause::Simple
            | Clause::ReturnOf
            | Clause::ThrowOf
            | Clause::BreakOf
            | Clause::ContinueOf
            | Clause::IfOf
            | Clause::ElseOf(_, _)
            | Clause::WhileOf
            | Clause::SwitchOf
            | Clause::CaseOf
            | Clause::DefaultOf
            | Clause::TryOf
            | Clause::CatchOf(_, _)
            | Clause::FinallyOf(_)
            | Clause::SynchronizedOf
            | Clause::DoOf
            | Clause::ForOf
            | Clause::ForTest
            | Clause::ForStep(_) => self.begin_head(alloc, Clause::WhileOf),
        }
    }

    /// Nothing is read.
    fn lost(alloc: Global) -> Place {
        Place {
            clause: Clause::Simple,
            labels: Items::new(alloc),
            reading: Reading::Lost,
        }
    }

    /// Takes all away that is read.
    pub fn take(&mut self, alloc: Global) -> Place
        ensures taken { result ≡ self.old }
    {
        mem::replace(self, Place::lost(alloc))
    }

    /// Puts what is read in the place of what was.
    pub fn put(&mut self, next: Place)
        ensures put { self.new ≡ next }
    {
        drop(mem::replace(self, next));
    }

    /// A word of an expression, given what it is.
    pub fn pass(
        &mut self,
        alloc: Global,
        names: &mut KnownNames,
        token: Token,
        word: &[u8],
    ) -> Result<(), AllocError>
        ensures passed { OnOk result (view_place self.new ≡ (view_clause self.old.clause, reverse self.old.labels, read_token token word.now (view_reading self.old.reading))) }
    {
        self.reading.pass(alloc, names, token, word)?;
        Ok(())
    }
}

impl Lists {
    /// Nothing of a body is read.
    pub fn new(alloc: Global) -> Lists
        ensures outer { view_outer result.outer ≡ [] }
        ensures list { view_listed result.list ≡ no_statements }
    {
        Lists {
            outer: Items::new(alloc),
            list: Listed::new(alloc),
        }
    }

    /// Takes all statements of the innermost list away.
    pub fn take_statements(&mut self, alloc: Global) -> Result<Items<Stm>, AllocError>
        ensures taken { IfOk result (λ list. map view_stm list ≡ flushed (view_listed self.old.list)) }
        ensures none { view_listed self.new.list ≡ no_statements }
        ensures kept { self.new.outer ≡ self.old.outer }
    {
        let list = mem::replace(&mut self.list, Listed::new(alloc));
        list.flushed(alloc)
    }

    /// Takes all statements of the innermost list away, which ends here, in no more room than they take.
    pub fn end_statements(&mut self, alloc: Global) -> Result<Items<Stm>, AllocError>
        ensures taken { IfOk result (λ list. map view_stm list ≡ flushed (view_listed self.old.list)) }
        ensures none { view_listed self.new.list ≡ no_statements }
        ensures kept { self.new.outer ≡ self.old.outer }
    {
        let list = self.take_statements(alloc)?;
        let list = fitted(alloc, list)?;
        Ok(list)
    }

    /// The innermost list has these statements, of which the last one is kept apart.
    pub fn put_list(&mut self, before: Items<Stm>, last: Option<Last>)
        ensures before { self.new.list.before ≡ before }
        ensures last { self.new.list.last ≡ last }
        ensures kept { self.new.outer ≡ self.old.outer }
    {
        drop(mem::replace(&mut self.list, Listed { before, last }));
    }

    /// A statement ends, with its labels.
    pub fn complete(
        &mut self,
        alloc: Global,
        statement: Stm,
        labels: Items<u32>,
    ) -> Result<Place, AllocError>
        ensures completed { IfOk result (λ place. (was : braces.Clause) (named : List ℕ) (before : plain.Reading) → view_blocks self.new place ≡ completed (with_place self.old (was, named, before)) (view_stm statement) (reverse labels)) }
    {
        match self.take_statements(alloc) {
            Ok(before) => {
                self.put_list(before, Some(Last { statement, labels }));
                ready(alloc)
            }
            Err(error) => {
                drop(statement);
                Err(error)
            }
        }
    }

    /// A statement ends, where there is one, with its labels.
    pub fn complete_or(
        &mut self,
        alloc: Global,
        statement: Option<Stm>,
        labels: Items<u32>,
    ) -> Result<Place, AllocError>
        ensures completed { IfOk result (λ place. (was : braces.Clause) (named : List ℕ) (before : plain.Reading) → view_blocks self.new place ≡ completed_or (with_place self.old (was, named, before)) (option_map view_stm statement) (reverse labels)) }
    {
        match statement {
            Some(statement) => self.complete(alloc, statement, labels),
            None => ready(alloc),
        }
    }
}
