//! How the last statement goes on, and the labels of a switch (JLS 14.9.2, 14.11, 14.20).

ghost use Rattle.std.specs.Prelude.{◌≡◌, ◌∷◌, IfOk, map, option_map, reverse, List, ℕ};
ghost use Rattle.dj_syntax.specs.Trees as trees;
ghost use Rattle.dj_syntax.specs.Trees.{view_exp, view_group, view_stm};
ghost use Rattle.dj_grammar.specs.LastStatements.{case_number, case_of, catch_clause, else_of, finally_of, is_none_read, label_kind, label_outer, last_goes_on};
ghost use Rattle.dj_grammar.specs.Readings as plain;
ghost use Rattle.dj_grammar.specs.Open as braces;
ghost use Rattle.dj_grammar.specs.Open.{InSwitch, no_statements};
ghost use Rattle.dj_statements.specs.OpenViews.{gone_on, labelled, put, view_blocks, view_clause, view_frame, view_kind, view_listed, view_outer, view_place, with_place};
ghost use Rattle.dj_grammar.specs.StatementEnds.{value_in};
ghost use Rattle.dj_expressions.specs.Views.{view_reading};

use crate::braces::with_group;
use crate::frames::{Clause, Frame, Kind, Listed};
use crate::lists::{Lists, Place, ready};
use crate::statement_ends::value_in;
use dj_expressions::Reading;
use dj_names::Items;
use dj_syntax::{Exp, Group, Stm};
use std::alloc::{AllocError, Global};

/// The groups of a switch, and the labels of the one that is begun.
#[derive(Drop)]
struct Cases {
    groups: Items<Group>,
    labels: Items<Option<i32>>,
}

impl Lists {
    /// `else`: the last statement goes on, where it is an `if`.
    pub fn go_on_else(&mut self, alloc: Global) -> Result<Place, AllocError>
        ensures on { IfOk result (λ next. (was : braces.Clause) (named : List ℕ) (before : plain.Reading) → view_blocks self.new next ≡ last_goes_on (with_place self.old (was, named, before)) else_of (view_listed self.old.list).last) }
    {
        match self.list.last.take() {
            Some(last) => go_on(alloc, else_of(last.statement), last.labels),
            None => ready(alloc),
        }
    }

    /// `catch`: the last statement goes on, where it is a `try`.
    pub fn go_on_catch(&mut self, alloc: Global) -> Result<Place, AllocError>
        ensures on { IfOk result (λ next. (was : braces.Clause) (named : List ℕ) (before : plain.Reading) → view_blocks self.new next ≡ last_goes_on (with_place self.old (was, named, before)) catch_clause (view_listed self.old.list).last) }
    {
        match self.list.last.take() {
            Some(last) => go_on(alloc, catch_clause(last.statement), last.labels),
            None => ready(alloc),
        }
    }

    /// `finally`: the last statement goes on, where it is a `try`.
    pub fn go_on_finally(&mut self, alloc: Global) -> Result<Place, AllocError>
        ensures on { IfOk result (λ next. (was : braces.Clause) (named : List ℕ) (before : plain.Reading) → view_blocks self.new next ≡ last_goes_on (with_place self.old (was, named, before)) finally_of (view_listed self.old.list).last) }
    {
        match self.list.last.take() {
            Some(last) => go_on(alloc, finally_of(last.statement), last.labels),
            None => ready(alloc),
        }
    }

    /// A `case`, where it has a value; one that is no number is read as `default`.
    pub fn add_case(&mut self, alloc: Global, reading: Reading) -> Result<Place, AllocError>
        ensures added { IfOk result (λ next. (was : braces.Clause) (named : List ℕ) (before : plain.Reading) → view_blocks self.new next ≡ case_of (with_place self.old (was, named, before)) (value_in (view_reading reading))) }
    {
        match value_in(alloc, reading)? {
            Some(value) => {
                let number = case_number(&value);
                drop(value);
                self.add_label(alloc, number)
            }
            None => ready(alloc),
        }
    }

    /// A label more, where a switch is open.
    pub fn add_label(&mut self, alloc: Global, label: Option<i32>) -> Result<Place, AllocError>
        ensures added { IfOk result (λ next. (was : braces.Clause) (named : List ℕ) (before : plain.Reading) → view_blocks self.new next ≡ label_outer (with_place self.old (was, named, before)) (view_outer self.old.outer) label) }
    {
        match self.outer.pop() {
            Some(frame) => self.label_frame(alloc, frame, label),
            None => ready(alloc),
        }
    }

    /// A label more, where this brace, which was taken away, is that of a switch.
    fn label_frame(
        &mut self,
        alloc: Global,
        frame: Frame,
        label: Option<i32>,
    ) -> Result<Place, AllocError>
        ensures added { IfOk result (λ next. (was : braces.Clause) (named : List ℕ) (before : plain.Reading) → view_blocks self.new next ≡ label_kind (put (view_frame frame ∷ view_outer self.old.outer) (view_listed self.old.list) (was, named, before)) (view_frame frame) (view_outer self.old.outer) label (view_kind frame.kind)) }
    {
        let Frame {
            kind,
            labels,
            before,
        } = frame;
        match kind {
            Kind::InSwitch(value, groups, cases) => {
                match self.next_label(alloc, groups, cases, label) {
                    Ok(more) => self.push_brace(
                        alloc,
                        Kind::InSwitch(value, more.groups, more.labels),
                        labels,
                        before,
                    ),
                    Err(error) => {
                        drop(value);
                        Err(error)
                    }
                }
            }
            Kind::InBlock
            | Kind::InIf(_)
            | Kind::InElse(_, _)
            | Kind::InWhile(_)
            | Kind::InTry
            | Kind::InCatch(_, _, _, _)
            | Kind::InSynchronized(_)
            | Kind::InDo
            | Kind::InFor(_, _, _)
            | Kind::InFinally(_) => self.push_brace(alloc, kind, labels, before),
        }
    }

    /// A label more of a switch: of the group that is begun, where it has no statement, or of the next.
    fn next_label(
        &mut self,
        alloc: Global,
        groups: Items<Group>,
        mut labels: Items<Option<i32>>,
        label: Option<i32>,
    ) -> Result<Cases, AllocError>
        ensures cases { IfOk result (λ cases. (value : trees.Exp) → InSwitch value (map view_group cases.groups) cases.labels ≡ labelled value (map view_group groups) labels label (view_listed self.old.list) (is_none_read (view_listed self.old.list))) }
        ensures none { view_listed self.new.list ≡ no_statements }
        ensures kept { self.new.outer ≡ self.old.outer }
    {
        let is_none = self.list.is_none_read();
        let body = self.end_statements(alloc)?;
        if is_none {
            labels.push(label)?;
            Ok(Cases { groups, labels })
        } else {
            let groups = with_group(groups, labels, body)?;
            let mut labels = Items::new(alloc);
            labels.push(label)?;
            Ok(Cases { groups, labels })
        }
    }
}

impl Listed {
    /// Whether no statement is read.
    fn is_none_read(&self) -> bool
        ensures none { result ≡ is_none_read (view_listed self.now) }
    {
        self.last.is_none() && self.before.is_empty()
    }
}

/// The last statement goes on, with its labels, where it may.
fn go_on(alloc: Global, clause: Option<Clause>, labels: Items<u32>) -> Result<Place, AllocError>
    ensures on { IfOk result (λ next. view_place next ≡ gone_on (option_map view_clause clause) (reverse labels)) }
{
    match clause {
        Some(clause) => Ok(Place {
            clause,
            labels,
            reading: Reading::Head(Items::new(alloc)),
        }),
        None => ready(alloc),
    }
}

/// An `if` goes on with `else`.
fn else_of(statement: Stm) -> Option<Clause>
    ensures clause { option_map view_clause result ≡ else_of (view_stm statement) }
{
    match statement {
        Stm::If(test, first, _) => Some(Clause::ElseOf(test, first)),
        _ => {
            drop(statement);
            None
        }
    }
}

/// A `try` goes on with a `catch`.
fn catch_clause(statement: Stm) -> Option<Clause>
    ensures clause { option_map view_clause result ≡ catch_clause (view_stm statement) }
{
    match statement {
        Stm::Try(body, catches) => Some(Clause::CatchOf(body, catches)),
        _ => {
            drop(statement);
            None
        }
    }
}

/// A `try` goes on with `finally`.
fn finally_of(statement: Stm) -> Option<Clause>
    ensures clause { option_map view_clause result ≡ finally_of (view_stm statement) }
{
    match statement {
        Stm::Try(body, _) => Some(Clause::FinallyOf(body)),
        _ => {
            drop(statement);
            None
        }
    }
}

/// The number of a `case`.
fn case_number(value: &Exp) -> Option<i32>
    ensures number { result ≡ case_number (view_exp value.now) }
{
    match value {
        Exp::Int(number) => Some(*number),
        _ => None,
    }
}
