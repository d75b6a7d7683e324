//! What a brace opens and ends (JLS 14.2, 14.9, 14.11 to 14.14, 14.19, 14.20).

ghost use Rattle.std.specs.Prelude.{◌≡◌, ◌∷◌, [], IfOk, map, option_map, reverse, List, ℕ};
ghost use Rattle.dj_names.specs.Types.{view_type};
ghost use Rattle.dj_syntax.specs.Trees.{view_catch, view_catches, view_exp, view_group, view_stm, view_stms};
ghost use Rattle.dj_grammar.specs.Blocks.{labels_of, ready};
ghost use Rattle.dj_grammar.specs.Braces.{behind_brace, catch_of, catch_type, close_brace, ended_kind, for_of, for_opened, for_value, open_brace, opens, opens_or, switch_of, with_catch, with_group};
ghost use Rattle.dj_grammar.specs.Frames.{opened};
ghost use Rattle.dj_grammar.specs.Open as braces;
ghost use Rattle.dj_statements.specs.OpenViews.{brace, only_before, put, view_blocks, view_clause, view_frame, view_kind, view_listed, view_outer, with_place};
ghost use Rattle.dj_grammar.specs.Readings as plain;
ghost use Rattle.dj_grammar.specs.StatementEnds.{value_in};
ghost use Rattle.dj_grammar.specs.Steps.{variable_in_value};
ghost use Rattle.dj_expressions.specs.Views.{view_open, view_opener, view_reading};

use crate::frames::{Clause, Frame, Kind, Last};
use crate::lists::{Lists, Place, labels_of, ready};
use crate::statement_ends::value_in;
use dj_expressions::{Opener, Reading, Standing, pop_opener, variable_in_value};
use dj_names::{Items, JType};
use dj_syntax::{Catch, Exp, Group, Stm, Var};
use std::alloc::{AllocError, Global};

impl Lists {
    /// A brace opens.
    pub fn open_brace(&mut self, alloc: Global, place: Place) -> Result<Place, AllocError>
        ensures opened { IfOk result (λ next. view_blocks self.new next ≡ open_brace (view_blocks self.old place) (view_clause place.clause)) }
    {
        let Place {
            clause,
            labels,
            reading,
        } = place;
        match clause {
            Clause::Simple => self.open_block(alloc, reading),
            Clause::ElseOf(test, first) => {
                self.open_plainly(alloc, Kind::InElse(test, first), labels, reading)
            }
            Clause::TryOf => self.open_plainly(alloc, Kind::InTry, labels, reading),
            Clause::FinallyOf(body) => {
                self.open_plainly(alloc, Kind::InFinally(body), labels, reading)
            }
            Clause::DoOf => self.open_plainly(alloc, Kind::InDo, labels, reading),
            Clause::IfOf => self.open_if(alloc, labels, reading),
            Clause::WhileOf => self.open_while(alloc, labels, reading),
            Clause::SwitchOf => self.open_switch(alloc, labels, reading),
            Clause::SynchronizedOf => self.open_synchronized(alloc, labels, reading),
            Clause::CatchOf(body, catches) => {
                self.open_or(alloc, catch_of(body, catches, reading), labels)
            }
            Clause::ForStep(test) => self.open_for(alloc, test, labels, reading),
            Clause::ReturnOf
            | Clause::ThrowOf
            | Clause::BreakOf
            | Clause::ContinueOf
            | Clause::CaseOf
            | Clause::DefaultOf
            | Clause::DoTest(_)
            | Clause::ForOf
            | Clause::ForTest => {
                drop(clause);
                drop(reading);
                ready(alloc)
            }
        }
    }

    /// A brace opens, of what is known.
    fn open_kind(
        &mut self,
        alloc: Global,
        kind: Kind,
        labels: Items<u32>,
    ) -> Result<Place, AllocError>
        ensures opened { IfOk result (λ next. (was : braces.Clause) (named : List ℕ) (before : plain.Reading) → view_blocks self.new next ≡ opens (with_place self.old (was, named, before)) (view_kind kind) (reverse labels)) }
    {
        match self.take_statements(alloc) {
            Ok(before) => self.push_brace(alloc, kind, labels, before),
            Err(error) => {
                drop(kind);
                Err(error)
            }
        }
    }

    /// A brace opens, of what is known, whatever was read.
    fn open_plainly(
        &mut self,
        alloc: Global,
        kind: Kind,
        labels: Items<u32>,
        reading: Reading,
    ) -> Result<Place, AllocError>
        ensures opened { IfOk result (λ next. (was : braces.Clause) (named : List ℕ) (before : plain.Reading) → view_blocks self.new next ≡ opens (with_place self.old (was, named, before)) (view_kind kind) (reverse labels)) }
    {
        drop(reading);
        self.open_kind(alloc, kind, labels)
    }

    /// A brace is open, with these statements before it.
    pub fn push_brace(
        &mut self,
        alloc: Global,
        kind: Kind,
        labels: Items<u32>,
        before: Items<Stm>,
    ) -> Result<Place, AllocError>
        ensures pushed { IfOk result (λ next. view_blocks self.new next ≡ ready (brace (view_kind kind) (reverse labels) (map view_stm before) ∷ view_outer self.old.outer) (view_listed self.old.list)) }
    {
        self.outer.push(Frame {
            kind,
            labels,
            before,
        })?;
        ready(alloc)
    }

    /// A brace opens, where it is known what it belongs to.
    fn open_or(
        &mut self,
        alloc: Global,
        kind: Option<Kind>,
        labels: Items<u32>,
    ) -> Result<Place, AllocError>
        ensures opened { IfOk result (λ next. (clause : braces.Clause) (before : plain.Reading) → view_blocks self.new next ≡ opens_or (with_place self.old (clause, reverse labels, before)) (option_map view_kind kind)) }
    {
        match kind {
            Some(kind) => self.open_kind(alloc, kind, labels),
            None => ready(alloc),
        }
    }

    /// A block opens.
    fn open_block(&mut self, alloc: Global, reading: Reading) -> Result<Place, AllocError>
        ensures opened { IfOk result (λ next. (was : braces.Clause) (named : List ℕ) (before : plain.Reading) → view_blocks self.new next ≡ opens (with_place self.old (was, named, before)) braces.InBlock (labels_of (view_reading reading))) }
    {
        let labels = labels_of(alloc, reading)?;
        self.open_kind(alloc, Kind::InBlock, labels)
    }

    /// The statements of an `if` begin.
    fn open_if(
        &mut self,
        alloc: Global,
        labels: Items<u32>,
        reading: Reading,
    ) -> Result<Place, AllocError>
        ensures opened { IfOk result (λ next. (clause : braces.Clause) (before : plain.Reading) → view_blocks self.new next ≡ opens_or (with_place self.old (clause, reverse labels, before)) (option_map braces.InIf (value_in (view_reading reading)))) }
    {
        match value_in(alloc, reading)? {
            Some(test) => self.open_kind(alloc, Kind::InIf(test), labels),
            None => ready(alloc),
        }
    }

    /// The statements of a `while` begin.
    fn open_while(
        &mut self,
        alloc: Global,
        labels: Items<u32>,
        reading: Reading,
    ) -> Result<Place, AllocError>
        ensures opened { IfOk result (λ next. (clause : braces.Clause) (before : plain.Reading) → view_blocks self.new next ≡ opens_or (with_place self.old (clause, reverse labels, before)) (option_map braces.InWhile (value_in (view_reading reading)))) }
    {
        match value_in(alloc, reading)? {
            Some(test) => self.open_kind(alloc, Kind::InWhile(test), labels),
            None => ready(alloc),
        }
    }

    /// The groups of a `switch` begin.
    fn open_switch(
        &mut self,
        alloc: Global,
        labels: Items<u32>,
        reading: Reading,
    ) -> Result<Place, AllocError>
        ensures opened { IfOk result (λ next. (clause : braces.Clause) (before : plain.Reading) → view_blocks self.new next ≡ opens_or (with_place self.old (clause, reverse labels, before)) (option_map switch_of (value_in (view_reading reading)))) }
    {
        match value_in(alloc, reading)? {
            Some(value) => self.open_kind(alloc, switch_of(alloc, value), labels),
            None => ready(alloc),
        }
    }

    /// The statements of a `synchronized` begin.
    fn open_synchronized(
        &mut self,
        alloc: Global,
        labels: Items<u32>,
        reading: Reading,
    ) -> Result<Place, AllocError>
        ensures opened { IfOk result (λ next. (clause : braces.Clause) (before : plain.Reading) → view_blocks self.new next ≡ opens_or (with_place self.old (clause, reverse labels, before)) (option_map braces.InSynchronized (value_in (view_reading reading)))) }
    {
        match value_in(alloc, reading)? {
            Some(monitor) => self.open_kind(alloc, Kind::InSynchronized(monitor), labels),
            None => ready(alloc),
        }
    }

    /// The statements of a `for` begin, behind its step.
    fn open_for(
        &mut self,
        alloc: Global,
        test: Exp,
        labels: Items<u32>,
        reading: Reading,
    ) -> Result<Place, AllocError>
        ensures opened { IfOk result (λ next. (clause : braces.Clause) (before : plain.Reading) → view_blocks self.new next ≡ opens_or (with_place self.old (clause, reverse labels, before)) (for_value (view_exp test) (plain.ended (view_reading reading)))) }
    {
        match reading.ended(alloc) {
            Ok(Some(step)) => self.open_or(alloc, for_step(test, step), labels),
            Ok(None) => {
                drop(test);
                ready(alloc)
            }
            Err(error) => {
                drop(test);
                Err(error)
            }
        }
    }

    /// A brace closes.
    pub fn close_brace(&mut self, alloc: Global) -> Result<Place, AllocError>
        ensures closed { IfOk result (λ next. (was : braces.Clause) (named : List ℕ) (before : plain.Reading) → view_blocks self.new next ≡ close_brace (with_place self.old (was, named, before)) (view_outer self.old.outer)) }
    {
        match self.outer.pop() {
            Some(frame) => self.close_frame(alloc, frame),
            None => ready(alloc),
        }
    }

    /// The innermost list ends, where this brace, which was taken away, opened it.
    fn close_frame(&mut self, alloc: Global, frame: Frame) -> Result<Place, AllocError>
        ensures closed { IfOk result (λ next. (was : braces.Clause) (named : List ℕ) (before : plain.Reading) → view_blocks self.new next ≡ close_brace (with_place self.old (was, named, before)) (view_frame frame ∷ view_outer self.old.outer)) }
    {
        match self.end_statements(alloc) {
            Ok(body) => self.close_list(alloc, frame, body),
            Err(error) => {
                drop(frame);
                Err(error)
            }
        }
    }

    /// A list ends, with these statements; a `do` goes on.
    fn close_list(
        &mut self,
        alloc: Global,
        frame: Frame,
        body: Items<Stm>,
    ) -> Result<Place, AllocError>
        ensures closed { IfOk result (λ next. view_blocks self.new next ≡ behind_brace (view_outer self.old.outer) (view_frame frame) (map view_stm body) (ended_kind (view_kind frame.kind) (map view_stm body))) }
    {
        let Frame {
            kind,
            labels,
            before,
        } = frame;
        match kind {
            Kind::InBlock => self.behind(alloc, before, labels, Stm::Block(body)),
            Kind::InIf(test) => {
                let statement = Stm::If(test, body, Items::new(alloc));
                self.behind(alloc, before, labels, statement)
            }
            Kind::InElse(test, first) => {
                self.behind(alloc, before, labels, Stm::If(test, first, body))
            }
            Kind::InWhile(test) => self.behind(alloc, before, labels, Stm::While(test, body)),
            Kind::InSwitch(value, groups, cases) => match with_group(groups, cases, body) {
                Ok(groups) => self.behind(alloc, before, labels, Stm::Switch(value, groups)),
                Err(error) => {
                    drop(value);
                    Err(error)
                }
            },
            Kind::InTry => {
                let statement = Stm::Try(body, Items::new(alloc));
                self.behind(alloc, before, labels, statement)
            }
            Kind::InCatch(tried, catches, class, variable) => {
                let catches = with_catch(
                    catches,
                    Catch {
                        class,
                        variable,
                        body,
                    },
                )?;
                self.behind(alloc, before, labels, Stm::Try(tried, catches))
            }
            Kind::InSynchronized(monitor) => {
                self.behind(alloc, before, labels, Stm::Synchronized(monitor, body))
            }
            Kind::InDo => Ok(self.redo(alloc, before, labels, body)),
            Kind::InFor(test, variable, step) => {
                self.behind(alloc, before, labels, Stm::For(test, variable, step, body))
            }
            Kind::InFinally(tried) => {
                self.behind(alloc, before, labels, Stm::Finally(tried, body))
            }
        }
    }

    /// The statements before a brace, and the one that it ends.
    fn behind(
        &mut self,
        alloc: Global,
        before: Items<Stm>,
        labels: Items<u32>,
        statement: Stm,
    ) -> Result<Place, AllocError>
        ensures behind { IfOk result (λ next. view_blocks self.new next ≡ ready (view_outer self.old.outer) (braces.with_last (map view_stm before) (view_stm statement) (reverse labels))) }
    {
        self.put_list(before, Some(Last { statement, labels }));
        ready(alloc)
    }

    /// The test of a `do` is read behind its statements.
    fn redo(
        &mut self,
        alloc: Global,
        before: Items<Stm>,
        labels: Items<u32>,
        body: Items<Stm>,
    ) -> Place
        ensures redone { view_blocks self.new result ≡ put (view_outer self.old.outer) (only_before (map view_stm before)) (braces.DoTest (view_stms body), reverse labels, plain.Head []) }
    {
        self.put_list(before, None);
        Place {
            clause: Clause::DoTest(body),
            labels,
            reading: Reading::Head(Items::new(alloc)),
        }
    }
}

/// The groups of a switch, with the one that is begun.
pub fn with_group(
    mut groups: Items<Group>,
    labels: Items<Option<i32>>,
    body: Items<Stm>,
) -> Result<Items<Group>, AllocError>
    ensures more { IfOk result (λ all. map view_group all ≡ with_group (map view_group groups) labels (map view_stm body)) }
{
    groups.push(Group { labels, body })?;
    Ok(groups)
}

/// Catch clauses and one more.
fn with_catch(mut catches: Items<Catch>, catch: Catch) -> Result<Items<Catch>, AllocError>
    ensures more { IfOk result (λ all. view_catches all ≡ with_catch (view_catches catches) (view_catch catch)) }
{
    catches.push(catch)?;
    Ok(catches)
}

/// A `switch` begins with no group.
fn switch_of(alloc: Global, value: Exp) -> Kind
    ensures kind { view_kind result ≡ switch_of (view_exp value) }
{
    Kind::InSwitch(value, Items::new(alloc), Items::new(alloc))
}

/// A `for`, where its step stores to a variable.
fn for_step(test: Exp, step: Standing) -> Option<Kind>
    ensures kind { option_map view_kind result ≡ for_opened (view_exp test) (view_exp step.value) (opened (view_open step.pending)) }
{
    let Standing { value, mut pending } = step;
    match pop_opener(&mut pending) {
        Some(opener) => for_of(test, value, opener),
        None => {
            drop(test);
            drop(value);
            None
        }
    }
}

/// A `for`, where its step stores to a variable, of what was opened.
fn for_of(test: Exp, step: Exp, opener: Opener) -> Option<Kind>
    ensures kind { option_map view_kind result ≡ for_of (view_exp test) (view_exp step) (view_opener opener) }
{
    match opener {
        Opener::Stored(labels, target) => {
            drop(labels);
            for_stored(test, step, target)
        }
        Opener::Parenthesis
        | Opener::Bracket(_)
        | Opener::NameBracket(_)
        | Opener::TypeBracket(_)
        | Opener::Arguments(_, _)
        | Opener::Size(_, _, _)
        | Opener::Start(_)
        | Opener::Initial(_, _, _) => {
            drop(opener);
            drop(test);
            drop(step);
            None
        }
    }
}

/// A `for`, where its step stores to this target and that is a variable.
fn for_stored(test: Exp, step: Exp, target: Exp) -> Option<Kind>
    ensures kind { option_map view_kind result ≡ option_map (λ variable. braces.InFor (view_exp test) variable (view_exp step)) (variable_in_value (view_exp target)) }
{
    let variable = variable_in_value(&target);
    drop(target);
    match variable {
        Some(variable) => Some(Kind::InFor(test, variable, step)),
        None => {
            drop(test);
            drop(step);
            None
        }
    }
}

/// A `catch`, where a class and a variable stand.
fn catch_of(body: Items<Stm>, catches: Items<Catch>, reading: Reading) -> Option<Kind>
    ensures kind { option_map view_kind result ≡ catch_of (view_stms body) (view_catches catches) (view_reading reading) }
{
    match reading {
        Reading::Declared(kind, variable, pending) => {
            drop(pending);
            catch_type(body, catches, kind, variable)
        }
        Reading::Wanted(_)
        | Reading::Negation(_)
        | Reading::Head(_)
        | Reading::Named(_, _)
        | Reading::Behind(_, _)
        | Reading::Typed(_, _)
        | Reading::Sized(_, _, _, _)
        | Reading::Called(_, _, _)
        | Reading::Selecting(_, _)
        | Reading::Stands(_, _)
        | Reading::Helping(_)
        | Reading::Lost => {
            drop(reading);
            None
        }
    }
}

/// A `catch` of a class.
fn catch_type(body: Items<Stm>, catches: Items<Catch>, kind: JType, variable: Var) -> Option<Kind>
    ensures kind { option_map view_kind result ≡ catch_type (view_stms body) (view_catches catches) (view_type kind) variable }
{
    match kind {
        JType::Class(class) => Some(Kind::InCatch(body, catches, class, variable)),
        _ => None,
    }
}
