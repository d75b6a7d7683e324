//! What a semicolon ends (JLS 14.4, 14.8, 14.14 to 14.18).

ghost use Rattle.std.specs.Prelude.{◌≡◌, [], IfOk, List, map, option_map, reverse, ℕ};
ghost use Rattle.dj_syntax.specs.Trees.{Break, Continue, Do, Return, Throw, exps_of, view_exp, view_stm, view_stms};
ghost use Rattle.dj_grammar.specs.Blocks.{beginning, completed, completed_or};
ghost use Rattle.dj_grammar.specs.Frames.{opened};
ghost use Rattle.dj_grammar.specs.Open as braces;
ghost use Rattle.dj_statements.specs.OpenViews.{put, view_blocks, view_clause, view_place, with_place};
ghost use Rattle.dj_grammar.specs.Readings as plain;
ghost use Rattle.dj_grammar.specs.StatementEnds.{constructed, end_call, end_clause, end_opened, end_opener, end_simple, end_start, end_value, label_in, rethrown, store, thrown, to_step, value_in};
ghost use Rattle.dj_grammar.specs.Steps.{starting};
ghost use Rattle.dj_expressions.specs.Views.{view_callee, view_open, view_opener, view_reading};

use crate::frames::Clause;
use crate::lists::{Lists, Place, beginning, ready};
use dj_expressions::{
    Callee, Opener, Pending, Reading, Standing, pop_opener, take_start, variable_in_value,
};
use dj_names::Items;
use dj_syntax::{Exp, Stm};
use std::alloc::{AllocError, Global};

impl Lists {
    /// A semicolon.
    pub fn end_clause(&mut self, alloc: Global, place: Place) -> Result<Place, AllocError>
        ensures ended { IfOk result (λ next. view_blocks self.new next ≡ end_clause (view_blocks self.old place) (view_clause place.clause)) }
    {
        let Place {
            clause,
            labels,
            reading,
        } = place;
        match clause {
            Clause::Simple => self.end_simple(alloc, reading),
            Clause::ReturnOf => self.end_return(alloc, labels, reading),
            Clause::ThrowOf => self.end_throw(alloc, labels, reading),
            Clause::BreakOf => self.complete_or(alloc, break_of(reading), labels),
            Clause::ContinueOf => self.complete_or(alloc, continue_of(reading), labels),
            Clause::DoTest(body) => self.end_do(alloc, body, labels, reading),
            Clause::ForOf => {
                drop(reading);
                Ok(to_test(alloc, labels))
            }
            Clause::ForTest => to_step(alloc, labels, reading),
            Clause::IfOf
            | Clause::ElseOf(_, _)
            | Clause::WhileOf
            | Clause::SwitchOf
            | Clause::CaseOf
            | Clause::DefaultOf
            | Clause::TryOf
            | Clause::CatchOf(_, _)
            | Clause::FinallyOf(_)
            | Clause::SynchronizedOf
            | Clause::DoOf
            | Clause::ForStep(_) => {
                drop(clause);
                drop(reading);
                ready(alloc)
            }
        }
    }

    /// A `return` ends.
    fn end_return(
        &mut self,
        alloc: Global,
        labels: Items<u32>,
        reading: Reading,
    ) -> Result<Place, AllocError>
        ensures ended { IfOk result (λ next. (was : braces.Clause) (named : List ℕ) (before : plain.Reading) → view_blocks self.new next ≡ completed (with_place self.old (was, named, before)) (Return (value_in (view_reading reading))) (reverse labels)) }
    {
        let value = value_in(alloc, reading)?;
        self.complete(alloc, Stm::Return(value), labels)
    }

    /// A `throw` ends.
    fn end_throw(
        &mut self,
        alloc: Global,
        labels: Items<u32>,
        reading: Reading,
    ) -> Result<Place, AllocError>
        ensures ended { IfOk result (λ next. (was : braces.Clause) (named : List ℕ) (before : plain.Reading) → view_blocks self.new next ≡ completed_or (with_place self.old (was, named, before)) (thrown (view_reading reading)) (reverse labels)) }
    {
        let statement = thrown(alloc, reading)?;
        self.complete_or(alloc, statement, labels)
    }

    /// A `do` ends, behind its test.
    fn end_do(
        &mut self,
        alloc: Global,
        body: Items<Stm>,
        labels: Items<u32>,
        reading: Reading,
    ) -> Result<Place, AllocError>
        ensures ended { IfOk result (λ next. (was : braces.Clause) (named : List ℕ) (before : plain.Reading) → view_blocks self.new next ≡ completed_or (with_place self.old (was, named, before)) (option_map (Do (view_stms body)) (value_in (view_reading reading))) (reverse labels)) }
    {
        match value_in(alloc, reading)? {
            Some(test) => self.complete(alloc, Stm::Do(body, test), labels),
            None => ready(alloc),
        }
    }

    /// A statement without a keyword ends.
    fn end_simple(&mut self, alloc: Global, reading: Reading) -> Result<Place, AllocError>
        ensures ended { IfOk result (λ next. (was : braces.Clause) (named : List ℕ) (before : plain.Reading) → view_blocks self.new next ≡ end_simple (with_place self.old (was, named, before)) (view_reading reading)) }
    {
        match reading {
            Reading::Named(_, _)
            | Reading::Typed(_, _)
            | Reading::Sized(_, _, _, _)
            | Reading::Stands(_, _) => self.end_value(alloc, reading),
            Reading::Called(callee, arguments, pending) => {
                self.end_call(alloc, callee, arguments, pending)
            }
            Reading::Declared(kind, variable, pending) => {
                self.end_start(alloc, Stm::Declare(variable, kind, None), pending)
            }
            Reading::Wanted(_)
            | Reading::Negation(_)
            | Reading::Head(_)
            | Reading::Behind(_, _)
            | Reading::Selecting(_, _)
            | Reading::Helping(_)
            | Reading::Lost => {
                drop(reading);
                ready(alloc)
            }
        }
    }

    /// A statement of a value ends, where one stands.
    fn end_value(&mut self, alloc: Global, reading: Reading) -> Result<Place, AllocError>
        ensures ended { IfOk result (λ next. (was : braces.Clause) (named : List ℕ) (before : plain.Reading) → view_blocks self.new next ≡ end_value (with_place self.old (was, named, before)) (plain.ended (view_reading reading))) }
    {
        match reading.ended(alloc)? {
            Some(Standing { value, pending }) => self.end_opened(alloc, value, pending),
            None => ready(alloc),
        }
    }

    /// A statement of a value ends, where something was opened.
    fn end_opened(
        &mut self,
        alloc: Global,
        value: Exp,
        mut pending: Items<Pending>,
    ) -> Result<Place, AllocError>
        ensures ended { IfOk result (λ next. (was : braces.Clause) (named : List ℕ) (before : plain.Reading) → view_blocks self.new next ≡ end_opened (with_place self.old (was, named, before)) (view_exp value) (opened (view_open pending))) }
    {
        match pop_opener(&mut pending) {
            Some(opener) => self.end_opener(alloc, value, opener),
            None => {
                drop(value);
                ready(alloc)
            }
        }
    }

    /// A statement of a value: a call, a store, or the first value of a variable.
    fn end_opener(&mut self, alloc: Global, value: Exp, opener: Opener) -> Result<Place, AllocError>
        ensures ended { IfOk result (λ next. (was : braces.Clause) (named : List ℕ) (before : plain.Reading) → view_blocks self.new next ≡ end_opener (with_place self.old (was, named, before)) (view_exp value) (view_opener opener)) }
    {
        match opener {
            Opener::Start(labels) => self.complete(alloc, Stm::Run(value), labels),
            Opener::Stored(labels, target) => {
                self.complete_or(alloc, store(target, value), labels)
            }
            Opener::Initial(labels, kind, variable) => {
                self.complete(alloc, Stm::Declare(variable, kind, Some(value)), labels)
            }
            Opener::Parenthesis
            | Opener::Bracket(_)
            | Opener::NameBracket(_)
            | Opener::TypeBracket(_)
            | Opener::Arguments(_, _)
            | Opener::Size(_, _, _) => {
                drop(opener);
                drop(value);
                ready(alloc)
            }
        }
    }

    /// A call of a constructor, or of something else.
    fn end_call(
        &mut self,
        alloc: Global,
        callee: Callee,
        arguments: Items<Exp>,
        pending: Items<Pending>,
    ) -> Result<Place, AllocError>
        ensures ended { IfOk result (λ next. (was : braces.Clause) (named : List ℕ) (before : plain.Reading) → view_blocks self.new next ≡ end_call (with_place self.old (was, named, before)) (plain.Called (view_callee callee) (map view_exp arguments) (view_open pending)) (constructed (view_callee callee) (exps_of (map view_exp arguments))) (view_open pending)) }
    {
        match callee {
            Callee::Own(own) => self.end_start(alloc, Stm::Construct(own, arguments), pending),
            Callee::OfObject(_, _)
            | Callee::OfClass(_, _)
            | Callee::Above(_, _)
            | Callee::Creation(_)
            | Callee::Helper => {
                self.end_value(alloc, Reading::Called(callee, arguments, pending))
            }
        }
    }

    /// A statement with the labels of its beginning, where it begins.
    fn end_start(
        &mut self,
        alloc: Global,
        statement: Stm,
        mut pending: Items<Pending>,
    ) -> Result<Place, AllocError>
        ensures ended { IfOk result (λ next. (was : braces.Clause) (named : List ℕ) (before : plain.Reading) → view_blocks self.new next ≡ end_start (with_place self.old (was, named, before)) (view_stm statement) (starting (view_open pending))) }
    {
        match take_start(&mut pending) {
            Ok(Some(labels)) => self.complete(alloc, statement, labels),
            Ok(None) => {
                drop(statement);
                ready(alloc)
            }
            Err(error) => {
                drop(statement);
                Err(error)
            }
        }
    }
}

/// The test of a `for` is read.
fn to_test(alloc: Global, labels: Items<u32>) -> Place
    ensures test { view_place result ≡ (braces.ForTest, reverse labels, plain.Wanted []) }
{
    Place {
        clause: Clause::ForTest,
        labels,
        reading: Reading::Wanted(Items::new(alloc)),
    }
}

/// The step of a `for` is read behind its test, where there is one.
fn to_step(alloc: Global, labels: Items<u32>, reading: Reading) -> Result<Place, AllocError>
    ensures step { IfOk result (λ next. (outer : List braces.Frame) (list : braces.Listed) (clause : braces.Clause) (before : plain.Reading) → put outer list (view_place next) ≡ to_step (put outer list (clause, reverse labels, before)) (value_in (view_reading reading))) }
{
    match value_in(alloc, reading)? {
        Some(test) => step_behind(alloc, labels, test),
        None => ready(alloc),
    }
}

/// The step of a `for` is read behind its test.
fn step_behind(alloc: Global, labels: Items<u32>, test: Exp) -> Result<Place, AllocError>
    ensures step { IfOk result (λ next. view_place next ≡ (braces.ForStep (view_exp test), reverse labels, beginning [])) }
{
    match beginning(alloc) {
        Ok(reading) => Ok(Place {
            clause: Clause::ForStep(test),
            labels,
            reading,
        }),
        Err(error) => {
            drop(test);
            Err(error)
        }
    }
}

/// The value that ends, where one does.
pub fn value_in(alloc: Global, reading: Reading) -> Result<Option<Exp>, AllocError>
    ensures value { IfOk result (λ value. option_map view_exp value ≡ value_in (view_reading reading)) }
{
    match reading.ended(alloc)? {
        Some(stands) => Ok(Some(stands.value)),
        None => Ok(None),
    }
}

/// A store to what a value tells: a variable, a field, a static field or an element.
fn store(target: Exp, value: Exp) -> Option<Stm>
    ensures stored { option_map view_stm result ≡ store (view_exp target) (view_exp value) }
{
    match target {
        Exp::Var(variable) => Some(Stm::Set(variable, value)),
        Exp::Field(object, name) => Some(Stm::SetField(object.into_inner(), name, value)),
        Exp::Static(class, name) => Some(Stm::SetStatic(class, name, value)),
        Exp::Element(array, index) => {
            Some(Stm::SetElement(array.into_inner(), index.into_inner(), value))
        }
        _ => {
            drop(target);
            drop(value);
            None
        }
    }
}

/// A `throw`, of a value or through the helper.
fn thrown(alloc: Global, reading: Reading) -> Result<Option<Stm>, AllocError>
    ensures thrown { IfOk result (λ statement. option_map view_stm statement ≡ thrown (view_reading reading)) }
{
    match reading {
        Reading::Called(callee, arguments, pending) => {
            throw_called(alloc, callee, arguments, pending)
        }
        Reading::Named(_, _)
        | Reading::Typed(_, _)
        | Reading::Sized(_, _, _, _)
        | Reading::Stands(_, _) => throw_of(alloc, reading),
        Reading::Wanted(_)
        | Reading::Negation(_)
        | Reading::Head(_)
        | Reading::Behind(_, _)
        | Reading::Declared(_, _, _)
        | Reading::Selecting(_, _)
        | Reading::Helping(_)
        | Reading::Lost => {
            drop(reading);
            Ok(None)
        }
    }
}

/// A `throw` of a call, or through the helper.
fn throw_called(
    alloc: Global,
    callee: Callee,
    arguments: Items<Exp>,
    pending: Items<Pending>,
) -> Result<Option<Stm>, AllocError>
    ensures thrown { IfOk result (λ statement. option_map view_stm statement ≡ thrown (plain.Called (view_callee callee) (map view_exp arguments) (view_open pending))) }
{
    match callee {
        Callee::Helper => Ok(rethrown(&arguments)),
        Callee::OfObject(_, _)
        | Callee::OfClass(_, _)
        | Callee::Above(_, _)
        | Callee::Creation(_)
        | Callee::Own(_) => throw_of(alloc, Reading::Called(callee, arguments, pending)),
    }
}

/// A `throw` of a value, where one ends.
fn throw_of(alloc: Global, reading: Reading) -> Result<Option<Stm>, AllocError>
    ensures thrown { IfOk result (λ statement. option_map view_stm statement ≡ option_map Throw (value_in (view_reading reading))) }
{
    match value_in(alloc, reading)? {
        Some(value) => Ok(Some(Stm::Throw(value))),
        None => Ok(None),
    }
}

/// The variable that a call of the helper throws.
fn rethrown(arguments: &Items<Exp>) -> Option<Stm>
    ensures thrown { option_map view_stm result ≡ rethrown (map view_exp arguments.now) }
{
    match arguments.as_slice() {
        [] => None,
        [first, ..] => match variable_in_value(first) {
            Some(variable) => Some(Stm::Rethrow(variable)),
            None => None,
        },
    }
}

/// A `break`, where a name stands.
fn break_of(reading: Reading) -> Option<Stm>
    ensures statement { option_map view_stm result ≡ option_map Break (label_in (view_reading reading)) }
{
    let label = label_in(&reading);
    drop(reading);
    match label {
        Some(label) => Some(Stm::Break(label)),
        None => None,
    }
}

/// A `continue`, where a name stands.
fn continue_of(reading: Reading) -> Option<Stm>
    ensures statement { option_map view_stm result ≡ option_map Continue (label_in (view_reading reading)) }
{
    let label = label_in(&reading);
    drop(reading);
    match label {
        Some(label) => Some(Stm::Continue(label)),
        None => None,
    }
}

/// The number of the label that a name is, where a name stands.
fn label_in(reading: &Reading) -> Option<u32>
    ensures label { result ≡ label_in (view_reading reading.now) }
{
    match reading {
        Reading::Named(name, _) => Some(name.number),
        Reading::Wanted(_)
        | Reading::Negation(_)
        | Reading::Head(_)
        | Reading::Behind(_, _)
        | Reading::Typed(_, _)
        | Reading::Sized(_, _, _, _)
        | Reading::Called(_, _, _)
        | Reading::Declared(_, _, _)
        | Reading::Selecting(_, _)
        | Reading::Stands(_, _)
        | Reading::Helping(_)
        | Reading::Lost => None,
    }
}
