//! How far an expression is read (JLS 15).

ghost use Rattle.std.specs.Prelude.{◌≡◌, ◌∷◌, if◌then◌else◌, IfOk, MatchResult, None, Some, option_map};
ghost use Rattle.dj_names.specs.Types.{view_type};
ghost use Rattle.dj_syntax.specs.Trees.{InstanceOf, view_exp};
ghost use Rattle.dj_grammar.specs.Frames.{Joins, Negated, Sign, collapsed, testing};
ghost use Rattle.dj_grammar.specs.Readings.{Lost, Typed, Wanted, ended, named_value, standing, wanted, wanted_open};
ghost use Rattle.dj_tokens.specs.Dotted.{type_of_name, value_of};
ghost use Rattle.dj_tokens.specs.DottedViews.{view_name};
ghost use Rattle.dj_expressions.specs.Views.{view_joint, view_open, view_reading, view_standing};

use crate::frames::{Callee, Joint, Pending, Standing, called, discard, new_array, take_test};
use dj_names::{Boxed, Items, JType};
use dj_syntax::{Exp, Var};
use dj_tokens::DottedName;
use std::alloc::{AllocError, Global};

/// How far an expression is read, with what is open around it, the innermost last.
#[derive(Drop)]
pub enum Reading {
    /// An operand is wanted.
    Wanted(Items<Pending>),
    /// An operand is wanted behind a minus sign.
    Negation(Items<Pending>),
    /// A parenthesis is to be passed over first.
    Head(Items<Pending>),
    /// A name stands.
    Named(DottedName, Items<Pending>),
    /// A name and a dot stand.
    Behind(DottedName, Items<Pending>),
    /// A type with brackets stands.
    Typed(JType, Items<Pending>),
    /// A new array stands: its type, its sizes and the pairs of brackets behind them.
    Sized(JType, Items<Exp>, u32, Items<Pending>),
    /// A call stands.
    Called(Callee, Items<Exp>, Items<Pending>),
    /// The type and the variable of a declaration stand.
    Declared(JType, Var, Items<Pending>),
    /// A value and a dot stand.
    Selecting(Exp, Items<Pending>),
    /// A value stands.
    Stands(Exp, Items<Pending>),
    /// The words before a call of the helper are passed over.
    Helping(Items<Pending>),
    /// No expression has these words.
    Lost,
}

impl Reading {
    /// No expression has the words that were read.
    pub fn lost(self) -> Reading
        ensures lost { view_reading result ≡ Lost }
    {
        discard(self);
        Reading::Lost
    }

    /// What is open where an operand is wanted, or the reading.
    pub fn into_wanted(self) -> Result<Items<Pending>, Reading>
        ensures parts { MatchResult result (λ pending. view_reading self ≡ Wanted (view_open pending)) (λ other. (other ≡ self) × (wanted_open (view_reading self) ≡ None)) }
    {
        match self {
            Reading::Wanted(pending) => Ok(pending),
            Reading::Negation(_)
            | Reading::Head(_)
            | Reading::Named(_, _)
            | Reading::Behind(_, _)
            | Reading::Typed(_, _)
            | Reading::Sized(_, _, _, _)
            | Reading::Called(_, _, _)
            | Reading::Declared(_, _, _)
            | Reading::Selecting(_, _)
            | Reading::Stands(_, _)
            | Reading::Helping(_)
            | Reading::Lost => Err(self),
        }
    }

    /// What is open where an operand is wanted, which may be a number: a minus sign before one is its sign.
    pub fn wanted(self, number: bool) -> Result<Option<Items<Pending>>, AllocError>
        ensures wanted { IfOk result (λ pending. option_map view_open pending ≡ wanted (if number then Sign else Negated) (view_reading self)) }
    {
        match self {
            Reading::Wanted(pending) => Ok(Some(pending)),
            Reading::Negation(pending) => behind_minus(pending, number),
            Reading::Head(_)
            | Reading::Named(_, _)
            | Reading::Behind(_, _)
            | Reading::Typed(_, _)
            | Reading::Sized(_, _, _, _)
            | Reading::Called(_, _, _)
            | Reading::Declared(_, _, _)
            | Reading::Selecting(_, _)
            | Reading::Stands(_, _)
            | Reading::Helping(_)
            | Reading::Lost => {
                discard(self);
                Ok(None)
            }
        }
    }

    /// The value that stands, where one does, and what is open around it.
    pub fn standing(self, alloc: Global) -> Result<Option<Standing>, AllocError>
        ensures standing { IfOk result (λ stands. option_map view_standing stands ≡ standing (view_reading self)) }
    {
        match self {
            Reading::Named(name, pending) => Ok(Some(named_value(alloc, name, pending)?)),
            Reading::Typed(kind, pending) => typed_value(alloc, kind, pending),
            Reading::Sized(kind, sizes, more, pending) => {
                let value = new_array(alloc, kind, sizes, more)?;
                Ok(Some(Standing { value, pending }))
            }
            Reading::Called(callee, arguments, pending) => {
                let value = called(alloc, callee, arguments)?;
                Ok(Some(Standing { value, pending }))
            }
            Reading::Stands(value, pending) => Ok(Some(Standing { value, pending })),
            Reading::Wanted(_)
            | Reading::Negation(_)
            | Reading::Head(_)
            | Reading::Behind(_, _)
            | Reading::Declared(_, _, _)
            | Reading::Selecting(_, _)
            | Reading::Helping(_)
            | Reading::Lost => {
                discard(self);
                Ok(None)
            }
        }
    }

    /// The expression that ends here, where one does, and what is open around it.
    pub fn ended(self, alloc: Global) -> Result<Option<Standing>, AllocError>
        ensures ended { IfOk result (λ end. option_map view_standing end ≡ ended (view_reading self)) }
    {
        let stands = self.standing(alloc)?;
        let end = collapsed(alloc, stands)?;
        Ok(end)
    }
}

/// The expression that ends, where a value stands.
fn collapsed(alloc: Global, stands: Option<Standing>) -> Result<Option<Standing>, AllocError>
    ensures collapsed { IfOk result (λ end. option_map view_standing end ≡ option_map (λ stands. collapsed stands.0 stands.1) (option_map view_standing stands)) }
{
    match stands {
        None => Ok(None),
        Some(stands) => {
            let end = stands.collapsed(alloc)?;
            Ok(Some(end))
        }
    }
}

/// What a minus sign waits as: a number's sign, or an operator.
fn minus_of(number: bool) -> Joint
    ensures minus { view_joint result ≡ (if number then Sign else Negated) }
{
    if number { Joint::Sign } else { Joint::Negated }
}

/// What is open where an operand is wanted behind a minus sign, which waits for it.
fn behind_minus(
    mut pending: Items<Pending>,
    number: bool,
) -> Result<Option<Items<Pending>>, AllocError>
    ensures waits { IfOk result (λ waiting. option_map view_open waiting ≡ Some (Joins (if number then Sign else Negated) ∷ view_open pending)) }
{
    match pending.push(Pending::Joins(minus_of(number))) {
        Ok(()) => Ok(Some(pending)),
        Err(error) => {
            discard(pending);
            Err(error)
        }
    }
}

/// A test of a value's type.
fn type_test(alloc: Global, operand: Exp, kind: JType) -> Result<Exp, AllocError>
    ensures test { IfOk result (λ made. view_exp made ≡ InstanceOf (view_exp operand) (view_type kind)) }
{
    let operand = Boxed::new(alloc, operand)?;
    Ok(Exp::InstanceOf(operand, kind))
}

/// The value of a name, or the type test that it ends.
fn named_value(
    alloc: Global,
    name: DottedName,
    mut pending: Items<Pending>,
) -> Result<Standing, AllocError>
    ensures value { IfOk result (λ stands. view_standing stands ≡ named_value (view_name name) (view_open pending) (testing (view_open pending))) }
{
    match take_test(&mut pending) {
        Ok(None) => plain_value(alloc, name, pending),
        Ok(Some(operand)) => tested_by_name(alloc, operand, name, pending),
        Err(error) => {
            discard(name);
            discard(pending);
            Err(error)
        }
    }
}

/// The value of a name that ends no type test.
fn plain_value(
    alloc: Global,
    name: DottedName,
    pending: Items<Pending>,
) -> Result<Standing, AllocError>
    ensures value { IfOk result (λ stands. view_standing stands ≡ (value_of (view_name name), view_open pending)) }
{
    match name.into_value(alloc) {
        Ok(value) => Ok(Standing { value, pending }),
        Err(error) => {
            discard(pending);
            Err(error)
        }
    }
}

/// A test of a value's type, which a name names.
fn tested_by_name(
    alloc: Global,
    operand: Exp,
    name: DottedName,
    pending: Items<Pending>,
) -> Result<Standing, AllocError>
    ensures tested { IfOk result (λ stands. view_standing stands ≡ (InstanceOf (view_exp operand) (type_of_name (view_name name)), view_open pending)) }
{
    match name.into_type(alloc) {
        Ok(kind) => tested(alloc, operand, kind, pending),
        Err(error) => {
            discard(operand);
            discard(pending);
            Err(error)
        }
    }
}

/// A test of a value's type stands.
fn tested(
    alloc: Global,
    operand: Exp,
    kind: JType,
    pending: Items<Pending>,
) -> Result<Standing, AllocError>
    ensures tested { IfOk result (λ stands. view_standing stands ≡ (InstanceOf (view_exp operand) (view_type kind), view_open pending)) }
{
    match type_test(alloc, operand, kind) {
        Ok(value) => Ok(Standing { value, pending }),
        Err(error) => {
            discard(pending);
            Err(error)
        }
    }
}

/// The type test that a type ends, where it ends one.
fn typed_value(
    alloc: Global,
    kind: JType,
    mut pending: Items<Pending>,
) -> Result<Option<Standing>, AllocError>
    ensures value { IfOk result (λ stands. option_map view_standing stands ≡ standing (Typed (view_type kind) (view_open pending))) }
{
    match take_test(&mut pending) {
        Ok(None) => {
            discard(kind);
            Ok(None)
        }
        Ok(Some(operand)) => {
            let stands = tested(alloc, operand, kind, pending)?;
            Ok(Some(stands))
        }
        Err(error) => {
            discard(kind);
            discard(pending);
            Err(error)
        }
    }
}
