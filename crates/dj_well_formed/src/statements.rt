//! Statements of a body (JLS 14).

ghost use Rattle.std.specs.Prelude.{◌≡◌, ◌≢◌, ◌↔◌, ◌+◌, ◌<◌, ◌||◌, [], drop, length, not, IsTrue};
ghost use Rattle.std.specs.List.{AllByRecursion};
ghost use Rattle.dj_syntax.specs.Trees.{view_catches, view_groups, view_stm, view_stms};
ghost use Rattle.dj_syntax.specs.UnitText.{is_empty};
ghost use Rattle.dj_syntax.specs.WellFormed.{AreWellFormedCatches, AreWellFormedGroups, AreWellFormedStms, IsCase, IsWellFormedStm, has_no_catch, has_no_group, is_declaration};

use crate::expressions::{
    are_well_formed_exps, is_call, is_int, is_number, is_variable, is_well_formed_exp,
    is_well_formed_value,
};
use crate::names::{is_named, is_qualified};
use dj_names::{is_identifier, is_sayable};
use dj_syntax::{Catch, Group, Stm};

/// Whether each statement is well formed, given whether the unit has a helper.
#[cycle(statement)]
pub fn are_well_formed_stms(list: &[Stm], helper: bool) -> bool
    ensures well_formed { IsTrue result ↔ AreWellFormedStms helper (view_stms list.now) }
{
    for statement in list {
        if !is_well_formed_stm(statement, helper) {
            return false;
        }
    }
    true
}

/// Whether a statement is well formed, given whether the unit has a helper.
#[cycle(statement)]
fn is_well_formed_stm(statement: &Stm, helper: bool) -> bool
    ensures well_formed { IsTrue result ↔ IsWellFormedStm helper (view_stm statement.now) }
{
    match statement {
        Stm::Block(list) => are_well_formed_stms(list.as_slice(), helper),
        Stm::Labelled(label, inner) => {
            is_number(*label)
                && !is_declaration(inner.get())
                && is_well_formed_stm(inner.get(), helper)
        }
        Stm::Declare(variable, kind, value) => {
            is_variable(*variable) && is_named(kind) && is_well_formed_value(value)
        }
        Stm::Set(variable, value) => is_variable(*variable) && is_well_formed_exp(value),
        Stm::SetField(object, name, value) => {
            is_well_formed_exp(object) && is_identifier(name) && is_well_formed_exp(value)
        }
        Stm::SetStatic(class, name, value) => {
            is_sayable(class.as_slice()) && is_identifier(name) && is_well_formed_exp(value)
        }
        Stm::SetElement(array, index, value) => {
            is_well_formed_exp(array) && is_well_formed_exp(index) && is_well_formed_exp(value)
        }
        Stm::Run(call) => is_call(call) && is_well_formed_exp(call),
        Stm::If(test, first, second) => {
            is_well_formed_exp(test)
                && are_well_formed_stms(first.as_slice(), helper)
                && are_well_formed_stms(second.as_slice(), helper)
        }
        Stm::While(test, body) => {
            is_well_formed_exp(test) && are_well_formed_stms(body.as_slice(), helper)
        }
        Stm::Switch(value, groups) => {
            is_well_formed_exp(value)
                && !has_no_group(groups.as_slice())
                && are_well_formed_groups(groups.as_slice(), helper)
        }
        Stm::Break(label) => is_number(*label),
        Stm::Continue(label) => is_number(*label),
        Stm::Return(value) => is_well_formed_value(value),
        Stm::Throw(value) => is_well_formed_exp(value),
        Stm::Rethrow(variable) => helper && is_variable(*variable),
        Stm::Try(body, catches) => {
            are_well_formed_stms(body.as_slice(), helper)
                && !has_no_catch(catches.as_slice())
                && are_well_formed_catches(catches.as_slice(), helper)
        }
        Stm::Synchronized(monitor, body) => {
            is_well_formed_exp(monitor) && are_well_formed_stms(body.as_slice(), helper)
        }
        Stm::Construct(_, arguments) => are_well_formed_exps(arguments.as_slice()),
        Stm::Do(body, test) => {
            are_well_formed_stms(body.as_slice(), helper) && is_well_formed_exp(test)
        }
        Stm::For(test, variable, step, body) => {
            is_well_formed_exp(test)
                && is_variable(*variable)
                && is_well_formed_exp(step)
                && are_well_formed_stms(body.as_slice(), helper)
        }
        Stm::Finally(body, last) => {
            are_well_formed_stms(body.as_slice(), helper)
                && are_well_formed_stms(last.as_slice(), helper)
        }
    }
}

/// Whether each group has a label, and each but the last a statement, and all are well formed.
#[cycle(statement)]
fn are_well_formed_groups(list: &[Group], helper: bool) -> bool
    ensures well_formed { IsTrue result ↔ AreWellFormedGroups helper (view_groups list.now) }
{
    for (index, group) in list.iter().enumerate() {
        let last = is_last(list, index);
        if !is_well_formed_group(group, helper, last) {
            return false;
        }
    }
    true
}

/// Whether a group has a label, and unless it is the last a statement, and is well formed.
#[cycle(statement)]
fn is_well_formed_group(group: &Group, helper: bool, last: bool) -> bool
    ensures well_formed { IsTrue result ↔ ((group.now.labels ≢ []) × AllByRecursion IsCase group.now.labels × IsTrue (not (is_empty (view_stms group.now.body)) || last) × AreWellFormedStms helper (view_stms group.now.body)) }
{
    has_cases(group.labels.as_slice())
        && goes_on(group.body.as_slice(), last)
        && are_well_formed_stms(group.body.as_slice(), helper)
}

/// Whether each catch clause is well formed.
#[cycle(statement)]
fn are_well_formed_catches(list: &[Catch], helper: bool) -> bool
    ensures well_formed { IsTrue result ↔ AreWellFormedCatches helper (view_catches list.now) }
{
    for catch in list {
        if !is_qualified(catch.class.as_slice())
            || !is_variable(catch.variable)
            || !are_well_formed_stms(catch.body.as_slice(), helper)
        {
            return false;
        }
    }
    true
}

/// Whether a statement declares a variable.
fn is_declaration(statement: &Stm) -> bool
    ensures declaration { result ≡ is_declaration (view_stm statement.now) }
{
    match statement {
        Stm::Declare(_, _, _) => true,
        Stm::Block(_)
        | Stm::Labelled(_, _)
        | Stm::Set(_, _)
        | Stm::SetField(_, _, _)
        | Stm::SetStatic(_, _, _)
        | Stm::SetElement(_, _, _)
        | Stm::Run(_)
        | Stm::If(_, _, _)
        | Stm::While(_, _)
        | Stm::Switch(_, _)
        | Stm::Break(_)
        | Stm::Continue(_)
        | Stm::Return(_)
        | Stm::Throw(_)
        | Stm::Rethrow(_)
        | Stm::Try(_, _)
        | Stm::Synchronized(_, _)
        | Stm::Construct(_, _)
        | Stm::Do(_, _)
        | Stm::For(_, _, _, _)
        | Stm::Finally(_, _) => false,
    }
}

/// Whether a switch has no group.
fn has_no_group(list: &[Group]) -> bool
    ensures none { result ≡ has_no_group (view_groups list.now) }
{
    list.is_empty()
}

/// Whether a try has no catch clause.
fn has_no_catch(list: &[Catch]) -> bool
    ensures none { result ≡ has_no_catch (view_catches list.now) }
{
    list.is_empty()
}

/// Whether no group is behind the one at this index.
fn is_last(list: &[Group], index: usize) -> bool
    requires inside { index < length list.now }
    ensures last { result ≡ has_no_group (view_groups (drop (index + 1) list.now)) }
{
    index + 1 == list.len()
}

/// Whether a group may have these statements: some, unless it is the last.
fn goes_on(body: &[Stm], last: bool) -> bool
    ensures goes_on { result ≡ (not (is_empty (view_stms body.now)) || last) }
{
    !is_empty(body) || last
}

/// Whether a list has no statement.
fn is_empty(list: &[Stm]) -> bool
    ensures empty { result ≡ is_empty (view_stms list.now) }
{
    list.is_empty()
}

/// Whether there is a label, and each is one of a switch.
fn has_cases(labels: &[Option<i32>]) -> bool
    ensures cases { IsTrue result ↔ ((labels.now ≢ []) × AllByRecursion IsCase labels.now) }
{
    match labels {
        [] => false,
        [_, ..] => are_cases(labels),
    }
}

/// Whether each label is one of a switch.
fn are_cases(labels: &[Option<i32>]) -> bool
    ensures cases { IsTrue result ↔ AllByRecursion IsCase labels.now }
{
    labels.iter().all(|label| is_case(*label))
}

/// Each number of 32 bits is a label of a switch, and so is `default`.
fn is_case(label: Option<i32>) -> bool
    ensures case { IsTrue result ↔ IsCase label }
{
    match label {
        None => true,
        Some(number) => is_int(number),
    }
}
