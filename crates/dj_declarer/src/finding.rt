//! The walk that finds the variables of a tree.

ghost use Rattle.std.specs.Prelude.{◌≡◌, option_map, IfOk};
ghost use Rattle.dj_syntax.specs.Trees.{view_catches, view_exp, view_exps, view_groups, view_stm, view_stms};
ghost use Rattle.dj_declaring.specs.Occurring as spec;

use crate::found::note;
use dj_declaring::Found;
use dj_syntax::{Catch, Exp, Group, Stm};
use std::alloc::AllocError;

/// Finds the variables of an expression.
#[cycle(find_in_exp)]
pub fn find_in_exp(exp: &Exp, found: &mut Found) -> Result<(), AllocError>
    ensures found { IfOk result (λ _. found.new ≡ spec.exp_found (view_exp exp.now) found.old) }
{
    match exp {
        Exp::Int(_)
        | Exp::Long(_)
        | Exp::Text(_)
        | Exp::Bool(_)
        | Exp::Null
        | Exp::This
        | Exp::ClassOf(_)
        | Exp::Static(_, _) => Ok(()),
        Exp::Var(variable) => note(found, *variable),
        Exp::Field(object, _) => find_in_exp(object.get(), found),
        Exp::Element(array, index) => {
            find_in_exp(array.get(), found)?;
            find_in_exp(index.get(), found)
        }
        Exp::Call(object, _, arguments) => {
            find_in_exp(object.get(), found)?;
            find_in_exps(arguments.get().as_slice(), found)
        }
        Exp::StaticCall(_, _, arguments)
        | Exp::SuperCall(_, _, arguments)
        | Exp::New(_, arguments)
        | Exp::NewArray(_, arguments, _) => find_in_exps(arguments.get().as_slice(), found),
        Exp::Cast(_, operand)
        | Exp::InstanceOf(operand, _)
        | Exp::Negative(operand)
        | Exp::Not(operand) => find_in_exp(operand.get(), found),
        Exp::Binary(_, left, right) => {
            find_in_exp(left.get(), found)?;
            find_in_exp(right.get(), found)
        }
        Exp::Choice(test, first, second) => {
            find_in_exp(test.get(), found)?;
            find_in_exp(first.get(), found)?;
            find_in_exp(second.get(), found)
        }
        Exp::Assign(variable, value) => {
            note(found, *variable)?;
            find_in_exp(value.get(), found)
        }
    }
}

/// Finds the variables of expressions.
#[cycle(find_in_exp)]
fn find_in_exps(list: &[Exp], found: &mut Found) -> Result<(), AllocError>
    ensures found { IfOk result (λ _. found.new ≡ spec.exps_found (view_exps list.now) found.old) }
{
    for exp in list {
        find_in_exp(exp, found)?;
    }
    Ok(())
}

/// Finds the variables of expressions that stand in a statement.
fn find_in_arguments(list: &[Exp], found: &mut Found) -> Result<(), AllocError>
    ensures found { IfOk result (λ _. found.new ≡ spec.exps_found (view_exps list.now) found.old) }
{
    find_in_exps(list, found)
}

/// Finds the variables of an expression that may be left out.
fn find_in_option(exp: &Option<Exp>, found: &mut Found) -> Result<(), AllocError>
    ensures found { IfOk result (λ _. found.new ≡ spec.option_found (option_map view_exp exp.now) found.old) }
{
    match exp {
        None => Ok(()),
        Some(exp) => find_in_exp(exp, found),
    }
}

/// Finds the variables of a statement.
#[cycle(find_in_stm)]
pub fn find_in_stm(statement: &Stm, found: &mut Found) -> Result<(), AllocError>
    ensures found { IfOk result (λ _. found.new ≡ spec.stm_found (view_stm statement.now) found.old) }
{
    match statement {
        Stm::Block(list) => find_in_list(list.as_slice(), found),
        Stm::Labelled(_, inner) => find_in_stm(inner.get(), found),
        Stm::Declare(variable, _, value) => {
            note(found, *variable)?;
            find_in_option(value, found)
        }
        Stm::Set(variable, value) => {
            note(found, *variable)?;
            find_in_exp(value, found)
        }
        Stm::SetField(object, _, value) => {
            find_in_exp(object, found)?;
            find_in_exp(value, found)
        }
        Stm::SetStatic(_, _, value) | Stm::Run(value) | Stm::Throw(value) => {
            find_in_exp(value, found)
        }
        Stm::SetElement(array, index, value) => {
            find_in_exp(array, found)?;
            find_in_exp(index, found)?;
            find_in_exp(value, found)
        }
        Stm::If(test, first, second) => {
            find_in_exp(test, found)?;
            find_in_list(first.as_slice(), found)?;
            find_in_list(second.as_slice(), found)
        }
        Stm::While(test, body) => {
            find_in_exp(test, found)?;
            find_in_list(body.as_slice(), found)
        }
        Stm::Switch(on, groups) => {
            find_in_exp(on, found)?;
            find_in_groups(groups.as_slice(), found)
        }
        Stm::Break(_) | Stm::Continue(_) => Ok(()),
        Stm::Return(value) => find_in_option(value, found),
        Stm::Rethrow(variable) => note(found, *variable),
        Stm::Try(body, clauses) => {
            find_in_list(body.as_slice(), found)?;
            find_in_clauses(clauses.as_slice(), found)
        }
        Stm::Synchronized(monitor, body) => {
            find_in_exp(monitor, found)?;
            find_in_list(body.as_slice(), found)
        }
        Stm::Construct(_, arguments) => find_in_arguments(arguments.as_slice(), found),
        Stm::Do(body, test) => {
            find_in_list(body.as_slice(), found)?;
            find_in_exp(test, found)
        }
        Stm::For(test, variable, step, body) => {
            find_in_exp(test, found)?;
            note(found, *variable)?;
            find_in_exp(step, found)?;
            find_in_list(body.as_slice(), found)
        }
        Stm::Finally(body, last) => {
            find_in_list(body.as_slice(), found)?;
            find_in_list(last.as_slice(), found)
        }
    }
}

/// Finds the variables of statements.
#[cycle(find_in_stm)]
pub fn find_in_list(list: &[Stm], found: &mut Found) -> Result<(), AllocError>
    ensures found { IfOk result (λ _. found.new ≡ spec.stms_found (view_stms list.now) found.old) }
{
    for statement in list {
        find_in_stm(statement, found)?;
    }
    Ok(())
}

/// Finds the variables of the groups of a switch.
#[cycle(find_in_stm)]
fn find_in_groups(groups: &[Group], found: &mut Found) -> Result<(), AllocError>
    ensures found { IfOk result (λ _. found.new ≡ spec.groups_found (view_groups groups.now) found.old) }
{
    for group in groups {
        find_in_list(group.body.as_slice(), found)?;
    }
    Ok(())
}

/// Finds the variables of catch clauses.
#[cycle(find_in_stm)]
fn find_in_clauses(clauses: &[Catch], found: &mut Found) -> Result<(), AllocError>
    ensures found { IfOk result (λ _. found.new ≡ spec.catches_found (view_catches clauses.now) found.old) }
{
    for clause in clauses {
        note(found, clause.variable)?;
        find_in_list(clause.body.as_slice(), found)?;
    }
    Ok(())
}
