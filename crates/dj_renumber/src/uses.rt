//! The walk that lists the numbers that a text uses.

ghost use Rattle.std.specs.Prelude.{◌≡◌, option_map, IfOk};
ghost use Rattle.dj_syntax.specs.Trees.{view_catches, view_exp, view_exps, view_groups, view_stm, view_stms};
ghost use Rattle.dj_numbered.specs.Numbering as spec;
ghost use Rattle.dj_renumber.specs.Views.{view_used};

use crate::used::{Used, use_label, use_variable};
use dj_syntax::{Catch, Exp, Group, Stm};
use std::alloc::AllocError;

/// Lists the numbers in an expression.
#[cycle(use_in_exp)]
pub fn use_in_exp(exp: &Exp, used: &mut Used) -> Result<(), AllocError>
    ensures used { IfOk result (λ _. view_used used.new ≡ spec.exp_used (view_exp exp.now) (view_used used.old)) }
{
    match exp {
        Exp::Int(_)
        | Exp::Long(_)
        | Exp::Text(_)
        | Exp::Bool(_)
        | Exp::Null
        | Exp::This
        | Exp::ClassOf(_)
        | Exp::Static(_, _) => Ok(()),
        Exp::Var(variable) => use_variable(used, *variable),
        Exp::Field(object, _) => use_in_exp(object.get(), used),
        Exp::Element(array, index) => {
            use_in_exp(array.get(), used)?;
            use_in_exp(index.get(), used)
        }
        Exp::Call(object, _, arguments) => {
            use_in_exp(object.get(), used)?;
            use_in_exps(arguments.get().as_slice(), used)
        }
        Exp::StaticCall(_, _, arguments)
        | Exp::SuperCall(_, _, arguments)
        | Exp::New(_, arguments)
        | Exp::NewArray(_, arguments, _) => use_in_exps(arguments.get().as_slice(), used),
        Exp::Cast(_, operand)
        | Exp::InstanceOf(operand, _)
        | Exp::Negative(operand)
        | Exp::Not(operand) => use_in_exp(operand.get(), used),
        Exp::Binary(_, left, right) => {
            use_in_exp(left.get(), used)?;
            use_in_exp(right.get(), used)
        }
        Exp::Choice(test, first, second) => {
            use_in_exp(test.get(), used)?;
            use_in_exp(first.get(), used)?;
            use_in_exp(second.get(), used)
        }
        Exp::Assign(variable, value) => {
            use_variable(used, *variable)?;
            use_in_exp(value.get(), used)
        }
    }
}

/// Lists the numbers in expressions.
#[cycle(use_in_exp)]
fn use_in_exps(list: &[Exp], used: &mut Used) -> Result<(), AllocError>
    ensures used { IfOk result (λ _. view_used used.new ≡ spec.exps_used (view_exps list.now) (view_used used.old)) }
{
    for exp in list {
        use_in_exp(exp, used)?;
    }
    Ok(())
}

/// Lists the numbers in expressions that stand in a statement.
fn use_in_arguments(list: &[Exp], used: &mut Used) -> Result<(), AllocError>
    ensures used { IfOk result (λ _. view_used used.new ≡ spec.exps_used (view_exps list.now) (view_used used.old)) }
{
    use_in_exps(list, used)
}

/// Lists the numbers in an expression that may be left out.
fn use_in_option(exp: &Option<Exp>, used: &mut Used) -> Result<(), AllocError>
    ensures used { IfOk result (λ _. view_used used.new ≡ spec.option_used (option_map view_exp exp.now) (view_used used.old)) }
{
    match exp {
        None => Ok(()),
        Some(exp) => use_in_exp(exp, used),
    }
}

/// Lists the numbers in a statement.
#[cycle(use_in_stm)]
pub fn use_in_stm(statement: &Stm, used: &mut Used) -> Result<(), AllocError>
    ensures used { IfOk result (λ _. view_used used.new ≡ spec.stm_used (view_stm statement.now) (view_used used.old)) }
{
    match statement {
        Stm::Block(list) => use_in_list(list.as_slice(), used),
        Stm::Labelled(label, inner) => {
            use_label(used, *label)?;
            use_in_stm(inner.get(), used)
        }
        Stm::Declare(variable, _, value) => {
            use_variable(used, *variable)?;
            use_in_option(value, used)
        }
        Stm::Set(variable, value) => {
            use_variable(used, *variable)?;
            use_in_exp(value, used)
        }
        Stm::SetField(object, _, value) => {
            use_in_exp(object, used)?;
            use_in_exp(value, used)
        }
        Stm::SetStatic(_, _, value) | Stm::Run(value) | Stm::Throw(value) => {
            use_in_exp(value, used)
        }
        Stm::SetElement(array, index, value) => {
            use_in_exp(array, used)?;
            use_in_exp(index, used)?;
            use_in_exp(value, used)
        }
        Stm::If(test, first, second) => {
            use_in_exp(test, used)?;
            use_in_list(first.as_slice(), used)?;
            use_in_list(second.as_slice(), used)
        }
        Stm::While(test, body) => {
            use_in_exp(test, used)?;
            use_in_list(body.as_slice(), used)
        }
        Stm::Switch(on, groups) => {
            use_in_exp(on, used)?;
            use_in_groups(groups.as_slice(), used)
        }
        Stm::Break(label) | Stm::Continue(label) => use_label(used, *label),
        Stm::Return(value) => use_in_option(value, used),
        Stm::Rethrow(variable) => use_variable(used, *variable),
        Stm::Try(body, clauses) => {
            use_in_list(body.as_slice(), used)?;
            use_in_clauses(clauses.as_slice(), used)
        }
        Stm::Synchronized(monitor, body) => {
            use_in_exp(monitor, used)?;
            use_in_list(body.as_slice(), used)
        }
        Stm::Construct(_, arguments) => use_in_arguments(arguments.as_slice(), used),
        Stm::Do(body, test) => {
            use_in_list(body.as_slice(), used)?;
            use_in_exp(test, used)
        }
        Stm::For(test, variable, step, body) => {
            use_in_exp(test, used)?;
            use_variable(used, *variable)?;
            use_in_exp(step, used)?;
            use_in_list(body.as_slice(), used)
        }
        Stm::Finally(body, last) => {
            use_in_list(body.as_slice(), used)?;
            use_in_list(last.as_slice(), used)
        }
    }
}

/// Lists the numbers in statements.
#[cycle(use_in_stm)]
pub fn use_in_list(list: &[Stm], used: &mut Used) -> Result<(), AllocError>
    ensures used { IfOk result (λ _. view_used used.new ≡ spec.stms_used (view_stms list.now) (view_used used.old)) }
{
    for statement in list {
        use_in_stm(statement, used)?;
    }
    Ok(())
}

/// Lists the numbers in the groups of a switch.
#[cycle(use_in_stm)]
fn use_in_groups(groups: &[Group], used: &mut Used) -> Result<(), AllocError>
    ensures used { IfOk result (λ _. view_used used.new ≡ spec.groups_used (view_groups groups.now) (view_used used.old)) }
{
    for group in groups {
        use_in_list(group.body.as_slice(), used)?;
    }
    Ok(())
}

/// Lists the numbers in catch clauses.
#[cycle(use_in_stm)]
fn use_in_clauses(clauses: &[Catch], used: &mut Used) -> Result<(), AllocError>
    ensures used { IfOk result (λ _. view_used used.new ≡ spec.catches_used (view_catches clauses.now) (view_used used.old)) }
{
    for clause in clauses {
        use_variable(used, clause.variable)?;
        use_in_list(clause.body.as_slice(), used)?;
    }
    Ok(())
}
