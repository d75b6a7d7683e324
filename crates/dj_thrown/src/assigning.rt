//! Which parts of a body give a variable a value, or declare it anew (JLS 4.12.4).

ghost use Rattle.std.specs.Prelude.{◌≡◌};
ghost use Rattle.std.specs.Option.{option_map};
ghost use Rattle.dj_syntax.specs.Trees.{view_catches, view_exp, view_exps, view_groups, view_stm, view_stms};
ghost use Rattle.dj_thrown.specs.Assigning as spec;

use crate::throwing::is_same_variable;
use dj_syntax::{Catch, Exp, Group, Stm, Var};

/// Whether an expression does.
#[cycle(exp_sets)]
fn exp_sets(wanted: Var, exp: &Exp) -> bool
    ensures sets { result ≡ spec.exp_sets wanted (view_exp exp.now) }
{
    match exp {
        Exp::Int(_)
        | Exp::Long(_)
        | Exp::Text(_)
        | Exp::Bool(_)
        | Exp::Null
        | Exp::This
        | Exp::Var(_)
        | Exp::ClassOf(_)
        | Exp::Static(_, _) => false,
        Exp::Field(operand, _)
        | Exp::Cast(_, operand)
        | Exp::InstanceOf(operand, _)
        | Exp::Negative(operand)
        | Exp::Not(operand) => exp_sets(wanted, operand.get()),
        Exp::Element(first, second) | Exp::Binary(_, first, second) => {
            exp_sets(wanted, first.get()) || exp_sets(wanted, second.get())
        }
        Exp::Call(object, _, arguments) => {
            exp_sets(wanted, object.get()) || exps_set(wanted, arguments.get().as_slice())
        }
        Exp::StaticCall(_, _, list)
        | Exp::SuperCall(_, _, list)
        | Exp::New(_, list)
        | Exp::NewArray(_, list, _) => exps_set(wanted, list.get().as_slice()),
        Exp::Choice(test, first, second) => {
            exp_sets(wanted, test.get())
                || exp_sets(wanted, first.get())
                || exp_sets(wanted, second.get())
        }
        Exp::Assign(variable, new) => {
            is_same_variable(*variable, wanted) || exp_sets(wanted, new.get())
        }
    }
}

/// Whether one of these expressions does.
#[cycle(exp_sets)]
fn exps_set(wanted: Var, list: &[Exp]) -> bool
    ensures sets { result ≡ spec.exps_set wanted (view_exps list.now) }
{
    for exp in list {
        if exp_sets(wanted, exp) {
            return true;
        }
    }
    false
}

/// Whether an expression does, where there is one.
fn option_sets(wanted: Var, exp: &Option<Exp>) -> bool
    ensures sets { result ≡ spec.option_sets wanted (option_map view_exp exp.now) }
{
    match exp {
        None => false,
        Some(exp) => exp_sets(wanted, exp),
    }
}

/// Whether a statement does.
#[cycle(sets)]
fn sets(wanted: Var, statement: &Stm) -> bool
    ensures sets { result ≡ spec.sets wanted (view_stm statement.now) }
{
    match statement {
        Stm::Block(list) => list_sets(wanted, list.as_slice()),
        Stm::Labelled(_, statement) => sets(wanted, statement.get()),
        Stm::Declare(variable, _, initial) => {
            is_same_variable(*variable, wanted) || option_sets(wanted, initial)
        }
        Stm::Set(variable, new) => is_same_variable(*variable, wanted) || exp_sets(wanted, new),
        Stm::SetField(object, _, new) => exp_sets(wanted, object) || exp_sets(wanted, new),
        Stm::SetStatic(_, _, value) | Stm::Run(value) | Stm::Throw(value) => {
            exp_sets(wanted, value)
        }
        Stm::SetElement(array, index, new) => {
            exp_sets(wanted, array) || exp_sets(wanted, index) || exp_sets(wanted, new)
        }
        Stm::If(test, first, second) => {
            exp_sets(wanted, test)
                || list_sets(wanted, first.as_slice())
                || list_sets(wanted, second.as_slice())
        }
        Stm::While(operand, body) | Stm::Synchronized(operand, body) => {
            exp_sets(wanted, operand) || list_sets(wanted, body.as_slice())
        }
        Stm::Switch(on, groups) => exp_sets(wanted, on) || groups_set(wanted, groups.as_slice()),
        Stm::Break(_) | Stm::Continue(_) | Stm::Rethrow(_) => false,
        Stm::Return(result) => option_sets(wanted, result),
        Stm::Try(body, catches) => {
            list_sets(wanted, body.as_slice()) || catches_set(wanted, catches.as_slice())
        }
        Stm::Construct(_, arguments) => exps_set(wanted, arguments.as_slice()),
        Stm::Do(body, test) => list_sets(wanted, body.as_slice()) || exp_sets(wanted, test),
        Stm::For(test, variable, next, body) => {
            is_same_variable(*variable, wanted)
                || exp_sets(wanted, test)
                || exp_sets(wanted, next)
                || list_sets(wanted, body.as_slice())
        }
        Stm::Finally(body, last) => {
            list_sets(wanted, body.as_slice()) || list_sets(wanted, last.as_slice())
        }
    }
}

/// Whether one of these statements does.
#[cycle(sets)]
pub fn list_sets(wanted: Var, list: &[Stm]) -> bool
    ensures sets { result ≡ spec.list_sets wanted (view_stms list.now) }
{
    for statement in list {
        if sets(wanted, statement) {
            return true;
        }
    }
    false
}

/// Whether one of the groups of a switch does.
#[cycle(sets)]
fn groups_set(wanted: Var, groups: &[Group]) -> bool
    ensures sets { result ≡ spec.groups_set wanted (view_groups groups.now) }
{
    for group in groups {
        if list_sets(wanted, group.body.as_slice()) {
            return true;
        }
    }
    false
}

/// Whether one of these catch clauses does.
#[cycle(sets)]
fn catches_set(wanted: Var, catches: &[Catch]) -> bool
    ensures sets { result ≡ spec.catches_set wanted (view_catches catches.now) }
{
    for catch in catches {
        if is_same_variable(catch.variable, wanted) || list_sets(wanted, catch.body.as_slice()) {
            return true;
        }
    }
    false
}
