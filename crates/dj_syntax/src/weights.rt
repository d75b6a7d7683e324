//! The weight of a statement: how many statements and expressions it has.

ghost use Rattle.std.specs.Prelude.{◌≡◌, ◌+◌, option_map};
ghost use Rattle.dj_syntax.specs.Trees.{view_catches, view_exp, view_exps, view_groups, view_stm, view_stms};
ghost use Rattle.dj_syntax.specs.Weight.{told_weight, weight_of, weight_of_catches, weight_of_exp, weight_of_exps, weight_of_groups, weight_of_stms, weight_of_value};

use crate::expression::Exp;
use crate::statement::{Catch, Group, Stm};

/// The weight of a statement, or 18,446,744,073,709,551,615 where that is more.
#[cycle(weight)]
pub fn weight(statement: &Stm) -> u64
    ensures weight { result ≡ told_weight (weight_of (view_stm statement.now)) }
{
    match statement {
        Stm::Block(list) => more(1, weight_list(list.as_slice())),
        Stm::Labelled(_, statement) => more(1, weight(statement.get())),
        Stm::Declare(_, _, value) => more(1, weight_value(value)),
        Stm::Set(_, value) => more(1, weight_exp(value)),
        Stm::SetField(object, _, value) => more(1, two(object, value)),
        Stm::SetStatic(_, _, value) => more(1, weight_exp(value)),
        Stm::SetElement(array, index, value) => more(1, more(weight_exp(array), two(index, value))),
        Stm::Run(call) => more(1, weight_exp(call)),
        Stm::If(test, first, second) => {
            let lists = more(
                weight_list(first.as_slice()),
                weight_list(second.as_slice()),
            );
            more(1, more(weight_exp(test), lists))
        }
        Stm::While(test, body) => more(1, more(weight_exp(test), weight_list(body.as_slice()))),
        Stm::Switch(value, groups) => {
            more(1, more(weight_exp(value), weight_groups(groups.as_slice())))
        }
        Stm::Break(_) | Stm::Continue(_) | Stm::Rethrow(_) => 1,
        Stm::Return(value) => more(1, weight_value(value)),
        Stm::Throw(value) => more(1, weight_exp(value)),
        Stm::Try(body, catches) => {
            let catches = weight_catches(catches.as_slice());
            more(1, more(weight_list(body.as_slice()), catches))
        }
        Stm::Synchronized(monitor, body) => {
            more(1, more(weight_exp(monitor), weight_list(body.as_slice())))
        }
        Stm::Construct(_, arguments) => more(1, weight_exps(arguments.as_slice())),
        Stm::Do(body, test) => more(1, more(weight_list(body.as_slice()), weight_exp(test))),
        Stm::For(test, _, step, body) => {
            let rest = more(weight_exp(step), weight_list(body.as_slice()));
            more(1, more(weight_exp(test), rest))
        }
        Stm::Finally(body, last) => {
            more(
                1,
                more(weight_list(body.as_slice()), weight_list(last.as_slice())),
            )
        }
    }
}

#[cycle(weight)]
fn weight_list(list: &[Stm]) -> u64
    ensures weight { result ≡ told_weight (weight_of_stms (view_stms list.now)) }
{
    let mut total = 0;
    for statement in list {
        total = more(total, weight(statement));
    }
    total
}

#[cycle(weight)]
fn weight_groups(list: &[Group]) -> u64
    ensures weight { result ≡ told_weight (weight_of_groups (view_groups list.now)) }
{
    let mut total = 0;
    for group in list {
        total = more(total, weight_list(group.body.as_slice()));
    }
    total
}

#[cycle(weight)]
fn weight_catches(list: &[Catch]) -> u64
    ensures weight { result ≡ told_weight (weight_of_catches (view_catches list.now)) }
{
    let mut total = 0;
    for catch in list {
        total = more(total, weight_list(catch.body.as_slice()));
    }
    total
}

#[cycle(weight_exp)]
fn weight_exp(exp: &Exp) -> u64
    ensures weight { result ≡ told_weight (weight_of_exp (view_exp exp.now)) }
{
    match exp {
        Exp::Int(_)
        | Exp::Long(_)
        | Exp::Text(_)
        | Exp::Bool(_)
        | Exp::Null
        | Exp::This
        | Exp::Var(_)
        | Exp::ClassOf(_)
        | Exp::Static(_, _) => 1,
        Exp::Field(operand, _)
        | Exp::Cast(_, operand)
        | Exp::InstanceOf(operand, _)
        | Exp::Negative(operand)
        | Exp::Not(operand)
        | Exp::Assign(_, operand) => more(1, weight_exp(operand.get())),
        Exp::Element(first, second) | Exp::Binary(_, first, second) => {
            more(1, more(weight_exp(first.get()), weight_exp(second.get())))
        }
        Exp::Call(object, _, arguments) => {
            more(
                1,
                more(
                    weight_exp(object.get()),
                    weight_exps(arguments.get().as_slice()),
                ),
            )
        }
        Exp::StaticCall(_, _, list)
        | Exp::SuperCall(_, _, list)
        | Exp::New(_, list)
        | Exp::NewArray(_, list, _) => more(1, weight_exps(list.get().as_slice())),
        Exp::Choice(test, first, second) => {
            let rest = more(weight_exp(first.get()), weight_exp(second.get()));
            more(1, more(weight_exp(test.get()), rest))
        }
    }
}

#[cycle(weight_exp)]
fn weight_exps(list: &[Exp]) -> u64
    ensures weight { result ≡ told_weight (weight_of_exps (view_exps list.now)) }
{
    let mut total = 0;
    for exp in list {
        total = more(total, weight_exp(exp));
    }
    total
}

fn two(first: &Exp, second: &Exp) -> u64
    ensures weight { result ≡ told_weight (weight_of_exp (view_exp first.now) + weight_of_exp (view_exp second.now)) }
{
    more(weight_exp(first), weight_exp(second))
}

fn weight_value(value: &Option<Exp>) -> u64
    ensures weight { result ≡ told_weight (weight_of_value (option_map view_exp value.now)) }
{
    match value {
        None => 0,
        Some(value) => weight_exp(value),
    }
}

fn more(weight: u64, other: u64) -> u64
    ensures sum { result ≡ told_weight (weight + other) }
{
    weight.saturating_add(other)
}
