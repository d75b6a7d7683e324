//! The walk over expressions.

ghost use Rattle.std.specs.Prelude.{◌≡◌, IfOk, option_map};
ghost use Rattle.dj_syntax.specs.Trees.{view_exp, view_exps};
ghost use Rattle.dj_places.specs.Surroundings.{surroundings_of};
ghost use Rattle.dj_conditions.specs.Conditions.{wanted_before as is_wanted_before};
ghost use Rattle.dj_conditions.specs.Walks as spec;

use crate::walk::Walk;
use dj_names::Items;
use dj_places::constant_truth;
use dj_static::Classes;
use dj_syntax::{Exp, Op, Var};
use dj_variables::union;
use std::alloc::{AllocError, Global};
use std::mem;

/// The answer of the left operand that the right one is evaluated behind, where it isn't evaluated
/// behind each.
fn wanted_before(operator: Op) -> Option<bool>
    ensures wanted { result ≡ is_wanted_before operator }
{
    match operator {
        Op::AndAlso => Some(true),
        Op::OrElse => Some(false),
        Op::Mul
        | Op::Div
        | Op::Rem
        | Op::Add
        | Op::Sub
        | Op::Shl
        | Op::Shr
        | Op::Ushr
        | Op::Lt
        | Op::Le
        | Op::Gt
        | Op::Ge
        | Op::Eq
        | Op::Ne
        | Op::And
        | Op::Xor
        | Op::Or => None,
    }
}

/// Turns the sides of a condition, so that the walk is where it has this answer; what is given is what
/// isn't assigned where it has the other.
fn turned(wanted: bool, otherwise: Items<Var>, walk: &mut Walk) -> Items<Var>
    ensures turned { spec.turned wanted (record { walk = walk.old; otherwise = otherwise }) ≡ record { walk = walk.new; otherwise = result } }
{
    if wanted {
        otherwise
    } else {
        mem::replace(&mut walk.unassigned, otherwise)
    }
}

/// Walks past an expression.
#[cycle(look)]
pub fn look(
    alloc: Global,
    classes: &Classes<'_>,
    exp: &Exp,
    walk: &mut Walk,
) -> Result<(), AllocError>
    ensures looked { IfOk result (λ _. walk.new ≡ spec.look (surroundings_of classes.now) (view_exp exp.now) walk.old) }
{
    match exp {
        Exp::Int(_)
        | Exp::Long(_)
        | Exp::Text(_)
        | Exp::Bool(_)
        | Exp::Null
        | Exp::This
        | Exp::ClassOf(_)
        | Exp::Static(_, _) => {
            walk.step();
            Ok(())
        }
        Exp::Var(variable) => {
            walk.read(*variable);
            walk.step();
            Ok(())
        }
        Exp::Field(operand, _)
        | Exp::Cast(_, operand)
        | Exp::InstanceOf(operand, _)
        | Exp::Negative(operand)
        | Exp::Not(operand) => {
            walk.step();
            look(alloc, classes, operand.get(), walk)
        }
        Exp::Element(array, index) => {
            walk.step();
            look(alloc, classes, array.get(), walk)?;
            look(alloc, classes, index.get(), walk)
        }
        Exp::Call(object, _, arguments) => {
            walk.step();
            look(alloc, classes, object.get(), walk)?;
            look_each(alloc, classes, arguments.get().as_slice(), walk)
        }
        Exp::StaticCall(_, _, list)
        | Exp::SuperCall(_, _, list)
        | Exp::New(_, list)
        | Exp::NewArray(_, list, _) => {
            walk.step();
            look_each(alloc, classes, list.get().as_slice(), walk)
        }
        Exp::Binary(operator, left, right) => match wanted_before(*operator) {
            None => {
                walk.step();
                look(alloc, classes, left.get(), walk)?;
                look(alloc, classes, right.get(), walk)
            }
            Some(wanted) => {
                walk.step();
                let otherwise = test(alloc, classes, left.get(), walk)?;
                let otherwise = turned(wanted, otherwise, walk);
                look(alloc, classes, right.get(), walk)?;
                walk.meet_with(alloc, otherwise.as_slice())
            }
        },
        Exp::Choice(condition, first, second) => {
            walk.step();
            let otherwise = test(alloc, classes, condition.get(), walk)?;
            look(alloc, classes, first.get(), walk)?;
            let between = mem::replace(&mut walk.unassigned, otherwise);
            look(alloc, classes, second.get(), walk)?;
            walk.meet_with(alloc, between.as_slice())
        }
        Exp::Assign(variable, value) => {
            walk.step();
            look(alloc, classes, value.get(), walk)?;
            walk.write(alloc, *variable)
        }
    }
}

/// Walks past expressions.
#[cycle(look)]
pub fn look_each(
    alloc: Global,
    classes: &Classes<'_>,
    list: &[Exp],
    walk: &mut Walk,
) -> Result<(), AllocError>
    ensures looked { IfOk result (λ _. walk.new ≡ spec.look_each (surroundings_of classes.now) (view_exps list.now) walk.old) }
{
    for exp in list {
        look(alloc, classes, exp, walk)?;
    }
    Ok(())
}

/// Walks past a condition to where it is true, and gives what isn't assigned where it is false.
#[cycle(look)]
pub fn test(
    alloc: Global,
    classes: &Classes<'_>,
    exp: &Exp,
    walk: &mut Walk,
) -> Result<Items<Var>, AllocError>
    ensures tested { IfOk result (λ otherwise. spec.test (surroundings_of classes.now) (view_exp exp.now) walk.old ≡ record { walk = walk.new; otherwise = otherwise }) }
{
    match exp {
        Exp::Int(_) | Exp::Long(_) | Exp::Text(_) | Exp::Null | Exp::This | Exp::ClassOf(_) => {
            walk.step();
            walk.copied(alloc)
        }
        Exp::Bool(known) => {
            walk.step();
            walk.sides(alloc, Some(*known))
        }
        Exp::Var(variable) => {
            walk.read(*variable);
            walk.step();
            walk.copied(alloc)
        }
        Exp::Static(_, _) => {
            walk.step();
            let known = constant_truth(alloc, classes, exp)?;
            walk.sides(alloc, known)
        }
        Exp::Field(operand, _) | Exp::InstanceOf(operand, _) | Exp::Negative(operand) => {
            walk.step();
            look(alloc, classes, operand.get(), walk)?;
            walk.copied(alloc)
        }
        Exp::Cast(_, operand) => {
            walk.step();
            look(alloc, classes, operand.get(), walk)?;
            let known = constant_truth(alloc, classes, exp)?;
            walk.sides(alloc, known)
        }
        Exp::Not(operand) => {
            walk.step();
            let otherwise = test(alloc, classes, operand.get(), walk)?;
            Ok(turned(false, otherwise, walk))
        }
        Exp::Element(array, index) => {
            walk.step();
            look(alloc, classes, array.get(), walk)?;
            look(alloc, classes, index.get(), walk)?;
            walk.copied(alloc)
        }
        Exp::Call(object, _, arguments) => {
            walk.step();
            look(alloc, classes, object.get(), walk)?;
            look_each(alloc, classes, arguments.get().as_slice(), walk)?;
            walk.copied(alloc)
        }
        Exp::StaticCall(_, _, list)
        | Exp::SuperCall(_, _, list)
        | Exp::New(_, list)
        | Exp::NewArray(_, list, _) => {
            walk.step();
            look_each(alloc, classes, list.get().as_slice(), walk)?;
            walk.copied(alloc)
        }
        Exp::Binary(operator, left, right) => match wanted_before(*operator) {
            None => {
                walk.step();
                look(alloc, classes, left.get(), walk)?;
                look(alloc, classes, right.get(), walk)?;
                let known = constant_truth(alloc, classes, exp)?;
                walk.sides(alloc, known)
            }
            Some(wanted) => {
                walk.step();
                let otherwise = test(alloc, classes, left.get(), walk)?;
                let before = turned(wanted, otherwise, walk);
                let otherwise = test(alloc, classes, right.get(), walk)?;
                let behind = turned(wanted, otherwise, walk);
                let both = union(alloc, before.as_slice(), behind.as_slice())?;
                Ok(turned(wanted, both, walk))
            }
        },
        Exp::Choice(condition, first, second) => {
            walk.step();
            let otherwise = test(alloc, classes, condition.get(), walk)?;
            let one = test(alloc, classes, first.get(), walk)?;
            let between = mem::replace(&mut walk.unassigned, otherwise);
            let other = test(alloc, classes, second.get(), walk)?;
            walk.meet_with(alloc, between.as_slice())?;
            union(alloc, one.as_slice(), other.as_slice())
        }
        Exp::Assign(variable, value) => {
            walk.step();
            look(alloc, classes, value.get(), walk)?;
            walk.write(alloc, *variable)?;
            walk.copied(alloc)
        }
    }
}

/// Walks past an expression, where there is one.
pub fn look_option(
    alloc: Global,
    classes: &Classes<'_>,
    exp: &Option<Exp>,
    walk: &mut Walk,
) -> Result<(), AllocError>
    ensures looked { IfOk result (λ _. walk.new ≡ spec.look_option (surroundings_of classes.now) (option_map view_exp exp.now) walk.old) }
{
    match exp {
        None => Ok(()),
        Some(exp) => look(alloc, classes, exp, walk),
    }
}

/// Walks past a variable's first value, where it has one.
pub fn first_value(
    alloc: Global,
    classes: &Classes<'_>,
    variable: Var,
    value: &Option<Exp>,
    walk: &mut Walk,
) -> Result<(), AllocError>
    ensures looked { IfOk result (λ _. walk.new ≡ spec.first_value (surroundings_of classes.now) variable (option_map view_exp value.now) walk.old) }
{
    match value {
        None => Ok(()),
        Some(value) => {
            look(alloc, classes, value, walk)?;
            walk.write(alloc, variable)
        }
    }
}
