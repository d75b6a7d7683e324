//! The walk over the expressions of a body.

ghost use Rattle.std.specs.Prelude.{◌≡◌, IfOk};
ghost use Rattle.std.specs.Option.{option_map};
ghost use Rattle.dj_syntax.specs.Trees.{view_exp, view_exps};
ghost use Rattle.dj_static.specs.Scopes.{scope_of};
ghost use Rattle.dj_meaning.specs.StaticTypes.{plain, type_of, types_of as types_in};
ghost use Rattle.dj_thrown.specs.Listed as listed;
ghost use Rattle.dj_thrown.specs.Settings.{context_of, setting_of};
ghost use Rattle.dj_thrown.specs.Walks as spec;

use crate::listed::{class_listed, construct_listed, new_listed, object_listed, super_listed};
use crate::walk::Walk;
use dj_names::{ClassName, Units};
use dj_static::{Classes, Scope, plain_type_of, types_of};
use dj_syntax::Exp;
use std::alloc::{AllocError, Global};

/// Goes past the place of a call of an object's method.
fn throw_call(
    alloc: Global,
    classes: &Classes<'_>,
    scope: &Scope,
    object: &Exp,
    name: &Units,
    arguments: &[Exp],
    walk: &mut Walk,
) -> Result<(), AllocError>
    ensures thrown { IfOk result (λ _. walk.new ≡ spec.step (spec.throw_all (listed.object_listed (setting_of classes.now) name.now
        (plain (type_of (context_of (setting_of classes.now)) (scope_of scope.now) (view_exp object.now)))
        (types_in (context_of (setting_of classes.now)) (scope_of scope.now) (view_exps arguments.now))) walk.old)) }
{
    let kind = plain_type_of(alloc, classes, scope, object)?;
    let types = types_of(alloc, classes, scope, arguments)?;
    walk.throw_all(alloc, object_listed(classes, name, &kind, &types))
}

/// Goes past the place of a call of a static method.
fn throw_static_call(
    alloc: Global,
    classes: &Classes<'_>,
    scope: &Scope,
    class: &ClassName,
    name: &Units,
    arguments: &[Exp],
    walk: &mut Walk,
) -> Result<(), AllocError>
    ensures thrown { IfOk result (λ _. walk.new ≡ spec.step (spec.throw_all (listed.class_listed (setting_of classes.now) class.now name.now
        (types_in (context_of (setting_of classes.now)) (scope_of scope.now) (view_exps arguments.now))) walk.old)) }
{
    let types = types_of(alloc, classes, scope, arguments)?;
    let found = class_listed(alloc, classes, class, name, &types)?;
    walk.throw_all(alloc, found)
}

/// Goes past the place of a call behind `super`.
fn throw_super_call(
    alloc: Global,
    classes: &Classes<'_>,
    scope: &Scope,
    above: &Option<ClassName>,
    name: &Units,
    arguments: &[Exp],
    walk: &mut Walk,
) -> Result<(), AllocError>
    ensures thrown { IfOk result (λ _. walk.new ≡ spec.step (spec.throw_all (listed.super_listed (setting_of classes.now) above.now name.now
        (types_in (context_of (setting_of classes.now)) (scope_of scope.now) (view_exps arguments.now))) walk.old)) }
{
    let types = types_of(alloc, classes, scope, arguments)?;
    let found = super_listed(alloc, classes, above, name, &types)?;
    walk.throw_all(alloc, found)
}

/// Goes past the place of a `new`.
fn throw_new(
    alloc: Global,
    classes: &Classes<'_>,
    scope: &Scope,
    class: &ClassName,
    arguments: &[Exp],
    walk: &mut Walk,
) -> Result<(), AllocError>
    ensures thrown { IfOk result (λ _. walk.new ≡ spec.step (spec.throw_all (listed.new_listed (setting_of classes.now) class.now
        (types_in (context_of (setting_of classes.now)) (scope_of scope.now) (view_exps arguments.now))) walk.old)) }
{
    let types = types_of(alloc, classes, scope, arguments)?;
    let found = new_listed(alloc, classes, class, &types)?;
    walk.throw_all(alloc, found)
}

/// Goes past the place of a call of another constructor.
pub fn throw_construct(
    alloc: Global,
    classes: &Classes<'_>,
    scope: &Scope,
    own: bool,
    arguments: &[Exp],
    walk: &mut Walk,
) -> Result<(), AllocError>
    ensures thrown { IfOk result (λ _. walk.new ≡ spec.step (spec.throw_all (listed.construct_listed (setting_of classes.now) own
        (types_in (context_of (setting_of classes.now)) (scope_of scope.now) (view_exps arguments.now))) walk.old)) }
{
    let types = types_of(alloc, classes, scope, arguments)?;
    let found = construct_listed(alloc, classes, own, &types)?;
    walk.throw_all(alloc, found)
}

/// Walks past an expression.
#[cycle(pass_exp)]
pub fn pass_exp(
    alloc: Global,
    classes: &Classes<'_>,
    scope: &Scope,
    exp: &Exp,
    walk: &mut Walk,
) -> Result<(), AllocError>
    ensures walked { IfOk result (λ _. walk.new ≡ spec.pass_exp (setting_of classes.now) (scope_of scope.now) (view_exp exp.now) walk.old) }
{
    match exp {
        Exp::Int(_)
        | Exp::Long(_)
        | Exp::Text(_)
        | Exp::Bool(_)
        | Exp::Null
        | Exp::This
        | Exp::Var(_)
        | Exp::ClassOf(_)
        | Exp::Static(_, _) => {
            walk.step();
            Ok(())
        }
        Exp::Field(operand, _)
        | Exp::Cast(_, operand)
        | Exp::InstanceOf(operand, _)
        | Exp::Negative(operand)
        | Exp::Not(operand)
        | Exp::Assign(_, operand) => {
            walk.step();
            pass_exp(alloc, classes, scope, operand.get(), walk)
        }
        Exp::Element(first, second) | Exp::Binary(_, first, second) => {
            walk.step();
            pass_exp(alloc, classes, scope, first.get(), walk)?;
            pass_exp(alloc, classes, scope, second.get(), walk)
        }
        Exp::Call(object, name, arguments) => {
            let arguments = arguments.get().as_slice();
            throw_call(alloc, classes, scope, object.get(), name, arguments, walk)?;
            pass_exp(alloc, classes, scope, object.get(), walk)?;
            pass_exps(alloc, classes, scope, arguments, walk)
        }
        Exp::StaticCall(class, name, arguments) => {
            let arguments = arguments.get().as_slice();
            throw_static_call(alloc, classes, scope, class, name, arguments, walk)?;
            pass_exps(alloc, classes, scope, arguments, walk)
        }
        Exp::SuperCall(above, name, arguments) => {
            let arguments = arguments.get().as_slice();
            throw_super_call(alloc, classes, scope, above, name, arguments, walk)?;
            pass_exps(alloc, classes, scope, arguments, walk)
        }
        Exp::New(class, arguments) => {
            let arguments = arguments.get().as_slice();
            throw_new(alloc, classes, scope, class, arguments, walk)?;
            pass_exps(alloc, classes, scope, arguments, walk)
        }
        Exp::NewArray(_, sizes, _) => {
            walk.step();
            pass_exps(alloc, classes, scope, sizes.get().as_slice(), walk)
        }
        Exp::Choice(test, first, second) => {
            walk.step();
            pass_exp(alloc, classes, scope, test.get(), walk)?;
            pass_exp(alloc, classes, scope, first.get(), walk)?;
            pass_exp(alloc, classes, scope, second.get(), walk)
        }
    }
}

/// Walks past expressions.
#[cycle(pass_exp)]
pub fn pass_exps(
    alloc: Global,
    classes: &Classes<'_>,
    scope: &Scope,
    list: &[Exp],
    walk: &mut Walk,
) -> Result<(), AllocError>
    ensures walked { IfOk result (λ _. walk.new ≡ spec.pass_exps (setting_of classes.now) (scope_of scope.now) (view_exps list.now) walk.old) }
{
    for exp in list {
        pass_exp(alloc, classes, scope, exp, walk)?;
    }
    Ok(())
}

/// Walks past an expression, where there is one.
pub fn pass_option(
    alloc: Global,
    classes: &Classes<'_>,
    scope: &Scope,
    exp: &Option<Exp>,
    walk: &mut Walk,
) -> Result<(), AllocError>
    ensures walked { IfOk result (λ _. walk.new ≡ spec.pass_option (setting_of classes.now) (scope_of scope.now) (option_map view_exp exp.now) walk.old) }
{
    match exp {
        None => Ok(()),
        Some(exp) => pass_exp(alloc, classes, scope, exp, walk),
    }
}
