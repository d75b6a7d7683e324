//! Expressions that are statements of their own (JLS 14.8).

ghost use Rattle.std.specs.Prelude.{◌≡◌, IfOk};
ghost use Rattle.dj_syntax.specs.Trees as trees;
ghost use Rattle.dj_syntax.specs.Trees.{view_exp, view_exps};
ghost use Rattle.dj_static.specs.Scopes.{scope_of};
ghost use Rattle.dj_checked.specs.Sites.{site_of};
ghost use Rattle.dj_checked.specs.Walks as spec;

use crate::calls::{call_itself, static_call_itself, super_call_itself};
use crate::expressions::{pass_exp, pass_exps};
use crate::site::Site;
use crate::walk::Walk;
use dj_names::{ClassName, Units};
use dj_static::Scope;
use dj_syntax::Exp;
use std::alloc::{AllocError, Global};

/// A call of an object's method.
fn pass_call(
    alloc: Global,
    site: &Site<'_>,
    scope: &Scope,
    object: &Exp,
    name: &Units,
    arguments: &[Exp],
    walk: &mut Walk,
) -> Result<(), AllocError>
    ensures walked { IfOk result (λ _. walk.new ≡ spec.pass_effect (site_of site.now) (scope_of scope.now) (trees.Call (view_exp object.now) name.now (view_exps arguments.now)) walk.old) }
{
    let place = walk.step();
    let object = pass_exp(alloc, site, scope, object, walk)?;
    let given = pass_exps(alloc, site, scope, arguments, walk)?;
    call_itself(alloc, site, place, &object, name, &given, walk)?;
    Ok(())
}

/// A call of a static method.
fn pass_static_call(
    alloc: Global,
    site: &Site<'_>,
    scope: &Scope,
    class: &ClassName,
    name: &Units,
    arguments: &[Exp],
    walk: &mut Walk,
) -> Result<(), AllocError>
    ensures walked { IfOk result (λ _. walk.new ≡ spec.pass_effect (site_of site.now) (scope_of scope.now) (trees.StaticCall class.now name.now (view_exps arguments.now)) walk.old) }
{
    let place = walk.step();
    let given = pass_exps(alloc, site, scope, arguments, walk)?;
    static_call_itself(alloc, site, place, class, name, &given, walk)?;
    Ok(())
}

/// A call behind `super`.
fn pass_super_call(
    alloc: Global,
    site: &Site<'_>,
    scope: &Scope,
    above: &Option<ClassName>,
    name: &Units,
    arguments: &[Exp],
    walk: &mut Walk,
) -> Result<(), AllocError>
    ensures walked { IfOk result (λ _. walk.new ≡ spec.pass_effect (site_of site.now) (scope_of scope.now) (trees.SuperCall above.now name.now (view_exps arguments.now)) walk.old) }
{
    let place = walk.step();
    let given = pass_exps(alloc, site, scope, arguments, walk)?;
    super_call_itself(alloc, site, place, above, name, &given, walk)?;
    Ok(())
}

/// Any other expression.
fn pass_other(
    alloc: Global,
    site: &Site<'_>,
    scope: &Scope,
    exp: &Exp,
    walk: &mut Walk,
) -> Result<(), AllocError>
    ensures walked { IfOk result (λ _. walk.new ≡ spec.pass_exp (site_of site.now) (scope_of scope.now) (view_exp exp.now) walk.old) }
{
    pass_exp(alloc, site, scope, exp, walk)?;
    Ok(())
}

/// Walks past an expression that is a statement: a call may give nothing there.
pub fn pass_effect(
    alloc: Global,
    site: &Site<'_>,
    scope: &Scope,
    exp: &Exp,
    walk: &mut Walk,
) -> Result<(), AllocError>
    ensures walked { IfOk result (λ _. walk.new ≡ spec.pass_effect (site_of site.now) (scope_of scope.now) (view_exp exp.now) walk.old) }
{
    match exp {
        Exp::Call(object, name, arguments) => {
            let arguments = arguments.get().as_slice();
            pass_call(alloc, site, scope, object.get(), name, arguments, walk)
        }
        Exp::StaticCall(class, name, arguments) => {
            let arguments = arguments.get().as_slice();
            pass_static_call(alloc, site, scope, class, name, arguments, walk)
        }
        Exp::SuperCall(above, name, arguments) => {
            let arguments = arguments.get().as_slice();
            pass_super_call(alloc, site, scope, above, name, arguments, walk)
        }
        Exp::Int(_)
        | Exp::Long(_)
        | Exp::Text(_)
        | Exp::Bool(_)
        | Exp::Null
        | Exp::This
        | Exp::Var(_)
        | Exp::ClassOf(_)
        | Exp::Field(_, _)
        | Exp::Static(_, _)
        | Exp::Element(_, _)
        | Exp::New(_, _)
        | Exp::NewArray(_, _, _)
        | Exp::Cast(_, _)
        | Exp::InstanceOf(_, _)
        | Exp::Negative(_)
        | Exp::Not(_)
        | Exp::Binary(_, _, _)
        | Exp::Choice(_, _, _)
        | Exp::Assign(_, _) => pass_other(alloc, site, scope, exp, walk),
    }
}
