//! Statements that have no statements in them: declarations, stores, calls, returns and throws
//! (JLS 8.8.7.1, 14.4, 14.8, 14.17, 14.18, 15.26.1).

ghost use Rattle.std.specs.Prelude.{◌≡◌, Some};
ghost use Rattle.std.specs.Option.{option_map, option_copied};
ghost use Rattle.dj_names.specs.Types.{view_type};
ghost use Rattle.dj_syntax.specs.Trees as trees;
ghost use Rattle.dj_syntax.specs.Trees.{view_exp, view_exps};
ghost use Rattle.dj_outside.specs.Runs.{Ends};
ghost use Rattle.dj_static.specs.Scopes.{scope_of};
ghost use Rattle.dj_meaning.specs.Declarations.{initialised};
ghost use Rattle.dj_meaning.specs.Statements.{Elsewhere};
ghost use Rattle.dj_meaning.specs.StaticTypes.{with_type};
ghost use Rattle.dj_meaning.specs.Meaning as spec;
ghost use Rattle.dj_objects.specs.Runs.{context_of, run_state};
ghost use Rattle.dj_source.specs.Running.{WhereItEnds, constructor_called, view_completion, view_place};

use crate::completion::{Completion, Place};
use crate::scopes::open;
use crate::throwing::thrown;
use dj_evaluating::{assign, evaluate, evaluate_all, evaluate_to, perform};
use dj_names::{ClassName, JType, Units};
use dj_objects::calls::call;
use dj_objects::scoping::{construct_target, element_kind, selection, static_field};
use dj_objects::{Method, Run, arrays, fields};
use dj_outside::Stop;
use dj_static::{Scope, Selection};
use dj_syntax::{Exp, Var};

/// The first value of a variable, if it has one.
fn initialise(
    method: &Method<'_>,
    scope: &Scope,
    run: &mut Run<'_>,
    variable: Var,
    initial: Option<&Exp>,
) -> Result<Completion, Stop>
    ensures done { Ends view_completion result (run_state run.new) (initialised (context_of method.now) (scope_of scope.now) variable (option_map view_exp (option_copied initial.entry)) (run_state run.old)) }
{
    match initial {
        Some(initial) => set(method, scope, run, variable, initial),
        None => Ok(Completion::Normal),
    }
}

/// A declaration; its first value is evaluated in its own scope.
pub fn declare(
    method: &Method<'_>,
    scope: &mut Scope,
    run: &mut Run<'_>,
    variable: Var,
    kind: &JType,
    initial: Option<&Exp>,
) -> Result<Completion, Stop>
    ensures done { Ends view_completion result (run_state run.new) (spec.run (context_of method.now) (scope_of scope.old) method.now.bound Elsewhere (trees.Declare variable (view_type kind.now) (option_map view_exp (option_copied initial.entry))) (run_state run.old)) }
    ensures scope { WhereItEnds result (scope_of scope.new ≡ with_type variable (view_type kind.now) (scope_of scope.old)) }
{
    open(method, scope, run, variable, kind)?;
    initialise(method, scope, run, variable, initial)
}

/// A store to a variable.
pub fn set(
    method: &Method<'_>,
    scope: &Scope,
    run: &mut Run<'_>,
    variable: Var,
    new: &Exp,
) -> Result<Completion, Stop>
    ensures done { Ends view_completion result (run_state run.new) (spec.run (context_of method.now) (scope_of scope.now) method.now.bound Elsewhere (trees.Set variable (view_exp new.now)) (run_state run.old)) }
{
    assign(method, scope, run, variable, new)?;
    Ok(Completion::Normal)
}

/// A store to what a name selects of an object; the length of an array isn't assigned.
pub fn set_field(
    method: &Method<'_>,
    scope: &Scope,
    run: &mut Run<'_>,
    object: &Exp,
    name: &Units,
    new: &Exp,
) -> Result<Completion, Stop>
    ensures done { Ends view_completion result (run_state run.new) (spec.run (context_of method.now) (scope_of scope.now) method.now.bound Elsewhere (trees.SetField (view_exp object.now) name.now (view_exp new.now)) (run_state run.old)) }
{
    let chosen = selection(method, scope, object, name)?;
    let Some((class, selected)) = chosen else {
        return Err(Stop::Stuck);
    };
    let field = match selected {
        Selection::Field(field) => field,
        Selection::Length => return Err(Stop::Stuck),
    };
    let found = evaluate(method, scope, run, object)?;
    let kept = evaluate_to(method, scope, run, new, &field.descriptor)?;
    let reply = fields::write(method.alloc, class, name, field, found, kept)?;
    method.settle(run, reply)?;
    Ok(Completion::Normal)
}

/// A store to a static field of a class.
pub fn set_static(
    method: &Method<'_>,
    scope: &Scope,
    run: &mut Run<'_>,
    class: &ClassName,
    name: &Units,
    new: &Exp,
) -> Result<Completion, Stop>
    ensures done { Ends view_completion result (run_state run.new) (spec.run (context_of method.now) (scope_of scope.now) method.now.bound Elsewhere (trees.SetStatic class.now name.now (view_exp new.now)) (run_state run.old)) }
{
    let named = static_field(method, class, name)?;
    let Some(field) = named else {
        return Err(Stop::Stuck);
    };
    let owner = JType::Class(class.copy(method.alloc)?);
    let kept = evaluate_to(method, scope, run, new, &field.descriptor)?;
    let reply = fields::write_static(method.alloc, owner, name, field, kept)?;
    method.settle(run, reply)?;
    Ok(Completion::Normal)
}

/// A store to an element.
pub fn set_element(
    method: &Method<'_>,
    scope: &Scope,
    run: &mut Run<'_>,
    array: &Exp,
    index: &Exp,
    new: &Exp,
) -> Result<Completion, Stop>
    ensures done { Ends view_completion result (run_state run.new) (spec.run (context_of method.now) (scope_of scope.now) method.now.bound Elsewhere (trees.SetElement (view_exp array.now) (view_exp index.now) (view_exp new.now)) (run_state run.old)) }
{
    let known = element_kind(method, scope, array)?;
    let Some(element) = known else {
        return Err(Stop::Stuck);
    };
    let found = evaluate(method, scope, run, array)?;
    let place = evaluate(method, scope, run, index)?;
    let kept = evaluate_to(method, scope, run, new, &element)?;
    let reply = arrays::write(method.classes.headers, found, &place, kept);
    method.settle(run, reply)?;
    Ok(Completion::Normal)
}

/// A call or a new object, whatever it gives.
pub fn run_call(
    method: &Method<'_>,
    scope: &Scope,
    run: &mut Run<'_>,
    call: &Exp,
) -> Result<Completion, Stop>
    ensures done { Ends view_completion result (run_state run.new) (spec.run (context_of method.now) (scope_of scope.now) method.now.bound Elsewhere (trees.Run (view_exp call.now)) (run_state run.old)) }
{
    perform(method, scope, run, call)?;
    Ok(Completion::Normal)
}

/// A return of a value, as the method's result keeps it.
fn return_value(
    method: &Method<'_>,
    scope: &Scope,
    run: &mut Run<'_>,
    exp: &Exp,
) -> Result<Completion, Stop>
    ensures done { Ends view_completion result (run_state run.new) (spec.run (context_of method.now) (scope_of scope.now) method.now.bound Elsewhere (trees.Return (Some (view_exp exp.now))) (run_state run.old)) }
{
    match method.result {
        None => {
            evaluate(method, scope, run, exp)?;
            Ok(Completion::Misfit)
        }
        Some(kind) => {
            let value = evaluate_to(method, scope, run, exp, kind)?;
            Ok(Completion::Return(Some(value)))
        }
    }
}

/// A return of a value, or of none.
pub fn returned(
    method: &Method<'_>,
    scope: &Scope,
    run: &mut Run<'_>,
    exp: Option<&Exp>,
) -> Result<Completion, Stop>
    ensures done { Ends view_completion result (run_state run.new) (spec.run (context_of method.now) (scope_of scope.now) method.now.bound Elsewhere (trees.Return (option_map view_exp (option_copied exp.entry))) (run_state run.old)) }
{
    match exp {
        Some(exp) => return_value(method, scope, run, exp),
        None => match method.result {
            None => Ok(Completion::Return(None)),
            Some(_) => Ok(Completion::Misfit),
        },
    }
}

/// A `throw`.
pub fn throw(
    method: &Method<'_>,
    scope: &Scope,
    run: &mut Run<'_>,
    exception: &Exp,
) -> Result<Completion, Stop>
    ensures done { Ends view_completion result (run_state run.new) (spec.run (context_of method.now) (scope_of scope.now) method.now.bound Elsewhere (trees.Throw (view_exp exception.now)) (run_state run.old)) }
{
    let value = evaluate(method, scope, run, exception)?;
    thrown(method, run, value)
}

/// A variable's exception, thrown on.
pub fn rethrow(
    method: &Method<'_>,
    scope: &Scope,
    run: &mut Run<'_>,
    variable: Var,
) -> Result<Completion, Stop>
    ensures done { Ends view_completion result (run_state run.new) (spec.run (context_of method.now) (scope_of scope.now) method.now.bound Elsewhere (trees.Rethrow variable) (run_state run.old)) }
{
    let value = run.look(method.alloc, scope, variable)?;
    thrown(method, run, value)
}

/// A call of another constructor on `this`.
fn call_constructor(
    method: &Method<'_>,
    scope: &Scope,
    run: &mut Run<'_>,
    own: bool,
    arguments: &[Exp],
) -> Result<Completion, Stop>
    ensures done { Ends view_completion result (run_state run.new) (constructor_called (context_of method.now) (scope_of scope.now) own (view_exps arguments.now) (run_state run.old)) }
{
    let asked = construct_target(method, scope, own, arguments)?;
    let Some(target) = asked else {
        return Err(Stop::Stuck);
    };
    let receiver = method.this_value()?;
    let values = evaluate_all(method, scope, run, arguments, target.parameters())?;
    let reply = call(method.alloc, target, receiver, values)?;
    method.settle(run, reply)?;
    Ok(Completion::Normal)
}

/// A call of another constructor, which stands at the beginning of a constructor's body alone.
pub fn construct(
    method: &Method<'_>,
    scope: &Scope,
    run: &mut Run<'_>,
    place: Place,
    own: bool,
    arguments: &[Exp],
) -> Result<Completion, Stop>
    ensures done { Ends view_completion result (run_state run.new) (spec.run (context_of method.now) (scope_of scope.now) method.now.bound (view_place place) (trees.Construct own (view_exps arguments.now)) (run_state run.old)) }
{
    match place {
        Place::First => {
            if method.constructs {
                call_constructor(method, scope, run, own, arguments)
            } else {
                Err(Stop::Stuck)
            }
        }
        Place::Behind(_) | Place::Elsewhere => Err(Stop::Stuck),
    }
}
