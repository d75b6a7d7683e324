//! The walk over the statements of a body.

ghost use Rattle.std.specs.Prelude.{◌≡◌, [], ◌∷◌, ◌++◌, option_and_then, IfOk, OnOk};
ghost use Rattle.std.specs.Option.{option_map, option_copied};
ghost use Rattle.dj_names.specs.Types.{Class, view_type};
ghost use Rattle.dj_syntax.specs.Trees.{view_catches, view_exp, view_exps, view_groups, view_stm, view_stms};
ghost use Rattle.dj_static.specs.Scopes.{scope_of};
ghost use Rattle.dj_meaning.specs.StaticTypes.{with_type};
ghost use Rattle.dj_meaning.specs.Declarations.{behind, declared, within};
ghost use Rattle.dj_scopes.specs.Keeping.{scope_back};
ghost use Rattle.dj_reach.specs.Reach.{list_completes};
ghost use Rattle.dj_thrown.specs.Catching.{may_all_catch as may_all};
ghost use Rattle.dj_thrown.specs.Settings.{around, setting_of};
ghost use Rattle.dj_thrown.specs.Throws as throws;
ghost use Rattle.dj_thrown.specs.Walks as spec;

use crate::assigning::list_sets;
use crate::catching::may_all_catch;
use crate::expressions::{pass_exp, pass_exps, pass_option, throw_construct};
use crate::throwing::{Held, Throwing, classes_taken, held_in, left};
use crate::walk::Walk;
use dj_headers::Headers;
use dj_names::{ClassName, Items, JType};
use dj_reach::completes;
use dj_scopes::{Kept, declare, keep, keep_declared, put_back};
use dj_static::{Classes, Scope, type_of};
use dj_syntax::{Catch, Exp, Group, Stm, Var};
use std::alloc::{AllocError, Global};
use std::mem;

/// The variable that an expression is.
fn variable_of(exp: &Exp) -> Option<Var>
    ensures variable { result ≡ throws.variable_of (view_exp exp.now) }
{
    match exp {
        Exp::Var(variable) => Some(*variable),
        Exp::Int(_)
        | Exp::Long(_)
        | Exp::Text(_)
        | Exp::Bool(_)
        | Exp::Null
        | Exp::This
        | Exp::ClassOf(_)
        | Exp::Field(_, _)
        | Exp::Static(_, _)
        | Exp::Element(_, _)
        | Exp::Call(_, _, _)
        | Exp::StaticCall(_, _, _)
        | Exp::SuperCall(_, _, _)
        | Exp::New(_, _)
        | Exp::NewArray(_, _, _)
        | Exp::Cast(_, _)
        | Exp::InstanceOf(_, _)
        | Exp::Negative(_)
        | Exp::Not(_)
        | Exp::Binary(_, _, _)
        | Exp::Choice(_, _, _)
        | Exp::Assign(_, _) => None,
    }
}

/// The classes of what an expression holds, where it is a catch variable that nothing assigns.
fn classes_held<'a>(held: &'a [Held], exp: &Exp) -> Option<&'a Items<ClassName>>
    ensures classes { option_copied result ≡ option_and_then (throws.classes_in held.now) (throws.variable_of (view_exp exp.now)) }
{
    match variable_of(exp) {
        None => None,
        Some(variable) => match held_in(held, variable) {
            None => None,
            Some(one) => one.classes.as_ref(),
        },
    }
}

/// Goes past the place of a `throw`.
fn throw_exception(
    alloc: Global,
    classes: &Classes<'_>,
    scope: &Scope,
    held: &[Held],
    exception: &Exp,
    walk: &mut Walk,
) -> Result<(), AllocError>
    ensures thrown { IfOk result (λ _. walk.new ≡ spec.step (spec.throw_all (throws.throw_throws (setting_of classes.now) held.now (scope_of scope.now) (view_exp exception.now)) walk.old)) }
{
    match classes_held(held, exception) {
        Some(list) => walk.throw_all(alloc, list.as_slice()),
        None => {
            let kind = type_of(alloc, classes, scope, exception)?;
            walk.throw_type(alloc, &kind)
        }
    }
}

/// What the variable of a catch clause holds.
fn holding(
    alloc: Global,
    headers: &Headers,
    catch: &Catch,
    thrown: &[Throwing],
) -> Result<Held, AllocError>
    ensures holds { IfOk result (λ held. held ≡ throws.holding headers.now catch.now.class catch.now.variable (view_stms catch.now.body) thrown.now) }
{
    let variable = catch.variable;
    if list_sets(variable, catch.body.as_slice()) {
        return Ok(Held {
            variable,
            classes: None,
        });
    }
    let classes = classes_taken(alloc, headers, &catch.class, thrown)?;
    Ok(Held {
        variable,
        classes: Some(classes),
    })
}

/// A declaration: its variable is in scope from its first value on.
fn pass_declare(
    alloc: Global,
    classes: &Classes<'_>,
    scope: &mut Scope,
    variable: Var,
    kind: &JType,
    initial: &Option<Exp>,
    walk: &mut Walk,
) -> Result<(), AllocError>
    ensures walked { IfOk result (λ _. walk.new ≡ spec.pass_option (setting_of classes.now) (with_type variable (view_type kind.now) (scope_of scope.old)) (option_map view_exp initial.now) (spec.step walk.old)) }
    ensures scope { OnOk result (scope_of scope.new ≡ with_type variable (view_type kind.now) (scope_of scope.old)) }
{
    walk.step();
    declare(alloc, scope, variable, kind)?;
    pass_option(alloc, classes, scope, initial, walk)
}

/// The variable of a catch clause is in scope from now on; what it was is kept.
fn open_catch(
    alloc: Global,
    scope: &mut Scope,
    catch: &Catch,
    kept: &mut Items<Kept>,
) -> Result<(), AllocError>
    ensures scope { OnOk result (scope_of scope.new ≡ with_type catch.now.variable (Class catch.now.class) (scope_of scope.old)) }
    ensures kept { OnOk result (scope_back kept.new (scope_of scope.new) ≡ scope_back kept.old (scope_of scope.old)) }
{
    let kind = JType::Class(catch.class.copy(alloc)?);
    keep(alloc, scope, catch.variable, kept)?;
    declare(alloc, scope, catch.variable, &kind)?;
    Ok(())
}

/// Walks past a statement.
#[cycle(pass)]
pub fn pass(
    alloc: Global,
    classes: &Classes<'_>,
    scope: &mut Scope,
    held: &mut Items<Held>,
    statement: &Stm,
    walk: &mut Walk,
) -> Result<(), AllocError>
    ensures walked { IfOk result (λ _. walk.new ≡ spec.pass (setting_of classes.now) held.old (scope_of scope.old) (view_stm statement.now) walk.old) }
    ensures held { OnOk result (held.new ≡ held.old) }
    ensures scope { OnOk result (scope_of scope.new ≡ within (declared (view_stm statement.now)) (scope_of scope.old)) }
{
    match statement {
        Stm::Block(list) => {
            walk.step();
            pass_list(alloc, classes, scope, held, list.as_slice(), walk)
        }
        Stm::Labelled(_, statement) => {
            walk.step();
            pass_inner(alloc, classes, scope, held, statement.get(), walk)
        }
        Stm::Declare(variable, kind, initial) => {
            pass_declare(alloc, classes, scope, *variable, kind, initial, walk)
        }
        Stm::Set(_, value) | Stm::SetStatic(_, _, value) | Stm::Run(value) => {
            walk.step();
            pass_exp(alloc, classes, scope, value, walk)
        }
        Stm::SetField(object, _, new) => {
            walk.step();
            pass_exp(alloc, classes, scope, object, walk)?;
            pass_exp(alloc, classes, scope, new, walk)
        }
        Stm::SetElement(array, index, new) => {
            walk.step();
            pass_exp(alloc, classes, scope, array, walk)?;
            pass_exp(alloc, classes, scope, index, walk)?;
            pass_exp(alloc, classes, scope, new, walk)
        }
        Stm::If(test, first, second) => {
            walk.step();
            pass_exp(alloc, classes, scope, test, walk)?;
            pass_list(alloc, classes, scope, held, first.as_slice(), walk)?;
            pass_list(alloc, classes, scope, held, second.as_slice(), walk)
        }
        Stm::While(operand, body) | Stm::Synchronized(operand, body) => {
            walk.step();
            pass_exp(alloc, classes, scope, operand, walk)?;
            pass_list(alloc, classes, scope, held, body.as_slice(), walk)
        }
        Stm::Switch(on, groups) => {
            walk.step();
            pass_exp(alloc, classes, scope, on, walk)?;
            pass_groups(alloc, classes, scope, held, groups.as_slice(), walk)
        }
        Stm::Break(_) | Stm::Continue(_) | Stm::Rethrow(_) => {
            walk.step();
            Ok(())
        }
        Stm::Return(result) => {
            walk.step();
            pass_option(alloc, classes, scope, result, walk)
        }
        Stm::Throw(exception) => {
            throw_exception(alloc, classes, scope, held.as_slice(), exception, walk)?;
            pass_exp(alloc, classes, scope, exception, walk)
        }
        Stm::Try(body, catches) => {
            let catches = catches.as_slice();
            let thrown = pass_tried(alloc, classes, scope, held, body.as_slice(), catches, walk)?;
            pass_catches(alloc, classes, scope, held, thrown, catches, walk)
        }
        Stm::Construct(own, arguments) => {
            throw_construct(alloc, classes, scope, *own, arguments.as_slice(), walk)?;
            pass_exps(alloc, classes, scope, arguments.as_slice(), walk)
        }
        Stm::Do(body, test) => {
            walk.step();
            pass_list(alloc, classes, scope, held, body.as_slice(), walk)?;
            pass_exp(alloc, classes, scope, test, walk)
        }
        Stm::For(test, _, next, body) => {
            walk.step();
            pass_exp(alloc, classes, scope, test, walk)?;
            pass_exp(alloc, classes, scope, next, walk)?;
            pass_list(alloc, classes, scope, held, body.as_slice(), walk)
        }
        Stm::Finally(body, last) => {
            let last = last.as_slice();
            pass_first(alloc, classes, scope, held, body.as_slice(), last, walk)?;
            pass_list(alloc, classes, scope, held, last, walk)
        }
    }
}

/// Walks past a statement, which goes on in the scope that there is; what the variable was that it
/// declares is kept.
#[cycle(pass)]
fn pass_kept(
    alloc: Global,
    classes: &Classes<'_>,
    scope: &mut Scope,
    held: &mut Items<Held>,
    kept: &mut Items<Kept>,
    statement: &Stm,
    walk: &mut Walk,
) -> Result<(), AllocError>
    ensures walked { IfOk result (λ _. walk.new ≡ spec.pass (setting_of classes.now) held.old (scope_of scope.old) (view_stm statement.now) walk.old) }
    ensures held { OnOk result (held.new ≡ held.old) }
    ensures kept { OnOk result (scope_back kept.new (scope_of scope.new) ≡ scope_back kept.old (scope_of scope.old)) }
{
    keep_declared(alloc, scope, statement, kept)?;
    pass(alloc, classes, scope, held, statement, walk)?;
    Ok(())
}

/// Walks past the statement behind a label; what it declares is its alone.
#[cycle(pass)]
fn pass_inner(
    alloc: Global,
    classes: &Classes<'_>,
    scope: &mut Scope,
    held: &mut Items<Held>,
    statement: &Stm,
    walk: &mut Walk,
) -> Result<(), AllocError>
    ensures walked { IfOk result (λ _. walk.new ≡ spec.pass (setting_of classes.now) held.old (scope_of scope.old) (view_stm statement.now) walk.old) }
    ensures held { OnOk result (held.new ≡ held.old) }
    ensures scope { OnOk result (scope_of scope.new ≡ scope_of scope.old) }
{
    let mut kept = Items::new(alloc);
    pass_kept(alloc, classes, scope, held, &mut kept, statement, walk)?;
    put_back(scope, kept)
}

/// Walks past statements, which go on in the scope that there is; what the variables were that they
/// declare is kept.
#[cycle(pass)]
fn pass_open(
    alloc: Global,
    classes: &Classes<'_>,
    scope: &mut Scope,
    held: &mut Items<Held>,
    kept: &mut Items<Kept>,
    list: &[Stm],
    walk: &mut Walk,
) -> Result<(), AllocError>
    ensures walked { IfOk result (λ _. walk.new ≡ spec.pass_list (setting_of classes.now) held.old (scope_of scope.old) (view_stms list.now) walk.old) }
    ensures held { OnOk result (held.new ≡ held.old) }
    ensures kept { OnOk result (scope_back kept.new (scope_of scope.new) ≡ scope_back kept.old (scope_of scope.old)) }
    ensures behind { OnOk result (scope_of scope.new ≡ behind (view_stms list.now) (scope_of scope.old)) }
{
    for statement in list {
        keep_declared(alloc, scope, statement, kept)?;
        pass(alloc, classes, scope, held, statement, walk)?;
    }
    Ok(())
}

/// Walks past statements; what they declare is theirs alone.
#[cycle(pass)]
pub fn pass_list(
    alloc: Global,
    classes: &Classes<'_>,
    scope: &mut Scope,
    held: &mut Items<Held>,
    list: &[Stm],
    walk: &mut Walk,
) -> Result<(), AllocError>
    ensures walked { IfOk result (λ _. walk.new ≡ spec.pass_list (setting_of classes.now) held.old (scope_of scope.old) (view_stms list.now) walk.old) }
    ensures held { OnOk result (held.new ≡ held.old) }
    ensures scope { OnOk result (scope_of scope.new ≡ scope_of scope.old) }
{
    let mut kept = Items::new(alloc);
    pass_open(alloc, classes, scope, held, &mut kept, list, walk)?;
    put_back(scope, kept)
}

/// Walks past a place and the statements behind it, and gives what they throw, apart from what was thrown
/// before.
#[cycle(pass)]
fn pass_apart(
    alloc: Global,
    classes: &Classes<'_>,
    scope: &mut Scope,
    held: &mut Items<Held>,
    list: &[Stm],
    walk: &mut Walk,
) -> Result<Items<Throwing>, AllocError>
    ensures thrown { IfOk result (λ thrown. thrown ≡ (spec.pass_apart (setting_of classes.now) held.old (scope_of scope.old) (view_stms list.now) walk.old).thrown) }
    ensures walked { IfOk result (λ _. walk.new ≡ spec.with_thrown walk.old.thrown (spec.pass_apart (setting_of classes.now) held.old (scope_of scope.old) (view_stms list.now) walk.old)) }
    ensures held { OnOk result (held.new ≡ held.old) }
    ensures scope { OnOk result (scope_of scope.new ≡ scope_of scope.old) }
{
    walk.step();
    let before = mem::replace(&mut walk.thrown, Items::new(alloc));
    pass_list(alloc, classes, scope, held, list, walk)?;
    Ok(mem::replace(&mut walk.thrown, before))
}

/// Walks past the groups of a switch, which go on in one scope.
#[cycle(pass)]
fn pass_open_groups(
    alloc: Global,
    classes: &Classes<'_>,
    scope: &mut Scope,
    held: &mut Items<Held>,
    kept: &mut Items<Kept>,
    groups: &[Group],
    walk: &mut Walk,
) -> Result<(), AllocError>
    ensures walked { IfOk result (λ _. walk.new ≡ spec.pass_groups (setting_of classes.now) held.old (scope_of scope.old) (view_groups groups.now) walk.old) }
    ensures held { OnOk result (held.new ≡ held.old) }
    ensures kept { OnOk result (scope_back kept.new (scope_of scope.new) ≡ scope_back kept.old (scope_of scope.old)) }
{
    for group in groups {
        pass_open(
            alloc,
            classes,
            scope,
            held,
            kept,
            group.body.as_slice(),
            walk,
        )?;
    }
    Ok(())
}

/// Walks past the groups of a switch; what they declare is theirs alone.
#[cycle(pass)]
fn pass_groups(
    alloc: Global,
    classes: &Classes<'_>,
    scope: &mut Scope,
    held: &mut Items<Held>,
    groups: &[Group],
    walk: &mut Walk,
) -> Result<(), AllocError>
    ensures walked { IfOk result (λ _. walk.new ≡ spec.pass_groups (setting_of classes.now) held.old (scope_of scope.old) (view_groups groups.now) walk.old) }
    ensures held { OnOk result (held.new ≡ held.old) }
    ensures scope { OnOk result (scope_of scope.new ≡ scope_of scope.old) }
{
    let mut kept = Items::new(alloc);
    pass_open_groups(alloc, classes, scope, held, &mut kept, groups, walk)?;
    put_back(scope, kept)
}

/// Walks past the list of a try with these catch clauses, and gives what it throws.
#[cycle(pass)]
fn pass_tried(
    alloc: Global,
    classes: &Classes<'_>,
    scope: &mut Scope,
    held: &mut Items<Held>,
    body: &[Stm],
    catches: &[Catch],
    walk: &mut Walk,
) -> Result<Items<Throwing>, AllocError>
    ensures thrown { IfOk result (λ thrown. thrown ≡ (spec.pass_apart (setting_of classes.now) held.old (scope_of scope.old) (view_stms body.now) walk.old).thrown) }
    ensures walked { IfOk result (λ _. walk.new ≡ spec.note walk.old.place
        (may_all classes.now.headers.now (spec.pass_apart (setting_of classes.now) held.old (scope_of scope.old) (view_stms body.now) walk.old).thrown (view_catches catches.now))
        (spec.with_thrown walk.old.thrown (spec.pass_apart (setting_of classes.now) held.old (scope_of scope.old) (view_stms body.now) walk.old))) }
    ensures held { OnOk result (held.new ≡ held.old) }
    ensures scope { OnOk result (scope_of scope.new ≡ scope_of scope.old) }
{
    let place = walk.place;
    let thrown = pass_apart(alloc, classes, scope, held, body, walk)?;
    let kept = may_all_catch(alloc, classes.headers, thrown.as_slice(), catches)?;
    walk.note(place, kept);
    Ok(thrown)
}

/// Walks past the catch clauses of a try whose list throws this.
#[cycle(pass)]
fn pass_catches(
    alloc: Global,
    classes: &Classes<'_>,
    scope: &mut Scope,
    held: &mut Items<Held>,
    thrown: Items<Throwing>,
    catches: &[Catch],
    walk: &mut Walk,
) -> Result<(), AllocError>
    ensures walked { IfOk result (λ _. walk.new ≡ spec.pass_catches (setting_of classes.now) held.old (scope_of scope.old) thrown (view_catches catches.now) walk.old) }
    ensures held { OnOk result (held.new ≡ held.old) }
    ensures scope { OnOk result (scope_of scope.new ≡ scope_of scope.old) }
{
    let mut rest = thrown;
    for catch in catches {
        pass_catch(alloc, classes, scope, held, rest.as_slice(), catch, walk)?;
        rest = left(alloc, classes.headers, &catch.class, rest.as_slice())?;
    }
    walk.thrown.append(rest)
}

/// Walks past a catch clause to which this comes.
#[cycle(pass)]
fn pass_catch(
    alloc: Global,
    classes: &Classes<'_>,
    scope: &mut Scope,
    held: &mut Items<Held>,
    thrown: &[Throwing],
    catch: &Catch,
    walk: &mut Walk,
) -> Result<(), AllocError>
    ensures walked { IfOk result (λ _. walk.new ≡ spec.pass_list (setting_of classes.now)
        (held.old ++ throws.holding classes.now.headers.now catch.now.class catch.now.variable (view_stms catch.now.body) thrown.now ∷ [])
        (with_type catch.now.variable (Class catch.now.class) (scope_of scope.old)) (view_stms catch.now.body) walk.old) }
    ensures held { OnOk result (held.new ≡ held.old) }
    ensures scope { OnOk result (scope_of scope.new ≡ scope_of scope.old) }
{
    held.push(holding(alloc, classes.headers, catch, thrown)?)?;
    let mut kept = Items::new(alloc);
    open_catch(alloc, scope, catch, &mut kept)?;
    pass_list(alloc, classes, scope, held, catch.body.as_slice(), walk)?;
    held.pop();
    put_back(scope, kept)
}

/// Walks past the first list of a `finally`; what it throws counts where the last can complete.
#[cycle(pass)]
fn pass_first(
    alloc: Global,
    classes: &Classes<'_>,
    scope: &mut Scope,
    held: &mut Items<Held>,
    body: &[Stm],
    last: &[Stm],
    walk: &mut Walk,
) -> Result<(), AllocError>
    ensures walked { IfOk result (λ _. walk.new ≡ spec.with_thrown
        (walk.old.thrown ++ throws.through (list_completes (around (setting_of classes.now)) (view_stms last.now)) (spec.pass_apart (setting_of classes.now) held.old (scope_of scope.old) (view_stms body.now) walk.old).thrown)
        (spec.pass_apart (setting_of classes.now) held.old (scope_of scope.old) (view_stms body.now) walk.old)) }
    ensures held { OnOk result (held.new ≡ held.old) }
    ensures scope { OnOk result (scope_of scope.new ≡ scope_of scope.old) }
{
    let thrown = pass_apart(alloc, classes, scope, held, body, walk)?;
    let goes_on = completes(alloc, classes, last)?;
    walk.let_through(goes_on, thrown)
}
