//! Statements, and beginnings of statements, without the statements in them (JLS 14).

ghost use Rattle.std.specs.Prelude.{◌≡◌, ◌&&◌, not, is_some, IfOk, List};
ghost use Rattle.std.specs.Option.{option_map, option_copied};
ghost use Rattle.dj_names.specs.Types.{view_static, view_type};
ghost use Rattle.dj_syntax.specs.Trees.{view_catches, view_exp, view_exps, view_groups};
ghost use Rattle.dj_static.specs.Scopes.{scope_of};
ghost use Rattle.dj_meaning.specs.StaticTypes.{typed, with_type};
ghost use Rattle.dj_syntax.specs.WellFormedTrees.{is_call};
ghost use Rattle.dj_typed.specs.Statements as rules;
ghost use Rattle.dj_checked.specs.Sites.{site_of};
ghost use Rattle.dj_body_types.specs.Walks as spec;

use crate::clauses::{are_exceptions, are_new_catches, throwable};
use crate::labels::{are_distinct, are_formed, both};
use crate::stores::{may_set, may_set_static, set_static_type, set_type};
use dj_checked::{
    Site, Test, Walk, can_name, construct_target, copied, goes, if_of, is_meant, is_whole_static,
    may_name_member, may_name_type, pass_effect, pass_exp, pass_exps, plain,
};
use dj_names::{ClassName, JType, StaticType, Units};
use dj_places::TypeKind;
use dj_static::{Scope, element_of};
use dj_syntax::{Catch, Exp, Group, Var};
use std::alloc::{AllocError, Global};

/// Whether a variable is in scope, and the class of its type is whole.
fn is_named(
    alloc: Global,
    site: &Site<'_>,
    scope: &Scope,
    variable: Var,
) -> Result<bool, AllocError>
    ensures named { IfOk result (λ named. named ≡ rules.is_named (site_of site.now) (scope_of scope.now) variable) }
{
    let kind = scope.kind(variable);
    let found = copied(alloc, kind)?;
    let whole = is_whole_static(alloc, site.classes.headers, &found)?;
    Ok(kind.is_some() && whole)
}

/// Whether a variable may be declared with a type.
pub fn is_new(
    alloc: Global,
    site: &Site<'_>,
    scope: &Scope,
    variable: Var,
    kind: &JType,
) -> Result<bool, AllocError>
    ensures new { IfOk result (λ new. new ≡ rules.is_new (site_of site.now) (scope_of scope.now) variable (view_type kind.now)) }
{
    let named = may_name_type(alloc, site, kind)?;
    Ok(scope.kind(variable).is_none() && named)
}

/// Walks past an expression, if there is one, and tells whether it goes where a type is wanted.
fn pass_option(
    alloc: Global,
    site: &Site<'_>,
    scope: &Scope,
    exp: &Option<Exp>,
    wanted: &JType,
    walk: &mut Walk,
) -> Result<bool, AllocError>
    ensures walked { IfOk result (λ _. walk.new ≡ spec.pass_option (site_of site.now) (scope_of scope.now) (option_map view_exp exp.now) walk.old) }
    ensures goes { IfOk result (λ goes. goes ≡ rules.option_goes (site_of site.now) (scope_of scope.now) (option_map view_exp exp.now) (Some (view_type wanted.now))) }
{
    match exp {
        None => Ok(true),
        Some(exp) => {
            let found = pass_exp(alloc, site, scope, exp, walk)?;
            Ok(goes(site.classes.headers, &found, Some(wanted)))
        }
    }
}

/// A declaration, in the scope that it opens, given whether it may be made.
pub fn pass_first_value(
    alloc: Global,
    site: &Site<'_>,
    scope: &Scope,
    kind: &JType,
    initial: &Option<Exp>,
    new: bool,
    walk: &mut Walk,
) -> Result<(), AllocError>
    ensures walked { IfOk result (λ _. walk.new ≡ spec.pass_first_value (site_of site.now) (scope_of scope.now) (view_type kind.now) (option_map view_exp initial.now) new walk.old) }
{
    let place = walk.step();
    let goes = pass_option(alloc, site, scope, initial, kind, walk)?;
    walk.note(place, TypeKind::Name, new);
    walk.note(place, TypeKind::WrongType, goes);
    Ok(())
}

/// A variable that is set.
pub fn pass_set(
    alloc: Global,
    site: &Site<'_>,
    scope: &Scope,
    variable: Var,
    new: &Exp,
    walk: &mut Walk,
) -> Result<(), AllocError>
    ensures walked { IfOk result (λ _. walk.new ≡ spec.pass_set (site_of site.now) (scope_of scope.now) variable (view_exp new.now) walk.old) }
{
    let named = is_named(alloc, site, scope, variable)?;
    let place = walk.step();
    let new = pass_exp(alloc, site, scope, new, walk)?;
    walk.note(place, TypeKind::Name, named);
    let goes = goes(site.classes.headers, &new, scope.kind(variable));
    walk.note(place, TypeKind::WrongType, goes);
    Ok(())
}

/// A field of an object that is set.
pub fn pass_set_field(
    alloc: Global,
    site: &Site<'_>,
    scope: &Scope,
    object: &Exp,
    name: &Units,
    new: &Exp,
    walk: &mut Walk,
) -> Result<(), AllocError>
    ensures walked { IfOk result (λ _. walk.new ≡ spec.pass_set_field (site_of site.now) (scope_of scope.now) (view_exp object.now) name.now (view_exp new.now) walk.old) }
{
    let place = walk.step();
    let object = pass_exp(alloc, site, scope, object, walk)?;
    let new = pass_exp(alloc, site, scope, new, walk)?;
    note_set_field(alloc, site, place, &object, name, &new, walk)
}

/// The rules on a field of an object that is set, by the types of the object and of the new value.
fn note_set_field(
    alloc: Global,
    site: &Site<'_>,
    place: u32,
    object: &Option<StaticType>,
    name: &Units,
    new: &Option<StaticType>,
    walk: &mut Walk,
) -> Result<(), AllocError>
    ensures noted { IfOk result (λ _. walk.new ≡ spec.note_set_field (site_of site.now) place (option_map view_static object.now) name.now (option_map view_static new.now) walk.old) }
{
    let may = may_set(alloc, site, object, name)?;
    let field = set_type(alloc, site, object, name)?;
    walk.note(place, TypeKind::Name, can_name(name));
    walk.note(place, TypeKind::Access, may);
    let goes = goes(site.classes.headers, new, plain(&field));
    walk.note(place, TypeKind::WrongType, goes);
    Ok(())
}

/// A static field that is set.
pub fn pass_set_static(
    alloc: Global,
    site: &Site<'_>,
    scope: &Scope,
    class: &ClassName,
    name: &Units,
    new: &Exp,
    walk: &mut Walk,
) -> Result<(), AllocError>
    ensures walked { IfOk result (λ _. walk.new ≡ spec.pass_set_static (site_of site.now) (scope_of scope.now) class.now name.now (view_exp new.now) walk.old) }
{
    let place = walk.step();
    let new = pass_exp(alloc, site, scope, new, walk)?;
    note_set_static(alloc, site, place, class, name, &new, walk)
}

/// The rules on a static field that is set, by the type of the new value.
fn note_set_static(
    alloc: Global,
    site: &Site<'_>,
    place: u32,
    class: &ClassName,
    name: &Units,
    new: &Option<StaticType>,
    walk: &mut Walk,
) -> Result<(), AllocError>
    ensures noted { IfOk result (λ _. walk.new ≡ spec.note_set_static (site_of site.now) place class.now name.now (option_map view_static new.now) walk.old) }
{
    let named = may_name_member(alloc, site, class, name)?;
    let may = may_set_static(alloc, site, class, name)?;
    let field = set_static_type(alloc, site, class, name)?;
    walk.note(place, TypeKind::Name, named);
    walk.note(place, TypeKind::Access, may);
    let goes = goes(site.classes.headers, new, plain(&field));
    walk.note(place, TypeKind::WrongType, goes);
    Ok(())
}

/// Whether an element is set, by the types of the array, the index and the new value.
fn sets_element(
    site: &Site<'_>,
    array: &Option<StaticType>,
    index: &Option<StaticType>,
    new: &Option<StaticType>,
) -> bool
    ensures sets { result ≡ spec.sets_by (site_of site.now) (option_map view_static array.now) (option_map view_static index.now) (option_map view_static new.now) }
{
    let element = match plain(array) {
        None => None,
        Some(kind) => element_of(kind),
    };
    if_of(Test::Array, array) && if_of(Test::Int, index) && goes(site.classes.headers, new, element)
}

/// An element of an array that is set.
pub fn pass_set_element(
    alloc: Global,
    site: &Site<'_>,
    scope: &Scope,
    array: &Exp,
    index: &Exp,
    new: &Exp,
    walk: &mut Walk,
) -> Result<(), AllocError>
    ensures walked { IfOk result (λ _. walk.new ≡ spec.pass_set_element (site_of site.now) (scope_of scope.now) (view_exp array.now) (view_exp index.now) (view_exp new.now) walk.old) }
{
    let place = walk.step();
    let array = pass_exp(alloc, site, scope, array, walk)?;
    let index = pass_exp(alloc, site, scope, index, walk)?;
    let new = pass_exp(alloc, site, scope, new, walk)?;
    walk.note(
        place,
        TypeKind::WrongType,
        sets_element(site, &array, &index, &new),
    );
    Ok(())
}

/// Whether an expression may be a statement: a call, or a new object.
fn is_call(exp: &Exp) -> bool
    ensures call { result ≡ is_call (view_exp exp.now) }
{
    match exp {
        Exp::Call(_, _, _) | Exp::StaticCall(_, _, _) | Exp::SuperCall(_, _, _) | Exp::New(_, _) =>
            { true }
        Exp::Int(_)
        | Exp::Long(_)
        | Exp::Text(_)
        | Exp::Bool(_)
        | Exp::Null
        | Exp::This
        | Exp::Var(_)
        | Exp::ClassOf(_)
        | Exp::Field(_, _)
        | Exp::Static(_, _)
        | Exp::Element(_, _)
        | Exp::NewArray(_, _, _)
        | Exp::Cast(_, _)
        | Exp::InstanceOf(_, _)
        | Exp::Negative(_)
        | Exp::Not(_)
        | Exp::Binary(_, _, _)
        | Exp::Choice(_, _, _)
        | Exp::Assign(_, _) => false,
    }
}

/// An expression that is a statement.
pub fn pass_run(
    alloc: Global,
    site: &Site<'_>,
    scope: &Scope,
    call: &Exp,
    walk: &mut Walk,
) -> Result<(), AllocError>
    ensures walked { IfOk result (λ _. walk.new ≡ spec.pass_run (site_of site.now) (scope_of scope.now) (view_exp call.now) walk.old) }
{
    let place = walk.step();
    pass_effect(alloc, site, scope, call, walk)?;
    walk.note(place, TypeKind::Name, is_call(call));
    Ok(())
}

/// The condition of a statement at an earlier place.
pub fn pass_test(
    alloc: Global,
    site: &Site<'_>,
    scope: &Scope,
    place: u32,
    test: &Exp,
    walk: &mut Walk,
) -> Result<(), AllocError>
    ensures walked { IfOk result (λ _. walk.new ≡ spec.pass_test (site_of site.now) (scope_of scope.now) place (view_exp test.now) walk.old) }
{
    let found = pass_exp(alloc, site, scope, test, walk)?;
    walk.note(place, TypeKind::WrongType, if_of(Test::Boolean, &found));
    Ok(())
}

/// Whether the type of an expression is int itself, where it has one.
fn is_int_itself(found: &Option<StaticType>) -> bool
    ensures int { result ≡ spec.is_int_itself (option_map view_static found.now) }
{
    match found {
        None => true,
        Some(StaticType::Null) => false,
        Some(StaticType::Of(kind)) => matches!(kind, JType::Int),
    }
}

/// The head of a switch.
pub fn pass_on(
    alloc: Global,
    site: &Site<'_>,
    scope: &Scope,
    on: &Exp,
    groups: &[Group],
    walk: &mut Walk,
) -> Result<(), AllocError>
    ensures walked { IfOk result (λ _. walk.new ≡ spec.pass_on (site_of site.now) (scope_of scope.now) (view_exp on.now) (view_groups groups.now) walk.old) }
{
    let distinct = are_distinct(alloc, groups)?;
    let place = walk.step();
    let on = pass_exp(alloc, site, scope, on, walk)?;
    walk.note(place, TypeKind::Name, are_formed(groups));
    walk.note(place, TypeKind::WrongType, is_int_itself(&on) && distinct);
    Ok(())
}

/// Walks past what is returned, and tells whether that fits a method with this result, or none.
fn pass_returned(
    alloc: Global,
    site: &Site<'_>,
    scope: &Scope,
    wanted: Option<&JType>,
    value: &Option<Exp>,
    walk: &mut Walk,
) -> Result<bool, AllocError>
    ensures walked { IfOk result (λ _. walk.new ≡ spec.pass_option (site_of site.now) (scope_of scope.now) (option_map view_exp value.now) walk.old) }
    ensures returns { IfOk result (λ returns. returns ≡ rules.returns (site_of site.now) (scope_of scope.now) (option_map view_type (option_copied wanted.entry)) (option_map view_exp value.now)) }
{
    match value {
        None => Ok(wanted.is_none()),
        Some(value) => {
            let found = pass_exp(alloc, site, scope, value, walk)?;
            match wanted {
                None => Ok(false),
                Some(wanted) => Ok(goes(site.classes.headers, &found, Some(wanted))),
            }
        }
    }
}

/// A return from a method with this result, or none.
pub fn pass_return(
    alloc: Global,
    site: &Site<'_>,
    scope: &Scope,
    wanted: Option<&JType>,
    value: &Option<Exp>,
    walk: &mut Walk,
) -> Result<(), AllocError>
    ensures walked { IfOk result (λ _. walk.new ≡ spec.pass_return (site_of site.now) (scope_of scope.now) (option_map view_type (option_copied wanted.entry)) (option_map view_exp value.now) walk.old) }
{
    let place = walk.step();
    let returns = pass_returned(alloc, site, scope, wanted, value, walk)?;
    walk.note(place, TypeKind::WrongType, returns);
    Ok(())
}

/// A `throw`.
pub fn pass_throw(
    alloc: Global,
    site: &Site<'_>,
    scope: &Scope,
    exception: &Exp,
    walk: &mut Walk,
) -> Result<(), AllocError>
    ensures walked { IfOk result (λ _. walk.new ≡ spec.pass_throw (site_of site.now) (scope_of scope.now) (view_exp exception.now) walk.old) }
{
    let wanted = throwable(alloc)?;
    let place = walk.step();
    let found = pass_exp(alloc, site, scope, exception, walk)?;
    let goes = goes(site.classes.headers, &found, Some(&wanted));
    walk.note(place, TypeKind::WrongType, goes);
    Ok(())
}

/// A variable that is thrown on.
pub fn pass_rethrow(
    alloc: Global,
    site: &Site<'_>,
    scope: &Scope,
    variable: Var,
    walk: &mut Walk,
) -> Result<(), AllocError>
    ensures walked { IfOk result (λ _. walk.new ≡ spec.pass_rethrow (site_of site.now) (scope_of scope.now) variable walk.old) }
{
    let wanted = throwable(alloc)?;
    let named = is_named(alloc, site, scope, variable)?;
    let found = copied(alloc, scope.kind(variable))?;
    let place = walk.step();
    walk.note(place, TypeKind::Name, named);
    let goes = goes(site.classes.headers, &found, Some(&wanted));
    walk.note(place, TypeKind::WrongType, goes);
    Ok(())
}

/// The head of a try, with its clauses.
pub fn pass_try(
    alloc: Global,
    site: &Site<'_>,
    scope: &Scope,
    catches: &[Catch],
    walk: &mut Walk,
) -> Result<(), AllocError>
    ensures walked { IfOk result (λ _. walk.new ≡ spec.pass_try (site_of site.now) (scope_of scope.now) (view_catches catches.now) walk.old) }
{
    let new = are_new_catches(alloc, site, scope, catches)?;
    let exceptions = are_exceptions(alloc, site.classes.headers, catches)?;
    let place = walk.step();
    walk.note(place, TypeKind::Name, new);
    walk.note(place, TypeKind::Catch, exceptions);
    Ok(())
}

/// The monitor of a `synchronized`.
pub fn pass_monitor(
    alloc: Global,
    site: &Site<'_>,
    scope: &Scope,
    monitor: &Exp,
    walk: &mut Walk,
) -> Result<(), AllocError>
    ensures walked { IfOk result (λ _. walk.new ≡ spec.pass_monitor (site_of site.now) (scope_of scope.now) (view_exp monitor.now) walk.old) }
{
    let place = walk.step();
    let found = pass_exp(alloc, site, scope, monitor, walk)?;
    walk.note(place, TypeKind::WrongType, if_of(Test::Reference, &found));
    Ok(())
}

/// A call of another constructor, given whether one may stand here.
pub fn pass_construct(
    alloc: Global,
    site: &Site<'_>,
    scope: &Scope,
    may: bool,
    own: bool,
    arguments: &[Exp],
    walk: &mut Walk,
) -> Result<(), AllocError>
    ensures walked { IfOk result (λ _. walk.new ≡ spec.pass_construct (site_of site.now) (scope_of scope.now) may own (view_exps arguments.now) walk.old) }
{
    let bare = Site {
        has_this: false,
        ..*site
    };
    let place = walk.step();
    let given = pass_exps(alloc, &bare, scope, arguments, walk)?;
    let target = construct_target(alloc, &site.classes, own, &given)?;
    let meant = both(may, is_meant(&given, &target));
    walk.note(place, TypeKind::Call, meant);
    Ok(())
}

/// The head of a `for`.
pub fn pass_for(
    alloc: Global,
    site: &Site<'_>,
    scope: &Scope,
    test: &Exp,
    variable: Var,
    next: &Exp,
    walk: &mut Walk,
) -> Result<(), AllocError>
    ensures walked { IfOk result (λ _. walk.new ≡ spec.pass_for (site_of site.now) (scope_of scope.now) (view_exp test.now) variable (view_exp next.now) walk.old) }
{
    let named = is_named(alloc, site, scope, variable)?;
    let place = walk.step();
    let test = pass_exp(alloc, site, scope, test, walk)?;
    let next = pass_exp(alloc, site, scope, next, walk)?;
    walk.note(place, TypeKind::Name, named);
    let goes = goes(site.classes.headers, &next, scope.kind(variable));
    walk.note(
        place,
        TypeKind::WrongType,
        if_of(Test::Boolean, &test) && goes,
    );
    Ok(())
}
