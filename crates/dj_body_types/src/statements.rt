//! The walk over the statements of a body (JLS 14).

ghost use Rattle.std.specs.Prelude.{◌≡◌, [], ◌∷◌, IfOk, OnOk};
ghost use Rattle.std.specs.Option.{option_map, option_copied};
ghost use Rattle.dj_names.specs.Types.{Class, result_of, view_descriptor, view_type};
ghost use Rattle.dj_syntax.specs.Trees.{view_catches, view_exp, view_groups, view_stm, view_stms};
ghost use Rattle.dj_syntax.specs.WellFormedTrees.{is_declaration};
ghost use Rattle.dj_static.specs.Scopes.{scope_of};
ghost use Rattle.dj_meaning.specs.StaticTypes.{with_type};
ghost use Rattle.dj_meaning.specs.Declarations.{behind, declared, within};
ghost use Rattle.dj_scopes.specs.Keeping.{scope_back};
ghost use Rattle.dj_meaning.specs.Statements.{Behind};
ghost use Rattle.dj_reach.specs.declared.jump.Jump.TheVariants.{Break};
ghost use Rattle.dj_typed.specs.Statements.{in_loop, may_construct, with_targets};
ghost use Rattle.dj_checked.specs.Sites.{site_of};
ghost use Rattle.dj_body_types.specs.Views.{around_of, place_of};
ghost use Rattle.dj_body_types.specs.Walks as spec;

use crate::around::{Around, Position};
use crate::simple::{
    is_new, pass_construct, pass_first_value, pass_for, pass_monitor, pass_on, pass_rethrow,
    pass_return, pass_run, pass_set, pass_set_element, pass_set_field, pass_set_static, pass_test,
    pass_throw, pass_try,
};
use dj_checked::Walk;
use dj_names::{Descriptor, Items, JType};
use dj_places::TypeKind;
use dj_reach::{Jump, is_one_of};
use dj_scopes::{Kept, declare, keep, keep_declared, put_back};
use dj_static::Scope;
use dj_syntax::{Catch, Exp, Group, Stm, Var};
use std::alloc::{AllocError, Global};

/// The type of what a method gives.
fn result_of(descriptor: &Descriptor) -> Option<&JType>
    ensures result { option_map view_type (option_copied result) ≡ result_of (view_descriptor descriptor.now) }
{
    match descriptor {
        Descriptor::Method { result, .. } => result.as_ref(),
        Descriptor::Field(kind) => Some(kind),
    }
}

/// Whether a constructor may be called here.
fn may_construct(constructor: bool, at: Position) -> bool
    ensures may { result ≡ may_construct constructor (place_of at) }
{
    match at {
        Position::First => constructor,
        Position::Behind(_) | Position::Elsewhere => false,
    }
}

/// Whether a statement declares a variable.
fn is_declaration(statement: &Stm) -> bool
    ensures declaration { result ≡ is_declaration (view_stm statement.now) }
{
    match statement {
        Stm::Declare(_, _, _) => true,
        Stm::Block(_)
        | Stm::Labelled(_, _)
        | Stm::Set(_, _)
        | Stm::SetField(_, _, _)
        | Stm::SetStatic(_, _, _)
        | Stm::SetElement(_, _, _)
        | Stm::Run(_)
        | Stm::If(_, _, _)
        | Stm::While(_, _)
        | Stm::Switch(_, _)
        | Stm::Break(_)
        | Stm::Continue(_)
        | Stm::Return(_)
        | Stm::Throw(_)
        | Stm::Rethrow(_)
        | Stm::Try(_, _)
        | Stm::Synchronized(_, _)
        | Stm::Construct(_, _)
        | Stm::Do(_, _)
        | Stm::For(_, _, _, _)
        | Stm::Finally(_, _) => false,
    }
}

/// A label.
fn pass_label(targets: &[Jump], label: u32, statement: &Stm, walk: &mut Walk)
    ensures walked { walk.new ≡ spec.pass_label targets.now label (view_stm statement.now) walk.old }
{
    let place = walk.step();
    walk.note(place, TypeKind::Name, !is_declaration(statement));
    walk.note(
        place,
        TypeKind::Label,
        !is_one_of(Jump::Break(label), targets),
    );
}

/// A jump.
fn pass_jump(targets: &[Jump], jump: Jump, walk: &mut Walk)
    ensures walked { walk.new ≡ spec.pass_jump targets.now jump walk.old }
{
    let place = walk.step();
    walk.note(place, TypeKind::Label, is_one_of(jump, targets));
}

/// A declaration: its variable is in scope from its first value on.
fn pass_declare(
    alloc: Global,
    around: &Around<'_>,
    scope: &mut Scope,
    variable: Var,
    kind: &JType,
    initial: &Option<Exp>,
    walk: &mut Walk,
) -> Result<(), AllocError>
    ensures walked { IfOk result (λ _. walk.new ≡ spec.pass_declare (site_of around.now.site) (scope_of scope.old) variable (view_type kind.now) (option_map view_exp initial.now) walk.old) }
    ensures scope { OnOk result (scope_of scope.new ≡ with_type variable (view_type kind.now) (scope_of scope.old)) }
{
    let new = is_new(alloc, &around.site, scope, variable, kind)?;
    declare(alloc, scope, variable, kind)?;
    pass_first_value(alloc, &around.site, scope, kind, initial, new, walk)
}

/// The variable of a catch clause is in scope from now on; what it was is kept.
fn open_catch(
    alloc: Global,
    scope: &mut Scope,
    catch: &Catch,
    kept: &mut Items<Kept>,
) -> Result<(), AllocError>
    ensures scope { OnOk result (scope_of scope.new ≡ with_type catch.now.variable (Class catch.now.class) (scope_of scope.old)) }
    ensures kept { OnOk result (scope_back kept.new (scope_of scope.new) ≡ scope_back kept.old (scope_of scope.old)) }
{
    let kind = JType::Class(catch.class.copy(alloc)?);
    keep(alloc, scope, catch.variable, kept)?;
    declare(alloc, scope, catch.variable, &kind)?;
    Ok(())
}

/// Walks past a statement.
#[cycle(pass)]
pub fn pass(
    alloc: Global,
    around: &Around<'_>,
    at: Position,
    scope: &mut Scope,
    targets: &mut Items<Jump>,
    statement: &Stm,
    walk: &mut Walk,
) -> Result<(), AllocError>
    ensures walked { IfOk result (λ _. walk.new ≡ spec.pass (around_of around.now targets.old) (place_of at) (scope_of scope.old) (view_stm statement.now) walk.old) }
    ensures targets { OnOk result (targets.new ≡ targets.old) }
    ensures scope { OnOk result (scope_of scope.new ≡ within (declared (view_stm statement.now)) (scope_of scope.old)) }
{
    let site = &around.site;
    match statement {
        Stm::Block(list) => {
            walk.step();
            pass_list(alloc, around, scope, targets, list.as_slice(), walk)
        }
        Stm::Labelled(label, statement) => {
            pass_label(targets.as_slice(), *label, statement.get(), walk);
            pass_labelled(alloc, around, *label, scope, targets, statement.get(), walk)
        }
        Stm::Declare(variable, kind, initial) => {
            pass_declare(alloc, around, scope, *variable, kind, initial, walk)
        }
        Stm::Set(variable, new) => pass_set(alloc, site, scope, *variable, new, walk),
        Stm::SetField(object, name, new) => {
            pass_set_field(alloc, site, scope, object, name, new, walk)
        }
        Stm::SetStatic(class, name, new) => {
            pass_set_static(alloc, site, scope, class, name, new, walk)
        }
        Stm::SetElement(array, index, new) => {
            pass_set_element(alloc, site, scope, array, index, new, walk)
        }
        Stm::Run(call) => pass_run(alloc, site, scope, call, walk),
        Stm::If(test, first, second) => {
            let place = walk.step();
            pass_test(alloc, site, scope, place, test, walk)?;
            pass_list(alloc, around, scope, targets, first.as_slice(), walk)?;
            pass_list(alloc, around, scope, targets, second.as_slice(), walk)
        }
        Stm::While(test, body) => {
            let place = walk.step();
            pass_test(alloc, site, scope, place, test, walk)?;
            pass_turns(alloc, around, at, scope, targets, body.as_slice(), walk)
        }
        Stm::Switch(on, groups) => {
            pass_on(alloc, site, scope, on, groups.as_slice(), walk)?;
            pass_groups(alloc, around, scope, targets, groups.as_slice(), walk)
        }
        Stm::Break(label) => {
            pass_jump(targets.as_slice(), Jump::Break(*label), walk);
            Ok(())
        }
        Stm::Continue(label) => {
            pass_jump(targets.as_slice(), Jump::Continue(*label), walk);
            Ok(())
        }
        Stm::Return(value) => {
            let wanted = result_of(around.descriptor);
            pass_return(alloc, site, scope, wanted, value, walk)
        }
        Stm::Throw(exception) => pass_throw(alloc, site, scope, exception, walk),
        Stm::Rethrow(variable) => pass_rethrow(alloc, site, scope, *variable, walk),
        Stm::Try(body, catches) => {
            pass_try(alloc, site, scope, catches.as_slice(), walk)?;
            pass_list(alloc, around, scope, targets, body.as_slice(), walk)?;
            pass_catches(alloc, around, scope, targets, catches.as_slice(), walk)
        }
        Stm::Synchronized(monitor, body) => {
            pass_monitor(alloc, site, scope, monitor, walk)?;
            pass_list(alloc, around, scope, targets, body.as_slice(), walk)
        }
        Stm::Construct(own, arguments) => {
            let may = may_construct(around.constructs, at);
            pass_construct(alloc, site, scope, may, *own, arguments.as_slice(), walk)
        }
        Stm::Do(body, test) => {
            let place = walk.step();
            pass_turns(alloc, around, at, scope, targets, body.as_slice(), walk)?;
            pass_test(alloc, site, scope, place, test, walk)
        }
        Stm::For(test, variable, next, body) => {
            pass_for(alloc, site, scope, test, *variable, next, walk)?;
            pass_turns(alloc, around, at, scope, targets, body.as_slice(), walk)
        }
        Stm::Finally(body, last) => {
            walk.step();
            pass_list(alloc, around, scope, targets, body.as_slice(), walk)?;
            pass_list(alloc, around, scope, targets, last.as_slice(), walk)
        }
    }
}

/// Walks past the statement behind a label, which takes breaks with it; what the variable was that it
/// declares is kept.
#[cycle(pass)]
fn pass_inner(
    alloc: Global,
    around: &Around<'_>,
    label: u32,
    scope: &mut Scope,
    targets: &mut Items<Jump>,
    kept: &mut Items<Kept>,
    statement: &Stm,
    walk: &mut Walk,
) -> Result<(), AllocError>
    ensures walked { IfOk result (λ _. walk.new ≡ spec.pass (with_targets (Break label ∷ []) (around_of around.now targets.old)) (Behind label) (scope_of scope.old) (view_stm statement.now) walk.old) }
    ensures targets { OnOk result (targets.new ≡ targets.old) }
    ensures kept { OnOk result (scope_back kept.new (scope_of scope.new) ≡ scope_back kept.old (scope_of scope.old)) }
{
    keep_declared(alloc, scope, statement, kept)?;
    targets.push(Jump::Break(label))?;
    let at = Position::Behind(label);
    pass(alloc, around, at, scope, targets, statement, walk)?;
    targets.pop();
    Ok(())
}

/// Walks past the statement behind a label; what it declares is its alone.
#[cycle(pass)]
fn pass_labelled(
    alloc: Global,
    around: &Around<'_>,
    label: u32,
    scope: &mut Scope,
    targets: &mut Items<Jump>,
    statement: &Stm,
    walk: &mut Walk,
) -> Result<(), AllocError>
    ensures walked { IfOk result (λ _. walk.new ≡ spec.pass (with_targets (Break label ∷ []) (around_of around.now targets.old)) (Behind label) (scope_of scope.old) (view_stm statement.now) walk.old) }
    ensures targets { OnOk result (targets.new ≡ targets.old) }
    ensures scope { OnOk result (scope_of scope.new ≡ scope_of scope.old) }
{
    let mut kept = Items::new(alloc);
    pass_inner(
        alloc, around, label, scope, targets, &mut kept, statement, walk,
    )?;
    put_back(scope, kept)
}

/// Walks past the statements of a loop that stands here, which takes continues with the label right
/// before it.
#[cycle(pass)]
fn pass_turns(
    alloc: Global,
    around: &Around<'_>,
    at: Position,
    scope: &mut Scope,
    targets: &mut Items<Jump>,
    list: &[Stm],
    walk: &mut Walk,
) -> Result<(), AllocError>
    ensures walked { IfOk result (λ _. walk.new ≡ spec.pass_list (in_loop (place_of at) (around_of around.now targets.old)) (scope_of scope.old) (view_stms list.now) walk.old) }
    ensures targets { OnOk result (targets.new ≡ targets.old) }
    ensures scope { OnOk result (scope_of scope.new ≡ scope_of scope.old) }
{
    match at {
        Position::Behind(label) => {
            targets.push(Jump::Continue(label))?;
            pass_list(alloc, around, scope, targets, list, walk)?;
            targets.pop();
            Ok(())
        }
        Position::First | Position::Elsewhere => {
            pass_list(alloc, around, scope, targets, list, walk)
        }
    }
}

/// Walks past statements, which go on in the scope that there is; what the variables were that they
/// declare is kept.
#[cycle(pass)]
fn pass_open(
    alloc: Global,
    around: &Around<'_>,
    scope: &mut Scope,
    targets: &mut Items<Jump>,
    kept: &mut Items<Kept>,
    list: &[Stm],
    walk: &mut Walk,
) -> Result<(), AllocError>
    ensures walked { IfOk result (λ _. walk.new ≡ spec.pass_list (around_of around.now targets.old) (scope_of scope.old) (view_stms list.now) walk.old) }
    ensures targets { OnOk result (targets.new ≡ targets.old) }
    ensures kept { OnOk result (scope_back kept.new (scope_of scope.new) ≡ scope_back kept.old (scope_of scope.old)) }
    ensures behind { OnOk result (scope_of scope.new ≡ behind (view_stms list.now) (scope_of scope.old)) }
{
    for statement in list {
        keep_declared(alloc, scope, statement, kept)?;
        let at = Position::Elsewhere;
        pass(alloc, around, at, scope, targets, statement, walk)?;
    }
    Ok(())
}

/// Walks past statements; what they declare is theirs alone.
#[cycle(pass)]
pub fn pass_list(
    alloc: Global,
    around: &Around<'_>,
    scope: &mut Scope,
    targets: &mut Items<Jump>,
    list: &[Stm],
    walk: &mut Walk,
) -> Result<(), AllocError>
    ensures walked { IfOk result (λ _. walk.new ≡ spec.pass_list (around_of around.now targets.old) (scope_of scope.old) (view_stms list.now) walk.old) }
    ensures targets { OnOk result (targets.new ≡ targets.old) }
    ensures scope { OnOk result (scope_of scope.new ≡ scope_of scope.old) }
{
    let mut kept = Items::new(alloc);
    pass_open(alloc, around, scope, targets, &mut kept, list, walk)?;
    put_back(scope, kept)
}

/// Walks past the groups of a switch, which go on in one scope.
#[cycle(pass)]
fn pass_open_groups(
    alloc: Global,
    around: &Around<'_>,
    scope: &mut Scope,
    targets: &mut Items<Jump>,
    kept: &mut Items<Kept>,
    groups: &[Group],
    walk: &mut Walk,
) -> Result<(), AllocError>
    ensures walked { IfOk result (λ _. walk.new ≡ spec.pass_groups (around_of around.now targets.old) (scope_of scope.old) (view_groups groups.now) walk.old) }
    ensures targets { OnOk result (targets.new ≡ targets.old) }
    ensures kept { OnOk result (scope_back kept.new (scope_of scope.new) ≡ scope_back kept.old (scope_of scope.old)) }
{
    for group in groups {
        let list = group.body.as_slice();
        pass_open(alloc, around, scope, targets, kept, list, walk)?;
    }
    Ok(())
}

/// Walks past the groups of a switch; what they declare is theirs alone.
#[cycle(pass)]
fn pass_groups(
    alloc: Global,
    around: &Around<'_>,
    scope: &mut Scope,
    targets: &mut Items<Jump>,
    groups: &[Group],
    walk: &mut Walk,
) -> Result<(), AllocError>
    ensures walked { IfOk result (λ _. walk.new ≡ spec.pass_groups (around_of around.now targets.old) (scope_of scope.old) (view_groups groups.now) walk.old) }
    ensures targets { OnOk result (targets.new ≡ targets.old) }
    ensures scope { OnOk result (scope_of scope.new ≡ scope_of scope.old) }
{
    let mut kept = Items::new(alloc);
    pass_open_groups(alloc, around, scope, targets, &mut kept, groups, walk)?;
    put_back(scope, kept)
}

/// Walks past the statements of a catch clause, in which its variable is in scope.
#[cycle(pass)]
fn pass_catch(
    alloc: Global,
    around: &Around<'_>,
    scope: &mut Scope,
    targets: &mut Items<Jump>,
    catch: &Catch,
    walk: &mut Walk,
) -> Result<(), AllocError>
    ensures walked { IfOk result (λ _. walk.new ≡ spec.pass_list (around_of around.now targets.old) (with_type catch.now.variable (Class catch.now.class) (scope_of scope.old)) (view_stms catch.now.body) walk.old) }
    ensures targets { OnOk result (targets.new ≡ targets.old) }
    ensures scope { OnOk result (scope_of scope.new ≡ scope_of scope.old) }
{
    let mut kept = Items::new(alloc);
    open_catch(alloc, scope, catch, &mut kept)?;
    let list = catch.body.as_slice();
    pass_list(alloc, around, scope, targets, list, walk)?;
    put_back(scope, kept)
}

/// Walks past the catch clauses of a try.
#[cycle(pass)]
fn pass_catches(
    alloc: Global,
    around: &Around<'_>,
    scope: &mut Scope,
    targets: &mut Items<Jump>,
    catches: &[Catch],
    walk: &mut Walk,
) -> Result<(), AllocError>
    ensures walked { IfOk result (λ _. walk.new ≡ spec.pass_catches (around_of around.now targets.old) (scope_of scope.old) (view_catches catches.now) walk.old) }
    ensures targets { OnOk result (targets.new ≡ targets.old) }
    ensures scope { OnOk result (scope_of scope.new ≡ scope_of scope.old) }
{
    for catch in catches {
        pass_catch(alloc, around, scope, targets, catch, walk)?;
    }
    Ok(())
}
