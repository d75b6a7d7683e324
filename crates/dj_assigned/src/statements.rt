//! The walk over statements.

ghost use Rattle.std.specs.Prelude.{◌≡◌, IfOk};
ghost use Rattle.dj_syntax.specs.Trees.{view_catches, view_groups, view_stm, view_stms};
ghost use Rattle.dj_places.specs.Surroundings.{surroundings_of};
ghost use Rattle.dj_assigned.specs.Walks as spec;

use crate::course::Course;
use dj_conditions::{first_value, look, look_each, look_option, test};
use dj_names::Items;
use dj_places::places;
use dj_reach::{Jump, completes, has_default};
use dj_static::Classes;
use dj_syntax::{Catch, Group, Stm, Var};
use dj_variables::{removed, union};
use std::alloc::{AllocError, Global};
use std::mem;

/// What isn't assigned where a switch jumps over a statement.
fn jump_over(alloc: Global, statement: &Stm, unassigned: &mut Items<Var>) -> Result<(), AllocError>
    ensures jumped { IfOk result (λ _. unassigned.new ≡ spec.jumped_over (view_stm statement.now) unassigned.old) }
{
    match statement {
        Stm::Declare(variable, _, _) => {
            *unassigned = union(alloc, unassigned.as_slice(), &[*variable])?;
            Ok(())
        }
        Stm::Block(_)
        | Stm::Labelled(_, _)
        | Stm::Set(_, _)
        | Stm::SetField(_, _, _)
        | Stm::SetStatic(_, _, _)
        | Stm::SetElement(_, _, _)
        | Stm::Run(_)
        | Stm::If(_, _, _)
        | Stm::While(_, _)
        | Stm::Switch(_, _)
        | Stm::Break(_)
        | Stm::Continue(_)
        | Stm::Return(_)
        | Stm::Throw(_)
        | Stm::Rethrow(_)
        | Stm::Try(_, _)
        | Stm::Synchronized(_, _)
        | Stm::Construct(_, _)
        | Stm::Do(_, _)
        | Stm::For(_, _, _, _)
        | Stm::Finally(_, _) => Ok(()),
    }
}

/// What isn't assigned where a switch jumps over statements.
fn jump_over_all(alloc: Global, list: &[Stm], unassigned: &mut Items<Var>) -> Result<(), AllocError>
    ensures jumped { IfOk result (λ _. unassigned.new ≡ spec.list_jumped_over (view_stms list.now) unassigned.old) }
{
    for statement in list {
        jump_over(alloc, statement, unassigned)?;
    }
    Ok(())
}

/// Walks past a statement, given the label right before it.
#[cycle(pass)]
fn pass(
    alloc: Global,
    classes: &Classes<'_>,
    own: Option<u32>,
    statement: &Stm,
    course: &mut Course,
) -> Result<(), AllocError>
    ensures walked { IfOk result (λ _. course.new ≡ spec.pass (surroundings_of classes.now) own (view_stm statement.now) course.old) }
{
    match statement {
        Stm::Block(list) => {
            course.walk.step();
            pass_list(alloc, classes, list.as_slice(), course)
        }
        Stm::Labelled(label, statement) => {
            course.walk.step();
            let before = mem::replace(&mut course.jumps, Items::new(alloc));
            pass(alloc, classes, Some(*label), statement.get(), course)?;
            course.end_label(alloc, *label, before)
        }
        Stm::Declare(variable, _, value) => {
            course.walk.step();
            course.walk.forget(alloc, *variable)?;
            first_value(alloc, classes, *variable, value, &mut course.walk)
        }
        Stm::Set(variable, value) => {
            course.walk.step();
            look(alloc, classes, value, &mut course.walk)?;
            course.walk.write(alloc, *variable)
        }
        Stm::SetField(object, _, value) => {
            course.walk.step();
            look(alloc, classes, object, &mut course.walk)?;
            look(alloc, classes, value, &mut course.walk)
        }
        Stm::SetStatic(_, _, value) | Stm::Run(value) => {
            course.walk.step();
            look(alloc, classes, value, &mut course.walk)
        }
        Stm::SetElement(array, index, value) => {
            course.walk.step();
            look(alloc, classes, array, &mut course.walk)?;
            look(alloc, classes, index, &mut course.walk)?;
            look(alloc, classes, value, &mut course.walk)
        }
        Stm::If(condition, first, second) => {
            course.walk.step();
            let otherwise = test(alloc, classes, condition, &mut course.walk)?;
            pass_list(alloc, classes, first.as_slice(), course)?;
            let behind_first = mem::replace(&mut course.walk.unassigned, otherwise);
            pass_list(alloc, classes, second.as_slice(), course)?;
            course.walk.meet_with(alloc, behind_first.as_slice())
        }
        Stm::While(condition, body) => {
            course.walk.step();
            let otherwise = test(alloc, classes, condition, &mut course.walk)?;
            pass_list(alloc, classes, body.as_slice(), course)?;
            course.walk.unassigned = otherwise;
            Ok(())
        }
        Stm::Switch(value, groups) => {
            course.walk.step();
            look(alloc, classes, value, &mut course.walk)?;
            let mut jumped = mem::replace(&mut course.walk.unassigned, Items::new(alloc));
            pass_groups(alloc, classes, groups.as_slice(), &mut jumped, course)?;
            if has_default(groups.as_slice()) {
                return Ok(());
            }
            course.walk.meet_with(alloc, jumped.as_slice())
        }
        Stm::Break(label) => course.leave_by(alloc, Jump::Break(*label)),
        Stm::Continue(label) => course.leave_by(alloc, Jump::Continue(*label)),
        Stm::Return(value) => {
            course.walk.step();
            look_option(alloc, classes, value, &mut course.walk)?;
            course.walk.unassigned = Items::new(alloc);
            Ok(())
        }
        Stm::Throw(value) => {
            course.walk.step();
            look(alloc, classes, value, &mut course.walk)?;
            course.walk.unassigned = Items::new(alloc);
            Ok(())
        }
        Stm::Rethrow(variable) => {
            course.walk.read(*variable);
            course.walk.step();
            course.walk.unassigned = Items::new(alloc);
            Ok(())
        }
        Stm::Try(body, catches) => {
            let before = course.walk.copied(alloc)?;
            course.walk.step();
            pass_list(alloc, classes, body.as_slice(), course)?;
            pass_catches(
                alloc,
                classes,
                catches.as_slice(),
                before.as_slice(),
                course,
            )
        }
        Stm::Synchronized(monitor, body) => {
            course.walk.step();
            look(alloc, classes, monitor, &mut course.walk)?;
            pass_list(alloc, classes, body.as_slice(), course)
        }
        Stm::Construct(_, arguments) => {
            course.walk.step();
            look_each(alloc, classes, arguments.as_slice(), &mut course.walk)
        }
        Stm::Do(body, condition) => {
            course.walk.step();
            let before = mem::replace(&mut course.jumps, Items::new(alloc));
            pass_list(alloc, classes, body.as_slice(), course)?;
            course.end_turn(alloc, own, before)?;
            let otherwise = test(alloc, classes, condition, &mut course.walk)?;
            course.walk.unassigned = otherwise;
            Ok(())
        }
        Stm::For(condition, _, next, body) => {
            course.walk.step();
            let otherwise = test(alloc, classes, condition, &mut course.walk)?;
            let at = course.walk.place;
            course.walk.skip(places(next));
            let before = mem::replace(&mut course.jumps, Items::new(alloc));
            pass_list(alloc, classes, body.as_slice(), course)?;
            course.end_turn(alloc, own, before)?;
            let behind = mem::replace(&mut course.walk.place, at);
            look(alloc, classes, next, &mut course.walk)?;
            course.walk.place = behind;
            course.walk.unassigned = otherwise;
            Ok(())
        }
        Stm::Finally(body, last) => {
            let before_last = course.walk.copied(alloc)?;
            course.walk.step();
            let before = mem::replace(&mut course.jumps, Items::new(alloc));
            pass_list(alloc, classes, body.as_slice(), course)?;
            let (unassigned, stopped) = course.begin_last(before_last, before);
            pass_list(alloc, classes, last.as_slice(), course)?;
            let completes = completes(alloc, classes, last.as_slice())?;
            course.end_last(alloc, completes, unassigned, stopped)?;
            Ok(())
        }
    }
}

/// Walks past statements.
#[cycle(pass)]
pub fn pass_list(
    alloc: Global,
    classes: &Classes<'_>,
    list: &[Stm],
    course: &mut Course,
) -> Result<(), AllocError>
    ensures walked { IfOk result (λ _. course.new ≡ spec.pass_list (surroundings_of classes.now) (view_stms list.now) course.old) }
{
    for statement in list {
        pass(alloc, classes, None, statement, course)?;
    }
    Ok(())
}

/// Walks past the groups of a switch, given what isn't assigned where it jumps to the first of them.
#[cycle(pass)]
fn pass_groups(
    alloc: Global,
    classes: &Classes<'_>,
    groups: &[Group],
    jumped: &mut Items<Var>,
    course: &mut Course,
) -> Result<(), AllocError>
    ensures walked { IfOk result (λ _. course.new ≡ spec.pass_groups (surroundings_of classes.now) (view_groups groups.now) jumped.old course.old) }
    ensures jumped { IfOk result (λ _. jumped.new ≡ spec.groups_jumped_over (view_groups groups.now) jumped.old) }
{
    for group in groups {
        course.walk.meet_with(alloc, jumped.as_slice())?;
        pass_list(alloc, classes, group.body.as_slice(), course)?;
        jump_over_all(alloc, group.body.as_slice(), jumped)?;
    }
    Ok(())
}

/// Walks past the clauses of a try, given what isn't assigned before it.
#[cycle(pass)]
fn pass_catches(
    alloc: Global,
    classes: &Classes<'_>,
    catches: &[Catch],
    before: &[Var],
    course: &mut Course,
) -> Result<(), AllocError>
    ensures walked { IfOk result (λ _. course.new ≡ spec.pass_catches (surroundings_of classes.now) (view_catches catches.now) before.now course.old) }
{
    for catch in catches {
        let start = removed(alloc, catch.variable, before)?;
        let between = mem::replace(&mut course.walk.unassigned, start);
        pass_list(alloc, classes, catch.body.as_slice(), course)?;
        course.walk.meet_with(alloc, between.as_slice())?;
    }
    Ok(())
}
