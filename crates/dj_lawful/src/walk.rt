//! The pass that makes a tree lawful.

ghost use Rattle.std.specs.Prelude.{◌≡◌, None, Some, IfOk};
ghost use Rattle.dj_syntax.specs.Trees.{view_catches, view_exp, view_groups, view_stm, view_stms};
ghost use Rattle.dj_meaning.specs.Statements.{is_labelled};
ghost use Rattle.dj_places.specs.Constants.{constant_truth as constant_truth_of};
ghost use Rattle.dj_places.specs.Surroundings.{surroundings_of};
ghost use Rattle.dj_declaring.specs.Passes as spec;
ghost use Rattle.dj_lawful.specs.PassViews.{view_list, view_made, view_made_clauses, view_made_groups};

use crate::made::{Made, MadeClauses, MadeGroups, MadeList, exit_of};
use dj_places::constant_truth;
use dj_reach::{Jump, has_default};
use dj_static::Classes;
use dj_syntax::{Catch, Exp, Group, Stm, Var};
use std::alloc::{AllocError, Global};

/// Makes a statement lawful, given the label right before it, and that whose breaks stand in place of returns. Most kinds
/// have a function of their own, so that the recursion takes little of the stack a level.
#[cycle(pass)]
pub fn pass(
    alloc: Global,
    classes: &Classes<'_>,
    leaving: Option<u32>,
    own: Option<u32>,
    statement: &Stm,
) -> Result<Made, AllocError>
    ensures made { IfOk result (λ made. view_made made ≡ spec.pass (surroundings_of classes.now) leaving own (view_stm statement.now)) }
{
    match statement {
        Stm::Block(list) => pass_block(alloc, classes, leaving, list.as_slice()),
        Stm::Labelled(label, inner) => {
            pass_labelled(alloc, classes, leaving, inner.get(), *label)
        }
        Stm::Declare(_, _, _)
        | Stm::Set(_, _)
        | Stm::SetField(_, _, _)
        | Stm::SetStatic(_, _, _)
        | Stm::SetElement(_, _, _)
        | Stm::Run(_)
        | Stm::Construct(_, _) => Made::kept(alloc, statement),
        Stm::If(test, first, second) => {
            let first = made_list(alloc, classes, leaving, first.as_slice())?;
            let second = made_list(alloc, classes, leaving, second.as_slice())?;
            Made::chosen(alloc, test, first, second)
        }
        Stm::While(test, body) => pass_while(alloc, classes, leaving, body.as_slice(), test),
        Stm::Switch(on, groups) => pass_switch(alloc, classes, leaving, groups.as_slice(), on),
        Stm::Break(label) => Made::leaping(alloc, Stm::Break(*label), Jump::Break(*label)),
        Stm::Continue(label) => {
            Made::leaping(alloc, Stm::Continue(*label), Jump::Continue(*label))
        }
        Stm::Return(value) => match exit_of(leaving, value) {
            None => Made::ending(alloc, statement),
            Some(label) => Made::leaping(alloc, Stm::Break(label), Jump::Break(label)),
        },
        Stm::Throw(_) | Stm::Rethrow(_) => Made::ending(alloc, statement),
        Stm::Try(body, catches) => {
            let inner = made_list(alloc, classes, leaving, body.as_slice())?;
            let mut caught = MadeClauses::new(alloc);
            pass_clauses(alloc, classes, leaving, catches.as_slice(), &mut caught)?;
            Made::tried(inner, caught)
        }
        Stm::Synchronized(monitor, body) => {
            pass_synchronized(alloc, classes, leaving, body.as_slice(), monitor)
        }
        Stm::Do(body, test) => pass_do(alloc, classes, leaving, body.as_slice(), own, test),
        Stm::For(test, variable, step, body) => pass_for(
            alloc,
            classes,
            leaving,
            body.as_slice(),
            test,
            *variable,
            step,
        ),
        Stm::Finally(body, last) => {
            let inner = made_list(alloc, classes, leaving, body.as_slice())?;
            let behind = made_list(alloc, classes, leaving, last.as_slice())?;
            Made::with_last(inner, behind)
        }
    }
}

/// Makes a list lawful.
#[cycle(pass)]
pub fn made_list(
    alloc: Global,
    classes: &Classes<'_>,
    leaving: Option<u32>,
    list: &[Stm],
) -> Result<MadeList, AllocError>
    ensures made { IfOk result (λ made. view_list made ≡ spec.made_of (surroundings_of classes.now) leaving (view_stms list.now)) }
{
    let mut made = MadeList::new(alloc);
    pass_list(alloc, classes, leaving, list, &mut made)?;
    Ok(made)
}

/// Makes statements lawful behind what is made so far.
#[cycle(pass)]
fn pass_list(
    alloc: Global,
    classes: &Classes<'_>,
    leaving: Option<u32>,
    list: &[Stm],
    made: &mut MadeList,
) -> Result<(), AllocError>
    ensures made { IfOk result (λ _. view_list made.new ≡ spec.pass_list (surroundings_of classes.now) leaving (view_stms list.now) (view_list made.old)) }
{
    for statement in list {
        if made.falls {
            let one = pass(alloc, classes, leaving, None, statement)?;
            made.add(one)?;
        } else {
            made.leave_out(alloc, statement)?;
        }
    }
    Ok(())
}

/// Makes groups lawful behind what is made so far.
#[cycle(pass)]
fn pass_groups(
    alloc: Global,
    classes: &Classes<'_>,
    leaving: Option<u32>,
    groups: &[Group],
    made: &mut MadeGroups,
) -> Result<(), AllocError>
    ensures made { IfOk result (λ _. view_made_groups made.new ≡ spec.pass_groups (surroundings_of classes.now) leaving (view_groups groups.now) (view_made_groups made.old)) }
{
    for group in groups {
        let mut body = MadeList::beginning(alloc, made.lost.as_slice())?;
        pass_list(alloc, classes, leaving, group.body.as_slice(), &mut body)?;
        made.add(alloc, group.labels.as_slice(), body)?;
    }
    Ok(())
}

/// Makes catch clauses lawful behind what is made so far.
#[cycle(pass)]
fn pass_clauses(
    alloc: Global,
    classes: &Classes<'_>,
    leaving: Option<u32>,
    clauses: &[Catch],
    made: &mut MadeClauses,
) -> Result<(), AllocError>
    ensures made { IfOk result (λ _. view_made_clauses made.new ≡ spec.pass_clauses (surroundings_of classes.now) leaving (view_catches clauses.now) (view_made_clauses made.old)) }
{
    for clause in clauses {
        let body = made_list(alloc, classes, leaving, clause.body.as_slice())?;
        made.add(alloc, &clause.class, clause.variable, body)?;
    }
    Ok(())
}

// ---- statements with statements in them

/// A block.
#[cycle(pass)]
fn pass_block(
    alloc: Global,
    classes: &Classes<'_>,
    leaving: Option<u32>,
    list: &[Stm],
) -> Result<Made, AllocError>
    ensures made { IfOk result (λ made. view_made made ≡ spec.blocked (spec.made_of (surroundings_of classes.now) leaving (view_stms list.now))) }
{
    let inner = made_list(alloc, classes, leaving, list)?;
    Ok(Made::blocked(inner))
}

/// A statement under a label.
#[cycle(pass)]
fn pass_labelled(
    alloc: Global,
    classes: &Classes<'_>,
    leaving: Option<u32>,
    inner: &Stm,
    label: u32,
) -> Result<Made, AllocError>
    ensures made { IfOk result (λ made. view_made made ≡ spec.under label (spec.pass (surroundings_of classes.now) leaving (Some label) (view_stm inner.now))) }
{
    let made = pass(alloc, classes, leaving, Some(label), inner)?;
    Made::under(alloc, label, made)
}

/// A `while`.
#[cycle(pass)]
fn pass_while(
    alloc: Global,
    classes: &Classes<'_>,
    leaving: Option<u32>,
    body: &[Stm],
    test: &Exp,
) -> Result<Made, AllocError>
    ensures made { IfOk result (λ made. view_made made ≡ spec.turning (constant_truth_of (surroundings_of classes.now) (view_exp test.now)) (view_exp test.now) (spec.made_of (surroundings_of classes.now) leaving (view_stms body.now))) }
{
    let known = constant_truth(alloc, classes, test)?;
    let inner = made_list(alloc, classes, leaving, body)?;
    Made::turning(alloc, known, test, inner)
}

/// A `switch`.
#[cycle(pass)]
fn pass_switch(
    alloc: Global,
    classes: &Classes<'_>,
    leaving: Option<u32>,
    groups: &[Group],
    on: &Exp,
) -> Result<Made, AllocError>
    ensures made { IfOk result (λ made. view_made made ≡ spec.switched (is_labelled None (view_groups groups.now)) (view_exp on.now) (spec.pass_groups (surroundings_of classes.now) leaving (view_groups groups.now) spec.no_groups)) }
{
    let mut inner = MadeGroups::new(alloc);
    pass_groups(alloc, classes, leaving, groups, &mut inner)?;
    Made::switched(alloc, has_default(groups), on, inner)
}

/// A `synchronized`.
#[cycle(pass)]
fn pass_synchronized(
    alloc: Global,
    classes: &Classes<'_>,
    leaving: Option<u32>,
    body: &[Stm],
    monitor: &Exp,
) -> Result<Made, AllocError>
    ensures made { IfOk result (λ made. view_made made ≡ spec.locked (view_exp monitor.now) (spec.made_of (surroundings_of classes.now) leaving (view_stms body.now))) }
{
    let inner = made_list(alloc, classes, leaving, body)?;
    Made::locked(alloc, monitor, inner)
}

/// A `do`, given the label right before it.
#[cycle(pass)]
fn pass_do(
    alloc: Global,
    classes: &Classes<'_>,
    leaving: Option<u32>,
    body: &[Stm],
    own: Option<u32>,
    test: &Exp,
) -> Result<Made, AllocError>
    ensures made { IfOk result (λ made. view_made made ≡ spec.repeated own (constant_truth_of (surroundings_of classes.now) (view_exp test.now)) (spec.made_of (surroundings_of classes.now) leaving (view_stms body.now)) (view_exp test.now)) }
{
    let known = constant_truth(alloc, classes, test)?;
    let inner = made_list(alloc, classes, leaving, body)?;
    Made::repeated(alloc, own, known, inner, test)
}

/// A `for`.
#[cycle(pass)]
fn pass_for(
    alloc: Global,
    classes: &Classes<'_>,
    leaving: Option<u32>,
    body: &[Stm],
    test: &Exp,
    variable: Var,
    step: &Exp,
) -> Result<Made, AllocError>
    ensures made { IfOk result (λ made. view_made made ≡ spec.counting (constant_truth_of (surroundings_of classes.now) (view_exp test.now)) (view_exp test.now) variable (view_exp step.now) (spec.made_of (surroundings_of classes.now) leaving (view_stms body.now))) }
{
    let known = constant_truth(alloc, classes, test)?;
    let inner = made_list(alloc, classes, leaving, body)?;
    Made::counting(alloc, known, test, variable, step, inner)
}
