//! Statements with other names. Most kinds have a function of their own, so that the recursion takes little of the stack a level.

ghost use Rattle.std.specs.Prelude.{◌≡◌, option_map, IfOk};
ghost use Rattle.dj_names.specs.Types.{view_type};
ghost use Rattle.dj_syntax.specs.Trees.{Block, Construct, Declare, Do, For, Labelled, Return, Run, Set, SetElement, SetField, SetStatic, Switch, Synchronized, Throw, While, view_catches, view_exp, view_exps, view_groups, view_stm, view_stms};
ghost use Rattle.dj_renaming.specs.Renaming as spec;
ghost use Rattle.dj_renumber.specs.Views.{names_of};

use crate::expressions::{boxed, exp_renamed, exps_renamed, option_renamed};
use crate::names::{NewNames, label_named, variable_named};
use dj_names::{Boxed, ClassName, Items, JType, Units};
use dj_syntax::{Catch, Exp, Group, Stm, Var};
use std::alloc::{AllocError, Global};

/// A statement with other names.
#[cycle(stm_renamed)]
pub fn stm_renamed(alloc: Global, names: &NewNames<'_>, statement: &Stm) -> Result<Stm, AllocError>
    ensures renamed { IfOk result (λ made. view_stm made ≡ spec.renamed (names_of names.now) (view_stm statement.now)) }
{
    match statement {
        Stm::Block(list) => block(alloc, names, list.as_slice()),
        Stm::Labelled(label, inner) => labelled(alloc, names, inner.get(), *label),
        Stm::Declare(variable, kind, value) => declare(alloc, names, *variable, kind, value),
        Stm::Set(variable, value) => set(alloc, names, *variable, value),
        Stm::SetField(object, name, value) => set_field(alloc, names, object, name, value),
        Stm::SetStatic(class, name, value) => set_static(alloc, names, class, name, value),
        Stm::SetElement(array, index, value) => set_element(alloc, names, array, index, value),
        Stm::Run(call) => run(alloc, names, call),
        Stm::If(test, first, second) => {
            let first = all_renamed(alloc, names, first.as_slice())?;
            let second = all_renamed(alloc, names, second.as_slice())?;
            let test = exp_renamed(alloc, names, test)?;
            Ok(Stm::If(test, first, second))
        }
        Stm::While(test, body) => while_loop(alloc, names, body.as_slice(), test),
        Stm::Switch(on, groups) => switch(alloc, names, groups.as_slice(), on),
        Stm::Break(label) => {
            let label = label_named(names, *label)?;
            Ok(Stm::Break(label))
        }
        Stm::Continue(label) => {
            let label = label_named(names, *label)?;
            Ok(Stm::Continue(label))
        }
        Stm::Return(value) => returned(alloc, names, value),
        Stm::Throw(value) => thrown(alloc, names, value),
        Stm::Rethrow(variable) => {
            let variable = variable_named(names, *variable)?;
            Ok(Stm::Rethrow(variable))
        }
        Stm::Try(body, clauses) => {
            let body = all_renamed(alloc, names, body.as_slice())?;
            let clauses = clauses_renamed(alloc, names, clauses.as_slice())?;
            Ok(Stm::Try(body, clauses))
        }
        Stm::Synchronized(monitor, body) => { synchronized(alloc, names, body.as_slice(), monitor) }
        Stm::Construct(own, arguments) => { construct(alloc, names, *own, arguments.as_slice()) }
        Stm::Do(body, test) => do_loop(alloc, names, body.as_slice(), test),
        Stm::For(test, variable, step, body) => {
            for_loop(alloc, names, body.as_slice(), test, *variable, step)
        }
        Stm::Finally(body, last) => {
            let body = all_renamed(alloc, names, body.as_slice())?;
            let last = all_renamed(alloc, names, last.as_slice())?;
            Ok(Stm::Finally(body, last))
        }
    }
}

/// Statements with other names, in order.
#[cycle(stm_renamed)]
pub fn all_renamed(
    alloc: Global,
    names: &NewNames<'_>,
    list: &[Stm],
) -> Result<Items<Stm>, AllocError>
    ensures renamed { IfOk result (λ made. view_stms made ≡ spec.all_renamed (names_of names.now) (view_stms list.now)) }
{
    let mut made = Items::new(alloc);
    for statement in list {
        let one = stm_renamed(alloc, names, statement)?;
        made.push(one)?;
    }
    Ok(made)
}

/// A group with other names.
#[cycle(stm_renamed)]
fn group_renamed(alloc: Global, names: &NewNames<'_>, group: &Group) -> Result<Group, AllocError>
    ensures labels { IfOk result (λ made. made.labels ≡ group.now.labels) }
    ensures body { IfOk result (λ made. view_stms made.body ≡ spec.all_renamed (names_of names.now) (view_stms group.now.body)) }
{
    let body = all_renamed(alloc, names, group.body.as_slice())?;
    let labels = Items::from_slice(alloc, group.labels.as_slice())?;
    Ok(Group { labels, body })
}

/// Groups with other names, in order.
#[cycle(stm_renamed)]
fn groups_renamed(
    alloc: Global,
    names: &NewNames<'_>,
    list: &[Group],
) -> Result<Items<Group>, AllocError>
    ensures renamed { IfOk result (λ made. view_groups made ≡ spec.groups_renamed (names_of names.now) (view_groups list.now)) }
{
    let mut made = Items::new(alloc);
    for group in list {
        let one = group_renamed(alloc, names, group)?;
        made.push(one)?;
    }
    Ok(made)
}

/// A catch clause with other names.
#[cycle(stm_renamed)]
fn clause_renamed(alloc: Global, names: &NewNames<'_>, clause: &Catch) -> Result<Catch, AllocError>
    ensures class { IfOk result (λ made. made.class ≡ clause.now.class) }
    ensures variable { IfOk result (λ made. made.variable ≡ (names_of names.now).variable clause.now.variable) }
    ensures body { IfOk result (λ made. view_stms made.body ≡ spec.all_renamed (names_of names.now) (view_stms clause.now.body)) }
{
    let body = all_renamed(alloc, names, clause.body.as_slice())?;
    let variable = variable_named(names, clause.variable)?;
    let class = clause.class.copy(alloc)?;
    Ok(Catch {
        class,
        variable,
        body,
    })
}

/// Catch clauses with other names, in order.
#[cycle(stm_renamed)]
fn clauses_renamed(
    alloc: Global,
    names: &NewNames<'_>,
    list: &[Catch],
) -> Result<Items<Catch>, AllocError>
    ensures renamed { IfOk result (λ made. view_catches made ≡ spec.catches_renamed (names_of names.now) (view_catches list.now)) }
{
    let mut made = Items::new(alloc);
    for clause in list {
        let one = clause_renamed(alloc, names, clause)?;
        made.push(one)?;
    }
    Ok(made)
}

// ---- without statements in them

fn declare(
    alloc: Global,
    names: &NewNames<'_>,
    variable: Var,
    kind: &JType,
    value: &Option<Exp>,
) -> Result<Stm, AllocError>
    ensures renamed { IfOk result (λ made. view_stm made ≡ Declare ((names_of names.now).variable variable) (view_type kind.now) (spec.option_renamed (names_of names.now) (option_map view_exp value.now))) }
{
    let variable = variable_named(names, variable)?;
    let value = option_renamed(alloc, names, value)?;
    let kind = kind.copy(alloc)?;
    Ok(Stm::Declare(variable, kind, value))
}

fn set(alloc: Global, names: &NewNames<'_>, variable: Var, value: &Exp) -> Result<Stm, AllocError>
    ensures renamed { IfOk result (λ made. view_stm made ≡ Set ((names_of names.now).variable variable) (spec.exp_renamed (names_of names.now) (view_exp value.now))) }
{
    let variable = variable_named(names, variable)?;
    let value = exp_renamed(alloc, names, value)?;
    Ok(Stm::Set(variable, value))
}

fn set_field(
    alloc: Global,
    names: &NewNames<'_>,
    object: &Exp,
    name: &Units,
    value: &Exp,
) -> Result<Stm, AllocError>
    ensures renamed { IfOk result (λ made. view_stm made ≡ SetField (spec.exp_renamed (names_of names.now) (view_exp object.now)) name.now (spec.exp_renamed (names_of names.now) (view_exp value.now))) }
{
    let name = name.copy(alloc)?;
    let object = boxed(alloc, names, object)?;
    let value = exp_renamed(alloc, names, value)?;
    Ok(Stm::SetField(object.into_inner(), name, value))
}

fn set_static(
    alloc: Global,
    names: &NewNames<'_>,
    class: &ClassName,
    name: &Units,
    value: &Exp,
) -> Result<Stm, AllocError>
    ensures renamed { IfOk result (λ made. view_stm made ≡ SetStatic class.now name.now (spec.exp_renamed (names_of names.now) (view_exp value.now))) }
{
    let class = class.copy(alloc)?;
    let name = name.copy(alloc)?;
    let value = exp_renamed(alloc, names, value)?;
    Ok(Stm::SetStatic(class, name, value))
}

fn set_element(
    alloc: Global,
    names: &NewNames<'_>,
    array: &Exp,
    index: &Exp,
    value: &Exp,
) -> Result<Stm, AllocError>
    ensures renamed { IfOk result (λ made. view_stm made ≡ SetElement (spec.exp_renamed (names_of names.now) (view_exp array.now)) (spec.exp_renamed (names_of names.now) (view_exp index.now)) (spec.exp_renamed (names_of names.now) (view_exp value.now))) }
{
    let array = boxed(alloc, names, array)?;
    let index = boxed(alloc, names, index)?;
    let value = exp_renamed(alloc, names, value)?;
    Ok(Stm::SetElement(array.into_inner(), index.into_inner(), value))
}

fn run(alloc: Global, names: &NewNames<'_>, call: &Exp) -> Result<Stm, AllocError>
    ensures renamed { IfOk result (λ made. view_stm made ≡ Run (spec.exp_renamed (names_of names.now) (view_exp call.now))) }
{
    let call = exp_renamed(alloc, names, call)?;
    Ok(Stm::Run(call))
}

fn returned(alloc: Global, names: &NewNames<'_>, value: &Option<Exp>) -> Result<Stm, AllocError>
    ensures renamed { IfOk result (λ made. view_stm made ≡ Return (spec.option_renamed (names_of names.now) (option_map view_exp value.now))) }
{
    let value = option_renamed(alloc, names, value)?;
    Ok(Stm::Return(value))
}

fn thrown(alloc: Global, names: &NewNames<'_>, value: &Exp) -> Result<Stm, AllocError>
    ensures renamed { IfOk result (λ made. view_stm made ≡ Throw (spec.exp_renamed (names_of names.now) (view_exp value.now))) }
{
    let value = exp_renamed(alloc, names, value)?;
    Ok(Stm::Throw(value))
}

fn construct(
    alloc: Global,
    names: &NewNames<'_>,
    own: bool,
    arguments: &[Exp],
) -> Result<Stm, AllocError>
    ensures renamed { IfOk result (λ made. view_stm made ≡ Construct own (spec.exps_renamed (names_of names.now) (view_exps arguments.now))) }
{
    let arguments = exps_renamed(alloc, names, arguments)?;
    Ok(Stm::Construct(own, arguments))
}

// ---- with statements in them

#[cycle(stm_renamed)]
fn block(alloc: Global, names: &NewNames<'_>, list: &[Stm]) -> Result<Stm, AllocError>
    ensures renamed { IfOk result (λ made. view_stm made ≡ Block (spec.all_renamed (names_of names.now) (view_stms list.now))) }
{
    let list = all_renamed(alloc, names, list)?;
    Ok(Stm::Block(list))
}

#[cycle(stm_renamed)]
fn labelled(alloc: Global, names: &NewNames<'_>, inner: &Stm, label: u32) -> Result<Stm, AllocError>
    ensures renamed { IfOk result (λ made. view_stm made ≡ Labelled ((names_of names.now).label label) (spec.renamed (names_of names.now) (view_stm inner.now))) }
{
    let label = label_named(names, label)?;
    let inner = stm_renamed(alloc, names, inner)?;
    let inner = Boxed::new(alloc, inner)?;
    Ok(Stm::Labelled(label, inner))
}

#[cycle(stm_renamed)]
fn while_loop(
    alloc: Global,
    names: &NewNames<'_>,
    body: &[Stm],
    test: &Exp,
) -> Result<Stm, AllocError>
    ensures renamed { IfOk result (λ made. view_stm made ≡ While (spec.exp_renamed (names_of names.now) (view_exp test.now)) (spec.all_renamed (names_of names.now) (view_stms body.now))) }
{
    let body = all_renamed(alloc, names, body)?;
    let test = exp_renamed(alloc, names, test)?;
    Ok(Stm::While(test, body))
}

#[cycle(stm_renamed)]
fn switch(
    alloc: Global,
    names: &NewNames<'_>,
    groups: &[Group],
    on: &Exp,
) -> Result<Stm, AllocError>
    ensures renamed { IfOk result (λ made. view_stm made ≡ Switch (spec.exp_renamed (names_of names.now) (view_exp on.now)) (spec.groups_renamed (names_of names.now) (view_groups groups.now))) }
{
    let groups = groups_renamed(alloc, names, groups)?;
    let on = exp_renamed(alloc, names, on)?;
    Ok(Stm::Switch(on, groups))
}

#[cycle(stm_renamed)]
fn synchronized(
    alloc: Global,
    names: &NewNames<'_>,
    body: &[Stm],
    monitor: &Exp,
) -> Result<Stm, AllocError>
    ensures renamed { IfOk result (λ made. view_stm made ≡ Synchronized (spec.exp_renamed (names_of names.now) (view_exp monitor.now)) (spec.all_renamed (names_of names.now) (view_stms body.now))) }
{
    let body = all_renamed(alloc, names, body)?;
    let monitor = exp_renamed(alloc, names, monitor)?;
    Ok(Stm::Synchronized(monitor, body))
}

#[cycle(stm_renamed)]
fn do_loop(alloc: Global, names: &NewNames<'_>, body: &[Stm], test: &Exp) -> Result<Stm, AllocError>
    ensures renamed { IfOk result (λ made. view_stm made ≡ Do (spec.all_renamed (names_of names.now) (view_stms body.now)) (spec.exp_renamed (names_of names.now) (view_exp test.now))) }
{
    let body = all_renamed(alloc, names, body)?;
    let test = exp_renamed(alloc, names, test)?;
    Ok(Stm::Do(body, test))
}

#[cycle(stm_renamed)]
fn for_loop(
    alloc: Global,
    names: &NewNames<'_>,
    body: &[Stm],
    test: &Exp,
    variable: Var,
    step: &Exp,
) -> Result<Stm, AllocError>
    ensures renamed { IfOk result (λ made. view_stm made ≡ For (spec.exp_renamed (names_of names.now) (view_exp test.now)) ((names_of names.now).variable variable) (spec.exp_renamed (names_of names.now) (view_exp step.now)) (spec.all_renamed (names_of names.now) (view_stms body.now))) }
{
    let body = all_renamed(alloc, names, body)?;
    let variable = variable_named(names, variable)?;
    let test = boxed(alloc, names, test)?;
    let step = exp_renamed(alloc, names, step)?;
    Ok(Stm::For(test.into_inner(), variable, step, body))
}
