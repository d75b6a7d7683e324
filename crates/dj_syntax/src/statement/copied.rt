//! Copies of statements. Most kinds have a function of their own, so that the recursion takes little of the stack a level.
//! The copy of an expression is boxed while another copy may fail, and the last one isn't.

ghost use Rattle.std.specs.Prelude.{◌≡◌, IfOk};
ghost use Rattle.dj_syntax.specs.declared.statement.Stm.TheVariants as stm;

use crate::expression::{Exp, copy_boxed, copy_exps, copy_option};
use crate::statement::{Catch, Group, Stm};
use crate::variable::Var;
use dj_names::{Boxed, ClassName, Items, JType, Units};
use std::alloc::{AllocError, Global};

impl Stm {
    /// An equal statement.
    #[cycle(copy)]
    pub fn copy(&self, alloc: Global) -> Result<Stm, AllocError>
        ensures equal { IfOk result (λ copy. copy ≡ self.now) }
    {
        match self {
            Stm::Block(list) => copy_block(alloc, list.as_slice()),
            Stm::Labelled(label, statement) => copy_labelled(alloc, *label, statement.get()),
            Stm::Declare(variable, kind, value) => copy_declare(alloc, *variable, kind, value),
            Stm::Set(variable, value) => copy_set(alloc, *variable, value),
            Stm::SetField(object, name, value) => copy_set_field(alloc, object, name, value),
            Stm::SetStatic(class, name, value) => copy_set_static(alloc, class, name, value),
            Stm::SetElement(array, index, value) => copy_set_element(alloc, array, index, value),
            Stm::Run(call) => copy_run(alloc, call),
            Stm::If(test, first, second) => {
                let first = copy_list(alloc, first.as_slice())?;
                let second = copy_list(alloc, second.as_slice())?;
                Ok(Stm::If(test.copy(alloc)?, first, second))
            }
            Stm::While(test, body) => copy_while(alloc, body.as_slice(), test),
            Stm::Switch(value, groups) => copy_switch(alloc, groups.as_slice(), value),
            Stm::Break(label) => Ok(Stm::Break(*label)),
            Stm::Continue(label) => Ok(Stm::Continue(*label)),
            Stm::Return(value) => copy_return(alloc, value),
            Stm::Throw(value) => copy_throw(alloc, value),
            Stm::Rethrow(variable) => Ok(Stm::Rethrow(*variable)),
            Stm::Try(body, catches) => {
                let body = copy_list(alloc, body.as_slice())?;
                Ok(Stm::Try(body, copy_catches(alloc, catches.as_slice())?))
            }
            Stm::Synchronized(monitor, body) => {
                copy_synchronized(alloc, body.as_slice(), monitor)
            }
            Stm::Construct(own, arguments) => copy_construct(alloc, *own, arguments.as_slice()),
            Stm::Do(body, test) => copy_do(alloc, body.as_slice(), test),
            Stm::For(test, variable, step, body) => {
                copy_for(alloc, body.as_slice(), test, *variable, step)
            }
            Stm::Finally(body, last) => {
                let body = copy_list(alloc, body.as_slice())?;
                Ok(Stm::Finally(body, copy_list(alloc, last.as_slice())?))
            }
        }
    }
}

impl Group {
    /// An equal group.
    #[cycle(copy)]
    pub fn copy(&self, alloc: Global) -> Result<Group, AllocError>
        ensures equal { IfOk result (λ copy. copy ≡ self.now) }
    {
        let body = copy_list(alloc, self.body.as_slice())?;
        let labels = Items::from_slice(alloc, self.labels.as_slice())?;
        Ok(Group { labels, body })
    }
}

impl Catch {
    /// An equal catch clause.
    #[cycle(copy)]
    pub fn copy(&self, alloc: Global) -> Result<Catch, AllocError>
        ensures equal { IfOk result (λ copy. copy ≡ self.now) }
    {
        let body = copy_list(alloc, self.body.as_slice())?;
        Ok(Catch {
            class: self.class.copy(alloc)?,
            variable: self.variable,
            body,
        })
    }
}

/// Statements equal to these, in order.
#[cycle(copy)]
pub fn copy_list(alloc: Global, list: &[Stm]) -> Result<Items<Stm>, AllocError>
    ensures equal { IfOk result (λ copy. copy ≡ list.now) }
{
    let mut copy = Items::new(alloc);
    for statement in list {
        copy.push(statement.copy(alloc)?)?;
    }
    Ok(copy)
}

#[cycle(copy)]
fn copy_groups(alloc: Global, list: &[Group]) -> Result<Items<Group>, AllocError>
    ensures equal { IfOk result (λ copy. copy ≡ list.now) }
{
    let mut copy = Items::new(alloc);
    for group in list {
        copy.push(group.copy(alloc)?)?;
    }
    Ok(copy)
}

#[cycle(copy)]
fn copy_catches(alloc: Global, list: &[Catch]) -> Result<Items<Catch>, AllocError>
    ensures equal { IfOk result (λ copy. copy ≡ list.now) }
{
    let mut copy = Items::new(alloc);
    for catch in list {
        copy.push(catch.copy(alloc)?)?;
    }
    Ok(copy)
}

// ---- without statements in them

fn copy_declare(
    alloc: Global,
    variable: Var,
    kind: &JType,
    value: &Option<Exp>,
) -> Result<Stm, AllocError>
    ensures equal { IfOk result (λ copy. copy ≡ stm.Declare variable kind.now value.now) }
{
    let kind = kind.copy(alloc)?;
    Ok(Stm::Declare(variable, kind, copy_option(alloc, value)?))
}

fn copy_set(alloc: Global, variable: Var, value: &Exp) -> Result<Stm, AllocError>
    ensures equal { IfOk result (λ copy. copy ≡ stm.Set variable value.now) }
{
    Ok(Stm::Set(variable, value.copy(alloc)?))
}

fn copy_set_field(alloc: Global, object: &Exp, name: &Units, value: &Exp) -> Result<Stm, AllocError>
    ensures equal { IfOk result (λ copy. copy ≡ stm.SetField object.now name.now value.now) }
{
    let name = name.copy(alloc)?;
    let object = copy_boxed(alloc, object)?;
    let value = value.copy(alloc)?;
    Ok(Stm::SetField(object.into_inner(), name, value))
}

fn copy_set_static(
    alloc: Global,
    class: &ClassName,
    name: &Units,
    value: &Exp,
) -> Result<Stm, AllocError>
    ensures equal { IfOk result (λ copy. copy ≡ stm.SetStatic class.now name.now value.now) }
{
    let class = class.copy(alloc)?;
    let name = name.copy(alloc)?;
    Ok(Stm::SetStatic(class, name, value.copy(alloc)?))
}

fn copy_set_element(alloc: Global, array: &Exp, index: &Exp, value: &Exp) -> Result<Stm, AllocError>
    ensures equal { IfOk result (λ copy. copy ≡ stm.SetElement array.now index.now value.now) }
{
    let array = copy_boxed(alloc, array)?;
    let index = copy_boxed(alloc, index)?;
    let value = value.copy(alloc)?;
    Ok(Stm::SetElement(array.into_inner(), index.into_inner(), value))
}

fn copy_run(alloc: Global, call: &Exp) -> Result<Stm, AllocError>
    ensures equal { IfOk result (λ copy. copy ≡ stm.Run call.now) }
{
    Ok(Stm::Run(call.copy(alloc)?))
}

fn copy_return(alloc: Global, value: &Option<Exp>) -> Result<Stm, AllocError>
    ensures equal { IfOk result (λ copy. copy ≡ stm.Return value.now) }
{
    Ok(Stm::Return(copy_option(alloc, value)?))
}

fn copy_throw(alloc: Global, value: &Exp) -> Result<Stm, AllocError>
    ensures equal { IfOk result (λ copy. copy ≡ stm.Throw value.now) }
{
    Ok(Stm::Throw(value.copy(alloc)?))
}

fn copy_construct(alloc: Global, own: bool, arguments: &[Exp]) -> Result<Stm, AllocError>
    ensures equal { IfOk result (λ copy. copy ≡ stm.Construct own arguments.now) }
{
    Ok(Stm::Construct(own, copy_exps(alloc, arguments)?))
}

// ---- with statements in them

#[cycle(copy)]
fn copy_block(alloc: Global, list: &[Stm]) -> Result<Stm, AllocError>
    ensures equal { IfOk result (λ copy. copy ≡ stm.Block list.now) }
{
    Ok(Stm::Block(copy_list(alloc, list)?))
}

#[cycle(copy)]
fn copy_labelled(alloc: Global, label: u32, statement: &Stm) -> Result<Stm, AllocError>
    ensures equal { IfOk result (λ copy. copy ≡ stm.Labelled label statement.now) }
{
    let statement = Boxed::new(alloc, statement.copy(alloc)?)?;
    Ok(Stm::Labelled(label, statement))
}

#[cycle(copy)]
fn copy_while(alloc: Global, body: &[Stm], test: &Exp) -> Result<Stm, AllocError>
    ensures equal { IfOk result (λ copy. copy ≡ stm.While test.now body.now) }
{
    let body = copy_list(alloc, body)?;
    Ok(Stm::While(test.copy(alloc)?, body))
}

#[cycle(copy)]
fn copy_switch(alloc: Global, groups: &[Group], value: &Exp) -> Result<Stm, AllocError>
    ensures equal { IfOk result (λ copy. copy ≡ stm.Switch value.now groups.now) }
{
    let groups = copy_groups(alloc, groups)?;
    Ok(Stm::Switch(value.copy(alloc)?, groups))
}

#[cycle(copy)]
fn copy_synchronized(alloc: Global, body: &[Stm], monitor: &Exp) -> Result<Stm, AllocError>
    ensures equal { IfOk result (λ copy. copy ≡ stm.Synchronized monitor.now body.now) }
{
    let body = copy_list(alloc, body)?;
    Ok(Stm::Synchronized(monitor.copy(alloc)?, body))
}

#[cycle(copy)]
fn copy_do(alloc: Global, body: &[Stm], test: &Exp) -> Result<Stm, AllocError>
    ensures equal { IfOk result (λ copy. copy ≡ stm.Do body.now test.now) }
{
    let body = copy_list(alloc, body)?;
    Ok(Stm::Do(body, test.copy(alloc)?))
}

#[cycle(copy)]
fn copy_for(
    alloc: Global,
    body: &[Stm],
    test: &Exp,
    variable: Var,
    step: &Exp,
) -> Result<Stm, AllocError>
    ensures equal { IfOk result (λ copy. copy ≡ stm.For test.now variable step.now body.now) }
{
    let body = copy_list(alloc, body)?;
    let test = copy_boxed(alloc, test)?;
    let step = step.copy(alloc)?;
    Ok(Stm::For(test.into_inner(), variable, step, body))
}
