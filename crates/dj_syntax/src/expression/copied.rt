//! Copies of expressions. Parts are copied into boxes by a function of their own, so that the recursion takes little of the stack a level.

ghost use Rattle.std.specs.Prelude.{◌≡◌, IfOk};
ghost use Rattle.dj_syntax.specs.declared.expression.Exp.TheVariants as exp;

use crate::expression::Exp;
use crate::variable::Var;
use dj_names::{Boxed, ClassName, Items, JType, Units};
use std::alloc::{AllocError, Global};

impl Exp {
    /// An equal expression.
    #[cycle(copy)]
    pub fn copy(&self, alloc: Global) -> Result<Exp, AllocError>
        ensures equal { IfOk result (λ copy. copy ≡ self.now) }
    {
        match self {
            Exp::Int(value) => Ok(Exp::Int(*value)),
            Exp::Long(value) => Ok(Exp::Long(*value)),
            Exp::Text(units) => copy_text(alloc, units),
            Exp::Bool(value) => Ok(Exp::Bool(*value)),
            Exp::Null => Ok(Exp::Null),
            Exp::This => Ok(Exp::This),
            Exp::Var(variable) => Ok(Exp::Var(*variable)),
            Exp::ClassOf(kind) => copy_class_literal(alloc, kind),
            Exp::Field(object, name) => copy_field(alloc, object.get(), name),
            Exp::Static(class, name) => copy_static(alloc, class, name),
            Exp::Element(array, index) => {
                let array = copy_boxed(alloc, array.get())?;
                Ok(Exp::Element(array, copy_boxed(alloc, index.get())?))
            }
            Exp::Call(object, name, arguments) => {
                let object = copy_boxed(alloc, object.get())?;
                let arguments = copy_arguments(alloc, arguments.get().as_slice())?;
                Ok(Exp::Call(object, name.copy(alloc)?, arguments))
            }
            Exp::StaticCall(class, name, arguments) => {
                copy_static_call(alloc, class, name, arguments.get().as_slice())
            }
            Exp::SuperCall(above, name, arguments) => {
                copy_super_call(alloc, above, name, arguments.get().as_slice())
            }
            Exp::New(class, arguments) => copy_new(alloc, class, arguments.get().as_slice()),
            Exp::NewArray(kind, sizes, more) => {
                copy_new_array(alloc, sizes.get().as_slice(), kind, *more)
            }
            Exp::Cast(kind, operand) => copy_cast(alloc, operand.get(), kind),
            Exp::InstanceOf(operand, kind) => copy_instance_of(alloc, operand.get(), kind),
            Exp::Negative(operand) => copy_negative(alloc, operand.get()),
            Exp::Not(operand) => copy_not(alloc, operand.get()),
            Exp::Binary(op, left, right) => {
                let left = copy_boxed(alloc, left.get())?;
                Ok(Exp::Binary(*op, left, copy_boxed(alloc, right.get())?))
            }
            Exp::Choice(test, first, second) => {
                let test = copy_boxed(alloc, test.get())?;
                let first = copy_boxed(alloc, first.get())?;
                Ok(Exp::Choice(test, first, copy_boxed(alloc, second.get())?))
            }
            Exp::Assign(variable, value) => copy_assign(alloc, *variable, value.get()),
        }
    }
}

/// Equal expressions, in order.
#[cycle(copy)]
pub fn copy_exps(alloc: Global, list: &[Exp]) -> Result<Items<Exp>, AllocError>
    ensures equal { IfOk result (λ copy. copy ≡ list.now) }
{
    let mut copy = Items::new(alloc);
    for exp in list {
        copy.push(exp.copy(alloc)?)?;
    }
    Ok(copy)
}

/// An equal expression, where there is one.
pub fn copy_option(alloc: Global, value: &Option<Exp>) -> Result<Option<Exp>, AllocError>
    ensures equal { IfOk result (λ copy. copy ≡ value.now) }
{
    match value {
        Some(value) => Ok(Some(value.copy(alloc)?)),
        None => Ok(None),
    }
}

/// An equal name, where there is one.
pub fn copy_name(alloc: Global, name: &Option<ClassName>) -> Result<Option<ClassName>, AllocError>
    ensures equal { IfOk result (λ copy. copy ≡ name.now) }
{
    match name {
        Some(name) => Ok(Some(name.copy(alloc)?)),
        None => Ok(None),
    }
}

// ---- without parts

fn copy_text(alloc: Global, units: &Units) -> Result<Exp, AllocError>
    ensures equal { IfOk result (λ copy. copy ≡ exp.Text units.now) }
{
    Ok(Exp::Text(units.copy(alloc)?))
}

fn copy_class_literal(alloc: Global, kind: &JType) -> Result<Exp, AllocError>
    ensures equal { IfOk result (λ copy. copy ≡ exp.ClassOf kind.now) }
{
    Ok(Exp::ClassOf(kind.copy(alloc)?))
}

fn copy_static(alloc: Global, class: &ClassName, name: &Units) -> Result<Exp, AllocError>
    ensures equal { IfOk result (λ copy. copy ≡ exp.Static class.now name.now) }
{
    let class = class.copy(alloc)?;
    Ok(Exp::Static(class, name.copy(alloc)?))
}

// ---- with parts

/// An equal expression, in a box.
#[cycle(copy)]
pub fn copy_boxed(alloc: Global, exp: &Exp) -> Result<Boxed<Exp>, AllocError>
    ensures equal { IfOk result (λ copy. copy ≡ exp.now) }
{
    Ok(Boxed::new(alloc, exp.copy(alloc)?)?)
}

/// Equal expressions, in order, in a box.
#[cycle(copy)]
fn copy_arguments(alloc: Global, list: &[Exp]) -> Result<Boxed<Items<Exp>>, AllocError>
    ensures equal { IfOk result (λ copy. copy ≡ list.now) }
{
    Ok(Boxed::new(alloc, copy_exps(alloc, list)?)?)
}

#[cycle(copy)]
fn copy_field(alloc: Global, object: &Exp, name: &Units) -> Result<Exp, AllocError>
    ensures equal { IfOk result (λ copy. copy ≡ exp.Field object.now name.now) }
{
    let object = copy_boxed(alloc, object)?;
    Ok(Exp::Field(object, name.copy(alloc)?))
}

#[cycle(copy)]
fn copy_static_call(
    alloc: Global,
    class: &ClassName,
    name: &Units,
    arguments: &[Exp],
) -> Result<Exp, AllocError>
    ensures equal { IfOk result (λ copy. copy ≡ exp.StaticCall class.now name.now arguments.now) }
{
    let arguments = copy_arguments(alloc, arguments)?;
    let class = class.copy(alloc)?;
    Ok(Exp::StaticCall(class, name.copy(alloc)?, arguments))
}

#[cycle(copy)]
fn copy_super_call(
    alloc: Global,
    above: &Option<ClassName>,
    name: &Units,
    arguments: &[Exp],
) -> Result<Exp, AllocError>
    ensures equal { IfOk result (λ copy. copy ≡ exp.SuperCall above.now name.now arguments.now) }
{
    let arguments = copy_arguments(alloc, arguments)?;
    let above = copy_name(alloc, above)?;
    Ok(Exp::SuperCall(above, name.copy(alloc)?, arguments))
}

#[cycle(copy)]
fn copy_new(alloc: Global, class: &ClassName, arguments: &[Exp]) -> Result<Exp, AllocError>
    ensures equal { IfOk result (λ copy. copy ≡ exp.New class.now arguments.now) }
{
    let arguments = copy_arguments(alloc, arguments)?;
    Ok(Exp::New(class.copy(alloc)?, arguments))
}

#[cycle(copy)]
fn copy_new_array(alloc: Global, sizes: &[Exp], kind: &JType, more: u32) -> Result<Exp, AllocError>
    ensures equal { IfOk result (λ copy. copy ≡ exp.NewArray kind.now sizes.now more) }
{
    let sizes = copy_arguments(alloc, sizes)?;
    Ok(Exp::NewArray(kind.copy(alloc)?, sizes, more))
}

#[cycle(copy)]
fn copy_cast(alloc: Global, operand: &Exp, kind: &JType) -> Result<Exp, AllocError>
    ensures equal { IfOk result (λ copy. copy ≡ exp.Cast kind.now operand.now) }
{
    let operand = copy_boxed(alloc, operand)?;
    Ok(Exp::Cast(kind.copy(alloc)?, operand))
}

#[cycle(copy)]
fn copy_instance_of(alloc: Global, operand: &Exp, kind: &JType) -> Result<Exp, AllocError>
    ensures equal { IfOk result (λ copy. copy ≡ exp.InstanceOf operand.now kind.now) }
{
    let operand = copy_boxed(alloc, operand)?;
    Ok(Exp::InstanceOf(operand, kind.copy(alloc)?))
}

#[cycle(copy)]
fn copy_negative(alloc: Global, operand: &Exp) -> Result<Exp, AllocError>
    ensures equal { IfOk result (λ copy. copy ≡ exp.Negative operand.now) }
{
    Ok(Exp::Negative(copy_boxed(alloc, operand)?))
}

#[cycle(copy)]
fn copy_not(alloc: Global, operand: &Exp) -> Result<Exp, AllocError>
    ensures equal { IfOk result (λ copy. copy ≡ exp.Not operand.now) }
{
    Ok(Exp::Not(copy_boxed(alloc, operand)?))
}

#[cycle(copy)]
fn copy_assign(alloc: Global, variable: Var, value: &Exp) -> Result<Exp, AllocError>
    ensures equal { IfOk result (λ copy. copy ≡ exp.Assign variable value.now) }
{
    Ok(Exp::Assign(variable, copy_boxed(alloc, value)?))
}
