//! Expressions with other names. Parts are made in boxes by a function of their own, so that the recursion takes little of the stack a level.

ghost use Rattle.std.specs.Prelude.{◌≡◌, option_map, IfOk};
ghost use Rattle.dj_names.specs.Types.{view_type};
ghost use Rattle.dj_syntax.specs.Trees.{Assign, Call, Cast, InstanceOf, Negative, New, NewArray, Not, StaticCall, SuperCall, Field, view_exp, view_exps};
ghost use Rattle.dj_renaming.specs.Renaming as spec;
ghost use Rattle.dj_renumber.specs.Views.{names_of};

use crate::names::{NewNames, variable_named};
use dj_names::{Boxed, ClassName, Items, JType, Units};
use dj_syntax::{Exp, Var};
use std::alloc::{AllocError, Global};

/// An expression with other names.
#[cycle(exp_renamed)]
pub fn exp_renamed(alloc: Global, names: &NewNames<'_>, exp: &Exp) -> Result<Exp, AllocError>
    ensures renamed { IfOk result (λ made. view_exp made ≡ spec.exp_renamed (names_of names.now) (view_exp exp.now)) }
{
    match exp {
        Exp::Int(_)
        | Exp::Long(_)
        | Exp::Text(_)
        | Exp::Bool(_)
        | Exp::Null
        | Exp::This
        | Exp::ClassOf(_)
        | Exp::Static(_, _) => exp.copy(alloc),
        Exp::Var(variable) => {
            let variable = variable_named(names, *variable)?;
            Ok(Exp::Var(variable))
        }
        Exp::Field(object, name) => field(alloc, names, object.get(), name),
        Exp::Element(array, index) => {
            let array = boxed(alloc, names, array.get())?;
            let index = boxed(alloc, names, index.get())?;
            Ok(Exp::Element(array, index))
        }
        Exp::Call(object, name, list) => {
            let object = boxed(alloc, names, object.get())?;
            let arguments = arguments(alloc, names, list.get().as_slice())?;
            let name = name.copy(alloc)?;
            Ok(Exp::Call(object, name, arguments))
        }
        Exp::StaticCall(class, name, list) => {
            static_call(alloc, names, class, name, list.get().as_slice())
        }
        Exp::SuperCall(above, name, list) => {
            super_call(alloc, names, above, name, list.get().as_slice())
        }
        Exp::New(class, list) => new_object(alloc, names, class, list.get().as_slice()),
        Exp::NewArray(kind, sizes, more) => {
            new_array(alloc, names, sizes.get().as_slice(), kind, *more)
        }
        Exp::Cast(kind, operand) => cast(alloc, names, operand.get(), kind),
        Exp::InstanceOf(operand, kind) => instance_of(alloc, names, operand.get(), kind),
        Exp::Negative(operand) => negative(alloc, names, operand.get()),
        Exp::Not(operand) => not(alloc, names, operand.get()),
        Exp::Binary(op, left, right) => {
            let left = boxed(alloc, names, left.get())?;
            let right = boxed(alloc, names, right.get())?;
            Ok(Exp::Binary(*op, left, right))
        }
        Exp::Choice(test, first, second) => {
            let test = boxed(alloc, names, test.get())?;
            let first = boxed(alloc, names, first.get())?;
            let second = boxed(alloc, names, second.get())?;
            Ok(Exp::Choice(test, first, second))
        }
        Exp::Assign(variable, value) => assign(alloc, names, *variable, value.get()),
    }
}

/// Expressions with other names, in order.
#[cycle(exp_renamed)]
pub fn exps_renamed(
    alloc: Global,
    names: &NewNames<'_>,
    list: &[Exp],
) -> Result<Items<Exp>, AllocError>
    ensures renamed { IfOk result (λ made. view_exps made ≡ spec.exps_renamed (names_of names.now) (view_exps list.now)) }
{
    let mut made = Items::new(alloc);
    for exp in list {
        let one = exp_renamed(alloc, names, exp)?;
        made.push(one)?;
    }
    Ok(made)
}

/// An expression that may be left out, with other names.
pub fn option_renamed(
    alloc: Global,
    names: &NewNames<'_>,
    exp: &Option<Exp>,
) -> Result<Option<Exp>, AllocError>
    ensures renamed { IfOk result (λ made. option_map view_exp made ≡ spec.option_renamed (names_of names.now) (option_map view_exp exp.now)) }
{
    match exp {
        None => Ok(None),
        Some(exp) => {
            let made = exp_renamed(alloc, names, exp)?;
            Ok(Some(made))
        }
    }
}

// ---- parts

/// An equal name, where there is one.
fn copy_name(alloc: Global, name: &Option<ClassName>) -> Result<Option<ClassName>, AllocError>
    ensures equal { IfOk result (λ copy. copy ≡ name.now) }
{
    match name {
        Some(name) => Ok(Some(name.copy(alloc)?)),
        None => Ok(None),
    }
}

/// An expression with other names, in a box.
#[cycle(exp_renamed)]
pub fn boxed(alloc: Global, names: &NewNames<'_>, exp: &Exp) -> Result<Boxed<Exp>, AllocError>
    ensures renamed { IfOk result (λ made. view_exp made ≡ spec.exp_renamed (names_of names.now) (view_exp exp.now)) }
{
    let made = exp_renamed(alloc, names, exp)?;
    Ok(Boxed::new(alloc, made)?)
}

/// Expressions with other names, in order, in a box.
#[cycle(exp_renamed)]
fn arguments(
    alloc: Global,
    names: &NewNames<'_>,
    list: &[Exp],
) -> Result<Boxed<Items<Exp>>, AllocError>
    ensures renamed { IfOk result (λ made. view_exps made ≡ spec.exps_renamed (names_of names.now) (view_exps list.now)) }
{
    let made = exps_renamed(alloc, names, list)?;
    Ok(Boxed::new(alloc, made)?)
}

#[cycle(exp_renamed)]
fn field(alloc: Global, names: &NewNames<'_>, object: &Exp, name: &Units) -> Result<Exp, AllocError>
    ensures renamed { IfOk result (λ made. view_exp made ≡ Field (spec.exp_renamed (names_of names.now) (view_exp object.now)) name.now) }
{
    let object = boxed(alloc, names, object)?;
    let name = name.copy(alloc)?;
    Ok(Exp::Field(object, name))
}

#[cycle(exp_renamed)]
fn static_call(
    alloc: Global,
    names: &NewNames<'_>,
    class: &ClassName,
    name: &Units,
    list: &[Exp],
) -> Result<Exp, AllocError>
    ensures renamed { IfOk result (λ made. view_exp made ≡ StaticCall class.now name.now (spec.exps_renamed (names_of names.now) (view_exps list.now))) }
{
    let arguments = arguments(alloc, names, list)?;
    let class = class.copy(alloc)?;
    let name = name.copy(alloc)?;
    Ok(Exp::StaticCall(class, name, arguments))
}

#[cycle(exp_renamed)]
fn super_call(
    alloc: Global,
    names: &NewNames<'_>,
    above: &Option<ClassName>,
    name: &Units,
    list: &[Exp],
) -> Result<Exp, AllocError>
    ensures renamed { IfOk result (λ made. view_exp made ≡ SuperCall above.now name.now (spec.exps_renamed (names_of names.now) (view_exps list.now))) }
{
    let arguments = arguments(alloc, names, list)?;
    let above = copy_name(alloc, above)?;
    let name = name.copy(alloc)?;
    Ok(Exp::SuperCall(above, name, arguments))
}

#[cycle(exp_renamed)]
fn new_object(
    alloc: Global,
    names: &NewNames<'_>,
    class: &ClassName,
    list: &[Exp],
) -> Result<Exp, AllocError>
    ensures renamed { IfOk result (λ made. view_exp made ≡ New class.now (spec.exps_renamed (names_of names.now) (view_exps list.now))) }
{
    let arguments = arguments(alloc, names, list)?;
    let class = class.copy(alloc)?;
    Ok(Exp::New(class, arguments))
}

#[cycle(exp_renamed)]
fn new_array(
    alloc: Global,
    names: &NewNames<'_>,
    sizes: &[Exp],
    kind: &JType,
    more: u32,
) -> Result<Exp, AllocError>
    ensures renamed { IfOk result (λ made. view_exp made ≡ NewArray (view_type kind.now) (spec.exps_renamed (names_of names.now) (view_exps sizes.now)) more) }
{
    let sizes = arguments(alloc, names, sizes)?;
    let kind = kind.copy(alloc)?;
    Ok(Exp::NewArray(kind, sizes, more))
}

#[cycle(exp_renamed)]
fn cast(alloc: Global, names: &NewNames<'_>, operand: &Exp, kind: &JType) -> Result<Exp, AllocError>
    ensures renamed { IfOk result (λ made. view_exp made ≡ Cast (view_type kind.now) (spec.exp_renamed (names_of names.now) (view_exp operand.now))) }
{
    let operand = boxed(alloc, names, operand)?;
    let kind = kind.copy(alloc)?;
    Ok(Exp::Cast(kind, operand))
}

#[cycle(exp_renamed)]
fn instance_of(
    alloc: Global,
    names: &NewNames<'_>,
    operand: &Exp,
    kind: &JType,
) -> Result<Exp, AllocError>
    ensures renamed { IfOk result (λ made. view_exp made ≡ InstanceOf (spec.exp_renamed (names_of names.now) (view_exp operand.now)) (view_type kind.now)) }
{
    let operand = boxed(alloc, names, operand)?;
    let kind = kind.copy(alloc)?;
    Ok(Exp::InstanceOf(operand, kind))
}

#[cycle(exp_renamed)]
fn negative(alloc: Global, names: &NewNames<'_>, operand: &Exp) -> Result<Exp, AllocError>
    ensures renamed { IfOk result (λ made. view_exp made ≡ Negative (spec.exp_renamed (names_of names.now) (view_exp operand.now))) }
{
    let operand = boxed(alloc, names, operand)?;
    Ok(Exp::Negative(operand))
}

#[cycle(exp_renamed)]
fn not(alloc: Global, names: &NewNames<'_>, operand: &Exp) -> Result<Exp, AllocError>
    ensures renamed { IfOk result (λ made. view_exp made ≡ Not (spec.exp_renamed (names_of names.now) (view_exp operand.now))) }
{
    let operand = boxed(alloc, names, operand)?;
    Ok(Exp::Not(operand))
}

#[cycle(exp_renamed)]
fn assign(
    alloc: Global,
    names: &NewNames<'_>,
    variable: Var,
    value: &Exp,
) -> Result<Exp, AllocError>
    ensures renamed { IfOk result (λ made. view_exp made ≡ Assign ((names_of names.now).variable variable) (spec.exp_renamed (names_of names.now) (view_exp value.now))) }
{
    let variable = variable_named(names, variable)?;
    let value = boxed(alloc, names, value)?;
    Ok(Exp::Assign(variable, value))
}
