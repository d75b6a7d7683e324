//! Expressions of a body (JLS 3.10, 15).

ghost use Rattle.std.specs.Prelude.{◌≡◌, ◌↔◌, ◌<◌, ◌^◌, IsTrue, IfSome, FitsSigned, option_map};
ghost use Rattle.std.specs.Int.{w32, w64};
ghost use Rattle.std.specs.List.{AllByRecursion};
ghost use Rattle.dj_names.specs.Types.{view_type};
ghost use Rattle.dj_syntax.specs.Trees.{view_exp, view_exps};
ghost use Rattle.dj_syntax.specs.WellFormed.{AreWellFormedExps, IsQualified, IsVariable, IsWellFormedExp, has_no_exp, is_array, is_call};

use crate::names::{is_named, is_qualified};
use dj_names::{ClassName, JType, is_identifier, is_sayable};
use dj_syntax::{Exp, Var};

/// Whether a value, where there is one, is well formed.
pub fn is_well_formed_value(value: &Option<Exp>) -> bool
    ensures well_formed { IsTrue result ↔ IfSome (option_map view_exp value.now) IsWellFormedExp }
{
    match value {
        None => true,
        Some(value) => is_well_formed_exp(value),
    }
}

/// Whether an expression is well formed.
#[cycle(expression)]
pub fn is_well_formed_exp(exp: &Exp) -> bool
    ensures well_formed { IsTrue result ↔ IsWellFormedExp (view_exp exp.now) }
{
    match exp {
        Exp::Int(number) => is_int(*number),
        Exp::Long(number) => is_long(*number),
        Exp::Text(units) => are_units(units.as_slice()),
        Exp::Bool(_) => true,
        Exp::Null => true,
        Exp::This => true,
        Exp::Var(variable) => is_variable(*variable),
        Exp::ClassOf(kind) => is_named(kind),
        Exp::Field(object, name) => is_well_formed_exp(object.get()) && is_identifier(name),
        Exp::Static(class, name) => is_sayable(class.as_slice()) && is_identifier(name),
        Exp::Element(array, index) => {
            is_well_formed_exp(array.get()) && is_well_formed_exp(index.get())
        }
        Exp::Call(object, name, list) => {
            is_well_formed_exp(object.get())
                && is_identifier(name)
                && are_well_formed_exps(list.get().as_slice())
        }
        Exp::StaticCall(class, name, list) => {
            is_sayable(class.as_slice())
                && is_identifier(name)
                && are_well_formed_exps(list.get().as_slice())
        }
        Exp::SuperCall(above, name, list) => {
            is_above(above) && is_identifier(name) && are_well_formed_exps(list.get().as_slice())
        }
        Exp::New(class, list) => {
            is_qualified(class.as_slice()) && are_well_formed_exps(list.get().as_slice())
        }
        Exp::NewArray(kind, sizes, more) => {
            is_named(kind)
                && !is_array(kind)
                && !has_no_exp(sizes.get().as_slice())
                && are_well_formed_exps(sizes.get().as_slice())
                && is_number(*more)
        }
        Exp::Cast(kind, operand) => is_named(kind) && is_well_formed_exp(operand.get()),
        Exp::InstanceOf(operand, kind) => is_well_formed_exp(operand.get()) && is_named(kind),
        Exp::Negative(operand) => is_well_formed_exp(operand.get()),
        Exp::Not(operand) => is_well_formed_exp(operand.get()),
        Exp::Binary(_, left, right) => {
            is_well_formed_exp(left.get()) && is_well_formed_exp(right.get())
        }
        Exp::Choice(test, first, second) => {
            is_well_formed_exp(test.get())
                && is_well_formed_exp(first.get())
                && is_well_formed_exp(second.get())
        }
        Exp::Assign(variable, value) => is_variable(*variable) && is_well_formed_exp(value.get()),
    }
}

/// Whether each expression is well formed.
#[cycle(expression)]
pub fn are_well_formed_exps(list: &[Exp]) -> bool
    ensures well_formed { IsTrue result ↔ AreWellFormedExps (view_exps list.now) }
{
    for exp in list {
        if !is_well_formed_exp(exp) {
            return false;
        }
    }
    true
}

/// Whether an expression may be a statement.
pub fn is_call(exp: &Exp) -> bool
    ensures call { result ≡ is_call (view_exp exp.now) }
{
    match exp {
        Exp::Call(_, _, _) | Exp::StaticCall(_, _, _) | Exp::SuperCall(_, _, _) | Exp::New(_, _) =>
            true,
        Exp::Int(_)
        | Exp::Long(_)
        | Exp::Text(_)
        | Exp::Bool(_)
        | Exp::Null
        | Exp::This
        | Exp::Var(_)
        | Exp::ClassOf(_)
        | Exp::Field(_, _)
        | Exp::Static(_, _)
        | Exp::Element(_, _)
        | Exp::NewArray(_, _, _)
        | Exp::Cast(_, _)
        | Exp::InstanceOf(_, _)
        | Exp::Negative(_)
        | Exp::Not(_)
        | Exp::Binary(_, _, _)
        | Exp::Choice(_, _, _)
        | Exp::Assign(_, _) => false,
    }
}

/// Whether an interface, where one is named, can be written.
fn is_above(interface: &Option<ClassName>) -> bool
    ensures qualified { IsTrue result ↔ IfSome interface.now IsQualified }
{
    match interface {
        None => true,
        Some(interface) => is_qualified(interface.as_slice()),
    }
}

/// Whether a type is an array.
fn is_array(kind: &JType) -> bool
    ensures array { result ≡ is_array (view_type kind.now) }
{
    match kind {
        JType::Array(_) => true,
        JType::Boolean
        | JType::Byte
        | JType::Char
        | JType::Short
        | JType::Int
        | JType::Long
        | JType::Float
        | JType::Double
        | JType::Class(_) => false,
    }
}

/// Whether a list has no expression.
fn has_no_exp(list: &[Exp]) -> bool
    ensures none { result ≡ has_no_exp (view_exps list.now) }
{
    list.is_empty()
}

/// Each number of 32 bits is an int literal.
pub fn is_int(number: i32) -> bool
    ensures literal { IsTrue result ↔ FitsSigned w32 number }
{
    true
}

/// Each number of 64 bits is a long literal.
fn is_long(number: i64) -> bool
    ensures literal { IsTrue result ↔ FitsSigned w64 number }
{
    true
}

/// Each variable has a number of 32 bits.
pub fn is_variable(variable: Var) -> bool
    ensures variable { IsTrue result ↔ IsVariable variable }
{
    true
}

/// Each number of 32 bits is a label, and a count of dimensions.
pub fn is_number(number: u32) -> bool
    ensures number { IsTrue result ↔ (number < 2 ^ 32) }
{
    true
}

/// Whether a string literal has units alone.
fn are_units(units: &[u16]) -> bool
    ensures units { IsTrue result ↔ AllByRecursion (λ unit. unit < 2 ^ 16) units.now }
{
    units.iter().all(|unit| is_unit(*unit))
}

/// Each number of 16 bits is a unit.
fn is_unit(unit: u16) -> bool
    ensures unit { IsTrue result ↔ (unit < 2 ^ 16) }
{
    true
}
