//! Expressions (JLS 15).

mod copied;

pub use crate::expression::copied::{copy_boxed, copy_exps, copy_name, copy_option};
use crate::operator::Op;
use crate::variable::Var;
use dj_names::{Boxed, ClassName, Items, JType, Units};

/// An expression. Lists in it stand in boxes, which keep it small: 40 bytes.
#[derive(Drop)]
pub enum Exp {
    /// An int literal, a negative one with its sign.
    Int(i32),
    /// A long literal, a negative one with its sign.
    Long(i64),
    /// A string literal, by its units (JLS 3.10.5).
    Text(Units),
    Bool(bool),
    Null,
    This,
    Var(Var),
    /// A class literal (JLS 15.8.2).
    ClassOf(JType),
    /// A field of an object; `length` of an array is its length.
    Field(Boxed<Exp>, Units),
    /// A static field of a class.
    Static(ClassName, Units),
    /// An element of an array at an index.
    Element(Boxed<Exp>, Boxed<Exp>),
    /// A call of an object's method.
    Call(Boxed<Exp>, Units, Boxed<Items<Exp>>),
    /// A call of a class's static method.
    StaticCall(ClassName, Units, Boxed<Items<Exp>>),
    /// A call of a method above: of an interface, where one is named, or of the superclass (JLS 15.12.1).
    SuperCall(Option<ClassName>, Units, Boxed<Items<Exp>>),
    New(ClassName, Boxed<Items<Exp>>),
    /// A new array: the type of its innermost elements, its sizes, and how many dimensions have none (JLS 15.10).
    NewArray(JType, Boxed<Items<Exp>>, u32),
    Cast(JType, Boxed<Exp>),
    InstanceOf(Boxed<Exp>, JType),
    /// A minus sign before its operand.
    Negative(Boxed<Exp>),
    Not(Boxed<Exp>),
    /// An operator between its left and its right operand.
    Binary(Op, Boxed<Exp>, Boxed<Exp>),
    /// A test, what is taken where it is true, and what else (JLS 15.25).
    Choice(Boxed<Exp>, Boxed<Exp>, Boxed<Exp>),
    Assign(Var, Boxed<Exp>),
}
