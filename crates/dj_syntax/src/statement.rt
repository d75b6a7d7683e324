//! Statements (JLS 14).

mod copied;

use crate::expression::Exp;
pub use crate::statement::copied::copy_list;
use crate::variable::Var;
use dj_names::{Boxed, ClassName, Items, JType, Units};

/// A statement.
#[cycle(statement)]
#[derive(Drop)]
pub enum Stm {
    Block(Items<Stm>),
    /// A label by its number, and what it labels.
    Labelled(u32, Boxed<Stm>),
    /// A declaration of a variable, with its first value where it has one.
    Declare(Var, JType, Option<Exp>),
    Set(Var, Exp),
    /// A store to a field: its object, its name, the value.
    SetField(Exp, Units, Exp),
    /// A store to a static field: its class, its name, the value.
    SetStatic(ClassName, Units, Exp),
    /// A store to an element: its array, its index, the value.
    SetElement(Exp, Exp, Exp),
    /// A call or a new object, whose value isn't used (JLS 14.8).
    Run(Exp),
    /// A test, what runs where it is true, and what else; without statements there is no `else`.
    If(Exp, Items<Stm>, Items<Stm>),
    While(Exp, Items<Stm>),
    Switch(Exp, Items<Group>),
    Break(u32),
    Continue(u32),
    Return(Option<Exp>),
    Throw(Exp),
    /// A throw of a variable through the unit's helper.
    Rethrow(Var),
    Try(Items<Stm>, Items<Catch>),
    Synchronized(Exp, Items<Stm>),
    /// A call of a constructor: of this class, or else of the superclass (JLS 8.8.7.1).
    Construct(bool, Items<Exp>),
    Do(Items<Stm>, Exp),
    /// A `for` that begins with nothing: its test, the variable that each turn ends by setting, to what, and its body.
    For(Exp, Var, Exp, Items<Stm>),
    /// A `try` without a catch clause, and what its `finally` runs.
    Finally(Items<Stm>, Items<Stm>),
}

/// Statements of a switch behind their labels; control falls through to the next group (JLS 14.11).
#[cycle(statement)]
#[derive(Drop)]
pub struct Group {
    /// The numbers of `case` labels, None for `default`.
    pub labels: Items<Option<i32>>,
    pub body: Items<Stm>,
}

/// A catch clause (JLS 14.20).
#[cycle(statement)]
#[derive(Drop)]
pub struct Catch {
    pub class: ClassName,
    pub variable: Var,
    pub body: Items<Stm>,
}
