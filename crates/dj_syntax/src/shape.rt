//! What an expression is as a part of another, which decides whether it stands in parentheses (JLS 15).

ghost use Rattle.std.specs.Prelude.{◌≡◌};
ghost use Rattle.dj_syntax.specs.Trees.{view_exp};
ghost use Rattle.dj_syntax.specs.UnitText.{is_atom, is_negated, is_receiver, number_shape, shape};

use crate::expression::Exp;

/// What an expression is as a part of another.
#[derive(Clone, Copy, PartialEq, Eq)]
pub enum Shape {
    /// An int or long literal of 0 or more.
    Numeral,
    StaticField,
    /// Another expression that stands bare.
    Atom,
    /// One that stands in parentheses.
    Compound,
}

impl Shape {
    /// What an expression is.
    pub fn of(exp: &Exp) -> Shape
        ensures shape { result ≡ shape (view_exp exp.now) }
    {
        match exp {
            Exp::Int(value) => of_number(i64::from(*value)),
            Exp::Long(value) => of_number(*value),
            Exp::Static(_, _) => Shape::StaticField,
            Exp::Text(_)
            | Exp::Bool(_)
            | Exp::Null
            | Exp::This
            | Exp::Var(_)
            | Exp::ClassOf(_)
            | Exp::Field(_, _)
            | Exp::Element(_, _)
            | Exp::Call(_, _, _)
            | Exp::StaticCall(_, _, _)
            | Exp::SuperCall(_, _, _) => Shape::Atom,
            Exp::New(_, _)
            | Exp::NewArray(_, _, _)
            | Exp::Cast(_, _)
            | Exp::InstanceOf(_, _)
            | Exp::Negative(_)
            | Exp::Not(_)
            | Exp::Binary(_, _, _)
            | Exp::Choice(_, _, _)
            | Exp::Assign(_, _) => Shape::Compound,
        }
    }

    /// Whether it stands bare as an operand.
    pub fn is_atom(self) -> bool
        ensures atom { result ≡ is_atom self }
    {
        match self {
            Shape::Numeral | Shape::StaticField | Shape::Atom => true,
            Shape::Compound => false,
        }
    }

    /// Whether it stands bare in front of a dot.
    pub fn is_receiver(self) -> bool
        ensures receiver { result ≡ is_receiver self }
    {
        match self {
            Shape::Numeral | Shape::Atom => true,
            Shape::StaticField | Shape::Compound => false,
        }
    }

    /// Whether it stands bare behind a minus sign.
    pub fn is_negated(self) -> bool
        ensures negated { result ≡ is_negated self }
    {
        match self {
            Shape::StaticField | Shape::Atom => true,
            Shape::Numeral | Shape::Compound => false,
        }
    }
}

/// What a number is.
fn of_number(number: i64) -> Shape
    ensures shape { result ≡ number_shape number }
{
    if number >= 0 {
        Shape::Numeral
    } else {
        Shape::Compound
    }
}
