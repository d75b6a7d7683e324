//! The types of operands and results of operators (JLS 5.6, 15.15 to 15.24).

ghost use Rattle.std.specs.Prelude.{◌≡◌, Some, option_map};
ghost use Rattle.std.specs.Option.{option_copied};
ghost use Rattle.dj_names.specs.Types.{view_type};
ghost use Rattle.dj_meaning.specs.Promotions as spec;
ghost use Rattle.dj_operators.specs.Numbers.{view_number};

use dj_names::JType;
use dj_syntax::Op;

/// A type after numeric promotion.
#[derive(Clone, Copy)]
pub enum Number {
    Int,
    Long,
    Float,
    Double,
}

impl Number {
    /// The type.
    pub fn kind(self) -> JType
        ensures kind { view_type result ≡ view_number self }
    {
        match self {
            Number::Int => JType::Int,
            Number::Long => JType::Long,
            Number::Float => JType::Float,
            Number::Double => JType::Double,
        }
    }

    /// Whether it is float or double.
    fn is_floating(self) -> bool
        ensures floating { result ≡ spec.is_floating (Some (view_number self)) }
    {
        match self {
            Number::Float | Number::Double => true,
            Number::Int | Number::Long => false,
        }
    }
}

/// The type after unary numeric promotion, none where it is no number's.
pub fn promoted(kind: &JType) -> Option<Number>
    ensures promoted { option_map view_number result ≡ spec.promoted (view_type kind.now) }
{
    match kind {
        JType::Byte | JType::Char | JType::Short | JType::Int => Some(Number::Int),
        JType::Long => Some(Number::Long),
        JType::Float => Some(Number::Float),
        JType::Double => Some(Number::Double),
        JType::Boolean | JType::Class(_) | JType::Array(_) => None,
    }
}

/// The wider one of two types.
fn wider(first: Number, second: Number) -> Number
    ensures wider { spec.wider (view_number first) (view_number second) ≡ Some (view_number result) }
{
    match (first, second) {
        (Number::Double, _) | (_, Number::Double) => Number::Double,
        (Number::Float, _) | (_, Number::Float) => Number::Float,
        (Number::Long, _) | (_, Number::Long) => Number::Long,
        (Number::Int, Number::Int) => Number::Int,
    }
}

/// The type after binary numeric promotion.
fn promoted_both(first: &JType, second: &JType) -> Option<Number>
    ensures promoted { option_map view_number result ≡ spec.promoted_both (view_type first.now) (view_type second.now) }
{
    match (promoted(first), promoted(second)) {
        (Some(one), Some(other)) => Some(wider(one, other)),
        (None, _) | (_, None) => None,
    }
}

/// The type of a number, where there is one.
fn kind_of(number: Option<Number>) -> Option<JType>
    ensures kind { option_map view_type result ≡ option_map view_number number }
{
    match number {
        Some(number) => Some(number.kind()),
        None => None,
    }
}

/// The type of the result of `&`, `^` or `|`: a boolean of booleans, a number of numbers.
fn bits_type(first: &JType, second: &JType) -> Option<JType>
    ensures bits { option_map view_type result ≡ spec.bits_type (view_type first.now) (view_type second.now) }
{
    match first {
        JType::Boolean => Some(JType::Boolean),
        JType::Byte
        | JType::Char
        | JType::Short
        | JType::Int
        | JType::Long
        | JType::Float
        | JType::Double
        | JType::Class(_)
        | JType::Array(_) => kind_of(promoted_both(first, second)),
    }
}

/// The type of an operator's result, given those of its operands, where they have one.
pub fn result_type(operator: Op, first: Option<&JType>, second: Option<&JType>) -> Option<JType>
    ensures typed { option_map view_type result ≡ spec.result_type (spec.typing_of operator) (option_map view_type (option_copied first.entry)) (option_map view_type (option_copied second.entry)) }
{
    match operator {
        Op::Mul | Op::Div | Op::Rem | Op::Add | Op::Sub => match (first, second) {
            (Some(first), Some(second)) => kind_of(promoted_both(first, second)),
            (None, _) | (_, None) => None,
        },
        Op::Shl | Op::Shr | Op::Ushr => match first {
            Some(first) => kind_of(promoted(first)),
            None => None,
        },
        Op::And | Op::Xor | Op::Or => match (first, second) {
            (Some(first), Some(second)) => bits_type(first, second),
            (None, _) | (_, None) => None,
        },
        Op::Lt | Op::Le | Op::Gt | Op::Ge | Op::Eq | Op::Ne | Op::AndAlso | Op::OrElse => {
            Some(JType::Boolean)
        }
    }
}

/// Whether two types become float or double by binary numeric promotion.
fn both_become_floating(first: Option<&JType>, second: Option<&JType>) -> bool
    ensures floating { result ≡ spec.is_floating (spec.both spec.promoted_both (option_map view_type (option_copied first.entry)) (option_map view_type (option_copied second.entry))) }
{
    match (first, second) {
        (Some(first), Some(second)) => match promoted_both(first, second) {
            Some(number) => number.is_floating(),
            None => false,
        },
        (None, _) | (_, None) => false,
    }
}

/// Whether the operands of an operator become floats or doubles.
pub fn becomes_floating(operator: Op, first: Option<&JType>, second: Option<&JType>) -> bool
    ensures floating { result ≡ spec.becomes_floating (spec.typing_of operator) (option_map view_type (option_copied first.entry)) (option_map view_type (option_copied second.entry)) }
{
    match operator {
        Op::Mul
        | Op::Div
        | Op::Rem
        | Op::Add
        | Op::Sub
        | Op::Lt
        | Op::Le
        | Op::Gt
        | Op::Ge
        | Op::Eq
        | Op::Ne => both_become_floating(first, second),
        Op::Shl | Op::Shr | Op::Ushr | Op::And | Op::Xor | Op::Or | Op::AndAlso | Op::OrElse =>
            false,
    }
}
