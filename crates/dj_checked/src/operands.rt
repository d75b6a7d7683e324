//! Which operands operators take, and what a type must be (JLS 15.15 to 15.25).

ghost use Rattle.std.specs.Prelude.{◌≡◌, ◌&&◌};
ghost use Rattle.std.specs.Option.{option_map, option_copied};
ghost use Rattle.dj_names.specs.Types.{view_type, view_static};
ghost use Rattle.dj_values.specs.Deciding.{is_reference};
ghost use Rattle.dj_meaning.specs.Calls.{is_assignable};
ghost use Rattle.dj_typing.specs.Casting.{may_be_of, may_cast};
ghost use Rattle.dj_typing.specs.Expressions.{goes};
ghost use Rattle.dj_typing.specs.Operands as spec;
ghost use Rattle.dj_checked.specs.Tests.{test_of};

use crate::casting::{is_number, is_reference, is_type, may_be_of, may_cast};
use dj_headers::Headers;
use dj_names::{JType, StaticType};
use dj_syntax::Op;

/// What a type is tested for.
#[derive(Clone, Copy)]
pub enum Test {
    Number,
    Integral,
    Int,
    Boolean,
    Array,
    Reference,
}

/// Whether a type becomes an int by promotion.
fn is_int(kind: &JType) -> bool
    ensures int { result ≡ spec.is_int (view_type kind.now) }
{
    match kind {
        JType::Byte | JType::Char | JType::Short | JType::Int => true,
        JType::Boolean
        | JType::Long
        | JType::Float
        | JType::Double
        | JType::Class(_)
        | JType::Array(_) => false,
    }
}

/// Whether a type becomes an int or a long by promotion.
fn is_integral(kind: &JType) -> bool
    ensures integral { result ≡ spec.is_integral (view_type kind.now) }
{
    match kind {
        JType::Byte | JType::Char | JType::Short | JType::Int | JType::Long => true,
        JType::Boolean | JType::Float | JType::Double | JType::Class(_) | JType::Array(_) => false,
    }
}

/// Whether a type passes a test.
pub fn passes(test: Test, kind: &JType) -> bool
    ensures passes { result ≡ test_of test (view_type kind.now) }
{
    match test {
        Test::Number => is_number(kind),
        Test::Integral => is_integral(kind),
        Test::Int => is_int(kind),
        Test::Boolean => is_type(kind, &JType::Boolean),
        Test::Array => matches!(kind, JType::Array(_)),
        Test::Reference => is_reference(kind),
    }
}

/// Whether the type of an expression is one of the machine that passes a test.
fn is_of(test: Test, kind: &StaticType) -> bool
    ensures of { result ≡ spec.is_of (test_of test) (view_static kind.now) }
{
    match kind {
        StaticType::Null => false,
        StaticType::Of(kind) => passes(test, kind),
    }
}

/// The same, where the expression has a type.
pub fn if_of(test: Test, found: &Option<StaticType>) -> bool
    ensures of { result ≡ spec.if_typed (option_map view_static found.now) (spec.is_of (test_of test)) }
{
    match found {
        None => true,
        Some(kind) => is_of(test, kind),
    }
}

/// Whether both types pass a test.
fn are_both(test: Test, first: &StaticType, second: &StaticType) -> bool
    ensures both { result ≡ spec.are_both (test_of test) (view_static first.now) (view_static second.now) }
{
    is_of(test, first) && is_of(test, second)
}

/// Whether a type is a class, an interface or an array, or that of null.
fn is_object(kind: &StaticType) -> bool
    ensures object { result ≡ spec.is_object (view_static kind.now) }
{
    match kind {
        StaticType::Null => true,
        StaticType::Of(kind) => is_reference(kind),
    }
}

/// Whether references of these types may be the same.
fn may_be_same(headers: &Headers, first: &StaticType, second: &StaticType) -> bool
    ensures may { result ≡ spec.may_be_same headers.now (view_static first.now) (view_static second.now) }
{
    match first {
        StaticType::Null => is_object(second),
        StaticType::Of(kind) => match second {
            StaticType::Null => is_reference(kind),
            StaticType::Of(other) => may_be_of(headers, first, other),
        },
    }
}

/// Whether `==` and `!=` take these types.
fn takes_equals(headers: &Headers, first: &StaticType, second: &StaticType) -> bool
    ensures takes { result ≡ spec.takes headers.now spec.Equals (view_static first.now) (view_static second.now) }
{
    are_both(Test::Number, first, second)
        || are_both(Test::Boolean, first, second)
        || may_be_same(headers, first, second)
}

/// Whether an operator takes two operands of these types.
fn takes(headers: &Headers, operator: Op, first: &StaticType, second: &StaticType) -> bool
    ensures takes { result ≡ spec.takes headers.now (spec.operands_of operator) (view_static first.now) (view_static second.now) }
{
    match operator {
        Op::Mul | Op::Div | Op::Rem | Op::Add | Op::Sub | Op::Lt | Op::Le | Op::Gt | Op::Ge => {
            are_both(Test::Number, first, second)
        }
        Op::Shl | Op::Shr | Op::Ushr => are_both(Test::Integral, first, second),
        Op::Eq | Op::Ne => takes_equals(headers, first, second),
        Op::And | Op::Xor | Op::Or => {
            are_both(Test::Integral, first, second) || are_both(Test::Boolean, first, second)
        }
        Op::AndAlso | Op::OrElse => are_both(Test::Boolean, first, second),
    }
}

/// The same, where both operands have types.
pub fn takes_both(
    headers: &Headers,
    operator: Op,
    first: &Option<StaticType>,
    second: &Option<StaticType>,
) -> bool
    ensures takes { result ≡ spec.if_both (option_map view_static first.now) (option_map view_static second.now) (spec.takes headers.now (spec.operands_of operator)) }
{
    match first {
        None => true,
        Some(first) => match second {
            None => true,
            Some(second) => takes(headers, operator, first, second),
        },
    }
}

/// Whether both results of a choice have one type, or one of them is null and the other a reference.
fn agree(first: &StaticType, second: &StaticType) -> bool
    ensures agree { result ≡ spec.agree (view_static first.now) (view_static second.now) }
{
    match first {
        StaticType::Null => is_object(second),
        StaticType::Of(kind) => match second {
            StaticType::Null => is_reference(kind),
            StaticType::Of(other) => is_type(kind, other),
        },
    }
}

/// The same, where both results have types.
pub fn agree_both(first: &Option<StaticType>, second: &Option<StaticType>) -> bool
    ensures agree { result ≡ spec.if_both (option_map view_static first.now) (option_map view_static second.now) spec.agree }
{
    match first {
        None => true,
        Some(first) => match second {
            None => true,
            Some(second) => agree(first, second),
        },
    }
}

/// Whether an expression of a type goes where another is wanted.
fn is_assignable(headers: &Headers, from: &StaticType, to: &JType) -> bool
    ensures goes { result ≡ is_assignable headers.now (view_static from.now) (view_type to.now) }
{
    dj_headers::is_assignable(headers, from, to)
}

/// The same, where there are both types.
pub fn goes(headers: &Headers, found: &Option<StaticType>, wanted: Option<&JType>) -> bool
    ensures goes { result ≡ goes headers.now (option_map view_static found.now) (option_map view_type (option_copied wanted.entry)) }
{
    match wanted {
        None => true,
        Some(wanted) => match found {
            None => true,
            Some(kind) => is_assignable(headers, kind, wanted),
        },
    }
}

/// Whether an expression may be cast to a type, where it has one.
pub fn casts(headers: &Headers, found: &Option<StaticType>, to: &JType) -> bool
    ensures casts { result ≡ spec.if_typed (option_map view_static found.now) (λ type. may_cast headers.now type (view_type to.now)) }
{
    match found {
        None => true,
        Some(kind) => may_cast(headers, kind, to),
    }
}

/// Whether `instanceof` may ask of an expression whether it is of a type.
pub fn is_asked(headers: &Headers, found: &Option<StaticType>, to: &JType) -> bool
    ensures asked { result ≡ (is_reference (view_type to.now) && spec.if_typed (option_map view_static found.now) (λ type. may_be_of headers.now type (view_type to.now))) }
{
    is_reference(to)
        && match found {
            None => true,
            Some(kind) => may_be_of(headers, kind, to),
        }
}
