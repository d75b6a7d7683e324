//! The values of constant expressions (JLS 15.28).

ghost use Rattle.std.specs.Prelude.{◌≡◌, IfOk, option_and_then};
ghost use Rattle.std.specs.Option.{option_map};
ghost use Rattle.dj_names.specs.Types.{view_type};
ghost use Rattle.dj_syntax.specs.Trees as trees;
ghost use Rattle.dj_syntax.specs.Trees.{view_exp};
ghost use Rattle.dj_values.specs.Views.{view_value};
ghost use Rattle.dj_meaning.specs.Objects as objects;
ghost use Rattle.dj_meaning.specs.Operators.{operator_of, truth, truth_of as truth_in};
ghost use Rattle.dj_meaning.specs.UnaryOperators as unary;
ghost use Rattle.dj_static.specs.Views.{known_of};
ghost use Rattle.dj_operators.specs.Computed.{view_computed};
ghost use Rattle.dj_places.specs.Constants as spec;
ghost use Rattle.dj_places.specs.Surroundings.{surroundings_of};

use dj_headers::{Headers, class_of};
use dj_names::{ClassName, Constant, Field, JType, Units, is_word};
use dj_operators::{Computed, cast, converted, inverted, negated, operated, truth_of};
use dj_static::{Classes, constant_of, named_field};
use dj_syntax::{Exp, Op};
use dj_values::{RefId, RefValue, Value};
use std::alloc::{AllocError, Global};

/// The value of a string literal.
fn text(alloc: Global, units: &Units) -> Result<Value, AllocError>
    ensures text { IfOk result (λ value. view_value value ≡ objects.text units.now) }
{
    let class = class_of(alloc, "java/lang/String")?;
    let id = RefId::Text(units.copy(alloc)?);
    Ok(Value::Ref(RefValue {
        id,
        class: JType::Class(class),
        length: 0,
    }))
}

/// What is given without asking the outside.
fn given_at_once(computed: Computed) -> Option<Value>
    ensures given { option_map view_value result ≡ spec.given_at_once (view_computed computed) }
{
    match computed {
        Computed::Gives(value) => Some(value),
        Computed::Traps(_) | Computed::More | Computed::Stuck => None,
    }
}

/// The value of a field that is a constant variable.
fn field_constant(alloc: Global, field: &Field) -> Result<Option<Value>, AllocError>
    ensures constant { IfOk result (λ found. option_map view_value found ≡ spec.field_constant (known_of field.now)) }
{
    match constant_of(field) {
        None => Ok(None),
        Some(Constant::Int(number)) => {
            Ok(given_at_once(converted(&field.descriptor, Value::Int(*number))))
        }
        Some(Constant::Long(number)) => {
            Ok(given_at_once(converted(&field.descriptor, Value::Long(*number))))
        }
        Some(Constant::Text(units)) => Ok(Some(text(alloc, units)?)),
        Some(Constant::Float(_) | Constant::Double(_)) => Ok(None),
    }
}

/// The value of a constant variable that is named by its class.
fn named_constant(
    alloc: Global,
    classes: &Classes<'_>,
    class: &ClassName,
    name: &Units,
) -> Result<Option<Value>, AllocError>
    ensures constant { IfOk result (λ found. option_map view_value found ≡ spec.constant (surroundings_of classes.now) (trees.Static class.now name.now)) }
{
    match named_field(alloc, classes, class, name)? {
        None => Ok(None),
        Some(field) => field_constant(alloc, field),
    }
}

/// Whether a type is primitive or String.
fn is_constant_type(kind: &JType) -> bool
    ensures constant { result ≡ spec.is_constant_type (view_type kind.now) }
{
    match kind {
        JType::Boolean
        | JType::Byte
        | JType::Char
        | JType::Short
        | JType::Int
        | JType::Long
        | JType::Float
        | JType::Double => true,
        JType::Class(class) => is_word(class.as_slice(), "java/lang/String"),
        JType::Array(_) => false,
    }
}

/// A constant that is cast.
fn constant_cast(headers: &Headers, kind: &JType, operand: Option<Value>) -> Option<Value>
    ensures cast { option_map view_value result ≡ option_and_then (spec.constant_cast headers.now (view_type kind.now)) (option_map view_value operand) }
{
    match operand {
        None => None,
        Some(operand) => {
            if is_constant_type(kind) {
                given_at_once(cast(headers, kind, operand))
            } else {
                None
            }
        }
    }
}

/// A constant with its sign changed.
fn constant_negated(operand: Option<Value>) -> Option<Value>
    ensures negated { option_map view_value result ≡ option_and_then (λ value. spec.given_at_once (unary.negated value)) (option_map view_value operand) }
{
    match operand {
        None => None,
        Some(operand) => given_at_once(negated(&operand)),
    }
}

/// The other boolean of a constant one.
fn constant_inverted(operand: Option<Value>) -> Option<Value>
    ensures inverted { option_map view_value result ≡ option_and_then (λ value. spec.given_at_once (unary.inverted value)) (option_map view_value operand) }
{
    match operand {
        None => None,
        Some(operand) => given_at_once(inverted(&operand)),
    }
}

/// The booleans that `&&` and `||` work on: the last one that counts.
fn constant_truths(wanted: bool, left: &Value, right: &Value) -> Option<Value>
    ensures truths { option_map view_value result ≡ spec.given_at_once (spec.constant_truths wanted (view_value left.now) (view_value right.now)) }
{
    match (truth_of(left), truth_of(right)) {
        (Some(answer), Some(last)) => {
            Some(Value::Int(i32::from(if answer == wanted { last } else { answer })))
        }
        (None, _) | (Some(_), None) => None,
    }
}

/// An operator between two constants.
fn constant_operation(operator: Op, left: &Value, right: &Value) -> Option<Value>
    ensures operation { option_map view_value result ≡ spec.constant_operation (operator_of operator) (view_value left.now) (view_value right.now) }
{
    match operator {
        Op::AndAlso => constant_truths(true, left, right),
        Op::OrElse => constant_truths(false, left, right),
        Op::Mul
        | Op::Div
        | Op::Rem
        | Op::Add
        | Op::Sub
        | Op::Shl
        | Op::Shr
        | Op::Ushr
        | Op::Lt
        | Op::Le
        | Op::Gt
        | Op::Ge
        | Op::Eq
        | Op::Ne
        | Op::And
        | Op::Xor
        | Op::Or => given_at_once(operated(operator, left, right)),
    }
}

/// An operator between what may be constants.
fn operation(operator: Op, left: Option<Value>, right: Option<Value>) -> Option<Value>
    ensures operation { option_map view_value result
        ≡ option_and_then (λ first. option_and_then (spec.constant_operation (operator_of operator) first) (option_map view_value right)) (option_map view_value left) }
{
    match (left, right) {
        (Some(left), Some(right)) => constant_operation(operator, &left, &right),
        (None, _) | (Some(_), None) => None,
    }
}

/// `a ? b : c` of constants.
fn constant_choice(test: &Value, first: Value, second: Value) -> Option<Value>
    ensures choice { option_map view_value result ≡ spec.constant_choice (view_value test.now) (view_value first) (view_value second) }
{
    match truth_of(test) {
        Some(answer) => Some(if answer { first } else { second }),
        None => None,
    }
}

/// `a ? b : c` of what may be constants.
fn choice(test: Option<Value>, first: Option<Value>, second: Option<Value>) -> Option<Value>
    ensures choice { option_map view_value result
        ≡ option_and_then (λ answer. option_and_then (λ one. option_and_then (spec.constant_choice answer one) (option_map view_value second)) (option_map view_value first)) (option_map view_value test) }
{
    match test {
        None => None,
        Some(test) => match first {
            None => None,
            Some(first) => match second {
                None => None,
                Some(second) => constant_choice(&test, first, second),
            },
        },
    }
}

/// The value of a constant expression, None where it is none.
pub fn constant(
    alloc: Global,
    classes: &Classes<'_>,
    exp: &Exp,
) -> Result<Option<Value>, AllocError>
    ensures constant { IfOk result (λ found. option_map view_value found ≡ spec.constant (surroundings_of classes.now) (view_exp exp.now)) }
{
    match exp {
        Exp::Int(number) => Ok(Some(Value::Int(*number))),
        Exp::Long(number) => Ok(Some(Value::Long(*number))),
        Exp::Text(units) => Ok(Some(text(alloc, units)?)),
        Exp::Bool(known) => Ok(Some(Value::Int(i32::from(*known)))),
        Exp::Static(class, name) => named_constant(alloc, classes, class, name),
        Exp::Cast(kind, operand) => {
            let operand = constant(alloc, classes, operand.get())?;
            Ok(constant_cast(classes.headers, kind, operand))
        }
        Exp::Negative(operand) => {
            let operand = constant(alloc, classes, operand.get())?;
            Ok(constant_negated(operand))
        }
        Exp::Not(operand) => {
            let operand = constant(alloc, classes, operand.get())?;
            Ok(constant_inverted(operand))
        }
        Exp::Binary(operator, left, right) => {
            let left = constant(alloc, classes, left.get())?;
            let right = constant(alloc, classes, right.get())?;
            Ok(operation(*operator, left, right))
        }
        Exp::Choice(test, first, second) => {
            let test = constant(alloc, classes, test.get())?;
            let first = constant(alloc, classes, first.get())?;
            let second = constant(alloc, classes, second.get())?;
            Ok(choice(test, first, second))
        }
        Exp::Null
        | Exp::This
        | Exp::Var(_)
        | Exp::ClassOf(_)
        | Exp::Field(_, _)
        | Exp::Element(_, _)
        | Exp::Call(_, _, _)
        | Exp::StaticCall(_, _, _)
        | Exp::SuperCall(_, _, _)
        | Exp::New(_, _)
        | Exp::NewArray(_, _, _)
        | Exp::InstanceOf(_, _)
        | Exp::Assign(_, _) => Ok(None),
    }
}

/// The answer of a condition that is a constant expression.
pub fn constant_truth(
    alloc: Global,
    classes: &Classes<'_>,
    condition: &Exp,
) -> Result<Option<bool>, AllocError>
    ensures truth { IfOk result (λ answer. answer ≡ spec.constant_truth (surroundings_of classes.now) (view_exp condition.now)) }
{
    match constant(alloc, classes, condition)? {
        None => Ok(None),
        Some(value) => Ok(truth_of(&value)),
    }
}

/// Whether a condition with this answer, if any, always has the wanted one.
pub fn is_always(wanted: bool, answer: Option<bool>) -> bool
    ensures always { result ≡ spec.is_always wanted answer }
{
    match answer {
        None => false,
        Some(answer) => answer == wanted,
    }
}
