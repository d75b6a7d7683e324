//! Which answers an action can have, a function a row of the table or a few.

ghost use Rattle.std.specs.Prelude.{◌↔◌, ⊤, codes, option_map, IsNone, IsTrue, IsSomeAnd};
ghost use Rattle.dj_names.specs.Types.{view_type, view_types};
ghost use Rattle.dj_values.specs.Views.{view_value, view_action, view_answer};
ghost use Rattle.dj_values.specs.Fits.{IsObject, IsReferenceOf, IsThrowable, IsValueOf};
ghost use Rattle.dj_values.specs.Answers.{FitsAction, IsArrayClone, IsElementOf, IsNewArray, IsReferenceAnd, IsResult, IsTrapped, MatchAnswer, Never};

use crate::action::Action;
use crate::answer::Answer;
use crate::fitting::{
    is_class_object, is_new_array, is_object, is_reference_of, is_throwable, is_trapped,
    is_value_of,
};
use crate::types::is_array;
use crate::value::Value;
use dj_headers::Headers;
use dj_names::{ClassName, Descriptor, JType, Units, is_word};

/// That it is done.
fn is_done(answer: &Answer) -> bool
    ensures done { IsTrue result ↔ MatchAnswer (view_answer answer.now) Never ⊤ Never }
{
    match answer {
        Answer::Value(_) => false,
        Answer::Done => true,
        Answer::Thrown(_) => false,
    }
}

/// That it is done, or an exception.
fn is_done_or_thrown(headers: &Headers, answer: &Answer) -> bool
    ensures done { IsTrue result ↔ MatchAnswer (view_answer answer.now) Never ⊤ (IsThrowable headers.now) }
{
    match answer {
        Answer::Value(_) => false,
        Answer::Done => true,
        Answer::Thrown(reference) => is_throwable(headers, reference),
    }
}

/// A value of the type.
fn is_given(headers: &Headers, kind: &JType, answer: &Answer) -> bool
    ensures given { IsTrue result ↔ MatchAnswer (view_answer answer.now) (IsValueOf headers.now (view_type kind.now)) ⊥ Never }
{
    match answer {
        Answer::Value(value) => is_value_of(headers, kind, value),
        Answer::Done => false,
        Answer::Thrown(_) => false,
    }
}

/// A value of the type, or an exception.
fn is_given_or_thrown(headers: &Headers, kind: &JType, answer: &Answer) -> bool
    ensures given { IsTrue result ↔ MatchAnswer (view_answer answer.now) (IsValueOf headers.now (view_type kind.now)) ⊥ (IsThrowable headers.now) }
{
    match answer {
        Answer::Value(value) => is_value_of(headers, kind, value),
        Answer::Done => false,
        Answer::Thrown(reference) => is_throwable(headers, reference),
    }
}

/// A value that an array of the type holds.
fn is_element(headers: &Headers, array: &JType, answer: &Answer) -> bool
    ensures element { IsTrue result ↔ MatchAnswer (view_answer answer.now) (IsElementOf headers.now (view_type array.now)) ⊥ Never }
{
    match array {
        JType::Array(element) => is_given(headers, element.get(), answer),
        _ => false,
    }
}

/// An object of exactly this class, or an exception.
fn is_new_or_thrown(headers: &Headers, class: &ClassName, answer: &Answer) -> bool
    ensures new { IsTrue result ↔ MatchAnswer (view_answer answer.now) (IsReferenceAnd (IsObject class.now)) ⊥ (IsThrowable headers.now) }
{
    match answer {
        Answer::Value(Value::Ref(reference)) => is_object(class, reference),
        Answer::Value(_) => false,
        Answer::Done => false,
        Answer::Thrown(reference) => is_throwable(headers, reference),
    }
}

/// An array of exactly this type, as long as the first size says, or an exception.
fn is_array_or_thrown(headers: &Headers, kind: &JType, sizes: &[i32], answer: &Answer) -> bool
    ensures array { IsTrue result ↔ MatchAnswer (view_answer answer.now) (IsReferenceAnd (IsNewArray (view_type kind.now) sizes.now)) ⊥ (IsThrowable headers.now) }
{
    match answer {
        Answer::Value(Value::Ref(reference)) => is_new_array(kind, sizes, reference),
        Answer::Value(_) => false,
        Answer::Done => false,
        Answer::Thrown(reference) => is_throwable(headers, reference),
    }
}

/// An object of java/lang/Class, or an exception.
fn is_class_or_thrown(headers: &Headers, answer: &Answer) -> bool
    ensures class { IsTrue result ↔ MatchAnswer (view_answer answer.now) (IsReferenceAnd (IsObject (codes "java/lang/Class"))) ⊥ (IsThrowable headers.now) }
{
    match answer {
        Answer::Value(Value::Ref(reference)) => is_class_object(reference),
        Answer::Value(_) => false,
        Answer::Done => false,
        Answer::Thrown(reference) => is_throwable(headers, reference),
    }
}

/// An exception of exactly this class.
fn is_own_trap(headers: &Headers, class: &ClassName, answer: &Answer) -> bool
    ensures trap { IsTrue result ↔ MatchAnswer (view_answer answer.now) Never ⊥ (IsTrapped headers.now class.now) }
{
    match answer {
        Answer::Value(_) => false,
        Answer::Done => false,
        Answer::Thrown(reference) => is_trapped(headers, class, reference),
    }
}

/// Whether the method is `clone` of an array (JLS 10.7).
fn is_array_clone(owner: &JType, name: &Units, parameters: &[JType]) -> bool
    ensures clone { IsTrue result ↔ IsArrayClone (view_type owner.now) name.now (view_types parameters.now) }
{
    is_array(owner) && is_word(name.as_slice(), "clone") && parameters.is_empty()
}

/// Whether a method with this result may give the value.
fn is_of_result(headers: &Headers, result_kind: &Option<JType>, value: &Value) -> bool
    ensures of { IsTrue result ↔ IsSomeAnd (option_map view_type result_kind.now) (λ kind. IsValueOf headers.now kind (view_value value.now)) }
{
    match result_kind {
        Some(kind) => is_value_of(headers, kind, value),
        None => false,
    }
}

/// Whether the value is a reference of the type, and not null.
fn is_some_reference_of(headers: &Headers, kind: &JType, value: &Value) -> bool
    ensures reference { IsTrue result ↔ IsReferenceAnd (IsReferenceOf headers.now (view_type kind.now)) (view_value value.now) }
{
    match value {
        Value::Int(_) => false,
        Value::Long(_) => false,
        Value::Null => false,
        Value::Ref(reference) => is_reference_of(headers, kind, reference),
    }
}

/// Whether a call may give the value.
fn is_result(
    headers: &Headers,
    owner: &JType,
    name: &Units,
    parameters: &[JType],
    result_kind: &Option<JType>,
    value: &Value,
) -> bool
    ensures call { IsTrue result ↔ IsResult headers.now (view_type owner.now) name.now (view_types parameters.now) (option_map view_type result_kind.now) (view_value value.now) }
{
    is_of_result(headers, result_kind, value)
        && (!is_array_clone(owner, name, parameters) || is_some_reference_of(headers, owner, value))
}

/// What a call of this method may give, or an exception.
fn is_returned_or_thrown(
    headers: &Headers,
    owner: &JType,
    name: &Units,
    parameters: &[JType],
    result_kind: &Option<JType>,
    answer: &Answer,
) -> bool
    ensures call { IsTrue result ↔ MatchAnswer (view_answer answer.now)
        (IsResult headers.now (view_type owner.now) name.now (view_types parameters.now) (option_map view_type result_kind.now))
        (IsNone (option_map view_type result_kind.now)) (IsThrowable headers.now) }
{
    match answer {
        Answer::Value(value) => is_result(headers, owner, name, parameters, result_kind, value),
        Answer::Done => result_kind.is_none(),
        Answer::Thrown(reference) => is_throwable(headers, reference),
    }
}

/// Whether the answer is one that the action can have, by the headers of the classes that run.
pub fn fits(headers: &Headers, action: &Action, answer: &Answer) -> bool
    ensures fits { IsTrue result ↔ FitsAction headers.now (view_action action.now) (view_answer answer.now) }
{
    match action {
        Action::New(class) => is_new_or_thrown(headers, class, answer),
        Action::NewArray(kind, sizes) => {
            is_array_or_thrown(headers, kind, sizes.as_slice(), answer)
        }
        Action::GetField(_, _, _, kind) => is_given(headers, kind, answer),
        Action::PutField(_, _, _, _, _) => is_done(answer),
        Action::GetStatic(_, _, kind) => is_given_or_thrown(headers, kind, answer),
        Action::PutStatic(_, _, _, _) => is_done_or_thrown(headers, answer),
        Action::ArrayLoad(array, _) => is_element(headers, &array.class, answer),
        Action::ArrayStore(_, _, _) => is_done(answer),
        Action::Invoke(_, owner, name, descriptor, _) => match descriptor {
            Descriptor::Field(_) => false,
            Descriptor::Method { parameters, result } => {
                is_returned_or_thrown(headers, owner, name, parameters.as_slice(), result, answer)
            }
        },
        Action::ClassConstant(_) => is_class_or_thrown(headers, answer),
        Action::Enter(_) => is_done(answer),
        Action::Exit(_) => is_done(answer),
        Action::Trap(class) => is_own_trap(headers, class, answer),
    }
}
