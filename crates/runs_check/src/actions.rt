//! Actions and answers from texts, and which go together.
use crate::headers::cut;
use anyhow::Result;
use dj_headers::Headers;
use dj_names::{Boxed, Items, Units};
use dj_values::{Action, Answer, InvokeKind, RefId, RefValue, Value, fits};
use run_lines::{class_name_of, descriptor_of, type_of, units_of};
use std::alloc::Global;

/// The length that the text is; 0 where there is no text.
fn length(text: &str) -> Option<u32> {
    if text.is_empty() {
        return Some(0);
    }
    text.parse::<u32>().ok()
}

/// A reference, as `[I 3`: its class and, for an array, its length; none where that is no number.
pub fn reference(alloc: Global, text: &str) -> Result<Option<RefValue>> {
    let (class, size) = cut(text, ' ');
    match length(size) {
        Some(length) => Ok(Some(RefValue {
            id: RefId::Number(7),
            class: type_of(alloc, class)?,
            length,
        })),
        None => Ok(None),
    }
}

/// An object of a class A.
pub fn object(alloc: Global) -> Result<RefValue> {
    Ok(RefValue {
        id: RefId::Number(7),
        class: type_of(alloc, "LA;")?,
        length: 0,
    })
}

/// The name of the members of the class A.
fn member(alloc: Global) -> Result<Units> {
    units_of(alloc, "m")
}

/// A type and a size, if it is a number.
fn new_array(alloc: Global, text: &str) -> Result<Option<Action>> {
    let (name, size) = cut(text, ' ');
    let Some(size) = size.parse::<i32>().ok() else {
        return Ok(None);
    };
    let mut sizes = Items::new(alloc);
    sizes.push(size)?;
    Ok(Some(Action::NewArray(type_of(alloc, name)?, sizes)))
}

fn get_field(alloc: Global, text: &str) -> Result<Action> {
    let name = member(alloc)?;
    let class = type_of(alloc, "LA;")?;
    let field = type_of(alloc, text)?;
    Ok(Action::GetField(object(alloc)?, class, name, field))
}

fn put_field(alloc: Global, text: &str) -> Result<Action> {
    let name = member(alloc)?;
    let class = type_of(alloc, "LA;")?;
    let field = type_of(alloc, text)?;
    let object = object(alloc)?;
    Ok(Action::PutField(object, class, name, field, Value::Null))
}

fn get_static(alloc: Global, text: &str) -> Result<Action> {
    let name = member(alloc)?;
    let class = type_of(alloc, "LA;")?;
    Ok(Action::GetStatic(class, name, type_of(alloc, text)?))
}

fn put_static(alloc: Global, text: &str) -> Result<Action> {
    let name = member(alloc)?;
    let class = type_of(alloc, "LA;")?;
    let field = type_of(alloc, text)?;
    Ok(Action::PutStatic(class, name, field, Value::Null))
}

/// An owner, a name and a method's descriptor.
fn invoke(alloc: Global, text: &str) -> Result<Action> {
    let (owner, rest) = cut(text, ' ');
    let (name, method) = cut(rest, ' ');
    let name = units_of(alloc, name)?;
    let owner = type_of(alloc, owner)?;
    let method = descriptor_of(alloc, method)?;
    Ok(Action::Invoke(InvokeKind::Virtual, owner, name, method, Items::new(alloc)))
}

fn load(alloc: Global, text: &str) -> Result<Option<Action>> {
    match reference(alloc, text)? {
        Some(array) => Ok(Some(Action::ArrayLoad(array, 0))),
        None => Ok(None),
    }
}

fn store(alloc: Global, text: &str) -> Result<Option<Action>> {
    match reference(alloc, text)? {
        Some(array) => Ok(Some(Action::ArrayStore(array, 0, Value::Null))),
        None => Ok(None),
    }
}

/// The action that the text spells, if it spells one.
fn action_of(alloc: Global, text: &str) -> Result<Option<Action>> {
    let (word, rest) = cut(text, ' ');
    match word {
        "new" => Ok(Some(Action::New(class_name_of(alloc, rest)?))),
        "array" => new_array(alloc, rest),
        "get" => Ok(Some(get_field(alloc, rest)?)),
        "put" => Ok(Some(put_field(alloc, rest)?)),
        "getstatic" => Ok(Some(get_static(alloc, rest)?)),
        "putstatic" => Ok(Some(put_static(alloc, rest)?)),
        "load" => load(alloc, rest),
        "store" => store(alloc, rest),
        "call" => Ok(Some(invoke(alloc, rest)?)),
        "literal" => Ok(Some(Action::ClassConstant(type_of(alloc, rest)?))),
        "enter" => Ok(Some(Action::Enter(object(alloc)?))),
        "exit" => Ok(Some(Action::Exit(object(alloc)?))),
        "trap" => Ok(Some(Action::Trap(class_name_of(alloc, rest)?))),
        _ => Ok(None),
    }
}

/// The value that the text spells, if it spells one.
fn value_of(alloc: Global, word: &str, rest: &str) -> Result<Option<Value>> {
    match word {
        "int" => Ok(rest.parse::<i32>().ok().map(Value::Int)),
        "long" => Ok(rest.parse::<i64>().ok().map(Value::Long)),
        "null" => Ok(Some(Value::Null)),
        "ref" => Ok(reference(alloc, rest)?.map(Value::Ref)),
        _ => Ok(None),
    }
}

/// The answer that the text spells, if it spells one.
fn answer_of(alloc: Global, text: &str) -> Result<Option<Answer>> {
    let (word, rest) = cut(text, ' ');
    match word {
        "done" => Ok(Some(Answer::Done)),
        "thrown" => Ok(reference(alloc, rest)?.map(Answer::Thrown)),
        _ => Ok(value_of(alloc, word, rest)?.map(Answer::Value)),
    }
}

/// In a box, since what an enum of so many kinds leaves is long to prove at each exit.
fn boxed_action(alloc: Global, text: &str) -> Result<Option<Boxed<Action>>> {
    match action_of(alloc, text)? {
        Some(action) => Ok(Some(Boxed::new(alloc, action)?)),
        None => Ok(None),
    }
}

/// The action, copied.
fn copied_action(alloc: Global, action: &Action) -> Result<Boxed<Action>> {
    Ok(Boxed::new(alloc, action.copy(alloc)?)?)
}

/// Whether the action can have the answer that is told.
fn answer_word(
    alloc: Global,
    headers: &Headers,
    action: &Action,
    text: &str,
) -> Result<&'static str> {
    let Some(answer) = answer_of(alloc, text)? else {
        return Ok("unknown");
    };
    let word = if fits(headers, action, &answer.copy(alloc)?) {
        "fits"
    } else {
        "doesn't"
    };
    Ok(word)
}

/// Whether the answer behind the bar is one that the action before it can have; both are copied
/// first.
pub fn action_answer(alloc: Global, headers: &Headers, text: &str) -> Result<&'static str> {
    let (action, answer) = cut(text, '|');
    match boxed_action(alloc, action)? {
        Some(action) => {
            let copy = copied_action(alloc, action.get())?;
            answer_word(alloc, headers, copy.get(), answer)
        }
        None => Ok("unknown"),
    }
}
