//! What a run shows, copied: an action with values of each kind, and each way that a run ends.
use dj_names::{ClassName, Descriptor, Items, JType, SharedList, Units};
use dj_values::{Action, End, InvokeKind, RefId, RefValue, Show, Value, copy_values};
use std::alloc::{AllocError, Global};
use std::test::Fail;

fn name(alloc: Global) -> Result<Units, AllocError> {
    Units::from_slice(alloc, &[0x43])
}

/// An object of a class C.
fn object(alloc: Global, id: RefId) -> Result<RefValue, AllocError> {
    let class = JType::Class(ClassName::new(name(alloc)?));
    Ok(RefValue {
        id,
        class,
        length: 0,
    })
}

fn numbered(alloc: Global) -> Result<RefValue, AllocError> {
    object(alloc, RefId::Number(7))
}

fn spelled(alloc: Global) -> Result<RefValue, AllocError> {
    object(alloc, RefId::Text(name(alloc)?))
}

/// A value of a kind, by its number below five; the last two are references of each kind.
fn value(alloc: Global, number: usize) -> Result<Value, AllocError> {
    match number {
        0 => Ok(Value::Int(1)),
        1 => Ok(Value::Long(2)),
        2 => Ok(Value::Null),
        3 => Ok(Value::Ref(numbered(alloc)?)),
        _ => Ok(Value::Ref(spelled(alloc)?)),
    }
}

/// A value of each kind, and a reference of each.
fn values(alloc: Global) -> Result<Items<Value>, AllocError> {
    let mut values = Items::new(alloc);
    for number in 0..5 {
        values.push(value(alloc, number)?)?;
    }
    Ok(values)
}

/// These values, copied.
fn arguments(alloc: Global) -> Result<Items<Value>, AllocError> {
    let values = values(alloc)?;
    copy_values(alloc, values.as_slice())
}

/// The descriptor `()V`.
fn descriptor(alloc: Global) -> Result<Descriptor, AllocError> {
    let parameters = SharedList::from_vec(alloc, Vec::new(alloc))?;
    Ok(Descriptor::Method {
        parameters,
        result: None,
    })
}

/// A static call with these values as its arguments.
fn call(alloc: Global) -> Result<Action, AllocError> {
    let owner = JType::Class(ClassName::new(name(alloc)?));
    let called = name(alloc)?;
    let descriptor = descriptor(alloc)?;
    let arguments = arguments(alloc)?;
    Ok(Action::Invoke(InvokeKind::Static, owner, called, descriptor, arguments))
}

/// A run of the call that ends so.
fn show(alloc: Global, end: End) -> Result<Show, AllocError> {
    let mut actions = Items::new(alloc);
    actions.push(call(alloc)?)?;
    Ok(Show { actions, end })
}

/// Each way that a run ends, by its number below four.
fn end(alloc: Global, number: usize) -> Result<End, AllocError> {
    match number {
        0 => Ok(End::More),
        1 => Ok(End::Return(None)),
        2 => Ok(End::Return(Some(Value::Ref(spelled(alloc)?)))),
        _ => Ok(End::Throw(numbered(alloc)?)),
    }
}

/// The call and the end of this number, copied, and how many actions that has.
fn shown(alloc: Global, number: usize) -> Result<usize, AllocError> {
    let end = end(alloc, number)?;
    let show = show(alloc, end)?;
    let copy = show.copy(alloc)?;
    Ok(copy.actions.len())
}

#[test]
fn what_a_run_shows_is_copied(rt: HostRuntime) -> Result<(), Fail> {
    for number in 0..4 {
        assert_eq!(rt; shown(rt.alloc(), number)?, 1, "at {number}");
    }
    Ok(())
}
