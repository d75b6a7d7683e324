//! Calls of methods (JLS 15.12.4).

ghost use Rattle.std.specs.Prelude.{◌≡◌, ◌∷◌, IfOk};
ghost use Rattle.dj_values.specs.Outcomes.{ask};
ghost use Rattle.dj_values.specs.Values.{Invoke, Ref, Static};
ghost use Rattle.dj_values.specs.Views.{view_reference, view_value, view_values};
ghost use Rattle.dj_static.specs.Targets.{view_target};
ghost use Rattle.dj_meaning.specs.Objects as spec;
ghost use Rattle.dj_objects.specs.Replies.{view_reply};

use crate::replies::Reply;
use dj_names::Items;
use dj_outside::Trap;
use dj_static::Target;
use dj_values::{Action, InvokeKind, RefValue, Value};
use std::alloc::{AllocError, Global};

/// A call without an object.
fn call_static(target: Target, arguments: Items<Value>) -> Reply
    ensures called { view_reply result ≡ ask (Invoke Static (view_target target).owner (view_target target).name (view_target target).descriptor (view_values arguments)) }
{
    Reply::Asks(Action::Invoke(
        InvokeKind::Static,
        target.owner,
        target.name,
        target.descriptor,
        arguments,
    ))
}

/// A call on an object.
fn call_on(
    alloc: Global,
    target: Target,
    object: RefValue,
    arguments: Items<Value>,
) -> Result<Reply, AllocError>
    ensures called { IfOk result (λ reply. view_reply reply ≡ ask (Invoke (view_target target).kind (view_target target).owner (view_target target).name (view_target target).descriptor (Ref (view_reference object) ∷ view_values arguments))) }
{
    let mut values = Items::new(alloc);
    values.push(Value::Ref(object))?;
    values.append(arguments)?;
    Ok(Reply::Asks(Action::Invoke(
        target.kind,
        target.owner,
        target.name,
        target.descriptor,
        values,
    )))
}

/// A call of a target: on an object that isn't null, or, where the method is static, without one.
pub fn call(
    alloc: Global,
    target: Target,
    receiver: Value,
    arguments: Items<Value>,
) -> Result<Reply, AllocError>
    ensures called { IfOk result (λ reply. view_reply reply ≡ spec.called (view_target target) (view_value receiver) (view_values arguments)) }
{
    match target.kind {
        InvokeKind::Static => Ok(call_static(target, arguments)),
        InvokeKind::Virtual | InvokeKind::Interface | InvokeKind::Special => match receiver {
            Value::Ref(object) => call_on(alloc, target, object, arguments),
            Value::Null => Ok(Reply::Traps(Trap::Null)),
            Value::Int(_) | Value::Long(_) => Ok(Reply::Stuck),
        },
    }
}
