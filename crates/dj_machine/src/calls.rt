//! Calls (JVMS 2.11.8, 6.5).

ghost use Rattle.std.specs.Prelude.{◌≡◌, IfOk};
ghost use Rattle.std.specs.Option.{option_copied};
ghost use Rattle.dj_names.specs.Types.{view_type};
ghost use Rattle.dj_values.specs.Values.{Special};
ghost use Rattle.dj_values.specs.Views.{view_kind, view_values};
ghost use Rattle.dj_instructions.specs.Instructions.{view_method_ref};
ghost use Rattle.dj_bytecode.specs.Objects as spec;
ghost use Rattle.dj_operands.specs.Replies.{view_reply};

use crate::classes::is_below;
use dj_code::MethodRef;
use dj_headers::Headers;
use dj_names::{ClassName, Items, JType, is_constructor};
use dj_operands::{Reply, all_fitted, parameters_of};
use dj_outside::Trap;
use dj_values::{Action, InvokeKind, Value};
use std::alloc::{AllocError, Global};

/// A call with arguments, which come behind what is there of the receiver.
fn call(
    alloc: Global,
    kind: InvokeKind,
    owner: &JType,
    method: &MethodRef,
    receiver: Items<Value>,
    arguments: &[Value],
) -> Result<Reply, AllocError>
    ensures called { IfOk result (λ reply. view_reply reply ≡ spec.called (view_kind kind) (view_type owner.now) (view_method_ref method.now) (view_values receiver) (view_values arguments.now)) }
{
    let parameters = parameters_of(&method.descriptor);
    let Some(kept) = all_fitted(alloc, parameters, arguments)? else {
        return Ok(Reply::Stuck);
    };
    let owner = owner.copy(alloc)?;
    let name = method.name.copy(alloc)?;
    let descriptor = method.descriptor.copy(alloc)?;
    let mut values = receiver;
    values.append(kept)?;
    Ok(Reply::Asks(Action::Invoke(kind, owner, name, descriptor, values)))
}

/// `invokestatic`
pub fn call_static(
    alloc: Global,
    method: &MethodRef,
    operands: &[Value],
) -> Result<Reply, AllocError>
    ensures called { IfOk result (λ reply. view_reply reply ≡ spec.static_called (view_method_ref method.now) (view_values operands.now)) }
{
    let none = Items::new(alloc);
    call(
        alloc,
        InvokeKind::Static,
        &method.owner,
        method,
        none,
        operands,
    )
}

/// A call on the first operand, which isn't null.
pub fn call_on(
    alloc: Global,
    kind: InvokeKind,
    owner: &JType,
    method: &MethodRef,
    operands: &[Value],
) -> Result<Reply, AllocError>
    ensures called { IfOk result (λ reply. view_reply reply ≡ spec.object_called (view_kind kind) (view_type owner.now) (view_method_ref method.now) (view_values operands.now)) }
{
    match operands {
        [Value::Ref(object), arguments @ ..] => {
            let mut receiver = Items::new(alloc);
            receiver.push(Value::Ref(object.copy(alloc)?))?;
            call(alloc, kind, owner, method, receiver, arguments)
        }
        [Value::Null, ..] => Ok(Reply::Traps(Trap::Null)),
        _ => Ok(Reply::Stuck),
    }
}

/// The superclass that a class has by the headers.
fn superclass_in<'a>(headers: &'a Headers, class: &ClassName) -> Option<&'a ClassName>
    ensures superclass { option_copied result ≡ spec.superclass_in headers.now class.now }
{
    match headers.place(class) {
        Some(place) => headers.as_slice()[place].superclass.as_ref(),
        None => None,
    }
}

/// Where the search of a method begins that `invokespecial` names in a class.
fn special_owner(
    alloc: Global,
    headers: &Headers,
    class: &ClassName,
    method: &MethodRef,
) -> Result<JType, AllocError>
    ensures owner { IfOk result (λ owner. view_type owner ≡ spec.special_owner headers.now class.now (view_method_ref method.now)) }
{
    match superclass_in(headers, class) {
        Some(superclass) => {
            if !is_constructor(&method.name) && is_below(headers, superclass, &method.owner) {
                Ok(JType::Class(superclass.copy(alloc)?))
            } else {
                method.owner.copy(alloc)
            }
        }
        None => method.owner.copy(alloc),
    }
}

/// `invokespecial`
pub fn call_special(
    alloc: Global,
    headers: &Headers,
    class: &ClassName,
    method: &MethodRef,
    operands: &[Value],
) -> Result<Reply, AllocError>
    ensures called { IfOk result (λ reply. view_reply reply ≡ spec.object_called Special (spec.special_owner headers.now class.now (view_method_ref method.now)) (view_method_ref method.now) (view_values operands.now)) }
{
    let owner = special_owner(alloc, headers, class, method)?;
    call_on(alloc, InvokeKind::Special, &owner, method, operands)
}
