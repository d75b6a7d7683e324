//! Fields, and what is made, cast, thrown and locked (JVMS 2.11.5, 2.11.8, 2.11.10, 6.5).

ghost use Rattle.std.specs.Prelude.{◌≡◌, List, IfOk};
ghost use Rattle.dj_names.specs.declared.header.Header.{Header};
ghost use Rattle.dj_names.specs.Headers.{Name};
ghost use Rattle.dj_names.specs.Types.{view_type};
ghost use Rattle.dj_values.specs.Values as values;
ghost use Rattle.dj_values.specs.Values.{Ref, GetStatic, GetField, PutField};
ghost use Rattle.dj_values.specs.Views.{view_action, view_reference, view_value, view_values};
ghost use Rattle.dj_values.specs.Outcomes.{ask, then_on};
ghost use Rattle.dj_bytecode.specs.Operands as spec;
ghost use Rattle.dj_instructions.specs.Instructions as op;
ghost use Rattle.dj_instructions.specs.Instructions.{view_field_ref};
ghost use Rattle.dj_bytecode.specs.Meanings.{constant_pushed, meaning_of};
ghost use Rattle.dj_bytecode.specs.Objects.{text_reference, static_written, field_read, field_written, thrown_out, entered, left};
ghost use Rattle.dj_operands.specs.Replies.{view_reply, operation_of};

use crate::classes::goes;
use dj_code::FieldRef;
use dj_headers::{Headers, class_of};
use dj_names::{Constant, JType, Units};
use dj_operands::{Reply, fitted, int, long};
use dj_outside::Trap;
use dj_values::{Action, RefId, RefValue, Value};
use std::alloc::{AllocError, Global};

/// The reference of a string constant.
fn text(alloc: Global, units: &Units) -> Result<Value, AllocError>
    ensures text { IfOk result (λ value. view_value value ≡ Ref (text_reference units.now)) }
{
    let class = class_of(alloc, "java/lang/String")?;
    let id = RefId::Text(units.copy(alloc)?);
    Ok(Value::Ref(RefValue {
        id,
        class: JType::Class(class),
        length: 0,
    }))
}

/// A constant; a float or double isn't run.
pub fn constant(alloc: Global, constant: &Constant) -> Result<Reply, AllocError>
    ensures pushed { IfOk result (λ reply. (operands : List values.Value) → view_reply reply ≡ operation_of (constant_pushed constant.now) operands) }
{
    match constant {
        Constant::Int(number) => Ok(int(*number)),
        Constant::Long(number) => Ok(long(*number)),
        Constant::Text(units) => Ok(Reply::Gives(Some(text(alloc, units)?))),
        Constant::Float(_) | Constant::Double(_) => Ok(Reply::Stuck),
    }
}

/// `getstatic`
pub fn get_static(alloc: Global, field: &FieldRef) -> Result<Reply, AllocError>
    ensures read { IfOk result (λ reply. view_reply reply ≡ ask (GetStatic (view_type field.now.owner) field.now.name (view_type field.now.kind))) }
{
    let owner = field.owner.copy(alloc)?;
    let name = field.name.copy(alloc)?;
    let kind = field.kind.copy(alloc)?;
    Ok(Reply::Asks(Action::GetStatic(owner, name, kind)))
}

/// `putstatic`
pub fn put_static(alloc: Global, field: &FieldRef, operands: &[Value]) -> Result<Reply, AllocError>
    ensures written { IfOk result (λ reply. view_reply reply ≡ static_written (view_field_ref field.now) (view_values operands.now)) }
{
    let [value] = operands else {
        return Ok(Reply::Stuck);
    };
    let Some(kept) = fitted(alloc, &field.kind, value)? else {
        return Ok(Reply::Stuck);
    };
    let owner = field.owner.copy(alloc)?;
    let name = field.name.copy(alloc)?;
    let kind = field.kind.copy(alloc)?;
    Ok(Reply::Asks(Action::PutStatic(owner, name, kind, kept)))
}

/// The action that reads a field of an object.
fn get_of(alloc: Global, object: &RefValue, field: &FieldRef) -> Result<Action, AllocError>
    ensures get { IfOk result (λ action. view_action action ≡ GetField (view_reference object.now) (view_type field.now.owner) field.now.name (view_type field.now.kind)) }
{
    let object = object.copy(alloc)?;
    let owner = field.owner.copy(alloc)?;
    let name = field.name.copy(alloc)?;
    let kind = field.kind.copy(alloc)?;
    Ok(Action::GetField(object, owner, name, kind))
}

/// `getfield`
pub fn get_field(alloc: Global, field: &FieldRef, operands: &[Value]) -> Result<Reply, AllocError>
    ensures read { IfOk result (λ reply. view_reply reply ≡ field_read (view_field_ref field.now) (view_values operands.now)) }
{
    match operands {
        [Value::Ref(object)] => Ok(Reply::Asks(get_of(alloc, object, field)?)),
        [Value::Null] => Ok(Reply::Traps(Trap::Null)),
        _ => Ok(Reply::Stuck),
    }
}

/// What stores a value in a field of an object.
fn put_in(
    alloc: Global,
    object: &RefValue,
    field: &FieldRef,
    value: &Value,
) -> Result<Reply, AllocError>
    ensures put { IfOk result (λ reply. view_reply reply ≡ then_on (spec.fitted (view_type field.now.kind) (view_value value.now)) (λ kept. ask (PutField (view_reference object.now) (view_type field.now.owner) field.now.name (view_type field.now.kind) kept))) }
{
    let Some(kept) = fitted(alloc, &field.kind, value)? else {
        return Ok(Reply::Stuck);
    };
    let object = object.copy(alloc)?;
    let owner = field.owner.copy(alloc)?;
    let name = field.name.copy(alloc)?;
    let kind = field.kind.copy(alloc)?;
    Ok(Reply::Asks(Action::PutField(object, owner, name, kind, kept)))
}

/// `putfield`
pub fn put_field(alloc: Global, field: &FieldRef, operands: &[Value]) -> Result<Reply, AllocError>
    ensures written { IfOk result (λ reply. view_reply reply ≡ field_written (view_field_ref field.now) (view_values operands.now)) }
{
    match operands {
        [Value::Ref(object), value] => put_in(alloc, object, field, value),
        [Value::Null, _] => Ok(Reply::Traps(Trap::Null)),
        _ => Ok(Reply::Stuck),
    }
}

/// `checkcast`
pub fn cast(
    alloc: Global,
    headers: &Headers,
    kind: &JType,
    operands: &[Value],
) -> Result<Reply, AllocError>
    ensures cast { (class : Name) → IfOk result (λ reply. view_reply reply ≡ operation_of (meaning_of headers.now class (op.CheckCast (view_type kind.now))) (view_values operands.now)) }
{
    match operands {
        [Value::Null] => Ok(Reply::Gives(Some(Value::Null))),
        [Value::Ref(reference)] => {
            if goes(headers, &reference.class, kind) {
                Ok(Reply::Gives(Some(Value::Ref(reference.copy(alloc)?))))
            } else {
                Ok(Reply::Traps(Trap::Cast))
            }
        }
        _ => Ok(Reply::Stuck),
    }
}

/// `instanceof`
pub fn instance_of(headers: &Headers, kind: &JType, operands: &[Value]) -> Reply
    ensures of { (class : Name) → view_reply result ≡ operation_of (meaning_of headers.now class (op.InstanceOf (view_type kind.now))) (view_values operands.now) }
{
    match operands {
        [Value::Null] => int(0),
        [Value::Ref(reference)] => {
            if goes(headers, &reference.class, kind) {
                int(1)
            } else {
                int(0)
            }
        }
        _ => Reply::Stuck,
    }
}

/// `athrow`
pub fn throw(alloc: Global, operands: &[Value]) -> Result<Reply, AllocError>
    ensures thrown { IfOk result (λ reply. view_reply reply ≡ thrown_out (view_values operands.now)) }
{
    match operands {
        [Value::Ref(reference)] => Ok(Reply::Throws(reference.copy(alloc)?)),
        [Value::Null] => Ok(Reply::Traps(Trap::Null)),
        _ => Ok(Reply::Stuck),
    }
}

/// `monitorenter`
pub fn enter(alloc: Global, operands: &[Value]) -> Result<Reply, AllocError>
    ensures entered { IfOk result (λ reply. view_reply reply ≡ entered (view_values operands.now)) }
{
    match operands {
        [Value::Ref(monitor)] => Ok(Reply::Asks(Action::Enter(monitor.copy(alloc)?))),
        [Value::Null] => Ok(Reply::Traps(Trap::Null)),
        _ => Ok(Reply::Stuck),
    }
}

/// `monitorexit`
pub fn exit(alloc: Global, operands: &[Value]) -> Result<Reply, AllocError>
    ensures exited { IfOk result (λ reply. view_reply reply ≡ left (view_values operands.now)) }
{
    match operands {
        [Value::Ref(monitor)] => Ok(Reply::Asks(Action::Exit(monitor.copy(alloc)?))),
        [Value::Null] => Ok(Reply::Traps(Trap::Null)),
        _ => Ok(Reply::Stuck),
    }
}
