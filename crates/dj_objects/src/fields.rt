//! Fields that are read and written (JLS 4.12.4, 13.1, 15.11, 15.26.1).

ghost use Rattle.std.specs.Prelude.{◌≡◌, IfOk};
ghost use Rattle.dj_names.specs.Types.{view_type};
ghost use Rattle.dj_values.specs.Views.{view_value};
ghost use Rattle.dj_values.specs.Outcomes.{ask};
ghost use Rattle.dj_values.specs.Values.{PutStatic};
ghost use Rattle.dj_static.specs.Views.{known_of};
ghost use Rattle.dj_meaning.specs.Objects as spec;
ghost use Rattle.dj_objects.specs.Replies.{view_reply, view_value_reply};

use crate::replies::{Reply, reply_of};
use dj_headers::class_of;
use dj_names::{Constant, Field, JType, Units};
use dj_operators::converted;
use dj_outside::Trap;
use dj_static::{constant_of, is_of_class};
use dj_values::{Action, RefId, RefValue, Value};
use std::alloc::{AllocError, Global};

/// A string constant.
pub fn text(alloc: Global, units: &Units) -> Result<Value, AllocError>
    ensures text { IfOk result (λ value. view_value value ≡ spec.text units.now) }
{
    let class = class_of(alloc, "java/lang/String")?;
    let id = RefId::Text(units.copy(alloc)?);
    Ok(Value::Ref(RefValue {
        id,
        class: JType::Class(class),
        length: 0,
    }))
}

/// The value of a constant variable; what would be a float or double is not followed further.
fn constant_value(alloc: Global, kind: &JType, constant: &Constant) -> Result<Reply, AllocError>
    ensures constant { IfOk result (λ reply. view_value_reply reply ≡ spec.constant_value (view_type kind.now) constant.now) }
{
    match constant {
        Constant::Int(number) => Ok(reply_of(converted(kind, Value::Int(*number)))),
        Constant::Long(number) => Ok(reply_of(converted(kind, Value::Long(*number)))),
        Constant::Text(units) => Ok(Reply::Gives(text(alloc, units)?)),
        Constant::Float(_) | Constant::Double(_) => Ok(Reply::More),
    }
}

/// A static field that is read through a class: a constant variable is its value, without an action.
pub fn read_static(
    alloc: Global,
    class: JType,
    name: &Units,
    field: &Field,
) -> Result<Reply, AllocError>
    ensures read { IfOk result (λ reply. view_value_reply reply ≡ spec.static_read (view_type class) name.now (known_of field.now)) }
{
    match constant_of(field) {
        Some(constant) => constant_value(alloc, &field.descriptor, constant),
        None => {
            let name = name.copy(alloc)?;
            let kind = field.descriptor.copy(alloc)?;
            Ok(Reply::Asks(Action::GetStatic(class, name, kind)))
        }
    }
}

/// A field of an object that is read through a class; a static one drops the object.
pub fn read_field(
    alloc: Global,
    class: JType,
    name: &Units,
    field: &Field,
    object: Value,
) -> Result<Reply, AllocError>
    ensures read { IfOk result (λ reply. view_value_reply reply ≡ spec.field_read (view_type class) name.now (known_of field.now) (view_value object)) }
{
    if is_of_class(field) {
        return read_static(alloc, class, name, field);
    }
    match object {
        Value::Ref(reference) => {
            let name = name.copy(alloc)?;
            let kind = field.descriptor.copy(alloc)?;
            Ok(Reply::Asks(Action::GetField(reference, class, name, kind)))
        }
        Value::Null => Ok(Reply::Traps(Trap::Null)),
        Value::Int(_) | Value::Long(_) => Ok(Reply::Stuck),
    }
}

/// A value that goes into a static field of a class.
pub fn write_static(
    alloc: Global,
    class: JType,
    name: &Units,
    field: &Field,
    value: Value,
) -> Result<Reply, AllocError>
    ensures written { IfOk result (λ reply. view_reply reply ≡ ask (PutStatic (view_type class) name.now (known_of field.now).type (view_value value))) }
{
    let name = name.copy(alloc)?;
    let kind = field.descriptor.copy(alloc)?;
    Ok(Reply::Asks(Action::PutStatic(class, name, kind, value)))
}

/// A value that goes into a field of an object of a type; into a static one it goes without the object.
pub fn write(
    alloc: Global,
    class: JType,
    name: &Units,
    field: &Field,
    object: Value,
    value: Value,
) -> Result<Reply, AllocError>
    ensures written { IfOk result (λ reply. view_reply reply ≡ spec.field_written (view_type class) name.now (known_of field.now) (view_value object) (view_value value)) }
{
    if is_of_class(field) {
        return write_static(alloc, class, name, field, value);
    }
    match object {
        Value::Ref(reference) => {
            let name = name.copy(alloc)?;
            let kind = field.descriptor.copy(alloc)?;
            Ok(Reply::Asks(Action::PutField(reference, class, name, kind, value)))
        }
        Value::Null => Ok(Reply::Traps(Trap::Null)),
        Value::Int(_) | Value::Long(_) => Ok(Reply::Stuck),
    }
}
