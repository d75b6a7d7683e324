//! What a run does to the outside: the labels of its steps (JVMS 6.5; JLS 15).

ghost use Rattle.std.specs.Prelude.{◌≡◌, IfOk};
ghost use Rattle.dj_values.specs.declared.action.Action.TheVariants.{NewArray, GetField, PutField, GetStatic, PutStatic, ArrayStore, Invoke};

use crate::reference::RefValue;
use crate::value::{Value, copy_values};
use dj_names::{ClassName, Descriptor, Items, JType, Units};
use std::alloc::{AllocError, Global};

/// How a call finds its method.
#[derive(Clone, Copy)]
pub enum InvokeKind {
    Virtual,
    Interface,
    Static,
    Special,
}

/// An action, with what it names and the values that it uses.
#[derive(Drop)]
pub enum Action {
    /// A class.
    New(ClassName),
    /// The type of the array, and its sizes.
    NewArray(JType, Items<i32>),
    /// The object, the class that the field is looked for in, its name and its type.
    GetField(RefValue, JType, Units, JType),
    /// As for `GetField`, and the value that is stored.
    PutField(RefValue, JType, Units, JType, Value),
    /// The class that the field is looked for in, its name and its type.
    GetStatic(JType, Units, JType),
    /// As for `GetStatic`, and the value that is stored.
    PutStatic(JType, Units, JType, Value),
    /// The array and the index.
    ArrayLoad(RefValue, i32),
    /// The array, the index and the value that is stored.
    ArrayStore(RefValue, i32, Value),
    /// How the method is found, the class that it is looked for in, its name, its descriptor, and
    /// the receiver, where there is one, before the arguments.
    Invoke(InvokeKind, JType, Units, Descriptor, Items<Value>),
    /// The type that a class literal names.
    ClassConstant(JType),
    Enter(RefValue),
    Exit(RefValue),
    /// The class of an exception that the machine throws by itself.
    Trap(ClassName),
}

impl Action {
    /// An equal action.
    pub fn copy(&self, alloc: Global) -> Result<Action, AllocError>
        ensures equal { IfOk result (λ copy. copy ≡ self.now) }
    {
        match self {
            Action::New(class) => Ok(Action::New(class.copy(alloc)?)),
            Action::NewArray(kind, sizes) => copy_new_array(alloc, kind, sizes.as_slice()),
            Action::GetField(object, class, name, kind) => {
                copy_get_field(alloc, object, class, name, kind)
            }
            Action::PutField(object, class, name, kind, value) => {
                copy_put_field(alloc, object, class, name, kind, value)
            }
            Action::GetStatic(class, name, kind) => copy_get_static(alloc, class, name, kind),
            Action::PutStatic(class, name, kind, value) => {
                copy_put_static(alloc, class, name, kind, value)
            }
            Action::ArrayLoad(array, index) => Ok(Action::ArrayLoad(array.copy(alloc)?, *index)),
            Action::ArrayStore(array, index, value) => copy_array_store(
                alloc, array, *index, value,
            ),
            Action::Invoke(kind, owner, name, descriptor, values) => {
                copy_invoke(alloc, *kind, owner, name, descriptor, values.as_slice())
            }
            Action::ClassConstant(kind) => Ok(Action::ClassConstant(kind.copy(alloc)?)),
            Action::Enter(object) => Ok(Action::Enter(object.copy(alloc)?)),
            Action::Exit(object) => Ok(Action::Exit(object.copy(alloc)?)),
            Action::Trap(class) => Ok(Action::Trap(class.copy(alloc)?)),
        }
    }
}

fn copy_new_array(alloc: Global, kind: &JType, sizes: &[i32]) -> Result<Action, AllocError>
    ensures equal { IfOk result (λ copy. copy ≡ NewArray kind.now sizes.now) }
{
    Ok(Action::NewArray(kind.copy(alloc)?, Items::from_slice(alloc, sizes)?))
}

fn copy_get_field(
    alloc: Global,
    object: &RefValue,
    class: &JType,
    name: &Units,
    kind: &JType,
) -> Result<Action, AllocError>
    ensures equal { IfOk result (λ copy. copy ≡ GetField object.now class.now name.now kind.now) }
{
    let name = name.copy(alloc)?;
    let class = class.copy(alloc)?;
    let kind = kind.copy(alloc)?;
    let object = object.copy(alloc)?;
    Ok(Action::GetField(object, class, name, kind))
}

fn copy_put_field(
    alloc: Global,
    object: &RefValue,
    class: &JType,
    name: &Units,
    kind: &JType,
    value: &Value,
) -> Result<Action, AllocError>
    ensures equal { IfOk result (λ copy. copy ≡ PutField object.now class.now name.now kind.now value.now) }
{
    let name = name.copy(alloc)?;
    let class = class.copy(alloc)?;
    let kind = kind.copy(alloc)?;
    let value = value.copy(alloc)?;
    let object = object.copy(alloc)?;
    Ok(Action::PutField(object, class, name, kind, value))
}

fn copy_get_static(
    alloc: Global,
    class: &JType,
    name: &Units,
    kind: &JType,
) -> Result<Action, AllocError>
    ensures equal { IfOk result (λ copy. copy ≡ GetStatic class.now name.now kind.now) }
{
    let name = name.copy(alloc)?;
    let class = class.copy(alloc)?;
    let kind = kind.copy(alloc)?;
    Ok(Action::GetStatic(class, name, kind))
}

fn copy_put_static(
    alloc: Global,
    class: &JType,
    name: &Units,
    kind: &JType,
    value: &Value,
) -> Result<Action, AllocError>
    ensures equal { IfOk result (λ copy. copy ≡ PutStatic class.now name.now kind.now value.now) }
{
    let name = name.copy(alloc)?;
    let class = class.copy(alloc)?;
    let kind = kind.copy(alloc)?;
    let value = value.copy(alloc)?;
    Ok(Action::PutStatic(class, name, kind, value))
}

fn copy_array_store(
    alloc: Global,
    array: &RefValue,
    index: i32,
    value: &Value,
) -> Result<Action, AllocError>
    ensures equal { IfOk result (λ copy. copy ≡ ArrayStore array.now index value.now) }
{
    Ok(Action::ArrayStore(array.copy(alloc)?, index, value.copy(alloc)?))
}

fn copy_invoke(
    alloc: Global,
    kind: InvokeKind,
    owner: &JType,
    name: &Units,
    descriptor: &Descriptor,
    values: &[Value],
) -> Result<Action, AllocError>
    ensures equal { IfOk result (λ copy. copy ≡ Invoke kind owner.now name.now descriptor.now values.now) }
{
    let name = name.copy(alloc)?;
    let owner = owner.copy(alloc)?;
    let descriptor = descriptor.copy(alloc)?;
    let values = copy_values(alloc, values)?;
    Ok(Action::Invoke(kind, owner, name, descriptor, values))
}
