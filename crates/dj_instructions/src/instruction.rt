//! The instructions of the machine (JVMS 6.5).

ghost use Rattle.std.specs.Prelude.{◌≡◌, IfOk};

use crate::kinds::{Calc, Element, Kind, Test};
use crate::references::{FieldRef, MethodRef};
use dj_names::{ClassName, Constant, Descriptor, Items, JType, Units};
use std::alloc::{AllocError, Global};

/// An instruction; its short, long and wide forms are one value, and so are all ways of loading one
/// constant. Targets are pcs.
#[derive(Drop)]
pub enum Instruction {
    Nop,
    /// `aconst_null`.
    PushNull,
    Push(Constant),
    /// `ldc` of a class or an array type.
    PushClass(JType),
    /// `ldc` of a method handle: its reference kind, and the field or method that it refers to.
    PushHandle {
        kind: u8,
        interface: bool,
        owner: JType,
        name: Units,
        descriptor: Descriptor,
    },
    /// `ldc` of a method type.
    PushMethodType(Descriptor),
    /// The slot of a local.
    Load(Kind, u16),
    Store(Kind, u16),
    ArrayLoad(Element),
    ArrayStore(Element),
    Pop,
    Pop2,
    Dup,
    DupX1,
    DupX2,
    Dup2,
    Dup2X1,
    Dup2X2,
    Swap,
    Calc(Calc, Kind),
    /// The slot of a local, and what is added to it.
    Iinc(u16, i16),
    /// From a kind to a type.
    Convert(Kind, JType),
    /// `lcmp` and those of floats and doubles; true for those whose names end in `g`.
    Compare(Kind, bool),
    /// `ifeq` to `ifle`.
    IfZero(Test, u32),
    /// `if_icmpeq` to `if_icmple`.
    IfInts(Test, u32),
    /// True for `if_acmpeq`.
    IfRefs(bool, u32),
    /// True for `ifnull`.
    IfNull(bool, u32),
    Goto(u32),
    /// The lowest key, a target for it and each key after it, and the target of all other ints.
    TableSwitch {
        low: i32,
        targets: Items<u32>,
        other: u32,
    },
    /// Keys in rising order, each with its target, and the target of all other ints.
    LookupSwitch {
        cases: Items<(i32, u32)>,
        other: u32,
    },
    /// None for `return`.
    Return(Option<Kind>),
    GetStatic(FieldRef),
    PutStatic(FieldRef),
    GetField(FieldRef),
    PutField(FieldRef),
    InvokeVirtual(MethodRef),
    InvokeSpecial(MethodRef),
    InvokeStatic(MethodRef),
    InvokeInterface(MethodRef),
    InvokeDynamic {
        bootstrap: u16,
        name: Units,
        descriptor: Descriptor,
    },
    New(ClassName),
    /// The type of the elements, for `newarray` and `anewarray`.
    NewArray(JType),
    /// The type of the array, and the number of sizes.
    MultiNewArray(JType, u8),
    ArrayLength,
    /// `athrow`.
    Throw,
    CheckCast(JType),
    InstanceOf(JType),
    MonitorEnter,
    MonitorExit,
}

impl Instruction {
    /// An equal instruction, which shares names and types with this one; the lists of a switch are copied.
    pub fn copy(&self, alloc: Global) -> Result<Instruction, AllocError>
        ensures equal { IfOk result (λ copy. copy ≡ self.now) }
    {
        match self {
            Instruction::Nop => Ok(Instruction::Nop),
            Instruction::PushNull => Ok(Instruction::PushNull),
            Instruction::Push(constant) => constant.copy(alloc).map(Instruction::Push),
            Instruction::PushClass(class) => class.copy(alloc).map(Instruction::PushClass),
            Instruction::PushHandle {
                kind,
                interface,
                owner,
                name,
                descriptor,
            } => copy_handle(alloc, *kind, *interface, owner, name, descriptor),
            Instruction::PushMethodType(descriptor) => descriptor
                .copy(alloc)
                .map(Instruction::PushMethodType),
            Instruction::Load(kind, slot) => Ok(Instruction::Load(*kind, *slot)),
            Instruction::Store(kind, slot) => Ok(Instruction::Store(*kind, *slot)),
            Instruction::ArrayLoad(element) => Ok(Instruction::ArrayLoad(*element)),
            Instruction::ArrayStore(element) => Ok(Instruction::ArrayStore(*element)),
            Instruction::Pop => Ok(Instruction::Pop),
            Instruction::Pop2 => Ok(Instruction::Pop2),
            Instruction::Dup => Ok(Instruction::Dup),
            Instruction::DupX1 => Ok(Instruction::DupX1),
            Instruction::DupX2 => Ok(Instruction::DupX2),
            Instruction::Dup2 => Ok(Instruction::Dup2),
            Instruction::Dup2X1 => Ok(Instruction::Dup2X1),
            Instruction::Dup2X2 => Ok(Instruction::Dup2X2),
            Instruction::Swap => Ok(Instruction::Swap),
            Instruction::Calc(calc, kind) => Ok(Instruction::Calc(*calc, *kind)),
            Instruction::Iinc(slot, by) => Ok(Instruction::Iinc(*slot, *by)),
            Instruction::Convert(from, to) => Ok(Instruction::Convert(*from, to.copy(alloc)?)),
            Instruction::Compare(kind, greater) => Ok(Instruction::Compare(*kind, *greater)),
            Instruction::IfZero(test, target) => Ok(Instruction::IfZero(*test, *target)),
            Instruction::IfInts(test, target) => Ok(Instruction::IfInts(*test, *target)),
            Instruction::IfRefs(equal, target) => Ok(Instruction::IfRefs(*equal, *target)),
            Instruction::IfNull(null, target) => Ok(Instruction::IfNull(*null, *target)),
            Instruction::Goto(target) => Ok(Instruction::Goto(*target)),
            Instruction::TableSwitch {
                low,
                targets,
                other,
            } => copy_table(alloc, *low, targets.as_slice(), *other),
            Instruction::LookupSwitch { cases, other } => {
                copy_lookup(alloc, cases.as_slice(), *other)
            }
            Instruction::Return(kind) => Ok(Instruction::Return(*kind)),
            Instruction::GetStatic(field) => field.copy(alloc).map(Instruction::GetStatic),
            Instruction::PutStatic(field) => field.copy(alloc).map(Instruction::PutStatic),
            Instruction::GetField(field) => field.copy(alloc).map(Instruction::GetField),
            Instruction::PutField(field) => field.copy(alloc).map(Instruction::PutField),
            Instruction::InvokeVirtual(method) => method
                .copy(alloc)
                .map(Instruction::InvokeVirtual),
            Instruction::InvokeSpecial(method) => method
                .copy(alloc)
                .map(Instruction::InvokeSpecial),
            Instruction::InvokeStatic(method) => method.copy(alloc).map(Instruction::InvokeStatic),
            Instruction::InvokeInterface(method) => method
                .copy(alloc)
                .map(Instruction::InvokeInterface),
            Instruction::InvokeDynamic {
                bootstrap,
                name,
                descriptor,
            } => copy_call_site(alloc, *bootstrap, name, descriptor),
            Instruction::New(class) => class.copy(alloc).map(Instruction::New),
            Instruction::NewArray(element) => element.copy(alloc).map(Instruction::NewArray),
            Instruction::MultiNewArray(class, sizes) => {
                Ok(Instruction::MultiNewArray(class.copy(alloc)?, *sizes))
            }
            Instruction::ArrayLength => Ok(Instruction::ArrayLength),
            Instruction::Throw => Ok(Instruction::Throw),
            Instruction::CheckCast(class) => class.copy(alloc).map(Instruction::CheckCast),
            Instruction::InstanceOf(class) => class.copy(alloc).map(Instruction::InstanceOf),
            Instruction::MonitorEnter => Ok(Instruction::MonitorEnter),
            Instruction::MonitorExit => Ok(Instruction::MonitorExit),
        }
    }
}

/// A method handle with equal parts.
fn copy_handle(
    alloc: Global,
    kind: u8,
    interface: bool,
    owner: &JType,
    name: &Units,
    descriptor: &Descriptor,
) -> Result<Instruction, AllocError>
    ensures equal { IfOk result (λ copy. copy ≡ Instruction.PushHandle kind interface owner.now name.now descriptor.now) }
{
    Ok(Instruction::PushHandle {
        kind,
        interface,
        owner: owner.copy(alloc)?,
        name: name.copy(alloc)?,
        descriptor: descriptor.copy(alloc)?,
    })
}

/// A call site with equal parts.
fn copy_call_site(
    alloc: Global,
    bootstrap: u16,
    name: &Units,
    descriptor: &Descriptor,
) -> Result<Instruction, AllocError>
    ensures equal { IfOk result (λ copy. copy ≡ Instruction.InvokeDynamic bootstrap name.now descriptor.now) }
{
    Ok(Instruction::InvokeDynamic {
        bootstrap,
        name: name.copy(alloc)?,
        descriptor: descriptor.copy(alloc)?,
    })
}

/// A `tableswitch` with equal parts.
fn copy_table(
    alloc: Global,
    low: i32,
    targets: &[u32],
    other: u32,
) -> Result<Instruction, AllocError>
    ensures equal { IfOk result (λ copy. copy ≡ Instruction.TableSwitch low targets.now other) }
{
    Ok(Instruction::TableSwitch {
        low,
        targets: Items::from_slice(alloc, targets)?,
        other,
    })
}

/// A `lookupswitch` with equal parts.
fn copy_lookup(alloc: Global, cases: &[(i32, u32)], other: u32) -> Result<Instruction, AllocError>
    ensures equal { IfOk result (λ copy. copy ≡ Instruction.LookupSwitch cases.now other) }
{
    Ok(Instruction::LookupSwitch {
        cases: Items::from_slice(alloc, cases)?,
        other,
    })
}
