//! Instructions that work on floats, those that are linked as the program runs, and those on monitors.

ghost use Rattle.std.specs.Prelude.{◌≡◌, ℕ, MatchOption, map};
ghost use Rattle.std.specs.List.{list_any};
ghost use Rattle.std.specs.Option.{option_map, option_copied};
ghost use Rattle.dj_names.specs.Types.{view_type, view_types, view_descriptor};
ghost use Rattle.dj_instructions.specs.Instructions.{view_field_ref, view_method_ref, view_instruction, view_instructions, IsRising};
ghost use Rattle.dj_code.specs.MethodCode.{view_code};
ghost use Rattle.dj_code.specs.Targets.{IsLeast};
ghost use Rattle.dj_code_causes.specs.Asked.{test_of};
ghost use Rattle.dj_code_causes.specs.Dynamics as dynamic;
ghost use Rattle.dj_code_causes.specs.Dynamics.{HasDynamicAt};
ghost use Rattle.dj_code_causes.specs.Monitors.{HasMonitorAt};
ghost use Rattle.dj_code_causes.specs.Floats as spec;
ghost use Rattle.dj_code_causes.specs.Floats.{HasFloatAt};
ghost use Rattle.dj_code_causes.specs.Places.{IsOne};

use dj_code::{Code, Instruction};
use dj_instructions::{Element, FieldRef, Kind, MethodRef};
use dj_names::{Constant, Descriptor, JType};
use dj_starts::{Control, control_of};

/// What is asked of an instruction.
#[derive(Clone, Copy)]
pub enum Asked {
    /// That it works on a float or a double.
    Float,
    /// That it is linked as the program runs.
    Dynamic,
    /// That it enters or leaves a monitor.
    Monitor,
}

/// Whether a type is a float or a double, or an array of such.
fn has_float(kind: &JType) -> bool
    ensures float { result ≡ spec.has_float (view_type kind.now) }
{
    match kind {
        JType::Float | JType::Double => true,
        JType::Boolean
        | JType::Byte
        | JType::Char
        | JType::Short
        | JType::Int
        | JType::Long
        | JType::Class(_) => false,
        JType::Array(element) => has_float(element.get()),
    }
}

/// Whether one of these types does.
fn have_float(kinds: &[JType]) -> bool
    ensures float { result ≡ list_any spec.has_float (view_types kinds.now) }
{
    let mut left = kinds;
    while let [kind, rest @ ..] = left {
        if has_float(kind) {
            return true;
        }
        left = rest;
    }
    false
}

/// Whether a result has one.
fn gives_float(kind: Option<&JType>) -> bool
    ensures float { result ≡ spec.gives_float (option_map view_type (option_copied kind.entry)) }
{
    match kind {
        Some(kind) => has_float(kind),
        None => false,
    }
}

/// Whether a descriptor has one.
fn spells_float(descriptor: &Descriptor) -> bool
    ensures float { result ≡ spec.spells_float (view_descriptor descriptor.now) }
{
    match descriptor {
        Descriptor::Field(kind) => has_float(kind),
        Descriptor::Method {
            parameters,
            result: answer,
        } => have_float(parameters.as_slice()) || gives_float(answer.as_ref()),
    }
}

/// Whether a constant is one.
fn is_float_constant(constant: &Constant) -> bool
    ensures float { result ≡ spec.is_float_constant constant.now }
{
    match constant {
        Constant::Int(_) | Constant::Long(_) | Constant::Text(_) => false,
        Constant::Float(_) | Constant::Double(_) => true,
    }
}

/// Whether a kind of values has one.
fn is_float_kind(kind: Kind) -> bool
    ensures float { result ≡ spec.is_float_kind kind }
{
    match kind {
        Kind::Float | Kind::Double => true,
        Kind::Int | Kind::Long | Kind::Ref => false,
    }
}

/// Whether the kind of a return has one.
fn returns_float(kind: Option<Kind>) -> bool
    ensures float { result ≡ spec.returns_float kind }
{
    match kind {
        Some(kind) => is_float_kind(kind),
        None => false,
    }
}

/// Whether elements of an array are.
fn is_float_element(element: Element) -> bool
    ensures float { result ≡ spec.is_float_element element }
{
    match element {
        Element::Float | Element::Double => true,
        Element::Int
        | Element::Long
        | Element::Ref
        | Element::Byte
        | Element::Char
        | Element::Short => false,
    }
}

/// Whether a field's owner or type has one.
fn names_float(field: &FieldRef) -> bool
    ensures float { result ≡ spec.names_float (view_field_ref field.now) }
{
    has_float(&field.owner) || has_float(&field.kind)
}

/// Whether a method's owner or descriptor has one.
fn calls_float(method: &MethodRef) -> bool
    ensures float { result ≡ spec.calls_float (view_method_ref method.now) }
{
    has_float(&method.owner) || spells_float(&method.descriptor)
}

/// Whether an instruction works on a float or a double.
fn works_on_float(instruction: &Instruction) -> bool
    ensures float { result ≡ spec.works_on_float (view_instruction instruction.now) }
{
    match instruction {
        Instruction::Push(constant) => is_float_constant(constant),
        Instruction::PushClass(kind)
        | Instruction::NewArray(kind)
        | Instruction::MultiNewArray(kind, _)
        | Instruction::CheckCast(kind)
        | Instruction::InstanceOf(kind) => has_float(kind),
        Instruction::PushHandle {
            owner,
            descriptor,
            ..
        } => has_float(owner) || spells_float(descriptor),
        Instruction::PushMethodType(descriptor) | Instruction::InvokeDynamic { descriptor, .. } =>
            spells_float(descriptor),
        Instruction::Load(kind, _)
        | Instruction::Store(kind, _)
        | Instruction::Calc(_, kind)
        | Instruction::Compare(kind, _) => is_float_kind(*kind),
        Instruction::ArrayLoad(element) | Instruction::ArrayStore(element) => {
            is_float_element(*element)
        }
        Instruction::Convert(from, to) => is_float_kind(*from) || has_float(to),
        Instruction::Return(kind) => returns_float(*kind),
        Instruction::GetStatic(field)
        | Instruction::PutStatic(field)
        | Instruction::GetField(field)
        | Instruction::PutField(field) => names_float(field),
        Instruction::InvokeVirtual(method)
        | Instruction::InvokeSpecial(method)
        | Instruction::InvokeStatic(method)
        | Instruction::InvokeInterface(method) => calls_float(method),
        Instruction::Nop
        | Instruction::PushNull
        | Instruction::Pop
        | Instruction::Pop2
        | Instruction::Dup
        | Instruction::DupX1
        | Instruction::DupX2
        | Instruction::Dup2
        | Instruction::Dup2X1
        | Instruction::Dup2X2
        | Instruction::Swap
        | Instruction::Iinc(_, _)
        | Instruction::IfZero(_, _)
        | Instruction::IfInts(_, _)
        | Instruction::IfRefs(_, _)
        | Instruction::IfNull(_, _)
        | Instruction::Goto(_)
        | Instruction::TableSwitch { .. }
        | Instruction::LookupSwitch { .. }
        | Instruction::New(_)
        | Instruction::ArrayLength
        | Instruction::Throw
        | Instruction::MonitorEnter
        | Instruction::MonitorExit => false,
    }
}

/// Whether an instruction is linked as the program runs.
fn is_dynamic(instruction: &Instruction) -> bool
    ensures dynamic { result ≡ dynamic.is_dynamic (view_instruction instruction.now) }
{
    matches!(
        instruction,
        Instruction::InvokeDynamic { .. }
            | Instruction::PushHandle { .. }
            | Instruction::PushMethodType(_)
    )
}

/// Whether an instruction enters or leaves a monitor.
fn is_on_monitor(instruction: &Instruction) -> bool
    ensures monitor { result ≡ Rattle.dj_code_causes.specs.Monitors.is_on_monitor (view_instruction instruction.now) }
{
    match control_of(instruction) {
        Control::Enter | Control::Exit => true,
        Control::On
        | Control::OnOrThrown
        | Control::Branch
        | Control::Jump
        | Control::Return
        | Control::Throw => false,
    }
}

/// Whether an instruction is what is asked for.
fn is_asked(asked: Asked, instruction: &Instruction) -> bool
    ensures asked { result ≡ test_of asked (view_instruction instruction.now) }
{
    match asked {
        Asked::Float => works_on_float(instruction),
        Asked::Dynamic => is_dynamic(instruction),
        Asked::Monitor => is_on_monitor(instruction),
    }
}

/// The offset of the first of these instructions that is what is asked for.
fn first_asked(asked: Asked, instructions: &[(u32, Instruction)]) -> Option<u32>
    requires rising { IsRising (view_instructions instructions.now) }
    ensures first { MatchOption result ((pc : ℕ) → ¬ IsOne (test_of asked) (view_instructions instructions.now) pc) (IsLeast (IsOne (test_of asked) (view_instructions instructions.now))) }
{
    let mut left = instructions;
    while let [at, rest @ ..] = left {
        if is_asked(asked, &at.1) {
            return Some(at.0);
        }
        left = rest;
    }
    None
}

/// The offset at which floats first keep code from being printed.
pub fn first_float(code: &Code) -> Option<u32>
    requires rising { IsRising (view_instructions code.now.instructions) }
    ensures first { MatchOption result ((pc : ℕ) → ¬ HasFloatAt (view_code code.now) pc) (IsLeast (HasFloatAt (view_code code.now))) }
{
    if spells_float(&code.descriptor) {
        Some(0)
    } else {
        first_asked(Asked::Float, code.instructions.as_slice())
    }
}

/// The offset of the first instruction that is linked as the program runs.
pub fn first_dynamic(code: &Code) -> Option<u32>
    requires rising { IsRising (view_instructions code.now.instructions) }
    ensures first { MatchOption result ((pc : ℕ) → ¬ HasDynamicAt (view_code code.now) pc) (IsLeast (HasDynamicAt (view_code code.now))) }
{
    first_asked(Asked::Dynamic, code.instructions.as_slice())
}

/// The offset of the first instruction that enters or leaves a monitor.
pub fn first_monitor(code: &Code) -> Option<u32>
    requires rising { IsRising (view_instructions code.now.instructions) }
    ensures first { MatchOption result ((pc : ℕ) → ¬ HasMonitorAt (view_code code.now) pc) (IsLeast (HasMonitorAt (view_code code.now))) }
{
    first_asked(Asked::Monitor, code.instructions.as_slice())
}
