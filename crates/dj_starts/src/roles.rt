//! What instructions are in a birth.

ghost use Rattle.std.specs.Prelude.{◌≡◌};
ghost use Rattle.dj_names.specs.Types.{view_descriptor};
ghost use Rattle.dj_instructions.specs.Instructions.{view_instruction, view_instructions};
ghost use Rattle.dj_starts.specs.Births as spec;
ghost use Rattle.dj_starts.specs.Births.{role_of, role_of_call};

use dj_code::Instruction;
use dj_names::Descriptor;

/// What an instruction is in a birth.
#[derive(Clone, Copy, PartialEq, Eq)]
pub enum Role {
    /// It may stand in any birth.
    Plain,
    /// It may stand in none.
    Never,
    New,
    Dup,
    /// A call without a result.
    Silent,
}

/// What a call is in a birth.
fn role_of_call(descriptor: &Descriptor) -> Role
    ensures role { result ≡ role_of_call (view_descriptor descriptor.now) }
{
    match descriptor {
        Descriptor::Field(_) => Role::Plain,
        Descriptor::Method { result, .. } => match result {
            Some(_) => Role::Plain,
            None => Role::Silent,
        },
    }
}

/// What an instruction is in a birth.
pub fn role_of(instruction: &Instruction) -> Role
    ensures role { result ≡ role_of (view_instruction instruction.now) }
{
    match instruction {
        Instruction::Nop
        | Instruction::PushNull
        | Instruction::Push(_)
        | Instruction::PushClass(_)
        | Instruction::PushHandle { .. }
        | Instruction::PushMethodType(_)
        | Instruction::Load(_, _)
        | Instruction::ArrayLoad(_)
        | Instruction::Calc(_, _)
        | Instruction::Convert(_, _)
        | Instruction::Compare(_, _)
        | Instruction::GetStatic(_)
        | Instruction::GetField(_)
        | Instruction::NewArray(_)
        | Instruction::MultiNewArray(_, _)
        | Instruction::ArrayLength
        | Instruction::CheckCast(_)
        | Instruction::InstanceOf(_) => Role::Plain,
        Instruction::Store(_, _)
        | Instruction::ArrayStore(_)
        | Instruction::Pop
        | Instruction::Pop2
        | Instruction::DupX1
        | Instruction::DupX2
        | Instruction::Dup2
        | Instruction::Dup2X1
        | Instruction::Dup2X2
        | Instruction::Swap
        | Instruction::Iinc(_, _)
        | Instruction::IfZero(_, _)
        | Instruction::IfInts(_, _)
        | Instruction::IfRefs(_, _)
        | Instruction::IfNull(_, _)
        | Instruction::Goto(_)
        | Instruction::TableSwitch { .. }
        | Instruction::LookupSwitch { .. }
        | Instruction::Return(_)
        | Instruction::PutStatic(_)
        | Instruction::PutField(_)
        | Instruction::Throw
        | Instruction::MonitorEnter
        | Instruction::MonitorExit => Role::Never,
        Instruction::Dup => Role::Dup,
        Instruction::New(_) => Role::New,
        Instruction::InvokeVirtual(method)
        | Instruction::InvokeSpecial(method)
        | Instruction::InvokeStatic(method)
        | Instruction::InvokeInterface(method) => role_of_call(&method.descriptor),
        Instruction::InvokeDynamic { descriptor, .. } => role_of_call(descriptor),
    }
}

/// The role of the first of some instructions.
pub fn first_role(instructions: &[(u32, Instruction)]) -> Role
    ensures role { result ≡ spec.first_role (view_instructions instructions.now) }
{
    match instructions {
        [at, ..] => role_of(&at.1),
        [] => Role::Plain,
    }
}
