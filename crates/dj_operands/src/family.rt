//! How the machine does each instruction (JVMS 6.5).

ghost use Rattle.std.specs.Prelude.{◌≡◌, List};
ghost use Rattle.dj_names.specs.declared.header.Header.{Header};
ghost use Rattle.dj_names.specs.Headers.{Name};
ghost use Rattle.dj_names.specs.Types.{view_type, view_descriptor};
ghost use Rattle.dj_instructions.specs.Instructions.{view_instruction};
ghost use Rattle.dj_bytecode.specs.Meanings.{constant_pushed, conversion, calculation, comparison, arguments_of, meaning_of};
ghost use Rattle.dj_operands.specs.Families.{IsFamily};

use crate::operands::parameters_of;
use dj_instructions::{Calc, Instruction, Kind};
use dj_names::{Constant, Descriptor, JType};

/// How the machine does an instruction.
#[derive(Clone, Copy)]
pub enum Family {
    /// It takes so many values from the stack, and pushes what an operation on them gives.
    Strict(usize),
    /// A call on an object: it takes so many arguments, and the receiver below them.
    Calls(usize),
    /// It puts values of the stack elsewhere.
    Moves,
    Loads(Kind, u16),
    Stores(Kind, u16),
    /// It adds to an int in a local.
    Counts(u16, i16),
    /// It takes so many values, and they tell where it leads.
    Leads(usize),
    Returns(Option<Kind>),
    /// It isn't run.
    NotRun,
}

/// A constant; a float or double isn't run.
fn family_of_constant(constant: &Constant) -> Family
    ensures family { IsFamily result (constant_pushed constant.now) }
{
    match constant {
        Constant::Int(_) | Constant::Long(_) | Constant::Text(_) => Family::Strict(0),
        Constant::Float(_) | Constant::Double(_) => Family::NotRun,
    }
}

/// A conversion; one to a float or double isn't run.
fn family_of_conversion(from: Kind, to: &JType) -> Family
    ensures family { IsFamily result (conversion from (view_type to.now)) }
{
    match from {
        Kind::Int | Kind::Long | Kind::Float | Kind::Double => match to {
            JType::Float | JType::Double => Family::NotRun,
            JType::Boolean
            | JType::Byte
            | JType::Char
            | JType::Short
            | JType::Int
            | JType::Long
            | JType::Class(_)
            | JType::Array(_) => Family::Strict(1),
        },
        Kind::Ref => Family::Strict(1),
    }
}

/// Arithmetic: a negation has one operand, others two.
fn family_of_calculation(operation: Calc, kind: Kind) -> Family
    ensures family { IsFamily result (calculation operation kind) }
{
    match kind {
        Kind::Int | Kind::Long => match operation {
            Calc::Neg => Family::Strict(1),
            Calc::Add
            | Calc::Sub
            | Calc::Mul
            | Calc::Div
            | Calc::Rem
            | Calc::Shl
            | Calc::Shr
            | Calc::Ushr
            | Calc::And
            | Calc::Or
            | Calc::Xor => Family::Strict(2),
        },
        Kind::Float | Kind::Double | Kind::Ref => Family::Strict(1),
    }
}

/// A comparison.
fn family_of_comparison(kind: Kind) -> Family
    ensures family { IsFamily result (comparison kind) }
{
    match kind {
        Kind::Int | Kind::Long | Kind::Float | Kind::Double | Kind::Ref => Family::Strict(2),
    }
}

/// A call, which takes its arguments.
fn arguments_of(descriptor: &Descriptor) -> usize
    ensures arguments { result ≡ arguments_of (view_descriptor descriptor.now) }
{
    parameters_of(descriptor).len()
}

/// How the machine does an instruction.
pub fn family_of(instruction: &Instruction) -> Family
    ensures family { (headers : List Header) (class : Name) → IsFamily result (meaning_of headers class (view_instruction instruction.now)) }
{
    match instruction {
        Instruction::Nop => Family::Strict(0),
        Instruction::PushNull => Family::Strict(0),
        Instruction::Push(constant) => family_of_constant(constant),
        Instruction::PushClass(_) => Family::Strict(0),
        Instruction::PushHandle { .. } => Family::NotRun,
        Instruction::PushMethodType(_) => Family::NotRun,
        Instruction::Load(kind, slot) => Family::Loads(*kind, *slot),
        Instruction::Store(kind, slot) => Family::Stores(*kind, *slot),
        Instruction::ArrayLoad(_) => Family::Strict(2),
        Instruction::ArrayStore(_) => Family::Strict(3),
        Instruction::Pop
        | Instruction::Pop2
        | Instruction::Dup
        | Instruction::DupX1
        | Instruction::DupX2
        | Instruction::Dup2
        | Instruction::Dup2X1
        | Instruction::Dup2X2
        | Instruction::Swap => Family::Moves,
        Instruction::Calc(operation, kind) => family_of_calculation(*operation, *kind),
        Instruction::Iinc(slot, by) => Family::Counts(*slot, *by),
        Instruction::Convert(from, to) => family_of_conversion(*from, to),
        Instruction::Compare(kind, _) => family_of_comparison(*kind),
        Instruction::IfZero(_, _) => Family::Leads(1),
        Instruction::IfInts(_, _) => Family::Leads(2),
        Instruction::IfRefs(_, _) => Family::Leads(2),
        Instruction::IfNull(_, _) => Family::Leads(1),
        Instruction::Goto(_) => Family::Leads(0),
        Instruction::TableSwitch { .. } => Family::Leads(1),
        Instruction::LookupSwitch { .. } => Family::Leads(1),
        Instruction::Return(kind) => Family::Returns(*kind),
        Instruction::GetStatic(_) => Family::Strict(0),
        Instruction::PutStatic(_) => Family::Strict(1),
        Instruction::GetField(_) => Family::Strict(1),
        Instruction::PutField(_) => Family::Strict(2),
        Instruction::InvokeVirtual(method)
        | Instruction::InvokeSpecial(method)
        | Instruction::InvokeInterface(method) => {
            Family::Calls(arguments_of(&method.descriptor))
        }
        Instruction::InvokeStatic(method) => Family::Strict(arguments_of(&method.descriptor)),
        Instruction::InvokeDynamic { .. } => Family::NotRun,
        Instruction::New(_) => Family::Strict(0),
        Instruction::NewArray(_) => Family::Strict(1),
        Instruction::MultiNewArray(_, sizes) => Family::Strict(usize::from(*sizes)),
        Instruction::ArrayLength => Family::Strict(1),
        Instruction::Throw => Family::Strict(1),
        Instruction::CheckCast(_) => Family::Strict(1),
        Instruction::InstanceOf(_) => Family::Strict(1),
        Instruction::MonitorEnter => Family::Strict(1),
        Instruction::MonitorExit => Family::Strict(1),
    }
}
