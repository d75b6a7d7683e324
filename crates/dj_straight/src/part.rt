//! What instructions are in straight code.

ghost use Rattle.std.specs.Prelude.{◌≡◌, ◌↔◌, IsTrue};
ghost use Rattle.dj_instructions.specs.Instructions.{view_instruction};
ghost use Rattle.dj_straight.specs.Straight.{is_straight_opcode, HasStraightOpcode};
ghost use Rattle.dj_straight.specs.Rebuilding.{operation_of, part_of};

use dj_code::{Calc, Instruction, Kind};
use dj_names::Constant;

/// The operations of straight code.
#[derive(Clone, Copy, PartialEq, Eq)]
pub enum Operation {
    Add,
    Sub,
    Mul,
}

/// An instruction of straight code.
#[derive(Clone, Copy, PartialEq, Eq)]
pub enum Part {
    /// A constant.
    Number(i32),
    /// The slot of a local.
    Parameter(u16),
    Operator(Operation),
    Return,
}

/// The operation of straight code that an instruction on ints is.
fn operation_of(calc: Calc) -> Option<Operation>
    ensures operation { result ≡ operation_of calc }
{
    match calc {
        Calc::Add => Some(Operation::Add),
        Calc::Sub => Some(Operation::Sub),
        Calc::Mul => Some(Operation::Mul),
        Calc::Div
        | Calc::Rem
        | Calc::Neg
        | Calc::Shl
        | Calc::Shr
        | Calc::Ushr
        | Calc::And
        | Calc::Or
        | Calc::Xor => None,
    }
}

/// What an instruction is in straight code.
pub fn part_of(instruction: &Instruction) -> Option<Part>
    ensures part { result ≡ part_of (view_instruction instruction.now) }
{
    match instruction {
        Instruction::Push(Constant::Int(number)) => Some(Part::Number(*number)),
        Instruction::Load(Kind::Int, slot) => Some(Part::Parameter(*slot)),
        Instruction::Calc(calc, Kind::Int) => match operation_of(*calc) {
            Some(operation) => Some(Part::Operator(operation)),
            None => None,
        },
        Instruction::Return(Some(Kind::Int)) => Some(Part::Return),
        Instruction::Nop
        | Instruction::PushNull
        | Instruction::Push(
            Constant::Long(_) | Constant::Text(_) | Constant::Float(_) | Constant::Double(_),
        )
        | Instruction::PushClass(_)
        | Instruction::PushHandle { .. }
        | Instruction::PushMethodType(_)
        | Instruction::Load(Kind::Long | Kind::Float | Kind::Double | Kind::Ref, _)
        | Instruction::Store(_, _)
        | Instruction::ArrayLoad(_)
        | Instruction::ArrayStore(_)
        | Instruction::Pop
        | Instruction::Pop2
        | Instruction::Dup
        | Instruction::DupX1
        | Instruction::DupX2
        | Instruction::Dup2
        | Instruction::Dup2X1
        | Instruction::Dup2X2
        | Instruction::Swap
        | Instruction::Calc(_, Kind::Long | Kind::Float | Kind::Double | Kind::Ref)
        | Instruction::Iinc(_, _)
        | Instruction::Convert(_, _)
        | Instruction::Compare(_, _)
        | Instruction::IfZero(_, _)
        | Instruction::IfInts(_, _)
        | Instruction::IfRefs(_, _)
        | Instruction::IfNull(_, _)
        | Instruction::Goto(_)
        | Instruction::TableSwitch { .. }
        | Instruction::LookupSwitch { .. }
        | Instruction::Return(None | Some(Kind::Long | Kind::Float | Kind::Double | Kind::Ref))
        | Instruction::GetStatic(_)
        | Instruction::PutStatic(_)
        | Instruction::GetField(_)
        | Instruction::PutField(_)
        | Instruction::InvokeVirtual(_)
        | Instruction::InvokeSpecial(_)
        | Instruction::InvokeStatic(_)
        | Instruction::InvokeInterface(_)
        | Instruction::InvokeDynamic { .. }
        | Instruction::New(_)
        | Instruction::NewArray(_)
        | Instruction::MultiNewArray(_, _)
        | Instruction::ArrayLength
        | Instruction::Throw
        | Instruction::CheckCast(_)
        | Instruction::InstanceOf(_)
        | Instruction::MonitorEnter
        | Instruction::MonitorExit => None,
    }
}

/// Whether the opcode that begins at this place of the code is one of straight code.
pub fn has_straight_opcode(code: &[u8], pc: u32) -> bool
    ensures exact { IsTrue result ↔ HasStraightOpcode code.now pc }
{
    match code.get(pc as usize) {
        Some(opcode) => is_straight_opcode(*opcode),
        None => false,
    }
}

/// Whether an opcode is one of straight code.
fn is_straight_opcode(opcode: u8) -> bool
    ensures straight { result ≡ is_straight_opcode opcode }
{
    matches!(opcode, 2..=8 | 16..=17 | 21 | 26..=29 | 96 | 100 | 104 | 172)
}
