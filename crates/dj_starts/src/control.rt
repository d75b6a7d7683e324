//! How control leaves an instruction (JVMS 2.11.7, 6.5).

ghost use Rattle.std.specs.Prelude.{◌≡◌};
ghost use Rattle.dj_instructions.specs.Instructions.{view_instruction};
ghost use Rattle.dj_starts.specs.Control.{control_of, falls_through, can_leave_thrown, ends_block};

use dj_code::{Calc, Instruction, Kind};

/// How control leaves an instruction.
#[derive(Clone, Copy, PartialEq, Eq)]
pub enum Control {
    /// To the instruction behind it.
    On,
    /// There, or by an exception.
    OnOrThrown,
    /// There, or to its target.
    Branch,
    /// To one of its targets.
    Jump,
    /// Out of the method.
    Return,
    /// By an exception.
    Throw,
    /// `monitorenter`: to the instruction behind it, or by an exception.
    Enter,
    /// `monitorexit`: to the instruction behind it.
    Exit,
}

/// How control leaves an arithmetic instruction: a division of ints or longs may be by zero.
fn control_of_calc(calc: Calc, kind: Kind) -> Control
    ensures control { result ≡ Rattle.dj_starts.specs.Control.control_of_calc calc kind }
{
    match calc {
        Calc::Div | Calc::Rem => match kind {
            Kind::Int | Kind::Long => Control::OnOrThrown,
            Kind::Float | Kind::Double | Kind::Ref => Control::On,
        },
        Calc::Add
        | Calc::Sub
        | Calc::Mul
        | Calc::Neg
        | Calc::Shl
        | Calc::Shr
        | Calc::Ushr
        | Calc::And
        | Calc::Or
        | Calc::Xor => Control::On,
    }
}

/// How control leaves an instruction.
pub fn control_of(instruction: &Instruction) -> Control
    ensures control { result ≡ control_of (view_instruction instruction.now) }
{
    match instruction {
        Instruction::Nop
        | Instruction::PushNull
        | Instruction::Push(_)
        | Instruction::PushHandle { .. }
        | Instruction::PushMethodType(_)
        | Instruction::Load(_, _)
        | Instruction::Store(_, _)
        | Instruction::Pop
        | Instruction::Pop2
        | Instruction::Dup
        | Instruction::DupX1
        | Instruction::DupX2
        | Instruction::Dup2
        | Instruction::Dup2X1
        | Instruction::Dup2X2
        | Instruction::Swap
        | Instruction::Iinc(_, _)
        | Instruction::Convert(_, _)
        | Instruction::Compare(_, _)
        | Instruction::InvokeDynamic { .. }
        | Instruction::InstanceOf(_) => Control::On,
        Instruction::Calc(calc, kind) => control_of_calc(*calc, *kind),
        Instruction::PushClass(_)
        | Instruction::ArrayLoad(_)
        | Instruction::ArrayStore(_)
        | Instruction::GetStatic(_)
        | Instruction::PutStatic(_)
        | Instruction::GetField(_)
        | Instruction::PutField(_)
        | Instruction::InvokeVirtual(_)
        | Instruction::InvokeSpecial(_)
        | Instruction::InvokeStatic(_)
        | Instruction::InvokeInterface(_)
        | Instruction::New(_)
        | Instruction::NewArray(_)
        | Instruction::MultiNewArray(_, _)
        | Instruction::ArrayLength
        | Instruction::CheckCast(_) => Control::OnOrThrown,
        Instruction::IfZero(_, _)
        | Instruction::IfInts(_, _)
        | Instruction::IfRefs(_, _)
        | Instruction::IfNull(_, _) => Control::Branch,
        Instruction::Goto(_) | Instruction::TableSwitch { .. } | Instruction::LookupSwitch { .. } =>
            Control::Jump,
        Instruction::Return(_) => Control::Return,
        Instruction::Throw => Control::Throw,
        Instruction::MonitorEnter => Control::Enter,
        Instruction::MonitorExit => Control::Exit,
    }
}

impl Control {
    /// Whether control may go on to the instruction behind.
    pub fn falls_through(self) -> bool
        ensures falls { result ≡ falls_through self }
    {
        match self {
            Control::On | Control::OnOrThrown | Control::Branch | Control::Enter | Control::Exit =>
                true,
            Control::Jump | Control::Return | Control::Throw => false,
        }
    }

    /// Whether control may leave by an exception.
    pub fn can_leave_thrown(self) -> bool
        ensures thrown { result ≡ can_leave_thrown self }
    {
        match self {
            Control::OnOrThrown | Control::Throw | Control::Enter => true,
            Control::On | Control::Branch | Control::Jump | Control::Return | Control::Exit =>
                false,
        }
    }

    /// Whether the instruction is a jump, a switch, a return, `athrow` or one of monitors.
    pub fn ends_block(self) -> bool
        ensures ends { result ≡ ends_block self }
    {
        match self {
            Control::On | Control::OnOrThrown => false,
            Control::Branch
            | Control::Jump
            | Control::Return
            | Control::Throw
            | Control::Enter
            | Control::Exit => true,
        }
    }
}

/// Whether the instruction can throw: it does something to the outside other than to leave a
/// monitor, or a trap may end it. Dynamic call sites and constants aren't run, and so don't throw.
pub fn can_throw(instruction: &Instruction) -> bool
    ensures thrown { result ≡ Rattle.dj_starts.specs.Control.can_throw (view_instruction instruction.now) }
{
    control_of(instruction).can_leave_thrown()
}
