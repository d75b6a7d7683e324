//! Whether jumps lead to instructions (JVMS 4.9.1).

ghost use Rattle.std.specs.Prelude.{◌≡◌, ◌↔◌, All, IsTrue, MatchOption, map, if◌then◌else◌};
ghost use Rattle.dj_instructions.specs.Instructions.{view_instruction, view_instructions, IsRising};
ghost use Rattle.dj_code.specs.Targets.{IsLeast, IsStart, JumpsRight, AllJumpRight, JumpsWrong};
ghost use Rattle.dj_code.specs.Checks.{lesser};

use dj_instructions::{Instruction, is_start};

/// The least pc so far of what isn't right, with this pc behind the others.
pub fn least_wrong(right: bool, least: Option<u32>, pc: u32) -> Option<u32>
    ensures least { result ≡ (if right then least else lesser least pc) }
{
    if right {
        return least;
    }
    match least {
        Some(other) => Some(other.min(pc)),
        None => Some(pc),
    }
}

/// Whether an instruction begins at each of the targets.
fn are_starts(instructions: &[(u32, Instruction)], targets: &[u32]) -> bool
    requires rising { IsRising (view_instructions instructions.now) }
    ensures exact { IsTrue result ↔ All (IsStart (view_instructions instructions.now)) targets.now }
{
    for target in targets {
        if !is_start(instructions, *target) {
            return false;
        }
    }
    true
}

/// Whether an instruction begins at the target of each case.
fn are_cases_right(instructions: &[(u32, Instruction)], cases: &[(i32, u32)]) -> bool
    requires rising { IsRising (view_instructions instructions.now) }
    ensures exact { IsTrue result ↔ All (IsStart (view_instructions instructions.now)) (map (λ x. x.1) cases.now) }
{
    for case in cases {
        if !is_start(instructions, case.1) {
            return false;
        }
    }
    true
}

/// Whether an instruction begins wherever this one may jump to.
fn jumps_right(instructions: &[(u32, Instruction)], instruction: &Instruction) -> bool
    requires rising { IsRising (view_instructions instructions.now) }
    ensures exact { IsTrue result ↔ JumpsRight (view_instructions instructions.now) (view_instruction instruction.now) }
{
    match instruction {
        Instruction::IfZero(_, target) => is_start(instructions, *target),
        Instruction::IfInts(_, target) => is_start(instructions, *target),
        Instruction::IfRefs(_, target) => is_start(instructions, *target),
        Instruction::IfNull(_, target) => is_start(instructions, *target),
        Instruction::Goto(target) => is_start(instructions, *target),
        Instruction::TableSwitch { targets, other, .. } => {
            is_start(instructions, *other) && are_starts(instructions, targets.as_slice())
        }
        Instruction::LookupSwitch { cases, other } => {
            is_start(instructions, *other) && are_cases_right(instructions, cases.as_slice())
        }
        Instruction::Nop
        | Instruction::PushNull
        | Instruction::Push(_)
        | Instruction::PushClass(_)
        | Instruction::PushHandle { .. }
        | Instruction::PushMethodType(_)
        | Instruction::Load(_, _)
        | Instruction::Store(_, _)
        | Instruction::ArrayLoad(_)
        | Instruction::ArrayStore(_)
        | Instruction::Pop
        | Instruction::Pop2
        | Instruction::Dup
        | Instruction::DupX1
        | Instruction::DupX2
        | Instruction::Dup2
        | Instruction::Dup2X1
        | Instruction::Dup2X2
        | Instruction::Swap
        | Instruction::Calc(_, _)
        | Instruction::Iinc(_, _)
        | Instruction::Convert(_, _)
        | Instruction::Compare(_, _)
        | Instruction::Return(_)
        | Instruction::GetStatic(_)
        | Instruction::PutStatic(_)
        | Instruction::GetField(_)
        | Instruction::PutField(_)
        | Instruction::InvokeVirtual(_)
        | Instruction::InvokeSpecial(_)
        | Instruction::InvokeStatic(_)
        | Instruction::InvokeInterface(_)
        | Instruction::InvokeDynamic { .. }
        | Instruction::New(_)
        | Instruction::NewArray(_)
        | Instruction::MultiNewArray(_, _)
        | Instruction::ArrayLength
        | Instruction::Throw
        | Instruction::CheckCast(_)
        | Instruction::InstanceOf(_)
        | Instruction::MonitorEnter
        | Instruction::MonitorExit => true,
    }
}

/// The least pc whose instruction jumps to where none begins.
pub fn wrong_jump(instructions: &[(u32, Instruction)]) -> Option<u32>
    requires rising { IsRising (view_instructions instructions.now) }
    ensures least { MatchOption result (AllJumpRight (view_instructions instructions.now)) (IsLeast (JumpsWrong (view_instructions instructions.now))) }
{
    let mut least = None;
    for at in instructions {
        let right = jumps_right(instructions, &at.1);
        least = least_wrong(right, least, at.0);
    }
    least
}
