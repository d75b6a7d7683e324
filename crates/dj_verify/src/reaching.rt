//! Where control may go from an instruction, and whether a frame goes there (JVMS 4.10.1.6, 4.10.1.9).

ghost use Rattle.std.specs.Prelude.{◌≡◌, ◌↔◌, ◌∷◌, All, IfOk, IsTrue, OnOk, map};
ghost use Rattle.dj_instructions.specs.Instructions.{view_instruction};
ghost use Rattle.dj_code.specs.MethodCode.{view_code};
ghost use Rattle.dj_code.specs.Targets.{targets_of};
ghost use Rattle.dj_effects.specs.Doing.{view_working};
ghost use Rattle.dj_verify.specs.Rules.{falls, Reaches};
ghost use Rattle.dj_verify.specs.Checking.{IsReady};
ghost use Rattle.dj_verify.specs.Frames.{working_of};

use crate::subject::Subject;
use dj_effects::Working;
use dj_frames::Frame;
use dj_instructions::{Instruction, is_start};
use dj_tags::{Goes, frame_goes};
use std::alloc::{AllocError, Global};

/// Whether an instruction begins at a pc whose given frame takes this one.
fn reaches<G: Goes>(goes: &G, subject: &Subject<'_>, frame: &Frame, pc: u32) -> bool
    requires ready { IsReady subject.now }
    ensures reaches { IsTrue result ↔ Reaches (G.relation goes.now) (view_code subject.now.code.now) (working_of frame.now) pc }
{
    match subject.given(pc) {
        Some(target) => {
            is_start(subject.code.instructions.as_slice(), pc) && frame_goes(goes, frame, target)
        }
        None => false,
    }
}

/// Whether a frame goes to each of the targets.
fn reaches_all<G: Goes>(goes: &G, subject: &Subject<'_>, frame: &Frame, targets: &[u32]) -> bool
    requires ready { IsReady subject.now }
    ensures reaches { IsTrue result ↔ All (Reaches (G.relation goes.now) (view_code subject.now.code.now) (working_of frame.now)) targets.now }
{
    for target in targets {
        if !reaches(goes, subject, frame, *target) {
            return false;
        }
    }
    true
}

/// Whether a frame goes to the target of each case.
fn reaches_cases<G: Goes>(
    goes: &G,
    subject: &Subject<'_>,
    frame: &Frame,
    cases: &[(i32, u32)],
) -> bool
    requires ready { IsReady subject.now }
    ensures reaches { IsTrue result ↔ All (Reaches (G.relation goes.now) (view_code subject.now.code.now) (working_of frame.now)) (map (λ x. x.1) cases.now) }
{
    for case in cases {
        if !reaches(goes, subject, frame, case.1) {
            return false;
        }
    }
    true
}

/// Whether a frame goes to a target and to each of others.
fn reaches_targets<G: Goes>(
    goes: &G,
    subject: &Subject<'_>,
    frame: &Frame,
    other: u32,
    targets: &[u32],
) -> bool
    requires ready { IsReady subject.now }
    ensures reaches { IsTrue result ↔ All (Reaches (G.relation goes.now) (view_code subject.now.code.now) (working_of frame.now)) (other ∷ targets.now) }
{
    reaches(goes, subject, frame, other) && reaches_all(goes, subject, frame, targets)
}

/// Whether a frame goes to a target and to that of each case.
fn reaches_either<G: Goes>(
    goes: &G,
    subject: &Subject<'_>,
    frame: &Frame,
    other: u32,
    cases: &[(i32, u32)],
) -> bool
    requires ready { IsReady subject.now }
    ensures reaches { IsTrue result ↔ All (Reaches (G.relation goes.now) (view_code subject.now.code.now) (working_of frame.now)) (other ∷ map (λ x. x.1) cases.now) }
{
    reaches(goes, subject, frame, other) && reaches_cases(goes, subject, frame, cases)
}

/// Whether a frame goes to a target.
fn goes_to<G: Goes>(
    alloc: Global,
    goes: &G,
    subject: &Subject<'_>,
    frame: &mut Working,
    target: u32,
) -> Result<bool, AllocError>
    requires ready { IsReady subject.now }
    ensures reaches { IfOk result (λ all. IsTrue all ↔ Reaches (G.relation goes.now) (view_code subject.now.code.now) (view_working frame.old) target) }
    ensures same { OnOk result (view_working frame.new ≡ view_working frame.old) }
{
    let frame = frame.frame(alloc)?;
    Ok(reaches(goes, subject, &frame, target))
}

/// Whether a frame goes to a target and to each of others.
fn goes_to_all<G: Goes>(
    alloc: Global,
    goes: &G,
    subject: &Subject<'_>,
    frame: &mut Working,
    other: u32,
    targets: &[u32],
) -> Result<bool, AllocError>
    requires ready { IsReady subject.now }
    ensures reaches { IfOk result (λ all. IsTrue all ↔ All (Reaches (G.relation goes.now) (view_code subject.now.code.now) (view_working frame.old)) (other ∷ targets.now)) }
    ensures same { OnOk result (view_working frame.new ≡ view_working frame.old) }
{
    let frame = frame.frame(alloc)?;
    Ok(reaches_targets(goes, subject, &frame, other, targets))
}

/// Whether a frame goes to a target and to that of each case.
fn goes_to_cases<G: Goes>(
    alloc: Global,
    goes: &G,
    subject: &Subject<'_>,
    frame: &mut Working,
    other: u32,
    cases: &[(i32, u32)],
) -> Result<bool, AllocError>
    requires ready { IsReady subject.now }
    ensures reaches { IfOk result (λ all. IsTrue all ↔ All (Reaches (G.relation goes.now) (view_code subject.now.code.now) (view_working frame.old)) (other ∷ map (λ x. x.1) cases.now)) }
    ensures same { OnOk result (view_working frame.new ≡ view_working frame.old) }
{
    let frame = frame.frame(alloc)?;
    Ok(reaches_either(goes, subject, &frame, other, cases))
}

/// Whether what an instruction leaves goes wherever it may jump to.
pub fn jumps<G: Goes>(
    alloc: Global,
    goes: &G,
    subject: &Subject<'_>,
    instruction: &Instruction,
    after: &mut Working,
) -> Result<bool, AllocError>
    requires ready { IsReady subject.now }
    ensures jumps { IfOk result (λ all. IsTrue all ↔ All (Reaches (G.relation goes.now) (view_code subject.now.code.now) (view_working after.old)) (targets_of (view_instruction instruction.now))) }
    ensures same { OnOk result (view_working after.new ≡ view_working after.old) }
{
    match instruction {
        Instruction::IfZero(_, target) => goes_to(alloc, goes, subject, after, *target),
        Instruction::IfInts(_, target) => goes_to(alloc, goes, subject, after, *target),
        Instruction::IfRefs(_, target) => goes_to(alloc, goes, subject, after, *target),
        Instruction::IfNull(_, target) => goes_to(alloc, goes, subject, after, *target),
        Instruction::Goto(target) => goes_to(alloc, goes, subject, after, *target),
        Instruction::TableSwitch { targets, other, .. } => {
            goes_to_all(alloc, goes, subject, after, *other, targets.as_slice())
        }
        Instruction::LookupSwitch { cases, other } => {
            goes_to_cases(alloc, goes, subject, after, *other, cases.as_slice())
        }
        Instruction::Nop
        | Instruction::PushNull
        | Instruction::Push(_)
        | Instruction::PushClass(_)
        | Instruction::PushHandle { .. }
        | Instruction::PushMethodType(_)
        | Instruction::Load(_, _)
        | Instruction::Store(_, _)
        | Instruction::ArrayLoad(_)
        | Instruction::ArrayStore(_)
        | Instruction::Pop
        | Instruction::Pop2
        | Instruction::Dup
        | Instruction::DupX1
        | Instruction::DupX2
        | Instruction::Dup2
        | Instruction::Dup2X1
        | Instruction::Dup2X2
        | Instruction::Swap
        | Instruction::Calc(_, _)
        | Instruction::Iinc(_, _)
        | Instruction::Convert(_, _)
        | Instruction::Compare(_, _)
        | Instruction::Return(_)
        | Instruction::GetStatic(_)
        | Instruction::PutStatic(_)
        | Instruction::GetField(_)
        | Instruction::PutField(_)
        | Instruction::InvokeVirtual(_)
        | Instruction::InvokeSpecial(_)
        | Instruction::InvokeStatic(_)
        | Instruction::InvokeInterface(_)
        | Instruction::InvokeDynamic { .. }
        | Instruction::New(_)
        | Instruction::NewArray(_)
        | Instruction::MultiNewArray(_, _)
        | Instruction::ArrayLength
        | Instruction::Throw
        | Instruction::CheckCast(_)
        | Instruction::InstanceOf(_)
        | Instruction::MonitorEnter
        | Instruction::MonitorExit => Ok(true),
    }
}

/// Whether the instruction behind may be next.
pub fn falls(instruction: &Instruction) -> bool
    ensures falls { result ≡ falls (view_instruction instruction.now) }
{
    match instruction {
        Instruction::Goto(_)
        | Instruction::TableSwitch { .. }
        | Instruction::LookupSwitch { .. }
        | Instruction::Return(_)
        | Instruction::Throw => false,
        Instruction::Nop
        | Instruction::PushNull
        | Instruction::Push(_)
        | Instruction::PushClass(_)
        | Instruction::PushHandle { .. }
        | Instruction::PushMethodType(_)
        | Instruction::Load(_, _)
        | Instruction::Store(_, _)
        | Instruction::ArrayLoad(_)
        | Instruction::ArrayStore(_)
        | Instruction::Pop
        | Instruction::Pop2
        | Instruction::Dup
        | Instruction::DupX1
        | Instruction::DupX2
        | Instruction::Dup2
        | Instruction::Dup2X1
        | Instruction::Dup2X2
        | Instruction::Swap
        | Instruction::Calc(_, _)
        | Instruction::Iinc(_, _)
        | Instruction::Convert(_, _)
        | Instruction::Compare(_, _)
        | Instruction::IfZero(_, _)
        | Instruction::IfInts(_, _)
        | Instruction::IfRefs(_, _)
        | Instruction::IfNull(_, _)
        | Instruction::GetStatic(_)
        | Instruction::PutStatic(_)
        | Instruction::GetField(_)
        | Instruction::PutField(_)
        | Instruction::InvokeVirtual(_)
        | Instruction::InvokeSpecial(_)
        | Instruction::InvokeStatic(_)
        | Instruction::InvokeInterface(_)
        | Instruction::InvokeDynamic { .. }
        | Instruction::New(_)
        | Instruction::NewArray(_)
        | Instruction::MultiNewArray(_, _)
        | Instruction::ArrayLength
        | Instruction::CheckCast(_)
        | Instruction::InstanceOf(_)
        | Instruction::MonitorEnter
        | Instruction::MonitorExit => true,
    }
}
