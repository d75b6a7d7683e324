//! Where control comes otherwise than from the instruction before, and whether local 0 is kept.

ghost use Rattle.std.specs.Prelude.{◌≡◌, ◌↔◌, IfOk, OnOk, IsTrue};
ghost use Rattle.std.specs.List.{list_any};
ghost use Rattle.dj_instructions.specs.Instructions.{IsRising, view_instruction, view_instructions};
ghost use Rattle.dj_code.specs.MethodCode.{view_code};
ghost use Rattle.dj_starts.specs.Marks.{MarksMore};
ghost use Rattle.dj_receivers.specs.Receivers as spec;
ghost use Rattle.dj_receivers.specs.Receivers.{KeepsThis};
ghost use Rattle.dj_receivers.specs.Steps.{IsJumpedTo, IsHandlerOf, AreJoins};

use dj_code::{Code, Handler, Instruction};
use dj_names::Items;
use dj_starts::{mark, mark_all, no_marks, push_targets};
use std::alloc::{AllocError, Global};

/// Whether an instruction stores to local 0.
fn stores_own(instruction: &Instruction) -> bool
    ensures stores { result ≡ spec.stores_own (view_instruction instruction.now) }
{
    match instruction {
        Instruction::Store(_, slot) => *slot == 0,
        Instruction::Iinc(slot, _) => *slot == 0,
        Instruction::Nop
        | Instruction::PushNull
        | Instruction::Push(_)
        | Instruction::PushClass(_)
        | Instruction::PushHandle { .. }
        | Instruction::PushMethodType(_)
        | Instruction::Load(_, _)
        | Instruction::ArrayLoad(_)
        | Instruction::ArrayStore(_)
        | Instruction::Pop
        | Instruction::Pop2
        | Instruction::Dup
        | Instruction::DupX1
        | Instruction::DupX2
        | Instruction::Dup2
        | Instruction::Dup2X1
        | Instruction::Dup2X2
        | Instruction::Swap
        | Instruction::Calc(_, _)
        | Instruction::Convert(_, _)
        | Instruction::Compare(_, _)
        | Instruction::IfZero(_, _)
        | Instruction::IfInts(_, _)
        | Instruction::IfRefs(_, _)
        | Instruction::IfNull(_, _)
        | Instruction::Goto(_)
        | Instruction::TableSwitch { .. }
        | Instruction::LookupSwitch { .. }
        | Instruction::Return(_)
        | Instruction::GetStatic(_)
        | Instruction::PutStatic(_)
        | Instruction::GetField(_)
        | Instruction::PutField(_)
        | Instruction::InvokeVirtual(_)
        | Instruction::InvokeSpecial(_)
        | Instruction::InvokeStatic(_)
        | Instruction::InvokeInterface(_)
        | Instruction::InvokeDynamic { .. }
        | Instruction::New(_)
        | Instruction::NewArray(_)
        | Instruction::MultiNewArray(_, _)
        | Instruction::ArrayLength
        | Instruction::Throw
        | Instruction::CheckCast(_)
        | Instruction::InstanceOf(_)
        | Instruction::MonitorEnter
        | Instruction::MonitorExit => false,
    }
}

/// Whether one of these instructions does.
fn any_stores(instructions: &[(u32, Instruction)]) -> bool
    ensures any { result ≡ list_any (λ at. spec.stores_own at.1) (view_instructions instructions.now) }
{
    for at in instructions {
        if stores_own(&at.1) {
            return true;
        }
    }
    false
}

/// Whether a method keeps its `this` in local 0.
pub fn keeps_this(code: &Code) -> bool
    ensures keeps { IsTrue result ↔ KeepsThis (view_code code.now) }
{
    code.flags & 8 == 0 && !any_stores(code.instructions.as_slice())
}

/// Marks where instructions jump to.
fn mark_targets(
    alloc: Global,
    instructions: &[(u32, Instruction)],
    joins: &mut Items<bool>,
) -> Result<(), AllocError>
    ensures more { OnOk result (MarksMore joins.old joins.new (IsJumpedTo (view_instructions instructions.now))) }
{
    for at in instructions {
        let mut targets = Items::new(alloc);
        push_targets(&at.1, &mut targets)?;
        mark_all(targets.as_slice(), joins);
    }
    Ok(())
}

/// Marks where handlers are.
fn mark_handlers(handlers: &[Handler], joins: &mut Items<bool>)
    ensures more { MarksMore joins.old joins.new (IsHandlerOf handlers.now) }
{
    for handler in handlers {
        mark(handler.target, joins);
    }
}

/// Marks where control begins, where instructions jump to, and where handlers are.
pub fn joins(alloc: Global, code: &Code) -> Result<Items<bool>, AllocError>
    requires rising { IsRising (view_instructions code.now.instructions) }
    ensures joins { IfOk result (AreJoins (view_code code.now)) }
{
    let mut joins = no_marks(alloc, code.instructions.as_slice())?;
    mark(0, &mut joins);
    mark_targets(alloc, code.instructions.as_slice(), &mut joins)?;
    mark_handlers(code.handlers.as_slice(), &mut joins);
    Ok(joins)
}
