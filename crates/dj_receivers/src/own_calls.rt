//! Calls of a constructor on `this`, in another one (JLS 8.8.7.1).

ghost use Rattle.std.specs.Prelude.{◌≡◌};
ghost use Rattle.std.specs.Option.{option_copied, option_map};
ghost use Rattle.dj_instructions.specs.Instructions.{view_instruction, view_method_ref};
ghost use Rattle.dj_frames.specs.Frames.{view_tag, view_tags, view_frame};
ghost use Rattle.dj_starts.specs.Births as births;
ghost use Rattle.dj_receivers.specs.OwnCalls as spec;

use crate::passing::count_of;
use dj_code::{Frame, Instruction, MethodRef, Slots, Tag};
use dj_names::is_constructor;

/// The method that `invokespecial` calls.
pub fn special_of(instruction: &Instruction) -> Option<&MethodRef>
    ensures special { option_map view_method_ref (option_copied result) ≡ spec.special_of (view_instruction instruction.now) }
{
    match instruction {
        Instruction::InvokeSpecial(method) => Some(method),
        Instruction::Nop
        | Instruction::PushNull
        | Instruction::Push(_)
        | Instruction::PushClass(_)
        | Instruction::PushHandle { .. }
        | Instruction::PushMethodType(_)
        | Instruction::Load(_, _)
        | Instruction::Store(_, _)
        | Instruction::ArrayLoad(_)
        | Instruction::ArrayStore(_)
        | Instruction::Pop
        | Instruction::Pop2
        | Instruction::Dup
        | Instruction::DupX1
        | Instruction::DupX2
        | Instruction::Dup2
        | Instruction::Dup2X1
        | Instruction::Dup2X2
        | Instruction::Swap
        | Instruction::Calc(_, _)
        | Instruction::Iinc(_, _)
        | Instruction::Convert(_, _)
        | Instruction::Compare(_, _)
        | Instruction::IfZero(_, _)
        | Instruction::IfInts(_, _)
        | Instruction::IfRefs(_, _)
        | Instruction::IfNull(_, _)
        | Instruction::Goto(_)
        | Instruction::TableSwitch { .. }
        | Instruction::LookupSwitch { .. }
        | Instruction::Return(_)
        | Instruction::GetStatic(_)
        | Instruction::PutStatic(_)
        | Instruction::GetField(_)
        | Instruction::PutField(_)
        | Instruction::InvokeVirtual(_)
        | Instruction::InvokeStatic(_)
        | Instruction::InvokeInterface(_)
        | Instruction::InvokeDynamic { .. }
        | Instruction::New(_)
        | Instruction::NewArray(_)
        | Instruction::MultiNewArray(_, _)
        | Instruction::ArrayLength
        | Instruction::Throw
        | Instruction::CheckCast(_)
        | Instruction::InstanceOf(_)
        | Instruction::MonitorEnter
        | Instruction::MonitorExit => None,
    }
}

/// Whether a tag is that of `this` that isn't constructed yet.
fn is_begun(tag: Option<&Tag>) -> bool
    ensures begun { result ≡ spec.is_some_begun (option_map view_tag (option_copied tag.entry)) }
{
    match tag {
        Some(Tag::UnbornThis) => true,
        Some(
            Tag::Top
            | Tag::Int
            | Tag::Float
            | Tag::Double
            | Tag::Long
            | Tag::Null
            | Tag::Object(_)
            | Tag::Unborn(_),
        )
        | None => false,
    }
}

/// What stands on a stack under so many values.
fn under(stack: &Slots, count: usize) -> Option<&Tag>
    ensures under { option_map view_tag (option_copied result) ≡ births.under count (view_tags stack.now) }
{
    let height = stack.len();
    if count < height {
        stack.get(height - 1 - count)
    } else {
        None
    }
}

/// Whether a call of a method is one on `this` that isn't constructed yet.
pub fn is_on_begun(method: &MethodRef, frame: &Frame) -> bool
    ensures begun { result ≡ spec.is_on_begun (view_method_ref method.now) (view_frame frame.now) }
{
    is_begun(under(&frame.stack, count_of(&method.descriptor)))
}

/// Whether an instruction calls a constructor on `this`, by the frame before it.
pub fn calls_own(instruction: &Instruction, frame: &Frame) -> bool
    ensures own { result ≡ spec.calls_own (view_instruction instruction.now) (view_frame frame.now) }
{
    match special_of(instruction) {
        Some(method) => is_constructor(&method.name) && is_on_begun(method, frame),
        None => false,
    }
}
