//! Instructions on members, arrays and classes, one function for all.

ghost use Rattle.std.specs.Prelude.{◌≡◌, IfOk};
ghost use Rattle.dj_instructions.specs.Instructions.{view_instruction};
ghost use Rattle.dj_places.specs.Surroundings.{surroundings_of};
ghost use Rattle.dj_pending.specs.Stacks.{stacked};
ghost use Rattle.dj_pending.specs.Building.{view_built, as_built};
ghost use Rattle.dj_pending.specs.Spilling.{behind};
ghost use Rattle.dj_member_trees.specs.Stepping as spec;

use crate::arrays::{make_array, make_simple};
use crate::calls::{invoke_object, invoke_static};
use crate::classes::{check_cast, push_class, test_instance};
use crate::elements::{read_element, read_length, write_element};
use crate::fields::{read_field, read_static, write_field, write_static};
use crate::special::invoke_special;
use dj_instructions::Instruction;
use dj_pending::Built;
use dj_static::Classes;
use std::alloc::{AllocError, Global};

/// Whether an instruction is one on members, arrays or classes.
pub fn is_member(instruction: &Instruction) -> bool
    ensures member { result ≡ spec.is_member (view_instruction instruction.now) }
{
    match instruction {
        Instruction::PushClass(_)
        | Instruction::ArrayLoad(_)
        | Instruction::ArrayStore(_)
        | Instruction::GetStatic(_)
        | Instruction::PutStatic(_)
        | Instruction::GetField(_)
        | Instruction::PutField(_)
        | Instruction::InvokeVirtual(_)
        | Instruction::InvokeSpecial(_)
        | Instruction::InvokeStatic(_)
        | Instruction::InvokeInterface(_)
        | Instruction::NewArray(_)
        | Instruction::MultiNewArray(_, _)
        | Instruction::ArrayLength
        | Instruction::CheckCast(_)
        | Instruction::InstanceOf(_) => true,
        Instruction::Nop
        | Instruction::PushNull
        | Instruction::Push(_)
        | Instruction::PushHandle { .. }
        | Instruction::PushMethodType(_)
        | Instruction::Load(_, _)
        | Instruction::Store(_, _)
        | Instruction::Pop
        | Instruction::Pop2
        | Instruction::Dup
        | Instruction::DupX1
        | Instruction::DupX2
        | Instruction::Dup2
        | Instruction::Dup2X1
        | Instruction::Dup2X2
        | Instruction::Swap
        | Instruction::Calc(_, _)
        | Instruction::Iinc(_, _)
        | Instruction::Convert(_, _)
        | Instruction::Compare(_, _)
        | Instruction::IfZero(_, _)
        | Instruction::IfInts(_, _)
        | Instruction::IfRefs(_, _)
        | Instruction::IfNull(_, _)
        | Instruction::Goto(_)
        | Instruction::TableSwitch { .. }
        | Instruction::LookupSwitch { .. }
        | Instruction::Return(_)
        | Instruction::InvokeDynamic { .. }
        | Instruction::New(_)
        | Instruction::Throw
        | Instruction::MonitorEnter
        | Instruction::MonitorExit => false,
    }
}

/// An instruction on members, arrays or classes; false where it can't be rebuilt, as for any other instruction.
pub fn member_step(
    alloc: Global,
    classes: &Classes<'_>,
    built: &mut Built,
    instruction: &Instruction,
) -> Result<bool, AllocError>
    ensures built { IfOk result (λ done. as_built done (view_built built.new)
        ≡ behind (view_built built.old).emitted (spec.member_built (surroundings_of classes.now) (view_instruction instruction.now) built.old.next (stacked built.old.stack))) }
{
    match instruction {
        Instruction::PushClass(kind) => push_class(alloc, built, kind),
        Instruction::ArrayLoad(element) => read_element(alloc, classes.headers, built, *element),
        Instruction::ArrayStore(element) => write_element(alloc, classes.headers, built, *element),
        Instruction::GetStatic(field) => read_static(alloc, built, field),
        Instruction::PutStatic(field) => write_static(alloc, classes.headers, built, field),
        Instruction::GetField(field) => read_field(alloc, classes.headers, built, field),
        Instruction::PutField(field) => write_field(alloc, classes.headers, built, field),
        Instruction::InvokeVirtual(method) => invoke_object(alloc, classes, built, method),
        Instruction::InvokeInterface(method) => invoke_object(alloc, classes, built, method),
        Instruction::InvokeSpecial(method) => invoke_special(alloc, classes, built, method),
        Instruction::InvokeStatic(method) => invoke_static(alloc, classes, built, method),
        Instruction::NewArray(element) => make_simple(alloc, built, element),
        Instruction::MultiNewArray(kind, sizes) => {
            make_array(alloc, built, kind, usize::from(*sizes))
        }
        Instruction::ArrayLength => read_length(alloc, classes.headers, built),
        Instruction::CheckCast(kind) => check_cast(alloc, classes.headers, built, kind),
        Instruction::InstanceOf(kind) => test_instance(alloc, classes.headers, built, kind),
        Instruction::Nop
        | Instruction::PushNull
        | Instruction::Push(_)
        | Instruction::PushHandle { .. }
        | Instruction::PushMethodType(_)
        | Instruction::Load(_, _)
        | Instruction::Store(_, _)
        | Instruction::Pop
        | Instruction::Pop2
        | Instruction::Dup
        | Instruction::DupX1
        | Instruction::DupX2
        | Instruction::Dup2
        | Instruction::Dup2X1
        | Instruction::Dup2X2
        | Instruction::Swap
        | Instruction::Calc(_, _)
        | Instruction::Iinc(_, _)
        | Instruction::Convert(_, _)
        | Instruction::Compare(_, _)
        | Instruction::IfZero(_, _)
        | Instruction::IfInts(_, _)
        | Instruction::IfRefs(_, _)
        | Instruction::IfNull(_, _)
        | Instruction::Goto(_)
        | Instruction::TableSwitch { .. }
        | Instruction::LookupSwitch { .. }
        | Instruction::Return(_)
        | Instruction::InvokeDynamic { .. }
        | Instruction::New(_)
        | Instruction::Throw
        | Instruction::MonitorEnter
        | Instruction::MonitorExit => Ok(false),
    }
}
