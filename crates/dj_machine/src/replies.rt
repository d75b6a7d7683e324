//! What each strict instruction makes of its operands (JVMS 6.5).

ghost use Rattle.std.specs.Prelude.{◌≡◌, IfOk};
ghost use Rattle.dj_values.specs.Views.{view_values};
ghost use Rattle.dj_instructions.specs.Instructions.{view_instruction};
ghost use Rattle.dj_bytecode.specs.Meanings.{meaning_of};
ghost use Rattle.dj_operands.specs.Replies.{view_reply, operation_of};

use crate::arrays::{array_length, load_element, make_array, make_row, store_element};
use crate::calls::{call_on, call_special, call_static};
use crate::members::{
    cast, constant, enter, exit, get_field, get_static, instance_of, put_field, put_static, throw,
};
use dj_code::Instruction;
use dj_headers::Headers;
use dj_names::ClassName;
use dj_operands::{Reply, calculate, compare, convert};
use dj_values::{Action, InvokeKind, Value};
use std::alloc::{AllocError, Global};

/// What a strict instruction of a class's method makes of its operands; another one is stuck.
pub fn reply_to(
    alloc: Global,
    headers: &Headers,
    class: &ClassName,
    instruction: &Instruction,
    operands: &[Value],
) -> Result<Reply, AllocError>
    ensures replied { IfOk result (λ reply. view_reply reply ≡ operation_of (meaning_of headers.now class.now (view_instruction instruction.now)) (view_values operands.now)) }
{
    match instruction {
        Instruction::Nop => Ok(Reply::Gives(None)),
        Instruction::PushNull => Ok(Reply::Gives(Some(Value::Null))),
        Instruction::Push(value) => constant(alloc, value),
        Instruction::PushClass(kind) => Ok(Reply::Asks(Action::ClassConstant(kind.copy(alloc)?))),
        Instruction::ArrayLoad(_) => load_element(alloc, operands),
        Instruction::ArrayStore(_) => store_element(alloc, headers, operands),
        Instruction::Calc(operation, kind) => Ok(calculate(*operation, *kind, operands)),
        Instruction::Convert(from, to) => Ok(convert(*from, to, operands)),
        Instruction::Compare(kind, _) => Ok(compare(*kind, operands)),
        Instruction::GetStatic(field) => get_static(alloc, field),
        Instruction::PutStatic(field) => put_static(alloc, field, operands),
        Instruction::GetField(field) => get_field(alloc, field, operands),
        Instruction::PutField(field) => put_field(alloc, field, operands),
        Instruction::InvokeVirtual(method) => {
            call_on(alloc, InvokeKind::Virtual, &method.owner, method, operands)
        }
        Instruction::InvokeSpecial(method) => {
            call_special(alloc, headers, class, method, operands)
        }
        Instruction::InvokeStatic(method) => call_static(alloc, method, operands),
        Instruction::InvokeInterface(method) => {
            call_on(
                alloc,
                InvokeKind::Interface,
                &method.owner,
                method,
                operands,
            )
        }
        Instruction::New(name) => Ok(Reply::Asks(Action::New(name.copy(alloc)?))),
        Instruction::NewArray(element) => make_row(alloc, element, operands),
        Instruction::MultiNewArray(kind, _) => make_array(alloc, kind.copy(alloc)?, operands),
        Instruction::ArrayLength => Ok(array_length(operands)),
        Instruction::Throw => throw(alloc, operands),
        Instruction::CheckCast(kind) => cast(alloc, headers, kind, operands),
        Instruction::InstanceOf(kind) => Ok(instance_of(headers, kind, operands)),
        Instruction::MonitorEnter => enter(alloc, operands),
        Instruction::MonitorExit => exit(alloc, operands),
        Instruction::PushHandle { .. }
        | Instruction::PushMethodType(_)
        | Instruction::Load(_, _)
        | Instruction::Store(_, _)
        | Instruction::Pop
        | Instruction::Pop2
        | Instruction::Dup
        | Instruction::DupX1
        | Instruction::DupX2
        | Instruction::Dup2
        | Instruction::Dup2X1
        | Instruction::Dup2X2
        | Instruction::Swap
        | Instruction::Iinc(_, _)
        | Instruction::IfZero(_, _)
        | Instruction::IfInts(_, _)
        | Instruction::IfRefs(_, _)
        | Instruction::IfNull(_, _)
        | Instruction::Goto(_)
        | Instruction::TableSwitch { .. }
        | Instruction::LookupSwitch { .. }
        | Instruction::Return(_)
        | Instruction::InvokeDynamic { .. } => Ok(Reply::Stuck),
    }
}
