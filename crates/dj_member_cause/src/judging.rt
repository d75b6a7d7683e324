//! Which instructions have their member, whatever their receiver is, or where it is `this`.

ghost use Rattle.std.specs.Prelude.{◌≡◌, ◌↔◌, true, false, IsTrue, IfOk};
ghost use Rattle.std.specs.Option.{option_map, option_copied};
ghost use Rattle.dj_names.specs.MethodNames.{is_constructor};
ghost use Rattle.dj_names.specs.Types.{Class, view_type};
ghost use Rattle.dj_frames.specs.Frames.{view_tag, view_frame};
ghost use Rattle.dj_instructions.specs.Instructions.{view_instruction, view_method_ref, InvokeSpecial};
ghost use Rattle.dj_world.specs.Clashes.{IsLawful};
ghost use Rattle.dj_member_cause.specs.Lawful.{receiver_tag};
ghost use Rattle.dj_member_cause.specs.Deciding.{judged_of, IsNamedBy, IsJudged, Constructs, IsOwn};

use crate::above::calls_above;
use crate::fields::{names_field, reads_static, writes_field, writes_static};
use crate::methods::{calls_class, calls_construct, calls_new, calls_object, parameters_in};
use dj_code::{Frame, Instruction, MethodRef, Tag};
use dj_instructions::FieldRef;
use dj_names::{JType, is_constructor};
use dj_static::Classes;
use dj_values::InvokeKind;
use std::alloc::{AllocError, Global};

/// What is told of an instruction.
#[derive(Clone, Copy)]
pub enum Judgement {
    /// It has its member.
    Has,
    /// It lacks its member.
    Lacks,
    /// It has its member where its receiver is `this`.
    OnThis,
}

/// What an instruction names, and what it does there.
#[derive(Clone, Copy)]
pub enum Named<'a> {
    ReadStatic(&'a FieldRef),
    WriteStatic(&'a FieldRef),
    Read(&'a FieldRef),
    Write(&'a FieldRef),
    Virtual(&'a MethodRef),
    Interface(&'a MethodRef),
    Static(&'a MethodRef),
    Special(&'a MethodRef),
    Nothing,
}

/// What an instruction names.
pub fn names_of(instruction: &Instruction) -> Named<'_>
    ensures named { IsNamedBy (view_instruction instruction.now) result }
{
    match instruction {
        Instruction::GetStatic(field) => Named::ReadStatic(field),
        Instruction::PutStatic(field) => Named::WriteStatic(field),
        Instruction::GetField(field) => Named::Read(field),
        Instruction::PutField(field) => Named::Write(field),
        Instruction::InvokeVirtual(method) => Named::Virtual(method),
        Instruction::InvokeInterface(method) => Named::Interface(method),
        Instruction::InvokeStatic(method) => Named::Static(method),
        Instruction::InvokeSpecial(method) => Named::Special(method),
        Instruction::Nop
        | Instruction::PushNull
        | Instruction::Push(_)
        | Instruction::PushClass(_)
        | Instruction::PushHandle { .. }
        | Instruction::PushMethodType(_)
        | Instruction::Load(_, _)
        | Instruction::Store(_, _)
        | Instruction::ArrayLoad(_)
        | Instruction::ArrayStore(_)
        | Instruction::Pop
        | Instruction::Pop2
        | Instruction::Dup
        | Instruction::DupX1
        | Instruction::DupX2
        | Instruction::Dup2
        | Instruction::Dup2X1
        | Instruction::Dup2X2
        | Instruction::Swap
        | Instruction::Calc(_, _)
        | Instruction::Iinc(_, _)
        | Instruction::Convert(_, _)
        | Instruction::Compare(_, _)
        | Instruction::IfZero(_, _)
        | Instruction::IfInts(_, _)
        | Instruction::IfRefs(_, _)
        | Instruction::IfNull(_, _)
        | Instruction::Goto(_)
        | Instruction::TableSwitch { .. }
        | Instruction::LookupSwitch { .. }
        | Instruction::Return(_)
        | Instruction::InvokeDynamic { .. }
        | Instruction::New(_)
        | Instruction::NewArray(_)
        | Instruction::MultiNewArray(_, _)
        | Instruction::ArrayLength
        | Instruction::Throw
        | Instruction::CheckCast(_)
        | Instruction::InstanceOf(_)
        | Instruction::MonitorEnter
        | Instruction::MonitorExit => Named::Nothing,
    }
}

/// What is told of an instruction that has its member or lacks it.
fn judged(has: bool) -> Judgement
    ensures judged { result ≡ judged_of has }
{
    if has {
        Judgement::Has
    } else {
        Judgement::Lacks
    }
}

/// What stands on the stack under the arguments of a call.
fn receiver_tag<'a>(method: &MethodRef, frame: &'a Frame) -> Option<&'a Tag>
    ensures tag { option_map view_tag (option_copied result) ≡ receiver_tag (view_method_ref method.now) (view_frame frame.now) }
{
    let count = parameters_in(&method.descriptor).len();
    let height = frame.stack.len();
    if count < height {
        frame.stack.get(height - 1 - count)
    } else {
        None
    }
}

/// Whether a method is a constructor, and meant where it is called on what stands there.
fn constructs(
    alloc: Global,
    classes: &Classes<'_>,
    method: &MethodRef,
    frame: &Frame,
) -> Result<bool, AllocError>
    requires lawful { IsLawful classes.now.headers.now }
    requires constructs { is_constructor (view_method_ref method.now).name ≡ true }
    ensures constructs { IfOk result (λ constructs. IsTrue constructs ↔ Constructs classes.now (view_frame frame.now) (view_method_ref method.now)) }
{
    match receiver_tag(method, frame) {
        Some(Tag::Unborn(_)) => {
            let calls = calls_new(alloc, classes, method)?;
            Ok(calls)
        }
        Some(Tag::UnbornThis) => {
            let calls = calls_construct(alloc, classes, method)?;
            Ok(calls)
        }
        Some(
            Tag::Top | Tag::Int | Tag::Float | Tag::Double | Tag::Long | Tag::Null | Tag::Object(_),
        )
        | None => Ok(false),
    }
}

/// Whether a type is the class in which names stand.
fn is_from(classes: &Classes<'_>, owner: &JType) -> bool
    ensures own { IsTrue result ↔ (view_type owner.now ≡ Class classes.now.from.now) }
{
    match owner {
        JType::Class(class) => class == classes.from,
        JType::Boolean
        | JType::Byte
        | JType::Char
        | JType::Short
        | JType::Int
        | JType::Long
        | JType::Float
        | JType::Double
        | JType::Array(_) => false,
    }
}

/// Whether a method is a private one of this class, and meant.
fn calls_own(alloc: Global, classes: &Classes<'_>, method: &MethodRef) -> Result<bool, AllocError>
    requires lawful { IsLawful classes.now.headers.now }
    ensures own { IfOk result (λ own. IsTrue own ↔ IsOwn classes.now (view_method_ref method.now)) }
{
    if !is_from(classes, &method.owner) {
        return Ok(false);
    }
    let calls = calls_object(alloc, classes, InvokeKind::Special, method)?;
    Ok(calls)
}

/// What is told of `invokespecial` of a method that is no constructor.
fn judge_plain(
    alloc: Global,
    classes: &Classes<'_>,
    method: &MethodRef,
    frame: &Frame,
) -> Result<Judgement, AllocError>
    requires lawful { IsLawful classes.now.headers.now }
    requires plain { is_constructor (view_method_ref method.now).name ≡ false }
    ensures judged { IfOk result (IsJudged classes.now (view_frame frame.now) (InvokeSpecial (view_method_ref method.now))) }
{
    let own = calls_own(alloc, classes, method)?;
    if own {
        return Ok(Judgement::Has);
    }
    let above = calls_above(alloc, classes, method)?;
    if above {
        Ok(Judgement::OnThis)
    } else {
        Ok(Judgement::Lacks)
    }
}

/// What is told of `invokespecial`.
fn judge_special(
    alloc: Global,
    classes: &Classes<'_>,
    method: &MethodRef,
    frame: &Frame,
) -> Result<Judgement, AllocError>
    requires lawful { IsLawful classes.now.headers.now }
    ensures judged { IfOk result (IsJudged classes.now (view_frame frame.now) (InvokeSpecial (view_method_ref method.now))) }
{
    if is_constructor(&method.name) {
        let has = constructs(alloc, classes, method, frame)?;
        Ok(judged(has))
    } else {
        let told = judge_plain(alloc, classes, method, frame)?;
        Ok(told)
    }
}

/// What is told of an instruction, with the frame before it.
pub fn judge(
    alloc: Global,
    classes: &Classes<'_>,
    instruction: &Instruction,
    frame: &Frame,
) -> Result<Judgement, AllocError>
    requires lawful { IsLawful classes.now.headers.now }
    ensures judged { IfOk result (IsJudged classes.now (view_frame frame.now) (view_instruction instruction.now)) }
{
    match names_of(instruction) {
        Named::ReadStatic(field) => {
            let has = reads_static(alloc, classes, field)?;
            Ok(judged(has))
        }
        Named::WriteStatic(field) => {
            let has = writes_static(alloc, classes, field)?;
            Ok(judged(has))
        }
        Named::Read(field) => {
            let has = names_field(alloc, classes, field)?;
            Ok(judged(has))
        }
        Named::Write(field) => {
            let has = writes_field(alloc, classes, field)?;
            Ok(judged(has))
        }
        Named::Virtual(method) => {
            let has = calls_object(alloc, classes, InvokeKind::Virtual, method)?;
            Ok(judged(has))
        }
        Named::Interface(method) => {
            let has = calls_object(alloc, classes, InvokeKind::Interface, method)?;
            Ok(judged(has))
        }
        Named::Static(method) => {
            let has = calls_class(alloc, classes, method)?;
            Ok(judged(has))
        }
        Named::Special(method) => {
            let told = judge_special(alloc, classes, method, frame)?;
            Ok(told)
        }
        Named::Nothing => Ok(Judgement::Has),
    }
}
