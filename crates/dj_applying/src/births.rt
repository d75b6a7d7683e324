//! Objects made and constructed (JVMS 4.10.1.9, `new` and `invokespecial`).

ghost use Rattle.std.specs.Prelude.{◌≡◌, ◌↔◌, false, IsTrue, IfOk, OnOk, drop};
ghost use Rattle.dj_names.specs.Types.{Class, view_type, view_types};
ghost use Rattle.dj_instructions.specs.Instructions.{view_instructions, IsRising};
ghost use Rattle.dj_frames.specs.Frames.{Object, is_unborn_this, view_tag, view_tags, is_unborn_at, is_unborn};
ghost use Rattle.dj_code.specs.MethodCode.{view_code};
ghost use Rattle.dj_effects.specs.Works.{Makes, Bears};
ghost use Rattle.dj_effects.specs.Rows.{arguments};
ghost use Rattle.dj_effects.specs.Operands.{IsNewOf, ConstructsThis};
ghost use Rattle.dj_effects.specs.Effects.{with_born};
ghost use Rattle.dj_effects.specs.Doing.{view_working, unborn_of, unborn_on};
ghost use Rattle.dj_applying.specs.Done.{Did};

use crate::taking::has_arguments;
use dj_code::Code;
use dj_effects::{Stack, Working, replace_all};
use dj_frames::{Tag, Unborn};
use dj_headers::Headers;
use dj_instructions::{Instruction, instruction_at};
use dj_names::{ClassName, JType};
use dj_tags::{Goes, is_unknown, superclass_of};
use std::alloc::{AllocError, Global};

/// Makes an object that isn't constructed yet.
pub fn make<G: Goes>(
    alloc: Global,
    _goes: &G,
    code: &Code,
    pc: u32,
    frame: &mut Working,
) -> Result<bool, AllocError>
    ensures did { IfOk result (λ done. Did (G.relation _goes.now) (G.known _goes.now) (view_code code.now) pc Makes (view_working frame.old) done (view_working frame.new)) }
{
    if frame.stack.holds(Unborn::At(pc)) {
        return Ok(false);
    }
    replace_all(alloc, &mut frame.locals, Unborn::At(pc), &Tag::Top)?;
    frame.stack.push(Tag::Unborn(pc))?;
    Ok(true)
}

/// Whether the instruction at a pc is the `new` of this type.
fn is_new_of(code: &Code, pc: u32, owner: &JType) -> bool
    requires rising { IsRising (view_instructions code.now.instructions) }
    ensures new { IsTrue result ↔ IsNewOf (view_code code.now) pc (view_type owner.now) }
{
    match instruction_at(code.instructions.as_slice(), pc) {
        Some(Instruction::New(class)) => matches!(owner, JType::Class(name) if name == class),
        _ => false,
    }
}

/// Whether the type is this class.
pub fn is_class(kind: &JType, class: &ClassName) -> bool
    ensures class { IsTrue result ↔ (view_type kind.now ≡ Class class.now) }
{
    matches!(kind, JType::Class(name) if name == class)
}

/// Whether a constructor of this type may be called on `this`.
fn constructs_this(headers: &Headers, class: &ClassName, owner: &JType) -> bool
    ensures constructs { IsTrue result ↔ ConstructsThis headers.now class.now (view_type owner.now) }
{
    if is_class(owner, class) {
        return true;
    }
    if is_unknown(headers, class) {
        return matches!(owner, JType::Class(_));
    }
    match superclass_of(headers, class) {
        Some(upper) => is_class(owner, upper),
        None => false,
    }
}

/// The object that a tag tells of, where it isn't constructed yet.
fn unborn_of(tag: &Tag) -> Option<Unborn>
    ensures unborn { result ≡ unborn_of (view_tag tag.now) }
{
    match tag {
        Tag::UnbornThis => Some(Unborn::This),
        Tag::Unborn(pc) => Some(Unborn::At(*pc)),
        Tag::Top | Tag::Int | Tag::Float | Tag::Double | Tag::Long | Tag::Null | Tag::Object(_) =>
            None,
    }
}

/// The object on top of the stack, where it isn't constructed yet.
fn unborn_on(stack: &Stack) -> Option<Unborn>
    ensures unborn { result ≡ unborn_on (view_tags stack.now) }
{
    match stack.peek(0) {
        Some(tag) => unborn_of(tag),
        None => None,
    }
}

/// Takes the object from the stack, and puts a tag in its place wherever else it is held.
fn construct(
    alloc: Global,
    frame: &mut Working,
    unborn: Unborn,
    now: &Tag,
) -> Result<(), AllocError>
    ensures ok { OnOk result (view_working frame.new ≡ with_born (is_unborn unborn) (view_tag now.now) frame.old.unborn_this (view_working frame.old) (drop 1 (view_tags frame.old.stack))) }
{
    frame.stack.remove(1);
    frame.stack.replace(alloc, unborn, now)?;
    replace_all(alloc, &mut frame.locals, unborn, now)?;
    Ok(())
}

/// Calls a constructor on `this`, which is on top of the stack.
fn bear_this<G: Goes>(
    alloc: Global,
    goes: &G,
    code: &Code,
    frame: &mut Working,
    owner: &JType,
) -> Result<bool, AllocError>
    ensures may { IfOk result (λ done. IsTrue done ↔ ConstructsThis (G.known goes.now) code.now.class (view_type owner.now)) }
    ensures born { IfOk result (λ done. IsTrue done → view_working frame.new ≡ with_born is_unborn_this (Object (Class code.now.class)) false (view_working frame.old) (drop 1 (view_tags frame.old.stack))) }
{
    if !constructs_this(goes.headers(), &code.class, owner) {
        return Ok(false);
    }
    let now = Tag::Object(JType::Class(code.class.copy(alloc)?));
    construct(alloc, frame, Unborn::This, &now)?;
    frame.unborn_this = false;
    Ok(true)
}

/// Calls a constructor on what the `new` at a pc made, which is on top of the stack.
fn bear_at(
    alloc: Global,
    code: &Code,
    frame: &mut Working,
    pc: u32,
    owner: &JType,
) -> Result<bool, AllocError>
    requires rising { IsRising (view_instructions code.now.instructions) }
    ensures may { IfOk result (λ done. IsTrue done ↔ IsNewOf (view_code code.now) pc (view_type owner.now)) }
    ensures born { IfOk result (λ done. IsTrue done → view_working frame.new ≡ with_born (is_unborn_at pc) (Object (view_type owner.now)) frame.old.unborn_this (view_working frame.old) (drop 1 (view_tags frame.old.stack))) }
{
    if !is_new_of(code, pc, owner) {
        return Ok(false);
    }
    let now = Tag::Object(owner.copy(alloc)?);
    construct(alloc, frame, Unborn::At(pc), &now)?;
    Ok(true)
}

/// Calls a constructor of a type on what lies below the arguments.
pub fn bear<G: Goes>(
    alloc: Global,
    goes: &G,
    code: &Code,
    _pc: u32,
    frame: &mut Working,
    parameters: &[JType],
    owner: &JType,
) -> Result<bool, AllocError>
    requires rising { IsRising (view_instructions code.now.instructions) }
    ensures did { IfOk result (λ done. Did (G.relation goes.now) (G.known goes.now) (view_code code.now) _pc (Bears (arguments (view_types parameters.now)) (view_type owner.now)) (view_working frame.old) done (view_working frame.new)) }
{
    if !has_arguments(goes, &frame.stack, parameters) {
        return Ok(false);
    }
    frame.stack.remove(parameters.len());
    match unborn_on(&frame.stack) {
        Some(Unborn::This) => {
            let done = bear_this(alloc, goes, code, frame, owner)?;
            Ok(done)
        }
        Some(Unborn::At(at)) => {
            let done = bear_at(alloc, code, frame, at, owner)?;
            Ok(done)
        }
        None => Ok(false),
    }
}
