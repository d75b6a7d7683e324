//! What each instruction does to a frame (JVMS 6.5, 4.10.1.9).

ghost use Rattle.std.specs.Prelude.{◌≡◌, ◌∷◌, [], Some, replicate, IfOk};
ghost use Rattle.dj_names.specs.Types.{Array, view_type};
ghost use Rattle.dj_instructions.specs.Instructions.{view_instruction, view_instructions, IsRising};
ghost use Rattle.dj_frames.specs.Frames.{Int, Object, tag_of, view_tag};
ghost use Rattle.dj_code.specs.MethodCode as spec;
ghost use Rattle.dj_code.specs.MethodCode.{view_code};
ghost use Rattle.dj_effects.specs.Works.{Of, Plain};
ghost use Rattle.dj_effects.specs.Rows.{constant_tag, row, work};
ghost use Rattle.dj_effects.specs.Effects.{locals_needed};
ghost use Rattle.dj_effects.specs.Doing.{view_working, AreClasses, IsKnown};
ghost use Rattle.dj_applying.specs.Done.{Did};

use crate::births::make;
use crate::forms::{DUP, DUP_X1, DUP_X2, DUP2, DUP2_X1, DUP2_X2, POP, POP2, SWAP, moves};
use crate::locals::{count, kind_words, load, store};
use crate::rows::{
    calculate, call, call_on, compare, constant_tag, convert, read, returns, special_call, write,
};
use crate::special::set_field;
use crate::taking::{takes_ints, takes_none, takes_one, takes_two};
use dj_code::Code;
use dj_effects::{ClassTags, Known, Want, Working, array, is_spelled};
use dj_frames::Tag;
use dj_instructions::{FieldRef, Instruction};
use dj_names::{Constant, JType};
use dj_tags::Goes;
use std::alloc::{AllocError, Global};

/// Loads a constant.
fn load_constant<G: Goes>(
    alloc: Global,
    goes: &G,
    classes: &ClassTags,
    code: &Code,
    pc: u32,
    frame: &mut Working,
    constant: &Constant,
) -> Result<bool, AllocError>
    requires classes { AreClasses classes.now }
    ensures did { IfOk result (λ done. Did (G.relation goes.now) (G.known goes.now) (view_code code.now) pc (Plain [] (Some (constant_tag constant.now))) (view_working frame.old) done (view_working frame.new)) }
{
    let tag = constant_tag(alloc, classes, constant)?;
    takes_none(goes, code, pc, frame, Some(tag))
}

/// Loads a reference.
fn load_tag<G: Goes>(
    alloc: Global,
    goes: &G,
    code: &Code,
    pc: u32,
    frame: &mut Working,
    tag: &Tag,
) -> Result<bool, AllocError>
    ensures did { IfOk result (λ done. Did (G.relation goes.now) (G.known goes.now) (view_code code.now) pc (Plain [] (Some (view_tag tag.now))) (view_working frame.old) done (view_working frame.new)) }
{
    let tag = tag.copy(alloc)?;
    takes_none(goes, code, pc, frame, Some(tag))
}

/// Reads a static field of a type.
fn get_static<G: Goes>(
    alloc: Global,
    goes: &G,
    code: &Code,
    pc: u32,
    frame: &mut Working,
    kind: &JType,
) -> Result<bool, AllocError>
    ensures did { IfOk result (λ done. Did (G.relation goes.now) (G.known goes.now) (view_code code.now) pc (Plain [] (Some (tag_of (view_type kind.now)))) (view_working frame.old) done (view_working frame.new)) }
{
    let tag = Tag::of_type(alloc, kind)?;
    takes_none(goes, code, pc, frame, Some(tag))
}

/// Reads a field of an object.
fn get_field<G: Goes>(
    alloc: Global,
    goes: &G,
    code: &Code,
    pc: u32,
    frame: &mut Working,
    field: &FieldRef,
) -> Result<bool, AllocError>
    ensures did { IfOk result (λ done. Did (G.relation goes.now) (G.known goes.now) (view_code code.now) pc (Plain (Of (Object (view_type field.now.owner)) ∷ []) (Some (tag_of (view_type field.now.kind)))) (view_working frame.old) done (view_working frame.new)) }
{
    let tag = Tag::of_type(alloc, &field.kind)?;
    takes_one(goes, code, pc, frame, Want::Object(&field.owner), Some(tag))
}

/// Makes an array of such elements.
fn new_array<G: Goes>(
    alloc: Global,
    goes: &G,
    code: &Code,
    pc: u32,
    frame: &mut Working,
    element: &JType,
) -> Result<bool, AllocError>
    ensures did { IfOk result (λ done. Did (G.relation goes.now) (G.known goes.now) (view_code code.now) pc (Plain (Of Int ∷ []) (Some (Object (Array (view_type element.now))))) (view_working frame.old) done (view_working frame.new)) }
{
    let tag = array(alloc, element.copy(alloc)?)?;
    takes_one(goes, code, pc, frame, Want::Of(&Tag::Int), Some(tag))
}

/// Makes an array of so many sizes.
fn new_arrays<G: Goes>(
    alloc: Global,
    goes: &G,
    code: &Code,
    pc: u32,
    frame: &mut Working,
    class: &JType,
    sizes: u8,
) -> Result<bool, AllocError>
    ensures did { IfOk result (λ done. Did (G.relation goes.now) (G.known goes.now) (view_code code.now) pc (Plain (replicate sizes (Of Int)) (Some (Object (view_type class.now)))) (view_working frame.old) done (view_working frame.new)) }
{
    let tag = Tag::Object(class.copy(alloc)?);
    takes_ints(goes, code, pc, frame, sizes, tag)
}

/// Casts an object to a type.
fn cast<G: Goes>(
    alloc: Global,
    goes: &G,
    object: &Tag,
    code: &Code,
    pc: u32,
    frame: &mut Working,
    class: &JType,
) -> Result<bool, AllocError>
    ensures did { IfOk result (λ done. Did (G.relation goes.now) (G.known goes.now) (view_code code.now) pc (Plain (Of (view_tag object.now) ∷ []) (Some (Object (view_type class.now)))) (view_working frame.old) done (view_working frame.new)) }
{
    let tag = Tag::Object(class.copy(alloc)?);
    takes_one(goes, code, pc, frame, Want::Of(object), Some(tag))
}

/// Does what the row of an instruction says.
fn row<G: Goes>(
    alloc: Global,
    goes: &G,
    known: &Known,
    code: &Code,
    pc: u32,
    instruction: &Instruction,
    f: &mut Working,
) -> Result<bool, AllocError>
    requires known { IsKnown known.now }
    requires rising { IsRising (view_instructions code.now.instructions) }
    ensures did { IfOk result (λ done. Did (G.relation goes.now) (G.known goes.now) (view_code code.now) pc (row (view_code code.now) (view_instruction instruction.now)) (view_working f.old) done (view_working f.new)) }
{
    let classes = &known.classes;
    let int = Want::Of(&Tag::Int);
    let any = Want::Reference;
    match instruction {
        Instruction::Nop => takes_none(goes, code, pc, f, None),
        Instruction::PushNull => takes_none(goes, code, pc, f, Some(Tag::Null)),
        Instruction::Push(c) => load_constant(alloc, goes, classes, code, pc, f, c),
        Instruction::PushClass(_) => load_tag(alloc, goes, code, pc, f, &classes.class),
        Instruction::PushHandle { .. } => load_tag(alloc, goes, code, pc, f, &classes.handle),
        Instruction::PushMethodType(_) => load_tag(alloc, goes, code, pc, f, &classes.method_type),
        Instruction::Load(kind, slot) => load(alloc, goes, code, pc, f, *kind, *slot),
        Instruction::Store(kind, slot) => store(alloc, goes, code, pc, f, *kind, *slot),
        Instruction::ArrayLoad(of) => read(alloc, goes, &known.arrays, code, pc, f, *of),
        Instruction::ArrayStore(of) => write(goes, known, code, pc, f, *of),
        Instruction::Pop => moves(alloc, goes, code, pc, f, &POP),
        Instruction::Pop2 => moves(alloc, goes, code, pc, f, &POP2),
        Instruction::Dup => moves(alloc, goes, code, pc, f, &DUP),
        Instruction::DupX1 => moves(alloc, goes, code, pc, f, &DUP_X1),
        Instruction::DupX2 => moves(alloc, goes, code, pc, f, &DUP_X2),
        Instruction::Dup2 => moves(alloc, goes, code, pc, f, &DUP2),
        Instruction::Dup2X1 => moves(alloc, goes, code, pc, f, &DUP2_X1),
        Instruction::Dup2X2 => moves(alloc, goes, code, pc, f, &DUP2_X2),
        Instruction::Swap => moves(alloc, goes, code, pc, f, &SWAP),
        Instruction::Calc(calc, kind) => calculate(goes, code, pc, f, *calc, *kind),
        Instruction::Iinc(slot, _) => Ok(count(goes, code, pc, f, *slot)),
        Instruction::Convert(from, to) => convert(alloc, goes, code, pc, f, *from, to),
        Instruction::Compare(kind, _) => compare(goes, code, pc, f, *kind),
        Instruction::IfZero(..) => takes_one(goes, code, pc, f, int, None),
        Instruction::IfInts(..) => takes_two(goes, code, pc, f, int, int, None),
        Instruction::IfRefs(..) => takes_two(goes, code, pc, f, any, any, None),
        Instruction::IfNull(..) => takes_one(goes, code, pc, f, any, None),
        Instruction::Goto(_) => takes_none(goes, code, pc, f, None),
        Instruction::TableSwitch { .. } => takes_one(goes, code, pc, f, int, None),
        Instruction::LookupSwitch { .. } => takes_one(goes, code, pc, f, int, None),
        Instruction::Return(kind) => returns(goes, code, pc, f, *kind),
        Instruction::GetStatic(field) => get_static(alloc, goes, code, pc, f, &field.kind),
        Instruction::PutStatic(field) => {
            takes_one(goes, code, pc, f, Want::Value(&field.kind), None)
        }
        Instruction::GetField(field) => get_field(alloc, goes, code, pc, f, field),
        Instruction::PutField(field) => {
            Ok(set_field(goes, code, pc, f, &field.kind, &field.owner))
        }
        Instruction::InvokeVirtual(m) => call_on(alloc, goes, code, pc, f, m),
        Instruction::InvokeSpecial(m) => special_call(alloc, goes, code, pc, f, m),
        Instruction::InvokeStatic(m) => call(alloc, goes, code, pc, f, &m.descriptor, &[]),
        Instruction::InvokeInterface(m) => call_on(alloc, goes, code, pc, f, m),
        Instruction::InvokeDynamic { descriptor, .. } => {
            call(alloc, goes, code, pc, f, descriptor, &[])
        }
        Instruction::New(_) => make(alloc, goes, code, pc, f),
        Instruction::NewArray(element) => new_array(alloc, goes, code, pc, f, element),
        Instruction::MultiNewArray(class, sizes) => {
            new_arrays(alloc, goes, code, pc, f, class, *sizes)
        }
        Instruction::ArrayLength => { takes_one(goes, code, pc, f, Want::AnyArray, Some(Tag::Int)) }
        Instruction::Throw => takes_one(goes, code, pc, f, Want::Of(&classes.throwable), None),
        Instruction::CheckCast(class) => { cast(alloc, goes, &classes.object, code, pc, f, class) }
        Instruction::InstanceOf(_) => {
            takes_one(goes, code, pc, f, Want::Of(&classes.object), Some(Tag::Int))
        }
        Instruction::MonitorEnter => takes_one(goes, code, pc, f, any, None),
        Instruction::MonitorExit => takes_one(goes, code, pc, f, any, None),
    }
}

/// Does what an instruction does to a frame, and tells whether its operands were there; where they
/// weren't, the frame is of no more use.
pub fn apply<G: Goes>(
    alloc: Global,
    goes: &G,
    known: &Known,
    code: &Code,
    pc: u32,
    instruction: &Instruction,
    frame: &mut Working,
) -> Result<bool, AllocError>
    requires known { IsKnown known.now }
    requires rising { IsRising (view_instructions code.now.instructions) }
    ensures did { IfOk result (λ done. Did (G.relation goes.now) (G.known goes.now) (view_code code.now) pc (work (view_code code.now) (view_instruction instruction.now)) (view_working frame.old) done (view_working frame.new)) }
{
    if !is_spelled(instruction) {
        return Ok(false);
    }
    let done = row(alloc, goes, known, code, pc, instruction, frame)?;
    Ok(done)
}

/// How many locals a method must have for what the instruction stores.
pub fn locals_needed(instruction: &Instruction) -> usize
    ensures needed { (code : spec.Code) → result ≡ locals_needed (work code (view_instruction instruction.now)) }
{
    match instruction {
        Instruction::Store(kind, slot) => usize::from(*slot) + kind_words(*kind),
        Instruction::Nop
        | Instruction::PushNull
        | Instruction::Push(_)
        | Instruction::PushClass(_)
        | Instruction::PushHandle { .. }
        | Instruction::PushMethodType(_)
        | Instruction::Load(..)
        | Instruction::ArrayLoad(_)
        | Instruction::ArrayStore(_)
        | Instruction::Pop
        | Instruction::Pop2
        | Instruction::Dup
        | Instruction::DupX1
        | Instruction::DupX2
        | Instruction::Dup2
        | Instruction::Dup2X1
        | Instruction::Dup2X2
        | Instruction::Swap
        | Instruction::Calc(..)
        | Instruction::Iinc(..)
        | Instruction::Convert(..)
        | Instruction::Compare(..)
        | Instruction::IfZero(..)
        | Instruction::IfInts(..)
        | Instruction::IfRefs(..)
        | Instruction::IfNull(..)
        | Instruction::Goto(_)
        | Instruction::TableSwitch { .. }
        | Instruction::LookupSwitch { .. }
        | Instruction::Return(_)
        | Instruction::GetStatic(_)
        | Instruction::PutStatic(_)
        | Instruction::GetField(_)
        | Instruction::PutField(_)
        | Instruction::InvokeVirtual(_)
        | Instruction::InvokeSpecial(_)
        | Instruction::InvokeStatic(_)
        | Instruction::InvokeInterface(_)
        | Instruction::InvokeDynamic { .. }
        | Instruction::New(_)
        | Instruction::NewArray(_)
        | Instruction::MultiNewArray(..)
        | Instruction::ArrayLength
        | Instruction::Throw
        | Instruction::CheckCast(_)
        | Instruction::InstanceOf(_)
        | Instruction::MonitorEnter
        | Instruction::MonitorExit => 0,
    }
}
