//! What families of instructions do to a frame (JVMS 6.5, 4.10.1.9).

ghost use Rattle.std.specs.Prelude.{◌≡◌, ◌∷◌, [], Some, option_map, IfOk};
ghost use Rattle.std.specs.Option.{option_copied};
ghost use Rattle.dj_names.specs.Types.{view_type, view_types, view_descriptor, parameters_of, result_of};
ghost use Rattle.dj_frames.specs.Frames.{Int, Object, view_tag, tag_of};
ghost use Rattle.dj_instructions.specs.Instructions.{InvokeSpecial, view_instructions, view_method_ref, IsRising};
ghost use Rattle.dj_code.specs.MethodCode.{view_code};
ghost use Rattle.dj_effects.specs.Works.{Plain, Of};
ghost use Rattle.dj_effects.specs.Rows as rows;
ghost use Rattle.dj_effects.specs.Rows.{row, number_tag, of_number, constant_tag, kind_of, operands};
ghost use Rattle.dj_effects.specs.Doing.{view_wants, view_working, AreArrays, AreClasses, IsKnown};
ghost use Rattle.dj_applying.specs.Done.{Did};

use crate::births::bear;
use crate::special::{element, leave, super_call};
use crate::taking;
use crate::taking::{takes_one, takes_three, takes_two};
use dj_code::Code;
use dj_effects::{ArrayTags, ClassTags, Known, Want, Working, is_kind};
use dj_frames::Tag;
use dj_instructions::{Calc, Element, Kind, MethodRef};
use dj_names::{Constant, Descriptor, JType, is_constructor};
use dj_tags::Goes;
use std::alloc::{AllocError, Global};

/// The tag of a kind of numbers.
fn number_tag(kind: Kind) -> Option<Tag>
    ensures tag { option_map view_tag result ≡ number_tag kind }
{
    match kind {
        Kind::Int => Some(Tag::Int),
        Kind::Long => Some(Tag::Long),
        Kind::Float => Some(Tag::Float),
        Kind::Double => Some(Tag::Double),
        Kind::Ref => None,
    }
}

/// What is pushed for a constant.
pub fn constant_tag(
    alloc: Global,
    classes: &ClassTags,
    constant: &Constant,
) -> Result<Tag, AllocError>
    requires classes { AreClasses classes.now }
    ensures tag { IfOk result (λ tag. view_tag tag ≡ constant_tag constant.now) }
{
    match constant {
        Constant::Int(_) => Ok(Tag::Int),
        Constant::Long(_) => Ok(Tag::Long),
        Constant::Text(_) => Ok(classes.string.copy(alloc)?),
        Constant::Float(_) => Ok(Tag::Float),
        Constant::Double(_) => Ok(Tag::Double),
    }
}

/// The kind of a type's values.
fn kind_of(kind: &JType) -> Kind
    ensures kind { result ≡ kind_of (view_type kind.now) }
{
    match kind {
        JType::Boolean | JType::Byte | JType::Char | JType::Short | JType::Int => Kind::Int,
        JType::Long => Kind::Long,
        JType::Float => Kind::Float,
        JType::Double => Kind::Double,
        JType::Class(_) | JType::Array(_) => Kind::Ref,
    }
}

/// A calculation on numbers of a tag, which gives one.
fn calculate_with<G: Goes>(
    goes: &G,
    code: &Code,
    pc: u32,
    frame: &mut Working,
    calc: Calc,
    tag: &Tag,
    gives: Option<Tag>,
) -> Result<bool, AllocError>
    ensures did { IfOk result (λ done. Did (G.relation goes.now) (G.known goes.now) (view_code code.now) pc (Plain (operands calc (view_tag tag.now)) (option_map view_tag gives)) (view_working frame.old) done (view_working frame.new)) }
{
    let want = Want::Of(tag);
    match calc {
        Calc::Add => takes_two(goes, code, pc, frame, want, want, gives),
        Calc::Sub => takes_two(goes, code, pc, frame, want, want, gives),
        Calc::Mul => takes_two(goes, code, pc, frame, want, want, gives),
        Calc::Div => takes_two(goes, code, pc, frame, want, want, gives),
        Calc::Rem => takes_two(goes, code, pc, frame, want, want, gives),
        Calc::Neg => takes_one(goes, code, pc, frame, want, gives),
        Calc::Shl => takes_two(goes, code, pc, frame, Want::Of(&Tag::Int), want, gives),
        Calc::Shr => takes_two(goes, code, pc, frame, Want::Of(&Tag::Int), want, gives),
        Calc::Ushr => takes_two(goes, code, pc, frame, Want::Of(&Tag::Int), want, gives),
        Calc::And => takes_two(goes, code, pc, frame, want, want, gives),
        Calc::Or => takes_two(goes, code, pc, frame, want, want, gives),
        Calc::Xor => takes_two(goes, code, pc, frame, want, want, gives),
    }
}

/// A calculation on numbers of a kind.
pub fn calculate<G: Goes>(
    goes: &G,
    code: &Code,
    pc: u32,
    frame: &mut Working,
    calc: Calc,
    kind: Kind,
) -> Result<bool, AllocError>
    ensures did { IfOk result (λ done. Did (G.relation goes.now) (G.known goes.now) (view_code code.now) pc (of_number (number_tag kind) (λ tag. Plain (operands calc tag) (Some tag))) (view_working frame.old) done (view_working frame.new)) }
{
    match number_tag(kind) {
        Some(tag) => calculate_with(goes, code, pc, frame, calc, &tag, number_tag(kind)),
        None => Ok(false),
    }
}

/// A conversion from numbers of a kind to a type.
pub fn convert<G: Goes>(
    alloc: Global,
    goes: &G,
    code: &Code,
    pc: u32,
    frame: &mut Working,
    from: Kind,
    to: &JType,
) -> Result<bool, AllocError>
    ensures did { IfOk result (λ done. Did (G.relation goes.now) (G.known goes.now) (view_code code.now) pc (of_number (number_tag from) (λ tag. Plain (Of tag ∷ []) (Some (tag_of (view_type to.now))))) (view_working frame.old) done (view_working frame.new)) }
{
    match number_tag(from) {
        Some(tag) => {
            let gives = Tag::of_type(alloc, to)?;
            takes_one(goes, code, pc, frame, Want::Of(&tag), Some(gives))
        }
        None => Ok(false),
    }
}

/// A comparison of numbers of a kind.
pub fn compare<G: Goes>(
    goes: &G,
    code: &Code,
    pc: u32,
    frame: &mut Working,
    kind: Kind,
) -> Result<bool, AllocError>
    ensures did { IfOk result (λ done. Did (G.relation goes.now) (G.known goes.now) (view_code code.now) pc (of_number (number_tag kind) (λ tag. Plain (Of tag ∷ Of tag ∷ []) (Some Int))) (view_working frame.old) done (view_working frame.new)) }
{
    match number_tag(kind) {
        Some(tag) => {
            let want = Want::Of(&tag);
            takes_two(goes, code, pc, frame, want, want, Some(Tag::Int))
        }
        None => Ok(false),
    }
}

/// Reads an element of an array.
pub fn read<G: Goes>(
    alloc: Global,
    goes: &G,
    arrays: &ArrayTags,
    code: &Code,
    pc: u32,
    f: &mut Working,
    of: Element,
) -> Result<bool, AllocError>
    requires arrays { AreArrays arrays.now }
    ensures did { IfOk result (λ done. Did (G.relation goes.now) (G.known goes.now) (view_code code.now) pc (rows.read of) (view_working f.old) done (view_working f.new)) }
{
    let index = Want::Of(&Tag::Int);
    match of {
        Element::Int => takes_two(
            goes,
            code,
            pc,
            f,
            index,
            Want::Of(&arrays.ints),
            Some(Tag::Int),
        ),
        Element::Long => {
            takes_two(
                goes,
                code,
                pc,
                f,
                index,
                Want::Of(&arrays.longs),
                Some(Tag::Long),
            )
        }
        Element::Float => {
            takes_two(
                goes,
                code,
                pc,
                f,
                index,
                Want::Of(&arrays.floats),
                Some(Tag::Float),
            )
        }
        Element::Double => {
            takes_two(
                goes,
                code,
                pc,
                f,
                index,
                Want::Of(&arrays.doubles),
                Some(Tag::Double),
            )
        }
        Element::Ref => element(alloc, goes, code, pc, f),
        Element::Byte => takes_two(goes, code, pc, f, index, Want::ByteArray, Some(Tag::Int)),
        Element::Char => takes_two(
            goes,
            code,
            pc,
            f,
            index,
            Want::Of(&arrays.chars),
            Some(Tag::Int),
        ),
        Element::Short => takes_two(
            goes,
            code,
            pc,
            f,
            index,
            Want::Of(&arrays.shorts),
            Some(Tag::Int),
        ),
    }
}

/// Writes an element of an array.
pub fn write<G: Goes>(
    goes: &G,
    known: &Known,
    code: &Code,
    pc: u32,
    f: &mut Working,
    of: Element,
) -> Result<bool, AllocError>
    requires known { IsKnown known.now }
    ensures did { IfOk result (λ done. Did (G.relation goes.now) (G.known goes.now) (view_code code.now) pc (rows.write of) (view_working f.old) done (view_working f.new)) }
{
    let int = Want::Of(&Tag::Int);
    let object = Want::Of(&known.classes.object);
    let arrays = &known.arrays;
    match of {
        Element::Int => takes_three(goes, code, pc, f, int, Want::Of(&arrays.ints)),
        Element::Long => {
            takes_three(
                goes,
                code,
                pc,
                f,
                Want::Of(&Tag::Long),
                Want::Of(&arrays.longs),
            )
        }
        Element::Float => {
            takes_three(
                goes,
                code,
                pc,
                f,
                Want::Of(&Tag::Float),
                Want::Of(&arrays.floats),
            )
        }
        Element::Double => {
            takes_three(
                goes,
                code,
                pc,
                f,
                Want::Of(&Tag::Double),
                Want::Of(&arrays.doubles),
            )
        }
        Element::Ref => takes_three(goes, code, pc, f, object, Want::Of(&arrays.objects)),
        Element::Byte => takes_three(goes, code, pc, f, int, Want::ByteArray),
        Element::Char => takes_three(goes, code, pc, f, int, Want::Of(&arrays.chars)),
        Element::Short => takes_three(goes, code, pc, f, int, Want::Of(&arrays.shorts)),
    }
}

/// Returns a value of a kind from a method with this result.
fn leave_with<G: Goes>(
    goes: &G,
    code: &Code,
    pc: u32,
    frame: &mut Working,
    value: &JType,
    kind: Kind,
) -> Result<bool, AllocError>
    ensures did { IfOk result (λ done. Did (G.relation goes.now) (G.known goes.now) (view_code code.now) pc (rows.leave (Some (view_type value.now)) (Some kind)) (view_working frame.old) done (view_working frame.new)) }
{
    if !is_kind(kind_of(value), kind) {
        return Ok(false);
    }
    takes_one(goes, code, pc, frame, Want::Value(value), None)
}

/// The type of a method's result.
fn result_of(descriptor: &Descriptor) -> Option<&JType>
    ensures found { option_map view_type (option_copied result) ≡ result_of (view_descriptor descriptor.now) }
{
    match descriptor {
        Descriptor::Field(kind) => Some(kind),
        Descriptor::Method { result, .. } => result.as_ref(),
    }
}

/// Returns from the method.
pub fn returns<G: Goes>(
    goes: &G,
    code: &Code,
    pc: u32,
    frame: &mut Working,
    kind: Option<Kind>,
) -> Result<bool, AllocError>
    ensures did { IfOk result (λ done. Did (G.relation goes.now) (G.known goes.now) (view_code code.now) pc (rows.leave (result_of (view_descriptor code.now.descriptor)) kind) (view_working frame.old) done (view_working frame.new)) }
{
    match result_of(&code.descriptor) {
        None => match kind {
            None => Ok(leave(goes, code, pc, frame)),
            Some(_) => Ok(false),
        },
        Some(value) => match kind {
            None => Ok(false),
            Some(kind) => leave_with(goes, code, pc, frame, value, kind),
        },
    }
}

/// The tag of a method's result.
fn result_tag(alloc: Global, descriptor: &Descriptor) -> Result<Option<Tag>, AllocError>
    ensures tag { IfOk result (λ tag. option_map view_tag tag ≡ option_map tag_of (result_of (view_descriptor descriptor.now))) }
{
    match result_of(descriptor) {
        Some(kind) => Ok(Some(Tag::of_type(alloc, kind)?)),
        None => Ok(None),
    }
}

/// The types of a method's parameters.
fn parameters_of(descriptor: &Descriptor) -> &[JType]
    ensures parameters { view_types result.now ≡ parameters_of (view_descriptor descriptor.now) }
{
    match descriptor {
        Descriptor::Field(_) => &[],
        Descriptor::Method { parameters, .. } => parameters.as_slice(),
    }
}

/// Calls a method, with a receiver like these or none.
pub fn call<G: Goes>(
    alloc: Global,
    goes: &G,
    code: &Code,
    pc: u32,
    frame: &mut Working,
    descriptor: &Descriptor,
    receiver: &[Want<'_>],
) -> Result<bool, AllocError>
    ensures did { IfOk result (λ done. Did (G.relation goes.now) (G.known goes.now) (view_code code.now) pc (rows.call (view_descriptor descriptor.now) (view_wants receiver.now)) (view_working frame.old) done (view_working frame.new)) }
{
    let gives = result_tag(alloc, descriptor)?;
    taking::call(
        goes,
        code,
        pc,
        frame,
        parameters_of(descriptor),
        receiver,
        gives,
    )
}

/// Calls a method on an object of its owner.
pub fn call_on<G: Goes>(
    alloc: Global,
    goes: &G,
    code: &Code,
    pc: u32,
    frame: &mut Working,
    method: &MethodRef,
) -> Result<bool, AllocError>
    ensures did { IfOk result (λ done. Did (G.relation goes.now) (G.known goes.now) (view_code code.now) pc (rows.call (view_descriptor method.now.descriptor) (Of (Object (view_type method.now.owner)) ∷ [])) (view_working frame.old) done (view_working frame.new)) }
{
    let receiver = [Want::Object(&method.owner)];
    let done = call(alloc, goes, code, pc, frame, &method.descriptor, &receiver)?;
    Ok(done)
}

/// Calls a constructor, or a method of the class or of one above it.
pub fn special_call<G: Goes>(
    alloc: Global,
    goes: &G,
    code: &Code,
    pc: u32,
    frame: &mut Working,
    method: &MethodRef,
) -> Result<bool, AllocError>
    requires rising { IsRising (view_instructions code.now.instructions) }
    ensures did { IfOk result (λ done. Did (G.relation goes.now) (G.known goes.now) (view_code code.now) pc (row (view_code code.now) (InvokeSpecial (view_method_ref method.now))) (view_working frame.old) done (view_working frame.new)) }
{
    let parameters = parameters_of(&method.descriptor);
    if !is_constructor(&method.name) {
        let gives = result_tag(alloc, &method.descriptor)?;
        return super_call(
            alloc,
            goes,
            code,
            pc,
            frame,
            parameters,
            &method.owner,
            gives,
        );
    }
    match result_of(&method.descriptor) {
        Some(_) => Ok(false),
        None => bear(alloc, goes, code, pc, frame, parameters, &method.owner),
    }
}
