//! Instructions of a form of their own: `aaload`, `putfield`, calls of what is above, and `return` (JVMS 4.10.1.9).

ghost use Rattle.std.specs.Prelude.{◌≡◌, ◌++◌, ◌∷◌, [], IfOk};
ghost use Rattle.std.specs.Option.{option_map};
ghost use Rattle.dj_names.specs.Types.{Class, view_type, view_types};
ghost use Rattle.dj_frames.specs.Frames.{Object, view_tag};
ghost use Rattle.dj_code.specs.MethodCode.{view_code};
ghost use Rattle.dj_effects.specs.Works.{Of, Elements, Sets, Supers, Leaves};
ghost use Rattle.dj_effects.specs.Rows.{arguments};
ghost use Rattle.dj_effects.specs.Operands.{element_tag};
ghost use Rattle.dj_effects.specs.Doing.{view_working};
ghost use Rattle.dj_applying.specs.Done.{Did};

use crate::births::is_class;
use crate::taking::{give, has_wanted, take};
use dj_code::Code;
use dj_effects::{Want, Working};
use dj_frames::Tag;
use dj_headers::is_reference;
use dj_names::{JType, is_constructor};
use dj_tags::Goes;
use std::alloc::{AllocError, Global};

/// What is read from an array of references.
fn element_tag(alloc: Global, array: &Tag) -> Result<Option<Tag>, AllocError>
    ensures element { IfOk result (λ tag. option_map view_tag tag ≡ element_tag (view_tag array.now)) }
{
    match array {
        Tag::Null => Ok(Some(Tag::Null)),
        Tag::Object(JType::Array(element)) => {
            if is_reference(element.get()) {
                Ok(Some(Tag::Object(element.get().copy(alloc)?)))
            } else {
                Ok(None)
            }
        }
        Tag::Object(_)
        | Tag::Top
        | Tag::Int
        | Tag::Float
        | Tag::Double
        | Tag::Long
        | Tag::UnbornThis
        | Tag::Unborn(_) => Ok(None),
    }
}

/// Reads an element of an array of references.
pub fn element<G: Goes>(
    alloc: Global,
    goes: &G,
    code: &Code,
    _pc: u32,
    frame: &mut Working,
) -> Result<bool, AllocError>
    ensures did { IfOk result (λ done. Did (G.relation goes.now) (G.known goes.now) (view_code code.now) _pc Elements (view_working frame.old) done (view_working frame.new)) }
{
    if !has_wanted(goes, &frame.stack, &[Want::Of(&Tag::Int)]) {
        return Ok(false);
    }
    let tag = match frame.stack.peek(1) {
        Some(array) => element_tag(alloc, array)?,
        None => return Ok(false),
    };
    match tag {
        Some(tag) => {
            frame.stack.remove(2);
            frame.stack.push(tag)?;
            Ok(true)
        }
        None => Ok(false),
    }
}

/// Sets a field of a type, of an object of this owner.
pub fn set_field<G: Goes>(
    goes: &G,
    code: &Code,
    _pc: u32,
    frame: &mut Working,
    kind: &JType,
    owner: &JType,
) -> bool
    ensures did { Did (G.relation goes.now) (G.known goes.now) (view_code code.now) _pc (Sets (view_type kind.now) (view_type owner.now)) (view_working frame.old) result (view_working frame.new) }
{
    if has_wanted(
        goes,
        &frame.stack,
        &[Want::Value(kind), Want::Object(owner)],
    ) {
        frame.stack.remove(2);
        return true;
    }
    if !is_constructor(&code.name) || !is_class(owner, &code.class) {
        return false;
    }
    if has_wanted(
        goes,
        &frame.stack,
        &[Want::Value(kind), Want::Of(&Tag::UnbornThis)],
    ) {
        frame.stack.remove(2);
        return true;
    }
    false
}

/// Calls a method of the class or of one above it, on an object of the class.
pub fn super_call<G: Goes>(
    alloc: Global,
    goes: &G,
    code: &Code,
    _pc: u32,
    frame: &mut Working,
    parameters: &[JType],
    owner: &JType,
    gives: Option<Tag>,
) -> Result<bool, AllocError>
    ensures did { IfOk result (λ done. Did (G.relation goes.now) (G.known goes.now) (view_code code.now) _pc (Supers (view_type owner.now) (arguments (view_types parameters.now) ++ Of (Object (Class code.now.class)) ∷ []) (option_map view_tag gives)) (view_working frame.old) done (view_working frame.new)) }
{
    let class = JType::Class(code.class.copy(alloc)?);
    if !goes.goes(&class, owner) {
        return Ok(false);
    }
    if !take(goes, &mut frame.stack, parameters, &[Want::Object(&class)]) {
        return Ok(false);
    }
    give(&mut frame.stack, gives)?;
    Ok(true)
}

/// Ends a method that has no result.
pub fn leave<G: Goes>(_goes: &G, code: &Code, _pc: u32, frame: &Working) -> bool
    ensures did { Did (G.relation _goes.now) (G.known _goes.now) (view_code code.now) _pc Leaves (view_working frame.now) result (view_working frame.now) }
{
    !(is_constructor(&code.name) && frame.unborn_this)
}
