//! What was told of earlier instructions, which serves again where one names the same: so what a class names is looked for once a method.

ghost use Rattle.std.specs.Prelude.{◌≡◌, ◌<◌, ◌+◌, false, None, [], length, IsTrue, IfOk, IfSome, OnOk};
ghost use Rattle.dj_names.specs.MethodNames.{is_constructor};
ghost use Rattle.dj_instructions.specs.Instructions.{view_field_ref, view_method_ref, view_instruction};
ghost use Rattle.dj_world.specs.Clashes.{IsLawful};
ghost use Rattle.dj_member_cause.specs.Telling.{IsAlike, IsSameAt, IsJudgedAt, AreTold};

use crate::judging::{Judgement, Named, judge, names_of};
use dj_code::{Instruction, MethodRef, Typed};
use dj_instructions::FieldRef;
use dj_kinds::is_same_descriptor;
use dj_names::{Descriptor, Items, JType, is_constructor, same_type};
use dj_static::Classes;
use std::alloc::{AllocError, Global};
use std::collections::BTreeMap;

/// What was told of instructions, in order, and by what they name a place where one stands that names it.
#[derive(Drop)]
pub struct Known {
    pub told: Items<Judgement>,
    pub places: BTreeMap<Vec<u16>, usize>,
    /// Which calls are on `this`, by their pcs, once that was asked.
    pub calls: Option<Items<bool>>,
}

impl Known {
    /// Nothing.
    pub fn new(alloc: Global) -> Known
        ensures told { result.told ≡ [] }
        ensures calls { result.calls ≡ None }
    {
        Known {
            told: Items::new(alloc),
            places: BTreeMap::new(alloc),
            calls: None,
        }
    }
}

/// Puts units behind others.
fn spell_units(units: &[u16], spelled: &mut Vec<u16>) -> Result<(), AllocError> {
    for unit in units {
        spelled.push(*unit)?;
    }
    Ok(())
}

/// Puts the spelling of a type behind others.
fn spell_type(kind: &JType, spelled: &mut Vec<u16>) -> Result<(), AllocError> {
    match kind {
        JType::Boolean => spelled.push(90)?,
        JType::Byte => spelled.push(66)?,
        JType::Char => spelled.push(67)?,
        JType::Short => spelled.push(83)?,
        JType::Int => spelled.push(73)?,
        JType::Long => spelled.push(74)?,
        JType::Float => spelled.push(70)?,
        JType::Double => spelled.push(68)?,
        JType::Class(name) => {
            spelled.push(76)?;
            spell_units(name.as_slice(), spelled)?;
            spelled.push(59)?;
        }
        JType::Array(element) => {
            spelled.push(91)?;
            spell_type(element.get(), spelled)?;
        }
    }
    Ok(())
}

/// Puts the spelling of a descriptor behind others.
fn spell_descriptor(descriptor: &Descriptor, spelled: &mut Vec<u16>) -> Result<(), AllocError> {
    match descriptor {
        Descriptor::Field(kind) => spell_type(kind, spelled)?,
        Descriptor::Method { parameters, result } => {
            for kind in parameters.as_slice() {
                spell_type(kind, spelled)?;
            }
            spelled.push(41)?;
            if let Some(kind) = result {
                spell_type(kind, spelled)?;
            }
        }
    }
    Ok(())
}

/// The key of a field, by a number for how it is used.
fn field_key(alloc: Global, used: u16, field: &FieldRef) -> Result<Vec<u16>, AllocError> {
    let mut spelled = Vec::new(alloc);
    spelled.push(used)?;
    spell_type(&field.owner, &mut spelled)?;
    spell_units(field.name.as_slice(), &mut spelled)?;
    spelled.push(58)?;
    spell_type(&field.kind, &mut spelled)?;
    Ok(spelled)
}

/// The key of a method, by a number for how it is called.
fn method_key(alloc: Global, used: u16, method: &MethodRef) -> Result<Vec<u16>, AllocError> {
    let mut spelled = Vec::new(alloc);
    spelled.push(used)?;
    spell_type(&method.owner, &mut spelled)?;
    spell_units(method.name.as_slice(), &mut spelled)?;
    spelled.push(58)?;
    spell_descriptor(&method.descriptor, &mut spelled)?;
    Ok(spelled)
}

/// The key of what an instruction names; none of a constructor, which is looked for in its class alone.
fn key_of(alloc: Global, named: Named<'_>) -> Result<Option<Vec<u16>>, AllocError> {
    let key = match named {
        Named::ReadStatic(field) => field_key(alloc, 1, field)?,
        Named::WriteStatic(field) => field_key(alloc, 2, field)?,
        Named::Read(field) => field_key(alloc, 3, field)?,
        Named::Write(field) => field_key(alloc, 4, field)?,
        Named::Virtual(method) => method_key(alloc, 5, method)?,
        Named::Interface(method) => method_key(alloc, 6, method)?,
        Named::Static(method) => method_key(alloc, 7, method)?,
        Named::Special(method) => {
            if is_constructor(&method.name) {
                return Ok(None);
            }
            method_key(alloc, 8, method)?
        }
        Named::Nothing => return Ok(None),
    };
    Ok(Some(key))
}

/// Whether fields are named alike.
fn is_same_field(first: &FieldRef, second: &FieldRef) -> bool
    ensures same { IsTrue result → view_field_ref first.now ≡ view_field_ref second.now }
{
    same_type(&first.owner, &second.owner)
        && first.name == second.name
        && same_type(&first.kind, &second.kind)
}

/// Whether methods are.
fn is_same_method(first: &MethodRef, second: &MethodRef) -> bool
    ensures same { IsTrue result → view_method_ref first.now ≡ view_method_ref second.now }
{
    same_type(&first.owner, &second.owner)
        && first.interface == second.interface
        && first.name == second.name
        && is_same_descriptor(&first.descriptor, &second.descriptor)
}

/// Whether a method is no constructor, and another one the same.
fn is_same_plain(first: &MethodRef, second: &MethodRef) -> bool
    ensures same { IsTrue result → view_method_ref first.now ≡ view_method_ref second.now }
    ensures plain { IsTrue result → is_constructor (view_method_ref first.now).name ≡ false }
{
    !is_constructor(&first.name) && is_same_method(first, second)
}

/// Whether instructions do the same with what they name, whatever the frames before them are.
fn is_alike(first: &Instruction, second: &Instruction) -> bool
    ensures alike { IsTrue result → IsAlike (view_instruction first.now) (view_instruction second.now) }
{
    match names_of(first) {
        Named::ReadStatic(one) => match names_of(second) {
            Named::ReadStatic(other) => is_same_field(one, other),
            _ => false,
        },
        Named::WriteStatic(one) => match names_of(second) {
            Named::WriteStatic(other) => is_same_field(one, other),
            _ => false,
        },
        Named::Read(one) => match names_of(second) {
            Named::Read(other) => is_same_field(one, other),
            _ => false,
        },
        Named::Write(one) => match names_of(second) {
            Named::Write(other) => is_same_field(one, other),
            _ => false,
        },
        Named::Virtual(one) => match names_of(second) {
            Named::Virtual(other) => is_same_method(one, other),
            _ => false,
        },
        Named::Interface(one) => match names_of(second) {
            Named::Interface(other) => is_same_method(one, other),
            _ => false,
        },
        Named::Static(one) => match names_of(second) {
            Named::Static(other) => is_same_method(one, other),
            _ => false,
        },
        Named::Special(one) => match names_of(second) {
            Named::Special(other) => is_same_plain(one, other),
            _ => false,
        },
        Named::Nothing => false,
    }
}

/// The place that is known by a key, which this one takes where none is.
fn place_of(
    places: &mut BTreeMap<Vec<u16>, usize>,
    key: Vec<u16>,
    place: usize,
) -> Result<Option<usize>, AllocError> {
    match places.get(&key).copied() {
        Some(earlier) => Ok(Some(earlier)),
        None => {
            places.insert(key, place)?;
            Ok(None)
        }
    }
}

/// An earlier place of an instruction that does the same as the one at a place, if one is known.
fn earlier(
    alloc: Global,
    instructions: &[(u32, Instruction)],
    place: usize,
    known: &mut Known,
) -> Result<Option<usize>, AllocError>
    requires within { place < length instructions.now }
    requires many { length known.old.told ≡ place }
    ensures told { OnOk result (known.new.told ≡ known.old.told) }
    ensures calls { OnOk result (known.new.calls ≡ known.old.calls) }
    ensures same { IfOk result (λ found. IfSome found (IsSameAt instructions.now place)) }
{
    let Some(key) = key_of(alloc, names_of(&instructions[place].1))? else {
        return Ok(None);
    };
    let Some(found) = place_of(&mut known.places, key, place)? else {
        return Ok(None);
    };
    if found < place && is_alike(&instructions[found].1, &instructions[place].1) {
        Ok(Some(found))
    } else {
        Ok(None)
    }
}

/// What is told of the instruction at a place.
fn tell_anew(
    alloc: Global,
    classes: &Classes<'_>,
    typed: &Typed,
    place: usize,
) -> Result<Judgement, AllocError>
    requires lawful { IsLawful classes.now.headers.now }
    requires within { place < length typed.now.code.instructions }
    requires framed { place < length typed.now.frames }
    ensures judged { IfOk result (IsJudgedAt classes.now typed.now place) }
{
    let at = &typed.code.instructions.as_slice()[place];
    let frame = &typed.frames.as_slice()[place];
    let told = judge(alloc, classes, &at.1, frame)?;
    Ok(told)
}

/// What is told of the instruction at a place: what was told of one that does the same, if there is one.
fn recall(
    alloc: Global,
    classes: &Classes<'_>,
    typed: &Typed,
    place: usize,
    found: Option<usize>,
    known: &Known,
) -> Result<Judgement, AllocError>
    requires lawful { IsLawful classes.now.headers.now }
    requires within { place < length typed.now.code.instructions }
    requires framed { place < length typed.now.frames }
    requires known { AreTold classes.now typed.now known.now.told place }
    requires same { IfSome found (IsSameAt typed.now.code.instructions place) }
    ensures judged { IfOk result (IsJudgedAt classes.now typed.now place) }
{
    match found {
        Some(earlier) => {
            let told = known.told.as_slice()[earlier];
            Ok(told)
        }
        None => {
            let told = tell_anew(alloc, classes, typed, place)?;
            Ok(told)
        }
    }
}

/// What is told of the instruction at a place, behind what was told of those before it.
pub fn tell(
    alloc: Global,
    classes: &Classes<'_>,
    typed: &Typed,
    place: usize,
    known: &mut Known,
) -> Result<Judgement, AllocError>
    requires lawful { IsLawful classes.now.headers.now }
    requires within { place < length typed.now.code.instructions }
    requires framed { place < length typed.now.frames }
    requires known { AreTold classes.now typed.now known.old.told place }
    ensures judged { IfOk result (IsJudgedAt classes.now typed.now place) }
    ensures known { OnOk result (AreTold classes.now typed.now known.new.told (place + 1)) }
    ensures calls { OnOk result (known.new.calls ≡ known.old.calls) }
{
    let found = earlier(alloc, typed.code.instructions.as_slice(), place, known)?;
    let told = recall(alloc, classes, typed, place, found, known)?;
    known.told.push(told)?;
    Ok(told)
}
