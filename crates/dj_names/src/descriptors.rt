//! Reading descriptors (JVMS 4.3).

ghost use Rattle.std.specs.Prelude.{◌≡◌, ◌≤◌, ℕ, List, [], ◌∷◌, ◌++◌, IfOk, IfErr, IfSome, IfNone, IsTrue, ◌↔◌, flat_map, codes};
ghost use Rattle.dj_names.specs.Types as types;
ghost use Rattle.dj_names.specs.Types.{view_type, view_types, view_descriptor};
ghost use Rattle.dj_names.specs.Descriptors.{spell_type, spell_result, spell_descriptor, words, IsType, IsDescriptor, SpellsDescriptor};
ghost use Rattle.dj_names.specs.ClassNames.{IsClassName};
ghost use Rattle.dj_names.specs.Reading.{StopsAt, IsTypeWithin, SpellsType, SpellsClassName, SpellsResult, AreParameters, SpellsRest, SpellsSome, IsPrimitiveLetter, IsNoPrimitive, MayFollow, HaltsAt};
ghost use Rattle.dj_names.specs.Faults.{IsDescriptorFault, GivesOnly};
ghost use Rattle.std.specs.Option.{option_map};

use crate::class_name::ClassName;
use crate::descriptor::Descriptor;
use crate::fault::{NameFault, place};
use crate::shared::Shared;
use crate::shared_list::SharedList;
use crate::types::JType;
use crate::units::Units;
use crate::unread::Unread;
use std::alloc::{AllocError, AllocFailed, Global};

/// The most dimensions of a type.
const MAX_DIMENSIONS: u8 = 255;

/// The most words of the parameters of a method.
const MAX_WORDS: u8 = 255;

/// Why a reader stops: what comes next can't follow, or memory is out.
#[derive(Drop)]
enum Stop {
    Here,
    Memory(AllocError),
}

impl From<AllocError> for Stop {
    ghost use Rattle.std.specs.Prelude.{◌≡◌};
    ghost use Rattle.dj_names.specs.declared.descriptors.Stop.TheVariants.{Memory};

    ghost from_gives = { λ error stop. stop ≡ Memory error };

    fn from(error: AllocError) -> Stop {
        Stop::Memory(error)
    }
}

impl<T: Drop> From<AllocFailed<T>> for Stop {
    ghost use Rattle.std.specs.Prelude.{◌≡◌, alloc_error};
    ghost use Rattle.dj_names.specs.declared.descriptors.Stop.TheVariants.{Memory};

    ghost from_gives = { λ _ stop. stop ≡ Memory alloc_error };

    fn from(_failed: AllocFailed<T>) -> Stop {
        Stop::Memory(AllocError)
    }
}

/// The type that a letter stands for, by itself.
fn primitive_of(unit: u16) -> Option<JType>
    ensures some { IfSome result (λ kind. spell_type (view_type kind) ≡ unit ∷ []) }
    ensures none { IfNone result (¬ IsPrimitiveLetter unit) }
{
    match unit {
        0x5a => Some(JType::Boolean),
        0x42 => Some(JType::Byte),
        0x43 => Some(JType::Char),
        0x53 => Some(JType::Short),
        0x49 => Some(JType::Int),
        0x4a => Some(JType::Long),
        0x46 => Some(JType::Float),
        0x44 => Some(JType::Double),
        _ => None,
    }
}

/// What is left of a class's name after its `L`, up to and with the `;`.
fn read_class(alloc: Global, unread: &mut Unread) -> Result<ClassName, Stop>
    ensures spelled { IfOk result (λ name. name ++ codes ";" ++ unread.new ≡ unread.old) }
    ensures name { IfOk result (λ name. IsClassName name) }
    ensures stops { IfErr result (λ stop. StopsAt stop SpellsClassName unread.old unread.new) }
{
    let mut name = Vec::new(alloc);
    let mut started = false;
    while let Some(unit) = unread.peek() {
        if !may_follow(unit, started) {
            return Err(Stop::Here);
        }
        let _unit = unread.next();
        if unit == 0x3b {
            return Ok(ClassName::new(Units::from_vec(name)?));
        }
        name.push(unit)?;
        started = unit != 0x2f;
    }
    Err(Stop::Here)
}

/// Whether the unit may come next in a class's name or end it, where its last segment has a unit
/// (`started`) or none.
fn may_follow(unit: u16, started: bool) -> bool
    ensures follows { IsTrue result ↔ MayFollow started unit }
{
    match unit {
        0x3b | 0x2f => started,
        0x2e | 0x5b => false,
        _ => true,
    }
}

/// A type with at most `depth` dimensions, that takes at most `room` words.
fn read_type(alloc: Global, unread: &mut Unread, depth: u8, room: u8) -> Result<JType, Stop>
    requires { 1 ≤ room }
    ensures spelled { IfOk result (λ kind. spell_type (view_type kind) ++ unread.new ≡ unread.old) }
    ensures within { IfOk result (λ kind. IsTypeWithin depth room (view_type kind)) }
    ensures stops { IfErr result (λ stop. StopsAt stop (SpellsType depth room) unread.old unread.new) }
{
    match unread.peek() {
        Some(0x5b) => {
            if depth == 0 {
                return Err(Stop::Here);
            }
            let _bracket = unread.next();
            let element = read_type(alloc, unread, depth - 1, 2)?;
            Ok(JType::Array(Shared::new(alloc, element)?))
        }
        Some(0x4c) => {
            let _letter = unread.next();
            Ok(JType::Class(read_class(alloc, unread)?))
        }
        Some(unit) => read_primitive(unread, unit, room),
        None => Err(Stop::Here),
    }
}

/// A primitive type that takes at most `room` words, where this unit is at hand.
fn read_primitive(unread: &mut Unread, unit: u16, room: u8) -> Result<JType, Stop>
    requires { (rest : List ℕ) × (unread.old ≡ unit ∷ rest) }
    ensures read { IfOk result (λ kind. spell_type (view_type kind) ++ unread.new ≡ unread.old) }
    ensures fits { IfOk result (λ kind. words (view_type kind) ≤ room) }
    ensures none { IfErr result (λ stop. IsNoPrimitive stop room unit × (unread.new ≡ unread.old)) }
{
    let Some(kind) = primitive_of(unit) else {
        return Err(Stop::Here);
    };
    if kind.words() > room {
        return Err(Stop::Here);
    }
    let _letter = unread.next();
    Ok(kind)
}

/// A result type, or `V` for none.
fn read_result(alloc: Global, unread: &mut Unread) -> Result<Option<JType>, Stop>
    ensures spelled { IfOk result (λ kind. spell_result (option_map view_type kind) ++ unread.new ≡ unread.old) }
    ensures types { IfOk result (λ kind. IfSome (option_map view_type kind) IsType) }
    ensures stops { IfErr result (λ stop. StopsAt stop SpellsResult unread.old unread.new) }
{
    if unread.is_at(0x56) {
        let _letter = unread.next();
        return Ok(None);
    }
    Ok(Some(read_type(alloc, unread, MAX_DIMENSIONS, 2)?))
}

/// What follows the `(` of a method's descriptor.
fn read_method(alloc: Global, unread: &mut Unread) -> Result<Descriptor, Stop>
    ensures spelled { IfOk result (λ read. spell_descriptor (view_descriptor read) ++ unread.new ≡ codes "(" ++ unread.old) }
    ensures descriptor { IfOk result (λ read. IsDescriptor (view_descriptor read)) }
    ensures stops { IfErr result (λ stop. StopsAt stop (SpellsRest 255) unread.old unread.new) }
{
    let mut parameters = Vec::new(alloc);
    let mut room = MAX_WORDS;
    while let Some(unit) = unread.peek() {
        if unit == 0x29 {
            let _close = unread.next();
            let result = read_result(alloc, unread)?;
            return Ok(Descriptor::Method {
                parameters: SharedList::from_vec(alloc, parameters)?,
                result,
            });
        }
        if room == 0 {
            return Err(Stop::Here);
        }
        let kind = read_type(alloc, unread, MAX_DIMENSIONS, room)?;
        room -= kind.words();
        parameters.push(kind)?;
    }
    Err(Stop::Here)
}

/// A descriptor, whatever follows it.
fn read_front(alloc: Global, unread: &mut Unread) -> Result<Descriptor, Stop>
    ensures spelled { IfOk result (λ read. spell_descriptor (view_descriptor read) ++ unread.new ≡ unread.old) }
    ensures descriptor { IfOk result (λ read. IsDescriptor (view_descriptor read)) }
    ensures stops { IfErr result (λ stop. StopsAt stop SpellsSome unread.old unread.new) }
{
    if unread.is_at(0x28) {
        let _open = unread.next();
        return read_method(alloc, unread);
    }
    Ok(Descriptor::Field(read_type(alloc, unread, MAX_DIMENSIONS, 2)?))
}

/// A descriptor that nothing follows.
fn read_whole(alloc: Global, unread: &mut Unread) -> Result<Descriptor, Stop>
    ensures ok { IfOk result (λ read. SpellsDescriptor unread.old (view_descriptor read)) }
    ensures halts { IfErr result (λ stop. HaltsAt stop unread.old unread.new) }
{
    let descriptor = read_front(alloc, unread)?;
    match unread.peek() {
        None => Ok(descriptor),
        Some(_) => Err(Stop::Here),
    }
}

/// Reads a descriptor. A fault is at the length of the longest prefix that begins some descriptor.
pub fn read_descriptor(alloc: Global, units: &Units) -> Result<Descriptor, NameFault>
    ensures ok { IfOk result (λ read. SpellsDescriptor units.now (view_descriptor read)) }
    ensures value { (descriptor : types.Descriptor) → SpellsDescriptor units.now descriptor → GivesOnly view_descriptor result descriptor }
    ensures fault { IfErr result (λ fault. IsDescriptorFault units.now fault) }
{
    let all = units.as_slice();
    let mut unread = Unread::new(all);
    match read_whole(alloc, &mut unread) {
        Ok(descriptor) => Ok(descriptor),
        Err(Stop::Here) => Err(NameFault::BadDescriptor(place(all.len() - unread.len()))),
        Err(Stop::Memory(error)) => Err(NameFault::Memory(error)),
    }
}
