//! Descriptors as units that no other descriptor has, whatever stands in the names of classes.

ghost use Rattle.std.specs.Prelude.{◌≡◌, ◌++◌, OnOk, IfOk};
ghost use Rattle.std.specs.List.{flat_map};
ghost use Rattle.dj_names.specs.Types.{view_type, view_types, view_descriptor};
ghost use Rattle.std.specs.Option.{option_map};
ghost use Rattle.dj_signatures.specs.Spelled.{letter_of, spelled_units, spelled_type, spelled_result, spelled_method, spelled_parameters, spelled_descriptor};

use dj_names::{Descriptor, JType, Units};
use std::alloc::{AllocError, Global};

/// What stands before each unit of a class's name.
const MORE: u16 = 0x4c;

/// What stands behind a class's name.
const END: u16 = 0x3b;

const OPEN: u16 = 0x28;

const CLOSE: u16 = 0x29;

const VOID: u16 = 0x56;

/// What the spelling of a type begins with.
fn letter_of(kind: &JType) -> u16
    ensures letter { result ≡ letter_of (view_type kind.now) }
{
    match kind {
        JType::Boolean => 0x5a,
        JType::Byte => 0x42,
        JType::Char => 0x43,
        JType::Short => 0x53,
        JType::Int => 0x49,
        JType::Long => 0x4a,
        JType::Float => 0x46,
        JType::Double => 0x44,
        JType::Class(_) => 0x4c,
        JType::Array(_) => 0x5b,
    }
}

/// Puts the units of a class's name behind others.
fn put_units(text: &mut Vec<u16>, units: &[u16]) -> Result<(), AllocError>
    ensures put { OnOk result (text.new.items ≡ text.old.items ++ spelled_units units.now) }
{
    for unit in units {
        text.push(MORE)?;
        text.push(*unit)?;
    }
    text.push(END)?;
    Ok(())
}

/// Puts a type behind others.
fn put_type(text: &mut Vec<u16>, kind: &JType) -> Result<(), AllocError>
    ensures put { OnOk result (text.new.items ≡ text.old.items ++ spelled_type (view_type kind.now)) }
{
    text.push(letter_of(kind))?;
    match kind {
        JType::Class(name) => put_units(text, name.as_slice()),
        JType::Array(element) => put_type(text, element.get()),
        _ => Ok(()),
    }
}

/// Puts types behind others.
fn put_types(text: &mut Vec<u16>, kinds: &[JType]) -> Result<(), AllocError>
    ensures put { OnOk result (text.new.items ≡ text.old.items ++ flat_map spelled_type (view_types kinds.now)) }
{
    for kind in kinds {
        put_type(text, kind)?;
    }
    Ok(())
}

/// Puts a result behind others.
fn put_result(text: &mut Vec<u16>, kind: &Option<JType>) -> Result<(), AllocError>
    ensures put { OnOk result (text.new.items ≡ text.old.items ++ spelled_result (option_map view_type kind.now)) }
{
    match kind {
        None => Ok(text.push(VOID)?),
        Some(kind) => put_type(text, kind),
    }
}

/// Puts a method's parameters and its result behind others.
fn put_method(
    text: &mut Vec<u16>,
    parameters: &[JType],
    answer: &Option<JType>,
) -> Result<(), AllocError>
    ensures put { OnOk result (text.new.items ≡ text.old.items ++ spelled_method (view_types parameters.now) (option_map view_type answer.now)) }
{
    text.push(OPEN)?;
    put_types(text, parameters)?;
    text.push(CLOSE)?;
    put_result(text, answer)
}

/// The parameters of a descriptor, spelled.
pub fn spelled_parameters(alloc: Global, descriptor: &Descriptor) -> Result<Units, AllocError>
    ensures spelled { IfOk result (λ units. units ≡ spelled_parameters (view_descriptor descriptor.now)) }
{
    let mut text = Vec::new(alloc);
    match descriptor {
        Descriptor::Field(_) => {}
        Descriptor::Method { parameters, .. } => put_types(&mut text, parameters.as_slice())?,
    }
    Units::from_vec(text)
}

/// A descriptor, spelled.
pub fn spelled_descriptor(alloc: Global, descriptor: &Descriptor) -> Result<Units, AllocError>
    ensures spelled { IfOk result (λ units. units ≡ spelled_descriptor (view_descriptor descriptor.now)) }
{
    let mut text = Vec::new(alloc);
    match descriptor {
        Descriptor::Field(kind) => put_type(&mut text, kind)?,
        Descriptor::Method { parameters, result } => {
            put_method(&mut text, parameters.as_slice(), result)?
        }
    }
    Units::from_vec(text)
}
