//! Descriptors and words as the units that spell them (JVMS 4.3).

ghost use Rattle.std.specs.Prelude.{◌≡◌, ◌++◌, OnOk, IfOk};
ghost use Rattle.std.specs.List.{flat_map};
ghost use Rattle.std.specs.Option.{option_map};
ghost use Rattle.dj_names.specs.Types as types;
ghost use Rattle.dj_names.specs.Types.{view_descriptor, view_type, view_types};
ghost use Rattle.dj_names.specs.Descriptors.{spell_descriptor, spell_result, spell_type};

use dj_names::{ClassName, Descriptor, JType, Units};
use std::alloc::{AllocError, Global};

/// The units of a word of ASCII characters.
pub(crate) fn spelled_word(alloc: Global, word: &str) -> Result<Units, AllocError>
    ensures units { IfOk result (λ units. units ≡ word.now) }
{
    let mut units = Vec::new(alloc);
    for byte in word.as_bytes() {
        units.push(u16::from(*byte))?;
    }
    Units::from_vec(units)
}

/// Puts the descriptor of a class's type behind other units.
fn push_class(units: &mut Vec<u16>, name: &ClassName) -> Result<(), AllocError>
    ensures pushed { OnOk result (units.new.items ≡ units.old.items ++ spell_type (types.Class name.now)) }
{
    units.push(0x4c)?;
    units.extend_from_slice(name.as_slice())?;
    units.push(0x3b)?;
    Ok(())
}

/// Puts the descriptor of a type behind other units.
fn push_type(units: &mut Vec<u16>, kind: &JType) -> Result<(), AllocError>
    ensures pushed { OnOk result (units.new.items ≡ units.old.items ++ spell_type (view_type kind.now)) }
{
    let letter = match kind {
        JType::Boolean => 0x5a,
        JType::Byte => 0x42,
        JType::Char => 0x43,
        JType::Short => 0x53,
        JType::Int => 0x49,
        JType::Long => 0x4a,
        JType::Float => 0x46,
        JType::Double => 0x44,
        JType::Class(name) => return push_class(units, name),
        JType::Array(element) => {
            units.push(0x5b)?;
            return push_type(units, element.get());
        }
    };
    units.push(letter)?;
    Ok(())
}

/// Puts the descriptors of types behind other units.
fn push_types(units: &mut Vec<u16>, kinds: &[JType]) -> Result<(), AllocError>
    ensures pushed { OnOk result (units.new.items ≡ units.old.items ++ flat_map spell_type (view_types kinds.now)) }
{
    for kind in kinds {
        push_type(units, kind)?;
    }
    Ok(())
}

/// Puts the descriptor of a result behind other units.
fn push_result(units: &mut Vec<u16>, kind: &Option<JType>) -> Result<(), AllocError>
    ensures pushed { OnOk result (units.new.items ≡ units.old.items ++ spell_result (option_map view_type kind.now)) }
{
    match kind {
        Some(kind) => push_type(units, kind),
        None => {
            units.push(0x56)?;
            Ok(())
        }
    }
}

/// Puts the descriptor of a method behind other units.
fn push_method(
    units: &mut Vec<u16>,
    parameters: &[JType],
    answer: &Option<JType>,
) -> Result<(), AllocError>
    ensures pushed { OnOk result (units.new.items ≡ units.old.items ++ spell_descriptor (types.Method (view_types parameters.now) (option_map view_type answer.now))) }
{
    units.push(0x28)?;
    push_types(units, parameters)?;
    units.push(0x29)?;
    push_result(units, answer)
}

/// The units of the descriptor of a field of this type.
pub(crate) fn spelled_type(alloc: Global, kind: &JType) -> Result<Units, AllocError>
    ensures units { IfOk result (λ units. units ≡ spell_type (view_type kind.now)) }
{
    let mut units = Vec::new(alloc);
    push_type(&mut units, kind)?;
    Units::from_vec(units)
}

/// The units of a descriptor.
pub(crate) fn spelled_descriptor(
    alloc: Global,
    descriptor: &Descriptor,
) -> Result<Units, AllocError>
    ensures units { IfOk result (λ units. units ≡ spell_descriptor (view_descriptor descriptor.now)) }
{
    match descriptor {
        Descriptor::Field(kind) => spelled_type(alloc, kind),
        Descriptor::Method { parameters, result } => {
            let mut units = Vec::new(alloc);
            push_method(&mut units, parameters.as_slice(), result)?;
            Units::from_vec(units)
        }
    }
}
