//! The instructions that make arrays and objects, or look at their types (JVMS 6.5).

ghost use Rattle.std.specs.Prelude.{◌≡◌};
ghost use Rattle.std.specs.Option.{option_map};
ghost use Rattle.dj_names.specs.Types.{view_type};
ghost use Rattle.dj_instructions.specs.Instructions.{CheckCast, InstanceOf, view_instruction};
ghost use Rattle.dj_instructions.specs.PoolMeanings.{OfType, primitive_of, primitive_array, new_object, array_of, sized_array};
ghost use Rattle.dj_instructions.specs.Answers.{IsAnswer};

use crate::instruction::Instruction;
use crate::pool_names::type_of_class;
use crate::types::has_dimensions;
use dj_names::JType;
use dj_pool::Pool;
use std::alloc::{AllocError, Global};

/// The type of the elements of `newarray`, by its operand.
fn primitive_of(operand: u8) -> Option<JType>
    ensures primitive { option_map view_type result ≡ primitive_of operand }
{
    match operand {
        4 => Some(JType::Boolean),
        5 => Some(JType::Char),
        6 => Some(JType::Float),
        7 => Some(JType::Double),
        8 => Some(JType::Byte),
        9 => Some(JType::Short),
        10 => Some(JType::Int),
        11 => Some(JType::Long),
        _ => None,
    }
}

/// `newarray` with this operand.
pub fn primitive_array(operand: u8) -> Option<Instruction>
    ensures made { option_map view_instruction result ≡ primitive_array operand }
{
    Some(Instruction::NewArray(primitive_of(operand)?))
}

/// An object of a class that isn't an array.
fn new_object(kind: JType) -> Option<Instruction>
    ensures made { option_map view_instruction result ≡ new_object (view_type kind) }
{
    match kind {
        JType::Class(name) => Some(Instruction::New(name)),
        JType::Boolean
        | JType::Byte
        | JType::Char
        | JType::Short
        | JType::Int
        | JType::Long
        | JType::Float
        | JType::Double
        | JType::Array(_) => None,
    }
}

/// An array of such elements.
fn array_of(element: JType) -> Option<Instruction>
    ensures made { option_map view_instruction result ≡ array_of (view_type element) }
{
    if has_dimensions(&element, 255) {
        return None;
    }
    Some(Instruction::NewArray(element))
}

/// An array with so many sizes.
fn sized_array(sizes: u8, kind: JType) -> Option<Instruction>
    ensures made { option_map view_instruction result ≡ sized_array sizes (view_type kind) }
{
    if sizes == 0 || !has_dimensions(&kind, sizes) {
        return None;
    }
    Some(Instruction::MultiNewArray(kind, sizes))
}

/// `new` of the class at an index.
pub fn new_at(alloc: Global, pool: &Pool, index: u16) -> Result<Option<Instruction>, AllocError>
    ensures meant { IsAnswer pool.now (OfType index new_object) result }
{
    match type_of_class(alloc, pool, index)? {
        Some(kind) => Ok(new_object(kind)),
        None => Ok(None),
    }
}

/// `anewarray` of the type at an index.
pub fn new_array_at(
    alloc: Global,
    pool: &Pool,
    index: u16,
) -> Result<Option<Instruction>, AllocError>
    ensures meant { IsAnswer pool.now (OfType index array_of) result }
{
    match type_of_class(alloc, pool, index)? {
        Some(element) => Ok(array_of(element)),
        None => Ok(None),
    }
}

/// `multianewarray` of the type at an index.
pub fn sized_array_at(
    alloc: Global,
    pool: &Pool,
    index: u16,
    sizes: u8,
) -> Result<Option<Instruction>, AllocError>
    ensures meant { IsAnswer pool.now (OfType index (sized_array sizes)) result }
{
    match type_of_class(alloc, pool, index)? {
        Some(kind) => Ok(sized_array(sizes, kind)),
        None => Ok(None),
    }
}

/// `checkcast` to the type at an index.
pub fn cast_at(alloc: Global, pool: &Pool, index: u16) -> Result<Option<Instruction>, AllocError>
    ensures meant { IsAnswer pool.now (OfType index (λ type. Some (CheckCast type))) result }
{
    match type_of_class(alloc, pool, index)? {
        Some(kind) => Ok(Some(Instruction::CheckCast(kind))),
        None => Ok(None),
    }
}

/// `instanceof` of the type at an index.
pub fn instance_at(
    alloc: Global,
    pool: &Pool,
    index: u16,
) -> Result<Option<Instruction>, AllocError>
    ensures meant { IsAnswer pool.now (OfType index (λ type. Some (InstanceOf type))) result }
{
    match type_of_class(alloc, pool, index)? {
        Some(kind) => Ok(Some(Instruction::InstanceOf(kind))),
        None => Ok(None),
    }
}
