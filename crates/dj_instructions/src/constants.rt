//! The constants that instructions load from the pool (JVMS 6.5, `ldc`).

ghost use Rattle.std.specs.Prelude.{◌≡◌, ◌==◌, slice_get};
ghost use Rattle.std.specs.Option.{option_map};
ghost use Rattle.dj_names.specs.declared.members.Constant.TheVariants as constant;
ghost use Rattle.dj_pool.specs.PoolFormat.{text_at};
ghost use Rattle.dj_instructions.specs.Instructions.{Push, PushClass, PushMethodType, PushHandle, view_instruction};
ghost use Rattle.dj_instructions.specs.PoolMeanings.{Known, OfType, OfDescriptor, OfReference, word_constant, long_constant};
ghost use Rattle.dj_instructions.specs.Answers.{IsAnswer};

use crate::instruction::Instruction;
use crate::pool_names::{descriptor_at, reference_at, type_of_class};
use dj_names::Constant;
use dj_pool::{Entry, Pool};
use std::alloc::{AllocError, Global};

/// The type that a Class entry names, as a constant.
fn class_constant(alloc: Global, pool: &Pool, index: u16) -> Result<Option<Instruction>, AllocError>
    ensures meant { IsAnswer pool.now (OfType index (λ type. Some (PushClass type))) result }
{
    match type_of_class(alloc, pool, index)? {
        Some(class) => Ok(Some(Instruction::PushClass(class))),
        None => Ok(None),
    }
}

/// A method type, by the index of its descriptor.
fn method_type(alloc: Global, pool: &Pool, index: u16) -> Result<Option<Instruction>, AllocError>
    ensures meant { IsAnswer pool.now (OfDescriptor index (λ d. Some (PushMethodType d))) result }
{
    match descriptor_at(alloc, pool, index)? {
        Some(descriptor) => Ok(Some(Instruction::PushMethodType(descriptor))),
        None => Ok(None),
    }
}

/// A method handle of a kind, by the index of its reference.
fn method_handle(
    alloc: Global,
    pool: &Pool,
    kind: u8,
    index: u16,
) -> Result<Option<Instruction>, AllocError>
    ensures meant { IsAnswer pool.now (OfReference index (λ r. Some (PushHandle kind (r.tag == 11) r.owner r.member.name r.member.descriptor))) result }
{
    match reference_at(alloc, pool, index)? {
        Some(reference) => Ok(Some(Instruction::PushHandle {
            kind,
            interface: reference.tag == 11,
            owner: reference.owner,
            name: reference.member.name,
            descriptor: reference.member.descriptor,
        })),
        None => Ok(None),
    }
}

/// A text, by the index of its units.
fn text_constant(alloc: Global, pool: &Pool, index: u16) -> Result<Option<Instruction>, AllocError>
    ensures meant { IsAnswer pool.now (Known (option_map (λ text. Push (constant.Text text)) (text_at pool.now index))) result }
{
    match pool.text_at(index) {
        Some(units) => Ok(Some(Instruction::Push(Constant::Text(units.copy(alloc)?)))),
        None => Ok(None),
    }
}

/// A constant of one word.
pub fn word_constant(
    alloc: Global,
    pool: &Pool,
    index: u16,
) -> Result<Option<Instruction>, AllocError>
    ensures meant { IsAnswer pool.now (word_constant pool.now index (slice_get pool.now index)) result }
{
    let Some(entry) = pool.entry_at(index) else {
        return Ok(None);
    };
    match entry {
        Entry::Integer(number) => Ok(Some(Instruction::Push(Constant::Int(*number)))),
        Entry::Float(bits) => Ok(Some(Instruction::Push(Constant::Float(*bits)))),
        Entry::Class(_) => class_constant(alloc, pool, index),
        Entry::Text(units) => text_constant(alloc, pool, *units),
        Entry::MethodHandle(kind, reference) => method_handle(alloc, pool, *kind, *reference),
        Entry::MethodType(descriptor) => method_type(alloc, pool, *descriptor),
        Entry::Skip
        | Entry::Utf8(_)
        | Entry::Long(_)
        | Entry::Double(_)
        | Entry::FieldRef(_, _)
        | Entry::MethodRef(_, _)
        | Entry::InterfaceMethodRef(_, _)
        | Entry::NameAndType(_, _)
        | Entry::InvokeDynamic(_, _) => Ok(None),
    }
}

/// A constant of two words.
pub fn long_constant(pool: &Pool, index: u16) -> Option<Instruction>
    ensures pushed { option_map view_instruction result ≡ long_constant (slice_get pool.now index) }
{
    match pool.entry_at(index)? {
        Entry::Long(number) => Some(Instruction::Push(Constant::Long(*number))),
        Entry::Double(bits) => Some(Instruction::Push(Constant::Double(*bits))),
        Entry::Skip
        | Entry::Utf8(_)
        | Entry::Integer(_)
        | Entry::Float(_)
        | Entry::Class(_)
        | Entry::Text(_)
        | Entry::FieldRef(_, _)
        | Entry::MethodRef(_, _)
        | Entry::InterfaceMethodRef(_, _)
        | Entry::NameAndType(_, _)
        | Entry::MethodHandle(_, _)
        | Entry::MethodType(_)
        | Entry::InvokeDynamic(_, _) => None,
    }
}
