//! The instructions that name fields and methods (JVMS 6.5).

ghost use Rattle.std.specs.Prelude.{◌≡◌, IfSome, IfNone, slice_get};
ghost use Rattle.std.specs.Option.{option_map};
ghost use Rattle.dj_names.specs.Types.{view_type, view_descriptor};
ghost use Rattle.dj_pool.specs.declared.entry.Entry.TheVariants.{InvokeDynamic};
ghost use Rattle.dj_instructions.specs.Instructions.{view_field_ref, view_method_ref, view_instruction};
ghost use Rattle.dj_instructions.specs.PoolNames.{view_reference};
ghost use Rattle.dj_instructions.specs.PoolMeanings.{Known, OfReference, OfMember, field_with, method_with, field_of, method_of, access, access_of, call, call_of, is_plain_name, dynamic_call, dynamic};
ghost use Rattle.dj_instructions.specs.Answers.{IsAnswer};

use crate::instruction::Instruction;
use crate::pool_names::{Member, Reference, member_at, reference_at};
use crate::references::{FieldRef, MethodRef};
use dj_names::{Descriptor, JType, Units, is_constructor, is_initialiser};
use dj_pool::{Entry, Pool};
use std::alloc::{AllocError, Global};

/// Whether a name is neither.
fn is_plain_name(name: &Units) -> bool
    ensures plain { result ≡ is_plain_name name.now }
{
    !(is_constructor(name) || is_initialiser(name))
}

/// The field of a descriptor, if it is a field's.
fn field_with(owner: JType, name: Units, descriptor: Descriptor) -> Option<FieldRef>
    ensures field { option_map view_field_ref result ≡ field_with (view_type owner) name (view_descriptor descriptor) }
{
    match descriptor {
        Descriptor::Field(kind) => Some(FieldRef { owner, name, kind }),
        Descriptor::Method { .. } => None,
    }
}

/// The method of a descriptor, if it is a method's.
fn method_with(
    owner: JType,
    interface: bool,
    name: Units,
    descriptor: Descriptor,
) -> Option<MethodRef>
    ensures method { option_map view_method_ref result ≡ method_with (view_type owner) interface name (view_descriptor descriptor) }
{
    match descriptor {
        Descriptor::Field(_) => None,
        Descriptor::Method { parameters, result } => Some(MethodRef {
            owner,
            interface,
            name,
            descriptor: Descriptor::Method { parameters, result },
        }),
    }
}

/// The field of a Fieldref.
fn field_of(reference: Reference) -> Option<FieldRef>
    ensures field { option_map view_field_ref result ≡ field_of (view_reference reference) }
{
    let Reference { tag, owner, member } = reference;
    let Member { name, descriptor } = member;
    match tag {
        9 => field_with(owner, name, descriptor),
        _ => None,
    }
}

/// The method of a Methodref or an InterfaceMethodref.
fn method_of(reference: Reference) -> Option<MethodRef>
    ensures method { option_map view_method_ref result ≡ method_of (view_reference reference) }
{
    let Reference { tag, owner, member } = reference;
    let Member { name, descriptor } = member;
    match tag {
        10 | 11 => method_with(owner, tag == 11, name, descriptor),
        _ => None,
    }
}

/// An access to a field.
fn access(opcode: u8, field: FieldRef) -> Option<Instruction>
    ensures access { option_map view_instruction result ≡ access opcode (view_field_ref field) }
{
    match opcode {
        178 => Some(Instruction::GetStatic(field)),
        179 => Some(Instruction::PutStatic(field)),
        180 => Some(Instruction::GetField(field)),
        181 => Some(Instruction::PutField(field)),
        _ => None,
    }
}

/// A call of a method.
fn call(opcode: u8, method: MethodRef) -> Option<Instruction>
    ensures call { option_map view_instruction result ≡ call opcode (view_method_ref method) }
{
    match opcode {
        182 if is_plain_name(&method.name) && !method.interface => {
            Some(Instruction::InvokeVirtual(method))
        }
        183 if !is_initialiser(&method.name) => Some(Instruction::InvokeSpecial(method)),
        184 if is_plain_name(&method.name) => Some(Instruction::InvokeStatic(method)),
        185 if is_plain_name(&method.name) && method.interface => {
            Some(Instruction::InvokeInterface(method))
        }
        _ => None,
    }
}

/// What a reference to a field means behind an opcode.
fn access_of(opcode: u8, reference: Reference) -> Option<Instruction>
    ensures access { option_map view_instruction result ≡ access_of opcode (view_reference reference) }
{
    access(opcode, field_of(reference)?)
}

/// What a reference to a method means behind an opcode.
fn call_of(opcode: u8, reference: Reference) -> Option<Instruction>
    ensures call { option_map view_instruction result ≡ call_of opcode (view_reference reference) }
{
    call(opcode, method_of(reference)?)
}

/// An access to the field at an index.
pub fn field_access(
    alloc: Global,
    pool: &Pool,
    opcode: u8,
    index: u16,
) -> Result<Option<Instruction>, AllocError>
    ensures meant { IsAnswer pool.now (OfReference index (access_of opcode)) result }
{
    match reference_at(alloc, pool, index)? {
        Some(reference) => Ok(access_of(opcode, reference)),
        None => Ok(None),
    }
}

/// A call of the method at an index.
pub fn method_call(
    alloc: Global,
    pool: &Pool,
    opcode: u8,
    index: u16,
) -> Result<Option<Instruction>, AllocError>
    ensures meant { IsAnswer pool.now (OfReference index (call_of opcode)) result }
{
    match reference_at(alloc, pool, index)? {
        Some(reference) => Ok(call_of(opcode, reference)),
        None => Ok(None),
    }
}

/// A call site of a method's descriptor.
fn call_site(bootstrap: u16, member: Member) -> Option<Instruction>
    ensures call { option_map view_instruction result ≡ dynamic_call bootstrap member.name (view_descriptor member.descriptor) }
{
    let Member { name, descriptor } = member;
    match descriptor {
        Descriptor::Method { parameters, result } if is_plain_name(&name) => {
            Some(Instruction::InvokeDynamic {
                bootstrap,
                name,
                descriptor: Descriptor::Method { parameters, result },
            })
        }
        Descriptor::Method { .. } => None,
        Descriptor::Field(_) => None,
    }
}

/// The bootstrap method and the name and type of an InvokeDynamic entry.
fn call_site_parts(entry: &Entry) -> Option<(u16, u16)>
    ensures some { IfSome result (λ x. entry.now ≡ InvokeDynamic x.0 x.1) }
    ensures none { IfNone result (dynamic (Some entry.now) ≡ Known None) }
{
    match entry {
        Entry::InvokeDynamic(bootstrap, member) => Some((*bootstrap, *member)),
        Entry::Skip
        | Entry::Utf8(_)
        | Entry::Integer(_)
        | Entry::Float(_)
        | Entry::Long(_)
        | Entry::Double(_)
        | Entry::Class(_)
        | Entry::Text(_)
        | Entry::FieldRef(_, _)
        | Entry::MethodRef(_, _)
        | Entry::InterfaceMethodRef(_, _)
        | Entry::NameAndType(_, _)
        | Entry::MethodHandle(_, _)
        | Entry::MethodType(_) => None,
    }
}

/// `invokedynamic` with the name and type at an index.
fn dynamic_with(
    alloc: Global,
    pool: &Pool,
    bootstrap: u16,
    index: u16,
) -> Result<Option<Instruction>, AllocError>
    ensures meant { IsAnswer pool.now (OfMember index (λ m. dynamic_call bootstrap m.name m.descriptor)) result }
{
    match member_at(alloc, pool, index)? {
        Some(member) => Ok(call_site(bootstrap, member)),
        None => Ok(None),
    }
}

/// `invokedynamic` of the entry at an index.
pub fn dynamic(alloc: Global, pool: &Pool, index: u16) -> Result<Option<Instruction>, AllocError>
    ensures meant { IsAnswer pool.now (dynamic (slice_get pool.now index)) result }
{
    let Some(entry) = pool.entry_at(index) else {
        return Ok(None);
    };
    match call_site_parts(entry) {
        Some((bootstrap, member)) => dynamic_with(alloc, pool, bootstrap, member),
        None => Ok(None),
    }
}
