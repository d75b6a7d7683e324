//! A field and a method of a class file, by what their indices lead to (JVMS 4.5, 4.6).

ghost use Rattle.std.specs.Prelude.{◌≡◌, [], Some, IsSomeAnd, IfOk, IfSome, IfNone};
ghost use Rattle.std.specs.Option.{option_copied, unwrap_or};
ghost use Rattle.dj_layout.specs.Layout.{Reads, ReadsAs};
ghost use Rattle.dj_layout.specs.Passes.{asked};
ghost use Rattle.dj_names.specs.Types as types;
ghost use Rattle.dj_names.specs.Types.{view_type, view_descriptor};
ghost use Rattle.dj_names.specs.Descriptors.{SpellsDescriptor};
ghost use Rattle.dj_pool.specs.declared.fault.BrokenKind.TheVariants as kind;
ghost use Rattle.dj_pool.specs.SharedParts.{u2};
ghost use Rattle.dj_class.specs.Views.{view_field, view_method};
ghost use Rattle.dj_pool.specs.PoolFormat.{text_at, IsFieldText, IsMethodText};
ghost use Rattle.dj_class.specs.FileFormat.{HasFieldFlags, HasOneAccess, member_name, field, method};
ghost use Rattle.dj_class.specs.Described.{DescribesField, DescribesMethod};

use crate::bodies::method_attributes_at;
use crate::constants::field_attributes_at;
use crate::flags::{are_field_flags, are_one_access};
use crate::method::Method;
use dj_layout::{Stop, fault_at, u16_at};
use dj_names::{ClassName, Descriptor, Field, Items, JType, Units};
use dj_pool::{BrokenKind, Pool, is_method_text};
use std::alloc::{AllocError, Global};

/// The flags of a field.
fn field_flags_at(bytes: &[u8], end: usize) -> Result<(u16, &[u8]), Stop<BrokenKind>>
    ensures reads { Reads (asked u2 HasFieldFlags kind.Flags) (λ x. (x.0, x.1.now)) end bytes.now result }
{
    let (flags, rest) = u16_at(bytes, end, BrokenKind::Short)?;
    if !are_field_flags(flags) {
        return Err(Stop::Fault(fault_at(bytes, end, BrokenKind::Flags)));
    }
    Ok((flags, rest))
}

/// The flags of a method.
fn method_flags_at(bytes: &[u8], end: usize) -> Result<(u16, &[u8]), Stop<BrokenKind>>
    ensures reads { Reads (asked u2 HasOneAccess kind.Flags) (λ x. (x.0, x.1.now)) end bytes.now result }
{
    let (flags, rest) = u16_at(bytes, end, BrokenKind::Short)?;
    if !are_one_access(flags) {
        return Err(Stop::Fault(fault_at(bytes, end, BrokenKind::Flags)));
    }
    Ok((flags, rest))
}

/// The index of the name of a member, and the name.
fn name_at<'p, 'b>(
    pool: &'p Pool,
    bytes: &'b [u8],
    end: usize,
) -> Result<((u16, &'p Units), &'b [u8]), Stop<BrokenKind>>
    ensures reads { Reads (member_name pool.now) (λ x. (x.0.0, x.1.now)) end bytes.now result }
    ensures name { IfOk result (λ x. text_at pool.now x.0.0 ≡ Some x.0.1.now) }
{
    let (index, rest) = u16_at(bytes, end, BrokenKind::Short)?;
    match pool.text_at(index) {
        Some(name) => Ok(((index, name), rest)),
        None => Err(Stop::Fault(fault_at(bytes, end, BrokenKind::Index))),
    }
}

/// The type that the text at an index spells, if it is a field's descriptor.
fn field_type_of(pool: &Pool, index: u16) -> Option<&JType>
    ensures some { IfSome result (λ found. IsSomeAnd (text_at pool.now index) (λ units. SpellsDescriptor units (types.Field (view_type found.now)))) }
    ensures none { IfNone result (¬ IsSomeAnd (text_at pool.now index) IsFieldText) }
{
    match pool.descriptor_at(index) {
        Some(Descriptor::Field(found)) => Some(found),
        Some(Descriptor::Method { .. }) => None,
        None => None,
    }
}

/// The descriptor that the text at an index spells, if it is a method's.
fn method_descriptor_of(pool: &Pool, index: u16) -> Option<&Descriptor>
    ensures some { IfSome result (λ read. IsSomeAnd (text_at pool.now index) (λ units. SpellsDescriptor units (view_descriptor read.now))) }
    ensures right { IfSome result (λ read. IsSomeAnd (text_at pool.now index) IsMethodText) }
    ensures none { IfNone result (¬ IsSomeAnd (text_at pool.now index) IsMethodText) }
{
    if !is_method_text(pool, index) {
        return None;
    }
    pool.descriptor_at(index)
}

/// The index of the descriptor of a field, and its type.
fn field_type_at<'p, 'b>(
    pool: &'p Pool,
    bytes: &'b [u8],
    end: usize,
) -> Result<((u16, &'p JType), &'b [u8]), Stop<BrokenKind>>
    ensures reads { Reads (asked u2 (λ index. IsSomeAnd (text_at pool.now index) IsFieldText) kind.Descriptor) (λ x. (x.0.0, x.1.now)) end bytes.now result }
    ensures spelled { IfOk result (λ x. IsSomeAnd (text_at pool.now x.0.0) (λ units. SpellsDescriptor units (types.Field (view_type x.0.1.now)))) }
{
    let (index, rest) = u16_at(bytes, end, BrokenKind::Short)?;
    match field_type_of(pool, index) {
        Some(found) => Ok(((index, found), rest)),
        None => Err(Stop::Fault(fault_at(bytes, end, BrokenKind::Descriptor))),
    }
}

/// The index of the descriptor of a method, and the descriptor.
fn method_descriptor_at<'p, 'b>(
    pool: &'p Pool,
    bytes: &'b [u8],
    end: usize,
) -> Result<((u16, &'p Descriptor), &'b [u8]), Stop<BrokenKind>>
    ensures reads { Reads (asked u2 (λ index. IsSomeAnd (text_at pool.now index) IsMethodText) kind.Descriptor) (λ x. (x.0.0, x.1.now)) end bytes.now result }
    ensures spelled { IfOk result (λ x. IsSomeAnd (text_at pool.now x.0.0) (λ units. SpellsDescriptor units (view_descriptor x.0.1.now))) }
{
    let (index, rest) = u16_at(bytes, end, BrokenKind::Short)?;
    match method_descriptor_of(pool, index) {
        Some(descriptor) => Ok(((index, descriptor), rest)),
        None => Err(Stop::Fault(fault_at(bytes, end, BrokenKind::Descriptor))),
    }
}

/// A field.
pub fn field_at<'a>(
    alloc: Global,
    pool: &Pool,
    bytes: &'a [u8],
    end: usize,
) -> Result<(Field, &'a [u8]), Stop<BrokenKind>>
    ensures reads { ReadsAs (field pool.now) (DescribesField pool.now) (λ x. (view_field x.0, x.1.now)) end bytes.now result }
{
    let (flags, rest) = field_flags_at(bytes, end)?;
    let ((_index, name), rest) = name_at(pool, rest, end)?;
    let ((descriptor, spelled), rest) = field_type_at(pool, rest, end)?;
    let (constant, rest) = field_attributes_at(alloc, pool, descriptor, rest, end)?;
    let name = name.copy(alloc)?;
    let descriptor = spelled.copy(alloc)?;
    Ok((
        Field {
            flags,
            name,
            descriptor,
            constant,
        },
        rest,
    ))
}

/// The content of a Code, if there is one, copied.
fn code_of(alloc: Global, code: Option<&[u8]>) -> Result<Option<Items<u8>>, AllocError>
    ensures copied { IfOk result (λ copy. copy ≡ option_copied code.entry) }
{
    match code {
        Some(content) => Ok(Some(Items::from_slice(alloc, content)?)),
        None => Ok(None),
    }
}

/// The classes thrown, none where there is no Exceptions.
fn thrown_of(alloc: Global, thrown: Option<Items<ClassName>>) -> Items<ClassName>
    ensures thrown { result ≡ unwrap_or thrown [] }
{
    match thrown {
        Some(names) => names,
        None => Items::new(alloc),
    }
}

/// A method.
pub fn method_at<'a>(
    alloc: Global,
    pool: &Pool,
    bytes: &'a [u8],
    end: usize,
) -> Result<(Method, &'a [u8]), Stop<BrokenKind>>
    ensures reads { ReadsAs (method pool.now) (DescribesMethod pool.now) (λ x. (view_method x.0, x.1.now)) end bytes.now result }
{
    let (flags, rest) = method_flags_at(bytes, end)?;
    let ((_index, name), rest) = name_at(pool, rest, end)?;
    let ((_descriptor, spelled), rest) = method_descriptor_at(pool, rest, end)?;
    let (found, rest) = method_attributes_at(alloc, pool, flags, rest, end)?;
    let name = name.copy(alloc)?;
    let descriptor = spelled.copy(alloc)?;
    let code = code_of(alloc, found.code)?;
    let thrown = thrown_of(alloc, found.thrown);
    Ok((
        Method {
            flags,
            name,
            descriptor,
            thrown,
            code,
        },
        rest,
    ))
}
