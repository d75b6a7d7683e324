//! Attributes that a class file has to have right: ConstantValue, Exceptions and Code (JVMS 4.7).

ghost use Rattle.std.specs.Prelude.{◌≡◌, ◌≢◌, ◌↔◌, [], ◌∷◌, ◌++◌, Some, IsTrue, IfOk, IfSome, IfNone, length};
ghost use Rattle.dj_layout.specs.Layout.{Reads};
ghost use Rattle.dj_names.specs.Types.{view_type};
ghost use Rattle.dj_pool.specs.PoolFormat.{text_at};
ghost use Rattle.dj_class.specs.FileFormat.{named, constant_tag, index_of, IsConstantIndex, IsConstantValue};
ghost use Rattle.dj_class.specs.Described.{constant_of};
ghost use Rattle.dj_class.specs.FileParts.{constant_at};

use dj_layout::{Stop, fault_at};
use dj_names::{Constant, Descriptor, JType, is_word};
use dj_pool::{BrokenKind, Entry, Pool, attribute_at, has_tag, is_text};
use std::alloc::{AllocError, Global};

/// An attribute whose name is a text.
pub fn named_at<'a>(
    pool: &Pool,
    bytes: &'a [u8],
    end: usize,
) -> Result<((u16, &'a [u8]), &'a [u8]), Stop<BrokenKind>>
    ensures reads { Reads (named pool.now) (λ x. (record { name = x.0.0; content = x.0.1.now }, x.1.now)) end bytes.now result }
{
    let ((name, content), rest) = attribute_at(bytes, end)?;
    if !is_text(pool, name) {
        return Err(Stop::Fault(fault_at(bytes, end, BrokenKind::Index)));
    }
    Ok(((name, content), rest))
}

/// The tag that the constant of a field of this type has, where it may have one.
fn constant_tag(kind: &JType) -> Option<u8>
    ensures tag { result ≡ constant_tag (view_type kind.now) }
{
    match kind {
        JType::Boolean | JType::Byte | JType::Char | JType::Short | JType::Int => Some(3),
        JType::Long => Some(5),
        JType::Float => Some(4),
        JType::Double => Some(6),
        JType::Class(name) => {
            if is_word(name.as_slice(), "java/lang/String") {
                Some(8)
            } else {
                None
            }
        }
        JType::Array(_) => None,
    }
}

/// Whether at an index is an entry of the tag that the constant of a field with this descriptor has.
fn is_constant_index(pool: &Pool, descriptor: u16, index: u16) -> bool
    ensures exact { IsTrue result ↔ IsConstantIndex pool.now descriptor index }
{
    match pool.descriptor_at(descriptor) {
        Some(Descriptor::Field(kind)) => match constant_tag(kind) {
            Some(tag) => has_tag(pool, index, tag),
            None => false,
        },
        Some(Descriptor::Method { .. }) => false,
        None => false,
    }
}

/// The index that a content of two bytes is.
fn index_of(content: &[u8]) -> Option<u16>
    ensures some { IfSome result (λ index. index ≡ index_of content.now) }
    ensures long { IfSome result (λ index. length content.now ≡ 2) }
    ensures none { IfNone result (¬ (length content.now ≡ 2)) }
{
    match content {
        [high, low] => Some(u16::from_be_bytes([*high, *low])),
        _ => None,
    }
}

/// The index that is the content of a ConstantValue of a field with this descriptor.
pub fn constant_index(pool: &Pool, descriptor: u16, content: &[u8]) -> Option<u16>
    ensures some { IfSome result (λ index. index ≡ index_of content.now) }
    ensures right { IfSome result (λ index. IsConstantValue pool.now descriptor content.now) }
    ensures none { IfNone result (¬ IsConstantValue pool.now descriptor content.now) }
{
    let index = index_of(content)?;
    if !is_constant_index(pool, descriptor, index) {
        return None;
    }
    Some(index)
}

/// The constant of an entry.
fn constant_of(alloc: Global, pool: &Pool, entry: &Entry) -> Result<Option<Constant>, AllocError>
    ensures constant { IfOk result (λ found. found ≡ constant_of pool.now entry.now) }
{
    match entry {
        Entry::Integer(number) => Ok(Some(Constant::Int(*number))),
        Entry::Float(bits) => Ok(Some(Constant::Float(*bits))),
        Entry::Long(number) => Ok(Some(Constant::Long(*number))),
        Entry::Double(bits) => Ok(Some(Constant::Double(*bits))),
        Entry::Text(units) => match pool.text_at(*units) {
            Some(units) => Ok(Some(Constant::Text(units.copy(alloc)?))),
            None => Ok(None),
        },
        Entry::Skip
        | Entry::Utf8(_)
        | Entry::Class(_)
        | Entry::FieldRef(_, _)
        | Entry::MethodRef(_, _)
        | Entry::InterfaceMethodRef(_, _)
        | Entry::NameAndType(_, _)
        | Entry::MethodHandle(_, _)
        | Entry::MethodType(_)
        | Entry::InvokeDynamic(_, _) => Ok(None),
    }
}

/// The constant at an index, if there is an index.
pub fn constant_at(
    alloc: Global,
    pool: &Pool,
    found: Option<u16>,
) -> Result<Option<Constant>, AllocError>
    ensures constant { IfOk result (λ constant. constant ≡ constant_at pool.now found) }
{
    let Some(index) = found else {
        return Ok(None);
    };
    match pool.entry_at(index) {
        Some(entry) => constant_of(alloc, pool, entry),
        None => Ok(None),
    }
}
