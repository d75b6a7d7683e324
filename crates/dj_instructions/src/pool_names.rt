//! What the entries of a pool name: types, fields and methods (JVMS 4.4).

ghost use Rattle.std.specs.Prelude.{◌≡◌, ◌≢◌, ℕ, IfOk, true, false, IfSome, IfNone, slice_get, IsSomeAnd};
ghost use Rattle.std.specs.Int.{is_in_range};
ghost use Rattle.std.specs.Option.{option_map, option_and_then};
ghost use Rattle.dj_names.specs.Types.{view_type, view_descriptor};
ghost use Rattle.dj_pool.specs.declared.entry.Entry.TheVariants.{NameAndType};
ghost use Rattle.dj_pool.specs.PoolFormat.{first_with, text_at, tag_of, first_of, second_of};
ghost use Rattle.dj_instructions.specs.PoolNames.{Finds, IsTypeNamed, NamesType, NamesDescriptor, NamesMember, NamesReference, view_member, view_reference};
ghost use Rattle.dj_instructions.specs.PoolParts.{NamesArray, NamesClass, HasMember, HasReference};

use crate::types::has_dimensions;
use dj_names::{ClassName, Descriptor, JType, Units};
use dj_pool::{Entry, Pool};
use std::alloc::{AllocError, Global};

/// A name and a descriptor.
#[derive(Drop)]
pub struct Member {
    pub name: Units,
    pub descriptor: Descriptor,
}

/// The tag of a Fieldref (9), a Methodref (10) or an InterfaceMethodref (11), and what it leads to.
#[derive(Drop)]
pub struct Reference {
    pub tag: u8,
    pub owner: JType,
    pub member: Member,
}

/// The index of the name of the Class entry at an index.
fn class_name_index(pool: &Pool, index: u16) -> Option<u16>
    ensures found { result ≡ option_and_then (first_with 7) (slice_get pool.now index) }
{
    pool.entry_at(index)?.class_name()
}

/// The array type whose descriptor the Utf8 entry at an index spells.
fn array_at(alloc: Global, pool: &Pool, index: u16) -> Result<Option<JType>, AllocError>
    ensures array { IfOk result (λ found. Finds (NamesArray pool.now index) (option_map view_type found)) }
{
    match pool.descriptor_at(index) {
        Some(Descriptor::Field(kind)) => {
            if has_dimensions(kind, 1) {
                Ok(Some(kind.copy(alloc)?))
            } else {
                Ok(None)
            }
        }
        Some(Descriptor::Method { .. }) => Ok(None),
        None => Ok(None),
    }
}

/// The class whose name the Utf8 entry at an index is.
fn class_at(alloc: Global, pool: &Pool, index: u16) -> Result<Option<JType>, AllocError>
    ensures class { IfOk result (λ found. Finds (NamesClass pool.now index) (option_map view_type found)) }
{
    if !pool.is_class_name_at(index) {
        return Ok(None);
    }
    match pool.text_at(index) {
        Some(units) => Ok(Some(JType::Class(ClassName::new(units.copy(alloc)?)))),
        None => Ok(None),
    }
}

/// The type that the units of the Utf8 entry at an index name.
fn type_named(alloc: Global, pool: &Pool, index: u16) -> Result<Option<JType>, AllocError>
    ensures named { IfOk result (λ found. Finds (λ type. IsSomeAnd (text_at pool.now index) (λ units. IsTypeNamed units type)) (option_map view_type found)) }
{
    match class_at(alloc, pool, index)? {
        Some(class) => Ok(Some(class)),
        None => {
            let array = array_at(alloc, pool, index)?;
            Ok(array)
        }
    }
}

/// The type that the Class entry at an index names, which shares its parts with the pool.
pub fn type_of_class(alloc: Global, pool: &Pool, index: u16) -> Result<Option<JType>, AllocError>
    ensures named { IfOk result (λ found. Finds (NamesType pool.now index) (option_map view_type found)) }
{
    match class_name_index(pool, index) {
        Some(name) => type_named(alloc, pool, name),
        None => Ok(None),
    }
}

/// The descriptor that the Utf8 entry at an index spells.
pub fn descriptor_at(
    alloc: Global,
    pool: &Pool,
    index: u16,
) -> Result<Option<Descriptor>, AllocError>
    ensures named { IfOk result (λ found. Finds (NamesDescriptor pool.now index) (option_map view_descriptor found)) }
{
    match pool.descriptor_at(index) {
        Some(descriptor) => Ok(Some(descriptor.copy(alloc)?)),
        None => Ok(None),
    }
}

/// The indices of the name and the descriptor of a NameAndType entry.
fn name_and_type(entry: &Entry) -> Option<(u16, u16)>
    ensures some { IfSome result (λ x. entry.now ≡ NameAndType x.0 x.1) }
    ensures none { IfNone result ((name descriptor : ℕ) → entry.now ≢ NameAndType name descriptor) }
{
    match entry {
        Entry::NameAndType(name, descriptor) => Some((*name, *descriptor)),
        Entry::Skip
        | Entry::Utf8(_)
        | Entry::Integer(_)
        | Entry::Float(_)
        | Entry::Long(_)
        | Entry::Double(_)
        | Entry::Class(_)
        | Entry::Text(_)
        | Entry::FieldRef(_, _)
        | Entry::MethodRef(_, _)
        | Entry::InterfaceMethodRef(_, _)
        | Entry::MethodHandle(_, _)
        | Entry::MethodType(_)
        | Entry::InvokeDynamic(_, _) => None,
    }
}

/// The name and the descriptor at these indices.
fn member_with(
    alloc: Global,
    pool: &Pool,
    name: u16,
    descriptor: u16,
) -> Result<Option<Member>, AllocError>
    ensures member { IfOk result (λ found. Finds (HasMember pool.now name descriptor) (option_map view_member found)) }
{
    let Some(units) = pool.text_at(name) else {
        return Ok(None);
    };
    match descriptor_at(alloc, pool, descriptor)? {
        Some(descriptor) => {
            let name = units.copy(alloc)?;
            Ok(Some(Member { name, descriptor }))
        }
        None => Ok(None),
    }
}

/// The name and the descriptor that the NameAndType entry at an index leads to.
pub fn member_at(alloc: Global, pool: &Pool, index: u16) -> Result<Option<Member>, AllocError>
    ensures named { IfOk result (λ found. Finds (NamesMember pool.now index) (option_map view_member found)) }
{
    let Some(entry) = pool.entry_at(index) else {
        return Ok(None);
    };
    match name_and_type(entry) {
        Some((name, descriptor)) => member_with(alloc, pool, name, descriptor),
        None => Ok(None),
    }
}

/// The class and the name and type of a reference to a field or a method, by their indices.
fn reference_parts(entry: &Entry) -> Option<(u16, u16)>
    ensures some { IfSome result (λ x. (is_in_range 9 11 (tag_of entry.now) ≡ true) × (first_of entry.now ≡ x.0) × (second_of entry.now ≡ x.1)) }
    ensures none { IfNone result (is_in_range 9 11 (tag_of entry.now) ≡ false) }
{
    match entry {
        Entry::FieldRef(class, member) => Some((*class, *member)),
        Entry::MethodRef(class, member) => Some((*class, *member)),
        Entry::InterfaceMethodRef(class, member) => Some((*class, *member)),
        Entry::Skip
        | Entry::Utf8(_)
        | Entry::Integer(_)
        | Entry::Float(_)
        | Entry::Long(_)
        | Entry::Double(_)
        | Entry::Class(_)
        | Entry::Text(_)
        | Entry::NameAndType(_, _)
        | Entry::MethodHandle(_, _)
        | Entry::MethodType(_)
        | Entry::InvokeDynamic(_, _) => None,
    }
}

/// A reference of this tag, with the class and the name and type at these indices.
fn reference_with(
    alloc: Global,
    pool: &Pool,
    tag: u8,
    class: u16,
    member: u16,
) -> Result<Option<Reference>, AllocError>
    ensures reference { IfOk result (λ found. Finds (HasReference pool.now tag class member) (option_map view_reference found)) }
{
    let Some(owner) = type_of_class(alloc, pool, class)? else {
        return Ok(None);
    };
    match member_at(alloc, pool, member)? {
        Some(member) => Ok(Some(Reference { tag, owner, member })),
        None => Ok(None),
    }
}

/// What the Fieldref, Methodref or InterfaceMethodref entry at an index leads to.
pub fn reference_at(alloc: Global, pool: &Pool, index: u16) -> Result<Option<Reference>, AllocError>
    ensures named { IfOk result (λ found. Finds (NamesReference pool.now index) (option_map view_reference found)) }
{
    let Some(entry) = pool.entry_at(index) else {
        return Ok(None);
    };
    match reference_parts(entry) {
        Some((class, member)) => reference_with(alloc, pool, entry.tag(), class, member),
        None => Ok(None),
    }
}
