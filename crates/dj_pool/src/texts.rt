//! Which kind of text an index of the pool leads to, and whether it is the kind that is asked (JVMS 4.4).

ghost use Rattle.std.specs.Prelude.{◌≡◌, ◌↔◌, IsTrue, IsSome, IsSomeAnd, Some, IfSome, IfOk, slice_get};
ghost use Rattle.std.specs.Option.{option_copied, option_and_then};
ghost use Rattle.dj_names.specs.Types.{view_type};
ghost use Rattle.dj_pool.specs.PoolFormat.{text_at, HasTag, HasReference, IsFieldText, IsMethodText, IsArrayText, IsDescriptorText, IsClassText, IsFound, LeadsRight, second_with, class_at, IsClassIndex, descriptor_behind};
ghost use Rattle.dj_pool.specs.PoolTable.{is_array_type};

use crate::entry::Ask;
use crate::pool::Pool;
use dj_names::{ClassName, Descriptor, JType, Units};
use std::alloc::{AllocError, Global};

/// Whether an entry of this tag is at an index.
pub fn has_tag(pool: &Pool, index: u16, tag: u8) -> bool
    ensures exact { IsTrue result ↔ HasTag pool.now index tag }
{
    match pool.entry_at(index) {
        Some(entry) => entry.tag() == tag,
        None => false,
    }
}

/// Whether a reference to a field or a method is at an index.
fn has_reference(pool: &Pool, index: u16) -> bool
    ensures exact { IsTrue result ↔ HasReference pool.now index }
{
    has_tag(pool, index, 9) || has_tag(pool, index, 10) || has_tag(pool, index, 11)
}

/// Whether a text is at an index.
pub fn is_text(pool: &Pool, index: u16) -> bool
    ensures exact { IsTrue result ↔ IsSome (text_at pool.now index) }
{
    pool.text_at(index).is_some()
}

/// Whether the descriptor of a field is at an index.
pub fn is_field_text(pool: &Pool, index: u16) -> bool
    ensures exact { IsTrue result ↔ IsSomeAnd (text_at pool.now index) IsFieldText }
{
    match pool.descriptor_at(index) {
        Some(Descriptor::Field(_)) => true,
        Some(Descriptor::Method { .. }) => false,
        None => false,
    }
}

/// Whether the descriptor of a method is at an index.
pub fn is_method_text(pool: &Pool, index: u16) -> bool
    ensures exact { IsTrue result ↔ IsSomeAnd (text_at pool.now index) IsMethodText }
{
    match pool.descriptor_at(index) {
        Some(Descriptor::Field(_)) => false,
        Some(Descriptor::Method { .. }) => true,
        None => false,
    }
}

/// Whether the type is an array's.
fn is_array(kind: &JType) -> bool
    ensures array { result ≡ is_array_type (view_type kind.now) }
{
    match kind {
        JType::Array(_) => true,
        JType::Boolean
        | JType::Byte
        | JType::Char
        | JType::Short
        | JType::Int
        | JType::Long
        | JType::Float
        | JType::Double
        | JType::Class(_) => false,
    }
}

/// Whether the descriptor of an array type is at an index.
fn is_array_text(pool: &Pool, index: u16) -> bool
    ensures exact { IsTrue result ↔ IsSomeAnd (text_at pool.now index) IsArrayText }
{
    match pool.descriptor_at(index) {
        Some(Descriptor::Field(kind)) => is_array(kind),
        Some(Descriptor::Method { .. }) => false,
        None => false,
    }
}

/// Whether the text at an index, if there is one, is what a Class entry may lead to.
fn is_class_text(pool: &Pool, index: u16) -> bool
    ensures exact { IsTrue result ↔ IfSome (text_at pool.now index) IsClassText }
{
    !is_text(pool, index) || pool.is_class_name_at(index) || is_array_text(pool, index)
}

/// Whether the text at an index, if there is one, is a descriptor.
fn is_descriptor_text(pool: &Pool, index: u16) -> bool
    ensures exact { IsTrue result ↔ IfSome (text_at pool.now index) IsDescriptorText }
{
    !is_text(pool, index) || is_field_text(pool, index) || is_method_text(pool, index)
}

/// Whether the text at an index, if there is one, is the descriptor of a method.
fn is_method_type(pool: &Pool, index: u16) -> bool
    ensures exact { IsTrue result ↔ IfSome (text_at pool.now index) IsMethodText }
{
    !is_text(pool, index) || is_method_text(pool, index)
}

/// The index of the descriptor of the NameAndType entry at an index.
fn descriptor_index(pool: &Pool, index: u16) -> Option<u16>
    ensures found { result ≡ option_and_then (second_with 12) (slice_get pool.now index) }
{
    pool.entry_at(index)?.descriptor()
}

/// Whether the descriptor that a NameAndType leads to, if it leads to a text, is a field's.
fn is_field_member(pool: &Pool, index: u16) -> bool
    ensures exact { IsTrue result ↔ IfSome (descriptor_behind pool.now index) IsFieldText }
{
    match descriptor_index(pool, index) {
        Some(descriptor) => !is_text(pool, descriptor) || is_field_text(pool, descriptor),
        None => true,
    }
}

/// Whether the descriptor that a NameAndType leads to, if it leads to a text, is a method's.
fn is_method_member(pool: &Pool, index: u16) -> bool
    ensures exact { IsTrue result ↔ IfSome (descriptor_behind pool.now index) IsMethodText }
{
    match descriptor_index(pool, index) {
        Some(descriptor) => is_method_type(pool, descriptor),
        None => true,
    }
}

/// Whether at an index is an entry of the tag that is asked.
pub fn is_found(pool: &Pool, ask: Ask, index: u16) -> bool
    ensures exact { IsTrue result ↔ IsFound ask (Some pool.now) index }
{
    match ask {
        Ask::Free => true,
        Ask::Text => has_tag(pool, index, 1),
        Ask::ClassText => has_tag(pool, index, 1),
        Ask::AnyText => has_tag(pool, index, 1),
        Ask::MethodText => has_tag(pool, index, 1),
        Ask::Class => has_tag(pool, index, 7),
        Ask::FieldMember => has_tag(pool, index, 12),
        Ask::MethodMember => has_tag(pool, index, 12),
        Ask::Reference => has_reference(pool, index),
    }
}

/// Whether the text that an index leads to, if it leads to one, is of the kind that is asked.
pub fn leads_right(pool: &Pool, ask: Ask, index: u16) -> bool
    ensures exact { IsTrue result ↔ LeadsRight ask (Some pool.now) index }
{
    match ask {
        Ask::Free => true,
        Ask::Text => true,
        Ask::ClassText => is_class_text(pool, index),
        Ask::AnyText => is_descriptor_text(pool, index),
        Ask::MethodText => is_method_type(pool, index),
        Ask::Class => true,
        Ask::FieldMember => is_field_member(pool, index),
        Ask::MethodMember => is_method_member(pool, index),
        Ask::Reference => true,
    }
}

/// The units that the Class entry at an index leads to.
pub fn class_text_at(pool: &Pool, index: u16) -> Option<&Units>
    ensures class { option_copied result ≡ class_at pool.now index }
{
    let name = pool.entry_at(index)?.class_name()?;
    pool.text_at(name)
}

/// Whether an index is that of a class, no array.
pub fn is_class_index(pool: &Pool, index: u16) -> bool
    ensures exact { IsTrue result ↔ IsClassIndex pool.now index }
{
    match pool.entry_at(index) {
        Some(entry) => match entry.class_name() {
            Some(name) => pool.is_class_name_at(name),
            None => false,
        },
        None => false,
    }
}

/// The name that the Class entry at an index leads to, if it leads to one.
pub fn class_name_of(
    alloc: Global,
    pool: &Pool,
    index: u16,
) -> Result<Option<ClassName>, AllocError>
    ensures name { IfOk result (λ name. name ≡ class_at pool.now index) }
{
    match class_text_at(pool, index) {
        Some(units) => Ok(Some(ClassName::new(units.copy(alloc)?))),
        None => Ok(None),
    }
}
