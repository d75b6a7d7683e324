//! The field that a name means (JLS 8.3, 15.11.1).

ghost use Rattle.std.specs.Prelude.{◌≡◌, IfOk, map};
ghost use Rattle.std.specs.Option.{option_map, option_copied};
ghost use Rattle.dj_names.specs.Types.{view_type};
ghost use Rattle.dj_meaning.specs.Members.{view_members};
ghost use Rattle.dj_meaning.specs.Fields as spec;
ghost use Rattle.dj_static.specs.Views.{known_of, view_selection};

use crate::classes::Classes;
use crate::visible::is_static;
use crate::walks::{own_field, sole_owner};
use dj_kinds::is_accessible;
use dj_names::{ClassName, Constant, Field, JType, Units, is_word};
use std::alloc::{AllocError, Global};

/// What a name selects of an expression: the length of an array, or a field through the type of it.
#[derive(Clone, Copy)]
pub enum Selection<'a> {
    Length,
    Field(&'a Field),
}

/// Whether a field is static.
pub fn is_of_class(field: &Field) -> bool
    ensures of_class { result ≡ (known_of field.now).of_class }
{
    is_static(field.flags)
}

/// The value of a field that is a constant variable: static and final, with a constant.
pub fn constant_of(field: &Field) -> Option<&Constant>
    ensures constant { option_copied result ≡ (known_of field.now).constant }
{
    if field.flags & 0x0008 != 0 && field.flags & 0x0010 != 0 {
        field.constant.as_ref()
    } else {
        None
    }
}

/// The field that a name means in a class, used through an expression of a type or none, where it may
/// be used.
fn field_of<'a>(
    alloc: Global,
    classes: &Classes<'a>,
    through: Option<&JType>,
    class: &ClassName,
    name: &Units,
) -> Result<Option<&'a Field>, AllocError>
    ensures field { IfOk result (λ found. option_map known_of (option_copied found)
        ≡ spec.field_of classes.now.headers.now (map view_members classes.now.members.now) classes.now.from.now (option_map view_type (option_copied through.entry)) class.now name.now) }
{
    match sole_owner(alloc, classes, class, name)? {
        None => Ok(None),
        Some(place) => match own_field(classes, place, name) {
            None => Ok(None),
            Some(own) => {
                if is_accessible(
                    classes.headers,
                    classes.members,
                    classes.from,
                    own.member,
                    through,
                ) {
                    Ok(Some(own.field))
                } else {
                    Ok(None)
                }
            }
        },
    }
}

/// What a name selects of an expression of a type.
pub fn selected<'a>(
    alloc: Global,
    classes: &Classes<'a>,
    name: &Units,
    kind: &JType,
) -> Result<Option<Selection<'a>>, AllocError>
    ensures selected { IfOk result (λ found. option_map (view_selection (view_type kind.now)) found
        ≡ spec.selected classes.now.headers.now (map view_members classes.now.members.now) classes.now.from.now name.now (view_type kind.now)) }
{
    match kind {
        JType::Class(class) => match field_of(alloc, classes, Some(kind), class, name)? {
            Some(field) => Ok(Some(Selection::Field(field))),
            None => Ok(None),
        },
        JType::Array(_) => {
            if is_word(name.as_slice(), "length") {
                Ok(Some(Selection::Length))
            } else {
                Ok(None)
            }
        }
        JType::Boolean
        | JType::Byte
        | JType::Char
        | JType::Short
        | JType::Int
        | JType::Long
        | JType::Float
        | JType::Double => Ok(None),
    }
}

/// A static field that is named by its class.
pub fn named_field<'a>(
    alloc: Global,
    classes: &Classes<'a>,
    class: &ClassName,
    name: &Units,
) -> Result<Option<&'a Field>, AllocError>
    ensures field { IfOk result (λ found. option_map known_of (option_copied found)
        ≡ spec.named_field classes.now.headers.now (map view_members classes.now.members.now) classes.now.from.now class.now name.now) }
{
    match field_of(alloc, classes, None, class, name)? {
        None => Ok(None),
        Some(field) => {
            if is_of_class(field) {
                Ok(Some(field))
            } else {
                Ok(None)
            }
        }
    }
}
