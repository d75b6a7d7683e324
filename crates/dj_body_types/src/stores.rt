//! Which fields may be assigned (JLS 8.3.1.2, 10.7, 15.26.1).

ghost use Rattle.std.specs.Prelude.{◌≡◌, ◌&&◌, IfOk, is_some};
ghost use Rattle.std.specs.Option.{option_map, option_copied};
ghost use Rattle.dj_names.specs.Types.{view_static, view_type};
ghost use Rattle.dj_meaning.specs.Members.{view_field};
ghost use Rattle.dj_meaning.specs.StaticTypes.{typed};
ghost use Rattle.dj_typing.specs.Operands.{if_typed};
ghost use Rattle.dj_typed.specs.Stores as spec;
ghost use Rattle.dj_checked.specs.Sites.{site_of};

use crate::labels::both;
use dj_checked::{Site, is_typed, plain, selected_type, static_type};
use dj_names::{ClassName, Field, JType, StaticType, Units};
use dj_static::{own_field, sole_owner};
use std::alloc::{AllocError, Global};

/// Whether a field of a class may not be assigned in another class, or nowhere.
fn is_fixed(from: &ClassName, owner: &ClassName, field: &Field) -> bool
    ensures fixed { result ≡ spec.is_fixed from.now owner.now (view_field field.now) }
{
    field.flags & 0x0010 != 0
        && (owner != from || (field.flags & 0x0008 != 0 && field.constant.is_some()))
}

/// Whether the field that a name means in a class may be assigned.
fn may_assign(
    alloc: Global,
    site: &Site<'_>,
    class: &ClassName,
    name: &Units,
) -> Result<bool, AllocError>
    ensures may { IfOk result (λ may. may ≡ spec.may_assign (site_of site.now) class.now name.now) }
{
    let classes = &site.classes;
    match sole_owner(alloc, classes, class, name)? {
        None => Ok(false),
        Some(place) => match own_field(classes, place, name) {
            None => Ok(false),
            Some(own) => {
                let owner = &classes.headers.as_slice()[place].name;
                Ok(!is_fixed(classes.from, owner, own.field))
            }
        },
    }
}

/// Whether a name selects a field of an object that may be assigned, where the object has a type.
pub fn may_set(
    alloc: Global,
    site: &Site<'_>,
    object: &Option<StaticType>,
    name: &Units,
) -> Result<bool, AllocError>
    ensures may { IfOk result (λ may. may ≡ if_typed (option_map view_static object.now) (spec.may_set_of (site_of site.now) name.now)) }
{
    match object {
        None => Ok(true),
        Some(StaticType::Of(JType::Class(class))) => {
            let found = set_type(alloc, site, object, name)?;
            let may = may_assign(alloc, site, class, name)?;
            Ok(both(is_typed(&found), may))
        }
        Some(_) => Ok(false),
    }
}

/// The type of the field that a name selects of an object that may have a type.
pub fn set_type(
    alloc: Global,
    site: &Site<'_>,
    object: &Option<StaticType>,
    name: &Units,
) -> Result<Option<StaticType>, AllocError>
    ensures typed { IfOk result (λ found. option_map view_static found ≡ typed (spec.set_type (site_of site.now) name.now (option_map view_static object.now))) }
{
    match plain(object) {
        None => Ok(None),
        Some(kind) => selected_type(alloc, &site.classes, kind, name),
    }
}

/// Whether the field of a class that a name means may be assigned as a static one.
pub fn may_set_static(
    alloc: Global,
    site: &Site<'_>,
    class: &ClassName,
    name: &Units,
) -> Result<bool, AllocError>
    ensures may { IfOk result (λ may. may ≡ spec.may_set_static (site_of site.now) class.now name.now) }
{
    let found = set_static_type(alloc, site, class, name)?;
    let may = may_assign(alloc, site, class, name)?;
    Ok(both(is_typed(&found), may))
}

/// The type of the static field of a class that a name means.
pub fn set_static_type(
    alloc: Global,
    site: &Site<'_>,
    class: &ClassName,
    name: &Units,
) -> Result<Option<StaticType>, AllocError>
    ensures typed { IfOk result (λ found. option_map view_static found ≡ typed (spec.set_static_type (site_of site.now) class.now name.now)) }
{
    static_type(alloc, &site.classes, class, name)
}
