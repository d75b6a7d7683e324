//! Where expressions stand, and what may be written there (JLS 6.4.2, 6.5.2, 8.8.7.1, 15.8.3).

ghost use Rattle.std.specs.Prelude.{◌≡◌, ◌&&◌, IfOk};
ghost use Rattle.dj_names.specs.Types.{view_type};
ghost use Rattle.dj_typing.specs.Sites as spec;
ghost use Rattle.dj_checked.specs.Sites.{site_of};
ghost use Rattle.dj_typing.specs.Words.{is_identifier};

use crate::whole::is_whole;
use dj_names::{ClassName, JType, Units};
use dj_static::Classes;
use std::alloc::{AllocError, Global};
use std::collections::BTreeSet;

/// The classes that run; whether `this` may stand here; and the classes whose names can be said.
#[derive(Clone, Copy)]
pub struct Site<'a> {
    pub classes: Classes<'a>,
    pub has_this: bool,
    pub said: &'a BTreeSet<ClassName>,
}

/// Whether units can be written as a name.
pub fn can_name(name: &Units) -> bool
    ensures name { result ≡ is_identifier name.now }
{
    dj_names::is_identifier(name)
}

/// Whether a name of a class can stand here.
pub fn may_name(alloc: Global, site: &Site<'_>, name: &ClassName) -> Result<bool, AllocError>
    ensures may { IfOk result (λ may. may ≡ spec.may_name (site_of site.now) name.now) }
{
    if !site.said.contains(name) {
        return Ok(false);
    }
    let whole = is_whole(alloc, site.classes.headers, name)?;
    Ok(whole)
}

/// Whether the names of a class and of a member of it can stand here.
pub fn may_name_member(
    alloc: Global,
    site: &Site<'_>,
    class: &ClassName,
    name: &Units,
) -> Result<bool, AllocError>
    ensures may { IfOk result (λ may. may ≡ (spec.may_name (site_of site.now) class.now && is_identifier name.now)) }
{
    let may = may_name(alloc, site, class)?;
    Ok(may && can_name(name))
}

/// Whether the class can that a type names.
pub fn may_name_type(alloc: Global, site: &Site<'_>, kind: &JType) -> Result<bool, AllocError>
    ensures may { IfOk result (λ may. may ≡ spec.may_name_type (site_of site.now) (view_type kind.now)) }
{
    match kind {
        JType::Class(name) => may_name(alloc, site, name),
        JType::Array(element) => may_name_type(alloc, site, element.get()),
        JType::Boolean
        | JType::Byte
        | JType::Char
        | JType::Short
        | JType::Int
        | JType::Long
        | JType::Float
        | JType::Double => Ok(true),
    }
}
