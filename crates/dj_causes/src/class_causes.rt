//! Why a class isn't printed.

ghost use Rattle.std.specs.Prelude.{◌≡◌, ◌↔◌, ◌⊎◌, ◌∷◌, None, map, MatchOption, IsBitSet, IsTrue, IfOk, codes};
ghost use Rattle.dj_names.specs.Headers.{Name};
ghost use Rattle.dj_class.specs.Views.{view_field, view_class};
ghost use Rattle.dj_sayable.specs.Scopes.{IsScope};
ghost use Rattle.dj_causes.specs.Firsts.{IsFirstWith};
ghost use Rattle.dj_causes.specs.ClassCauses.{DescribesPackage, IsFirstUnset, IsSaid, parent_names};

use crate::constants::lacks_constant;
use crate::unsaid::{is_unsaid, units_of};
use dj_class::{ClassFile, is_interface};
use dj_names::{ClassName, Field, Units, is_word};
use dj_sayable::{Scope, simple_name};
use dj_world::World;
use std::alloc::{AllocError, Global};

const ENUM: u16 = 0x4000;

const ANNOTATION: u16 = 0x2000;

/// Whether the flags are an enum's.
pub fn is_enum(flags: u16) -> bool
    ensures exact { IsTrue result ↔ IsBitSet flags 14 }
{
    flags & ENUM != 0
}

/// Whether the flags are an annotation type's.
pub fn is_annotation(flags: u16) -> bool
    ensures exact { IsTrue result ↔ IsBitSet flags 13 }
{
    flags & ANNOTATION != 0
}

/// Whether a simple name is that of what is said of a package or a module.
fn is_package_word(simple: &[u16]) -> bool
    ensures word { IsTrue result ↔ ((codes "package-info" ≡ simple.now) ⊎ (codes "module-info" ≡ simple.now)) }
{
    is_word(simple, "package-info") || is_word(simple, "module-info")
}

/// Whether the file of a class holds what is said of a package or a module.
pub fn describes_package(class: &ClassName) -> bool
    ensures describes { IsTrue result ↔ DescribesPackage class.now }
{
    is_package_word(simple_name(class.as_slice()))
}

/// The first of these fields that has no constant that counts.
fn first_unset(fields: &[Field]) -> Option<&Field>
    ensures first { MatchOption result ((name : Name) → ¬ IsFirstUnset (map view_field fields.now) name) (λ field. IsFirstUnset (map view_field fields.now) field.now.name) }
{
    for field in fields {
        if lacks_constant(field) {
            return Some(field);
        }
    }
    None
}

/// The first field of an interface that has no constant that counts.
fn unset_field(class: &ClassFile) -> Option<&Field>
    ensures first { MatchOption result ((name : Name) → ¬ (IsBitSet class.now.flags 9 × IsFirstUnset (view_class class.now).fields name)) (λ field. IsBitSet class.now.flags 9 × IsFirstUnset (view_class class.now).fields field.now.name) }
{
    if is_interface(class.flags) {
        first_unset(class.fields.as_slice())
    } else {
        None
    }
}

/// The name of that field.
pub fn unset_name(alloc: Global, class: &ClassFile) -> Result<Option<Units>, AllocError>
    ensures first { IfOk result (λ found. MatchOption found ((name : Name) → ¬ (IsBitSet class.now.flags 9 × IsFirstUnset (view_class class.now).fields name)) (λ name. IsBitSet class.now.flags 9 × IsFirstUnset (view_class class.now).fields name)) }
{
    match unset_field(class) {
        Some(field) => Ok(Some(field.name.copy(alloc)?)),
        None => Ok(None),
    }
}

/// Whether a class has no superclass.
pub fn is_root(class: &ClassFile) -> bool
    ensures root { IsTrue result ↔ ((view_class class.now).super_class ≡ None) }
{
    class.super_class.is_none()
}

/// The first of these names that the text of a class can't say.
fn first_unsaid(
    alloc: Global,
    world: &World,
    scope: &Scope,
    names: &[ClassName],
) -> Result<Option<Units>, AllocError>
    ensures first { IfOk result (λ found. (class : Name) → IsScope world.now.headers world.now.members class scope.now
        → MatchOption found ((name : Name) → ¬ IsFirstWith (λ parent. ¬ IsSaid world.now class parent) names.now name) (IsFirstWith (λ parent. ¬ IsSaid world.now class parent) names.now)) }
{
    for name in names {
        let unsaid = is_unsaid(alloc, world, scope, name)?;
        if unsaid {
            return Ok(Some(units_of(alloc, name)?));
        }
    }
    Ok(None)
}

/// The first of a name and others that the text of a class can't say.
fn first_unsaid_of(
    alloc: Global,
    world: &World,
    scope: &Scope,
    first: &ClassName,
    others: &[ClassName],
) -> Result<Option<Units>, AllocError>
    ensures first { IfOk result (λ found. (class : Name) → IsScope world.now.headers world.now.members class scope.now
        → MatchOption found ((name : Name) → ¬ IsFirstWith (λ parent. ¬ IsSaid world.now class parent) (first.now ∷ others.now) name) (IsFirstWith (λ parent. ¬ IsSaid world.now class parent) (first.now ∷ others.now))) }
{
    let unsaid = is_unsaid(alloc, world, scope, first)?;
    if unsaid {
        let units = units_of(alloc, first)?;
        Ok(Some(units))
    } else {
        let found = first_unsaid(alloc, world, scope, others)?;
        Ok(found)
    }
}

/// The first of the names of a superclass, if there is one, and of interfaces that the text of a class can't say.
pub fn first_unsaid_parent(
    alloc: Global,
    world: &World,
    scope: &Scope,
    class: &ClassFile,
) -> Result<Option<Units>, AllocError>
    ensures first { IfOk result (λ found. (own : Name) → IsScope world.now.headers world.now.members own scope.now
        → MatchOption found ((name : Name) → ¬ IsFirstWith (λ parent. ¬ IsSaid world.now own parent) (parent_names (view_class class.now)) name) (IsFirstWith (λ parent. ¬ IsSaid world.now own parent) (parent_names (view_class class.now)))) }
{
    match &class.super_class {
        Some(superclass) => {
            let found = first_unsaid_of(
                alloc,
                world,
                scope,
                superclass,
                class.interfaces.as_slice(),
            )?;
            Ok(found)
        }
        None => {
            let found = first_unsaid(alloc, world, scope, class.interfaces.as_slice())?;
            Ok(found)
        }
    }
}
