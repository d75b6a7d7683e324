//! Names of classes that the text of a class can't say.

ghost use Rattle.std.specs.Prelude.{◌≡◌, ◌↔◌, ◌++◌, ◌∷◌, [], Any, Some, Contains, IsSomeAnd, IsTrue, OnOk, IfOk};
ghost use Rattle.dj_names.specs.Headers.{Name};
ghost use Rattle.dj_names.specs.Types.{view_type, view_descriptor};
ghost use Rattle.dj_world.specs.Named.{class_of, NamesClass};
ghost use Rattle.dj_class.specs.Views.{view_method};
ghost use Rattle.dj_sayable.specs.Scopes.{IsScope};
ghost use Rattle.dj_sayable.specs.Gathering.{Gains};
ghost use Rattle.dj_causes.specs.ClassCauses.{IsSaid};
ghost use Rattle.dj_causes.specs.BareCauses.{IsInHead, core_names};
ghost use Rattle.dj_causes.specs.Tables.{IsUnsaidAbove, IsLeastIfAny, IsLesser};

use crate::types::class_of;
use dj_class::Method;
use dj_headers::class_of as class_named;
use dj_names::{ClassName, Descriptor, Items, JType, Units};
use dj_sayable::{Scope, all_above};
use dj_world::World;
use std::alloc::{AllocError, Global};

/// The units of a class's name.
pub fn units_of(alloc: Global, name: &ClassName) -> Result<Units, AllocError>
    ensures units { IfOk result (λ units. units ≡ name.now) }
{
    let units = Units::from_slice(alloc, name.as_slice())?;
    Ok(units)
}

/// The name that comes first in the order of units, of those that there are.
pub fn lesser(first: Option<Units>, second: Option<Units>) -> Option<Units>
    ensures lesser { IsLesser first second result }
{
    match first {
        None => second,
        Some(one) => match second {
            None => Some(one),
            Some(other) => { if other < one { Some(other) } else { Some(one) } }
        },
    }
}

/// Whether the text of a class can't say a name.
pub fn is_unsaid(
    alloc: Global,
    world: &World,
    scope: &Scope,
    name: &ClassName,
) -> Result<bool, AllocError>
    ensures unsaid { IfOk result (λ unsaid. (class : Name) → IsScope world.now.headers world.now.members class scope.now → IsTrue unsaid ↔ ¬ IsSaid world.now class name.now) }
{
    let said = scope.can_be_said(alloc, world.headers(), name)?;
    Ok(!said)
}

/// A name, where the text of a class can't say it.
pub fn unsaid_name(
    alloc: Global,
    world: &World,
    scope: &Scope,
    name: &ClassName,
) -> Result<Option<Units>, AllocError>
    ensures unsaid { IfOk result (λ found. (class : Name) → IsScope world.now.headers world.now.members class scope.now
        → IsLeastIfAny (λ other. (name.now ≡ other) × ¬ IsSaid world.now class other) found) }
{
    let unsaid = is_unsaid(alloc, world, scope, name)?;
    if unsaid {
        let units = units_of(alloc, name)?;
        Ok(Some(units))
    } else {
        Ok(None)
    }
}

/// The least of these names that the text of a class can't say.
pub fn least_of(
    alloc: Global,
    world: &World,
    scope: &Scope,
    names: &[ClassName],
) -> Result<Option<Units>, AllocError>
    ensures least { IfOk result (λ found. (class : Name) → IsScope world.now.headers world.now.members class scope.now
        → IsLeastIfAny (λ other. Contains names.now other × ¬ IsSaid world.now class other) found) }
{
    let mut least = None;
    for name in names {
        let found = unsaid_name(alloc, world, scope, name)?;
        least = lesser(least, found);
    }
    Ok(least)
}

/// The least name of these classes and of those above them that the text of a class can't say.
pub fn least_unsaid(
    alloc: Global,
    world: &World,
    scope: &Scope,
    classes: &[ClassName],
) -> Result<Option<Units>, AllocError>
    ensures least { IfOk result (λ found. (class : Name) → IsScope world.now.headers world.now.members class scope.now
        → IsLeastIfAny (IsUnsaidAbove world.now class (Contains classes.now)) found) }
{
    let all = all_above(alloc, world.headers(), classes)?;
    let least = least_of(alloc, world, scope, all.as_slice())?;
    Ok(least)
}

/// Puts a name behind the others.
pub fn add_name(
    alloc: Global,
    names: &mut Items<ClassName>,
    name: &ClassName,
) -> Result<(), AllocError>
    ensures added { OnOk result (names.new ≡ names.old ++ name.now ∷ []) }
{
    let copy = name.copy(alloc)?;
    names.push(copy)?;
    Ok(())
}

/// A class, and those that every text may rest on.
pub fn common_names(alloc: Global, class: &ClassName) -> Result<Items<ClassName>, AllocError>
    ensures names { IfOk result (λ names. names ≡ class.now ∷ core_names) }
{
    let mut names = Items::new(alloc);
    add_name(alloc, &mut names, class)?;
    names.push(class_named(alloc, "java/lang/Object")?)?;
    names.push(class_named(alloc, "java/lang/String")?)?;
    names.push(class_named(alloc, "java/lang/Class")?)?;
    names.push(class_named(alloc, "java/lang/Throwable")?)?;
    Ok(names)
}

/// Puts the class that a type names behind the others.
pub fn add_type(alloc: Global, names: &mut Items<ClassName>, kind: &JType) -> Result<(), AllocError>
    ensures gains { OnOk result (Gains names.old names.new (λ name. class_of (view_type kind.now) ≡ Some name)) }
{
    match class_of(kind) {
        Some(name) => {
            add_name(alloc, names, name)?;
            Ok(())
        }
        None => Ok(()),
    }
}

/// Puts the classes that types name behind the others.
fn add_types(alloc: Global, names: &mut Items<ClassName>, kinds: &[JType]) -> Result<(), AllocError>
    ensures gains { OnOk result (Gains names.old names.new (λ name. Any (λ kind. class_of (view_type kind) ≡ Some name) kinds.now)) }
{
    for kind in kinds {
        add_type(alloc, names, kind)?;
    }
    Ok(())
}

/// Puts the class that a result names behind the others, if there is one.
fn add_result(
    alloc: Global,
    names: &mut Items<ClassName>,
    kind: &Option<JType>,
) -> Result<(), AllocError>
    ensures gains { OnOk result (Gains names.old names.new (λ name. IsSomeAnd kind.now (λ kind. class_of (view_type kind) ≡ Some name))) }
{
    match kind {
        Some(kind) => {
            add_type(alloc, names, kind)?;
            Ok(())
        }
        None => Ok(()),
    }
}

/// Puts the classes that a descriptor names behind the others.
pub fn add_descriptor(
    alloc: Global,
    names: &mut Items<ClassName>,
    descriptor: &Descriptor,
) -> Result<(), AllocError>
    ensures gains { OnOk result (Gains names.old names.new (NamesClass (view_descriptor descriptor.now))) }
{
    match descriptor {
        Descriptor::Field(kind) => {
            add_type(alloc, names, kind)?;
            Ok(())
        }
        Descriptor::Method {
            parameters,
            result: answer,
        } => {
            add_types(alloc, names, parameters.as_slice())?;
            add_result(alloc, names, answer)?;
            Ok(())
        }
    }
}

/// Puts names behind others.
pub fn add_all(
    alloc: Global,
    names: &mut Items<ClassName>,
    more: &[ClassName],
) -> Result<(), AllocError>
    ensures behind { OnOk result (names.new ≡ names.old ++ more.now) }
{
    for name in more {
        add_name(alloc, names, name)?;
    }
    Ok(())
}

/// The classes that the head of a method names.
pub fn head_names(alloc: Global, method: &Method) -> Result<Items<ClassName>, AllocError>
    ensures names { IfOk result (λ names. (name : Name) → Contains names name ↔ IsInHead (view_method method.now) name) }
{
    let mut names = Items::new(alloc);
    add_descriptor(alloc, &mut names, &method.descriptor)?;
    add_all(alloc, &mut names, method.thrown.as_slice())?;
    Ok(names)
}
