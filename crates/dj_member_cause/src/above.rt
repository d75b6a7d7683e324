//! Which methods are meant behind `super` (JLS 15.12.1, 15.12.3; JVMS 6.5 invokespecial).

ghost use Rattle.std.specs.Prelude.{◌≡◌, ◌↔◌, false, map, Some, IsTrue, IfOk};
ghost use Rattle.std.specs.Option.{option_map};
ghost use Rattle.dj_names.specs.MethodNames.{is_constructor};
ghost use Rattle.dj_names.specs.Types.{Class, view_type, view_static, parameters_of};
ghost use Rattle.dj_values.specs.Deciding.{is_some_and, is_subclass, is_interface};
ghost use Rattle.dj_values.specs.Fits.{class_of};
ghost use Rattle.dj_bytecode.specs.Objects as machine;
ghost use Rattle.dj_kinds.specs.Search.{header_of, superclass_in, FindsOne};
ghost use Rattle.dj_instructions.specs.Instructions.{view_method_ref};
ghost use Rattle.dj_meaning.specs.Members.{has_flag};
ghost use Rattle.dj_meant.specs.Meant.{exact, IsOfSuper, IsOfInterface};
ghost use Rattle.dj_static.specs.Targets.{view_chosen};
ghost use Rattle.dj_world.specs.Clashes.{IsLawful};
ghost use Rattle.dj_member_cause.specs.Deciding.{members_in, starts_above, MeansAbove, CallsAbove};

use crate::methods::{exact_types, is_kind, meant};
use dj_checked::{lists, own_interfaces};
use dj_instructions::MethodRef;
use dj_names::{ClassName, JType, StaticType, is_constructor, same_type};
use dj_static::{ChosenMethod, Classes, by_flags, is_interface, superclass_of};
use dj_values::InvokeKind;
use std::alloc::{AllocError, Global};

/// Whether a class is an owner or below it by superclasses; no array is above one.
fn is_below(classes: &Classes<'_>, class: &ClassName, owner: &JType) -> bool
    ensures below { result ≡ is_some_and (class_of (view_type owner.now)) (λ upper. is_subclass classes.now.headers.now class.now upper) }
{
    match owner {
        JType::Class(upper) => classes.headers.is_subclass(class, upper),
        JType::Boolean
        | JType::Byte
        | JType::Char
        | JType::Short
        | JType::Int
        | JType::Long
        | JType::Float
        | JType::Double
        | JType::Array(_) => false,
    }
}

/// Whether the machine's search begins in the superclass: the method is no constructor, and its owner is at or above that.
fn starts_above(classes: &Classes<'_>, superclass: &ClassName, method: &MethodRef) -> bool
    ensures starts { result ≡ starts_above classes.now.headers.now superclass.now (view_method_ref method.now) }
{
    !is_constructor(&method.name) && is_below(classes, superclass, &method.owner)
}

/// Where the machine's search of a method begins that `invokespecial` names.
fn special_owner(
    alloc: Global,
    classes: &Classes<'_>,
    method: &MethodRef,
) -> Result<JType, AllocError>
    ensures owner { IfOk result (λ owner. view_type owner ≡ machine.special_owner classes.now.headers.now classes.now.from.now (view_method_ref method.now)) }
{
    match superclass_of(classes.headers, classes.from) {
        Some(superclass) => {
            if starts_above(classes, superclass, method) {
                let owner = superclass.copy(alloc)?;
                Ok(JType::Class(owner))
            } else {
                let owner = method.owner.copy(alloc)?;
                Ok(owner)
            }
        }
        None => {
            let owner = method.owner.copy(alloc)?;
            Ok(owner)
        }
    }
}

/// Whether a method is abstract, by its flags.
fn is_abstract(flags: u16) -> bool
    ensures abstracted { result ≡ has_flag 0x0400 flags }
{
    flags & 0x0400 != 0
}

/// The method that a call behind `super` of a class means, where it is the one that is named, and may be called so.
fn meant_above<'a>(
    classes: &'a Classes<'a>,
    above: &'a JType,
    method: &'a MethodRef,
    types: &'a [StaticType],
) -> Option<ChosenMethod<'a>>
    requires lawful { IsLawful classes.now.headers.now }
    requires exact { map view_static types.now ≡ exact (parameters_of (view_method_ref method.now).descriptor) }
    ensures means { FindsOne (MeansAbove classes.now (view_type above.now) (view_method_ref method.now)) (option_map view_chosen result) }
{
    let Some(one) = meant(classes, above, None, method, types) else {
        return None;
    };
    let found = by_flags(classes, one, InvokeKind::Special);
    if is_kind(found, InvokeKind::Special) && !is_abstract(one.method.flags) {
        Some(one)
    } else {
        None
    }
}

/// Whether a call behind `super` means a method of the superclass.
fn calls_superclass(
    alloc: Global,
    classes: &Classes<'_>,
    superclass: &ClassName,
    method: &MethodRef,
) -> Result<bool, AllocError>
    requires lawful { IsLawful classes.now.headers.now }
    requires plain { is_constructor (view_method_ref method.now).name ≡ false }
    requires in_class { is_interface classes.now.headers.now classes.now.from.now ≡ false }
    requires superclass { superclass_in (header_of classes.now.headers.now classes.now.from.now) ≡ Some superclass.now }
    ensures calls { IfOk result (λ calls. IsTrue calls ↔ IsOfSuper classes.now.headers.now (members_in classes.now) classes.now.from.now (view_method_ref method.now)) }
{
    let above = JType::Class(superclass.copy(alloc)?);
    let start = special_owner(alloc, classes, method)?;
    if !same_type(&start, &above) {
        return Ok(false);
    }
    let types = exact_types(alloc, method)?;
    let found = meant_above(classes, &above, method, types.as_slice());
    Ok(found.is_some())
}

/// Whether a call behind `super` alone means a method.
fn calls_super(alloc: Global, classes: &Classes<'_>, method: &MethodRef) -> Result<bool, AllocError>
    requires lawful { IsLawful classes.now.headers.now }
    requires plain { is_constructor (view_method_ref method.now).name ≡ false }
    ensures calls { IfOk result (λ calls. IsTrue calls ↔ IsOfSuper classes.now.headers.now (members_in classes.now) classes.now.from.now (view_method_ref method.now)) }
{
    if is_interface(classes.headers, classes.from) {
        return Ok(false);
    }
    match superclass_of(classes.headers, classes.from) {
        Some(superclass) => {
            let calls = calls_superclass(alloc, classes, superclass, method)?;
            Ok(calls)
        }
        None => Ok(false),
    }
}

/// Whether a call behind the name of an interface and `super` means a default method of it, where the class lists it.
fn calls_listed(
    alloc: Global,
    classes: &Classes<'_>,
    interface: &ClassName,
    method: &MethodRef,
) -> Result<bool, AllocError>
    requires lawful { IsLawful classes.now.headers.now }
    requires plain { is_constructor (view_method_ref method.now).name ≡ false }
    requires owner { (view_method_ref method.now).owner ≡ Class interface.now }
    ensures calls { IfOk result (λ calls. IsTrue calls ↔ IsOfInterface classes.now.headers.now (members_in classes.now) classes.now.from.now (view_method_ref method.now)) }
{
    if !lists(own_interfaces(classes), interface) {
        return Ok(false);
    }
    let start = special_owner(alloc, classes, method)?;
    if !same_type(&start, &method.owner) {
        return Ok(false);
    }
    let types = exact_types(alloc, method)?;
    match meant_above(classes, &method.owner, method, types.as_slice()) {
        None => Ok(false),
        Some(one) => Ok(is_interface(classes.headers, one.owner)),
    }
}

/// Whether a call behind the name of an interface and `super` means a method.
fn calls_interface(
    alloc: Global,
    classes: &Classes<'_>,
    method: &MethodRef,
) -> Result<bool, AllocError>
    requires lawful { IsLawful classes.now.headers.now }
    requires plain { is_constructor (view_method_ref method.now).name ≡ false }
    ensures calls { IfOk result (λ calls. IsTrue calls ↔ IsOfInterface classes.now.headers.now (members_in classes.now) classes.now.from.now (view_method_ref method.now)) }
{
    match &method.owner {
        JType::Class(interface) => {
            let calls = calls_listed(alloc, classes, interface, method)?;
            Ok(calls)
        }
        JType::Boolean
        | JType::Byte
        | JType::Char
        | JType::Short
        | JType::Int
        | JType::Long
        | JType::Float
        | JType::Double
        | JType::Array(_) => Ok(false),
    }
}

/// Whether a call behind `super` means a method, of the superclass or of an interface.
pub fn calls_above(
    alloc: Global,
    classes: &Classes<'_>,
    method: &MethodRef,
) -> Result<bool, AllocError>
    requires lawful { IsLawful classes.now.headers.now }
    requires plain { is_constructor (view_method_ref method.now).name ≡ false }
    ensures calls { IfOk result (λ calls. IsTrue calls ↔ CallsAbove classes.now (view_method_ref method.now)) }
{
    if calls_super(alloc, classes, method)? {
        return Ok(true);
    }
    let calls = calls_interface(alloc, classes, method)?;
    Ok(calls)
}
