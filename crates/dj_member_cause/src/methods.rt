//! Which method a call by exact types means, and which instructions have it.

ghost use Rattle.std.specs.Prelude.{◌≡◌, ◌↔◌, true, Some, map, IsTrue, IsSome, IfOk};
ghost use Rattle.std.specs.Option.{option_map, option_copied};
ghost use Rattle.dj_names.specs.Types.{view_type, view_types, view_static, view_descriptor, parameters_of};
ghost use Rattle.dj_names.specs.MethodNames.{is_constructor};
ghost use Rattle.dj_values.specs.Fits.{class_of};
ghost use Rattle.dj_values.specs.Views.{view_kind};
ghost use Rattle.dj_kinds.specs.Search.{FindsOne};
ghost use Rattle.dj_instructions.specs.Instructions.{view_method_ref};
ghost use Rattle.dj_meaning.specs.Members.{is_of_class};
ghost use Rattle.dj_meant.specs.Meant.{exact, IsOfObject, IsOfClass, IsOfNew, IsOfConstruct};
ghost use Rattle.dj_static.specs.Targets.{view_chosen};
ghost use Rattle.dj_world.specs.Clashes.{IsLawful};
ghost use Rattle.dj_member_cause.specs.Deciding.{members_in, Means, MeansConstructor, BeginsIn};

use crate::exactly::chosen_exactly;
use dj_checked::has_flag;
use dj_instructions::MethodRef;
use dj_kinds::is_same_descriptor;
use dj_names::{ClassName, Descriptor, Items, JType, StaticType};
use dj_static::{ChosenMethod, Classes, by_flags, object_kind, superclass_of};
use dj_values::InvokeKind;
use std::alloc::{AllocError, Global};

/// Types of arguments that are just these.
fn exact(alloc: Global, kinds: &[JType]) -> Result<Items<StaticType>, AllocError>
    ensures exact { IfOk result (λ types. map view_static types ≡ exact (view_types kinds.now)) }
{
    let mut types = Items::new(alloc);
    for kind in kinds {
        let copy = kind.copy(alloc)?;
        types.push(StaticType::Of(copy))?;
    }
    Ok(types)
}

/// The types of arguments that are just a method's parameters.
pub fn exact_types(alloc: Global, method: &MethodRef) -> Result<Items<StaticType>, AllocError>
    ensures exact { IfOk result (λ types. map view_static types ≡ exact (parameters_of (view_method_ref method.now).descriptor)) }
{
    let types = exact(alloc, parameters_in(&method.descriptor))?;
    Ok(types)
}

/// The parameters of a descriptor.
pub fn parameters_in(descriptor: &Descriptor) -> &[JType]
    ensures parameters { view_types result.now ≡ parameters_of (view_descriptor descriptor.now) }
{
    match descriptor {
        Descriptor::Method { parameters, .. } => parameters.as_slice(),
        Descriptor::Field(_) => &[],
    }
}

/// Whether a kind is the one that there is.
pub fn is_kind(found: Option<InvokeKind>, kind: InvokeKind) -> bool
    ensures kind { IsTrue result ↔ (option_map view_kind found ≡ Some (view_kind kind)) }
{
    match found {
        Some(InvokeKind::Virtual) => matches!(kind, InvokeKind::Virtual),
        Some(InvokeKind::Interface) => matches!(kind, InvokeKind::Interface),
        Some(InvokeKind::Static) => matches!(kind, InvokeKind::Static),
        Some(InvokeKind::Special) => matches!(kind, InvokeKind::Special),
        None => false,
    }
}

/// The method that a call by exact types means, where it is the one that is named.
pub fn meant<'a>(
    classes: &'a Classes<'a>,
    receiver: &'a JType,
    through: Option<&'a JType>,
    method: &'a MethodRef,
    types: &'a [StaticType],
) -> Option<ChosenMethod<'a>>
    requires lawful { IsLawful classes.now.headers.now }
    requires exact { map view_static types.now ≡ exact (parameters_of (view_method_ref method.now).descriptor) }
    ensures means { FindsOne (Means classes.now (view_type receiver.now) (option_map view_type (option_copied through.entry)) (view_method_ref method.now)) (option_map view_chosen result) }
{
    let parameters = parameters_in(&method.descriptor);
    let Some(one) = chosen_exactly(classes, receiver, through, &method.name, parameters, types)
    else {
        return None;
    };
    if one.method.name == method.name
        && is_same_descriptor(&one.method.descriptor, &method.descriptor)
    {
        Some(one)
    } else {
        None
    }
}

/// Whether a call of a method on an object means it, by a kind.
pub fn calls_object(
    alloc: Global,
    classes: &Classes<'_>,
    kind: InvokeKind,
    method: &MethodRef,
) -> Result<bool, AllocError>
    requires lawful { IsLawful classes.now.headers.now }
    ensures calls { IfOk result (λ calls. IsTrue calls ↔ IsOfObject classes.now.headers.now (members_in classes.now) classes.now.from.now (view_kind kind) (view_method_ref method.now)) }
{
    let types = exact_types(alloc, method)?;
    match meant(
        classes,
        &method.owner,
        Some(&method.owner),
        method,
        types.as_slice(),
    ) {
        None => Ok(false),
        Some(one) => {
            let found = by_flags(classes, one, object_kind(classes, &method.owner, one));
            Ok(is_kind(found, kind))
        }
    }
}

/// Whether a method is static, by its flags.
fn is_static(flags: u16) -> bool
    ensures of_class { result ≡ is_of_class flags }
{
    flags & 0x0008 != 0
}

/// Whether a call of a static method means it.
pub fn calls_class(
    alloc: Global,
    classes: &Classes<'_>,
    method: &MethodRef,
) -> Result<bool, AllocError>
    requires lawful { IsLawful classes.now.headers.now }
    ensures calls { IfOk result (λ calls. IsTrue calls ↔ IsOfClass classes.now.headers.now (members_in classes.now) classes.now.from.now (view_method_ref method.now)) }
{
    if !is_class(&method.owner) {
        return Ok(false);
    }
    let types = exact_types(alloc, method)?;
    match meant(classes, &method.owner, None, method, types.as_slice()) {
        None => Ok(false),
        Some(one) => Ok(is_static(one.method.flags)),
    }
}

/// Whether a type is a class or an interface.
pub fn is_class(kind: &JType) -> bool
    ensures class { IsTrue result ↔ IsSome (class_of (view_type kind.now)) }
{
    matches!(kind, JType::Class(_))
}

/// Whether a call of a constructor of a type means it, through that type or none.
fn calls_constructor(
    alloc: Global,
    classes: &Classes<'_>,
    through: Option<&JType>,
    method: &MethodRef,
) -> Result<bool, AllocError>
    requires lawful { IsLawful classes.now.headers.now }
    ensures calls { IfOk result (λ calls. IsTrue calls ↔ MeansConstructor classes.now (option_map view_type (option_copied through.entry)) (view_method_ref method.now)) }
{
    let types = exact_types(alloc, method)?;
    match meant(classes, &method.owner, through, method, types.as_slice()) {
        None => Ok(false),
        Some(one) => Ok(!is_static(one.method.flags)),
    }
}

/// Whether a method is a constructor of a class of which objects are made, as a new object means it.
pub fn calls_new(
    alloc: Global,
    classes: &Classes<'_>,
    method: &MethodRef,
) -> Result<bool, AllocError>
    requires lawful { IsLawful classes.now.headers.now }
    requires constructs { is_constructor (view_method_ref method.now).name ≡ true }
    ensures calls { IfOk result (λ calls. IsTrue calls ↔ IsOfNew classes.now.headers.now (members_in classes.now) classes.now.from.now (view_method_ref method.now)) }
{
    match &method.owner {
        JType::Class(class) => {
            if has_flag(classes.headers, class, 0x0600) {
                return Ok(false);
            }
            let calls = calls_constructor(alloc, classes, Some(&method.owner), method)?;
            Ok(calls)
        }
        JType::Boolean
        | JType::Byte
        | JType::Char
        | JType::Short
        | JType::Int
        | JType::Long
        | JType::Float
        | JType::Double
        | JType::Array(_) => Ok(false),
    }
}

/// Whether `this(..)` or `super(..)` is a call of constructors of a class.
fn begins_in(classes: &Classes<'_>, class: &ClassName) -> bool
    ensures begins { IsTrue result ↔ BeginsIn classes.now class.now }
{
    if class == classes.from {
        return true;
    }
    match superclass_of(classes.headers, classes.from) {
        Some(superclass) => class == superclass,
        None => false,
    }
}

/// Whether a method is a constructor of this class or of the one above it, as `this(..)` or `super(..)` means it.
pub fn calls_construct(
    alloc: Global,
    classes: &Classes<'_>,
    method: &MethodRef,
) -> Result<bool, AllocError>
    requires lawful { IsLawful classes.now.headers.now }
    requires constructs { is_constructor (view_method_ref method.now).name ≡ true }
    ensures calls { IfOk result (λ calls. IsTrue calls ↔ IsOfConstruct classes.now.headers.now (members_in classes.now) classes.now.from.now (view_method_ref method.now)) }
{
    match &method.owner {
        JType::Class(class) => {
            if !begins_in(classes, class) {
                return Ok(false);
            }
            let calls = calls_constructor(alloc, classes, None, method)?;
            Ok(calls)
        }
        JType::Boolean
        | JType::Byte
        | JType::Char
        | JType::Short
        | JType::Int
        | JType::Long
        | JType::Float
        | JType::Double
        | JType::Array(_) => Ok(false),
    }
}
