//! What a call asks for (JLS 15.9.3, 15.12.3, 15.12.4.3).

ghost use Rattle.std.specs.Prelude.{◌≡◌, ℕ, List, IfOk, IfSome, IfNone, Some, None, map, codes};
ghost use Rattle.std.specs.Option.{option_map, option_copied};
ghost use Rattle.dj_names.specs.Types.{view_type, view_types, view_static, view_descriptor, parameters_of, result_of};
ghost use Rattle.dj_names.specs.declared.members.MethodHead.{MethodHead};
ghost use Rattle.dj_values.specs.Deciding.{is_array_clone};
ghost use Rattle.dj_values.specs.Views.{view_kind};
ghost use Rattle.dj_meaning.specs.Members.{view_members};
ghost use Rattle.dj_meaning.specs.Targets as spec;
ghost use Rattle.dj_static.specs.Targets.{view_chosen, view_target, meant_in, IsMethodIn, constructor_of};

use crate::classes::{Classes, superclass_of};
use crate::visible::{is_interface, is_private, is_static};
use dj_kinds::choose;
use dj_members::MemberTable;
use dj_names::{
    ClassName, Descriptor, Header, JType, Member, MethodHead, StaticType, Units, is_word,
};
use dj_values::InvokeKind;
use std::alloc::{AllocError, Global};

/// How a method is found, where, its name and its descriptor.
#[derive(Drop)]
pub struct Target {
    pub kind: InvokeKind,
    pub owner: JType,
    pub name: Units,
    pub descriptor: Descriptor,
}

/// A method, and the class that declares it.
#[derive(Clone, Copy)]
pub struct ChosenMethod<'a> {
    pub owner: &'a ClassName,
    pub method: &'a MethodHead,
}

/// The parameters of a descriptor.
fn parameters_of(descriptor: &Descriptor) -> &[JType]
    ensures parameters { view_types result.now ≡ parameters_of (view_descriptor descriptor.now) }
{
    match descriptor {
        Descriptor::Method { parameters, .. } => parameters.as_slice(),
        Descriptor::Field(_) => &[],
    }
}

/// The result of a descriptor.
fn result_of(descriptor: &Descriptor) -> Option<&JType>
    ensures result { option_map view_type (option_copied result) ≡ result_of (view_descriptor descriptor.now) }
{
    match descriptor {
        Descriptor::Method { result, .. } => result.as_ref(),
        Descriptor::Field(kind) => Some(kind),
    }
}

/// Whether a method is `clone` of an array.
fn is_array_clone(owner: &JType, name: &Units, parameters: &[JType]) -> bool
    ensures clone { result ≡ is_array_clone (view_type owner.now) name.now (view_types parameters.now) }
{
    match owner {
        JType::Array(_) => is_word(name.as_slice(), "clone") && parameters.is_empty(),
        JType::Boolean
        | JType::Byte
        | JType::Char
        | JType::Short
        | JType::Int
        | JType::Long
        | JType::Float
        | JType::Double
        | JType::Class(_) => false,
    }
}

impl Target {
    /// The types that the arguments are converted to.
    pub fn parameters(&self) -> &[JType]
        ensures parameters { view_types result.now ≡ parameters_of (view_target self.now).descriptor }
    {
        parameters_of(&self.descriptor)
    }

    /// What the call gives: `clone` of an array has the array's type.
    pub fn result(&self) -> Option<&JType>
        ensures result { option_map view_type (option_copied result) ≡ spec.result (view_target self.now) }
    {
        if is_array_clone(&self.owner, &self.name, self.parameters()) {
            Some(&self.owner)
        } else {
            result_of(&self.descriptor)
        }
    }
}

/// The name of constructors.
fn constructor_name(alloc: Global) -> Result<Units, AllocError>
    ensures name { IfOk result (λ name. name ≡ codes "<init>") }
{
    Units::from_slice(alloc, &[60, 105, 110, 105, 116, 62])
}

/// The method that a member is, and its class.
pub fn method_of<'a>(
    headers: &'a [Header],
    members: &'a MemberTable,
    member: Member,
) -> Option<ChosenMethod<'a>>
    ensures some { IfSome result (λ one. IsMethodIn headers.now members.now member one.owner.now one.method.now) }
    ensures none { IfNone result ((owner : List ℕ) (method : MethodHead) → ¬ IsMethodIn headers.now members.now member owner method) }
{
    let header = headers.get(member.class as usize)?;
    let declared = members.at(member.class as usize)?;
    let method = declared.methods.get(member.number as usize)?;
    if member.method {
        Some(ChosenMethod {
            owner: &header.name,
            method,
        })
    } else {
        None
    }
}

/// The method that a call means in a class or an array.
fn chosen<'a>(
    classes: &'a Classes<'a>,
    receiver: &'a JType,
    through: Option<&'a JType>,
    name: &'a Units,
    arguments: &'a [StaticType],
) -> Option<ChosenMethod<'a>>
    ensures chosen { option_map view_chosen result ≡ meant_in classes.now.headers.now classes.now.members.now classes.now.from.now (view_type receiver.now)
        (option_map view_type (option_copied through.entry)) name.now (map view_static arguments.now) }
{
    let headers = classes.headers.as_slice();
    match choose(
        classes.headers,
        classes.members,
        classes.from,
        receiver,
        through,
        name,
        arguments,
    ) {
        None => None,
        Some(member) => method_of(headers, classes.members, member),
    }
}

/// The method that a call means without an expression.
fn chosen_alone<'a>(
    classes: &'a Classes<'a>,
    receiver: &'a JType,
    name: &'a Units,
    arguments: &'a [StaticType],
) -> Option<ChosenMethod<'a>>
    ensures chosen { option_map view_chosen result ≡ meant_in classes.now.headers.now classes.now.members.now classes.now.from.now (view_type receiver.now) None name.now (map view_static arguments.now) }
{
    chosen(classes, receiver, None, name, arguments)
}

/// A chosen method, asked for so.
fn asked_for(
    alloc: Global,
    owner: &JType,
    one: ChosenMethod<'_>,
    kind: InvokeKind,
) -> Result<Target, AllocError>
    ensures target { IfOk result (λ made. view_target made ≡ spec.target (view_type owner.now) (view_chosen one.entry) (view_kind kind)) }
{
    Ok(Target {
        kind,
        owner: owner.copy(alloc)?,
        name: one.method.name.copy(alloc)?,
        descriptor: one.method.descriptor.copy(alloc)?,
    })
}

/// The kind by which an object's method is called that isn't static.
pub fn object_kind(classes: &Classes<'_>, kind: &JType, one: ChosenMethod<'_>) -> InvokeKind
    ensures kind { view_kind result ≡ spec.object_kind classes.now.headers.now (view_type kind.now) (view_chosen one.entry) }
{
    if is_private(one.method.flags) {
        return InvokeKind::Special;
    }
    match kind {
        JType::Class(name) => {
            if is_interface(classes.headers, name) {
                InvokeKind::Interface
            } else {
                InvokeKind::Virtual
            }
        }
        JType::Boolean
        | JType::Byte
        | JType::Char
        | JType::Short
        | JType::Int
        | JType::Long
        | JType::Float
        | JType::Double
        | JType::Array(_) => InvokeKind::Virtual,
    }
}

/// How a method is called otherwise than by its class's name; a static one of an interface isn't.
pub fn by_flags(
    classes: &Classes<'_>,
    one: ChosenMethod<'_>,
    otherwise: InvokeKind,
) -> Option<InvokeKind>
    ensures kind { option_map view_kind result ≡ spec.by_flags classes.now.headers.now (view_chosen one.entry) (view_kind otherwise) }
{
    if !is_static(one.method.flags) {
        return Some(otherwise);
    }
    if is_interface(classes.headers, one.owner) {
        None
    } else {
        Some(InvokeKind::Static)
    }
}

/// A method of an expression of a type.
pub fn of_object(
    alloc: Global,
    classes: &Classes<'_>,
    kind: &JType,
    name: &Units,
    arguments: &[StaticType],
) -> Result<Option<Target>, AllocError>
    ensures target { IfOk result (λ found. option_map view_target found
        ≡ spec.of_object classes.now.headers.now (map view_members classes.now.members.now) classes.now.from.now name.now (map view_static arguments.now) (view_type kind.now)) }
{
    let Some(one) = chosen(classes, kind, Some(kind), name, arguments) else {
        return Ok(None);
    };
    match by_flags(classes, one, object_kind(classes, kind, one)) {
        None => Ok(None),
        Some(found) => Ok(Some(asked_for(alloc, kind, one, found)?)),
    }
}

/// A static method of a class that is named.
pub fn of_class(
    alloc: Global,
    classes: &Classes<'_>,
    class: &ClassName,
    name: &Units,
    arguments: &[StaticType],
) -> Result<Option<Target>, AllocError>
    ensures target { IfOk result (λ found. option_map view_target found
        ≡ spec.of_class classes.now.headers.now (map view_members classes.now.members.now) classes.now.from.now class.now name.now (map view_static arguments.now)) }
{
    let receiver = JType::Class(class.copy(alloc)?);
    let Some(one) = chosen_alone(classes, &receiver, name, arguments) else {
        return Ok(None);
    };
    if is_static(one.method.flags) {
        Ok(Some(asked_for(alloc, &receiver, one, InvokeKind::Static)?))
    } else {
        Ok(None)
    }
}

/// A method behind `super` of a class, by how it is called.
fn special(
    alloc: Global,
    classes: &Classes<'_>,
    above: &ClassName,
    name: &Units,
    arguments: &[StaticType],
) -> Result<Option<Target>, AllocError>
    ensures target { IfOk result (λ found. option_map view_target found
        ≡ spec.of_super classes.now.headers.now (map view_members classes.now.members.now) classes.now.from.now (Some above.now) name.now (map view_static arguments.now)) }
{
    let receiver = JType::Class(above.copy(alloc)?);
    let Some(one) = chosen_alone(classes, &receiver, name, arguments) else {
        return Ok(None);
    };
    match by_flags(classes, one, InvokeKind::Special) {
        None => Ok(None),
        Some(found) => Ok(Some(asked_for(alloc, &receiver, one, found)?)),
    }
}

/// A method behind `super`: of the superclass, or of an interface that is named.
pub fn of_super(
    alloc: Global,
    classes: &Classes<'_>,
    named: Option<&ClassName>,
    name: &Units,
    arguments: &[StaticType],
) -> Result<Option<Target>, AllocError>
    ensures target { IfOk result (λ found. option_map view_target found
        ≡ spec.of_super classes.now.headers.now (map view_members classes.now.members.now) classes.now.from.now (option_copied named.entry) name.now (map view_static arguments.now)) }
{
    match named {
        Some(interface) => special(alloc, classes, interface, name, arguments),
        None => match superclass_of(classes.headers, classes.from) {
            Some(superclass) => special(alloc, classes, superclass, name, arguments),
            None => Ok(None),
        },
    }
}

/// A constructor of a class, called by `this(..)` or `super(..)`.
fn constructor(
    alloc: Global,
    classes: &Classes<'_>,
    class: &ClassName,
    arguments: &[StaticType],
) -> Result<Option<Target>, AllocError>
    ensures target { IfOk result (λ found. option_map view_target found
        ≡ constructor_of classes.now.headers.now classes.now.members.now classes.now.from.now None (map view_static arguments.now) class.now) }
{
    let receiver = JType::Class(class.copy(alloc)?);
    let name = constructor_name(alloc)?;
    let Some(one) = chosen_alone(classes, &receiver, &name, arguments) else {
        return Ok(None);
    };
    if is_static(one.method.flags) {
        Ok(None)
    } else {
        Ok(Some(asked_for(alloc, &receiver, one, InvokeKind::Special)?))
    }
}

/// The constructor of a new object.
pub fn of_new(
    alloc: Global,
    classes: &Classes<'_>,
    class: &ClassName,
    arguments: &[StaticType],
) -> Result<Option<Target>, AllocError>
    ensures target { IfOk result (λ found. option_map view_target found
        ≡ spec.of_new classes.now.headers.now (map view_members classes.now.members.now) classes.now.from.now class.now (map view_static arguments.now)) }
{
    let receiver = JType::Class(class.copy(alloc)?);
    let name = constructor_name(alloc)?;
    let Some(one) = chosen(classes, &receiver, Some(&receiver), &name, arguments) else {
        return Ok(None);
    };
    if is_static(one.method.flags) {
        Ok(None)
    } else {
        Ok(Some(asked_for(alloc, &receiver, one, InvokeKind::Special)?))
    }
}

/// Another constructor of this class, or one of the superclass.
pub fn of_construct(
    alloc: Global,
    classes: &Classes<'_>,
    own: bool,
    arguments: &[StaticType],
) -> Result<Option<Target>, AllocError>
    ensures target { IfOk result (λ found. option_map view_target found
        ≡ spec.of_construct classes.now.headers.now (map view_members classes.now.members.now) classes.now.from.now own (map view_static arguments.now)) }
{
    if own {
        return constructor(alloc, classes, classes.from, arguments);
    }
    match superclass_of(classes.headers, classes.from) {
        Some(superclass) => constructor(alloc, classes, superclass, arguments),
        None => Ok(None),
    }
}
