//! What the throws clause of the method lists that a call means (JLS 8.4.6, 8.8.5, 11.2.1).

ghost use Rattle.std.specs.Prelude.{◌≡◌, IfOk, map, codes, slice_get};
ghost use Rattle.std.specs.Option.{option_map, option_copied};
ghost use Rattle.dj_names.specs.Types.{view_type, view_static};
ghost use Rattle.dj_names.specs.declared.members.MethodHead.{MethodHead};
ghost use Rattle.dj_names.specs.Headers.{HasDistinctNames};
ghost use Rattle.dj_kinds.specs.Search.{header_of};
ghost use Rattle.dj_kinds.specs.Choice.{IsMethodAt};
ghost use Rattle.dj_static.specs.Targets.{meant_in};
ghost use Rattle.dj_thrown.specs.Listed as spec;
ghost use Rattle.dj_thrown.specs.Settings.{setting_of};

use dj_headers::Headers;
use dj_kinds::choose;
use dj_members::MemberTable;
use dj_names::{ClassName, Header, Items, JType, Member, StaticType, Units, is_word};
use dj_static::Classes;
use std::alloc::{AllocError, Global};

/// The name of constructors.
fn constructor_name(alloc: Global) -> Result<Units, AllocError>
    ensures name { IfOk result (λ name. name ≡ codes "<init>") }
{
    Units::from_slice(alloc, &[60, 105, 110, 105, 116, 62])
}

/// The header at a place.
fn header_at(headers: &Headers, at: usize) -> Option<&Header>
    ensures header { option_copied result ≡ slice_get headers.now at }
    ensures distinct { HasDistinctNames headers.now }
{
    headers.as_slice().get(at)
}

/// What the throws clause of a method lists.
fn clause_of(members: &MemberTable, member: Member) -> &[ClassName]
    ensures clause { (method : MethodHead) → IsMethodAt members.now member method → result.now ≡ method.thrown }
{
    match members.at(member.class as usize) {
        None => &[],
        Some(declared) => match declared.methods.get(member.number as usize) {
            None => &[],
            Some(method) => method.thrown.as_slice(),
        },
    }
}

/// What that of the method lists that a call means.
fn listed_by<'a>(
    classes: &Classes<'a>,
    receiver: &JType,
    through: Option<&JType>,
    name: &Units,
    arguments: &[StaticType],
) -> &'a [ClassName]
    ensures listed { result.now ≡ spec.listed_by (setting_of classes.now)
        (meant_in classes.now.headers.now classes.now.members.now classes.now.from.now (view_type receiver.now) (option_map view_type (option_copied through.entry)) name.now (map view_static arguments.now)) }
{
    if classes.headers.as_slice().is_empty() {
        return &[];
    }
    match choose(
        classes.headers,
        classes.members,
        classes.from,
        receiver,
        through,
        name,
        arguments,
    ) {
        None => &[],
        Some(member) => clause_of(classes.members, member),
    }
}

/// Whether a call is that of `clone` of an array.
fn is_clone(kind: &JType, name: &Units, arguments: &[StaticType]) -> bool
    ensures clone { result ≡ spec.is_clone (view_type kind.now) name.now (map view_static arguments.now) }
{
    match kind {
        JType::Array(_) => is_word(name.as_slice(), "clone") && arguments.is_empty(),
        JType::Boolean
        | JType::Byte
        | JType::Char
        | JType::Short
        | JType::Int
        | JType::Long
        | JType::Float
        | JType::Double
        | JType::Class(_) => false,
    }
}

/// What the method lists that a call of an object of a type means.
pub fn object_listed<'a>(
    classes: &Classes<'a>,
    name: &Units,
    object: &Option<JType>,
    arguments: &Option<Items<StaticType>>,
) -> &'a [ClassName]
    ensures listed { result.now ≡ spec.object_listed (setting_of classes.now) name.now (option_map view_type object.now) (option_map (map view_static) arguments.now) }
{
    match arguments {
        None => &[],
        Some(arguments) => match object {
            None => &[],
            Some(kind) => {
                if is_clone(kind, name, arguments.as_slice()) {
                    &[]
                } else {
                    listed_by(classes, kind, Some(kind), name, arguments.as_slice())
                }
            }
        },
    }
}

/// What the method lists that a call of a class means.
pub fn class_listed<'a>(
    alloc: Global,
    classes: &Classes<'a>,
    class: &ClassName,
    name: &Units,
    arguments: &Option<Items<StaticType>>,
) -> Result<&'a [ClassName], AllocError>
    ensures listed { IfOk result (λ listed. listed.now ≡ spec.class_listed (setting_of classes.now) class.now name.now (option_map (map view_static) arguments.now)) }
{
    let Some(arguments) = arguments else {
        return Ok(&[]);
    };
    let receiver = JType::Class(class.copy(alloc)?);
    Ok(listed_by(classes, &receiver, None, name, arguments.as_slice()))
}

/// The header of the class in which names stand, if there is one.
fn own_header<'a>(classes: &Classes<'a>) -> Option<&'a Header>
    ensures header { option_copied result ≡ header_of classes.now.headers.now classes.now.from.now }
{
    match classes.headers.place(classes.from) {
        None => None,
        Some(at) => header_at(classes.headers, at),
    }
}

/// The superclass of the class in which names stand.
fn superclass<'a>(classes: &Classes<'a>) -> Option<&'a ClassName>
    ensures superclass { option_copied result ≡ spec.superclass (setting_of classes.now) }
{
    match own_header(classes) {
        None => None,
        Some(header) => match &header.superclass {
            None => None,
            Some(superclass) => Some(superclass),
        },
    }
}

/// What the method lists that a call of the superclass means.
fn above_listed<'a>(
    alloc: Global,
    classes: &Classes<'a>,
    name: &Units,
    arguments: &Option<Items<StaticType>>,
) -> Result<&'a [ClassName], AllocError>
    ensures listed { IfOk result (λ listed. listed.now ≡ spec.above_listed (setting_of classes.now) (spec.superclass (setting_of classes.now)) name.now (option_map (map view_static) arguments.now)) }
{
    match superclass(classes) {
        None => Ok(&[]),
        Some(superclass) => class_listed(alloc, classes, superclass, name, arguments),
    }
}

/// What the method lists that a call behind `super` means.
pub fn super_listed<'a>(
    alloc: Global,
    classes: &Classes<'a>,
    above: &Option<ClassName>,
    name: &Units,
    arguments: &Option<Items<StaticType>>,
) -> Result<&'a [ClassName], AllocError>
    ensures listed { IfOk result (λ listed. listed.now ≡ spec.super_listed (setting_of classes.now) above.now name.now (option_map (map view_static) arguments.now)) }
{
    match above {
        None => above_listed(alloc, classes, name, arguments),
        Some(interface) => class_listed(alloc, classes, interface, name, arguments),
    }
}

/// What the constructor of a new object lists.
pub fn new_listed<'a>(
    alloc: Global,
    classes: &Classes<'a>,
    class: &ClassName,
    arguments: &Option<Items<StaticType>>,
) -> Result<&'a [ClassName], AllocError>
    ensures listed { IfOk result (λ listed. listed.now ≡ spec.new_listed (setting_of classes.now) class.now (option_map (map view_static) arguments.now)) }
{
    let Some(arguments) = arguments else {
        return Ok(&[]);
    };
    let receiver = JType::Class(class.copy(alloc)?);
    let name = constructor_name(alloc)?;
    Ok(listed_by(
        classes,
        &receiver,
        Some(&receiver),
        &name,
        arguments.as_slice(),
    ))
}

/// What another constructor of this class lists, or one of the superclass.
pub fn construct_listed<'a>(
    alloc: Global,
    classes: &Classes<'a>,
    own: bool,
    arguments: &Option<Items<StaticType>>,
) -> Result<&'a [ClassName], AllocError>
    ensures listed { IfOk result (λ listed. listed.now ≡ spec.construct_listed (setting_of classes.now) own (option_map (map view_static) arguments.now)) }
{
    let name = constructor_name(alloc)?;
    if own {
        class_listed(alloc, classes, classes.from, &name, arguments)
    } else {
        above_listed(alloc, classes, &name, arguments)
    }
}
