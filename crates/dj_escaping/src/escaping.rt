//! Which checked classes escape from calls (JLS 11.2.1).

ghost use Rattle.std.specs.Prelude.{◌≡◌, map, not, true, IfOk, IfSome};
ghost use Rattle.std.specs.List.{list_any};
ghost use Rattle.std.specs.Option.{option_map, option_copied};
ghost use Rattle.dj_names.specs.Types.{view_static, view_type, view_types, parameters_of, Of};
ghost use Rattle.dj_names.specs.MethodNames.{is_constructor};
ghost use Rattle.dj_instructions.specs.Instructions.{view_instruction, view_method_ref};
ghost use Rattle.dj_frames.specs.Frames.{view_frame};
ghost use Rattle.dj_code.specs.MethodCode.{view_code};
ghost use Rattle.dj_thrown.specs.Settings.{setting_of};
ghost use Rattle.dj_thrown.specs.Catching as catching;
ghost use Rattle.dj_thrown.specs.Listed.{construct_listed};
ghost use Rattle.dj_world.specs.Clashes.{IsLawful};
ghost use Rattle.dj_escaping.specs.Escaping as spec;
ghost use Rattle.dj_escaping.specs.Beginning.{begun_class};

use crate::exactly::listed_exactly;
use dj_code::{Code, Frame, Instruction, MethodRef};
use dj_headers::Headers;
use dj_kinds::Kinds;
use dj_names::{ClassName, Descriptor, Items, JType, StaticType, is_constructor};
use dj_receivers::is_on_begun;
use dj_static::{Classes, superclass_of};
use dj_thrown::{class_listed, construct_listed, may_escape, new_listed, object_listed};
use dj_world::World;
use std::alloc::{AllocError, Global};

/// Arguments of just these types.
fn exact_types(alloc: Global, types: &[JType]) -> Result<Items<StaticType>, AllocError>
    ensures exact { IfOk result (λ found. map view_static found ≡ map Of (map view_type types.now)) }
{
    let mut found = Items::new(alloc);
    for kind in types {
        found.push(StaticType::Of(kind.copy(alloc)?))?;
    }
    Ok(found)
}

/// Arguments of just the types of a method's parameters.
fn exact_arguments(
    alloc: Global,
    method: &MethodRef,
) -> Result<Option<Items<StaticType>>, AllocError>
    ensures exact { IfOk result (λ found. option_map (map view_static) found ≡ spec.exactly (view_method_ref method.now)) }
{
    match &method.descriptor {
        Descriptor::Field(_) => Ok(Some(Items::new(alloc))),
        Descriptor::Method { parameters, .. } => {
            Ok(Some(exact_types(alloc, parameters.as_slice())?))
        }
    }
}

/// What a call of a method of an object lists.
fn virtual_listed<'a>(
    alloc: Global,
    classes: &Classes<'a>,
    method: &MethodRef,
) -> Result<&'a [ClassName], AllocError>
    ensures listed { IfOk result (λ listed. listed.now ≡ spec.virtual_listed (setting_of classes.now) (view_method_ref method.now)) }
{
    let arguments = exact_arguments(alloc, method)?;
    let owner = Some(method.owner.copy(alloc)?);
    Ok(object_listed(classes, &method.name, &owner, &arguments))
}

/// What a call of a static method lists.
fn static_listed<'a>(
    alloc: Global,
    classes: &Classes<'a>,
    method: &MethodRef,
) -> Result<&'a [ClassName], AllocError>
    ensures listed { IfOk result (λ listed. listed.now ≡ spec.static_listed (setting_of classes.now) (view_method_ref method.now)) }
{
    let JType::Class(class) = &method.owner else {
        return Ok(&[]);
    };
    let arguments = exact_arguments(alloc, method)?;
    class_listed(alloc, classes, class, &method.name, &arguments)
}

/// What a call of a constructor of a class lists, by all constructors.
fn constructor_searched<'a>(
    alloc: Global,
    classes: &Classes<'a>,
    method: &MethodRef,
    begun: bool,
) -> Result<&'a [ClassName], AllocError>
    ensures listed { IfOk result (λ listed. listed.now ≡ spec.constructor_listed (setting_of classes.now) (view_method_ref method.now) begun) }
{
    let JType::Class(class) = &method.owner else {
        return Ok(&[]);
    };
    let arguments = exact_arguments(alloc, method)?;
    if begun {
        construct_listed(alloc, classes, class == classes.from, &arguments)
    } else {
        new_listed(alloc, classes, class, &arguments)
    }
}

/// The class whose constructors `this(..)` or `super(..)` calls, by whether it is this one.
fn begun_class<'a>(classes: &Classes<'a>, own: bool) -> Option<&'a ClassName>
    ensures class { option_copied result ≡ begun_class (setting_of classes.now) own }
{
    if own {
        Some(classes.from)
    } else {
        superclass_of(classes.headers, classes.from)
    }
}

/// The parameters of a method.
fn parameters_in(method: &MethodRef) -> &[JType]
    ensures parameters { view_types result.now ≡ parameters_of (view_method_ref method.now).descriptor }
{
    match &method.descriptor {
        Descriptor::Method { parameters, .. } => parameters.as_slice(),
        Descriptor::Field(_) => &[],
    }
}

/// What a call of a constructor on `this` lists, where the first one of just its parameters tells it.
fn begun_exactly<'a>(
    classes: &Classes<'a>,
    method: &MethodRef,
    own: bool,
    types: &[StaticType],
) -> Option<&'a [ClassName]>
    requires lawful { IsLawful classes.now.headers.now }
    requires constructs { is_constructor (view_method_ref method.now).name ≡ true }
    requires exact { map view_static types.now ≡ map Of (parameters_of (view_method_ref method.now).descriptor) }
    ensures listed { IfSome result (λ listed. listed.now ≡ construct_listed (setting_of classes.now) own (spec.exactly (view_method_ref method.now))) }
{
    match begun_class(classes, own) {
        None => Some(&[]),
        Some(class) => listed_exactly(
            classes,
            class,
            None,
            &method.name,
            parameters_in(method),
            types,
        ),
    }
}

/// What a call of a constructor lists, where the first one of just its parameters tells it.
fn constructor_exactly<'a>(
    classes: &Classes<'a>,
    method: &MethodRef,
    begun: bool,
    types: &[StaticType],
) -> Option<&'a [ClassName]>
    requires lawful { IsLawful classes.now.headers.now }
    requires constructs { is_constructor (view_method_ref method.now).name ≡ true }
    requires exact { map view_static types.now ≡ map Of (parameters_of (view_method_ref method.now).descriptor) }
    ensures listed { IfSome result (λ listed. listed.now ≡ spec.constructor_listed (setting_of classes.now) (view_method_ref method.now) begun) }
{
    let JType::Class(class) = &method.owner else {
        return None;
    };
    if begun {
        begun_exactly(classes, method, class == classes.from, types)
    } else {
        listed_exactly(
            classes,
            class,
            Some(&method.owner),
            &method.name,
            parameters_in(method),
            types,
        )
    }
}

/// What a call of a constructor lists.
fn constructor_listed<'a>(
    alloc: Global,
    classes: &Classes<'a>,
    method: &MethodRef,
    begun: bool,
) -> Result<&'a [ClassName], AllocError>
    requires lawful { IsLawful classes.now.headers.now }
    requires constructs { is_constructor (view_method_ref method.now).name ≡ true }
    ensures listed { IfOk result (λ listed. listed.now ≡ spec.constructor_listed (setting_of classes.now) (view_method_ref method.now) begun) }
{
    let types = exact_types(alloc, parameters_in(method))?;
    match constructor_exactly(classes, method, begun, types.as_slice()) {
        Some(listed) => Ok(listed),
        None => constructor_searched(alloc, classes, method, begun),
    }
}

/// What the method lists that an instruction calls.
fn listed_by<'a>(
    alloc: Global,
    classes: &Classes<'a>,
    instruction: &Instruction,
    frame: &Frame,
) -> Result<&'a [ClassName], AllocError>
    requires lawful { IsLawful classes.now.headers.now }
    ensures listed { IfOk result (λ listed. listed.now ≡ spec.listed_by (setting_of classes.now) (view_instruction instruction.now) (view_frame frame.now)) }
{
    match instruction {
        Instruction::InvokeVirtual(method) | Instruction::InvokeInterface(method) => virtual_listed(
            alloc, classes, method,
        ),
        Instruction::InvokeStatic(method) => static_listed(alloc, classes, method),
        Instruction::InvokeSpecial(method) => {
            if is_constructor(&method.name) {
                constructor_listed(alloc, classes, method, is_on_begun(method, frame))
            } else {
                virtual_listed(alloc, classes, method)
            }
        }
        Instruction::Nop
        | Instruction::PushNull
        | Instruction::Push(_)
        | Instruction::PushClass(_)
        | Instruction::PushHandle { .. }
        | Instruction::PushMethodType(_)
        | Instruction::Load(_, _)
        | Instruction::Store(_, _)
        | Instruction::ArrayLoad(_)
        | Instruction::ArrayStore(_)
        | Instruction::Pop
        | Instruction::Pop2
        | Instruction::Dup
        | Instruction::DupX1
        | Instruction::DupX2
        | Instruction::Dup2
        | Instruction::Dup2X1
        | Instruction::Dup2X2
        | Instruction::Swap
        | Instruction::Calc(_, _)
        | Instruction::Iinc(_, _)
        | Instruction::Convert(_, _)
        | Instruction::Compare(_, _)
        | Instruction::IfZero(_, _)
        | Instruction::IfInts(_, _)
        | Instruction::IfRefs(_, _)
        | Instruction::IfNull(_, _)
        | Instruction::Goto(_)
        | Instruction::TableSwitch { .. }
        | Instruction::LookupSwitch { .. }
        | Instruction::Return(_)
        | Instruction::GetStatic(_)
        | Instruction::PutStatic(_)
        | Instruction::GetField(_)
        | Instruction::PutField(_)
        | Instruction::InvokeDynamic { .. }
        | Instruction::New(_)
        | Instruction::NewArray(_)
        | Instruction::MultiNewArray(_, _)
        | Instruction::ArrayLength
        | Instruction::Throw
        | Instruction::CheckCast(_)
        | Instruction::InstanceOf(_)
        | Instruction::MonitorEnter
        | Instruction::MonitorExit => Ok(&[]),
    }
}

/// Whether one of these classes may not escape from a method that declares others.
fn is_one_kept(
    kinds: &Kinds<'_>,
    headers: &Headers,
    declared: &[ClassName],
    listed: &[ClassName],
) -> bool
    requires same { kinds.now ≡ headers.now }
    ensures kept { result ≡ list_any (λ class. not (catching.may_escape headers.now declared.now class)) listed.now }
{
    for class in listed {
        if !may_escape(kinds, headers, declared, class) {
            return true;
        }
    }
    false
}

/// The world's classes as code sees them.
fn classes_of<'a>(world: &'a World, code: &'a Code) -> Classes<'a>
    ensures classes { setting_of result ≡ spec.setting_for world.now (view_code code.now) }
    ensures headers { result.headers.now ≡ world.now.headers }
    ensures lawful { IsLawful result.headers.now }
{
    Classes {
        headers: world.headers(),
        members: world.member_table(),
        from: &code.class,
    }
}

/// Whether an instruction calls a method that lists a checked class which may not escape from the code.
pub fn lets_escape(
    alloc: Global,
    world: &World,
    code: &Code,
    instruction: &Instruction,
    frame: &Frame,
) -> Result<bool, AllocError>
    ensures escapes { IfOk result (λ found. found ≡ spec.lets_escape world.now (view_code code.now) (view_instruction instruction.now) (view_frame frame.now)) }
{
    let classes = classes_of(world, code);
    let listed = listed_by(alloc, &classes, instruction, frame)?;
    if listed.is_empty() {
        return Ok(false);
    }
    let kinds = Kinds::new(alloc, classes.headers)?;
    Ok(is_one_kept(&kinds, classes.headers, code.thrown.as_slice(), listed))
}
