//! The types of expressions, given those of their parts (JLS 15).

ghost use Rattle.std.specs.Prelude.{◌≡◌, IfOk, Some, map, is_some, option_and_then};
ghost use Rattle.std.specs.Option.{option_map, option_copied};
ghost use Rattle.dj_names.specs.Types.{Of, Class, view_type, view_static};
ghost use Rattle.dj_meaning.specs.Fields as fields;
ghost use Rattle.dj_meaning.specs.StaticTypes as spec;
ghost use Rattle.dj_meaning.specs.Targets as targets;
ghost use Rattle.dj_static.specs.Targets.{view_target};
ghost use Rattle.dj_static.specs.Views.{context_in};

use dj_headers::class_of;
use dj_names::{ClassName, Items, JType, StaticType, Units};
use dj_static::{
    Classes, Selection, Target, named_field, of_class, of_construct, of_new, of_object, of_super,
    selected,
};
use std::alloc::{AllocError, Global};

/// Whether there is a type.
pub fn is_typed(found: &Option<StaticType>) -> bool
    ensures typed { result ≡ is_some (option_map view_static found.now) }
{
    match found {
        None => false,
        Some(_) => true,
    }
}

/// The type of the machine among the types of expressions.
pub fn plain(found: &Option<StaticType>) -> Option<&JType>
    ensures plain { option_map view_type (option_copied result) ≡ spec.plain (option_map view_static found.now) }
{
    match found {
        None => None,
        Some(StaticType::Null) => None,
        Some(StaticType::Of(kind)) => Some(kind),
    }
}

/// A copy of a type as that of an expression, where there is one.
pub fn copied(alloc: Global, found: Option<&JType>) -> Result<Option<StaticType>, AllocError>
    ensures typed { IfOk result (λ copy. option_map view_static copy ≡ spec.typed (option_map view_type (option_copied found.entry))) }
{
    match found {
        None => Ok(None),
        Some(kind) => Ok(Some(StaticType::Of(kind.copy(alloc)?))),
    }
}

/// The type of objects of a class.
pub fn object_type(alloc: Global, class: &ClassName) -> Result<Option<StaticType>, AllocError>
    ensures typed { IfOk result (λ found. option_map view_static found ≡ Some (Of (Class class.now))) }
{
    Ok(Some(StaticType::Of(JType::Class(class.copy(alloc)?))))
}

/// The type of objects of a class of the Java library.
pub fn library_type(alloc: Global, class: &str) -> Result<Option<StaticType>, AllocError>
    ensures typed { IfOk result (λ found. option_map view_static found ≡ Some (Of (Class class.now))) }
{
    Ok(Some(StaticType::Of(JType::Class(class_of(alloc, class)?))))
}

/// The type of what a name selects of an object of a type.
pub fn selected_type(
    alloc: Global,
    classes: &Classes<'_>,
    kind: &JType,
    name: &Units,
) -> Result<Option<StaticType>, AllocError>
    ensures typed { IfOk result (λ found. option_map view_static found
        ≡ spec.typed (option_map spec.selection_type (fields.selected (context_in classes.now).headers (context_in classes.now).members (context_in classes.now).class name.now (view_type kind.now)))) }
{
    match selected(alloc, classes, name, kind)? {
        None => Ok(None),
        Some(Selection::Length) => Ok(Some(StaticType::Of(JType::Int))),
        Some(Selection::Field(field)) => copied(alloc, Some(&field.descriptor)),
    }
}

/// The type of a static field of a class.
pub fn static_type(
    alloc: Global,
    classes: &Classes<'_>,
    class: &ClassName,
    name: &Units,
) -> Result<Option<StaticType>, AllocError>
    ensures typed { IfOk result (λ found. option_map view_static found
        ≡ spec.typed (option_map (λ (field : fields.KnownField). field.type) (fields.named_field (context_in classes.now).headers (context_in classes.now).members (context_in classes.now).class class.now name.now))) }
{
    match named_field(alloc, classes, class, name)? {
        None => Ok(None),
        Some(field) => copied(alloc, Some(&field.descriptor)),
    }
}

/// What a call of a target gives, where there is one.
pub fn given_type(alloc: Global, target: &Option<Target>) -> Result<Option<StaticType>, AllocError>
    ensures typed { IfOk result (λ found. option_map view_static found ≡ spec.typed (option_and_then targets.result (option_map view_target target.now))) }
{
    match target {
        None => Ok(None),
        Some(target) => copied(alloc, target.result()),
    }
}

/// What a call of an object's method asks for, given the types of the object and of the arguments.
pub fn object_target(
    alloc: Global,
    classes: &Classes<'_>,
    object: Option<&JType>,
    name: &Units,
    arguments: &Option<Items<StaticType>>,
) -> Result<Option<Target>, AllocError>
    ensures target { IfOk result (λ found. option_map view_target found
        ≡ spec.object_target (context_in classes.now) name.now (option_map view_type (option_copied object.entry)) (option_map (map view_static) arguments.now)) }
{
    match arguments {
        None => Ok(None),
        Some(arguments) => match object {
            None => Ok(None),
            Some(kind) => of_object(alloc, classes, kind, name, arguments.as_slice()),
        },
    }
}

/// What a call of a static method asks for, given the types of the arguments.
pub fn class_target(
    alloc: Global,
    classes: &Classes<'_>,
    class: &ClassName,
    name: &Units,
    arguments: &Option<Items<StaticType>>,
) -> Result<Option<Target>, AllocError>
    ensures target { IfOk result (λ found. option_map view_target found
        ≡ spec.class_target (context_in classes.now) class.now name.now (option_map (map view_static) arguments.now)) }
{
    match arguments {
        None => Ok(None),
        Some(arguments) => of_class(alloc, classes, class, name, arguments.as_slice()),
    }
}

/// What a call behind `super` asks for, given the types of the arguments.
pub fn super_target(
    alloc: Global,
    classes: &Classes<'_>,
    above: &Option<ClassName>,
    name: &Units,
    arguments: &Option<Items<StaticType>>,
) -> Result<Option<Target>, AllocError>
    ensures target { IfOk result (λ found. option_map view_target found
        ≡ spec.super_target (context_in classes.now) above.now name.now (option_map (map view_static) arguments.now)) }
{
    match arguments {
        None => Ok(None),
        Some(arguments) => of_super(alloc, classes, above.as_ref(), name, arguments.as_slice()),
    }
}

/// Which constructor `new` calls, given the types of the arguments.
pub fn new_target(
    alloc: Global,
    classes: &Classes<'_>,
    class: &ClassName,
    arguments: &Option<Items<StaticType>>,
) -> Result<Option<Target>, AllocError>
    ensures target { IfOk result (λ found. option_map view_target found
        ≡ spec.new_target (context_in classes.now) class.now (option_map (map view_static) arguments.now)) }
{
    match arguments {
        None => Ok(None),
        Some(arguments) => of_new(alloc, classes, class, arguments.as_slice()),
    }
}

/// Which constructor `this(..)` or `super(..)` calls, given the types of the arguments.
pub fn construct_target(
    alloc: Global,
    classes: &Classes<'_>,
    own: bool,
    arguments: &Option<Items<StaticType>>,
) -> Result<Option<Target>, AllocError>
    ensures target { IfOk result (λ found. option_map view_target found
        ≡ spec.construct_target (context_in classes.now) own (option_map (map view_static) arguments.now)) }
{
    match arguments {
        None => Ok(None),
        Some(arguments) => of_construct(alloc, classes, own, arguments.as_slice()),
    }
}
