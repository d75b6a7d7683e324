//! What is known of an expression in a scope: its type, and the fields and methods that it means.

ghost use Rattle.std.specs.Prelude.{◌≡◌, IfOk, map, option_and_then, List};
ghost use Rattle.std.specs.Option.{option_map, option_copied};
ghost use Rattle.dj_names.specs.Types.{JType, view_type, view_static};
ghost use Rattle.dj_values.specs.Fits as fits;
ghost use Rattle.dj_syntax.specs.Trees.{view_exp, view_exps};
ghost use Rattle.dj_meaning.specs.Fields as fields;
ghost use Rattle.dj_meaning.specs.Promotions.{becomes_floating, typing_of};
ghost use Rattle.dj_meaning.specs.StaticTypes as spec;
ghost use Rattle.dj_static.specs.Scopes.{scope_of};
ghost use Rattle.dj_static.specs.Targets.{view_target};
ghost use Rattle.dj_static.specs.Views.{known_of};
ghost use Rattle.dj_objects.specs.Runs.{context_of, view_selected};

use crate::run::Method;
use dj_names::{ClassName, Field, Items, JType, StaticType, Units};
use dj_static::{
    Scope, Selection, Target, element_of, is_floating_pair, named_field, of_class, of_construct,
    of_new, of_object, of_super, plain_type_of, selected, types_of,
};
use dj_syntax::{Exp, Op};
use std::alloc::AllocError;

/// The type of an expression where it is one of the machine.
fn kind_of(method: &Method<'_>, scope: &Scope, exp: &Exp) -> Result<Option<JType>, AllocError>
    ensures kind { IfOk result (λ found. option_map view_type found ≡ spec.plain (spec.type_of (context_of method.now) (scope_of scope.now) (view_exp exp.now))) }
{
    plain_type_of(method.alloc, &method.classes, scope, exp)
}

/// The types of arguments.
fn kinds_of(
    method: &Method<'_>,
    scope: &Scope,
    arguments: &[Exp],
) -> Result<Option<Items<StaticType>>, AllocError>
    ensures kinds { IfOk result (λ found. option_map (map view_static) found ≡ spec.types_of (context_of method.now) (scope_of scope.now) (view_exps arguments.now)) }
{
    types_of(method.alloc, &method.classes, scope, arguments)
}

/// Whether the operands of an operator become floats or doubles.
pub fn is_floating(
    method: &Method<'_>,
    scope: &Scope,
    operator: Op,
    left: &Exp,
    right: &Exp,
) -> Result<bool, AllocError>
    ensures floating { IfOk result (λ floating. floating ≡ becomes_floating (typing_of operator) (spec.plain (spec.type_of (context_of method.now) (scope_of scope.now) (view_exp left.now)))
        (spec.plain (spec.type_of (context_of method.now) (scope_of scope.now) (view_exp right.now)))) }
{
    is_floating_pair(method.alloc, &method.classes, scope, operator, left, right)
}

/// What a name selects of an expression, with the type through which it does.
pub fn selection<'a>(
    method: &Method<'a>,
    scope: &Scope,
    object: &Exp,
    name: &Units,
) -> Result<Option<(JType, Selection<'a>)>, AllocError>
    ensures selection { IfOk result (λ found. option_map view_selected found
        ≡ option_and_then (fields.selected (context_of method.now).headers (context_of method.now).members (context_of method.now).class name.now) (spec.plain (spec.type_of (context_of method.now) (scope_of scope.now) (view_exp object.now)))) }
{
    let Some(kind) = kind_of(method, scope, object)? else {
        return Ok(None);
    };
    match selected(method.alloc, &method.classes, name, &kind)? {
        Some(selection) => Ok(Some((kind, selection))),
        None => Ok(None),
    }
}

/// A static field of a class that is named.
pub fn static_field<'a>(
    method: &Method<'a>,
    class: &ClassName,
    name: &Units,
) -> Result<Option<&'a Field>, AllocError>
    ensures field { IfOk result (λ found. option_map known_of (option_copied found) ≡ fields.named_field (context_of method.now).headers (context_of method.now).members (context_of method.now).class class.now name.now) }
{
    named_field(method.alloc, &method.classes, class, name)
}

/// The type of an array's elements.
pub fn element_kind(
    method: &Method<'_>,
    scope: &Scope,
    array: &Exp,
) -> Result<Option<JType>, AllocError>
    ensures element { IfOk result (λ found. option_map view_type found ≡ option_and_then fits.element_of (spec.plain (spec.type_of (context_of method.now) (scope_of scope.now) (view_exp array.now)))) }
{
    let Some(kind) = kind_of(method, scope, array)? else {
        return Ok(None);
    };
    match element_of(&kind) {
        Some(element) => Ok(Some(element.copy(method.alloc)?)),
        None => Ok(None),
    }
}

/// What a call of an object's method asks for.
pub fn object_target(
    method: &Method<'_>,
    scope: &Scope,
    object: &Exp,
    name: &Units,
    arguments: &[Exp],
) -> Result<Option<Target>, AllocError>
    ensures target { IfOk result (λ found. option_map view_target found ≡ spec.object_target (context_of method.now) name.now
        (spec.plain (spec.type_of (context_of method.now) (scope_of scope.now) (view_exp object.now))) (spec.types_of (context_of method.now) (scope_of scope.now) (view_exps arguments.now))) }
{
    let Some(kinds) = kinds_of(method, scope, arguments)? else {
        return Ok(None);
    };
    let Some(kind) = kind_of(method, scope, object)? else {
        return Ok(None);
    };
    of_object(method.alloc, &method.classes, &kind, name, kinds.as_slice())
}

/// What a call of a class's static method asks for.
pub fn class_target(
    method: &Method<'_>,
    scope: &Scope,
    class: &ClassName,
    name: &Units,
    arguments: &[Exp],
) -> Result<Option<Target>, AllocError>
    ensures target { IfOk result (λ found. option_map view_target found ≡ spec.class_target (context_of method.now) class.now name.now (spec.types_of (context_of method.now) (scope_of scope.now) (view_exps arguments.now))) }
{
    let Some(kinds) = kinds_of(method, scope, arguments)? else {
        return Ok(None);
    };
    of_class(method.alloc, &method.classes, class, name, kinds.as_slice())
}

/// What a call behind `super` asks for.
pub fn super_target(
    method: &Method<'_>,
    scope: &Scope,
    above: Option<&ClassName>,
    name: &Units,
    arguments: &[Exp],
) -> Result<Option<Target>, AllocError>
    ensures target { IfOk result (λ found. option_map view_target found ≡ spec.super_target (context_of method.now) (option_copied above.entry) name.now (spec.types_of (context_of method.now) (scope_of scope.now) (view_exps arguments.now))) }
{
    let Some(kinds) = kinds_of(method, scope, arguments)? else {
        return Ok(None);
    };
    of_super(method.alloc, &method.classes, above, name, kinds.as_slice())
}

/// Which constructor `new` calls.
pub fn new_target(
    method: &Method<'_>,
    scope: &Scope,
    class: &ClassName,
    arguments: &[Exp],
) -> Result<Option<Target>, AllocError>
    ensures target { IfOk result (λ found. option_map view_target found ≡ spec.new_target (context_of method.now) class.now (spec.types_of (context_of method.now) (scope_of scope.now) (view_exps arguments.now))) }
{
    let Some(kinds) = kinds_of(method, scope, arguments)? else {
        return Ok(None);
    };
    of_new(method.alloc, &method.classes, class, kinds.as_slice())
}

/// Which constructor `this(..)` or `super(..)` calls.
pub fn construct_target(
    method: &Method<'_>,
    scope: &Scope,
    own: bool,
    arguments: &[Exp],
) -> Result<Option<Target>, AllocError>
    ensures target { IfOk result (λ found. option_map view_target found ≡ spec.construct_target (context_of method.now) own (spec.types_of (context_of method.now) (scope_of scope.now) (view_exps arguments.now))) }
{
    let Some(kinds) = kinds_of(method, scope, arguments)? else {
        return Ok(None);
    };
    of_construct(method.alloc, &method.classes, own, kinds.as_slice())
}
