//! Calls of private methods and behind `super`, and births that a constructor's call ends (JLS 15.9, 15.12; JVMS 6.5, `invokespecial`).

ghost use Rattle.std.specs.Prelude.{◌≡◌, ◌+◌, IfOk, Some, None, if◌then◌else◌, option_map};
ghost use Rattle.std.specs.Option.{option_copied};
ghost use Rattle.dj_names.specs.Types.{Class, view_type, result_of};
ghost use Rattle.dj_syntax.specs.Trees.{view_exp, view_exps};
ghost use Rattle.dj_rebuilt.specs.Rebuilding.{ended_birth};
ghost use Rattle.dj_values.specs.Deciding.{is_type, is_some_and, is_subclass};
ghost use Rattle.dj_values.specs.Fits.{class_of};
ghost use Rattle.dj_instructions.specs.Instructions.{view_method_ref};
ghost use Rattle.dj_bytecode.specs.Meanings.{arguments_of};
ghost use Rattle.dj_places.specs.Surroundings.{surroundings_of};
ghost use Rattle.dj_member_nodes.specs.Nodes as nodes;
ghost use Rattle.dj_pending.specs.Trees.{view_tree};
ghost use Rattle.dj_pending.specs.Operands.{operands_of};
ghost use Rattle.dj_pending.specs.Stacks.{stacked};
ghost use Rattle.dj_pending.specs.Building.{view_built, as_built};
ghost use Rattle.dj_pending.specs.Spilling.{behind};
ghost use Rattle.dj_member_trees.specs.Calling as spec;

use crate::arguments::{Arguments, given};
use crate::calls::{give, object_call, result_of};
use crate::fields::class_of;
use crate::trees::{new_tree, super_call_tree};
use dj_alone::{is_alone, parameters_of};
use dj_instructions::MethodRef;
use dj_names::{ClassName, Items, JType, StaticType, is_constructor};
use dj_pending::{Built, Entry, Operand, Stack, Tree, take};
use dj_static::{Classes, is_interface, superclass_of};
use dj_syntax::Exp;
use std::alloc::{AllocError, Global};

/// Whether an expression is `this`.
fn is_this(exp: &Exp) -> bool
    ensures this { result ≡ nodes.is_this (view_exp exp.now) }
{
    match exp {
        Exp::This => true,
        Exp::Int(_)
        | Exp::Long(_)
        | Exp::Text(_)
        | Exp::Bool(_)
        | Exp::Null
        | Exp::Var(_)
        | Exp::ClassOf(_)
        | Exp::Field(_, _)
        | Exp::Static(_, _)
        | Exp::Element(_, _)
        | Exp::Call(_, _, _)
        | Exp::StaticCall(_, _, _)
        | Exp::SuperCall(_, _, _)
        | Exp::New(_, _)
        | Exp::NewArray(_, _, _)
        | Exp::Cast(_, _)
        | Exp::InstanceOf(_, _)
        | Exp::Negative(_)
        | Exp::Not(_)
        | Exp::Binary(_, _, _)
        | Exp::Choice(_, _, _)
        | Exp::Assign(_, _) => false,
    }
}

/// Whether a type is a class.
fn is_class(kind: &JType, class: &ClassName) -> bool
    ensures class { result ≡ is_type (view_type kind.now) (Class class.now) }
{
    match class_of(kind) {
        Some(name) => name == class,
        None => false,
    }
}

/// Whether the owner of a method is a class or above it.
fn is_owner_above(classes: &Classes<'_>, superclass: &ClassName, method: &MethodRef) -> bool
    ensures above { result ≡ is_some_and (class_of (view_method_ref method.now).owner) (λ upper. is_subclass classes.now.headers.now superclass.now upper) }
{
    match class_of(&method.owner) {
        Some(upper) => classes.headers.is_subclass(superclass, upper),
        None => false,
    }
}

/// Whether the search of a method begins in a superclass.
fn starts_above(classes: &Classes<'_>, superclass: &ClassName, method: &MethodRef) -> bool
    ensures starts { result ≡ spec.starts_above classes.now.headers.now superclass.now (view_method_ref method.now) }
{
    !is_constructor(&method.name) && is_owner_above(classes, superclass, method)
        || is_class(&method.owner, superclass)
}

/// The superclass, where a method is looked for from there on.
fn class_above<'a>(classes: &Classes<'a>, method: &MethodRef) -> Option<&'a ClassName>
    ensures above { option_copied result ≡ spec.class_above (surroundings_of classes.now) (view_method_ref method.now) }
{
    if is_interface(classes.headers, classes.from) {
        return None;
    }
    let Some(superclass) = superclass_of(classes.headers, classes.from) else {
        return None;
    };
    if starts_above(classes, superclass, method) {
        Some(superclass)
    } else {
        None
    }
}

/// The arguments of a method that is looked for in a class.
fn arguments_in(
    alloc: Global,
    classes: &Classes<'_>,
    class: &ClassName,
    method: &MethodRef,
    operands: Items<Operand>,
) -> Result<Option<Arguments>, AllocError>
    ensures arguments { IfOk result (λ found. option_map (λ arguments. view_exps arguments.exps) found ≡ spec.arguments_in (surroundings_of classes.now) class.now (view_method_ref method.now) (operands_of operands)) }
{
    let parameters = parameters_of(&method.descriptor);
    let alone = is_alone(classes, class, &method.name, parameters);
    let found = given(alloc, classes.headers, alone, operands, parameters)?;
    Ok(found)
}

/// The interface that is named before `super`, if one is.
fn named_if(alloc: Global, named: bool, class: &ClassName) -> Result<Option<ClassName>, AllocError>
    ensures named { IfOk result (λ found. found ≡ (if named then Some class.now else None)) }
{
    if named {
        let class = class.copy(alloc)?;
        Ok(Some(class))
    } else {
        Ok(None)
    }
}

/// A call behind `super` of a method that is looked for in a class, which is named or not.
fn super_in(
    alloc: Global,
    classes: &Classes<'_>,
    class: &ClassName,
    named: bool,
    method: &MethodRef,
    operands: Items<Operand>,
) -> Result<Option<Tree>, AllocError>
    ensures call { IfOk result (λ found. option_map view_tree found ≡ spec.super_in (surroundings_of classes.now) class.now named (view_method_ref method.now) (operands_of operands)) }
{
    let Some(arguments) = arguments_in(alloc, classes, class, method, operands)? else {
        return Ok(None);
    };
    let interface = named_if(alloc, named, class)?;
    let tree = super_call_tree(alloc, interface, &method.name, arguments)?;
    Ok(Some(tree))
}

/// A call behind `super`, but for `this`.
fn super_of(
    alloc: Global,
    classes: &Classes<'_>,
    method: &MethodRef,
    operands: Items<Operand>,
) -> Result<Option<Tree>, AllocError>
    ensures call { IfOk result (λ found. option_map view_tree found ≡ spec.super_by (surroundings_of classes.now) (view_method_ref method.now) (operands_of operands) (spec.class_above (surroundings_of classes.now) (view_method_ref method.now))) }
{
    match class_above(classes, method) {
        Some(class) => super_in(alloc, classes, class, false, method, operands),
        None => match class_of(&method.owner) {
            Some(class) => super_in(alloc, classes, class, true, method, operands),
            None => Ok(None),
        },
    }
}

/// A call behind `super`.
fn super_call(
    alloc: Global,
    classes: &Classes<'_>,
    method: &MethodRef,
    operands: Items<Operand>,
) -> Result<Option<Tree>, AllocError>
    ensures call { IfOk result (λ found. option_map view_tree found ≡ spec.super_called (surroundings_of classes.now) (view_method_ref method.now) (operands_of operands)) }
{
    let mut left = operands;
    let Some(object) = left.pop() else {
        return Ok(None);
    };
    if !is_this(&object.tree.exp) {
        return Ok(None);
    }
    let found = super_of(alloc, classes, method, left)?;
    Ok(found)
}

/// A call of a method of this class, or behind `super`.
fn special_call(
    alloc: Global,
    classes: &Classes<'_>,
    method: &MethodRef,
    operands: Items<Operand>,
) -> Result<Option<Tree>, AllocError>
    ensures call { IfOk result (λ found. option_map view_tree found ≡ spec.special_called (surroundings_of classes.now) (view_method_ref method.now) (operands_of operands)) }
{
    if is_constructor(&method.name) {
        return Ok(None);
    }
    if is_class(&method.owner, classes.from) {
        let found = object_call(alloc, classes, method, operands)?;
        return Ok(found);
    }
    let found = super_call(alloc, classes, method, operands)?;
    Ok(found)
}

/// The birth of an object of a class, by its arguments.
fn birth(
    alloc: Global,
    classes: &Classes<'_>,
    class: &ClassName,
    method: &MethodRef,
    operands: Items<Operand>,
) -> Result<Option<Tree>, AllocError>
    ensures birth { IfOk result (λ found. option_map view_tree found ≡ spec.birth_called (surroundings_of classes.now) (view_method_ref method.now) class.now (operands_of operands)) }
{
    if !(is_constructor(&method.name) && is_class(&method.owner, class)) {
        return Ok(None);
    }
    let Some(arguments) = arguments_in(alloc, classes, class, method, operands)? else {
        return Ok(None);
    };
    let tree = new_tree(alloc, class, arguments)?;
    Ok(Some(tree))
}

/// Whether the entry at a place is an object whose birth has begun.
fn is_birth_at(stack: &Stack, place: usize) -> bool
    ensures birth { result ≡ spec.is_birth_at place (stacked stack.now) }
{
    match stack.get(place) {
        Some(entry) => entry.is_unborn(),
        None => false,
    }
}

/// A birth whose object is there once is ended, as a statement.
fn end_once(
    alloc: Global,
    classes: &Classes<'_>,
    built: &mut Built,
    class: &ClassName,
    method: &MethodRef,
    operands: Items<Operand>,
) -> Result<bool, AllocError>
    ensures built { IfOk result (λ done. as_built done (view_built built.new)
        ≡ behind (view_built built.old).emitted (spec.once_ended (surroundings_of classes.now) (view_method_ref method.now) class.now built.old.next (operands_of operands) (stacked built.old.stack))) }
{
    let Some(tree) = birth(alloc, classes, class, method, operands)? else {
        return Ok(false);
    };
    let done = give(alloc, built, None, tree)?;
    Ok(done)
}

/// A birth whose object is there twice is ended, and the object stays.
fn end_twice(
    alloc: Global,
    classes: &Classes<'_>,
    built: &mut Built,
    class: ClassName,
    method: &MethodRef,
    operands: Items<Operand>,
) -> Result<bool, AllocError>
    ensures built { IfOk result (λ done. as_built done (view_built built.new)
        ≡ behind (view_built built.old).emitted (ended_birth built.old.next class (stacked built.old.stack) (spec.birth_called (surroundings_of classes.now) (view_method_ref method.now) class (operands_of operands)))) }
{
    let Some(tree) = birth(alloc, classes, &class, method, operands)? else {
        return Ok(false);
    };
    let kind = StaticType::Of(JType::Class(class));
    built.push(Entry::Whole(kind, tree))?;
    Ok(true)
}

/// A birth is ended below one entry that is its object once more.
fn end_again(
    alloc: Global,
    classes: &Classes<'_>,
    built: &mut Built,
    method: &MethodRef,
    operands: Items<Operand>,
) -> Result<bool, AllocError>
    ensures built { IfOk result (λ done. as_built done (view_built built.new)
        ≡ behind (view_built built.old).emitted (spec.again_ended (surroundings_of classes.now) (view_method_ref method.now) built.old.next (operands_of operands) (stacked built.old.stack))) }
{
    match built.stack.pop() {
        Some(Entry::Born(class)) => end_twice(alloc, classes, built, class, method, operands),
        Some(Entry::Kept(_, _) | Entry::Whole(_, _) | Entry::Again) => Ok(false),
        None => Ok(false),
    }
}

/// A birth is ended whose object is on top.
fn end_birth(
    alloc: Global,
    classes: &Classes<'_>,
    built: &mut Built,
    method: &MethodRef,
    operands: Items<Operand>,
) -> Result<bool, AllocError>
    ensures built { IfOk result (λ done. as_built done (view_built built.new)
        ≡ behind (view_built built.old).emitted (spec.birth_ended (surroundings_of classes.now) (view_method_ref method.now) built.old.next (operands_of operands) (stacked built.old.stack))) }
{
    match built.stack.pop() {
        Some(Entry::Born(class)) => end_once(alloc, classes, built, &class, method, operands),
        Some(Entry::Again) => end_again(alloc, classes, built, method, operands),
        Some(Entry::Kept(_, _) | Entry::Whole(_, _)) => Ok(false),
        None => Ok(false),
    }
}

/// A birth is ended by its constructor's call.
fn bear(
    alloc: Global,
    classes: &Classes<'_>,
    built: &mut Built,
    method: &MethodRef,
) -> Result<bool, AllocError>
    ensures built { IfOk result (λ done. as_built done (view_built built.new)
        ≡ behind (view_built built.old).emitted (spec.birth_built (surroundings_of classes.now) (view_method_ref method.now) built.old.next (stacked built.old.stack))) }
{
    let count = parameters_of(&method.descriptor).len();
    let Some(operands) = take(alloc, &mut built.stack, count)? else {
        return Ok(false);
    };
    let done = end_birth(alloc, classes, built, method, operands)?;
    Ok(done)
}

/// A call on an object by `invokespecial`.
fn call_special(
    alloc: Global,
    classes: &Classes<'_>,
    built: &mut Built,
    method: &MethodRef,
) -> Result<bool, AllocError>
    ensures built { IfOk result (λ done. as_built done (view_built built.new)
        ≡ behind (view_built built.old).emitted (spec.called_built (arguments_of (view_method_ref method.now).descriptor + 1) (spec.special_called (surroundings_of classes.now) (view_method_ref method.now))
        (result_of (view_method_ref method.now).descriptor) built.old.next (stacked built.old.stack))) }
{
    let count = parameters_of(&method.descriptor).len() + 1;
    let Some(operands) = take(alloc, &mut built.stack, count)? else {
        return Ok(false);
    };
    let Some(tree) = special_call(alloc, classes, method, operands)? else {
        return Ok(false);
    };
    let done = give(alloc, built, result_of(&method.descriptor), tree)?;
    Ok(done)
}

/// A call by `invokespecial`.
pub fn invoke_special(
    alloc: Global,
    classes: &Classes<'_>,
    built: &mut Built,
    method: &MethodRef,
) -> Result<bool, AllocError>
    ensures built { IfOk result (λ done. as_built done (view_built built.new)
        ≡ behind (view_built built.old).emitted (spec.special_built (surroundings_of classes.now) (view_method_ref method.now) built.old.next (stacked built.old.stack))) }
{
    let count = parameters_of(&method.descriptor).len();
    if is_birth_at(&built.stack, count) {
        bear(alloc, classes, built, method)
    } else {
        call_special(alloc, classes, built, method)
    }
}
