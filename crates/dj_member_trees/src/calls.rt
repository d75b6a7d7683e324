//! Calls of methods (JLS 15.12; JVMS 6.5, `invokevirtual`, `invokeinterface`, `invokestatic`).

ghost use Rattle.std.specs.Prelude.{◌≡◌, ◌+◌, true, is_some, map, IfOk, option_map};
ghost use Rattle.std.specs.Option.{option_copied};
ghost use Rattle.dj_names.specs.Types.{view_type, view_types, view_descriptor, result_of};
ghost use Rattle.dj_values.specs.Deciding.{is_array_clone};
ghost use Rattle.dj_values.specs.Values.{Virtual, Interface};
ghost use Rattle.dj_instructions.specs.Instructions.{view_method_ref};
ghost use Rattle.dj_bytecode.specs.Meanings.{arguments_of};
ghost use Rattle.dj_places.specs.Surroundings.{surroundings_of};
ghost use Rattle.dj_rebuilt.specs.Rebuilding.{dropped};
ghost use Rattle.dj_pending.specs.Trees.{view_tree};
ghost use Rattle.dj_pending.specs.Entries.{view_operand};
ghost use Rattle.dj_pending.specs.Operands.{operands_of};
ghost use Rattle.dj_pending.specs.Stacks.{stacked};
ghost use Rattle.dj_pending.specs.Building.{view_built, as_built};
ghost use Rattle.dj_pending.specs.Spilling.{behind};
ghost use Rattle.dj_member_trees.specs.Fitting as fitting;
ghost use Rattle.dj_member_trees.specs.Calling as calling;

use crate::arguments::given;
use crate::fields::class_of;
use crate::fitting::fitted;
use crate::trees::{call_tree, static_call_tree};
use dj_alone::{is_alone, is_alone_in, parameters_of};
use dj_checked::is_reference;
use dj_headers::Headers;
use dj_instructions::MethodRef;
use dj_names::{Descriptor, Items, JType, StaticType, Units, is_word};
use dj_pending::{Built, Entry, Operand, Tree, take};
use dj_static::Classes;
use dj_syntax::Stm;
use std::alloc::{AllocError, Global};

/// The result of a descriptor.
pub fn result_of(descriptor: &Descriptor) -> Option<&JType>
    ensures result { option_map view_type (option_copied result) ≡ result_of (view_descriptor descriptor.now) }
{
    match descriptor {
        Descriptor::Method { result, .. } => result.as_ref(),
        Descriptor::Field(kind) => Some(kind),
    }
}

/// Whether a method is `clone` of an array.
fn is_array_clone(owner: &JType, name: &Units, parameters: &[JType]) -> bool
    ensures clone { result ≡ is_array_clone (view_type owner.now) name.now (view_types parameters.now) }
{
    match owner {
        JType::Array(_) => is_word(name.as_slice(), "clone") && parameters.is_empty(),
        JType::Boolean
        | JType::Byte
        | JType::Char
        | JType::Short
        | JType::Int
        | JType::Long
        | JType::Float
        | JType::Double
        | JType::Class(_) => false,
    }
}

/// What a call on an object gives: `clone` of an array has the array's type.
fn given_by(method: &MethodRef) -> Option<&JType>
    ensures given { option_map view_type (option_copied result) ≡ calling.call_result Virtual (view_method_ref method.now) }
    ensures interfaces { option_map view_type (option_copied result) ≡ calling.call_result Interface (view_method_ref method.now) }
{
    if is_array_clone(
        &method.owner,
        &method.name,
        parameters_of(&method.descriptor),
    ) {
        Some(&method.owner)
    } else {
        result_of(&method.descriptor)
    }
}

/// The object of a call, where it may be one.
fn receiver(
    alloc: Global,
    headers: &Headers,
    object: Operand,
    owner: &JType,
) -> Result<Option<Tree>, AllocError>
    ensures receiver { IfOk result (λ found. option_map view_tree found ≡ fitting.receiver headers.now (view_type owner.now) (view_operand object)) }
{
    if !is_reference(owner) {
        return Ok(None);
    }
    let found = fitted(alloc, headers, false, object, owner)?;
    Ok(found)
}

/// A call on an object, the first operand.
pub fn object_call(
    alloc: Global,
    classes: &Classes<'_>,
    method: &MethodRef,
    operands: Items<Operand>,
) -> Result<Option<Tree>, AllocError>
    ensures call { IfOk result (λ found. option_map view_tree found ≡ calling.object_called (surroundings_of classes.now) (view_method_ref method.now) (operands_of operands)) }
{
    let mut left = operands;
    let Some(object) = left.pop() else {
        return Ok(None);
    };
    let Some(object) = receiver(alloc, classes.headers, object, &method.owner)? else {
        return Ok(None);
    };
    let parameters = parameters_of(&method.descriptor);
    let alone = is_alone_in(classes, &method.owner, &method.name, parameters);
    let Some(arguments) = given(alloc, classes.headers, alone, left, parameters)? else {
        return Ok(None);
    };
    let tree = call_tree(alloc, object, &method.name, arguments)?;
    Ok(Some(tree))
}

/// A call of a static method.
fn class_call(
    alloc: Global,
    classes: &Classes<'_>,
    method: &MethodRef,
    operands: Items<Operand>,
) -> Result<Option<Tree>, AllocError>
    ensures call { IfOk result (λ found. option_map view_tree found ≡ calling.class_called (surroundings_of classes.now) (view_method_ref method.now) (operands_of operands)) }
{
    let Some(class) = class_of(&method.owner) else {
        return Ok(None);
    };
    let parameters = parameters_of(&method.descriptor);
    let alone = is_alone(classes, class, &method.name, parameters);
    let Some(arguments) = given(alloc, classes.headers, alone, operands, parameters)? else {
        return Ok(None);
    };
    let tree = static_call_tree(alloc, class, &method.name, arguments)?;
    Ok(Some(tree))
}

/// What a call gives is pushed; one that gives nothing is a statement.
pub fn give(
    alloc: Global,
    built: &mut Built,
    kind: Option<&JType>,
    tree: Tree,
) -> Result<bool, AllocError>
    requires call { is_some (dropped (view_tree tree)) ≡ true }
    ensures built { IfOk result (λ done. as_built done (view_built built.new)
        ≡ behind (view_built built.old).emitted (calling.result_built built.old.next (stacked built.old.stack) (option_map view_type (option_copied kind.entry)) (view_tree tree))) }
{
    match kind {
        Some(kind) => {
            let kind = StaticType::Of(kind.copy(alloc)?);
            built.push(Entry::Whole(kind, tree))?;
            Ok(true)
        }
        None => {
            let done = built.emit(alloc, &[], Stm::Run(tree.exp))?;
            Ok(done)
        }
    }
}

/// A call on an object.
pub fn invoke_object(
    alloc: Global,
    classes: &Classes<'_>,
    built: &mut Built,
    method: &MethodRef,
) -> Result<bool, AllocError>
    ensures given { IfOk result (λ done. as_built done (view_built built.new)
        ≡ behind (view_built built.old).emitted (calling.called_built (arguments_of (view_method_ref method.now).descriptor + 1) (calling.object_called (surroundings_of classes.now) (view_method_ref method.now))
        (calling.call_result Virtual (view_method_ref method.now)) built.old.next (stacked built.old.stack))) }
{
    let count = parameters_of(&method.descriptor).len() + 1;
    let Some(operands) = take(alloc, &mut built.stack, count)? else {
        return Ok(false);
    };
    let Some(tree) = object_call(alloc, classes, method, operands)? else {
        return Ok(false);
    };
    let done = give(alloc, built, given_by(method), tree)?;
    Ok(done)
}

/// A call of a static method.
pub fn invoke_static(
    alloc: Global,
    classes: &Classes<'_>,
    built: &mut Built,
    method: &MethodRef,
) -> Result<bool, AllocError>
    ensures built { IfOk result (λ done. as_built done (view_built built.new)
        ≡ behind (view_built built.old).emitted (calling.called_built (arguments_of (view_method_ref method.now).descriptor) (calling.class_called (surroundings_of classes.now) (view_method_ref method.now))
        (result_of (view_method_ref method.now).descriptor) built.old.next (stacked built.old.stack))) }
{
    let count = parameters_of(&method.descriptor).len();
    let Some(operands) = take(alloc, &mut built.stack, count)? else {
        return Ok(false);
    };
    let Some(tree) = class_call(alloc, classes, method, operands)? else {
        return Ok(false);
    };
    let done = give(alloc, built, result_of(&method.descriptor), tree)?;
    Ok(done)
}
