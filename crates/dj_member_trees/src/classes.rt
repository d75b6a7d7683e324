//! Casts, `instanceof` and class constants (JLS 15.8.2, 15.16, 15.20.2).

ghost use Rattle.std.specs.Prelude.{◌≡◌, ◌&&◌, IfOk, option_map};
ghost use Rattle.dj_names.specs.Types.{view_type, view_static};
ghost use Rattle.dj_pending.specs.Trees.{view_tree};
ghost use Rattle.dj_pending.specs.Entries.{view_operand};
ghost use Rattle.dj_pending.specs.Stacks.{stacked};
ghost use Rattle.dj_pending.specs.Building.{view_built, as_built};
ghost use Rattle.dj_pending.specs.Spilling.{behind};
ghost use Rattle.dj_member_trees.specs.Fitting as spec;
ghost use Rattle.dj_member_trees.specs.Stepping as stepping;

use crate::casts::is_object;
use crate::fitting::fits_in;
use crate::trees::{boolean_type, class_tree, class_type, instance_tree, object_type};
use dj_checked::{is_reference, may_be, may_be_of, may_cast};
use dj_headers::Headers;
use dj_names::{JType, StaticType};
use dj_pending::{Built, Entry, Operand, Stack, Tree};
use std::alloc::{AllocError, Global};

/// A class constant.
pub fn push_class(alloc: Global, built: &mut Built, kind: &JType) -> Result<bool, AllocError>
    ensures built { IfOk result (λ done. as_built done (view_built built.new)
        ≡ behind (view_built built.old).emitted (stepping.class_pushed (view_type kind.now) built.old.next (stacked built.old.stack))) }
{
    if !is_reference(kind) {
        return Ok(false);
    }
    let tree = class_tree(alloc, kind)?;
    let kind = class_type(alloc)?;
    built.push(Entry::Whole(kind, tree))?;
    Ok(true)
}

/// Whether an operand may be of a type as an object, once it is one of Object.
fn is_through_object(headers: &Headers, from: &StaticType, object: &JType, to: &JType) -> bool
    ensures through { result ≡ (spec.goes_through headers.now (view_static from.now) (view_type object.now) (view_type to.now)) }
{
    fits_in(headers, from, object) && may_be(headers, object, to)
}

/// An operand that may be tested or cast, given whether it may be so as it is: as it is, or cast to Object first.
fn widened(
    alloc: Global,
    headers: &Headers,
    direct: bool,
    operand: Operand,
    to: &JType,
) -> Result<Option<Tree>, AllocError>
    ensures widened { IfOk result (λ found. option_map view_tree found ≡ spec.widened headers.now direct (view_type to.now) (view_operand operand)) }
{
    if direct {
        return Ok(Some(operand.tree));
    }
    let object = object_type(alloc)?;
    if !is_through_object(headers, &operand.kind, &object, to) {
        return Ok(None);
    }
    let tree = Tree::cast(alloc, object, operand.tree)?;
    Ok(Some(tree))
}

/// Whether an operand and a type are references.
fn are_references(from: &StaticType, to: &JType) -> bool
    ensures references { result ≡ spec.are_references (view_static from.now) (view_type to.now) }
{
    is_reference(to) && is_object(from)
}

/// The operand of a cast, as it stands in it.
fn cast_operand(
    alloc: Global,
    headers: &Headers,
    operand: Operand,
    to: &JType,
) -> Result<Option<Tree>, AllocError>
    ensures operand { IfOk result (λ found. option_map view_tree found ≡ spec.cast_operand headers.now (view_type to.now) (view_operand operand)) }
{
    if !are_references(&operand.kind, to) {
        return Ok(None);
    }
    let direct = may_cast(headers, &operand.kind, to);
    let found = widened(alloc, headers, direct, operand, to)?;
    Ok(found)
}

/// The operand of a test, as it stands in it.
fn test_operand(
    alloc: Global,
    headers: &Headers,
    operand: Operand,
    to: &JType,
) -> Result<Option<Tree>, AllocError>
    ensures operand { IfOk result (λ found. option_map view_tree found ≡ spec.test_operand headers.now (view_type to.now) (view_operand operand)) }
{
    if !are_references(&operand.kind, to) {
        return Ok(None);
    }
    let direct = may_be_of(headers, &operand.kind, to);
    let found = widened(alloc, headers, direct, operand, to)?;
    Ok(found)
}

/// The operand of a cast, from the top; None where none is there that may be cast.
fn take_cast(
    alloc: Global,
    headers: &Headers,
    stack: &mut Stack,
    to: &JType,
) -> Result<Option<Tree>, AllocError>
    ensures taken { IfOk result (λ found. spec.above (stacked stack.new) (option_map view_tree found) ≡ spec.taken_by (spec.cast_operand headers.now (view_type to.now)) (stacked stack.old)) }
{
    let Some(entry) = stack.pop() else {
        return Ok(None);
    };
    let Some(operand) = entry.into_operand() else {
        return Ok(None);
    };
    let found = cast_operand(alloc, headers, operand, to)?;
    Ok(found)
}

/// The operand of a test, from the top; None where none is there that may be tested.
fn take_tested(
    alloc: Global,
    headers: &Headers,
    stack: &mut Stack,
    to: &JType,
) -> Result<Option<Tree>, AllocError>
    ensures taken { IfOk result (λ found. spec.above (stacked stack.new) (option_map view_tree found) ≡ spec.taken_by (spec.test_operand headers.now (view_type to.now)) (stacked stack.old)) }
{
    let Some(entry) = stack.pop() else {
        return Ok(None);
    };
    let Some(operand) = entry.into_operand() else {
        return Ok(None);
    };
    let found = test_operand(alloc, headers, operand, to)?;
    Ok(found)
}

/// A cast.
pub fn check_cast(
    alloc: Global,
    headers: &Headers,
    built: &mut Built,
    to: &JType,
) -> Result<bool, AllocError>
    ensures built { IfOk result (λ done. as_built done (view_built built.new)
        ≡ behind (view_built built.old).emitted (stepping.object_cast headers.now (view_type to.now) built.old.next (stacked built.old.stack))) }
{
    let Some(object) = take_cast(alloc, headers, &mut built.stack, to)? else {
        return Ok(false);
    };
    let kind = to.copy(alloc)?;
    let tree = Tree::cast(alloc, kind, object)?;
    let kind = StaticType::Of(to.copy(alloc)?);
    built.push(Entry::Whole(kind, tree))?;
    Ok(true)
}

/// A test whether an object is of a type.
pub fn test_instance(
    alloc: Global,
    headers: &Headers,
    built: &mut Built,
    to: &JType,
) -> Result<bool, AllocError>
    ensures built { IfOk result (λ done. as_built done (view_built built.new)
        ≡ behind (view_built built.old).emitted (stepping.object_tested headers.now (view_type to.now) built.old.next (stacked built.old.stack))) }
{
    let Some(object) = take_tested(alloc, headers, &mut built.stack, to)? else {
        return Ok(false);
    };
    let tree = instance_tree(alloc, object, to)?;
    let kind = boolean_type();
    built.push(Entry::Whole(StaticType::Of(kind), tree))?;
    Ok(true)
}
