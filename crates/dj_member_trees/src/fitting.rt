//! Operands where types are wanted, tested and cast.

ghost use Rattle.std.specs.Prelude.{◌≡◌, is_some, IfOk, option_map};
ghost use Rattle.dj_names.specs.Types.{view_type, view_static};
ghost use Rattle.dj_values.specs.Fits as fits;
ghost use Rattle.dj_member_nodes.specs.Going as going;
ghost use Rattle.dj_pending.specs.Trees.{view_tree};
ghost use Rattle.dj_pending.specs.Entries.{view_operand};
ghost use Rattle.dj_pending.specs.Stacks.{stacked};
ghost use Rattle.dj_member_trees.specs.Fitting as spec;

use crate::casts::{dressed, goes};
use dj_checked::is_reference;
use dj_headers::Headers;
use dj_names::{JType, StaticType};
use dj_pending::{Operand, Stack, Tree, as_int, is_whole};
use std::alloc::{AllocError, Global};

/// Whether values of a type are kept as ints.
fn is_int(kind: &JType) -> bool
    ensures int { result ≡ is_some (fits.int_range (view_type kind.now)) }
{
    match kind {
        JType::Boolean | JType::Byte | JType::Char | JType::Short | JType::Int => true,
        JType::Long | JType::Float | JType::Double | JType::Class(_) | JType::Array(_) => false,
    }
}

/// Whether a type is long.
fn is_long(kind: &JType) -> bool
    ensures long { result ≡ spec.is_long (view_type kind.now) }
{
    match kind {
        JType::Long => true,
        JType::Boolean
        | JType::Byte
        | JType::Char
        | JType::Short
        | JType::Int
        | JType::Float
        | JType::Double
        | JType::Class(_)
        | JType::Array(_) => false,
    }
}

/// Whether an operand goes where a type is wanted, with a cast or without.
pub fn fits_in(headers: &Headers, from: &StaticType, to: &JType) -> bool
    ensures fits { result ≡ going.fits_in headers.now (view_static from.now) (view_type to.now) }
{
    match from {
        StaticType::Null => is_reference(to),
        StaticType::Of(JType::Boolean | JType::Byte | JType::Char | JType::Short | JType::Int) =>
            is_int(to),
        StaticType::Of(JType::Long) => is_long(to),
        StaticType::Of(JType::Float | JType::Double) => false,
        StaticType::Of(JType::Class(_) | JType::Array(_)) => {
            is_reference(to) && goes(headers, from, to)
        }
    }
}

/// An operand where a type is wanted, if it goes there.
pub fn fitted(
    alloc: Global,
    headers: &Headers,
    alone: bool,
    operand: Operand,
    to: &JType,
) -> Result<Option<Tree>, AllocError>
    ensures fitted { IfOk result (λ found. option_map view_tree found ≡ spec.fitted headers.now alone (view_type to.now) (view_operand operand)) }
{
    if !fits_in(headers, &operand.kind, to) {
        return Ok(None);
    }
    let tree = dressed(alloc, headers, alone, operand, to)?;
    Ok(Some(tree))
}

/// An operand from the top, where a type is wanted; None where none is there that goes there.
pub fn take_fitted(
    alloc: Global,
    headers: &Headers,
    stack: &mut Stack,
    alone: bool,
    to: &JType,
) -> Result<Option<Tree>, AllocError>
    ensures taken { IfOk result (λ found. spec.above (stacked stack.new) (option_map view_tree found) ≡ spec.taken_by (spec.fitted headers.now alone (view_type to.now)) (stacked stack.old)) }
{
    let Some(entry) = stack.pop() else {
        return Ok(None);
    };
    let Some(operand) = entry.into_operand() else {
        return Ok(None);
    };
    let found = fitted(alloc, headers, alone, operand, to)?;
    Ok(found)
}

/// An operand as an int, if it is one.
pub fn whole(alloc: Global, operand: Operand) -> Result<Option<Tree>, AllocError>
    ensures whole { IfOk result (λ found. option_map view_tree found ≡ spec.whole (view_operand operand)) }
{
    if !is_whole(&operand.kind) {
        return Ok(None);
    }
    let tree = as_int(alloc, operand)?;
    Ok(Some(tree))
}

/// An int from the top; None where none is there.
pub fn take_whole(alloc: Global, stack: &mut Stack) -> Result<Option<Tree>, AllocError>
    ensures taken { IfOk result (λ found. spec.above (stacked stack.new) (option_map view_tree found) ≡ spec.taken_by spec.whole (stacked stack.old)) }
{
    let Some(entry) = stack.pop() else {
        return Ok(None);
    };
    let Some(operand) = entry.into_operand() else {
        return Ok(None);
    };
    let found = whole(alloc, operand)?;
    Ok(found)
}

/// An operand from the top; None where none is there.
pub fn take_one(stack: &mut Stack) -> Option<Operand>
    ensures taken { spec.above (stacked stack.new) (option_map view_operand result) ≡ spec.taken_by spec.itself (stacked stack.old) }
{
    let Some(entry) = stack.pop() else {
        return None;
    };
    entry.into_operand()
}
