//! New arrays (JLS 15.10.1; JVMS 6.5, `newarray`, `anewarray`, `multianewarray`).

ghost use Rattle.std.specs.Prelude.{◌≡◌, suc, IfOk, option_map};
ghost use Rattle.std.specs.Option.{option_copied};
ghost use Rattle.dj_names.specs.Types.{Of, Array, view_type};
ghost use Rattle.dj_values.specs.Fits.{element_of, innermost};
ghost use Rattle.dj_member_nodes.specs.Nodes as nodes;
ghost use Rattle.dj_pending.specs.Trees.{view_tree};
ghost use Rattle.dj_pending.specs.Operands.{operands_of};
ghost use Rattle.dj_pending.specs.Stacks.{stacked};
ghost use Rattle.dj_pending.specs.Building.{view_built, as_built};
ghost use Rattle.dj_pending.specs.Spilling.{behind};
ghost use Rattle.dj_member_trees.specs.Fitting as spec;
ghost use Rattle.dj_member_trees.specs.Stepping as stepping;

use crate::arguments::sizes_of;
use crate::trees::array_tree;
use dj_names::{Items, JType, Shared, StaticType};
use dj_pending::{Built, Entry, Operand, Tree, take};
use std::alloc::{AllocError, Global};

/// The type of an array's elements, if it is one.
fn element_of(kind: &JType) -> Option<&JType>
    ensures element { option_map view_type (option_copied result) ≡ element_of (view_type kind.now) }
{
    match kind {
        JType::Array(element) => Some(element.get()),
        JType::Boolean
        | JType::Byte
        | JType::Char
        | JType::Short
        | JType::Int
        | JType::Long
        | JType::Float
        | JType::Double
        | JType::Class(_) => None,
    }
}

/// The type behind so many dimensions, where there are so many.
fn behind_sizes(kind: &JType, count: usize) -> Option<&JType>
    ensures behind { option_map view_type (option_copied result) ≡ spec.behind_sizes count (view_type kind.now) }
{
    let mut at = kind;
    for _ in 0..count {
        match element_of(at) {
            Some(element) => at = element,
            None => return None,
        }
    }
    Some(at)
}

/// The type of innermost elements.
fn innermost(kind: &JType) -> &JType
    ensures innermost { view_type result.now ≡ innermost (view_type kind.now) }
{
    match kind {
        JType::Array(element) => innermost(element.get()),
        JType::Boolean
        | JType::Byte
        | JType::Char
        | JType::Short
        | JType::Int
        | JType::Long
        | JType::Float
        | JType::Double
        | JType::Class(_) => kind,
    }
}

/// One dimension more. An error says that there are too many.
fn one_more(depth: u32) -> Result<u32, AllocError>
    ensures more { IfOk result (λ more. more ≡ suc depth) }
{
    let Some(more) = depth.checked_add(1) else {
        return Err(AllocError);
    };
    Ok(more)
}

/// How many dimensions a type has. An error says that there are too many.
fn depth_of(kind: &JType) -> Result<u32, AllocError>
    ensures depth { IfOk result (λ depth. depth ≡ nodes.depth_of (view_type kind.now)) }
{
    match kind {
        JType::Array(element) => {
            let depth = depth_of(element.get())?;
            one_more(depth)
        }
        JType::Boolean
        | JType::Byte
        | JType::Char
        | JType::Short
        | JType::Int
        | JType::Long
        | JType::Float
        | JType::Double
        | JType::Class(_) => Ok(0),
    }
}

/// A new array of a type, with so many sizes.
fn array_of_sizes(
    alloc: Global,
    kind: &JType,
    operands: Items<Operand>,
) -> Result<Option<Tree>, AllocError>
    ensures array { IfOk result (λ found. option_map view_tree found ≡ spec.array_of_sizes (view_type kind.now) (operands_of operands)) }
{
    if operands.is_empty() {
        return Ok(None);
    }
    let Some(rest) = behind_sizes(kind, operands.len()) else {
        return Ok(None);
    };
    let more = depth_of(rest)?;
    let Some(sizes) = sizes_of(alloc, operands)? else {
        return Ok(None);
    };
    let tree = array_tree(alloc, innermost(kind), sizes, more)?;
    Ok(Some(tree))
}

/// A new array of a type, with so many sizes.
pub fn make_array(
    alloc: Global,
    built: &mut Built,
    kind: &JType,
    count: usize,
) -> Result<bool, AllocError>
    ensures built { IfOk result (λ done. as_built done (view_built built.new)
        ≡ behind (view_built built.old).emitted (stepping.array_built (view_type kind.now) count built.old.next (stacked built.old.stack))) }
{
    let Some(operands) = take(alloc, &mut built.stack, count)? else {
        return Ok(false);
    };
    let Some(tree) = array_of_sizes(alloc, kind, operands)? else {
        return Ok(false);
    };
    let kind = StaticType::Of(kind.copy(alloc)?);
    built.push(Entry::Whole(kind, tree))?;
    Ok(true)
}

/// A new array of elements of a type.
pub fn make_simple(alloc: Global, built: &mut Built, element: &JType) -> Result<bool, AllocError>
    ensures built { IfOk result (λ done. as_built done (view_built built.new)
        ≡ behind (view_built built.old).emitted (stepping.array_built (Array (view_type element.now)) 1 built.old.next (stacked built.old.stack))) }
{
    let inner = element.copy(alloc)?;
    let kind = JType::Array(Shared::new(alloc, inner)?);
    let done = make_array(alloc, built, &kind, 1)?;
    Ok(done)
}
