//! Operands that are taken from the stack.

ghost use Rattle.std.specs.Prelude.{◌≡◌, [], IfOk, option_map, pos};
ghost use Rattle.dj_names.specs.Types.{view_static};
ghost use Rattle.dj_rebuilt.specs.Nodes as nodes;
ghost use Rattle.dj_pending.specs.Trees.{view_tree};
ghost use Rattle.dj_pending.specs.Entries.{view_operand};
ghost use Rattle.dj_pending.specs.Stacks.{stacked};
ghost use Rattle.dj_pending.specs.Operands.{taken_from, taken, operands_of, is_truth};

use crate::entry::Operand;
use crate::stack::Stack;
use crate::tree::Tree;
use dj_names::{Items, JType, StaticType};
use std::alloc::{AllocError, Global};

/// So many expressions from the stack, the topmost first; None where one is no expression.
pub fn take(
    alloc: Global,
    stack: &mut Stack,
    count: usize,
) -> Result<Option<Items<Operand>>, AllocError>
    ensures taken { IfOk result (λ found. taken (option_map operands_of found) (stacked stack.new) ≡ taken_from count [] (stacked stack.old)) }
{
    let mut taken = Items::new(alloc);
    'operands: while taken.len() < count {
        let Some(entry) = stack.pop() else {
            return Ok(None);
        };
        let Some(operand) = entry.into_operand() else {
            return Ok(None);
        };
        taken.push(operand)?;
    }
    Ok(Some(taken))
}

/// Whether values of a type are ints on the machine's stack.
pub fn is_whole(kind: &StaticType) -> bool
    ensures whole { result ≡ nodes.is_whole (view_static kind.now) }
{
    match kind {
        StaticType::Of(JType::Boolean | JType::Byte | JType::Char | JType::Short | JType::Int) =>
            true,
        StaticType::Null
        | StaticType::Of(
            JType::Long | JType::Float | JType::Double | JType::Class(_) | JType::Array(_),
        ) => false,
    }
}

/// Whether a type is that of longs.
pub fn is_wide(kind: &StaticType) -> bool
    ensures wide { result ≡ nodes.is_wide (view_static kind.now) }
{
    match kind {
        StaticType::Of(JType::Long) => true,
        StaticType::Null
        | StaticType::Of(
            JType::Boolean
            | JType::Byte
            | JType::Char
            | JType::Short
            | JType::Int
            | JType::Float
            | JType::Double
            | JType::Class(_)
            | JType::Array(_),
        ) => false,
    }
}

/// Whether a type is boolean.
fn is_truth(kind: &StaticType) -> bool
    ensures truth { result ≡ is_truth (view_static kind.now) }
{
    match kind {
        StaticType::Of(JType::Boolean) => true,
        StaticType::Null
        | StaticType::Of(
            JType::Long
            | JType::Byte
            | JType::Char
            | JType::Short
            | JType::Int
            | JType::Float
            | JType::Double
            | JType::Class(_)
            | JType::Array(_),
        ) => false,
    }
}

/// An operand where an int is wanted: a boolean is 1 or 0.
pub fn as_int(alloc: Global, operand: Operand) -> Result<Tree, AllocError>
    ensures int { IfOk result (λ made. view_tree made ≡ nodes.as_int (view_operand operand).0 (view_operand operand).1) }
{
    if is_truth(&operand.kind) {
        let tree = Tree::choice(alloc, operand.tree, Tree::int(1), Tree::int(0))?;
        Ok(tree)
    } else {
        Ok(operand.tree)
    }
}
