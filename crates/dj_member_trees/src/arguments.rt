//! Arguments of calls, and sizes of arrays.

ghost use Rattle.std.specs.Prelude.{◌≡◌, true, IfOk, option_map};
ghost use Rattle.dj_names.specs.Types.{view_type, view_types, view_static};
ghost use Rattle.dj_syntax.specs.Trees.{view_exps, NoExps};
ghost use Rattle.dj_typing.specs.Expressions.{is_whole_static};
ghost use Rattle.dj_member_nodes.specs.Nodes as nodes;
ghost use Rattle.dj_pending.specs.Heights.{levels_of_all, are_quiet};
ghost use Rattle.dj_pending.specs.Trees.{view_tree};
ghost use Rattle.dj_pending.specs.Entries.{view_operand};
ghost use Rattle.dj_pending.specs.Operands.{operands_of};
ghost use Rattle.dj_member_trees.specs.Given as spec;

use crate::fitting::{fitted, whole};
use dj_checked::is_whole_type;
use dj_headers::Headers;
use dj_names::{Items, JType, StaticType};
use dj_pending::{Operand, Tree};
use dj_syntax::Exp;
use std::alloc::{AllocError, Global};

/// Expressions that assign no variable, and how many levels the highest has, all numbers above 64 counting as one.
#[derive(Drop)]
pub struct Arguments {
    pub exps: Items<Exp>,
    pub levels: u8,
    pub ghost levels_are: { levels ≡ levels_of_all (view_exps exps) },
    pub ghost quiet: { are_quiet (view_exps exps) ≡ true },
}

impl Arguments {
    /// No argument.
    pub fn new(alloc: Global) -> Arguments
        ensures none { view_exps result.exps ≡ NoExps }
    {
        Arguments {
            exps: Items::new(alloc),
            levels: 0,
        }
    }

    /// One argument more.
    pub fn push(&mut self, tree: Tree) -> Result<(), AllocError>
        ensures pushed { IfOk result (λ _. view_exps self.new.exps ≡ spec.with_last (view_exps self.old.exps) (view_tree tree)) }
    {
        let levels = self.levels.max(tree.levels);
        self.exps.push(tree.exp)?;
        self.levels = levels;
        Ok(())
    }
}

/// Whether the class in the type of an expression is whole; null has none.
fn is_whole_static(alloc: Global, headers: &Headers, from: &StaticType) -> Result<bool, AllocError>
    ensures whole { IfOk result (λ whole. whole ≡ is_whole_static headers.now (view_static from.now)) }
{
    match from {
        StaticType::Null => Ok(true),
        StaticType::Of(kind) => is_whole_type(alloc, headers, kind),
    }
}

/// An operand as an argument of a type, if it may be one.
fn argument(
    alloc: Global,
    headers: &Headers,
    alone: bool,
    operand: Operand,
    to: &JType,
) -> Result<Option<Tree>, AllocError>
    ensures argument { IfOk result (λ found. option_map view_tree found ≡ spec.argument headers.now alone (view_type to.now) (view_operand operand)) }
{
    let whole = is_whole_static(alloc, headers, &operand.kind)?;
    if !whole {
        return Ok(None);
    }
    let found = fitted(alloc, headers, alone, operand, to)?;
    Ok(found)
}

/// Operands, the first of them last in the list, where parameters are wanted, with the casts that are written; None where
/// one doesn't go there, or there are more or fewer.
pub fn given(
    alloc: Global,
    headers: &Headers,
    alone: bool,
    operands: Items<Operand>,
    parameters: &[JType],
) -> Result<Option<Arguments>, AllocError>
    ensures given { IfOk result (λ found. option_map (λ arguments. view_exps arguments.exps) found ≡ spec.given headers.now alone (operands_of operands) (view_types parameters.now)) }
{
    let mut left = operands;
    let mut arguments = Arguments::new(alloc);
    'parameters: for kind in parameters {
        let Some(operand) = left.pop() else {
            return Ok(None);
        };
        let Some(tree) = argument(alloc, headers, alone, operand, kind)? else {
            return Ok(None);
        };
        arguments.push(tree)?;
    }
    if left.is_empty() {
        Ok(Some(arguments))
    } else {
        Ok(None)
    }
}

/// Sizes, the first of them last in the list, each of them an int.
pub fn sizes_of(alloc: Global, operands: Items<Operand>) -> Result<Option<Arguments>, AllocError>
    ensures sizes { IfOk result (λ found. option_map (λ sizes. view_exps sizes.exps) found ≡ nodes.sizes_of (operands_of operands)) }
{
    let mut left = operands;
    let mut sizes = Arguments::new(alloc);
    while let Some(operand) = left.pop() {
        let Some(tree) = whole(alloc, operand)? else {
            return Ok(None);
        };
        sizes.push(tree)?;
    }
    Ok(Some(sizes))
}
