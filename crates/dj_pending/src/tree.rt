//! Expressions with their levels.

ghost use Rattle.std.specs.Prelude.{◌≡◌, ◌+◌, true, min, max, pos, ℕ, ◌<◌, IfOk, IfSome, Some};
ghost use Rattle.dj_names.specs.Types.{view_type};
ghost use Rattle.dj_syntax.specs.Trees.{view_exp};
ghost use Rattle.dj_syntax.specs.Trees as trees;
ghost use Rattle.dj_pending.specs.Heights.{levels_of, is_quiet};

use dj_names::{Boxed, JType, Units};
use dj_syntax::{Exp, Op};
use std::alloc::{AllocError, Global};

/// The most levels that are told apart.
const MOST: u8 = 65;

/// An expression that assigns no variable, and how many levels it has, all numbers above 64 counting as one.
#[derive(Drop)]
pub struct Tree {
    pub exp: Exp,
    pub levels: u8,
    pub ghost levels_are: { levels ≡ levels_of (view_exp exp) },
    pub ghost quiet: { is_quiet (view_exp exp) ≡ true },
}

/// One level more.
fn above(levels: u8) -> u8
    ensures above { result ≡ min (levels + 1) 65 }
{
    if levels < MOST { levels + 1 } else { MOST }
}

impl Tree {
    ghost use Rattle.dj_pending.specs.Trees.{view_tree};

    /// An int.
    pub fn int(number: i32) -> Tree
        ensures tree { view_tree result ≡ trees.Int number }
    {
        Tree {
            exp: Exp::Int(number),
            levels: 1,
        }
    }

    /// A truth value.
    pub fn truth(known: bool) -> Tree
        ensures tree { view_tree result ≡ trees.Truth known }
    {
        Tree {
            exp: Exp::Bool(known),
            levels: 1,
        }
    }

    /// An operator between two expressions.
    pub fn binary(alloc: Global, op: Op, left: Tree, right: Tree) -> Result<Tree, AllocError>
        ensures tree { IfOk result (λ made. view_tree made ≡ trees.Binary op (view_tree left) (view_tree right)) }
    {
        let levels = above(left.levels.max(right.levels));
        let left = Boxed::new(alloc, left.exp)?;
        let right = Boxed::new(alloc, right.exp)?;
        Ok(Tree {
            exp: Exp::Binary(op, left, right),
            levels,
        })
    }

    /// A test with what is taken where it is true, and what else.
    pub fn choice(alloc: Global, test: Tree, first: Tree, second: Tree) -> Result<Tree, AllocError>
        ensures tree { IfOk result (λ made. view_tree made ≡ trees.Choice (view_tree test) (view_tree first) (view_tree second)) }
    {
        let levels = above(test.levels.max(first.levels.max(second.levels)));
        let test = Boxed::new(alloc, test.exp)?;
        let first = Boxed::new(alloc, first.exp)?;
        let second = Boxed::new(alloc, second.exp)?;
        Ok(Tree {
            exp: Exp::Choice(test, first, second),
            levels,
        })
    }

    /// A minus sign before an expression.
    pub fn negative(alloc: Global, operand: Tree) -> Result<Tree, AllocError>
        ensures tree { IfOk result (λ made. view_tree made ≡ trees.Negative (view_tree operand)) }
    {
        let levels = above(operand.levels);
        let operand = Boxed::new(alloc, operand.exp)?;
        Ok(Tree {
            exp: Exp::Negative(operand),
            levels,
        })
    }

    /// An expression cast to a type.
    pub fn cast(alloc: Global, kind: JType, operand: Tree) -> Result<Tree, AllocError>
        ensures tree { IfOk result (λ made. view_tree made ≡ trees.Cast (view_type kind) (view_tree operand)) }
    {
        let levels = above(operand.levels);
        let operand = Boxed::new(alloc, operand.exp)?;
        Ok(Tree {
            exp: Exp::Cast(kind, operand),
            levels,
        })
    }

    /// A field of an object.
    pub fn field(alloc: Global, object: Tree, name: &Units) -> Result<Tree, AllocError>
        ensures tree { IfOk result (λ made. view_tree made ≡ trees.Field (view_tree object) name.now) }
    {
        let levels = above(object.levels);
        let name = name.copy(alloc)?;
        let object = Boxed::new(alloc, object.exp)?;
        Ok(Tree {
            exp: Exp::Field(object, name),
            levels,
        })
    }

    /// An element of an array.
    pub fn element(alloc: Global, array: Tree, index: Tree) -> Result<Tree, AllocError>
        ensures tree { IfOk result (λ made. view_tree made ≡ trees.Element (view_tree array) (view_tree index)) }
    {
        let levels = above(array.levels.max(index.levels));
        let array = Boxed::new(alloc, array.exp)?;
        let index = Boxed::new(alloc, index.exp)?;
        Ok(Tree {
            exp: Exp::Element(array, index),
            levels,
        })
    }

    /// An equal expression.
    pub fn copy(&self, alloc: Global) -> Result<Tree, AllocError>
        ensures equal { IfOk result (λ copy. view_tree copy ≡ view_tree self.now) }
    {
        let levels = self.levels;
        let exp = self.exp.copy(alloc)?;
        Ok(Tree { exp, levels })
    }
}
