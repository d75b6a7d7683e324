//! Comparisons of expressions that are atoms, since each is written twice (JLS 15.20, 15.21, 15.25).

ghost use Rattle.std.specs.Prelude.{◌≡◌, IfOk, is_some, option_map};
ghost use Rattle.dj_syntax.specs.Trees.{Binary, view_exp};
ghost use Rattle.dj_rebuilt.specs.Nodes as nodes;
ghost use Rattle.dj_rebuilt.specs.Known as known;
ghost use Rattle.dj_pending.specs.Trees.{view_tree};
ghost use Rattle.dj_pending.specs.Numbers as spec;

use crate::tree::Tree;
use dj_syntax::{Exp, Op};
use std::alloc::{AllocError, Global};

/// Whether an expression is an atom.
fn is_atom(exp: &Exp) -> bool
    ensures atom { result ≡ is_some (known.atom_of (view_exp exp.now)) }
{
    match exp {
        Exp::Int(_) | Exp::Long(_) | Exp::Text(_) | Exp::Null | Exp::This | Exp::Var(_) => true,
        Exp::Bool(_)
        | Exp::ClassOf(_)
        | Exp::Field(_, _)
        | Exp::Static(_, _)
        | Exp::Element(_, _)
        | Exp::Call(_, _, _)
        | Exp::StaticCall(_, _, _)
        | Exp::SuperCall(_, _, _)
        | Exp::New(_, _)
        | Exp::NewArray(_, _, _)
        | Exp::Cast(_, _)
        | Exp::InstanceOf(_, _)
        | Exp::Negative(_)
        | Exp::Not(_)
        | Exp::Binary(_, _, _)
        | Exp::Choice(_, _, _)
        | Exp::Assign(_, _) => false,
    }
}

/// An expression, if it is an atom.
pub fn atom_only(tree: Tree) -> Option<Tree>
    ensures atom { option_map view_tree result ≡ spec.atom_only (view_tree tree) }
{
    if is_atom(&tree.exp) { Some(tree) } else { None }
}

/// An operator between copies of two expressions.
fn related(alloc: Global, operator: Op, first: &Tree, second: &Tree) -> Result<Tree, AllocError>
    ensures related { IfOk result (λ made. view_tree made ≡ Binary operator (view_tree first.now) (view_tree second.now)) }
{
    let left = first.copy(alloc)?;
    let right = second.copy(alloc)?;
    let tree = Tree::binary(alloc, operator, left, right)?;
    Ok(tree)
}

/// -1, 0 or 1, as one long is below another, equal to it, or above it.
pub fn comparing(alloc: Global, first: &Tree, second: &Tree) -> Result<Tree, AllocError>
    ensures comparing { IfOk result (λ made. view_tree made ≡ nodes.comparing (view_tree first.now) (view_tree second.now)) }
{
    let equal = related(alloc, Op::Eq, first, second)?;
    let above = Tree::choice(alloc, equal, Tree::int(0), Tree::int(1))?;
    let below = related(alloc, Op::Lt, first, second)?;
    let tree = Tree::choice(alloc, below, Tree::int(-1), above)?;
    Ok(tree)
}
