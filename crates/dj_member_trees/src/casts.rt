//! The casts that are written around operands (JLS 5.1.2, 5.1.3, 5.5, 15.12.2.5, 15.25).

ghost use Rattle.std.specs.Prelude.{◌≡◌, ℤ, IfOk, option_map};
ghost use Rattle.dj_names.specs.Types.{view_type, view_static};
ghost use Rattle.dj_syntax.specs.Trees.{view_exp};
ghost use Rattle.dj_syntax.specs.Trees as trees;
ghost use Rattle.dj_meaning.specs.Calls as calls;
ghost use Rattle.dj_members_shown.specs.Casts as spec;
ghost use Rattle.dj_pending.specs.Trees.{view_tree};
ghost use Rattle.dj_pending.specs.Entries.{view_operand};

use dj_checked::{is_reference, is_type};
use dj_headers::{Headers, is_assignable};
use dj_names::{JType, StaticType};
use dj_pending::{Operand, Tree};
use dj_syntax::{Exp, Op};
use std::alloc::{AllocError, Global};

/// Whether an expression of a type goes where another is wanted, without a cast.
pub fn goes(headers: &Headers, from: &StaticType, to: &JType) -> bool
    ensures goes { result ≡ calls.is_assignable headers.now (view_static from.now) (view_type to.now) }
{
    is_assignable(headers, from, to)
}

/// Whether an expression is of a reference or of null.
pub fn is_object(kind: &StaticType) -> bool
    ensures object { result ≡ spec.is_object (view_static kind.now) }
{
    match kind {
        StaticType::Null => true,
        StaticType::Of(kind) => is_reference(kind),
    }
}

/// Whether an expression has just this type.
fn has_type(from: &StaticType, to: &JType) -> bool
    ensures has { result ≡ spec.has_type (view_static from.now) (view_type to.now) }
{
    match from {
        StaticType::Null => false,
        StaticType::Of(from) => is_type(from, to),
    }
}

/// Whether an operand stays as it is where a type is wanted.
fn stays(headers: &Headers, alone: bool, from: &StaticType, to: &JType) -> bool
    ensures stays { result ≡ spec.stays headers.now alone (view_static from.now) (view_type to.now) }
{
    has_type(from, to)
        || (alone && (is_object(from) && (is_reference(to) && goes(headers, from, to))))
}

/// A boolean as the int 1 or 0.
fn as_int(alloc: Global, tree: Tree) -> Result<Tree, AllocError>
    ensures int { IfOk result (λ made. view_tree made ≡ spec.as_int (view_tree tree)) }
{
    let made = Tree::choice(alloc, tree, Tree::int(1), Tree::int(0))?;
    Ok(made)
}

/// The number of a literal.
fn literal_of(exp: &Exp) -> Option<i32>
    ensures literal { result ≡ spec.literal_of (view_exp exp.now) }
{
    match exp {
        Exp::Int(number) => Some(*number),
        Exp::Long(_)
        | Exp::Text(_)
        | Exp::Bool(_)
        | Exp::Null
        | Exp::This
        | Exp::Var(_)
        | Exp::ClassOf(_)
        | Exp::Field(_, _)
        | Exp::Static(_, _)
        | Exp::Element(_, _)
        | Exp::Call(_, _, _)
        | Exp::StaticCall(_, _, _)
        | Exp::SuperCall(_, _, _)
        | Exp::New(_, _)
        | Exp::NewArray(_, _, _)
        | Exp::Cast(_, _)
        | Exp::InstanceOf(_, _)
        | Exp::Negative(_)
        | Exp::Not(_)
        | Exp::Binary(_, _, _)
        | Exp::Choice(_, _, _)
        | Exp::Assign(_, _) => None,
    }
}

/// An int as the boolean that is its lowest bit; a literal is one.
fn as_boolean(alloc: Global, tree: Tree) -> Result<Tree, AllocError>
    ensures boolean { IfOk result (λ made. view_tree made ≡ spec.as_boolean (view_tree tree)) }
{
    if let Some(number) = literal_of(&tree.exp) {
        return Ok(Tree::truth(number & 1 != 0));
    }
    let lowest = Tree::binary(alloc, Op::And, tree, Tree::int(1))?;
    let made = Tree::binary(alloc, Op::Ne, lowest, Tree::int(0))?;
    Ok(made)
}

/// An expression cast to a type.
fn cast(alloc: Global, to: &JType, tree: Tree) -> Result<Tree, AllocError>
    ensures cast { IfOk result (λ made. view_tree made ≡ trees.Cast (view_type to.now) (view_tree tree)) }
{
    let kind = to.copy(alloc)?;
    let made = Tree::cast(alloc, kind, tree)?;
    Ok(made)
}

/// A boolean as one of another type.
fn from_boolean(alloc: Global, to: &JType, tree: Tree) -> Result<Tree, AllocError>
    ensures from { IfOk result (λ made. view_tree made ≡ spec.from_boolean (view_type to.now) (view_tree tree)) }
{
    match to {
        JType::Boolean => Ok(tree),
        JType::Int => as_int(alloc, tree),
        JType::Byte | JType::Char | JType::Short | JType::Long | JType::Float | JType::Double => {
            let number = as_int(alloc, tree)?;
            cast(alloc, to, number)
        }
        JType::Class(_) | JType::Array(_) => cast(alloc, to, tree),
    }
}

/// An expression of another type than boolean as a boolean, or cast.
fn from_other(alloc: Global, to: &JType, tree: Tree) -> Result<Tree, AllocError>
    ensures from { IfOk result (λ made. view_tree made ≡ spec.from_other (view_type to.now) (view_tree tree)) }
{
    match to {
        JType::Boolean => as_boolean(alloc, tree),
        JType::Byte
        | JType::Char
        | JType::Short
        | JType::Int
        | JType::Long
        | JType::Float
        | JType::Double
        | JType::Class(_)
        | JType::Array(_) => cast(alloc, to, tree),
    }
}

/// An expression of one type as one of another: Java has no cast between booleans and numbers.
fn recast(alloc: Global, from: &StaticType, to: &JType, tree: Tree) -> Result<Tree, AllocError>
    ensures recast { IfOk result (λ made. view_tree made ≡ spec.recast (view_static from.now) (view_type to.now) (view_tree tree)) }
{
    match from {
        StaticType::Null => cast(alloc, to, tree),
        StaticType::Of(JType::Boolean) => from_boolean(alloc, to, tree),
        StaticType::Of(
            JType::Byte
            | JType::Char
            | JType::Short
            | JType::Int
            | JType::Long
            | JType::Float
            | JType::Double,
        ) => from_other(alloc, to, tree),
        StaticType::Of(JType::Class(_) | JType::Array(_)) => cast(alloc, to, tree),
    }
}

/// An operand where a type is wanted, given whether no other method can be found there.
pub fn dressed(
    alloc: Global,
    headers: &Headers,
    alone: bool,
    operand: Operand,
    to: &JType,
) -> Result<Tree, AllocError>
    ensures dressed { IfOk result (λ made. view_tree made ≡ spec.dressed headers.now alone (view_operand operand).0 (view_type to.now) (view_operand operand).1) }
{
    if stays(headers, alone, &operand.kind, to) {
        return Ok(operand.tree);
    }
    let Operand { kind, tree } = operand;
    let made = recast(alloc, &kind, to, tree)?;
    Ok(made)
}
