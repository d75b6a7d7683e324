//! Trees that begin with the call of another constructor.

ghost use Rattle.std.specs.Prelude.{◌≡◌, [], ◌∷◌, is_some, IfOk};
ghost use Rattle.dj_syntax.specs.Trees.{view_stm, view_stms};
ghost use Rattle.dj_declaring.specs.Returning as returning;
ghost use Rattle.dj_parameters.specs.Parameters as spec;
ghost use Rattle.dj_renumber.specs.Views.{names_of, renamed_behind};

use crate::names::NewNames;
use crate::statements::all_renamed;
use dj_names::Items;
use dj_syntax::Stm;
use std::alloc::{AllocError, Global};

/// Whether a statement is the call of a constructor.
fn is_call(statement: &Stm) -> bool
    ensures call { result ≡ is_some (returning.call_in (view_stm statement.now)) }
{
    match statement {
        Stm::Construct(_, _) => true,
        Stm::Block(_)
        | Stm::Labelled(_, _)
        | Stm::Declare(_, _, _)
        | Stm::Set(_, _)
        | Stm::SetField(_, _, _)
        | Stm::SetStatic(_, _, _)
        | Stm::SetElement(_, _, _)
        | Stm::Run(_)
        | Stm::If(_, _, _)
        | Stm::While(_, _)
        | Stm::Switch(_, _)
        | Stm::Break(_)
        | Stm::Continue(_)
        | Stm::Return(_)
        | Stm::Throw(_)
        | Stm::Rethrow(_)
        | Stm::Try(_, _)
        | Stm::Synchronized(_, _)
        | Stm::Do(_, _)
        | Stm::For(_, _, _, _)
        | Stm::Finally(_, _) => false,
    }
}

/// Whether a tree begins with one.
fn begins_with_call(tree: &[Stm]) -> bool
    ensures begins { result ≡ is_some (returning.opening_call (view_stms tree.now)) }
{
    match tree {
        [] => false,
        [first, ..] => is_call(first),
    }
}

/// A statement by itself.
fn alone(alloc: Global, statement: &Stm) -> Result<Items<Stm>, AllocError>
    ensures alone { IfOk result (λ one. one ≡ statement.now ∷ []) }
{
    let copy = statement.copy(alloc)?;
    let mut one = Items::new(alloc);
    one.push(copy)?;
    Ok(one)
}

/// Statements with other names, but the first as it is.
fn behind_first(alloc: Global, names: &NewNames<'_>, tree: &[Stm]) -> Result<Items<Stm>, AllocError>
    ensures behind { IfOk result (λ made. view_stms made ≡ renamed_behind (names_of names.now) (view_stms tree.now)) }
{
    match tree {
        [] => Ok(Items::new(alloc)),
        [first, rest @ ..] => {
            let mut made = alone(alloc, first)?;
            let behind = all_renamed(alloc, names, rest)?;
            made.append(behind)?;
            Ok(made)
        }
    }
}

/// A tree with other names behind the call with which it begins, where it does.
#[tactic(auto, using(crate::proofs::Calls::opened, crate::proofs::Calls::closed))]
pub fn behind_opening(
    alloc: Global,
    names: &NewNames<'_>,
    tree: &[Stm],
) -> Result<Items<Stm>, AllocError>
    ensures made { IfOk result (λ made. view_stms made ≡ spec.behind_opening (names_of names.now) (view_stms tree.now) (returning.opening_call (view_stms tree.now))) }
{
    if begins_with_call(tree) {
        behind_first(alloc, names, tree)
    } else {
        all_renamed(alloc, names, tree)
    }
}
