//! Stores: the statements of instructions that write a local, and what its slot is then.

ghost use Rattle.std.specs.Prelude.{◌≡◌, ◌∷◌, ℕ, IfOk, option_map};
ghost use Rattle.std.specs.Option.{option_copied};
ghost use Rattle.dj_names.specs.Types.{view_type, view_static};
ghost use Rattle.dj_meaning.specs.Calls.{is_assignable};
ghost use Rattle.dj_rebuilt.specs.Locals as locals;
ghost use Rattle.dj_rebuilt.specs.Rebuilding as spec;
ghost use Rattle.dj_pending.specs.Trees.{view_tree};
ghost use Rattle.dj_pending.specs.Entries.{view_atom, view_entry, view_operand};
ghost use Rattle.dj_pending.specs.Stacks.{stacked};
ghost use Rattle.dj_pending.specs.Building.{view_built, as_built};
ghost use Rattle.dj_pending.specs.Spilling.{behind};
ghost use Rattle.dj_pending.specs.Steps.{view_target};
ghost use Rattle.dj_rebuild.specs.Stores.{as_stored, behind_step, set_built, is_null, stored_null, stored_of, settable};

use dj_headers::Headers;
use dj_instructions::Kind;
use dj_member_trees::goes;
use dj_names::{JType, StaticType};
use dj_pending::{Atom, Built, Entry, Operand, Target, Tree, as_int, is_whole, takes_kind};
use dj_syntax::Var;
use std::alloc::{AllocError, Global};

/// What a slot is behind a store.
#[derive(Clone, Copy)]
pub enum Stored {
    /// Nothing was stored: it can't be.
    No,
    /// The variable that was written.
    Variable,
    /// Null, for sure.
    Nothing,
}

/// Whether an expression goes into a variable of a type, which takes values of a kind.
fn goes_as(headers: &Headers, of: Kind, from: &StaticType, to: &JType) -> bool
    ensures goes { result ≡ spec.goes_as (is_assignable headers.now) of (view_static from.now) (view_type to.now) }
{
    let goes = goes(headers, from, to);
    match of {
        Kind::Int => is_whole(from),
        Kind::Long => goes,
        Kind::Float => goes,
        Kind::Double => goes,
        Kind::Ref => goes,
    }
}

/// An expression where a value of a kind is wanted.
fn as_kind(alloc: Global, of: Kind, operand: Operand) -> Result<Tree, AllocError>
    ensures kind { IfOk result (λ made. view_tree made ≡ locals.as_kind of (view_operand operand).0 (view_operand operand).1) }
{
    match of {
        Kind::Int => as_int(alloc, operand),
        Kind::Long => Ok(operand.tree),
        Kind::Float => Ok(operand.tree),
        Kind::Double => Ok(operand.tree),
        Kind::Ref => Ok(operand.tree),
    }
}

/// What a slot is behind a write of its variable that was done or couldn't be.
pub fn behind_write(done: bool) -> Stored
    ensures stored { result ≡ stored_of done }
{
    if done { Stored::Variable } else { Stored::No }
}

/// Whether a type is that of null.
fn is_null(kind: &StaticType) -> bool
    ensures null { result ≡ is_null (view_static kind.now) }
{
    match kind {
        StaticType::Null => true,
        StaticType::Of(_) => false,
    }
}

/// What a slot is behind a store of null.
fn stored_null(of: Kind, atom: &Atom) -> Stored
    ensures stored { result ≡ stored_null of (view_atom atom.now) }
{
    match atom {
        Atom::Nothing => match of {
            Kind::Ref => Stored::Nothing,
            Kind::Int => Stored::No,
            Kind::Long => Stored::No,
            Kind::Float => Stored::No,
            Kind::Double => Stored::No,
        },
        Atom::Number(_) | Atom::Wide(_) | Atom::Units(_) | Atom::Own | Atom::Named(_) => Stored::No,
    }
}

/// The variable that an expression of a type goes into, if it does.
fn settable(headers: &Headers, of: Kind, from: &StaticType, target: Option<&Target>) -> Option<Var>
    ensures settable { result ≡ settable (is_assignable headers.now) of (view_static from.now) (option_map view_target (option_copied target.entry)) }
{
    let Some(target) = target else {
        return None;
    };
    if takes_kind(of, &target.kind) && goes_as(headers, of, from, &target.kind) {
        Some(target.variable)
    } else {
        None
    }
}

/// A store of an expression to a variable; false where it can't be.
fn set(
    alloc: Global,
    headers: &Headers,
    built: &mut Built,
    of: Kind,
    operand: Operand,
    target: Option<&Target>,
) -> Result<bool, AllocError>
    ensures set { IfOk result (λ done. as_built done (view_built built.new)
        ≡ behind (view_built built.old).emitted (set_built (is_assignable headers.now) of built.old.next (view_operand operand).0 (view_operand operand).1 (stacked built.old.stack) (option_map view_target (option_copied target.entry)))) }
{
    let Some(variable) = settable(headers, of, &operand.kind, target) else {
        return Ok(false);
    };
    let new = as_kind(alloc, of, operand)?;
    let done = built.put(alloc, variable, new)?;
    Ok(done)
}

/// A store of an atom, given the variable that is written.
fn store_atom(
    alloc: Global,
    headers: &Headers,
    built: &mut Built,
    of: Kind,
    kind: StaticType,
    atom: Atom,
    target: Option<&Target>,
) -> Result<Stored, AllocError>
    ensures stored { (slot : ℕ) (names : spec.Names) → IfOk result (λ stored. as_stored slot names (option_map view_target (option_copied target.entry)) stored (view_built built.new)
        ≡ behind_step (view_built built.old).emitted (spec.set_kept (is_assignable headers.now) of slot names built.old.next (view_static kind) (view_atom atom) (stacked built.old.stack) (option_map view_target (option_copied target.entry)))) }
{
    if is_null(&kind) {
        return Ok(stored_null(of, &atom));
    }
    let tree = atom.into_tree();
    let done = set(alloc, headers, built, of, Operand { kind, tree }, target)?;
    Ok(behind_write(done))
}

/// A store of another expression.
fn store_tree(
    alloc: Global,
    headers: &Headers,
    built: &mut Built,
    of: Kind,
    kind: StaticType,
    tree: Tree,
    target: Option<&Target>,
) -> Result<Stored, AllocError>
    ensures stored { (slot : ℕ) (names : spec.Names) → IfOk result (λ stored. as_stored slot names (option_map view_target (option_copied target.entry)) stored (view_built built.new)
        ≡ behind_step (view_built built.old).emitted (spec.set (is_assignable headers.now) of slot names built.old.next (view_static kind) (view_tree tree) (stacked built.old.stack) (option_map view_target (option_copied target.entry)))) }
{
    let done = set(alloc, headers, built, of, Operand { kind, tree }, target)?;
    Ok(behind_write(done))
}

/// A store of an entry.
fn store_entry(
    alloc: Global,
    headers: &Headers,
    built: &mut Built,
    of: Kind,
    entry: Entry,
    target: Option<&Target>,
) -> Result<Stored, AllocError>
    ensures stored { (slot : ℕ) (names : spec.Names) → IfOk result (λ stored. as_stored slot names (option_map view_target (option_copied target.entry)) stored (view_built built.new)
        ≡ behind_step (view_built built.old).emitted (spec.store (is_assignable headers.now) of slot names built.old.next (option_map view_target (option_copied target.entry)) (view_entry entry ∷ stacked built.old.stack))) }
{
    match entry {
        Entry::Kept(kind, atom) => store_atom(alloc, headers, built, of, kind, atom, target),
        Entry::Whole(kind, tree) => store_tree(alloc, headers, built, of, kind, tree, target),
        Entry::Born(_) => Ok(Stored::No),
        Entry::Again => Ok(Stored::No),
    }
}

/// A store of the topmost entry, given the variable that is written.
pub fn store(
    alloc: Global,
    headers: &Headers,
    built: &mut Built,
    of: Kind,
    target: Option<&Target>,
) -> Result<Stored, AllocError>
    ensures stored { (slot : ℕ) (names : spec.Names) → IfOk result (λ stored. as_stored slot names (option_map view_target (option_copied target.entry)) stored (view_built built.new)
        ≡ behind_step (view_built built.old).emitted (spec.store (is_assignable headers.now) of slot names built.old.next (option_map view_target (option_copied target.entry)) (stacked built.old.stack))) }
{
    let Some(entry) = built.stack.pop() else {
        return Ok(Stored::No);
    };
    let stored = store_entry(alloc, headers, built, of, entry, target)?;
    Ok(stored)
}
