//! What is declared, and what it was before (JLS 6.3, 6.4, 14.4).

ghost use Rattle.std.specs.Prelude.{◌≡◌, OnOk, IfOk};
ghost use Rattle.std.specs.Option.{option_map, option_copied};
ghost use Rattle.dj_names.specs.Types.{view_type};
ghost use Rattle.dj_syntax.specs.Trees.{view_stm};
ghost use Rattle.dj_static.specs.Scopes.{scope_of};
ghost use Rattle.dj_meaning.specs.StaticTypes as types;
ghost use Rattle.dj_meaning.specs.Declarations as spec;
ghost use Rattle.dj_scopes.specs.Keeping.{with_kind, scope_back, scope_without};

use dj_names::{Items, JType};
use dj_static::Scope;
use dj_syntax::{Stm, Var};
use std::alloc::{AllocError, Global};

/// What a variable was before a part of which it is: its type, where it had one.
#[derive(Drop)]
pub struct Kept {
    variable: Var,
    kind: Option<JType>,
}

/// The variable that a statement of a list declares for the rest of it, and its type.
pub fn declared(statement: &Stm) -> Option<(Var, &JType)>
    ensures declared { option_map (λ one. (one.0, view_type one.1.now)) result ≡ spec.declared (view_stm statement.now) }
{
    match statement {
        Stm::Declare(variable, kind, _) => Some((*variable, kind)),
        Stm::Block(_)
        | Stm::Labelled(_, _)
        | Stm::Set(_, _)
        | Stm::SetField(_, _, _)
        | Stm::SetStatic(_, _, _)
        | Stm::SetElement(_, _, _)
        | Stm::Run(_)
        | Stm::If(_, _, _)
        | Stm::While(_, _)
        | Stm::Switch(_, _)
        | Stm::Break(_)
        | Stm::Continue(_)
        | Stm::Return(_)
        | Stm::Throw(_)
        | Stm::Rethrow(_)
        | Stm::Try(_, _)
        | Stm::Synchronized(_, _)
        | Stm::Construct(_, _)
        | Stm::Do(_, _)
        | Stm::For(_, _, _, _)
        | Stm::Finally(_, _) => None,
    }
}

/// A variable has a type from now on.
pub fn declare(
    alloc: Global,
    scope: &mut Scope,
    variable: Var,
    kind: &JType,
) -> Result<(), AllocError>
    ensures declared { OnOk result (scope_of scope.new ≡ types.with_type variable (view_type kind.now) (scope_of scope.old)) }
{
    let kind = kind.copy(alloc)?;
    scope.declare(variable, kind)?;
    Ok(())
}

/// A copy of a type, where there is one.
fn copied_kind(alloc: Global, kind: Option<&JType>) -> Result<Option<JType>, AllocError>
    ensures equal { IfOk result (λ copy. copy ≡ option_copied kind.entry) }
{
    match kind {
        Some(kind) => Ok(Some(kind.copy(alloc)?)),
        None => Ok(None),
    }
}

/// Keeps what a variable is, behind what is kept already.
pub fn keep(
    alloc: Global,
    scope: &Scope,
    variable: Var,
    kept: &mut Items<Kept>,
) -> Result<(), AllocError>
    ensures kept { OnOk result ((other : types.Scope) → scope_back kept.new other ≡ scope_back kept.old (with_kind variable (scope_of scope.now variable) other)) }
{
    let kind = copied_kind(alloc, scope.kind(variable))?;
    kept.push(Kept { variable, kind })?;
    Ok(())
}

/// Keeps what the variable is that a statement declares, if it declares one.
pub fn keep_declared(
    alloc: Global,
    scope: &Scope,
    statement: &Stm,
    kept: &mut Items<Kept>,
) -> Result<(), AllocError>
    ensures kept { OnOk result ((other : types.Scope) → scope_back kept.new other ≡ scope_back kept.old (scope_without (spec.declared (view_stm statement.now)) (scope_of scope.now) other)) }
{
    match declared(statement) {
        Some((variable, _)) => keep(alloc, scope, variable, kept),
        None => Ok(()),
    }
}

/// A variable has the type again that it had.
fn put_kind(scope: &mut Scope, variable: Var, kind: Option<JType>) -> Result<(), AllocError>
    ensures put { OnOk result (scope_of scope.new ≡ with_kind variable (option_map view_type kind) (scope_of scope.old)) }
{
    match kind {
        Some(kind) => scope.declare(variable, kind),
        None => {
            scope.forget(variable);
            Ok(())
        }
    }
}

/// Each variable is again what it was, the last one that was kept first.
pub fn put_back(scope: &mut Scope, kept: Items<Kept>) -> Result<(), AllocError>
    ensures put { OnOk result (scope_of scope.new ≡ scope_back kept (scope_of scope.old)) }
{
    let mut left = kept;
    while let Some(one) = left.pop() {
        put_kind(scope, one.variable, one.kind)?;
    }
    Ok(())
}
