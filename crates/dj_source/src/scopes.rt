//! What is declared, and what it was before (JLS 6.3, 6.4, 14.4).

ghost use Rattle.std.specs.Prelude.{◌≡◌, OnOk, IfOk, [], is_some};
ghost use Rattle.std.specs.Option.{option_map, option_copied};
ghost use Rattle.dj_names.specs.Types.{view_type};
ghost use Rattle.dj_syntax.specs.Trees.{view_stm, view_stms};
ghost use Rattle.dj_values.specs.Views.{view_value};
ghost use Rattle.dj_outside.specs.Runs.{Ends};
ghost use Rattle.dj_static.specs.Scopes.{scope_of};
ghost use Rattle.dj_meaning.specs.StaticTypes as types;
ghost use Rattle.dj_meaning.specs.Runs as runs;
ghost use Rattle.dj_meaning.specs.Runs.{Meaning, with_store, with_value};
ghost use Rattle.dj_meaning.specs.Completions as completions;
ghost use Rattle.dj_meaning.specs.Declarations as spec;
ghost use Rattle.dj_objects.specs.Runs.{store_of, run_state};
ghost use Rattle.dj_scopes.specs.Keeping.{with_kind, scope_back, scope_without};
ghost use Rattle.dj_source.specs.Keeping.{store_back, back, store_without};
ghost use Rattle.dj_source.specs.Running.{Passes, WhereItEnds};

use dj_names::{Items, JType};
use dj_objects::{Method, Run};
use dj_outside::Stop;
use dj_scopes::{Kept, declare, declared};
use dj_static::Scope;
use dj_syntax::{Stm, Var};
use dj_values::Value;
use std::alloc::{AllocError, Global};

/// The value of a variable before a part of which it is, where it had one.
#[derive(Drop)]
pub struct KeptValue {
    variable: Var,
    value: Option<Value>,
}

/// What variables were before the parts of which they are: their types, and their values.
#[derive(Drop)]
pub struct Before {
    kinds: Items<Kept>,
    values: Items<KeptValue>,
}

/// No variable is kept yet.
pub fn nothing_kept(alloc: Global) -> Before
    ensures kinds { result.kinds ≡ [] }
    ensures values { result.values ≡ [] }
{
    Before {
        kinds: Items::new(alloc),
        values: Items::new(alloc),
    }
}

/// A copy of a value, where there is one.
fn copied_value(alloc: Global, value: Option<&Value>) -> Result<Option<Value>, AllocError>
    ensures equal { IfOk result (λ copy. copy ≡ option_copied value.entry) }
{
    match value {
        Some(value) => Ok(Some(value.copy(alloc)?)),
        None => Ok(None),
    }
}

/// Keeps what a variable is, behind what is kept already.
pub fn keep(
    alloc: Global,
    scope: &Scope,
    run: &Run<'_>,
    variable: Var,
    kept: &mut Before,
) -> Result<(), AllocError>
    ensures scope { OnOk result ((other : types.Scope) → scope_back kept.new.kinds other ≡ scope_back kept.old.kinds (with_kind variable (scope_of scope.now variable) other)) }
    ensures store { OnOk result ((other : runs.Store) → store_back kept.new.values other ≡ store_back kept.old.values (with_value variable ((store_of run.now).variables variable) other)) }
{
    dj_scopes::keep(alloc, scope, variable, &mut kept.kinds)?;
    let value = copied_value(alloc, run.values.get(variable))?;
    kept.values.push(KeptValue { variable, value })?;
    Ok(())
}

/// Keeps what the variable is that a statement declares, if it declares one.
pub fn keep_declared(
    alloc: Global,
    scope: &Scope,
    run: &Run<'_>,
    statement: &Stm,
    kept: &mut Before,
) -> Result<(), AllocError>
    ensures scope { OnOk result ((other : types.Scope) → scope_back kept.new.kinds other ≡ scope_back kept.old.kinds (scope_without (spec.declared (view_stm statement.now)) (scope_of scope.now) other)) }
    ensures store { OnOk result ((other : runs.Store) → store_back kept.new.values other ≡ store_back kept.old.values (store_without (spec.declared (view_stm statement.now)) (store_of run.now) other)) }
{
    match declared(statement) {
        Some((variable, _)) => keep(alloc, scope, run, variable, kept),
        None => Ok(()),
    }
}

/// A variable has the value again that it had.
fn put_value(run: &mut Run<'_>, variable: Var, value: Option<Value>) -> Result<(), AllocError>
    ensures put { OnOk result (run_state run.new ≡ with_store (with_value variable (option_map view_value value)) (run_state run.old)) }
{
    match value {
        Some(value) => run.put(variable, value),
        None => {
            run.forget(variable);
            Ok(())
        }
    }
}

/// Each variable has the value again that it had, the last one that was kept first.
fn put_values(run: &mut Run<'_>, kept: Items<KeptValue>) -> Result<(), AllocError>
    ensures put { OnOk result (run_state run.new ≡ with_store (store_back kept) (run_state run.old)) }
{
    let mut left = kept;
    while let Some(one) = left.pop() {
        put_value(run, one.variable, one.value)?;
    }
    Ok(())
}

/// Each variable is again what it was.
pub fn put_back(scope: &mut Scope, run: &mut Run<'_>, kept: Before) -> Result<(), AllocError>
    ensures scope { OnOk result (scope_of scope.new ≡ scope_back kept.kinds (scope_of scope.old)) }
    ensures store { OnOk result (run_state run.new ≡ with_store (store_back kept.values) (run_state run.old)) }
{
    dj_scopes::put_back(scope, kept.kinds)?;
    put_values(run, kept.values)
}

/// Whether a variable is in scope.
fn is_in_scope(scope: &Scope, variable: Var) -> bool
    ensures declared { result ≡ is_some (scope_of scope.now variable) }
{
    scope.kind(variable).is_some()
}

/// A variable that is declared has no value yet; one in scope isn't declared again.
pub fn open(
    method: &Method<'_>,
    scope: &mut Scope,
    run: &mut Run<'_>,
    variable: Var,
    kind: &JType,
) -> Result<(), Stop>
    ensures opened { Ends (λ done. done) result (run_state run.new) (spec.opened (scope_of scope.old) variable (run_state run.old)) }
    ensures scope { WhereItEnds result (scope_of scope.new ≡ types.with_type variable (view_type kind.now) (scope_of scope.old)) }
{
    if is_in_scope(scope, variable) {
        return Err(Stop::Stuck);
    }
    declare(method.alloc, scope, variable, kind)?;
    run.forget(variable);
    Ok(())
}

/// What a statement of a list declares, where it is jumped over.
fn pass_one(
    method: &Method<'_>,
    scope: &mut Scope,
    run: &mut Run<'_>,
    statement: &Stm,
    kept: &mut Before,
) -> Result<(), Stop>
    ensures passed { (next : Meaning completions.Completion) → Passes result kept.new.values (run_state run.new) next (back kept.old.values (spec.passed_one (scope_of scope.old) (spec.declared (view_stm statement.now)) next (run_state run.old))) }
    ensures scope { WhereItEnds result (scope_of scope.new ≡ spec.within (spec.declared (view_stm statement.now)) (scope_of scope.old)) }
    ensures back { WhereItEnds result (scope_back kept.new.kinds (scope_of scope.new) ≡ scope_back kept.old.kinds (scope_of scope.old)) }
{
    match declared(statement) {
        Some((variable, kind)) => {
            keep(method.alloc, scope, run, variable, kept)?;
            open(method, scope, run, variable, kind)
        }
        None => Ok(()),
    }
}

/// What a list declares, where it is jumped over.
pub fn pass(
    method: &Method<'_>,
    scope: &mut Scope,
    run: &mut Run<'_>,
    list: &[Stm],
    kept: &mut Before,
) -> Result<(), Stop>
    ensures passed { (next : Meaning completions.Completion) → Passes result kept.new.values (run_state run.new) next (back kept.old.values (spec.passed (scope_of scope.old) (view_stms list.now) next (run_state run.old))) }
    ensures scope { OnOk result (scope_of scope.new ≡ spec.behind (view_stms list.now) (scope_of scope.old)) }
    ensures back { WhereItEnds result (scope_back kept.new.kinds (scope_of scope.new) ≡ scope_back kept.old.kinds (scope_of scope.old)) }
{
    for statement in list {
        pass_one(method, scope, run, statement, kept)?;
    }
    Ok(())
}
