//! The heads of catch clauses (JLS 14.20).

ghost use Rattle.std.specs.Prelude.{◌≡◌, ◌&&◌, not, is_some, IfOk};
ghost use Rattle.dj_names.specs.Types.{Class, Of, view_type};
ghost use Rattle.dj_syntax.specs.Trees.{view_catches};
ghost use Rattle.dj_values.specs.Fits.{throwable_name};
ghost use Rattle.dj_meaning.specs.Calls.{is_assignable};
ghost use Rattle.dj_syntax.specs.WellFormedTrees.{has_no_catch};
ghost use Rattle.dj_static.specs.Scopes.{scope_of};
ghost use Rattle.dj_typing.specs.Sites.{may_name};
ghost use Rattle.dj_typed.specs.Statements as spec;
ghost use Rattle.dj_checked.specs.Sites.{site_of};

use dj_checked::{Site, goes, may_name, object_type};
use dj_headers::{Headers, class_of};
use dj_names::{ClassName, JType};
use dj_static::Scope;
use dj_syntax::Catch;
use std::alloc::{AllocError, Global};

/// Whether a clause's class can be named, and its variable isn't in scope.
fn is_new_catch(
    alloc: Global,
    site: &Site<'_>,
    scope: &Scope,
    catch: &Catch,
) -> Result<bool, AllocError>
    ensures new { IfOk result (λ new. new ≡ (may_name (site_of site.now) catch.now.class && not (is_some (scope_of scope.now catch.now.variable)))) }
{
    let named = may_name(alloc, site, &catch.class)?;
    Ok(named && scope.kind(catch.variable).is_none())
}

/// Whether there is a clause, and each is so.
pub fn are_new_catches(
    alloc: Global,
    site: &Site<'_>,
    scope: &Scope,
    catches: &[Catch],
) -> Result<bool, AllocError>
    ensures new { IfOk result (λ new. new ≡ (not (has_no_catch (view_catches catches.now)) && spec.are_new_catches (site_of site.now) (scope_of scope.now) (view_catches catches.now))) }
{
    for catch in catches {
        let new = is_new_catch(alloc, site, scope, catch)?;
        if !new {
            return Ok(false);
        }
    }
    Ok(!catches.is_empty())
}

/// Whether a class goes to the one of exceptions.
fn is_exception(
    alloc: Global,
    headers: &Headers,
    class: &ClassName,
    throwable: &JType,
) -> Result<bool, AllocError>
    ensures exception { IfOk result (λ exception. exception ≡ is_assignable headers.now (Of (Class class.now)) (view_type throwable.now)) }
{
    let found = object_type(alloc, class)?;
    Ok(goes(headers, &found, Some(throwable)))
}

/// The type of exceptions.
pub fn throwable(alloc: Global) -> Result<JType, AllocError>
    ensures throwable { IfOk result (λ kind. view_type kind ≡ Class throwable_name) }
{
    let class = class_of(alloc, "java/lang/Throwable")?;
    Ok(JType::Class(class))
}

/// The same of each clause's class, given the type of exceptions.
fn are_all_exceptions(
    alloc: Global,
    headers: &Headers,
    wanted: &JType,
    catches: &[Catch],
) -> Result<bool, AllocError>
    requires throwable { view_type wanted.now ≡ Class throwable_name }
    ensures exceptions { IfOk result (λ exceptions. exceptions ≡ spec.are_exceptions headers.now (view_catches catches.now)) }
{
    for catch in catches {
        let thrown = is_exception(alloc, headers, &catch.class, wanted)?;
        if !thrown {
            return Ok(false);
        }
    }
    Ok(true)
}

/// Whether each clause's class is one of exceptions.
pub fn are_exceptions(
    alloc: Global,
    headers: &Headers,
    catches: &[Catch],
) -> Result<bool, AllocError>
    ensures exceptions { IfOk result (λ exceptions. exceptions ≡ spec.are_exceptions headers.now (view_catches catches.now)) }
{
    let wanted = throwable(alloc)?;
    let exceptions = are_all_exceptions(alloc, headers, &wanted, catches)?;
    Ok(exceptions)
}
