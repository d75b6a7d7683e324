//! Which classes have to be caught or declared, and which may be caught (JLS 11.1.1, 11.2.3).

ghost use Rattle.std.specs.Prelude.{◌≡◌, IfOk};
ghost use Rattle.dj_syntax.specs.Trees.{view_catches};
ghost use Rattle.dj_thrown.specs.Catching as spec;
ghost use Rattle.dj_thrown.specs.Walks as walks;

use crate::throwing::{Throwing, is_below};
use dj_faults::{Fault, broken, lower};
use dj_headers::Headers;
use dj_kinds::Kinds;
use dj_names::{ClassName, is_word};
use dj_places::TypeKind;
use dj_syntax::Catch;
use std::alloc::{AllocError, Global};

/// Whether what throws a class must catch or declare it.
fn is_checked(kinds: &Kinds<'_>, class: &ClassName) -> bool
    ensures checked { result ≡ spec.is_checked kinds.now class.now }
{
    kinds.checked(class)
}

/// Whether one of these is a class or above it.
fn is_below_one(headers: &Headers, class: &ClassName, above: &[ClassName]) -> bool
    ensures below { result ≡ spec.is_below_one headers.now class.now above.now }
{
    for one in above {
        if is_below(headers, class, one) {
            return true;
        }
    }
    false
}

/// Whether one of what is thrown is of a class, or of one below or above it.
fn is_met(headers: &Headers, class: &ClassName, thrown: &[Throwing]) -> bool
    ensures met { result ≡ spec.is_met headers.now class.now thrown.now }
{
    for one in thrown {
        if is_below(headers, &one.class, class) || is_below(headers, class, &one.class) {
            return true;
        }
    }
    false
}

/// Whether a clause may take a class from a list that throws this.
fn may_catch(
    alloc: Global,
    headers: &Headers,
    thrown: &[Throwing],
    class: &ClassName,
) -> Result<bool, AllocError>
    ensures may { IfOk result (λ may. may ≡ spec.may_catch headers.now thrown.now class.now) }
{
    let kinds = Kinds::new(alloc, headers)?;
    Ok(
        !is_checked(&kinds, class)
            || is_word(class.as_slice(), "java/lang/Throwable")
            || is_word(class.as_slice(), "java/lang/Exception")
            || is_met(headers, class, thrown),
    )
}

/// Whether each of these clauses may.
pub fn may_all_catch(
    alloc: Global,
    headers: &Headers,
    thrown: &[Throwing],
    catches: &[Catch],
) -> Result<bool, AllocError>
    ensures may { IfOk result (λ may. may ≡ spec.may_all_catch headers.now thrown.now (view_catches catches.now)) }
{
    for catch in catches {
        if !may_catch(alloc, headers, thrown, &catch.class)? {
            return Ok(false);
        }
    }
    Ok(true)
}

/// Whether a class may be thrown out of a method that declares these.
pub fn may_escape(
    kinds: &Kinds<'_>,
    headers: &Headers,
    declared: &[ClassName],
    class: &ClassName,
) -> bool
    requires same { kinds.now ≡ headers.now }
    ensures may { result ≡ spec.may_escape headers.now declared.now class.now }
{
    !is_checked(kinds, class) || is_below_one(headers, class, declared)
}

/// The first of what is thrown that may not escape from a method that declares these.
pub fn first_escaping(
    alloc: Global,
    headers: &Headers,
    declared: &[ClassName],
    thrown: &[Throwing],
) -> Result<Option<Fault>, AllocError>
    ensures first { IfOk result (λ fault. fault ≡ walks.first_escaping headers.now declared.now thrown.now) }
{
    let kinds = Kinds::new(alloc, headers)?;
    let mut fault = None;
    for one in thrown {
        let kept = may_escape(&kinds, headers, declared, &one.class);
        fault = lower(fault, broken(one.place, TypeKind::Thrown, kept));
    }
    Ok(fault)
}
