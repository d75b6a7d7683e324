//! What is thrown, and by whom it is caught (JLS 14.18, 14.20).

ghost use Rattle.std.specs.Prelude.{◌≡◌};
ghost use Rattle.dj_names.specs.Types.{view_type};
ghost use Rattle.dj_values.specs.Deciding as deciding;
ghost use Rattle.dj_values.specs.Fits.{throwable_name};
ghost use Rattle.dj_values.specs.Outcomes.{Gives, outside};
ghost use Rattle.dj_values.specs.Views.{view_reference, view_value};
ghost use Rattle.dj_outside.specs.Runs.{Ends};
ghost use Rattle.dj_meaning.specs.Objects.{with_object};
ghost use Rattle.dj_meaning.specs.Completions as spec;
ghost use Rattle.dj_objects.specs.Runs.{context_of, run_state};
ghost use Rattle.dj_source.specs.Running.{view_completion};

use crate::completion::Completion;
use dj_headers::Headers;
use dj_names::{ClassName, JType};
use dj_objects::{Method, Run};
use dj_outside::{Stop, Trap};
use dj_values::{RefValue, Value};

/// Whether a class is the second, or stands below it.
fn is_subclass(headers: &Headers, lower: &ClassName, upper: &ClassName) -> bool
    ensures below { result ≡ deciding.is_subclass headers.now lower.now upper.now }
{
    headers.is_subclass(lower, upper)
}

/// Whether a type is a class that is another or below it.
pub fn is_instance(headers: &Headers, kind: &JType, class: &ClassName) -> bool
    ensures instance { result ≡ deciding.is_instance headers.now (view_type kind.now) class.now }
{
    match kind {
        JType::Class(name) => is_subclass(headers, name, class),
        JType::Boolean
        | JType::Byte
        | JType::Char
        | JType::Short
        | JType::Int
        | JType::Long
        | JType::Float
        | JType::Double
        | JType::Array(_) => false,
    }
}

/// Whether a class is one of exceptions.
fn is_exception(headers: &Headers, class: &ClassName) -> bool
    ensures below { result ≡ deciding.is_subclass headers.now class.now throwable_name }
{
    headers.is_throwable(class)
}

/// Whether a reference can be thrown.
fn is_throwable(headers: &Headers, reference: &RefValue) -> bool
    ensures throwable { result ≡ deciding.is_throwable headers.now (view_reference reference.now) }
{
    match &reference.class {
        JType::Class(name) => is_exception(headers, name) && reference.length == 0,
        JType::Boolean
        | JType::Byte
        | JType::Char
        | JType::Short
        | JType::Int
        | JType::Long
        | JType::Float
        | JType::Double
        | JType::Array(_) => false,
    }
}

/// A reference that isn't null; null traps.
pub fn object(method: &Method<'_>, run: &mut Run<'_>, value: Value) -> Result<RefValue, Stop>
    ensures object { Ends view_reference result (run_state run.new) (outside method.now.classes.headers.now (with_object (view_value value) (λ reference. Gives reference)) (run_state run.old)) }
{
    match value {
        Value::Ref(reference) => Ok(reference),
        Value::Null => Err(method.trap(run, Trap::Null)),
        Value::Int(_) | Value::Long(_) => Err(Stop::Stuck),
    }
}

/// A reference that is thrown: null traps, and what is no exception is ruled out.
pub fn thrown(method: &Method<'_>, run: &mut Run<'_>, value: Value) -> Result<Completion, Stop>
    ensures thrown { Ends view_completion result (run_state run.new) (spec.thrown (context_of method.now) (view_value value) (run_state run.old)) }
{
    let reference = object(method, run, value)?;
    if is_throwable(method.classes.headers, &reference) {
        Err(Stop::Throws(reference))
    } else {
        Err(Stop::Stuck)
    }
}
