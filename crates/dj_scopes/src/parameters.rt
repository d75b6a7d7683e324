//! The variables in scope as a body begins (JLS 8.4.1).

ghost use Rattle.std.specs.Prelude.{◌≡◌, ◌≤◌, IfOk, length, min};
ghost use Rattle.dj_names.specs.Types.{parameters_of, view_descriptor, view_types};
ghost use Rattle.dj_static.specs.Scopes.{scope_of};
ghost use Rattle.dj_scopes.specs.Parameters as spec;

use dj_names::{Descriptor, JType};
use dj_static::Scope;
use dj_syntax::{Var, VarKind};
use std::alloc::{AllocError, Global};

/// The types of the parameters of a descriptor.
fn types_of(descriptor: &Descriptor) -> &[JType]
    ensures types { view_types result.now ≡ parameters_of (view_descriptor descriptor.now) }
{
    match descriptor {
        Descriptor::Method { parameters, .. } => parameters.as_slice(),
        Descriptor::Field(_) => &[],
    }
}

/// How many of these are parameters: as many as variables of 32 bits can be.
fn count_of(kinds: &[JType]) -> u32
    ensures count { result ≡ min (length kinds.now) 4294967295 }
{
    if kinds.len() < 4_294_967_295 {
        kinds.len() as u32
    } else {
        4_294_967_295
    }
}

/// A parameter.
fn parameter(number: u32) -> Var
    ensures parameter { result ≡ spec.parameter number }
{
    Var {
        kind: VarKind::Param,
        number,
    }
}

/// The parameters of a descriptor, which are in scope as a body begins.
pub fn parameters_in(alloc: Global, descriptor: &Descriptor) -> Result<Scope, AllocError>
    ensures scope { IfOk result (λ scope. scope_of scope ≡ spec.parameters_in (parameters_of (view_descriptor descriptor.now))) }
{
    let kinds = types_of(descriptor);
    let count = count_of(kinds);
    let mut scope = Scope::new(alloc);
    for number in 0..count {
        let kind = kinds[number as usize].copy(alloc)?;
        scope.declare(parameter(number), kind)?;
    }
    Ok(scope)
}
