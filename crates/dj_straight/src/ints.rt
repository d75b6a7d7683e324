//! Types that are all int.

ghost use Rattle.std.specs.Prelude.{◌≡◌, ℕ, replicate, Some, IfSome, IfNone, IsTrue, ◌↔◌, All};
ghost use Rattle.std.specs.Option.{option_map};
ghost use Rattle.dj_names.specs.Types as types;
ghost use Rattle.dj_names.specs.Types.{parameters_of, view_descriptor, view_type, view_types};
ghost use Rattle.dj_straight.specs.Ints.{AnswersInt};

use dj_names::{Descriptor, JType};

/// Whether a type is int.
fn is_int(kind: &JType) -> bool
    ensures int { IsTrue result ↔ (view_type kind.now ≡ types.Int) }
{
    matches!(kind, JType::Int)
}

/// Whether a result is int.
fn is_int_result(kind: &Option<JType>) -> bool
    ensures int { IsTrue result ↔ (option_map view_type kind.now ≡ Some types.Int) }
{
    match kind {
        Some(kind) => is_int(kind),
        None => false,
    }
}

/// Whether all types are int.
fn are_ints(parameters: &[JType]) -> bool
    ensures ints { IsTrue result ↔ All (λ kind. view_type kind ≡ types.Int) parameters.now }
{
    parameters.iter().all(is_int)
}

/// How many types there are, where all are int.
fn int_count(parameters: &[JType]) -> Option<usize>
    ensures some { IfSome result (λ count. view_types parameters.now ≡ replicate count types.Int) }
    ensures none { IfNone result ((count : ℕ) → view_types parameters.now ≡ replicate count types.Int → ⊥) }
{
    if are_ints(parameters) {
        Some(parameters.len())
    } else {
        None
    }
}

/// How many parameters a descriptor has, where all are ints; a field's has none.
pub fn ints_taken(descriptor: &Descriptor) -> Option<usize>
    ensures some { IfSome result (λ count. parameters_of (view_descriptor descriptor.now) ≡ replicate count types.Int) }
    ensures none { IfNone result ((count : ℕ) → parameters_of (view_descriptor descriptor.now) ≡ replicate count types.Int → ⊥) }
{
    match descriptor {
        Descriptor::Field(_) => Some(0),
        Descriptor::Method { parameters, .. } => int_count(parameters.as_slice()),
    }
}

/// Whether a descriptor is of a method that answers an int.
pub fn answers_int(descriptor: &Descriptor) -> bool
    ensures int { IsTrue result ↔ AnswersInt (view_descriptor descriptor.now) }
{
    match descriptor {
        Descriptor::Field(_) => false,
        Descriptor::Method { result, .. } => is_int_result(result),
    }
}
