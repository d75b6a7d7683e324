//! Whether lists of types are the same, or go where others are wanted.

ghost use Rattle.std.specs.Prelude.{◌≡◌, ◌↔◌, IsTrue, is_some, map};
ghost use Rattle.std.specs.Option.{option_map};
ghost use Rattle.dj_names.specs.Types.{view_type, view_types, view_static, view_descriptor, parameters_of, result_of};
ghost use Rattle.dj_kinds.specs.Choice.{AllAssignable, AllSubtypes};

use dj_headers::{Headers, is_assignable, is_subtype};
use dj_names::{Descriptor, JType, StaticType, same_type};

/// Whether types are the same, one by one.
pub fn are_same_types(first: &[JType], second: &[JType]) -> bool
    ensures same { IsTrue result ↔ (view_types first.now ≡ view_types second.now) }
{
    match first {
        [] => second.is_empty(),
        [one, first @ ..] => match second {
            [] => false,
            [other, second @ ..] => same_type(one, other) && are_same_types(first, second),
        },
    }
}

/// Whether results are the same.
fn is_same_result(first: &Option<JType>, second: &Option<JType>) -> bool
    ensures same { IsTrue result ↔ (option_map view_type first.now ≡ option_map view_type second.now) }
{
    match first {
        None => second.is_none(),
        Some(one) => match second {
            None => false,
            Some(other) => same_type(one, other),
        },
    }
}

/// Whether descriptors are the same.
pub fn is_same_descriptor(first: &Descriptor, second: &Descriptor) -> bool
    ensures same { IsTrue result ↔ (view_descriptor first.now ≡ view_descriptor second.now) }
{
    match first {
        Descriptor::Field(kind) => match second {
            Descriptor::Field(other) => same_type(kind, other),
            Descriptor::Method { .. } => false,
        },
        Descriptor::Method { parameters, result } => match second {
            Descriptor::Field(_) => false,
            Descriptor::Method {
                parameters: others,
                result: other,
            } => {
                are_same_types(parameters.as_slice(), others.as_slice())
                    && is_same_result(result, other)
            }
        },
    }
}

/// The parameters of a method's descriptor.
pub fn parameters_of(descriptor: &Descriptor) -> &[JType]
    ensures parameters { view_types result.now ≡ parameters_of (view_descriptor descriptor.now) }
{
    match descriptor {
        Descriptor::Field(_) => &[],
        Descriptor::Method { parameters, .. } => parameters.as_slice(),
    }
}

/// Whether a method of this descriptor gives a result.
pub fn has_result(descriptor: &Descriptor) -> bool
    ensures result { result ≡ is_some (result_of (view_descriptor descriptor.now)) }
{
    match descriptor {
        Descriptor::Field(_) => true,
        Descriptor::Method { result, .. } => result.is_some(),
    }
}

/// Whether values of these static types go where these types are wanted.
pub fn are_assignable(headers: &Headers, from: &[StaticType], to: &[JType]) -> bool
    ensures assignable { IsTrue result ↔ AllAssignable headers.now (map view_static from.now) (view_types to.now) }
{
    match from {
        [] => to.is_empty(),
        [one, from @ ..] => match to {
            [] => false,
            [other, to @ ..] => {
                is_assignable(headers, one, other) && are_assignable(headers, from, to)
            }
        },
    }
}

/// Whether these types are subtypes of those, one by one.
pub fn are_subtypes(headers: &Headers, from: &[JType], to: &[JType]) -> bool
    ensures subtypes { IsTrue result ↔ AllSubtypes headers.now (view_types from.now) (view_types to.now) }
{
    match from {
        [] => to.is_empty(),
        [one, from @ ..] => match to {
            [] => false,
            [other, to @ ..] => is_subtype(headers, one, other) && are_subtypes(headers, from, to),
        },
    }
}
