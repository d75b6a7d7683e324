//! Equality of names, types and descriptors.

ghost use Rattle.std.specs.Prelude.{◌≡◌, ◌↔◌, IsTrue, option_map};
ghost use Rattle.dj_names.specs.Types.{view_descriptor, view_type, view_types};

use dj_names::{ClassName, Descriptor, JType, same_type};

/// Whether two lists are of the same names.
pub fn same_names(first: &[ClassName], second: &[ClassName]) -> bool
    ensures same { IsTrue result ↔ (first.now ≡ second.now) }
{
    first == second
}

/// Whether two lists are of the same types.
fn same_types(first: &[JType], second: &[JType]) -> bool
    ensures same { IsTrue result ↔ (view_types first.now ≡ view_types second.now) }
{
    first.len() == second.len()
        && first
            .iter()
            .zip(second)
            .all(|(kind, other)| same_type(kind, other))
}

/// Whether two results are the same.
fn same_result(first: &Option<JType>, second: &Option<JType>) -> bool
    ensures same { IsTrue result ↔ (option_map view_type first.now ≡ option_map view_type second.now) }
{
    match (first, second) {
        (None, None) => true,
        (Some(kind), Some(other)) => same_type(kind, other),
        (None, Some(_)) | (Some(_), None) => false,
    }
}

/// Whether two descriptors are the same.
pub fn same_descriptor(first: &Descriptor, second: &Descriptor) -> bool
    ensures same { IsTrue result ↔ (view_descriptor first.now ≡ view_descriptor second.now) }
{
    match (first, second) {
        (Descriptor::Field(kind), Descriptor::Field(other)) => same_type(kind, other),
        (
            Descriptor::Method { parameters, result },
            Descriptor::Method {
                parameters: others,
                result: other,
            },
        ) => same_types(parameters.as_slice(), others.as_slice()) && same_result(result, other),
        (Descriptor::Field(_), Descriptor::Method { .. })
        | (Descriptor::Method { .. }, Descriptor::Field(_)) => false,
    }
}
