//! Names of classes, methods and helpers, and the types and descriptors that name classes (JLS 3.8, 6.7; JVMS 4.3).

ghost use Rattle.std.specs.Prelude.{◌≡◌, ◌≢◌, ◌↔◌, ℕ, List, ◌++◌, IsTrue, IfSome, MatchOption, option_map};
ghost use Rattle.std.specs.List.{AllByRecursion};
ghost use Rattle.dj_names.specs.Identifiers.{IsDigit};
ghost use Rattle.dj_names.specs.Types.{view_descriptor, view_type, view_types};
ghost use Rattle.dj_syntax.specs.WellFormed.{IsDecimalNumeral, IsHelperName, IsMethodDescriptor, IsNamed, IsQualified};

use dj_names::{ClassName, Descriptor, JType, spells_identifier};

/// What stands between the segments of a class's name.
pub const SLASH: u16 = b'/' as u16;

/// `rethrow$`, in units.
const RETHROW: [u16; 8] = [114, 101, 116, 104, 114, 111, 119, 36];

const ZERO: u16 = b'0' as u16;

/// Whether each segment of a name is an identifier.
pub fn is_qualified(name: &[u16]) -> bool
    ensures qualified { IsTrue result ↔ IsQualified name.now }
{
    name.split(|unit| *unit == SLASH)
        .all(|segment| spells_identifier(segment))
}

/// Whether each of the names is qualified.
pub fn are_qualified(names: &[ClassName]) -> bool
    ensures qualified { IsTrue result ↔ AllByRecursion IsQualified names.now }
{
    names.iter().all(|name| is_qualified(name.as_slice()))
}

/// Whether each class that a type names can be written.
pub fn is_named(kind: &JType) -> bool
    ensures named { IsTrue result ↔ IsNamed (view_type kind.now) }
{
    match kind {
        JType::Boolean => true,
        JType::Byte => true,
        JType::Char => true,
        JType::Short => true,
        JType::Int => true,
        JType::Long => true,
        JType::Float => true,
        JType::Double => true,
        JType::Class(name) => is_qualified(name.as_slice()),
        JType::Array(element) => is_named(element.get()),
    }
}

/// Whether each of the types can be written.
fn are_named(kinds: &[JType]) -> bool
    ensures named { IsTrue result ↔ AllByRecursion IsNamed (view_types kinds.now) }
{
    kinds.iter().all(|kind| is_named(kind))
}

/// Whether a result can be written, `void` among them.
fn is_named_result(kind: &Option<JType>) -> bool
    ensures named { IsTrue result ↔ IfSome (option_map view_type kind.now) IsNamed }
{
    match kind {
        None => true,
        Some(kind) => is_named(kind),
    }
}

/// Whether a descriptor is a method's, each type of which can be written.
pub fn is_method_descriptor(descriptor: &Descriptor) -> bool
    ensures method { IsTrue result ↔ IsMethodDescriptor (view_descriptor descriptor.now) }
{
    match descriptor {
        Descriptor::Field(_) => false,
        Descriptor::Method { parameters, result } => {
            are_named(parameters.as_slice()) && is_named_result(result)
        }
    }
}

/// Whether a name is that of a helper.
pub fn is_helper_name(name: &[u16]) -> bool
    ensures helper { IsTrue result ↔ IsHelperName name.now }
{
    match behind(&RETHROW, name) {
        Some(number) => is_decimal_numeral(number),
        None => false,
    }
}

/// Whether the units are a number in digits, none of them a zero in front of another digit.
fn is_decimal_numeral(units: &[u16]) -> bool
    ensures numeral { IsTrue result ↔ IsDecimalNumeral units.now }
{
    match units {
        [] => false,
        [digit] => is_digit(*digit),
        [first, _, ..] => *first != ZERO && are_digits(units),
    }
}

/// Whether each unit is a digit.
fn are_digits(units: &[u16]) -> bool
    ensures digits { IsTrue result ↔ AllByRecursion IsDigit units.now }
{
    units.iter().all(|unit| is_digit(*unit))
}

/// Whether a unit is a digit.
fn is_digit(unit: u16) -> bool
    ensures digit { IsTrue result ↔ IsDigit unit }
{
    matches!(unit, 0x30..=0x39)
}

/// Whether a name is these units, and then those.
pub fn is_joined(front: &[u16], back: &[u16], name: &[u16]) -> bool
    ensures parts { IsTrue result ↔ (name.now ≡ front.now ++ back.now) }
{
    match behind(front, name) {
        Some(rest) => rest == back,
        None => false,
    }
}

/// What stands behind these units, where the name begins with them.
pub fn behind<'a>(front: &[u16], name: &'a [u16]) -> Option<&'a [u16]>
    ensures parts { MatchOption result ((rest : List ℕ) → name.now ≢ front.now ++ rest) (λ rest. name.now ≡ front.now ++ rest.now) }
{
    name.strip_prefix(front)
}
