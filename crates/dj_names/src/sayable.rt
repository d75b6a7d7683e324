//! Names of classes that Java source can say, whatever variables it has (JLS 6.4.2, 6.5.2).

ghost use Rattle.std.specs.Prelude.{◌≡◌, ◌↔◌, ◌==◌, position, All, Contains, IsTrue, codes};
ghost use Rattle.std.specs.List.{before_first};
ghost use Rattle.dj_names.specs.ClassNames.{segments};
ghost use Rattle.dj_names.specs.Identifiers.{IsIdentifier};
ghost use Rattle.dj_names.specs.Sayable.{IsVariableLike, IsSayable};

use crate::identifiers::{is_digit, spells_identifier};

const SLASH: u16 = 0x2f;

/// Whether each segment is an identifier.
fn are_identifiers(name: &[u16]) -> bool
    ensures identifiers { IsTrue result ↔ All IsIdentifier (segments name.now) }
{
    name.split(|unit| *unit == SLASH)
        .all(|segment| spells_identifier(segment))
}

/// Whether a printed variable begins with the unit.
fn is_variable_letter(unit: u16) -> bool
    ensures letter { IsTrue result ↔ Contains (codes "pves") unit }
{
    [0x70, 0x76, 0x65, 0x73].contains(&unit)
}

/// Whether the units are spelled as a printed variable is.
pub fn is_variable_like(units: &[u16]) -> bool
    ensures variable { IsTrue result ↔ IsVariableLike units.now }
{
    match units {
        [letter, digit, digits @ ..] => {
            is_variable_letter(*letter)
                && is_digit(*digit)
                && digits.iter().all(|unit| is_digit(*unit))
        }
        [] | [_] => false,
    }
}

/// The place of the first `/`.
fn slash_at(name: &[u16]) -> Option<usize>
    ensures place { result ≡ position (λ unit. unit == 47) name.now }
{
    name.iter().position(|unit| *unit == SLASH)
}

/// The units before the first `/`, or all of them.
fn first_segment(name: &[u16]) -> &[u16]
    ensures first { result.now ≡ before_first (λ unit. unit == 47) name.now }
{
    match slash_at(name) {
        Some(end) => &name[..end],
        None => name,
    }
}

/// Whether Java source can say the name, whatever variables there are.
pub fn is_sayable(name: &[u16]) -> bool
    ensures sayable { IsTrue result ↔ IsSayable name.now }
{
    are_identifiers(name) && !is_variable_like(first_segment(name))
}
