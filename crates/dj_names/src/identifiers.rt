//! Identifiers of Java in ASCII (JLS 3.8, 3.9).

ghost use Rattle.std.specs.Prelude.{◌≡◌, ◌↔◌, ◌⊎◌, IsTrue, All, Contains, map};
ghost use Rattle.dj_names.specs.Identifiers.{IsLetter, IsDigit, IsIdentifierChars, IsIdentifier, keywords, reserved_by_first, word_literals};

use crate::units::Units;

/// Whether the units are an identifier of Java in ASCII, and no reserved word.
pub fn is_identifier(units: &Units) -> bool
    ensures identifier { IsTrue result ↔ IsIdentifier units.now }
{
    spells_identifier(units.as_slice())
}

/// Whether these units are an identifier of Java in ASCII, and no reserved word.
pub fn spells_identifier(units: &[u16]) -> bool
    ensures identifier { IsTrue result ↔ IsIdentifier units.now }
{
    has_identifier_chars(units) && !is_reserved(units)
}

/// Whether the units are a letter, and then letters and digits.
fn has_identifier_chars(units: &[u16]) -> bool
    ensures chars { IsTrue result ↔ IsIdentifierChars units.now }
{
    match units {
        [] => false,
        [first, rest @ ..] => {
            is_letter(*first) && rest.iter().all(|unit| is_letter(*unit) || is_digit(*unit))
        }
    }
}

fn is_letter(unit: u16) -> bool
    ensures letter { IsTrue result ↔ IsLetter unit }
{
    matches!(unit, 0x41..=0x5a | 0x61..=0x7a | 0x5f | 0x24)
}

pub fn is_digit(unit: u16) -> bool
    ensures digit { IsTrue result ↔ IsDigit unit }
{
    matches!(unit, 0x30..=0x39)
}

/// Whether the units are a keyword or a literal.
fn is_reserved(units: &[u16]) -> bool
    ensures reserved { IsTrue result ↔ (Contains keywords units.now ⊎ Contains word_literals units.now) }
{
    match units {
        [first, ..] => is_among(units, reserved_by_first(*first)),
        [] => false,
    }
}

/// The keywords that begin with the letter, and then the literals that do.
fn reserved_by_first(letter: u16) -> &'static [&'static str]
    ensures words { map (λ word. word.now) result.now ≡ reserved_by_first letter }
{
    match letter {
        0x61 => &["abstract", "assert"],
        0x62 => &["boolean", "break", "byte"],
        0x63 => &["continue", "case", "catch", "char", "class", "const"],
        0x64 => &["default", "do", "double"],
        0x65 => &["else", "enum", "extends"],
        0x66 => &["for", "final", "finally", "float", "false"],
        0x67 => &["goto"],
        0x69 => &[
            "if",
            "implements",
            "import",
            "instanceof",
            "int",
            "interface",
        ],
        0x6c => &["long"],
        0x6e => &["new", "native", "null"],
        0x70 => &["package", "private", "protected", "public"],
        0x72 => &["return"],
        0x73 => &[
            "switch",
            "synchronized",
            "short",
            "static",
            "strictfp",
            "super",
        ],
        0x74 => &["this", "throw", "throws", "transient", "try", "true"],
        0x76 => &["void", "volatile"],
        0x77 => &["while"],
        _ => &[],
    }
}

/// Whether the units are one of these words.
pub fn is_among(units: &[u16], words: &[&str]) -> bool
    ensures among { IsTrue result ↔ Contains (map (λ word. word.now) words.now) units.now }
{
    words.iter().any(|word| is_word(units, word))
}

/// Whether the units are this word.
pub fn is_word(units: &[u16], word: &str) -> bool
    ensures word { IsTrue result ↔ (word.now ≡ units.now) }
{
    let bytes = word.as_bytes();
    units.len() == bytes.len()
        && units
            .iter()
            .zip(bytes)
            .all(|(unit, byte)| *unit == u16::from(*byte))
}
