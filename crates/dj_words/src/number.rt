//! The number of classes to make, as a word spells it.

ghost use Rattle.std.specs.Prelude.{◌≡◌, Some, None, if◌then◌else◌};
ghost use Rattle.std.specs.List.{list_all};
ghost use Rattle.std.specs.Char.{is_ascii_digit};
ghost use Rattle.std.specs.Str.Parse.{digits_value};
ghost use Rattle.dj_words.specs.Orders.{is_number, is_plain_number};

/// Whether bytes are decimal digits.
fn are_digits(bytes: &[u8]) -> bool
    ensures digits { result ≡ list_all is_ascii_digit bytes.now }
{
    for byte in bytes {
        if !byte.is_ascii_digit() {
            return false;
        }
    }
    true
}

/// Whether a word has decimal digits alone, and no leading zero.
fn is_plain_number(text: &str) -> bool
    ensures plain { result ≡ is_plain_number text.now }
{
    let bytes = text.as_bytes();
    match bytes {
        [] => false,
        [first, ..] => *first != b'0' && are_digits(bytes),
    }
}

/// The number that a word spells, of 1 to 1,000.
pub(crate) fn number_of(text: &str) -> Option<u32>
    ensures number { result ≡ (if is_number text.now then Some (digits_value 10 text.now) else None) }
{
    if !is_plain_number(text) {
        return None;
    }
    match text.parse::<u32>() {
        Ok(number) if number <= 1000 => Some(number),
        _ => None,
    }
}
