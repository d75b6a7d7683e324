//! Modifiers (JLS 8.1.1, 8.3.1, 8.4.3, 9.4), read from words as the bits that they stand for (JVMS 4.1, 4.5, 4.6).

ghost use Rattle.std.specs.Prelude.{◌≡◌};
ghost use Rattle.dj_grammar.specs.Members.{modifier_of, read_modifiers};

use dj_tokens::{Reader, is_word};

/// The bits of the modifiers that come first, behind which the reader goes on.
pub fn read_modifiers(reader: &mut Reader) -> u16
    ensures read { (result, reader.new) ≡ read_modifiers 0 reader.old }
{
    let mut bits = 0;
    while let Some(bit) = modifier_of(reader.first()) {
        bits |= bit;
        reader.advance();
    }
    bits
}

/// The bit of a modifier, 0 for `default`; None where the word is no modifier.
fn modifier_of(word: &[u8]) -> Option<u16>
    ensures bit { result ≡ modifier_of word.now }
{
    if is_word(word, b"public") {
        Some(0x0001)
    } else if is_word(word, b"protected") {
        Some(0x0004)
    } else if is_word(word, b"private") {
        Some(0x0002)
    } else if is_word(word, b"abstract") {
        Some(0x0400)
    } else if is_word(word, b"static") {
        Some(0x0008)
    } else if is_word(word, b"final") {
        Some(0x0010)
    } else if is_word(word, b"synchronized") {
        Some(0x0020)
    } else if is_word(word, b"native") {
        Some(0x0100)
    } else if is_word(word, b"transient") {
        Some(0x0080)
    } else if is_word(word, b"volatile") {
        Some(0x0040)
    } else if is_word(word, b"default") {
        Some(0)
    } else {
        None
    }
}
