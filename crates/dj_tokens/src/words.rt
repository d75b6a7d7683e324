//! A text as words, read one after another.

ghost use Rattle.std.specs.Prelude.{◌≡◌, ◌≢◌, ◌≤◌, ◌+◌, ◌↔◌, [], take, drop, length, false, IsTrue, IfSome, IfNone};
ghost use Rattle.std.specs.List.{take_while};
ghost use Rattle.dj_tokens.specs.Words.{words, first_word, other_words, comes, is_word, is_digit, is_letter, is_operator, is_blank, is_quote, begins, literal_length};

use std::marker::Model;

/// The rest of a text, which contracts see as its words.
#[derive(Drop)]
pub struct Reader<'a> {
    text: &'a [u8],
}

impl<'a> Model for Reader<'a> {
    ghost use Rattle.std.specs.Prelude.{List, ℕ};
    ghost use Rattle.dj_tokens.specs.Words.{words};

    ghost Value = { List (List ℕ) };

    ghost view = { λ reader. words reader.text.now };
}

impl<'a> Reader<'a> {
    /// A text from its beginning.
    pub fn new(text: &'a [u8]) -> Reader<'a>
        ensures words { result ≡ words text.now }
    {
        Reader { text }
    }

    /// The first word, empty at the end.
    pub fn first(&self) -> &'a [u8]
        ensures first { result.now ≡ first_word self.now }
    {
        let text = past_blanks(self.text);
        &text[..word_end(text)]
    }

    /// Goes on behind the first word.
    pub fn advance(&mut self)
        ensures rest { self.new ≡ other_words self.old }
    {
        let text = past_blanks(self.text);
        self.text = &text[word_end(text)..];
    }

    /// The first word, behind which the reader goes on.
    pub fn take(&mut self) -> &'a [u8]
        ensures first { result.now ≡ first_word self.old }
        ensures rest { self.new ≡ other_words self.old }
    {
        let text = past_blanks(self.text);
        let end = word_end(text);
        self.text = &text[end..];
        &text[..end]
    }

    /// The first word, behind which the reader goes on, where a word is left.
    #[inline(always)]
    pub fn take_next(&mut self) -> Option<&'a [u8]>
        ensures first { IfSome result (λ word. word.now ≡ first_word self.old) }
        ensures rest { IfSome result (λ _. self.new ≡ other_words self.old) }
        ensures left { IfSome result (λ _. self.old ≢ []) }
        ensures none { IfNone result (self.old ≡ []) }
        ensures kept { IfNone result (self.new ≡ self.old) }
    {
        let text = past_blanks(self.text);
        if text.is_empty() {
            return None;
        }
        let end = word_end(text);
        self.text = &text[end..];
        Some(&text[..end])
    }

    /// Goes on behind so many words.
    pub fn skip(&mut self, count: usize)
        ensures rest { self.new ≡ drop count self.old }
    {
        for _ in 0..count {
            self.advance();
        }
    }

    /// Whether this word comes first.
    pub fn is_at(&self, word: &[u8]) -> bool
        ensures comes { result ≡ comes word.now self.now }
    {
        is_word(self.first(), word)
    }

    /// Whether this word comes next, behind the first.
    pub fn is_next(&self, word: &[u8]) -> bool
        ensures comes { result ≡ comes word.now (other_words self.now) }
    {
        let mut behind = Reader { text: self.text };
        behind.advance();
        behind.is_at(word)
    }

    /// Whether no word is left.
    pub fn is_at_end(&self) -> bool
        ensures end { IsTrue result ↔ (self.now ≡ []) }
    {
        past_blanks(self.text).is_empty()
    }
}

/// Whether a word is this one. Their lengths are compared first, since most words differ there.
pub fn is_word(word: &[u8], other: &[u8]) -> bool
    ensures same { result ≡ is_word word.now other.now }
{
    word.len() == other.len() && word == other
}

/// A text from its first word on.
#[inline(always)]
fn past_blanks(text: &[u8]) -> &[u8]
    ensures words { words result.now ≡ words text.now }
    ensures front { begins is_blank result.now ≡ false }
{
    &text[blanks(text)..]
}

/// How many blanks a text begins with.
#[inline(always)]
fn blanks(text: &[u8]) -> usize
    ensures blanks { result ≡ length (take_while is_blank text.now) }
{
    text.iter().take_while(|byte| is_blank(**byte)).count()
}

/// Where the word ends that a text begins with.
#[inline(always)]
fn word_end(text: &[u8]) -> usize
    requires word { begins is_blank text.now ≡ false }
    ensures within { result ≤ length text.now }
    ensures first { take result text.now ≡ first_word (words text.now) }
    ensures rest { words (drop result text.now) ≡ other_words (words text.now) }
{
    match text {
        [] => 0,
        [first, ..] if is_letter(*first) => letters(text),
        [first, ..] if is_operator(*first) => operators(text),
        [first, inside @ ..] if is_quote(*first) => 1 + literal_length(inside),
        [_, ..] => 1,
    }
}

/// How many characters the rest of a string literal has with which a text begins (JLS 3.10.5).
fn literal_length(text: &[u8]) -> usize
    ensures within { result ≤ length text.now }
    ensures rest { result ≡ literal_length false text.now }
{
    let mut escaped = false;
    for (place, byte) in text.iter().enumerate() {
        if escaped {
            escaped = false;
        } else if is_quote(*byte) {
            return place + 1;
        } else {
            escaped = *byte == b'\\';
        }
    }
    text.len()
}

/// How many letters a text begins with.
#[inline(always)]
fn letters(text: &[u8]) -> usize
    ensures letters { result ≡ length (take_while is_letter text.now) }
{
    text.iter().take_while(|byte| is_letter(**byte)).count()
}

/// How many characters of operators a text begins with.
#[inline(always)]
fn operators(text: &[u8]) -> usize
    ensures operators { result ≡ length (take_while is_operator text.now) }
{
    text.iter().take_while(|byte| is_operator(**byte)).count()
}

/// Whether it is a space or a line feed.
fn is_blank(byte: u8) -> bool
    ensures blank { result ≡ is_blank byte }
{
    byte == b' ' || byte == b'\n'
}

/// Whether it is a digit.
pub fn is_digit(byte: u8) -> bool
    ensures digit { result ≡ is_digit byte }
{
    byte.is_ascii_digit()
}

/// Whether it is a letter or a digit of an identifier.
pub fn is_letter(byte: u8) -> bool
    ensures letter { result ≡ is_letter byte }
{
    matches!(byte, b'0'..=b'9' | b'A'..=b'Z' | b'a'..=b'z' | b'_' | b'$')
}

/// Whether it is the quote of a string literal.
fn is_quote(byte: u8) -> bool
    ensures quote { result ≡ is_quote byte }
{
    byte == b'"'
}

/// Whether it is a character of operators.
pub fn is_operator(byte: u8) -> bool
    ensures operator { result ≡ is_operator byte }
{
    matches!(
        byte,
        b'!' | b'%' | b'&' | b'*' | b'+' | b'-' | b'/' | b'<'..=b'>' | b'^' | b'|'
    )
}
