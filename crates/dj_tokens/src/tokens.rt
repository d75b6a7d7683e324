//! What words are in Java's grammar (JLS 3.8 to 3.12).

ghost use Rattle.std.specs.Prelude.{◌≡◌, if◌then◌else◌, nat_eq, true};
ghost use Rattle.dj_tokens.specs.Tokens.{operator_of, separator_of, sign_of, token_of, word_of};
ghost use Rattle.dj_tokens.specs.Words.{begins, is_word};

use crate::words::{is_digit, is_letter, is_operator, is_word};
use dj_syntax::Op;

/// What a word is: a separator, an operator, a literal, a keyword, or a name. `super` and the
/// primitive types count as names.
#[derive(Clone, Copy)]
pub enum Token {
    Open,
    Close,
    OpenBracket,
    CloseBracket,
    Comma,
    Dot,
    Colon,
    Question,
    Semicolon,
    OpenBrace,
    CloseBrace,
    Assigns,
    Bang,
    Operator(Op),
    Number,
    Text,
    True,
    False,
    Null,
    This,
    New,
    InstanceOf,
    Class,
    Name,
    Return,
    If,
    Else,
    While,
    Do,
    For,
    Switch,
    Case,
    Default,
    Break,
    Continue,
    Throw,
    Try,
    Catch,
    Finally,
    Synchronized,
}

/// What a word is. The separators that come most are told first.
#[inline(always)]
pub fn token_of(word: &[u8]) -> Token
    ensures token { result ≡ token_of word.now }
{
    match word {
        [] => Token::Name,
        [b'(', ..] => Token::Open,
        [b')', ..] => Token::Close,
        [b',', ..] => Token::Comma,
        [b'.', ..] => Token::Dot,
        [b';', ..] => Token::Semicolon,
        [first, ..] if is_digit(*first) => Token::Number,
        [first, ..] if is_letter(*first) => word_of(word),
        [first, ..] if is_operator(*first) => sign_of(word),
        [b'"', ..] => Token::Text,
        [first, ..] => separator_of(*first),
    }
}

/// A separator, or another single character.
fn separator_of(character: u8) -> Token
    ensures token { result ≡ separator_of character }
{
    match character {
        b'(' => Token::Open,
        b')' => Token::Close,
        b'[' => Token::OpenBracket,
        b']' => Token::CloseBracket,
        b',' => Token::Comma,
        b'.' => Token::Dot,
        b':' => Token::Colon,
        b'?' => Token::Question,
        b';' => Token::Semicolon,
        b'{' => Token::OpenBrace,
        b'}' => Token::CloseBrace,
        _ => Token::Name,
    }
}

/// A word of operator characters.
fn sign_of(word: &[u8]) -> Token
    ensures token { result ≡ sign_of word.now }
{
    match word {
        b"=" => Token::Assigns,
        b"!" => Token::Bang,
        _ => Token::Operator(operator_of(word)),
    }
}

/// A keyword, or a name. Its first letter tells which keywords a word is compared with.
#[inline(always)]
fn word_of(word: &[u8]) -> Token
    ensures token { result ≡ word_of word.now }
{
    match word {
        [b'b', ..] => keyword_or(word, b"break", Token::Break, Token::Name),
        [b'c', ..] => word_in_c(word),
        [b'd', ..] => word_in_d(word),
        [b'e', ..] => keyword_or(word, b"else", Token::Else, Token::Name),
        [b'f', ..] => word_in_f(word),
        [b'i', ..] => word_in_i(word),
        [b'n', ..] => word_in_n(word),
        [b'r', ..] => keyword_or(word, b"return", Token::Return, Token::Name),
        [b's', ..] => word_in_s(word),
        [b't', ..] => word_in_t(word),
        [b'w', ..] => keyword_or(word, b"while", Token::While, Token::Name),
        _ => Token::Name,
    }
}

/// What this keyword is, where the word is it, and else the other.
fn keyword_or(word: &[u8], keyword: &[u8], token: Token, other: Token) -> Token
    ensures token { result ≡ (if is_word word.now keyword.now then token else other) }
{
    if is_word(word, keyword) { token } else { other }
}

/// A keyword that begins with `c`, or a name.
fn word_in_c(word: &[u8]) -> Token
    requires first { begins (nat_eq 99) word.now ≡ true }
    ensures token { result ≡ word_of word.now }
{
    if is_word(word, b"case") {
        Token::Case
    } else if is_word(word, b"continue") {
        Token::Continue
    } else if is_word(word, b"catch") {
        Token::Catch
    } else {
        keyword_or(word, b"class", Token::Class, Token::Name)
    }
}

/// A keyword that begins with `d`, or a name.
fn word_in_d(word: &[u8]) -> Token
    requires first { begins (nat_eq 100) word.now ≡ true }
    ensures token { result ≡ word_of word.now }
{
    if is_word(word, b"do") {
        Token::Do
    } else {
        keyword_or(word, b"default", Token::Default, Token::Name)
    }
}

/// A keyword that begins with `f`, or a name.
fn word_in_f(word: &[u8]) -> Token
    requires first { begins (nat_eq 102) word.now ≡ true }
    ensures token { result ≡ word_of word.now }
{
    if is_word(word, b"for") {
        Token::For
    } else if is_word(word, b"finally") {
        Token::Finally
    } else {
        keyword_or(word, b"false", Token::False, Token::Name)
    }
}

/// A keyword that begins with `i`, or a name.
fn word_in_i(word: &[u8]) -> Token
    requires first { begins (nat_eq 105) word.now ≡ true }
    ensures token { result ≡ word_of word.now }
{
    if is_word(word, b"if") {
        Token::If
    } else {
        keyword_or(word, b"instanceof", Token::InstanceOf, Token::Name)
    }
}

/// A keyword that begins with `n`, or a name.
fn word_in_n(word: &[u8]) -> Token
    requires first { begins (nat_eq 110) word.now ≡ true }
    ensures token { result ≡ word_of word.now }
{
    if is_word(word, b"null") {
        Token::Null
    } else {
        keyword_or(word, b"new", Token::New, Token::Name)
    }
}

/// A keyword that begins with `s`, or a name.
fn word_in_s(word: &[u8]) -> Token
    requires first { begins (nat_eq 115) word.now ≡ true }
    ensures token { result ≡ word_of word.now }
{
    if is_word(word, b"switch") {
        Token::Switch
    } else {
        keyword_or(word, b"synchronized", Token::Synchronized, Token::Name)
    }
}

/// A keyword that begins with `t`, or a name.
fn word_in_t(word: &[u8]) -> Token
    requires first { begins (nat_eq 116) word.now ≡ true }
    ensures token { result ≡ word_of word.now }
{
    if is_word(word, b"throw") {
        Token::Throw
    } else if is_word(word, b"try") {
        Token::Try
    } else if is_word(word, b"true") {
        Token::True
    } else {
        keyword_or(word, b"this", Token::This, Token::Name)
    }
}

/// The binary operator that a word spells.
fn operator_of(word: &[u8]) -> Op
    ensures operator { result ≡ operator_of word.now }
{
    match word {
        b"*" => Op::Mul,
        b"/" => Op::Div,
        b"%" => Op::Rem,
        b"+" => Op::Add,
        b"-" => Op::Sub,
        b"<<" => Op::Shl,
        b">>" => Op::Shr,
        b">>>" => Op::Ushr,
        b"<" => Op::Lt,
        b"<=" => Op::Le,
        b">" => Op::Gt,
        b">=" => Op::Ge,
        b"==" => Op::Eq,
        b"!=" => Op::Ne,
        b"&" => Op::And,
        b"^" => Op::Xor,
        b"|" => Op::Or,
        b"&&" => Op::AndAlso,
        _ => Op::OrElse,
    }
}
