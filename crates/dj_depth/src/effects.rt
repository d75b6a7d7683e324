//! What each word does to the depth (JLS 3.8 to 3.12).

ghost use Rattle.std.specs.Prelude.{◌≡◌};
ghost use Rattle.dj_depth.specs.Depth.{effect_of};
ghost use Rattle.dj_tokens.specs.Tokens.{token_of};

use dj_tokens::{Token, token_of};

/// What a word does to the depth.
#[derive(Clone, Copy)]
pub enum Effect {
    /// No tree is made of it.
    Passes,
    /// A tree may be made of it.
    Counts,
    /// So too, and a name goes on with the next word, whatever that is.
    Joins,
    /// A tree may be made of it, and a parenthesis opens.
    Wraps,
    /// So too, a bracket; a type goes on with the next word, whatever that is.
    Brackets,
    /// A parenthesis or a bracket closes.
    Unwraps,
    /// What is read in a parenthesis ends.
    Parts,
    /// A label may end with it.
    Labels,
    /// A statement goes on with another, which may have labels.
    Starts,
    /// A list of statements or members opens.
    Opens,
    /// A list closes.
    Closes,
    /// A statement, or the label of a group, ends or begins.
    Ends,
}

/// What the word before was.
#[derive(Clone, Copy)]
pub enum Behind {
    Other,
    /// A dot.
    Dot,
    /// An opening bracket.
    Bracket,
}

/// What a word does. Those that come most are told by their first character.
#[inline(always)]
pub fn effect_of_word(word: &[u8]) -> Effect
    ensures effect { result ≡ effect_of (token_of word.now) }
{
    match word {
        [b'(', ..] => Effect::Wraps,
        [b')', ..] => Effect::Unwraps,
        [b'.', ..] => Effect::Joins,
        [b',', ..] => Effect::Parts,
        [b'+', ..] => Effect::Counts,
        [b'0'..=b'9', ..] => Effect::Passes,
        _ => effect_of(token_of(word)),
    }
}

/// What a word does, given what it is.
fn effect_of(token: Token) -> Effect
    ensures effect { result ≡ effect_of token }
{
    match token {
        Token::Question
        | Token::Assigns
        | Token::Bang
        | Token::Operator(_)
        | Token::New
        | Token::InstanceOf => Effect::Counts,
        Token::Dot => Effect::Joins,
        Token::Open => Effect::Wraps,
        Token::OpenBracket => Effect::Brackets,
        Token::Close | Token::CloseBracket => Effect::Unwraps,
        Token::Comma => Effect::Parts,
        Token::Colon => Effect::Labels,
        Token::Else | Token::Catch | Token::Finally => Effect::Starts,
        Token::OpenBrace => Effect::Opens,
        Token::CloseBrace => Effect::Closes,
        Token::Semicolon | Token::Case | Token::Default => Effect::Ends,
        Token::Number
        | Token::Text
        | Token::True
        | Token::False
        | Token::Null
        | Token::This
        | Token::Class
        | Token::Name
        | Token::Return
        | Token::If
        | Token::While
        | Token::Do
        | Token::For
        | Token::Switch
        | Token::Break
        | Token::Continue
        | Token::Throw
        | Token::Try
        | Token::Synchronized => Effect::Passes,
    }
}
