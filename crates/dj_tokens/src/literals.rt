//! Literals and variables, read from their words (JLS 3.10).

ghost use Rattle.std.specs.Prelude.{◌≡◌, IfOk, OnOk};
ghost use Rattle.dj_syntax.specs.Trees.{view_exp};
ghost use Rattle.dj_tokens.specs.Literals.{are_digits, digit_more, escaped_unit, hex_value, int_of, is_long, is_variable_letter, is_variable_word, kind_of, kind_of_word, literal_of, long_of, negated, number_behind_letter, number_of, read_character, read_hex, unquoted, variable_of, with_unit};
ghost use Rattle.dj_tokens.specs.LiteralViews.{view_quotation};

use crate::words::is_digit;
use dj_names::Units;
use dj_syntax::{Exp, Var, VarKind};
use std::alloc::{AllocError, Global};

/// A tenth of the greatest long: a digit behind a greater number is passed over.
const MOST_BEFORE: u64 = 922_337_203_685_477_580;

/// An int or a long literal, without a sign.
pub fn literal_of(word: &[u8]) -> Exp
    ensures literal { view_exp result ≡ literal_of word.now }
{
    let number = number_of(word);
    if is_long(word) {
        Exp::Long(long_of(number))
    } else {
        Exp::Int(int_of(number))
    }
}

/// Whether `L` marks a long literal.
fn is_long(word: &[u8]) -> bool
    ensures long { result ≡ is_long word.now }
{
    for character in word {
        if *character == b'L' {
            return true;
        }
    }
    false
}

/// The number that digits spell; digits that would lead far beyond a long are passed over.
fn number_of(digits: &[u8]) -> u64
    ensures number { result ≡ number_of digits.now }
{
    let mut number = 0;
    for digit in digits {
        number = digit_more(number, *digit);
    }
    number
}

/// A number with a digit more; another character is passed over.
fn digit_more(before: u64, digit: u8) -> u64
    ensures number { result ≡ digit_more before digit }
{
    if is_digit(digit) && before <= MOST_BEFORE {
        before * 10 + u64::from(digit - b'0')
    } else {
        before
    }
}

/// An int literal without a sign.
fn int_of(number: u64) -> i32
    ensures literal { result ≡ int_of number }
{
    if number < 1 << 31 {
        number as i32
    } else {
        i32::MIN
    }
}

/// A long literal without a sign.
fn long_of(number: u64) -> i64
    ensures literal { result ≡ long_of number }
{
    if number < 1 << 63 {
        number as i64
    } else {
        i64::MIN
    }
}

/// An int literal's value behind a minus sign.
pub fn negated_int(value: i32) -> i32
    ensures negated { result ≡ negated value }
{
    if value > 0 { -value } else { value }
}

/// A long literal's value behind a minus sign.
pub fn negated_long(value: i64) -> i64
    ensures negated { result ≡ negated value }
{
    if value > 0 { -value } else { value }
}

/// A variable.
pub fn variable_of(word: &[u8]) -> Var
    ensures variable { result ≡ variable_of word.now }
{
    Var {
        kind: kind_of_word(word),
        number: number_behind_letter(word),
    }
}

/// The kind of variable that a word's letter tells.
fn kind_of_word(word: &[u8]) -> VarKind
    ensures kind { result ≡ kind_of_word word.now }
{
    match word {
        [] => VarKind::State,
        [letter, ..] => kind_of(*letter),
    }
}

/// The kind of variable that a letter tells.
fn kind_of(letter: u8) -> VarKind
    ensures kind { result ≡ kind_of letter }
{
    match letter {
        b'p' => VarKind::Param,
        b'v' => VarKind::Local,
        b'e' => VarKind::Caught,
        _ => VarKind::State,
    }
}

/// The number behind the letter of a variable or of a label, its last 32 bits.
pub fn number_behind_letter(word: &[u8]) -> u32
    ensures number { result ≡ number_behind_letter word.now }
{
    match word {
        [] => 0,
        [_, digits @ ..] => (number_of(digits) % (1 << 32)) as u32,
    }
}

/// Whether a word is spelled like a variable.
pub fn is_variable_word(word: &[u8]) -> bool
    ensures variable { result ≡ is_variable_word word.now }
{
    match word {
        [] | [_] => false,
        [letter, digits @ ..] => is_variable_letter(*letter) && are_digits(digits),
    }
}

/// The letter of a variable.
fn is_variable_letter(letter: u8) -> bool
    ensures letter { result ≡ is_variable_letter letter }
{
    matches!(letter, b'p' | b'v' | b'e' | b's')
}

/// Whether each character is a digit.
fn are_digits(word: &[u8]) -> bool
    ensures digits { result ≡ are_digits word.now }
{
    for digit in word {
        if !is_digit(*digit) {
            return false;
        }
    }
    true
}

/// Whether an escape is begun in a string literal: a backslash, or one of those of a unit in
/// hexadecimal digits, with how many of them are wanted and the value of those before.
#[derive(Clone, Copy)]
pub enum Spot {
    Plain,
    Escape,
    Hex(u8, u16),
}

/// How far a string literal is read.
#[derive(Drop)]
struct Quotation {
    units: Vec<u16>,
    spot: Spot,
}

impl Quotation {
    /// A character more; the quotes are passed over.
    fn read(&mut self, character: u8) -> Result<(), AllocError>
        ensures read { OnOk result (view_quotation self.new ≡ read_character self.old.units.items self.old.spot character) }
    {
        match self.spot {
            Spot::Plain => match character {
                b'\\' => self.spot = Spot::Escape,
                b'"' => {}
                _ => self.units.push(u16::from(character))?,
            },
            Spot::Escape => match character {
                b'u' => self.spot = Spot::Hex(4, 0),
                _ => self.add(escaped_unit(character))?,
            },
            Spot::Hex(wanted, before) => self.read_hex(wanted, before, character)?,
        }
        Ok(())
    }

    /// A unit more.
    fn add(&mut self, unit: u16) -> Result<(), AllocError>
        ensures added { OnOk result (view_quotation self.new ≡ with_unit self.old.units.items unit) }
    {
        self.units.push(unit)?;
        self.spot = Spot::Plain;
        Ok(())
    }

    /// A hexadecimal digit more, of which so many are wanted.
    fn read_hex(&mut self, wanted: u8, before: u16, character: u8) -> Result<(), AllocError>
        ensures read { OnOk result (view_quotation self.new ≡ read_hex self.old.units.items wanted before character) }
    {
        let value = (u32::from(before) * 16 + u32::from(hex_value(character))) % (1 << 16);
        if wanted <= 1 {
            self.add(value as u16)
        } else {
            self.spot = Spot::Hex(wanted - 1, value as u16);
            Ok(())
        }
    }
}

/// The unit of an escape of one letter (JLS 3.10.6).
fn escaped_unit(letter: u8) -> u16
    ensures unit { result ≡ escaped_unit letter }
{
    match letter {
        b'b' => 8,
        b't' => 9,
        b'n' => 10,
        b'f' => 12,
        b'r' => 13,
        _ => u16::from(letter),
    }
}

/// The value of a hexadecimal digit.
fn hex_value(digit: u8) -> u8
    ensures value { result ≡ hex_value digit }
{
    if digit < b'a' {
        digit.saturating_sub(b'0')
    } else {
        digit - (b'a' - 10)
    }
}

/// The units of a string literal.
pub fn unquoted(alloc: Global, word: &[u8]) -> Result<Units, AllocError>
    ensures units { IfOk result (λ units. units ≡ unquoted word.now) }
{
    let mut quotation = Quotation {
        units: Vec::new(alloc),
        spot: Spot::Plain,
    };
    for character in word {
        quotation.read(*character)?;
    }
    let units = Units::from_vec(quotation.units)?;
    Ok(units)
}
