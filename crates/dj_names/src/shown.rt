//! Names as a report spells them.

ghost use Rattle.std.specs.Prelude.{◌≡◌, ◌<◌, Some, IsTrue};
ghost use Rattle.dj_names.specs.Shown.{hex_digit, is_shown_plain, escape_unit, show_unit, show_units};

use crate::class_name::ClassName;
use crate::units::Units;
use std::fmt;

impl fmt::Display for Units {
    ghost output = { λ units. Some (show_units units) };

    fn fmt<W: fmt::Write>(&self, f: &mut fmt::Formatter<W>) -> fmt::Result {
        for unit in self.as_slice() {
            write!(f, "{}", Shown(*unit))?;
        }
        Ok(())
    }
}

impl fmt::Display for ClassName {
    ghost output = { λ name. Some (show_units name) };

    fn fmt<W: fmt::Write>(&self, f: &mut fmt::Formatter<W>) -> fmt::Result {
        for unit in self.as_slice() {
            write!(f, "{}", Shown(*unit))?;
        }
        Ok(())
    }
}

/// One unit, as a report spells it.
#[derive(Clone, Copy)]
struct Shown(u16);

impl fmt::Display for Shown {
    ghost output = { λ shown. Some (show_unit shown.0) };

    fn fmt<W: fmt::Write>(&self, f: &mut fmt::Formatter<W>) -> fmt::Result {
        let unit = self.0;
        if is_shown_plain(unit) {
            write!(f, "{}", char::from(unit as u8))
        } else {
            write!(f, "{}", Escaped(unit))
        }
    }
}

/// One unit by its number.
#[derive(Clone, Copy)]
struct Escaped(u16);

impl fmt::Display for Escaped {
    ghost output = { λ escaped. Some (escape_unit escaped.0) };

    fn fmt<W: fmt::Write>(&self, f: &mut fmt::Formatter<W>) -> fmt::Result {
        let first = hex_digit(self.0 / 4096);
        let second = hex_digit(self.0 / 256 % 16);
        let third = hex_digit(self.0 / 16 % 16);
        let fourth = hex_digit(self.0 % 16);
        write!(f, "\\u{first}{second}{third}{fourth}")
    }
}

/// Whether a report spells the unit by itself.
pub fn is_shown_plain(unit: u16) -> bool
    ensures plain { result ≡ is_shown_plain unit }
    ensures ascii { IsTrue result → unit < 128 }
{
    unit >= 33 && unit <= 126 && unit != 92
}

/// A hexadecimal digit.
pub fn hex_digit(digit: u16) -> char
    requires { digit < 16 }
    ensures digit { result ≡ hex_digit digit }
    ensures ascii { result < 128 }
{
    let byte = if digit < 10 { 48 + digit } else { 87 + digit };
    char::from(byte as u8)
}
