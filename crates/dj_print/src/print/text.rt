//! Characters, names, numbers and the ends of lines.

ghost use Rattle.std.specs.Prelude.{◌≡◌, ◌<◌, ◌∷◌, []};
ghost use Rattle.std.specs.List.{flat_map};
ghost use Rattle.std.specs.Fmt.{decimal, signed_decimal};
ghost use Rattle.dj_names.specs.Identifiers.{IsIdentifier};
ghost use Rattle.dj_syntax.specs.Items.{Line, item_text, quoted_unit, render, token_text};
ghost use Rattle.dj_syntax.specs.Items as items;
ghost use Rattle.dj_syntax.specs.UnitText.{dotted, label_name, letter, variable_name};
ghost use Rattle.dj_syntax.specs.WellFormed.{IsQualified};
ghost use Rattle.dj_names.specs.Shown.{escape_unit};
ghost use Rattle.dj_print.specs.Spelled.{IsAsciiName, dot};

use crate::out::Out;
use dj_names::{Units, hex_digit};
use dj_syntax::{Var, VarKind};
use itoa::Buffer;

// What stands between the parts of a class's name.
const SLASH: u16 = b'/' as u16;

/// Prints units below 128.
pub fn ascii<O: Out>(out: &mut O, name: &[u16])
    requires ascii { IsAsciiName name.now }
    ensures prints { O.prints out.old out.new name.now }
{
    for unit in name {
        out.put(&[*unit as u8]);
    }
}

/// Prints a simple name.
pub fn simple_name<O: Out>(out: &mut O, name: &Units)
    requires identifier { IsIdentifier name.now }
    ensures prints { O.prints out.old out.new name.now }
{
    ascii(out, name.as_slice());
}

/// Prints a simple name as that of a class.
pub fn simple_class<O: Out>(out: &mut O, name: &Units)
    requires identifier { IsIdentifier name.now }
    ensures prints { O.prints out.old out.new (render (dotted name.now)) }
{
    simple_name(out, name);
}

/// Prints a class's name in full.
pub fn full_name<O: Out>(out: &mut O, name: &[u16])
    requires qualified { IsQualified name.now }
    ensures prints { O.prints out.old out.new (render (dotted name.now)) }
{
    with_dots(out, name);
}

// Prints units below 128, with a dot for each slash.
fn with_dots<O: Out>(out: &mut O, name: &[u16])
    requires ascii { IsAsciiName name.now }
    ensures prints { O.prints out.old out.new (render (dotted name.now)) }
{
    for unit in name {
        dotted(out, *unit);
    }
}

// Prints a unit below 128, a dot for a slash.
fn dotted<O: Out>(out: &mut O, unit: u16)
    requires ascii { unit < 128 }
    ensures prints { O.prints out.old out.new (dot unit ∷ []) }
{
    if unit == SLASH {
        out.put(b".");
    } else {
        out.put(&[unit as u8]);
    }
}

/// Prints a number in digits.
pub fn number<O: Out>(out: &mut O, n: u64)
    ensures prints { O.prints out.old out.new (decimal n) }
{
    out.put(Buffer::new().format(n).as_bytes());
}

/// Prints a number in digits, a negative one behind its sign.
pub fn integer<O: Out>(out: &mut O, n: i64)
    ensures prints { O.prints out.old out.new (signed_decimal n) }
{
    out.put(Buffer::new().format(n).as_bytes());
}

/// Prints a variable: its kind's letter and its number.
pub fn variable<O: Out>(out: &mut O, variable: Var)
    ensures prints { O.prints out.old out.new (variable_name variable) }
{
    out.put(letter(variable.kind));
    number(out, variable.number as u64);
}

// The letter of a kind of variable.
fn letter(kind: VarKind) -> &'static [u8]
    ensures letter { result.now ≡ letter kind ∷ [] }
{
    match kind {
        VarKind::Param => b"p",
        VarKind::Local => b"v",
        VarKind::Caught => b"e",
        VarKind::State => b"s",
    }
}

/// Prints a label.
pub fn label<O: Out>(out: &mut O, label: u32)
    ensures prints { O.prints out.old out.new (label_name label) }
{
    out.put(b"l");
    number(out, label as u64);
}

/// Prints a string literal of these units.
pub fn quoted<O: Out>(out: &mut O, units: &[u16])
    ensures prints { O.prints out.old out.new (token_text (items.Quoted units.now)) }
{
    out.put(b"\"");
    quoted_units(out, units);
    out.put(b"\"");
}

// Prints the units of a string literal.
fn quoted_units<O: Out>(out: &mut O, units: &[u16])
    ensures prints { O.prints out.old out.new (flat_map quoted_unit units.now) }
{
    for unit in units {
        quoted_unit(out, *unit);
    }
}

// Prints a unit of a string literal.
fn quoted_unit<O: Out>(out: &mut O, unit: u16)
    ensures prints { O.prints out.old out.new (quoted_unit unit) }
{
    match unit {
        8 => out.put(b"\\b"),
        9 => out.put(b"\\t"),
        10 => out.put(b"\\n"),
        12 => out.put(b"\\f"),
        13 => out.put(b"\\r"),
        34 => out.put(b"\\\""),
        92 => out.put(b"\\\\"),
        32..=126 => out.put(&[unit as u8]),
        _ => escaped(out, unit),
    }
}

// Prints a unit by its number.
fn escaped<O: Out>(out: &mut O, unit: u16)
    ensures prints { O.prints out.old out.new (escape_unit unit) }
{
    out.put(&[
        b'\\',
        b'u',
        hex_digit(unit / 4096) as u8,
        hex_digit(unit / 256 % 16) as u8,
        hex_digit(unit / 16 % 16) as u8,
        hex_digit(unit % 16) as u8,
    ]);
}

/// Ends a line, and indents the next one: four spaces a level.
pub fn line<O: Out>(out: &mut O, depth: u32)
    ensures prints { O.prints out.old out.new (item_text (Line depth)) }
{
    out.put(b"\n");
    for _ in 0..depth {
        out.put(b"    ");
    }
}
