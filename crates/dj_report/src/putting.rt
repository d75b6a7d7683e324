//! Pieces put to a sink, without memory: bytes, and units as a report shows them.

mod descriptors;

ghost use Rattle.std.specs.Prelude.{◌≡◌, ◌+◌, ◌≤◌, ◌++◌, length};
ghost use Rattle.arrayvec.specs.ArrayVec.{array_vec_len};
ghost use Rattle.dj_names.specs.Shown.{show_unit, show_units};
ghost use Rattle.dj_outer.specs.Sink.{Puts};

use arrayvec::ArrayVec;
pub use descriptors::{put_descriptor, put_type};
use dj_names::{hex_digit, is_shown_plain};
use dj_outer::{Failed, Sink};

/// How many units are shown at a time.
const CHUNK: usize = 256;

/// The most bytes that so many units are shown as: six each.
const SHOWN: usize = 1536;

/// Puts bytes in one piece.
pub fn put_piece<S: Sink>(sink: &mut S, piece: &[u8]) -> Result<(), Failed>
    ensures puts { Puts result (S.taken sink.old) (S.taken sink.new) (S.faults sink.old) (S.faults sink.new) piece.now }
{
    sink.put(piece)
}

/// Shows one unit behind others.
fn show_unit(shown: &mut ArrayVec<u8, SHOWN>, unit: u16)
    requires room { array_vec_len shown.old + 6 ≤ SHOWN }
    ensures shown { shown.new.items ≡ shown.old.items ++ show_unit unit }
    ensures short { array_vec_len shown.new ≤ array_vec_len shown.old + 6 }
{
    if is_shown_plain(unit) {
        shown.push(unit as u8);
        return;
    }
    shown.push(b'\\');
    shown.push(b'u');
    shown.push(hex_digit(unit / 4096) as u8);
    shown.push(hex_digit(unit / 256 % 16) as u8);
    shown.push(hex_digit(unit / 16 % 16) as u8);
    shown.push(hex_digit(unit % 16) as u8);
}

/// Puts a few units, as a report shows them, in one piece.
fn put_few_units<S: Sink>(sink: &mut S, units: &[u16]) -> Result<(), Failed>
    requires few { length units.now ≤ CHUNK }
    ensures puts { Puts result (S.taken sink.old) (S.taken sink.new) (S.faults sink.old) (S.faults sink.new) (show_units units.now) }
{
    let mut shown = ArrayVec::new();
    for unit in units {
        show_unit(&mut shown, *unit);
    }
    put_piece(sink, shown.as_slice())
}

/// Puts units, as a report shows them.
pub fn put_units<S: Sink>(sink: &mut S, units: &[u16]) -> Result<(), Failed>
    ensures puts { Puts result (S.taken sink.old) (S.taken sink.new) (S.faults sink.old) (S.faults sink.new) (show_units units.now) }
{
    let mut rest = units;
    while !rest.is_empty() {
        let (front, back) = rest.split_at(rest.len().min(CHUNK));
        put_few_units(sink, front)?;
        rest = back;
    }
    Ok(())
}
