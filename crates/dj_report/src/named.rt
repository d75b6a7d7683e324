//! The end of the line on what is refused for a name, put piece by piece.

ghost use Rattle.std.specs.Prelude.{codes};
ghost use Rattle.dj_outer.specs.Sink.{Puts};
ghost use Rattle.dj_report.specs.Report.{named_tail};

use crate::putting::{put_piece, put_units};
use dj_names::Units;
use dj_outer::{Failed, Sink};

/// Puts the end of the line on what is refused for a name that can't be said.
pub fn put_name_tail<P: Sink>(report: &mut P, name: &Units) -> Result<(), Failed>
    ensures puts { Puts result (P.taken report.old) (P.taken report.new) (P.faults report.old) (P.faults report.new) (named_tail (codes "Name") name.now) }
{
    put_piece(report, b" refused Name ")?;
    put_units(report, name.as_slice())?;
    put_piece(report, b"\n")
}
