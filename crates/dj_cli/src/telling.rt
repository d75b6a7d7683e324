//! The pieces of files, told to the text and to the report.

ghost use Rattle.std.specs.Prelude.{◌≡◌, ◌≢◌, ◌≤◌, ℕ, List, [], All, Option, IfOk, IfErr, MatchBool, length};
ghost use Rattle.dj_outer.specs.Count.{Rose};
ghost use Rattle.dj_outer.specs.Sink.{Puts};
ghost use Rattle.dj_class.specs.Views.{view_class};
ghost use Rattle.dj_world.specs.Worlds.{WorldOf};
ghost use Rattle.dj_class_text.specs.Formed.{IsFromFile};
ghost use Rattle.dj_load.specs.Loading.{finds_of, found_of};
ghost use Rattle.dj_cli.specs.Output.{InLines, InText, IsClassPiece, IsFilePiece, ToldAll, ToldFront, ToldSome};
ghost use Rattle.dj_load.specs.HeldFiles.{IsBroken, IsClash, most_files};
ghost use Rattle.dj_cli.specs.Pieces.{IsOfFile, end_piece, piece_of, refused_piece, report_bytes, text_bytes};
ghost use Rattle.dj_cli.specs.Telling.{IsCalm, StoppedTelling, StopsPiece, TellsPiece, source_of};

use crate::basis::{Basis, basis_of};
use crate::endings::put_lines;
use crate::last::{LastPiece, last_piece};
use crate::pieces::{ClassPiece, ClassTold, piece_of_class};
use crate::tally::{Tally, both, line_tally, no_tally};
use dj_causes::ClassCause;
use dj_class::{BrokenKind, ClassFile};
use dj_load::{Found, FoundFiles};
use dj_names::ClassName;
use dj_outer::{Failed, Sink};
use dj_report::{broken_line, clash_line, put_piece, put_refused_class_line, refused_class_tail};
use dj_world::ClashKind;
use std::alloc::{AllocError, Global};

/// Why not everything was told.
#[derive(Drop)]
pub enum TellStop {
    /// The text could not be written.
    Text,
    /// The report could not be written.
    Report,
    Memory(AllocError),
}

impl From<AllocError> for TellStop {
    ghost use Rattle.std.specs.Prelude.{◌≡◌};
    ghost use Rattle.dj_cli.specs.declared.telling.TellStop.TheVariants.{Memory};

    ghost from_gives = { λ error stop. stop ≡ Memory error };

    fn from(error: AllocError) -> TellStop {
        TellStop::Memory(error)
    }
}

/// Puts the text of a class: the line that names its file, and then its unit.
fn put_text<T: Sink>(text: &mut T, piece: &ClassPiece) -> Result<(), Failed>
    ensures puts { Puts result (T.taken text.old) (T.taken text.new) (T.faults text.old) (T.faults text.new) (text_bytes piece.now) }
{
    put_piece(text, piece.line.as_slice())?;
    put_piece(text, piece.unit.as_slice())
}

/// Puts the lines on a class: those on its fields, and then those on its methods.
fn put_report<P: Sink>(
    report: &mut P,
    class: &ClassName,
    piece: &ClassPiece<'_>,
) -> Result<(), Failed>
    ensures puts { Puts result (P.taken report.old) (P.taken report.new) (P.faults report.old) (P.faults report.new) (report_bytes class.now piece.now) }
{
    put_lines(report, class, piece.fields.as_slice())?;
    put_lines(report, class, piece.methods.as_slice())
}

/// Whether a piece of a class has a line.
fn has_line(piece: &ClassPiece<'_>) -> bool
    ensures line { (class : List ℕ) → MatchBool result (report_bytes class piece.now ≢ []) (report_bytes class piece.now ≡ []) }
{
    let fields = !piece.fields.is_empty();
    let methods = !piece.methods.is_empty();
    fields | methods
}

/// Tells a piece of a class that is printed: its text, and then its lines, for which no memory is taken.
fn tell_printed<T: Sink, P: Sink>(
    class: &ClassName,
    piece: &ClassPiece<'_>,
    text: &mut T,
    report: &mut P,
) -> Result<Tally, TellStop>
    ensures told { IfOk result (λ tally. TellsPiece (λ told. told ≡ piece_of class.now piece.now) tally (T.taken text.old) (T.taken text.new) (P.taken report.old) (P.taken report.new)) }
    ensures stopped { IfErr result (λ stop. StopsPiece (λ told. told ≡ piece_of class.now piece.now) stop (T.taken text.old) (T.taken text.new) (P.taken report.old) (P.taken report.new)) }
    ensures failed { IfErr result (λ stop. StoppedTelling stop (Rose (T.faults text.old) (T.faults text.new)) (Rose (P.faults report.old) (P.faults report.new)) (Unit {0})) }

    // What the call leaves.
    ensures text_falls { T.faults text.old ≤ T.faults text.new }
    ensures report_falls { P.faults report.old ≤ P.faults report.new }
    ensures calm { IsCalm result (T.faults text.old) (T.faults text.new) (P.faults report.old) (P.faults report.new) }
{
    if let Err(Failed) = put_text(text, piece) {
        return Err(TellStop::Text);
    }
    if let Err(Failed) = put_report(report, class, piece) {
        return Err(TellStop::Report);
    }
    Ok(Tally {
        has_line: has_line(piece),
        printed: piece.printed,
        refused: piece.methods.len(),
    })
}

/// Tells the line on a class that is refused, with so many methods.
fn tell_refused<P: Sink>(
    alloc: Global,
    class: &ClassName,
    cause: &ClassCause,
    methods: usize,
    report: &mut P,
) -> Result<Tally, TellStop>
    ensures told { (text : Option (List ℕ)) → IfOk result (λ tally. TellsPiece (λ told. told ≡ refused_piece class.now cause.now methods) tally text text (P.taken report.old) (P.taken report.new)) }
    ensures stopped { (text : Option (List ℕ)) → IfErr result (λ stop. StopsPiece (λ told. told ≡ refused_piece class.now cause.now methods) stop text text (P.taken report.old) (P.taken report.new)) }
    ensures failed { IfErr result (λ stop. StoppedTelling stop ⊥ (Rose (P.faults report.old) (P.faults report.new)) (Unit {0})) }
    ensures report_falls { P.faults report.old ≤ P.faults report.new }
    ensures calm { (faults : ℕ) → IsCalm result faults faults (P.faults report.old) (P.faults report.new) }
{
    let tail = refused_class_tail(alloc, cause)?;
    match put_refused_class_line(report, class, tail.as_str()) {
        Ok(()) => Ok(line_tally(methods)),
        Err(Failed) => Err(TellStop::Report),
    }
}

/// Tells the piece of a class of the world.
fn tell_class<T: Sink, P: Sink>(
    alloc: Global,
    basis: &Basis<'_>,
    class: &ClassFile,
    text: &mut T,
    report: &mut P,
) -> Result<Tally, TellStop>
    requires of_file { IsFromFile (view_class class.now) }
    ensures told { IfOk result (λ tally. TellsPiece (IsClassPiece basis.now.world.now (view_class class.now)) tally (T.taken text.old) (T.taken text.new) (P.taken report.old) (P.taken report.new)) }
    ensures stopped { IfErr result (λ stop. StopsPiece (IsClassPiece basis.now.world.now (view_class class.now)) stop (T.taken text.old) (T.taken text.new) (P.taken report.old) (P.taken report.new)) }
    ensures failed { IfErr result (λ stop. StoppedTelling stop (Rose (T.faults text.old) (T.faults text.new)) (Rose (P.faults report.old) (P.faults report.new)) (Unit {0})) }

    // What the call leaves.
    ensures text_falls { T.faults text.old ≤ T.faults text.new }
    ensures report_falls { P.faults report.old ≤ P.faults report.new }
    ensures calm { IsCalm result (T.faults text.old) (T.faults text.new) (P.faults report.old) (P.faults report.new) }
{
    match piece_of_class(alloc, basis, class)? {
        ClassTold::Printed(piece) => tell_printed(&class.this_class, &piece, text, report),
        ClassTold::Refused(cause) => {
            let methods = class.methods.len();
            tell_refused(alloc, &class.this_class, &cause, methods, report)
        }
    }
}

/// Tells the line on a file that is broken.
fn tell_broken<P: Sink>(
    alloc: Global,
    path: &str,
    kind: BrokenKind,
    offset: u32,
    report: &mut P,
) -> Result<Tally, TellStop>
    ensures told { (world : WorldOf) (text : Option (List ℕ)) → IfOk result (λ tally. TellsPiece (IsFilePiece world path.now (IsBroken kind offset)) tally text text (P.taken report.old) (P.taken report.new)) }
    ensures stopped { (world : WorldOf) (text : Option (List ℕ)) → IfErr result (λ stop. StopsPiece (IsFilePiece world path.now (IsBroken kind offset)) stop text text (P.taken report.old) (P.taken report.new)) }
    ensures failed { IfErr result (λ stop. StoppedTelling stop ⊥ (Rose (P.faults report.old) (P.faults report.new)) (Unit {0})) }
    ensures report_falls { P.faults report.old ≤ P.faults report.new }
    ensures calm { (faults : ℕ) → IsCalm result faults faults (P.faults report.old) (P.faults report.new) }
{
    let line = broken_line(alloc, path, kind, offset)?;
    match put_piece(report, line.as_slice()) {
        Ok(()) => Ok(line_tally(0)),
        Err(Failed) => Err(TellStop::Report),
    }
}

/// Tells the line on a file whose class clashes with those before it.
fn tell_clash<P: Sink>(
    alloc: Global,
    path: &str,
    kind: ClashKind,
    report: &mut P,
) -> Result<Tally, TellStop>
    ensures told { (world : WorldOf) (text : Option (List ℕ)) → IfOk result (λ tally. TellsPiece (IsFilePiece world path.now (IsClash kind)) tally text text (P.taken report.old) (P.taken report.new)) }
    ensures stopped { (world : WorldOf) (text : Option (List ℕ)) → IfErr result (λ stop. StopsPiece (IsFilePiece world path.now (IsClash kind)) stop text text (P.taken report.old) (P.taken report.new)) }
    ensures failed { IfErr result (λ stop. StoppedTelling stop ⊥ (Rose (P.faults report.old) (P.faults report.new)) (Unit {0})) }
    ensures report_falls { P.faults report.old ≤ P.faults report.new }
    ensures calm { (faults : ℕ) → IsCalm result faults faults (P.faults report.old) (P.faults report.new) }
{
    let line = clash_line(alloc, path, kind)?;
    match put_piece(report, line.as_slice()) {
        Ok(()) => Ok(line_tally(0)),
        Err(Failed) => Err(TellStop::Report),
    }
}

/// Tells the piece of a file of this path.
fn tell_file<T: Sink, P: Sink>(
    alloc: Global,
    basis: &Basis<'_>,
    path: &str,
    found: &Found,
    text: &mut T,
    report: &mut P,
) -> Result<Tally, TellStop>
    requires of_file { IsOfFile (found_of found.now) }
    ensures told { IfOk result (λ tally. TellsPiece (IsFilePiece basis.now.world.now path.now (found_of found.now)) tally (T.taken text.old) (T.taken text.new) (P.taken report.old) (P.taken report.new)) }
    ensures stopped { IfErr result (λ stop. StopsPiece (IsFilePiece basis.now.world.now path.now (found_of found.now)) stop (T.taken text.old) (T.taken text.new) (P.taken report.old) (P.taken report.new)) }
    ensures failed { IfErr result (λ stop. StoppedTelling stop (Rose (T.faults text.old) (T.faults text.new)) (Rose (P.faults report.old) (P.faults report.new)) (Unit {0})) }

    // What the call leaves.
    ensures text_falls { T.faults text.old ≤ T.faults text.new }
    ensures report_falls { P.faults report.old ≤ P.faults report.new }
    ensures calm { IsCalm result (T.faults text.old) (T.faults text.new) (P.faults report.old) (P.faults report.new) }
{
    match found {
        Found::Class(class) => tell_class(alloc, basis, class, text, report),
        Found::Clash(kind) => tell_clash(alloc, path, *kind, report),
        Found::Broken { kind, offset } => tell_broken(alloc, path, *kind, *offset, report),
    }
}

/// Puts bytes, where there are any.
fn put_some<S: Sink>(sink: &mut S, bytes: &[u8]) -> Result<(), Failed>
    ensures puts { Puts result (S.taken sink.old) (S.taken sink.new) (S.faults sink.old) (S.faults sink.new) bytes.now }
{
    if bytes.is_empty() {
        return Ok(());
    }
    put_piece(sink, bytes)
}

/// Tells the piece behind those of the files.
fn tell_last<T: Sink, P: Sink>(
    piece: &LastPiece,
    text: &mut T,
    report: &mut P,
) -> Result<Tally, TellStop>
    ensures told { IfOk result (λ tally. TellsPiece (λ told. told ≡ end_piece piece.now) tally (T.taken text.old) (T.taken text.new) (P.taken report.old) (P.taken report.new)) }
    ensures stopped { IfErr result (λ stop. StopsPiece (λ told. told ≡ end_piece piece.now) stop (T.taken text.old) (T.taken text.new) (P.taken report.old) (P.taken report.new)) }
    ensures failed { IfErr result (λ stop. StoppedTelling stop (Rose (T.faults text.old) (T.faults text.new)) (Rose (P.faults report.old) (P.faults report.new)) (Unit {0})) }

    // What the call leaves.
    ensures text_falls { T.faults text.old ≤ T.faults text.new }
    ensures report_falls { P.faults report.old ≤ P.faults report.new }
    ensures calm { IsCalm result (T.faults text.old) (T.faults text.new) (P.faults report.old) (P.faults report.new) }
{
    match put_some(text, piece.text.as_slice()) {
        Ok(()) => {}
        Err(Failed) => return Err(TellStop::Text),
    }
    match put_some(report, piece.lines.as_slice()) {
        Ok(()) => Ok(Tally {
            has_line: !piece.lines.is_empty(),
            printed: 0,
            refused: 0,
        }),
        Err(Failed) => Err(TellStop::Report),
    }
}

/// Tells the pieces of files of these names, which the program may have made, in order, and then the last piece;
/// whether one has a line.
pub fn tell_files<T: Sink, P: Sink>(
    alloc: Global,
    named: &[String],
    made: bool,
    files: &FoundFiles,
    text: &mut T,
    report: &mut P,
) -> Result<bool, TellStop>
    requires few { length named.now ≤ most_files }
    requires number { length files.now.found.items ≡ length named.now }
    requires library { length files.now.library.items ≡ length files.now.paths.items }
    requires of_files { All (λ found. IsOfFile (found_of found)) files.now.found.items }
    ensures told { IfOk result (λ refused. ToldAll refused (T.taken text.old) (T.taken text.new) (P.taken report.old) (P.taken report.new) (source_of named.now made) (finds_of files.now) files.now.world) }
    ensures stopped { IfErr result (λ stop. StoppedTelling stop (ToldFront InText (T.taken text.old) (T.taken text.new) (P.taken report.old) (P.taken report.new) (source_of named.now made) (finds_of files.now) files.now.world) (ToldFront InLines (T.taken text.old) (T.taken text.new) (P.taken report.old) (P.taken report.new) (source_of named.now made) (finds_of files.now) files.now.world) (ToldSome (T.taken text.old) (T.taken text.new) (P.taken report.old) (P.taken report.new) (source_of named.now made) (finds_of files.now) files.now.world)) }
    ensures failed { IfErr result (λ stop. StoppedTelling stop (Rose (T.faults text.old) (T.faults text.new)) (Rose (P.faults report.old) (P.faults report.new)) (Unit {0})) }

    // What the call leaves.
    ensures text_falls { T.faults text.old ≤ T.faults text.new }
    ensures report_falls { P.faults report.old ≤ P.faults report.new }
    ensures calm { IsCalm result (T.faults text.old) (T.faults text.new) (P.faults report.old) (P.faults report.new) }
{
    let basis = basis_of(alloc, &files.world)?;
    let found = files.found.as_slice();
    let mut tally = no_tally();
    for place in 0..named.len() {
        let one = tell_file(
            alloc,
            &basis,
            named[place].as_str(),
            &found[place],
            text,
            report,
        )?;
        tally = both(tally, one);
    }
    let last = last_piece(alloc, named.len(), made, tally, files)?;
    let end = tell_last(&last, text, report)?;
    Ok(tally.has_line | end.has_line)
}
