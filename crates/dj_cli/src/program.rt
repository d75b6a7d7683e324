//! The main job: the words are read, the files are loaded and read, and the piece of each is told.

ghost use Rattle.std.specs.Prelude.{◌≡◌, ◌≤◌, ◌⊎◌, Bool, true, false, Ok, Err, All, length, map, IsOk, OnErr, ⊤};
ghost use Rattle.std.specs.Io.KnownBytes.{append_known};
ghost use Rattle.std.specs.String.{string_bytes};
ghost use Rattle.dj_outer.specs.Count.{Rose};
ghost use Rattle.dj_outer.specs.Sink.{TakesPrefix};
ghost use Rattle.std.specs.Option.{option_map};
ghost use Rattle.dj_report.specs.Status.{MatchEnd, OnClean, OnRefused, IfUsage, IfReadFault, OnTextFault, OnReportFault, IfTooMuch, OnLoaded, UnlessReadFault, UnlessReportFault, UnlessTextFault};
ghost use Rattle.dj_report.specs.Report.{Line};
ghost use Rattle.dj_cli.specs.Output.{InLines, InText, OfFiles, OfMade, StopsForMemory, ToldAll, ToldFront, ToldSome};
ghost use Rattle.dj_words.specs.Orders.{Files, order_of};
ghost use Rattle.dj_load.specs.HeldFiles.{OfDue, most_files};
ghost use Rattle.dj_load.specs.Loads.{AsksFront, IsTooMuch, ReadFails, asked_with};
ghost use Rattle.dj_cli.specs.Program.{CutsLastLine, OfOrder, TellsLine, list_of, named_of};
ghost use Rattle.dj_load.specs.Loading.{finds_of, found_of};
ghost use Rattle.dj_cli.specs.Pieces.{IsOfFile};
ghost use Rattle.dj_cli.specs.Run.{EndsSo};
ghost use Rattle.dj_cli.specs.Telling.{source_of};

use crate::telling::{TellStop, tell_files};
use dj_load::{FoundFiles, LoadStop, load_order, read_files};
use dj_making::{made_files, made_names};
use dj_outer::{Files, Sink};
use dj_report::{Status, much_line, read_line, usage_line};
use dj_words::{Order, WordsFault, read_words};
use std::alloc::{AllocError, Global};
use std::mem;

/// Puts one last line, and ends with this status.
fn last_line<P: Sink>(report: &mut P, line: &[u8], status: Status) -> Status
    ensures ends { EndsSo result status (P.taken report.new ≡ append_known (P.taken report.old) line.now) (Rose (P.faults report.old) (P.faults report.new) × TakesPrefix (P.taken report.old) (P.taken report.new) line.now) }
    ensures calm { EndsSo result status (P.faults report.new ≡ P.faults report.old) ⊤ }
    ensures never_falls { P.faults report.old ≤ P.faults report.new }
{
    match report.put(line) {
        Ok(()) => status,
        Err(_) => Status::ReportFault,
    }
}

/// Tells the pieces of files of these names, which the program may have made.
fn tell<T: Sink, P: Sink>(
    alloc: Global,
    named: &[String],
    made: bool,
    files: &FoundFiles,
    text: &mut T,
    report: &mut P,
) -> Result<Status, AllocError>
    requires few { length named.now ≤ most_files }
    requires number { length files.now.found.items ≡ length named.now }
    requires library { length files.now.library.items ≡ length files.now.paths.items }
    requires of_files { All (λ found. IsOfFile (found_of found)) files.now.found.items }
    ensures clean { OnClean result (ToldAll false (T.taken text.old) (T.taken text.new) (P.taken report.old) (P.taken report.new) (source_of named.now made) (finds_of files.now) files.now.world) }
    ensures refused { OnRefused result (ToldAll true (T.taken text.old) (T.taken text.new) (P.taken report.old) (P.taken report.new) (source_of named.now made) (finds_of files.now) files.now.world) }
    ensures text_rose { OnTextFault result (Rose (T.faults text.old) (T.faults text.new)) }
    ensures text_fault { OnTextFault result (ToldFront InText (T.taken text.old) (T.taken text.new) (P.taken report.old) (P.taken report.new) (source_of named.now made) (finds_of files.now) files.now.world) }
    ensures report_rose { OnReportFault result (Rose (P.faults report.old) (P.faults report.new)) }
    ensures report_fault { OnReportFault result (ToldFront InLines (T.taken text.old) (T.taken text.new) (P.taken report.old) (P.taken report.new) (source_of named.now made) (finds_of files.now) files.now.world) }
    ensures memory { OnErr result (ToldSome (T.taken text.old) (T.taken text.new) (P.taken report.old) (P.taken report.new) (source_of named.now made) (finds_of files.now) files.now.world) }
    ensures no_other { MatchEnd result ⊤ ⊤ (λ _. ⊥) (λ _. ⊥) ⊤ ⊤ (λ _. ⊥) }
    ensures text_calm { UnlessTextFault result (T.faults text.new ≡ T.faults text.old) }
    ensures report_calm { UnlessReportFault result (P.faults report.new ≡ P.faults report.old) }
{
    match tell_files(alloc, named, made, files, text, report) {
        Ok(false) => Ok(Status::Clean),
        Ok(true) => Ok(Status::Refused),
        Err(TellStop::Text) => Ok(Status::TextFault),
        Err(TellStop::Report) => Ok(Status::ReportFault),
        Err(TellStop::Memory(error)) => Err(error),
    }
}

/// Prints the files of these names, beside those of the list of library files, if one is named.
fn print_files<F: Files, T: Sink, P: Sink>(
    alloc: Global,
    named: &[String],
    list: &Option<String>,
    files: &mut F,
    text: &mut T,
    report: &mut P,
) -> Result<Status, AllocError>
    ensures clean { OnClean result (OfFiles (F.held files.old) (map string_bytes named.now) (option_map string_bytes list.now) (ToldAll false (T.taken text.old) (T.taken text.new) (P.taken report.old) (P.taken report.new))) }
    ensures refused { OnRefused result (OfFiles (F.held files.old) (map string_bytes named.now) (option_map string_bytes list.now) (ToldAll true (T.taken text.old) (T.taken text.new) (P.taken report.old) (P.taken report.new))) }
    ensures usage { IfUsage result (λ kind. ⊥) }
    ensures read { IfReadFault result (λ place. OfDue (F.held files.old) (map string_bytes named.now) (option_map string_bytes list.now) (λ due. ReadFails (F.held files.old) due (F.asked files.old) (F.asked files.new) (F.faults files.old) (F.faults files.new) place)) }
    ensures read_line { IfReadFault result (λ place. TellsLine (Line.Read place) (T.taken text.old) (T.taken text.new) (P.taken report.old) (P.taken report.new)) }
    ensures much { IfTooMuch result (λ place. OfDue (F.held files.old) (map string_bytes named.now) (option_map string_bytes list.now) (λ due. IsTooMuch (F.held files.old) due (F.asked files.old) (F.asked files.new) place)) }
    ensures much_line { IfTooMuch result (λ place. TellsLine (Line.Much place) (T.taken text.old) (T.taken text.new) (P.taken report.old) (P.taken report.new)) }
    ensures text_rose { OnTextFault result (Rose (T.faults text.old) (T.faults text.new)) }
    ensures text_fault { OnTextFault result (OfFiles (F.held files.old) (map string_bytes named.now) (option_map string_bytes list.now) (ToldFront InText (T.taken text.old) (T.taken text.new) (P.taken report.old) (P.taken report.new))) }
    ensures report_rose { OnReportFault result (Rose (P.faults report.old) (P.faults report.new)) }
    ensures report_fault { (raw : Bool) → OnReportFault result (OfFiles (F.held files.old) (map string_bytes named.now) (option_map string_bytes list.now) (ToldFront InLines (T.taken text.old) (T.taken text.new) (P.taken report.old) (P.taken report.new))
        ⊎ CutsLastLine (Ok (Files (map string_bytes named.now) (option_map string_bytes list.now) raw)) (F.held files.old) (F.asked files.old) (F.asked files.new) (F.faults files.old) (F.faults files.new) (T.taken text.old) (T.taken text.new) (P.taken report.old) (P.taken report.new)) }
    ensures memory { OnErr result (StopsForMemory (T.taken text.old) (T.taken text.new) (P.taken report.old) (P.taken report.new) (OfFiles (F.held files.old) (map string_bytes named.now) (option_map string_bytes list.now) (ToldSome (T.taken text.old) (T.taken text.new) (P.taken report.old) (P.taken report.new)))) }

    // What the call asks for and leaves.
    ensures asked { OfDue (F.held files.old) (map string_bytes named.now) (option_map string_bytes list.now) (AsksFront (F.asked files.old) (F.asked files.new)) }
    ensures asked_all { OnLoaded result (OfDue (F.held files.old) (map string_bytes named.now) (option_map string_bytes list.now) (λ due. F.asked files.new ≡ asked_with (F.asked files.old) due)) }
    ensures kept { F.held files.new ≡ F.held files.old }

    // Where no fault is counted.
    ensures read_calm { UnlessReadFault result (F.faults files.new ≡ F.faults files.old) }
    ensures text_calm { UnlessTextFault result (T.faults text.new ≡ T.faults text.old) }
    ensures report_calm { UnlessReportFault result (P.faults report.new ≡ P.faults report.old) }
{
    match load_order(alloc, named, list, files) {
        Ok(contents) => {
            let found = read_files(alloc, contents)?;
            let told = tell(alloc, named, false, &found, text, report);
            // The run ends here, and the system takes all of it back at once.
            mem::forget(found);
            told
        }
        Err(LoadStop::Fault(place)) => {
            let line = read_line(alloc, place)?;
            Ok(last_line(report, line.as_slice(), Status::ReadFault(place)))
        }
        Err(LoadStop::Over(place)) => {
            let line = much_line(alloc, place)?;
            Ok(last_line(report, line.as_slice(), Status::TooMuch(place)))
        }
        Err(LoadStop::Memory(error)) => Err(error),
    }
}

/// Prints so many files that the program makes.
fn print_made<T: Sink, P: Sink>(
    alloc: Global,
    number: u32,
    text: &mut T,
    report: &mut P,
) -> Result<Status, AllocError>
    requires few { number ≤ 1000 }
    ensures clean { OnClean result (OfMade number (ToldAll false (T.taken text.old) (T.taken text.new) (P.taken report.old) (P.taken report.new))) }
    ensures refused { OnRefused result (OfMade number (ToldAll true (T.taken text.old) (T.taken text.new) (P.taken report.old) (P.taken report.new))) }
    ensures text_rose { OnTextFault result (Rose (T.faults text.old) (T.faults text.new)) }
    ensures text_fault { OnTextFault result (OfMade number (ToldFront InText (T.taken text.old) (T.taken text.new) (P.taken report.old) (P.taken report.new))) }
    ensures report_rose { OnReportFault result (Rose (P.faults report.old) (P.faults report.new)) }
    ensures report_fault { OnReportFault result (OfMade number (ToldFront InLines (T.taken text.old) (T.taken text.new) (P.taken report.old) (P.taken report.new))) }
    ensures memory { OnErr result (StopsForMemory (T.taken text.old) (T.taken text.new) (P.taken report.old) (P.taken report.new) (OfMade number (ToldSome (T.taken text.old) (T.taken text.new) (P.taken report.old) (P.taken report.new)))) }
    ensures no_other { MatchEnd result ⊤ ⊤ (λ _. ⊥) (λ _. ⊥) ⊤ ⊤ (λ _. ⊥) }
    ensures text_calm { UnlessTextFault result (T.faults text.new ≡ T.faults text.old) }
    ensures report_calm { UnlessReportFault result (P.faults report.new ≡ P.faults report.old) }
{
    let named = made_names(alloc, number)?;
    let contents = made_files(alloc, number)?;
    let found = read_files(alloc, contents)?;
    tell(alloc, named.as_slice(), true, &found, text, report)
}

/// Prints each class file that the words name as Java to `text`, and a line for each refusal to `report`.
///
/// The first word is the program's name. Files are loaded in order, or made where the words order that, read, and
/// added to the world, into which the core classes are filled; and then the text of each is put before its lines.
/// Behind made files the text has one line on them. After Usage, ReadFault and TooMuch one last line is put. Want of
/// memory may come instead of any answer. What was read of files that were loaded isn't freed, since a program ends
/// behind its run.
pub fn run<F: Files, T: Sink, P: Sink>(
    alloc: Global,
    words: &[String],
    files: &mut F,
    text: &mut T,
    report: &mut P,
) -> Result<Status, AllocError>
    // What was told after a whole run.
    ensures ordered { OnLoaded result (IsOk (order_of (map string_bytes words.now))) }
    ensures clean { OnClean result (OfOrder (F.held files.old) (order_of (map string_bytes words.now)) (ToldAll false (T.taken text.old) (T.taken text.new) (P.taken report.old) (P.taken report.new))) }
    ensures refused { OnRefused result (OfOrder (F.held files.old) (order_of (map string_bytes words.now)) (ToldAll true (T.taken text.old) (T.taken text.new) (P.taken report.old) (P.taken report.new))) }

    // When each other answer comes, and what was told then.
    ensures usage { IfUsage result (λ kind. order_of (map string_bytes words.now) ≡ Err kind) }
    ensures usage_line { IfUsage result (λ kind. TellsLine (Line.Usage kind) (T.taken text.old) (T.taken text.new) (P.taken report.old) (P.taken report.new)) }
    ensures read { IfReadFault result (λ place. OfDue (F.held files.old) (named_of (order_of (map string_bytes words.now))) (list_of (order_of (map string_bytes words.now))) (λ due. ReadFails (F.held files.old) due (F.asked files.old) (F.asked files.new) (F.faults files.old) (F.faults files.new) place)) }
    ensures read_line { IfReadFault result (λ place. TellsLine (Line.Read place) (T.taken text.old) (T.taken text.new) (P.taken report.old) (P.taken report.new)) }
    ensures much { IfTooMuch result (λ place. OfDue (F.held files.old) (named_of (order_of (map string_bytes words.now))) (list_of (order_of (map string_bytes words.now))) (λ due. IsTooMuch (F.held files.old) due (F.asked files.old) (F.asked files.new) place)) }
    ensures much_line { IfTooMuch result (λ place. TellsLine (Line.Much place) (T.taken text.old) (T.taken text.new) (P.taken report.old) (P.taken report.new)) }
    ensures text_rose { OnTextFault result (Rose (T.faults text.old) (T.faults text.new)) }
    ensures text_fault { OnTextFault result (OfOrder (F.held files.old) (order_of (map string_bytes words.now)) (ToldFront InText (T.taken text.old) (T.taken text.new) (P.taken report.old) (P.taken report.new))) }
    ensures report_rose { OnReportFault result (Rose (P.faults report.old) (P.faults report.new)) }
    ensures report_fault { OnReportFault result (OfOrder (F.held files.old) (order_of (map string_bytes words.now)) (ToldFront InLines (T.taken text.old) (T.taken text.new) (P.taken report.old) (P.taken report.new))
        ⊎ CutsLastLine (order_of (map string_bytes words.now)) (F.held files.old) (F.asked files.old) (F.asked files.new) (F.faults files.old) (F.faults files.new) (T.taken text.old) (T.taken text.new) (P.taken report.old) (P.taken report.new)) }
    ensures memory { OnErr result (StopsForMemory (T.taken text.old) (T.taken text.new) (P.taken report.old) (P.taken report.new) (OfOrder (F.held files.old) (order_of (map string_bytes words.now)) (ToldSome (T.taken text.old) (T.taken text.new) (P.taken report.old) (P.taken report.new)))) }

    // What the call asks for and leaves, whatever it answers.
    ensures asked { OfDue (F.held files.old) (named_of (order_of (map string_bytes words.now))) (list_of (order_of (map string_bytes words.now))) (AsksFront (F.asked files.old) (F.asked files.new)) }
    ensures asked_all { OnLoaded result (OfDue (F.held files.old) (named_of (order_of (map string_bytes words.now))) (list_of (order_of (map string_bytes words.now))) (λ due. F.asked files.new ≡ asked_with (F.asked files.old) due)) }
    ensures kept { F.held files.new ≡ F.held files.old }

    // Where no fault is counted.
    ensures read_calm { UnlessReadFault result (F.faults files.new ≡ F.faults files.old) }
    ensures text_calm { UnlessTextFault result (T.faults text.new ≡ T.faults text.old) }
    ensures report_calm { UnlessReportFault result (P.faults report.new ≡ P.faults report.old) }
{
    match read_words(alloc, words) {
        Ok(Order::Files { named, list, .. }) => {
            print_files(alloc, named.as_slice(), &list, files, text, report)
        }
        Ok(Order::Make(number)) => print_made(alloc, number, text, report),
        Err(WordsFault::Usage(kind)) => {
            let line = usage_line(alloc, kind)?;
            Ok(last_line(report, line.as_slice(), Status::Usage(kind)))
        }
        Err(WordsFault::Memory(error)) => Err(error),
    }
}
