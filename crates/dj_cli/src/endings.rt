//! How the lines on refused fields and methods end. A name is put piece by piece, so that a line takes no room however long it is.

ghost use Rattle.std.specs.Prelude.{◌≡◌, ◌++◌, IfOk};
ghost use Rattle.dj_outer.specs.Sink.{Puts};
ghost use Rattle.dj_report.specs.Report.{refused_field_tail, refused_method_tail};
ghost use Rattle.dj_cli.specs.Lines.{ending_bytes, line_bytes, lines_bytes, subject_bytes};
ghost use Rattle.dj_cli.specs.Gathering.{Gathers};

use dj_causes::{Cause, FieldCause};
use dj_class::Method;
use dj_names::{ClassName, Field, Units};
use dj_outer::{Failed, Sink};
use dj_report::{
    Gathered, put_field_line, put_method_line, put_name_tail, put_piece, refused_field_tail,
    refused_method_tail,
};
use std::alloc::{AllocError, Global};

/// How a line ends.
#[derive(Drop)]
pub enum Ending {
    /// With this text.
    Text(String),
    /// With what is refused for this name.
    Name(Units),
}

/// A field or a method.
#[derive(Clone, Copy)]
pub enum Subject<'a> {
    Field(&'a Field),
    Method(&'a Method),
}

/// The line on a field or a method that isn't printed.
#[derive(Drop)]
pub struct MemberLine<'a> {
    pub subject: Subject<'a>,
    pub ending: Ending,
}

/// How the line on a field ends that is refused for this cause.
pub fn field_ending(alloc: Global, cause: &FieldCause) -> Result<Ending, AllocError>
    ensures ending { IfOk result (λ ending. ending_bytes ending ≡ refused_field_tail cause.now) }
{
    match cause {
        FieldCause::Name(name) => Ok(Ending::Name(name.copy(alloc)?)),
        FieldCause::Signature | FieldCause::Constant => {
            Ok(Ending::Text(refused_field_tail(alloc, cause)?))
        }
    }
}

/// How the line on a method ends that is refused for this cause.
pub fn method_ending(alloc: Global, cause: &Cause) -> Result<Ending, AllocError>
    ensures ending { IfOk result (λ ending. ending_bytes ending ≡ refused_method_tail cause.now) }
{
    match cause {
        Cause::Name(name) => Ok(Ending::Name(name.copy(alloc)?)),
        Cause::Float(_)
        | Cause::Dynamic(_)
        | Cause::Missing(_)
        | Cause::Signature
        | Cause::Member(_)
        | Cause::Interface(_)
        | Cause::Monitor(_)
        | Cause::BeforeSuper(_)
        | Cause::Unborn(_)
        | Cause::Large(_) => Ok(Ending::Text(refused_method_tail(alloc, cause)?)),
    }
}

/// Puts how a line names a field or a method of a class, and then this text.
fn put_subject<P: Sink>(
    report: &mut P,
    class: &ClassName,
    subject: Subject<'_>,
    tail: &str,
) -> Result<(), Failed>
    ensures puts { Puts result (P.taken report.old) (P.taken report.new) (P.faults report.old) (P.faults report.new) (subject_bytes class.now subject.entry ++ tail.now) }
{
    match subject {
        Subject::Field(field) => put_field_line(
            report,
            class,
            &field.name,
            &field.descriptor,
            tail,
        ),
        Subject::Method(method) => put_method_line(
            report,
            class,
            &method.name,
            &method.descriptor,
            tail,
        ),
    }
}

/// Puts the line on a field or a method of a class.
fn put_line<P: Sink>(report: &mut P, class: &ClassName, line: &MemberLine<'_>) -> Result<(), Failed>
    ensures puts { Puts result (P.taken report.old) (P.taken report.new) (P.faults report.old) (P.faults report.new) (line_bytes class.now line.now) }
{
    match &line.ending {
        Ending::Text(tail) => put_subject(report, class, line.subject, tail.as_str()),
        Ending::Name(name) => {
            put_subject(report, class, line.subject, "")?;
            put_name_tail(report, name)
        }
    }
}

/// Gathers the line on a field or a method of a class behind those that are gathered; where it doesn't fit, these are put,
/// and then it.
fn gather_line<P: Sink>(
    report: &mut P,
    class: &ClassName,
    line: &MemberLine<'_>,
    gathered: &mut Gathered,
) -> Result<(), Failed>
    ensures gathers { Gathers result (P.taken report.old) (P.taken report.new) (P.faults report.old) (P.faults report.new) gathered.old.bytes.items gathered.new.bytes.items (line_bytes class.now line.now) }
{
    let before = gathered.bytes.len();
    if let Ok(()) = put_line(gathered, class, line) {
        return Ok(());
    }
    gathered.bytes.truncate(before);
    put_piece(report, gathered.bytes.as_slice())?;
    gathered.bytes.clear();
    put_line(report, class, line)
}

/// Puts lines on fields and methods of a class, in as few pieces as they are gathered in.
pub fn put_lines<P: Sink>(
    report: &mut P,
    class: &ClassName,
    lines: &[MemberLine<'_>],
) -> Result<(), Failed>
    ensures puts { Puts result (P.taken report.old) (P.taken report.new) (P.faults report.old) (P.faults report.new) (lines_bytes class.now lines.now) }
{
    let mut gathered = Gathered::new();
    for line in lines {
        gather_line(report, class, line, &mut gathered)?;
    }
    put_piece(report, gathered.bytes.as_slice())
}
