//! The lines on classes, fields and methods that are refused: the ends of lines, by their causes, and the lines on classes and fields, which take no memory: one on a field that isn't long is put in one piece, and each other line piece by piece.

ghost use Rattle.std.specs.Prelude.{◌≡◌, ◌++◌, IfOk, string_bytes};
ghost use Rattle.dj_names.specs.Shown.{show_units};
ghost use Rattle.dj_names.specs.Types.{view_type};
ghost use Rattle.dj_outer.specs.Sink.{Puts};
ghost use Rattle.dj_report.specs.Report.{refused_class_tail, refused_field_tail, refused_method_tail, shown_field};

use crate::putting::{put_piece, put_type, put_units};
use dj_causes::{Cause, ClassCause, FieldCause};
use dj_names::{ClassName, JType, Units};
use dj_outer::{Failed, Sink};
use std::alloc::{AllocError, Global};

/// The end of the line on a class that is refused for this cause.
pub fn refused_class_tail(alloc: Global, cause: &ClassCause) -> Result<String, AllocError>
    ensures tail { IfOk result (λ tail. string_bytes tail ≡ refused_class_tail cause.now) }
{
    match cause {
        ClassCause::Enum => String::from_str(alloc, " refused Enum\n"),
        ClassCause::Annotation => String::from_str(alloc, " refused Annotation\n"),
        ClassCause::Package => String::from_str(alloc, " refused Package\n"),
        ClassCause::Root => String::from_str(alloc, " refused Root\n"),
        ClassCause::Name(name) => format!(in alloc; " refused Name {name}\n"),
        ClassCause::Constant(name) => format!(in alloc; " refused Constant {name}\n"),
    }
}

/// The end of the line on a field that is refused for this cause.
pub fn refused_field_tail(alloc: Global, cause: &FieldCause) -> Result<String, AllocError>
    ensures tail { IfOk result (λ tail. string_bytes tail ≡ refused_field_tail cause.now) }
{
    match cause {
        FieldCause::Name(name) => format!(in alloc; " refused Name {name}\n"),
        FieldCause::Signature => String::from_str(alloc, " refused Signature\n"),
        FieldCause::Constant => String::from_str(alloc, " refused Constant\n"),
    }
}

/// The end of the line on a method that is refused for this cause.
pub fn refused_method_tail(alloc: Global, cause: &Cause) -> Result<String, AllocError>
    ensures tail { IfOk result (λ tail. string_bytes tail ≡ refused_method_tail cause.now) }
{
    match cause {
        Cause::Float(pc) => format!(in alloc; " refused Float {pc}\n"),
        Cause::Dynamic(pc) => format!(in alloc; " refused Dynamic {pc}\n"),
        Cause::Missing(class) => format!(in alloc; " refused Missing {class}\n"),
        Cause::Name(name) => format!(in alloc; " refused Name {name}\n"),
        Cause::Signature => String::from_str(alloc, " refused Signature\n"),
        Cause::Member(pc) => format!(in alloc; " refused Member {pc}\n"),
        Cause::Interface(pc) => format!(in alloc; " refused Interface {pc}\n"),
        Cause::Monitor(pc) => format!(in alloc; " refused Monitor {pc}\n"),
        Cause::BeforeSuper(pc) => format!(in alloc; " refused BeforeSuper {pc}\n"),
        Cause::Unborn(pc) => format!(in alloc; " refused Unborn {pc}\n"),
        Cause::Large(size) => format!(in alloc; " refused Large {size}\n"),
    }
}

/// Puts the line on a class, by its name, with this end.
pub fn put_refused_class_line<P: Sink>(
    report: &mut P,
    class: &ClassName,
    tail: &str,
) -> Result<(), Failed>
    ensures puts { Puts result (P.taken report.old) (P.taken report.new) (P.faults report.old) (P.faults report.new) (show_units class.now ++ tail.now) }
{
    put_units(report, class.as_slice())?;
    put_piece(report, tail.as_bytes())
}

/// Puts the line on a field of a class, by its name and its type, with this end, piece by piece.
pub fn put_field_line<P: Sink>(
    report: &mut P,
    class: &ClassName,
    name: &Units,
    kind: &JType,
    tail: &str,
) -> Result<(), Failed>
    ensures puts { Puts result (P.taken report.old) (P.taken report.new) (P.faults report.old) (P.faults report.new) (shown_field class.now name.now (view_type kind.now) ++ tail.now) }
{
    put_units(report, class.as_slice())?;
    put_piece(report, b".")?;
    put_units(report, name.as_slice())?;
    put_piece(report, b":")?;
    put_type(report, kind)?;
    put_piece(report, tail.as_bytes())
}
