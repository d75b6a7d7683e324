//! The lines of the report: those that are made whole, and those on methods, which take no memory: one that isn't long is put in one piece, and each other one piece by piece.

ghost use Rattle.std.specs.Prelude.{◌≡◌, ◌++◌, IfOk, string_bytes};
ghost use Rattle.dj_names.specs.Types.{view_descriptor};
ghost use Rattle.dj_outer.specs.Sink.{Puts};
ghost use Rattle.dj_report.specs.Report.{Line, bad_tail, bad_text, broken_text, clash_text, kind_text, line_text, not_yet_tail, path_units, rule_text, shown_method, unverified_tail};

use crate::putting::{put_descriptor, put_piece, put_units};
use dj_instructions::BadKind;
use dj_names::{ClassName, Descriptor, Units};
use dj_outer::{Failed, Sink};
use dj_pool::BrokenKind;
use dj_verify::Rule;
use dj_words::UsageKind;
use dj_world::ClashKind;
use std::alloc::{AllocError, Global};

/// The UTF-16 units of a path.
fn path_units(alloc: Global, path: &str) -> Result<Units, AllocError>
    ensures units { IfOk result (λ units. units ≡ path_units path.now) }
{
    let mut units = Vec::new(alloc);
    for character in path.chars() {
        units.extend_from_slice(character.encode_utf16(&mut [0; 2]))?;
    }
    let units = Units::from_vec(units)?;
    Ok(units)
}

/// The word for what is wrong with a class file.
fn broken_text(kind: BrokenKind) -> &'static str
    ensures text { result.now ≡ broken_text kind }
{
    match kind {
        BrokenKind::Short => "Short",
        BrokenKind::Magic => "Magic",
        BrokenKind::Version => "Version",
        BrokenKind::Tag => "Tag",
        BrokenKind::Index => "Index",
        BrokenKind::Units => "Units",
        BrokenKind::Descriptor => "Descriptor",
        BrokenKind::Trailing => "Trailing",
        BrokenKind::Attribute => "Attribute",
        BrokenKind::Flags => "Flags",
    }
}

/// The line on a file of this path that is broken.
pub fn broken_line(
    alloc: Global,
    path: &str,
    kind: BrokenKind,
    offset: u32,
) -> Result<Vec<u8>, AllocError>
    ensures line { IfOk result (λ line. line.items ≡ line_text (Line.Broken path.now kind offset)) }
{
    let path = path_units(alloc, path)?;
    let kind = broken_text(kind);
    Ok(format!(in alloc; "{path} broken {kind} {offset}\n")?.into_bytes())
}

/// The word for how a class clashes with others.
fn clash_text(kind: ClashKind) -> &'static str
    ensures text { result.now ≡ clash_text kind }
{
    match kind {
        ClashKind::Twice => "Twice",
        ClashKind::Cycle => "Cycle",
        ClashKind::SuperIsFinal => "SuperIsFinal",
        ClashKind::SuperKind => "SuperKind",
    }
}

/// The line on a file of this path whose class clashes with those before it.
pub fn clash_line(alloc: Global, path: &str, kind: ClashKind) -> Result<Vec<u8>, AllocError>
    ensures line { IfOk result (λ line. line.items ≡ line_text (Line.Clash path.now kind)) }
{
    let path = path_units(alloc, path)?;
    let kind = clash_text(kind);
    Ok(format!(in alloc; "{path} clash {kind}\n")?.into_bytes())
}

/// The line on a list of library files of this path that isn't UTF-8.
pub fn list_line(alloc: Global, path: &str) -> Result<Vec<u8>, AllocError>
    ensures line { IfOk result (λ line. line.items ≡ line_text (Line.Unread path.now)) }
{
    let path = path_units(alloc, path)?;
    Ok(format!(in alloc; "{path} list\n")?.into_bytes())
}

/// The end of the line on a method that isn't straight at this offset of its code.
pub fn not_yet_tail(alloc: Global, pc: u32) -> Result<String, AllocError>
    ensures tail { IfOk result (λ tail. string_bytes tail ≡ not_yet_tail pc) }
{
    format!(in alloc; " notyet {pc}\n")
}

/// The word for what is wrong with a method's code.
fn bad_text(kind: BadKind) -> &'static str
    ensures text { result.now ≡ bad_text kind }
{
    match kind {
        BadKind::Opcode => "Opcode",
        BadKind::CutOff => "CutOff",
        BadKind::Target => "Target",
        BadKind::Range => "Range",
        BadKind::Frame => "Frame",
    }
}

/// The end of the line on a method whose code is bad at this offset.
pub fn bad_tail(alloc: Global, kind: BadKind, pc: u32) -> Result<String, AllocError>
    ensures tail { IfOk result (λ tail. string_bytes tail ≡ bad_tail kind pc) }
{
    let kind = bad_text(kind);
    format!(in alloc; " bad {kind} {pc}\n")
}

/// The word for a rule of type checking.
fn rule_text(rule: Rule) -> &'static str
    ensures text { result.now ≡ rule_text rule }
{
    match rule {
        Rule::NoFrame => "NoFrame",
        Rule::Into => "Into",
        Rule::Operands => "Operands",
        Rule::Room => "Room",
        Rule::Target => "Target",
        Rule::Handler => "Handler",
        Rule::Past => "Past",
    }
}

/// The end of the line on a method whose code isn't verified, by the first rule that it breaks, at this offset.
pub fn unverified_tail(alloc: Global, rule: Rule, pc: u32) -> Result<String, AllocError>
    ensures tail { IfOk result (λ tail. string_bytes tail ≡ unverified_tail rule pc) }
{
    let rule = rule_text(rule);
    format!(in alloc; " unverified {rule} {pc}\n")
}

/// Puts the line on a method of a class, by its name and its descriptor, with this end, piece by piece.
pub fn put_method_line<P: Sink>(
    report: &mut P,
    class: &ClassName,
    name: &Units,
    descriptor: &Descriptor,
    tail: &str,
) -> Result<(), Failed>
    ensures puts { Puts result (P.taken report.old) (P.taken report.new) (P.faults report.old) (P.faults report.new) (shown_method class.now name.now (view_descriptor descriptor.now) ++ tail.now) }
{
    put_units(report, class.as_slice())?;
    put_piece(report, b".")?;
    put_units(report, name.as_slice())?;
    put_descriptor(report, descriptor)?;
    put_piece(report, tail.as_bytes())
}

/// The line on the words.
pub fn usage_line(alloc: Global, kind: UsageKind) -> Result<Vec<u8>, AllocError>
    ensures line { IfOk result (λ line. line.items ≡ line_text (Line.Usage kind)) }
{
    let kind = kind_text(kind);
    Ok(format!(in alloc; "usage {kind}\n")?.into_bytes())
}

/// The word for what is wrong with words.
fn kind_text(kind: UsageKind) -> &'static str
    ensures text { result.now ≡ kind_text kind }
{
    match kind {
        UsageKind::Words => "Words",
        UsageKind::NoFile => "NoFile",
        UsageKind::TwoOrders => "TwoOrders",
        UsageKind::Number => "Number",
    }
}

/// The line on a file that couldn't be read, by its place.
pub fn read_line(alloc: Global, place: u32) -> Result<Vec<u8>, AllocError>
    ensures line { IfOk result (λ line. line.items ≡ line_text (Line.Read place)) }
{
    Ok(format!(in alloc; "read {place}\n")?.into_bytes())
}

/// The line on a run that has too much to load, by the place of what is too much.
pub fn much_line(alloc: Global, place: u32) -> Result<Vec<u8>, AllocError>
    ensures line { IfOk result (λ line. line.items ≡ line_text (Line.Much place)) }
{
    Ok(format!(in alloc; "much {place}\n")?.into_bytes())
}
