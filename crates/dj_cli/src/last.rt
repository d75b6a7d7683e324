//! What is told behind all files: where they are made, the line of text on them; the lines on the list of library files, and on these.

ghost use Rattle.std.specs.Prelude.{◌≡◌, ◌++◌, [], IfOk, OnOk, if◌then◌else◌, length, map};
ghost use Rattle.std.specs.String.{string_bytes};
ghost use Rattle.std.specs.Option.{option_map};
ghost use Rattle.dj_load.specs.Loading.{all_found, finds_of, found_of};
ghost use Rattle.dj_making.specs.MadeFiles.{summary_text};
ghost use Rattle.dj_cli.specs.Output.{behind_line, last_lines, library_line, library_lines, unread_line};

use crate::tally::Tally;
use dj_load::{Found, FoundFiles};
use dj_making::summary_line;
use dj_report::{broken_line, clash_line, list_line};
use dj_world::ClashKind;
use std::alloc::{AllocError, Global};

/// What is told behind all files.
#[derive(Drop)]
pub struct LastPiece {
    pub text: Vec<u8>,
    /// The lines of the report.
    pub lines: Vec<u8>,
}

/// The line on a list of library files that isn't UTF-8.
fn unread_line(alloc: Global, path: &Option<String>) -> Result<Vec<u8>, AllocError>
    ensures line { IfOk result (λ line. line.items ≡ unread_line (option_map string_bytes path.now)) }
{
    match path {
        Some(path) => list_line(alloc, path.as_str()),
        None => Ok(Vec::new(alloc)),
    }
}

/// The line on a library file of this path whose class clashes so, none where one of its name was there already.
fn behind_line(alloc: Global, path: &str, kind: ClashKind) -> Result<Vec<u8>, AllocError>
    ensures line { IfOk result (λ line. line.items ≡ behind_line path.now kind) }
{
    match kind {
        ClashKind::Twice => Ok(Vec::new(alloc)),
        ClashKind::Cycle => clash_line(alloc, path, ClashKind::Cycle),
        ClashKind::SuperIsFinal => clash_line(alloc, path, ClashKind::SuperIsFinal),
        ClashKind::SuperKind => clash_line(alloc, path, ClashKind::SuperKind),
    }
}

/// The line on a library file of this path, none where its class is in the world.
fn library_line(alloc: Global, path: &str, found: &Found) -> Result<Vec<u8>, AllocError>
    ensures line { IfOk result (λ line. line.items ≡ library_line path.now (found_of found.now)) }
{
    match found {
        Found::Class(_) => Ok(Vec::new(alloc)),
        Found::Clash(kind) => behind_line(alloc, path, *kind),
        Found::Broken { kind, offset } => broken_line(alloc, path, *kind, *offset),
    }
}

/// Adds the lines on library files of these paths.
fn add_library_lines(
    alloc: Global,
    lines: &mut Vec<u8>,
    paths: &[String],
    found: &[Found],
) -> Result<(), AllocError>
    requires number { length found.now ≡ length paths.now }
    ensures lines { OnOk result (lines.new.items ≡ lines.old.items ++ library_lines (map string_bytes paths.now) (all_found found.now)) }
{
    for place in 0..paths.len() {
        let line = library_line(alloc, paths[place].as_str(), &found[place])?;
        lines.extend_from_slice(line.as_slice())?;
    }
    Ok(())
}

/// The lines behind those on the named files.
fn last_lines(alloc: Global, files: &FoundFiles) -> Result<Vec<u8>, AllocError>
    requires number { length files.now.library.items ≡ length files.now.paths.items }
    ensures lines { IfOk result (λ lines. lines.items ≡ last_lines (finds_of files.now)) }
{
    let mut lines = unread_line(alloc, &files.unread)?;
    let paths = files.paths.as_slice();
    let found = files.library.as_slice();
    add_library_lines(alloc, &mut lines, paths, found)?;
    Ok(lines)
}

/// The text behind those of so many files: where they are made, the line on them and on their methods.
fn last_text(alloc: Global, number: usize, made: bool, tally: Tally) -> Result<Vec<u8>, AllocError>
    ensures text { IfOk result (λ text. text.items ≡ (if made then summary_text number tally.printed tally.refused else [])) }
{
    if made {
        summary_line(alloc, number, tally.printed, tally.refused)
    } else {
        Ok(Vec::new(alloc))
    }
}

/// The piece behind those of so many files.
pub fn last_piece(
    alloc: Global,
    number: usize,
    made: bool,
    tally: Tally,
    files: &FoundFiles,
) -> Result<LastPiece, AllocError>
    requires number { length files.now.library.items ≡ length files.now.paths.items }
    ensures text { IfOk result (λ piece. piece.text.items ≡ (if made then summary_text number tally.printed tally.refused else [])) }
    ensures lines { IfOk result (λ piece. piece.lines.items ≡ last_lines (finds_of files.now)) }
{
    let text = last_text(alloc, number, made, tally)?;
    let lines = last_lines(alloc, files)?;
    Ok(LastPiece { text, lines })
}
