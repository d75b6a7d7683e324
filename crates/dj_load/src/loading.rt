//! The files of an order, loaded by name: those that are named, the list of library files, and those that it has.

ghost use Rattle.std.specs.Prelude.{◌≡◌, ◌≤◌, ◌+◌, [], Some, None, length, map, take, IfOk, OnOk, IfErr};
ghost use Rattle.std.specs.String.{string_bytes};
ghost use Rattle.std.specs.Option.{option_map};
ghost use Rattle.dj_load.specs.HeldFiles.{OfDue, most_files, paths_in};
ghost use Rattle.dj_load.specs.Loads.{AsksFront, IsTooMuch, ReadFails, asked_with};
ghost use Rattle.dj_load.specs.Loading.{AreLoaded, IsWithin, LoadsLibrary, LoadsMore, Stopped, StopsAfter, StopsLibrary, UnlessFault, contents_of, paths_of};

use crate::loads::{LoadStop, Loads, MOST_FILES};
use dj_outer::Files;
use std::alloc::{AllocError, Global};
use std::str;

/// What is found of the list of library files, and these.
#[derive(Drop)]
pub struct Library {
    /// The path of the list, where it isn't UTF-8.
    pub unread: Option<String>,
    /// The paths that the list has.
    pub paths: Vec<String>,
    /// The bytes of the file of each.
    pub contents: Vec<Vec<u8>>,
}

/// The bytes of the files of an order.
#[derive(Drop)]
pub struct OrderFiles {
    pub named: Vec<Vec<u8>>,
    pub library: Library,
}

/// The paths in a text, but no more than one past the most files.
fn paths_in(alloc: Global, text: &str) -> Result<Vec<String>, AllocError>
    ensures paths { IfOk result (λ paths. map string_bytes paths.items ≡ take (most_files + 1) (paths_in text.now)) }
{
    let mut paths = Vec::new(alloc);
    for line in text.lines() {
        if paths.len() > MOST_FILES as usize {
            return Ok(paths);
        }
        if !line.is_empty() {
            paths.push(String::from_str(alloc, line)?)?;
        }
    }
    Ok(paths)
}

/// The bytes of the files of these names, in order.
fn load_all<F: Files>(
    alloc: Global,
    loads: &mut Loads,
    named: &[String],
    files: &mut F,
) -> Result<Vec<Vec<u8>>, LoadStop>
    requires within { IsWithin loads.old }
    ensures loaded { IfOk result (λ contents. LoadsMore (F.held files.old) loads.old loads.new (F.asked files.old) (F.asked files.new) (F.faults files.old) (F.faults files.new) (map string_bytes named.now) (contents_of contents.items)) }
    ensures counted { OnOk result (loads.new.place ≡ loads.old.place + length named.now) }
    ensures number { IfOk result (λ contents. length contents.items ≡ length named.now) }
    ensures within { OnOk result (IsWithin loads.new) }
    ensures stopped { IfErr result (StopsAfter (F.held files.old) loads.old (F.asked files.old) (F.asked files.new) (F.faults files.old) (F.faults files.new) (map string_bytes named.now)) }

    // What the call leaves.
    ensures kept { F.held files.new ≡ F.held files.old }
    ensures never_falls { F.faults files.old ≤ F.faults files.new }
    ensures calm { UnlessFault result (F.faults files.new ≡ F.faults files.old) }
{
    let mut contents = Vec::new(alloc);
    for name in named {
        let bytes = loads.load(alloc, name.as_str(), files)?;
        contents.push(bytes)?;
    }
    Ok(contents)
}

/// The library files that a list of this text has.
fn load_listed<F: Files>(
    alloc: Global,
    loads: &mut Loads,
    text: &str,
    files: &mut F,
) -> Result<Library, LoadStop>
    requires within { IsWithin loads.old }
    ensures read { IfOk result (λ library. library.unread ≡ None) }
    ensures paths { IfOk result (λ library. paths_of library ≡ paths_in text.now) }
    ensures loaded { IfOk result (λ library. LoadsMore (F.held files.old) loads.old loads.new (F.asked files.old) (F.asked files.new) (F.faults files.old) (F.faults files.new) (paths_in text.now) (contents_of library.contents.items)) }
    ensures number { IfOk result (λ library. length library.contents.items ≡ length library.paths.items) }
    ensures within { OnOk result (IsWithin loads.new) }
    ensures stopped { IfErr result (StopsAfter (F.held files.old) loads.old (F.asked files.old) (F.asked files.new) (F.faults files.old) (F.faults files.new) (paths_in text.now)) }

    // What the call leaves.
    ensures kept { F.held files.new ≡ F.held files.old }
    ensures never_falls { F.faults files.old ≤ F.faults files.new }
    ensures calm { UnlessFault result (F.faults files.new ≡ F.faults files.old) }
{
    let paths = paths_in(alloc, text)?;
    let contents = load_all(alloc, loads, paths.as_slice(), files)?;
    Ok(Library {
        unread: None,
        paths,
        contents,
    })
}

/// The list of library files, and the files that it has.
fn load_library<F: Files>(
    alloc: Global,
    loads: &mut Loads,
    list: &str,
    files: &mut F,
) -> Result<Library, LoadStop>
    requires within { IsWithin loads.old }
    ensures loaded { IfOk result (LoadsLibrary (F.held files.old) loads.old loads.new (F.asked files.old) (F.asked files.new) (F.faults files.old) (F.faults files.new) (Some list.now)) }
    ensures number { IfOk result (λ library. length library.contents.items ≡ length library.paths.items) }
    ensures within { OnOk result (IsWithin loads.new) }
    ensures stopped { IfErr result (StopsLibrary (F.held files.old) loads.old (F.asked files.old) (F.asked files.new) (F.faults files.old) (F.faults files.new) (Some list.now)) }

    // What the call leaves.
    ensures kept { F.held files.new ≡ F.held files.old }
    ensures never_falls { F.faults files.old ≤ F.faults files.new }
    ensures calm { UnlessFault result (F.faults files.new ≡ F.faults files.old) }
{
    let bytes = loads.load(alloc, list, files)?;
    match str::from_utf8(bytes.as_slice()) {
        Ok(text) => load_listed(alloc, loads, text, files),
        Err(_) => Ok(Library {
            unread: Some(String::from_str(alloc, list)?),
            paths: Vec::new(alloc),
            contents: Vec::new(alloc),
        }),
    }
}

/// No library files.
fn no_library(alloc: Global) -> Library
    ensures read { result.unread ≡ None }
    ensures paths { paths_of result ≡ [] }
    ensures contents { result.contents.items ≡ [] }
{
    Library {
        unread: None,
        paths: Vec::new(alloc),
        contents: Vec::new(alloc),
    }
}

/// The list of library files, if one is named, and the files that it has.
fn load_behind<F: Files>(
    alloc: Global,
    loads: &mut Loads,
    list: &Option<String>,
    files: &mut F,
) -> Result<Library, LoadStop>
    requires within { IsWithin loads.old }
    ensures loaded { IfOk result (LoadsLibrary (F.held files.old) loads.old loads.new (F.asked files.old) (F.asked files.new) (F.faults files.old) (F.faults files.new) (option_map string_bytes list.now)) }
    ensures number { IfOk result (λ library. length library.contents.items ≡ length library.paths.items) }
    ensures within { OnOk result (IsWithin loads.new) }
    ensures stopped { IfErr result (StopsLibrary (F.held files.old) loads.old (F.asked files.old) (F.asked files.new) (F.faults files.old) (F.faults files.new) (option_map string_bytes list.now)) }

    // What the call leaves.
    ensures kept { F.held files.new ≡ F.held files.old }
    ensures never_falls { F.faults files.old ≤ F.faults files.new }
    ensures calm { UnlessFault result (F.faults files.new ≡ F.faults files.old) }
{
    match list {
        Some(list) => load_library(alloc, loads, list.as_str(), files),
        None => Ok(no_library(alloc)),
    }
}

/// The bytes of the files of an order: those of these names, then the list of library files, if one is named, and then
/// those that it has.
pub fn load_order<F: Files>(
    alloc: Global,
    named: &[String],
    list: &Option<String>,
    files: &mut F,
) -> Result<OrderFiles, LoadStop>
    ensures loaded { IfOk result (AreLoaded (F.held files.old) (map string_bytes named.now) (option_map string_bytes list.now) (F.asked files.old) (F.asked files.new)) }
    ensures number { IfOk result (λ order. length order.named.items ≡ length named.now) }
    ensures library { IfOk result (λ order. length order.library.contents.items ≡ length order.library.paths.items) }
    ensures few { IfOk result (λ order. length order.named.items + length order.library.contents.items ≤ most_files) }
    ensures read { IfErr result (λ stop. Stopped stop (λ place. OfDue (F.held files.old) (map string_bytes named.now) (option_map string_bytes list.now) (λ due. ReadFails (F.held files.old) due (F.asked files.old) (F.asked files.new) (F.faults files.old) (F.faults files.new) place)) (λ place. OfDue (F.held files.old) (map string_bytes named.now) (option_map string_bytes list.now) (λ due. IsTooMuch (F.held files.old) due (F.asked files.old) (F.asked files.new) place))) }

    // What the call asks for and leaves.
    ensures asked_all { OnOk result (OfDue (F.held files.old) (map string_bytes named.now) (option_map string_bytes list.now) (λ due. F.asked files.new ≡ asked_with (F.asked files.old) due)) }
    ensures asked { OfDue (F.held files.old) (map string_bytes named.now) (option_map string_bytes list.now) (AsksFront (F.asked files.old) (F.asked files.new)) }
    ensures kept { F.held files.new ≡ F.held files.old }
    ensures never_falls { F.faults files.old ≤ F.faults files.new }
    ensures calm { UnlessFault result (F.faults files.new ≡ F.faults files.old) }
{
    let mut loads = Loads::new();
    let contents = load_all(alloc, &mut loads, named, files)?;
    let library = load_behind(alloc, &mut loads, list, files)?;
    Ok(OrderFiles {
        named: contents,
        library,
    })
}
