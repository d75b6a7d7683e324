//! Made files, their names and their summary.

ghost use Rattle.std.specs.Prelude.{◌≡◌, ◌≤◌, [], None, IfOk, length, map, string_bytes};
ghost use Rattle.dj_load.specs.Loading.{contents_of, paths_of};
ghost use Rattle.dj_making.specs.MadeFiles.{made_contents, made_names, summary_text};

use dj_load::{Library, OrderFiles};
use dj_make::make;
use std::alloc::{AllocError, Global};

/// The names of so many made files, those of their classes.
pub fn made_names(alloc: Global, number: u32) -> Result<Vec<String>, AllocError>
    ensures names { IfOk result (λ names. map string_bytes names.items ≡ made_names number) }
    ensures number { IfOk result (λ names. length names.items ≡ number) }
{
    let mut names = Vec::new(alloc);
    for k in 0..number {
        names.push(format!(in alloc; "g/C{k}")?)?;
    }
    Ok(names)
}

/// The bytes of so many made files.
fn made_contents(alloc: Global, number: u32) -> Result<Vec<Vec<u8>>, AllocError>
    requires few { number ≤ 1000 }
    ensures contents { IfOk result (λ contents. contents_of contents.items ≡ made_contents number) }
    ensures number { IfOk result (λ contents. length contents.items ≡ number) }
{
    let mut contents = Vec::new(alloc);
    for k in 0..number {
        contents.push(make(alloc, k)?)?;
    }
    Ok(contents)
}

/// So many made files, as an order has them that names no library files.
pub fn made_files(alloc: Global, number: u32) -> Result<OrderFiles, AllocError>
    requires few { number ≤ 1000 }
    ensures named { IfOk result (λ files. contents_of files.named.items ≡ made_contents number) }
    ensures number { IfOk result (λ files. length files.named.items ≡ number) }
    ensures unread { IfOk result (λ files. files.library.unread ≡ None) }
    ensures paths { IfOk result (λ files. paths_of files.library ≡ []) }
    ensures library { IfOk result (λ files. files.library.contents.items ≡ []) }
{
    let named = made_contents(alloc, number)?;
    let library = Library {
        unread: None,
        paths: Vec::new(alloc),
        contents: Vec::new(alloc),
    };
    Ok(OrderFiles { named, library })
}

/// The line that ends the text of a run over so many made files, with the numbers of their methods that are printed
/// and that aren't.
pub fn summary_line(
    alloc: Global,
    number: usize,
    printed: usize,
    refused: usize,
) -> Result<Vec<u8>, AllocError>
    ensures line { IfOk result (λ line. line.items ≡ summary_text number printed refused) }
{
    Ok(format!(in alloc; "// made {number} printed {printed} refused {refused}\n")?.into_bytes())
}
