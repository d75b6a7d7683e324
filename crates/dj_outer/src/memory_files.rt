//! Files in memory, which tell what they hold and what they were asked.
ghost use Rattle.std.specs.Prelude.{◌≡◌, ◌≤◌, ◌↔◌, [], Err, Some, map, string_bytes, IfOk, IfNone, IfSome, IsNone, IsSomeAnd};
ghost use Rattle.std.specs.Option.{option_copied};
ghost use Rattle.dj_outer.specs.Files.{UnlessMemory, file_named};
ghost use Rattle.dj_outer.specs.MemoryFiles.{FilesState, Gives, LoadFails, after_load, told_files};

use crate::count::raise;
use crate::{Files, LoadFault, Loaded};
use std::alloc::{AllocError, Global};
use std::marker::Model;

/// Files in memory, for tests. Calls are numbered from 0, and all calls after the last number of a
/// `u64` have that number; a call whose number is listed fails.
#[derive(Debug, Drop)]
pub struct MemoryFiles {
    files: Vec<(String, Vec<u8>)>,
    failing: Vec<u64>,
    calls: u64,
    asked: Vec<String>,
    faults: u64,
}

impl Model for MemoryFiles {
    ghost Value = { FilesState };

    ghost view = { λ files. record {
      held = told_files files.files.items;
      failing = files.failing.items;
      calls = files.calls;
      asked = map string_bytes files.asked.items;
      faults = files.faults;
    } };
}

impl MemoryFiles {
    /// Files in memory with these names and bytes. Of two with one name the first counts.
    pub fn new(alloc: Global, files: Vec<(String, Vec<u8>)>, failing: Vec<u64>) -> MemoryFiles
        ensures { result ≡ record {
          held = told_files files.items;
          failing = failing.items;
          calls = 0;
          asked = [];
          faults = 0;
        } }
    {
        MemoryFiles {
            files,
            failing,
            calls: 0,
            asked: Vec::new(alloc),
            faults: 0,
        }
    }
}

impl Files for MemoryFiles {
    ghost held = { λ files. Some files.held };

    ghost asked = { λ files. Some files.asked };

    ghost faults = { λ files. files.faults };

    fn load(&mut self, alloc: Global, name: &str, limit: usize) -> Result<Loaded, LoadFault>
        ensures loaded { IfOk result
            (λ loaded. IsSomeAnd (file_named self.old.held name.now) (Gives loaded limit)) }
        ensures failed { UnlessMemory result
            ((result ≡ Err LoadFault.Failed) ↔ LoadFails self.old name.now) }
        ensures after { self.new ≡ after_load self.old name.now result }
        ensures never_falls { self.old.faults ≤ self.new.faults }
    {
        let listed = self.failing.contains(&self.calls);
        raise(&mut self.calls);
        let loaded = if listed {
            None
        } else {
            load_from(alloc, &self.files, name, limit)?
        };
        self.asked.push(String::from_str(alloc, name)?)?;
        let Some(loaded) = loaded else {
            raise(&mut self.faults);
            return Err(LoadFault::Failed);
        };
        Ok(loaded)
    }
}

fn load_from(
    alloc: Global,
    files: &[(String, Vec<u8>)],
    name: &str,
    limit: usize,
) -> Result<Option<Loaded>, AllocError>
    ensures missing { IfOk result
        (λ found. IfNone found (IsNone (file_named (told_files files.now) name.now))) }
    ensures loaded { IfOk result
        (λ found. IfSome found
        (λ loaded. IsSomeAnd (file_named (told_files files.now) name.now) (Gives loaded limit))) }
{
    let Some(bytes) = bytes_of(files, name) else {
        return Ok(None);
    };
    if bytes.len() > limit {
        return Ok(Some(Loaded::Over));
    }
    Ok(Some(Loaded::Whole(bytes.to_vec(alloc)?)))
}

fn bytes_of<'a>(files: &'a [(String, Vec<u8>)], name: &str) -> Option<&'a [u8]>
    ensures { option_copied result ≡ file_named (told_files files.now) name.now }
{
    for (held, bytes) in files {
        if held.as_str() == name {
            return Some(bytes);
        }
    }
    None
}
