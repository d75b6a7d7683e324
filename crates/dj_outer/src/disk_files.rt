//! Files of the real system: the trusted edge, which counts faults and tells nothing else.
ghost use Rattle.std.specs.Prelude.{◌≡◌, ◌≤◌, ◌<◌, ◌+◌, None, IfSome, length};
ghost use Rattle.dj_outer.specs.Files.{IfWhole, OnOver, TakesAtMost};

use crate::count::raise;
use crate::{Files, LoadFault, Loaded};
use std::alloc::Global;
use std::io::Read;
use std::marker::Model;
use std::{fs, rt};

/// How many bytes one read asks for at most.
const BUFFER: usize = 16384;

/// The files of a runtime. A load ends at the first error of the system, which counts as a fault:
/// where the file is missing or a directory, and where a call is interrupted, too. Contracts see it
/// as its count of faults.
#[derive(Drop)]
pub struct DiskFiles<'a, R> {
    runtime: &'a R,
    faults: u64,
}

impl<'a, R> Model for DiskFiles<'a, R> {
    ghost use Rattle.std.specs.Prelude.{ℕ};

    ghost Value = { ℕ };

    ghost view = { λ disk. disk.faults };
}

impl<'a, R> DiskFiles<'a, R> {
    /// The files of this runtime, with no fault so far.
    pub fn new(rt: &'a R) -> DiskFiles<'a, R>
        ensures { result ≡ 0 }
    {
        DiskFiles {
            runtime: rt,
            faults: 0,
        }
    }
}

impl<R: rt::Files> Files for DiskFiles<'_, R> {
    ghost held = { λ _. None };

    ghost asked = { λ _. None };

    ghost faults = { λ count. count };

    fn load(&mut self, alloc: Global, name: &str, limit: usize) -> Result<Loaded, LoadFault> {
        let outcome = load_file(self.runtime, alloc, name, limit);
        if let Err(LoadFault::Failed) = &outcome {
            raise(&mut self.faults);
        }
        outcome
    }
}

fn load_file<R: rt::Files>(
    runtime: &R,
    alloc: Global,
    name: &str,
    limit: usize,
) -> Result<Loaded, LoadFault>
    ensures { IfWhole result (λ bytes. length bytes ≤ limit) }
{
    let Ok(mut file) = fs::open(runtime, name) else {
        return Err(LoadFault::Failed);
    };
    let mut buffer = vec![in alloc; 0u8; BUFFER]?;
    read_within(alloc, &mut file, limit, &mut buffer)
}

/// Reads to the end, or one byte past the limit and no further.
fn read_within<R: Read>(
    alloc: Global,
    reader: &mut R,
    limit: usize,
    buffer: &mut [u8],
) -> Result<Loaded, LoadFault>
    requires { 0 < length buffer.old }
    ensures whole { IfWhole result
        (λ bytes. IfSome (R.remaining reader.old) (λ left. left ≡ bytes)) }
    ensures within { IfWhole result (λ bytes. length bytes ≤ limit) }
    ensures over { OnOver result (IfSome (R.remaining reader.old) (λ left. limit < length left)) }
    ensures front { TakesAtMost (limit + 1) (R.remaining reader.old) (R.remaining reader.new) }
{
    let mut bytes = Vec::new(alloc);
    while bytes.len() <= limit {
        let room = buffer.len().min((limit - bytes.len()).saturating_add(1));
        let Ok(count) = reader.read(&mut buffer[..room]) else {
            return Err(LoadFault::Failed);
        };
        if count == 0 {
            return Ok(Loaded::Whole(bytes));
        }
        bytes.extend_from_slice(&buffer[..count])?;
    }
    Ok(Loaded::Over)
}
