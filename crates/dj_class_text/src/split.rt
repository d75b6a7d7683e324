//! The parts of a class's name.

ghost use Rattle.std.specs.Prelude.{◌≢◌, ◌<◌, ℕ, IfOk, IfSome, IfNone, length, slice_index};
ghost use Rattle.dj_class_text.specs.ClassText.{IsSplit, IsLastSlash};

use dj_names::{ClassName, Units};
use std::alloc::{AllocError, Global};

/// A class's name as a package, where it has one, and a simple name.
#[derive(Drop)]
pub struct SplitName {
    pub package: Option<ClassName>,
    pub simple: Units,
}

/// The place of the last slash.
fn last_slash(units: &[u16]) -> Option<usize>
    ensures some { IfSome result (λ at. IsLastSlash at units.now) }
    ensures none { IfNone result ((k : ℕ) → k < length units.now → slice_index units.now k ≢ 47) }
{
    units.iter().rposition(|unit| *unit == 47)
}

/// The package and the simple name of a class.
pub fn split_name(alloc: Global, name: &ClassName) -> Result<SplitName, AllocError>
    ensures split { IfOk result (λ split. IsSplit split.package split.simple name.now) }
{
    let units = name.as_slice();
    match last_slash(units) {
        Some(at) => Ok(SplitName {
            package: Some(ClassName::new(Units::from_slice(alloc, &units[..at])?)),
            simple: Units::from_slice(alloc, &units[at + 1..])?,
        }),
        None => Ok(SplitName {
            package: None,
            simple: Units::from_slice(alloc, units)?,
        }),
    }
}
