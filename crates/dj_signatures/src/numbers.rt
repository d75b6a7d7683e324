//! A number for each name and each spelled descriptor.

ghost use Rattle.std.specs.Prelude.{◌≡◌, Some, IfOk};
ghost use Rattle.dj_signatures.specs.Numbers.{number_of, Extends, AreNumbers};

use dj_names::Units;
use std::alloc::AllocError;
use std::collections::BTreeMap;

/// The number of each text that has one.
pub type Numbers = BTreeMap<Units, usize>;

/// The number of a text, if it has one.
fn number_of(numbers: &Numbers, text: &Units) -> Option<usize>
    ensures place { result ≡ number_of numbers.now text.now }
{
    numbers.get(text).copied()
}

/// The number of a text, which gets the next one where it has none.
pub fn learn(numbers: &mut Numbers, text: Units) -> Result<usize, AllocError>
    ensures place { IfOk result (λ at. number_of numbers.new text ≡ Some at) }
    ensures extends { Extends numbers.old numbers.new }
    ensures index { AreNumbers numbers.old → AreNumbers numbers.new }
{
    match number_of(numbers, &text) {
        Some(at) => Ok(at),
        None => {
            let at = numbers.len();
            numbers.insert(text, at)?;
            Ok(at)
        }
    }
}
