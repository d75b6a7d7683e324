//! What is too large.

ghost use Rattle.std.specs.Prelude.{◌≡◌, ◌↔◌, ◌<◌, ◌≤◌, ℕ, Contains, IfOk, MatchOption, AllPairs};
ghost use Rattle.dj_instructions.specs.Instructions.{IsRising, view_instructions};
ghost use Rattle.dj_code.specs.MethodCode.{Typed as TypedCode, view_typed};
ghost use Rattle.dj_starts.specs.declared.birth.Birth.{Birth as BirthOf};
ghost use Rattle.dj_starts.specs.Births.{IsBirth};
ghost use Rattle.dj_birth_causes.specs.Large as spec;
ghost use Rattle.dj_birth_causes.specs.Large.{size_of, IsLongBirth, IsLongBeginning, IsFirstLong, IsTooMuch};
ghost use Rattle.dj_birth_causes.specs.Births.{AreStarts, IsLongFrom, IsFirstLongBirth};

use crate::own_calls::first_own_call;
use dj_code::{Instruction, Typed};
use dj_names::is_constructor;
use dj_receivers::place_of;
use dj_starts::{Birth, births, block_starts};
use std::alloc::{AllocError, Global};

/// The most blocks, and the most instructions that have to be one expression.
const MOST: usize = 2000;

/// A number as it is told.
fn told(number: usize) -> u32
    ensures told { result ≡ spec.told number }
{
    if number < 4_294_967_295 {
        number as u32
    } else {
        4_294_967_295
    }
}

/// How many instructions stand from one offset on, up to and with another; none where none begins at one of these.
fn size_between(instructions: &[(u32, Instruction)], start: u32, end: u32) -> Option<usize>
    requires rising { IsRising (view_instructions instructions.now) }
    requires order { start ≤ end }
    ensures size { MatchOption result (¬ AreStarts (view_instructions instructions.now) start end) (λ size. AreStarts (view_instructions instructions.now) start end × (size ≡ size_of (view_instructions instructions.now) start end)) }
{
    let Ok(first) = place_of(instructions, start) else {
        return None;
    };
    let Ok(last) = place_of(instructions, end) else {
        return None;
    };
    Some(last - first + 1)
}

/// How many they are where these are too many for one expression.
fn long_between(instructions: &[(u32, Instruction)], start: u32, end: u32) -> Option<usize>
    requires rising { IsRising (view_instructions instructions.now) }
    requires order { start ≤ end }
    ensures long { MatchOption result (¬ IsLongFrom (view_instructions instructions.now) start end) (λ size. IsLongFrom (view_instructions instructions.now) start end × (size ≡ size_of (view_instructions instructions.now) start end)) }
{
    match size_between(instructions, start, end) {
        Some(size) => { if MOST < size { Some(size) } else { None } }
        None => None,
    }
}

/// How many instructions the first birth has that is too long.
fn first_long(instructions: &[(u32, Instruction)], births: &[Birth]) -> Option<usize>
    requires rising { IsRising (view_instructions instructions.now) }
    ensures first { (typed : TypedCode) → typed.code.instructions ≡ view_instructions instructions.now → ((birth : BirthOf) → Contains births.now birth ↔ IsBirth typed birth)
        → AllPairs (λ first second. first.start < second.start) births.now → MatchOption result ((start size : ℕ) → ¬ IsLongBirth typed size start) (IsFirstLongBirth typed) }
{
    for birth in births {
        if birth.start < birth.end {
            if let Some(size) = long_between(instructions, birth.start, birth.end) {
                return Some(size);
            }
        }
    }
    None
}

/// How many instructions stand in a constructor up to and with its first call of another one, where these are too many.
fn long_beginning(typed: &Typed) -> Option<usize>
    requires rising { IsRising (view_instructions typed.now.code.instructions) }
    ensures long { MatchOption result ((size : ℕ) → ¬ IsLongBeginning (view_typed typed.now) size) (IsLongBeginning (view_typed typed.now)) }
{
    if !is_constructor(&typed.code.name) {
        return None;
    }
    let instructions = typed.code.instructions.as_slice();
    match first_own_call(instructions, typed.frames.as_slice()) {
        Some(call) => long_between(instructions, 0, call),
        None => None,
    }
}

/// How many instructions the first has that is too long, of what has to be one expression.
fn first_expression(alloc: Global, typed: &Typed) -> Result<Option<usize>, AllocError>
    requires rising { IsRising (view_instructions typed.now.code.instructions) }
    ensures first { IfOk result (λ found. MatchOption found ((size : ℕ) → ¬ IsFirstLong (view_typed typed.now) size) (IsFirstLong (view_typed typed.now))) }
{
    if let Some(size) = long_beginning(typed) {
        return Ok(Some(size));
    }
    let births = births(alloc, typed)?;
    Ok(first_long(typed.code.instructions.as_slice(), births.as_slice()))
}

/// How many blocks there are, or instructions of what has to be one expression, where these are too many.
pub fn too_much(alloc: Global, typed: &Typed) -> Result<Option<u32>, AllocError>
    requires rising { IsRising (view_instructions typed.now.code.instructions) }
    ensures much { IfOk result (λ found. MatchOption found ((count : ℕ) → ¬ IsTooMuch (view_typed typed.now) count) (IsTooMuch (view_typed typed.now))) }
{
    let starts = block_starts(alloc, typed)?;
    let blocks = starts.len();
    if MOST < blocks {
        return Ok(Some(told(blocks)));
    }
    match first_expression(alloc, typed)? {
        Some(size) => Ok(Some(told(size))),
        None => Ok(None),
    }
}
