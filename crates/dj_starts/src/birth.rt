//! Births: the code from a `new` to the constructor call of its object (JVMS 2.9, 4.10.1.9, 6.5 new).

ghost use Rattle.std.specs.Prelude.{◌≡◌, ◌<◌, ◌↔◌, ℕ, map, IfOk, IsTrue};
ghost use Rattle.std.specs.List.{AllPairs, Contains};
ghost use Rattle.dj_instructions.specs.Instructions.{view_instruction, view_instructions, IsRising};
ghost use Rattle.dj_code.specs.MethodCode.{view_typed};
ghost use Rattle.dj_stack_map.specs.Reading.{IsNew};
ghost use Rattle.dj_stack_map.specs.StackMap.{IsNewAt};
ghost use Rattle.dj_starts.specs.Births.{IsBirth};
ghost use Rattle.dj_starts.specs.Marks.{MarksMore};
ghost use Rattle.dj_starts.specs.Walking.{IsNewIn, birth_of};

use crate::calls::{Met, calls_met, only_call};
use crate::marks::{is_marked, mark, no_marks};
use crate::starts::both_marked;
use crate::written::written_births;
use dj_code::{Instruction, Typed};
use dj_names::Items;
use std::alloc::{AllocError, Global};

/// The birth of an object: the pcs of its `new` and of its constructor call, the same where it meets
/// none, more than one, or one that stands before it; and whether one expression can be written for it.
#[derive(Clone, Copy, PartialEq, Eq)]
pub struct Birth {
    pub start: u32,
    pub end: u32,
    pub written: bool,
}

/// The birth of the object of a `new` at a pc.
fn birth_at(calls: &[Met], written: &[bool], start: u32) -> Birth
    ensures birth { result ≡ birth_of calls.now written.now start }
{
    let end = match only_call(calls, start) {
        Some(call) => call,
        None => start,
    };
    Birth {
        start,
        end,
        written: is_marked(written, start),
    }
}

/// Whether an instruction is a `new`.
fn is_new(instruction: &Instruction) -> bool
    ensures exact { IsTrue result ↔ IsNew (view_instruction instruction.now) }
{
    matches!(instruction, Instruction::New(_))
}

/// Marks the pcs of `new`.
fn mark_news(instructions: &[(u32, Instruction)], marks: &mut Items<bool>)
    ensures more { MarksMore marks.old marks.new (IsNewIn (view_instructions instructions.now)) }
{
    for at in instructions {
        if is_new(&at.1) {
            mark(at.0, marks);
        }
    }
}

/// The pcs of `new`, in rising order.
fn news(alloc: Global, instructions: &[(u32, Instruction)]) -> Result<Items<u32>, AllocError>
    requires rising { IsRising (view_instructions instructions.now) }
    ensures exact { IfOk result (λ news. (pc : ℕ) → Contains news pc ↔ IsNewAt (view_instructions instructions.now) pc) }
    ensures rising { IfOk result (AllPairs (λ x y. x < y)) }
{
    let mut marks = no_marks(alloc, instructions)?;
    mark_news(instructions, &mut marks);
    let news = both_marked(alloc, instructions, marks.as_slice(), marks.as_slice())?;
    Ok(news)
}

/// The births of the objects of `new` at these pcs.
fn births_at(
    alloc: Global,
    news: &[u32],
    calls: &[Met],
    written: &[bool],
) -> Result<Items<Birth>, AllocError>
    ensures births { IfOk result (λ births. births ≡ map (birth_of calls.now written.now) news.now) }
{
    let mut births = Items::new(alloc);
    for start in news {
        births.push(birth_at(calls, written, *start))?;
    }
    Ok(births)
}

/// The births of objects, by the pcs of their `new`.
pub fn births(alloc: Global, typed: &Typed) -> Result<Items<Birth>, AllocError>
    requires rising { IsRising (view_instructions typed.now.code.instructions) }
    ensures exact { IfOk result (λ births. (birth : Birth) → Contains births birth ↔ IsBirth (view_typed typed.now) birth) }
    ensures rising { IfOk result (AllPairs (λ x y. x.start < y.start)) }
{
    let instructions = typed.code.instructions.as_slice();
    let calls = calls_met(alloc, instructions, typed.frames.as_slice())?;
    let written = written_births(alloc, typed, calls.as_slice())?;
    let news = news(alloc, instructions)?;
    let births = births_at(alloc, news.as_slice(), calls.as_slice(), written.as_slice())?;
    Ok(births)
}
