//! Walks along the instructions between those to which control jumps.

ghost use Rattle.std.specs.Prelude.{◌≡◌, ◌+◌, ◌<◌, ℕ, false, true, length, reverse, slice_index_or, IfOk, OnOk, IsTrue};
ghost use Rattle.std.specs.Option.{option_copied, option_map};
ghost use Rattle.dj_instructions.specs.declared.instruction.Instruction.{Instruction as Listed};
ghost use Rattle.dj_instructions.specs.Instructions.{IsRising, view_instruction, view_instructions};
ghost use Rattle.dj_code.specs.MethodCode.{view_code, view_typed};
ghost use Rattle.dj_receivers.specs.OwnCalls as spec;
ghost use Rattle.dj_receivers.specs.Steps.{AreJoins};
ghost use Rattle.dj_receivers.specs.Walks.{IsFallenTo, IsOff, IsOn, Notes, Cuts, Restores, Visits, Runs, Finishes};

use crate::bits::{cut, is_at, pass_by};
use crate::marking::{Marking, height_at, send_all};
use crate::own_calls::special_of;
use crate::passing::count_of;
use crate::places::place_of;
use dj_code::{Instruction, Typed};
use dj_names::Items;
use dj_starts::{control_of, edges, frames_from, is_marked};
use std::alloc::{AllocError, Global};

/// Whether an instruction is a call on another object than `this`, by the marks before it.
fn is_off(instruction: &Instruction, marks: &[bool]) -> bool
    ensures off { IsTrue result → IsOff (spec.special_of (view_instruction instruction.now)) (reverse marks.now) }
    ensures on { result ≡ false → IsOn (spec.special_of (view_instruction instruction.now)) (reverse marks.now) }
{
    match special_of(instruction) {
        Some(method) => !is_at(marks, count_of(&method.descriptor)),
        None => false,
    }
}

/// No longer tells that an instruction is a call on `this`, where it isn't by the marks that hold here.
fn note(at: &(u32, Instruction), marking: &mut Marking)
    ensures notes { Notes (spec.special_of (view_instruction at.now.1)) marking.old marking.new at.now.0 }
{
    let place = at.0 as usize;
    if place < marking.calls.len() {
        if is_off(&at.1, marking.now.as_slice()) {
            marking.calls.set(place, false);
        }
    }
}

/// Leaves so many of the marks that hold here.
fn cut_now(alloc: Global, height: usize, marking: &mut Marking) -> Result<(), AllocError>
    ensures cuts { OnOk result (Cuts marking.old marking.new height) }
{
    if height < marking.now.len() {
        let now = cut(alloc, marking.now.as_slice(), height)?;
        marking.now = now;
    }
    Ok(())
}

/// Has the marks hold that are kept for a pc, if there are any.
fn restore(alloc: Global, pc: u32, marking: &mut Marking) -> Result<bool, AllocError>
    ensures restores { IfOk result (Restores marking.old marking.new pc) }
{
    match marking.table.get(pc as usize) {
        None => Ok(false),
        Some(None) => Ok(false),
        Some(Some(known)) => {
            let now = Items::from_slice(alloc, known.as_slice())?;
            marking.now = now;
            Ok(true)
        }
    }
}

/// Looks at the instruction at a place.
fn visit(
    alloc: Global,
    typed: &Typed,
    joins: &[bool],
    place: usize,
    marking: &mut Marking,
) -> Result<(), AllocError>
    requires rising { IsRising (view_instructions typed.now.code.instructions) }
    requires within { place < length typed.now.code.instructions }
    ensures visits { OnOk result ((x : ℕ × Listed) → x ≡ slice_index_or typed.now.code.instructions place x → Visits (view_typed typed.now) joins.now marking.old marking.new x.0) }
{
    let at = &typed.code.instructions.as_slice()[place];
    note(at, marking);
    let ways = edges(alloc, &typed.code, at.0)?;
    let frames = frames_from(typed.frames.as_slice(), place);
    pass_by(alloc, &at.1, frames, &mut marking.now)?;
    send_all(alloc, typed, joins, ways.as_slice(), marking)?;
    Ok(())
}

/// Whether control falls from an instruction to the one behind it, at a pc, and doesn't jump there.
fn is_fallen_to(joins: &[bool], instruction: &Instruction, behind: u32) -> bool
    ensures on { IsTrue result → IsFallenTo joins.now (view_instruction instruction.now) behind }
    ensures off { result ≡ false → ¬ IsFallenTo joins.now (view_instruction instruction.now) behind }
{
    control_of(instruction).falls_through() && !is_marked(joins, behind)
}

/// Whether control falls from the instruction at a place to the one behind it, and none jumps there.
fn falls_on(typed: &Typed, joins: &[bool], place: usize) -> bool
    requires within { place < length typed.now.code.instructions }
    ensures behind { result ≡ true → place + 1 < length typed.now.code.instructions }
    ensures on { result ≡ true → (x y : ℕ × Listed) → x ≡ slice_index_or typed.now.code.instructions place x → y ≡ slice_index_or typed.now.code.instructions (place + 1) y → IsFallenTo joins.now (view_instruction x.1) y.0 }
    ensures off { result ≡ false → (x y : ℕ × Listed) → x ≡ slice_index_or typed.now.code.instructions place x → place + 1 < length typed.now.code.instructions → y ≡ slice_index_or typed.now.code.instructions (place + 1) y → ¬ IsFallenTo joins.now (view_instruction x.1) y.0 }
{
    let instructions = typed.code.instructions.as_slice();
    if instructions.len() - place == 1 {
        return false;
    }
    is_fallen_to(joins, &instructions[place].1, instructions[place + 1].0)
}

/// Looks at the instructions from a place on, as far as control falls.
fn walk(
    alloc: Global,
    typed: &Typed,
    joins: &[bool],
    first: usize,
    marking: &mut Marking,
) -> Result<(), AllocError>
    requires rising { IsRising (view_instructions typed.now.code.instructions) }
    requires joins { AreJoins (view_code typed.now.code) joins.now }
    requires within { first < length typed.now.code.instructions }
    ensures runs { OnOk result ((x : ℕ × Listed) → x ≡ slice_index_or typed.now.code.instructions first x → Runs (view_typed typed.now) joins.now marking.old marking.new x.0) }
{
    for place in first..typed.code.instructions.len() {
        visit(alloc, typed, joins, place, marking)?;
        if !falls_on(typed, joins, place) {
            return Ok(());
        }
        let behind = typed.code.instructions.as_slice()[place + 1].0;
        cut_now(alloc, height_at(typed, behind), marking)?;
    }
    Ok(())
}

/// Looks at the instructions from a pc on, by the marks that are kept for it.
pub fn run(
    alloc: Global,
    typed: &Typed,
    joins: &[bool],
    pc: u32,
    marking: &mut Marking,
) -> Result<(), AllocError>
    requires rising { IsRising (view_instructions typed.now.code.instructions) }
    requires joins { AreJoins (view_code typed.now.code) joins.now }
    ensures finishes { OnOk result (Finishes (view_typed typed.now) joins.now marking.old marking.new pc) }
{
    if restore(alloc, pc, marking)? {
        if let Ok(place) = place_of(typed.code.instructions.as_slice(), pc) {
            walk(alloc, typed, joins, place, marking)?;
        }
    }
    Ok(())
}
