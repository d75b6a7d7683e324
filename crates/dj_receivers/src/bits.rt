//! Marks of the entries of one stack, the bottom entry first.

ghost use Rattle.std.specs.Prelude.{◌≡◌, ◌↔◌, ◌≤◌, ℕ, ◌++◌, false, Some, map, drop, reverse, length, slice_index_or, IfOk, OnOk, IsTrue};
ghost use Rattle.dj_instructions.specs.Instructions.{view_instruction};
ghost use Rattle.dj_frames.specs.Frames.{view_tags, view_frame};
ghost use Rattle.dj_applying.specs.Done.{view_form};
ghost use Rattle.dj_receivers.specs.Passing.{pass_of, moved_marks, marks_behind};
ghost use Rattle.dj_receivers.specs.Receivers.{marks_by};
ghost use Rattle.dj_receivers.specs.Steps.{IsAt, IsHeld, IsCut, IsMet, HasMore};

use crate::passing::{Pass, form_at, pass_of};
use dj_applying::Form;
use dj_code::{Frame, Instruction};
use dj_names::Items;
use std::alloc::{AllocError, Global};

/// Whether the entry with so many on top of it is marked.
pub fn is_at(marks: &[bool], depth: usize) -> bool
    ensures at { IsTrue result ↔ IsAt (reverse marks.now) depth }
{
    depth < marks.len() && marks[marks.len() - 1 - depth]
}

/// Whether it is, and is one of so many from the top on.
fn is_held(marks: &[bool], height: usize, depth: usize) -> bool
    ensures held { IsTrue result ↔ IsHeld (reverse marks.now) height depth }
{
    depth < height && is_at(marks, depth)
}

/// Whether the entry with so many on top of it is marked among some, and not among others, of which so many are looked at.
fn is_lost(known: &[bool], marks: &[bool], height: usize, depth: usize) -> bool
    ensures lost { IsTrue result → IsAt (reverse known.now) depth × ¬ IsHeld (reverse marks.now) height depth }
    ensures kept { result ≡ false → IsAt (reverse known.now) depth → IsHeld (reverse marks.now) height depth }
{
    is_at(known, depth) && !is_held(marks, height, depth)
}

/// Whether it is marked among both.
fn is_both(known: &[bool], marks: &[bool], height: usize, depth: usize) -> bool
    ensures both { IsTrue result ↔ (IsAt (reverse known.now) depth × IsHeld (reverse marks.now) height depth) }
{
    is_at(known, depth) && is_held(marks, height, depth)
}

/// Whether an entry is marked among some that isn't among others, of which so many are looked at.
pub fn has_more(known: &[bool], marks: &[bool], height: usize) -> bool
    ensures more { IsTrue result → HasMore (reverse known.now) (reverse marks.now) height }
    ensures none { result ≡ false → (depth : ℕ) → IsAt (reverse known.now) depth → IsHeld (reverse marks.now) height depth }
{
    for depth in 0..known.len() {
        if is_lost(known, marks, height, depth) {
            return true;
        }
    }
    false
}

/// So many of the marks from the top on, or all that there are.
pub fn cut(alloc: Global, marks: &[bool], height: usize) -> Result<Items<bool>, AllocError>
    ensures cut { IfOk result (λ found. IsCut (reverse marks.now) height (reverse found)) }
    ensures short { IfOk result (λ found. length found ≤ height) }
{
    if height < marks.len() {
        let found = Items::from_slice(alloc, &marks[marks.len() - height..])?;
        Ok(found)
    } else {
        let found = Items::from_slice(alloc, marks)?;
        Ok(found)
    }
}

/// What is marked among some and among others, of which so many are looked at.
pub fn met(
    alloc: Global,
    known: &[bool],
    marks: &[bool],
    height: usize,
) -> Result<Items<bool>, AllocError>
    ensures met { IfOk result (λ found. IsMet (reverse known.now) (reverse marks.now) height (reverse found)) }
    ensures size { IfOk result (λ found. length found ≡ length known.now) }
{
    let mut found = Items::new(alloc);
    for place in 0..known.len() {
        found.push(is_both(known, marks, height, known.len() - 1 - place))?;
    }
    Ok(found)
}

/// Takes so many marks from the top, or all that there are.
fn take(count: usize, marks: &mut Items<bool>)
    ensures rest { reverse marks.new ≡ drop count (reverse marks.old) }
{
    for _ in 0..count {
        marks.pop();
    }
}

/// The marks of the entries at these places from the top on.
fn picked(alloc: Global, marks: &[bool], places: &[u8]) -> Result<Items<bool>, AllocError>
    ensures picked { IfOk result (λ found. found ≡ map (λ place. slice_index_or (reverse marks.now) place false) places.now) }
{
    let mut found = Items::new(alloc);
    for place in places {
        found.push(is_at(marks, usize::from(*place)))?;
    }
    Ok(found)
}

/// Puts marks on top, the first of them last.
fn push_all(more: &[bool], marks: &mut Items<bool>) -> Result<(), AllocError>
    ensures pushed { OnOk result (reverse marks.new ≡ more.now ++ reverse marks.old) }
{
    for place in 0..more.len() {
        marks.push(more[more.len() - 1 - place])?;
    }
    Ok(())
}

/// Rearranges marks in a form.
fn rearrange(alloc: Global, form: &Form, marks: &mut Items<bool>) -> Result<(), AllocError>
    ensures moved { OnOk result (reverse marks.new ≡ moved_marks (Some (view_form form.now)) (reverse marks.old)) }
{
    let moved = picked(alloc, marks.as_slice(), form.gives)?;
    take(form.takes.len(), marks);
    push_all(moved.as_slice(), marks)?;
    Ok(())
}

/// Puts the marks behind an instruction in the place of those before it.
fn pass(
    alloc: Global,
    instruction: &Instruction,
    frame: &Frame,
    marks: &mut Items<bool>,
) -> Result<(), AllocError>
    ensures passed { OnOk result (reverse marks.new ≡ marks_behind (pass_of (view_instruction instruction.now)) (reverse (view_tags frame.now.stack)) (reverse marks.old)) }
{
    match pass_of(instruction) {
        Pass::Takes(count, gives) => {
            take(count, marks);
            if gives {
                marks.push(false)?;
            }
            Ok(())
        }
        Pass::Own => {
            marks.push(true)?;
            Ok(())
        }
        Pass::Moves(forms) => match form_at(alloc, &frame.stack, forms)? {
            Some(form) => rearrange(alloc, form, marks),
            None => Ok(()),
        },
    }
}

/// The same by the first of some frames.
pub fn pass_by(
    alloc: Global,
    instruction: &Instruction,
    frames: &[Frame],
    marks: &mut Items<bool>,
) -> Result<(), AllocError>
    ensures passed { OnOk result (reverse marks.new ≡ marks_by (view_instruction instruction.now) (map view_frame frames.now) (reverse marks.old)) }
{
    match frames {
        [frame, ..] => pass(alloc, instruction, frame, marks),
        [] => Ok(()),
    }
}
