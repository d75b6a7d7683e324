//! The constructor calls that the objects of `new` meet (JVMS 4.10.1.9, invokespecial).

ghost use Rattle.std.specs.Prelude.{◌≡◌, ◌<◌, ◌↔◌, ℕ, length, map, slice_index_or, IfOk, MatchOption};
ghost use Rattle.std.specs.Option.{option_copied, option_map};
ghost use Rattle.dj_instructions.specs.Instructions.{view_instruction, view_instructions, view_method_ref, InvokeSpecial, IsRising};
ghost use Rattle.dj_frames.specs.Frames.{view_tag, view_tags, view_frame};
ghost use Rattle.dj_starts.specs.Births as spec;
ghost use Rattle.dj_starts.specs.Births.{Constructs, ConstructsFirst, Meets};
ghost use Rattle.dj_starts.specs.Marks.{IsRoom};
ghost use Rattle.dj_starts.specs.Walking as spec_walk;
ghost use Rattle.dj_starts.specs.Walking.{IsConstructed, IsEnded, IsNoted, IsTable};

use crate::marks::room;
use crate::starts::frames_from;
use dj_code::{Frame, Instruction, MethodRef, Slots, Tag};
use dj_names::{Descriptor, Items, is_constructor};
use std::alloc::{AllocError, Global};

/// The constructor calls that the object of a `new` meets.
#[derive(Clone, Copy, PartialEq, Eq)]
pub enum Met {
    No,
    /// The pc of the one.
    Once(u32),
    Often,
}

/// What stands on a stack under so many values.
fn under(stack: &Slots, count: usize) -> Option<&Tag>
    ensures under { option_map view_tag (option_copied result) ≡ spec.under count (view_tags stack.now) }
{
    let height = stack.len();
    if count < height {
        stack.get(height - 1 - count)
    } else {
        None
    }
}

/// The pc of the `new` whose object a tag says is unborn.
fn unborn(tag: Option<&Tag>) -> Option<u32>
    ensures unborn { result ≡ spec.unborn_of (option_map view_tag (option_copied tag.entry)) }
{
    match tag {
        Some(Tag::Unborn(start)) => Some(*start),
        Some(
            Tag::Top
            | Tag::Int
            | Tag::Float
            | Tag::Double
            | Tag::Long
            | Tag::Null
            | Tag::UnbornThis
            | Tag::Object(_),
        )
        | None => None,
    }
}

/// The pc of the `new` whose object a call of the method constructs.
fn constructed_by(method: &MethodRef, frame: &Frame) -> Option<u32>
    ensures constructed { result ≡ spec.constructed_by (view_method_ref method.now) (view_frame frame.now) }
{
    if !is_constructor(&method.name) {
        return None;
    }
    match &method.descriptor {
        Descriptor::Field(_) => None,
        Descriptor::Method { parameters, result } => match result {
            Some(_) => None,
            None => unborn(under(&frame.stack, parameters.as_slice().len())),
        },
    }
}

/// The pc of the `new` whose object an instruction constructs, by the first of some frames.
pub fn constructed(instruction: &Instruction, frames: &[Frame]) -> Option<u32>
    ensures constructed { IsConstructed (view_instruction instruction.now) (map view_frame frames.now) result }
{
    if let Instruction::InvokeSpecial(method) = instruction {
        if let [frame, ..] = frames {
            return constructed_by(method, frame);
        }
    }
    None
}

/// What is known with one call more.
fn met_once_more(met: Met, call: u32) -> Met
    ensures more { result ≡ spec_walk.once_more met call }
{
    match met {
        Met::No => Met::Once(call),
        Met::Once(_) | Met::Often => Met::Often,
    }
}

/// Notes the object that the instruction constructs, by the first of some frames.
fn note(at: &(u32, Instruction), frames: &[Frame], calls: &mut Items<Met>)
    ensures noted { IsNoted at.now.0 (view_instruction at.now.1) (map view_frame frames.now) calls.old calls.new }
{
    if let Some(start) = constructed(&at.1, frames) {
        let place = start as usize;
        if place < calls.len() {
            let met = met_once_more(calls.as_slice()[place], at.0);
            calls.set(place, met);
        }
    }
}

/// No calls, for so many pcs.
fn none_met(alloc: Global, room: usize) -> Result<Items<Met>, AllocError>
    ensures room { IfOk result (λ calls. length calls ≡ room) }
    ensures none { IfOk result (λ calls. (start : ℕ) → slice_index_or calls start Met.No ≡ Met.No) }
{
    let mut calls = Items::new(alloc);
    for _ in 0..room {
        calls.push(Met::No)?;
    }
    Ok(calls)
}

/// For each pc the constructor calls that the object of a `new` there would meet.
pub fn calls_met(
    alloc: Global,
    instructions: &[(u32, Instruction)],
    frames: &[Frame],
) -> Result<Items<Met>, AllocError>
    requires rising { IsRising (view_instructions instructions.now) }
    ensures table { IfOk result (IsTable (view_instructions instructions.now) (map view_frame frames.now)) }
{
    let mut calls = none_met(alloc, room(instructions))?;
    for (place, at) in instructions.iter().enumerate() {
        note(at, frames_from(frames, place), &mut calls);
    }
    Ok(calls)
}

/// The end of the birth that begins at a pc, where the object of the `new` there meets one call, and
/// behind it.
pub fn only_call(calls: &[Met], start: u32) -> Option<u32>
    ensures call { result ≡ spec_walk.only_call calls.now start }
{
    match calls.get(start as usize) {
        Some(Met::Once(call)) => { if start < *call { Some(*call) } else { None } }
        Some(Met::No | Met::Often) | None => None,
    }
}

/// The birth that ends with an instruction, by the first of some frames.
pub fn ended(calls: &[Met], at: &(u32, Instruction), frames: &[Frame]) -> Option<u32>
    ensures ended { IsEnded calls.now at.now.0 (view_instruction at.now.1) (map view_frame frames.now) result }
{
    let start = constructed(&at.1, frames)?;
    if only_call(calls, start)? == at.0 {
        Some(start)
    } else {
        None
    }
}
