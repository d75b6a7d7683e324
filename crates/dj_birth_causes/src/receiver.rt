//! What another constructor is called on (JLS 8.8.7.1).

ghost use Rattle.std.specs.Prelude.{◌≡◌, map, reverse, IfOk};
ghost use Rattle.dj_instructions.specs.Instructions.{view_instruction, view_instructions};
ghost use Rattle.dj_frames.specs.Frames.{view_tags, view_frame};
ghost use Rattle.dj_receivers.specs.Passing.{pass_of};
ghost use Rattle.dj_receivers.specs.Passed.{view_pass};
ghost use Rattle.dj_birth_causes.specs.Beginning as spec;

use dj_code::{Frame, Instruction};
use dj_receivers::{Pass, calls_own, count_of, form_at, pass_of, special_of};
use std::alloc::{AllocError, Global};

/// How many entries an instruction touches of those of a frame.
fn touched(alloc: Global, pass: Pass, frame: &Frame) -> Result<usize, AllocError>
    ensures touched { IfOk result (λ count. count ≡ spec.touched (view_pass pass) (reverse (view_tags frame.now.stack))) }
{
    match pass {
        Pass::Takes(count, _) => Ok(count),
        Pass::Own => Ok(0),
        Pass::Moves(forms) => match form_at(alloc, &frame.stack, forms)? {
            Some(form) => Ok(form.takes.len()),
            None => Ok(frame.stack.len()),
        },
    }
}

/// Whether an instruction leaves the entry that stands below all others.
fn spares_first(alloc: Global, instruction: &Instruction, frame: &Frame) -> Result<bool, AllocError>
    ensures spares { IfOk result (λ found. found ≡ spec.spares_first (view_instruction instruction.now) (view_frame frame.now)) }
{
    let count = touched(alloc, pass_of(instruction), frame)?;
    Ok(count < frame.stack.len())
}

/// Whether the entry below all others is what a call is on.
fn is_on_first(instruction: &Instruction, frame: &Frame) -> bool
    ensures first { result ≡ spec.is_on_first (view_instruction instruction.now) (view_frame frame.now) }
{
    match special_of(instruction) {
        Some(method) => {
            let count = count_of(&method.descriptor);
            count < frame.stack.len() && frame.stack.len() - count == 1
        }
        None => false,
    }
}

/// Whether the first call of a constructor on `this` is on the entry below all others, and each instruction before it leaves that.
fn calls_on_first(
    alloc: Global,
    instructions: &[(u32, Instruction)],
    frames: &[Frame],
) -> Result<bool, AllocError>
    ensures first { IfOk result (λ found. found ≡ spec.calls_on_first (view_instructions instructions.now) (map view_frame frames.now)) }
{
    let mut left = instructions;
    let mut before = frames;
    while let [at, rest @ ..] = left {
        let [frame, more @ ..] = before else {
            return Ok(false);
        };
        if calls_own(&at.1, frame) {
            return Ok(is_on_first(&at.1, frame));
        }
        if !spares_first(alloc, &at.1, frame)? {
            return Ok(false);
        }
        left = rest;
        before = more;
    }
    Ok(false)
}

/// Whether an instruction loads local 0.
fn loads_own(instruction: &Instruction) -> bool
    ensures own { result ≡ spec.is_own (pass_of (view_instruction instruction.now)) }
{
    match pass_of(instruction) {
        Pass::Own => true,
        Pass::Takes(_, _) | Pass::Moves(_) => false,
    }
}

/// Whether the first instruction loads local 0, and this is what another constructor is called on.
pub fn begins_with_receiver(
    alloc: Global,
    instructions: &[(u32, Instruction)],
    frames: &[Frame],
) -> Result<bool, AllocError>
    ensures begins { IfOk result (λ found. found ≡ spec.begins_with_receiver (view_instructions instructions.now) (map view_frame frames.now)) }
{
    let [at, rest @ ..] = instructions else {
        return Ok(false);
    };
    let [_, more @ ..] = frames else {
        return Ok(false);
    };
    if !loads_own(&at.1) {
        return Ok(false);
    }
    calls_on_first(alloc, rest, more)
}
