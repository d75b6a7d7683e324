//! What stands in a constructor up to its call of another one, and can't be written as that call and its arguments (JLS 8.8.7).

ghost use Rattle.std.specs.Prelude.{◌≡◌, ℕ, false, map, IfOk, IsTrue, MatchOption};
ghost use Rattle.dj_instructions.specs.Instructions.{IsRising, view_instructions};
ghost use Rattle.dj_frames.specs.Frames.{view_frame, view_frames};
ghost use Rattle.dj_code.specs.MethodCode.{view_typed};
ghost use Rattle.dj_code.specs.Targets.{IsLeast};
ghost use Rattle.dj_starts.specs.declared.roles.Role.TheVariants as role;
ghost use Rattle.dj_starts.specs.Walking as walking;
ghost use Rattle.dj_starts.specs.Walking.{GoesBy};
ghost use Rattle.dj_birth_causes.specs.OwnCalls.{IsOwnCall};
ghost use Rattle.dj_birth_causes.specs.Beginning.{MayNotStand, IsCovered, HasBeforeSuperAt};
ghost use Rattle.dj_birth_causes.specs.Leasts as spec;
ghost use Rattle.dj_birth_causes.specs.Leasts.{IsFirst, IsGivenBehind, EscapesUpTo, IsBrokenUpTo};

use crate::comparisons::first_deep;
use crate::own_calls::first_own_call;
use crate::receiver::begins_with_receiver;
use dj_code::{Frame, Handler, Instruction, Typed};
use dj_escaping::lets_escape;
use dj_names::is_constructor;
use dj_starts::{Role, barred_from, calls_met, ended, first_role, frames_from, in_range, role_of};
use dj_world::World;
use std::alloc::{AllocError, Global};

/// The lesser of two offsets that there may be.
fn lesser(first: Option<u32>, second: Option<u32>) -> Option<u32>
    ensures lesser { result ≡ spec.lesser first second }
{
    match first {
        None => second,
        Some(one) => match second {
            None => Some(one),
            Some(other) => { if one <= other { Some(one) } else { Some(other) } }
        },
    }
}

/// An offset that there may be, where it isn't behind another one.
fn up_to(last: u32, found: Option<u32>) -> Option<u32>
    ensures up_to { result ≡ spec.up_to last found }
{
    match found {
        None => None,
        Some(pc) => { if pc <= last { Some(pc) } else { None } }
    }
}

/// An offset that there may be, where it is before another one.
fn before(end: u32, found: Option<u32>) -> Option<u32>
    ensures before { result ≡ spec.before end found }
{
    match found {
        None => None,
        Some(pc) => { if pc < end { Some(pc) } else { None } }
    }
}

/// Whether no birth that began at 0 goes on over an instruction.
fn is_barred(before: Role, here: Role, behind: Role, ended: Option<u32>) -> bool
    ensures barred { IsTrue result → ¬ GoesBy (walking.barred_from before here behind ended) 0 }
    ensures free { result ≡ false → GoesBy (walking.barred_from before here behind ended) 0 }
{
    match barred_from(before, here, behind, ended) {
        None => false,
        Some(low) => low == 0,
    }
}

/// The first offset of an instruction that may stand in no birth that began at 0.
fn first_misplaced(alloc: Global, typed: &Typed) -> Result<Option<u32>, AllocError>
    requires rising { IsRising (view_instructions typed.now.code.instructions) }
    ensures first { IfOk result (IsFirst (MayNotStand (view_typed typed.now) role.Plain (view_instructions typed.now.code.instructions))) }
{
    let instructions = typed.code.instructions.as_slice();
    let calls = calls_met(alloc, instructions, typed.frames.as_slice())?;
    let mut before = Role::Plain;
    let mut left = instructions;
    let mut frames = typed.frames.as_slice();
    while let [at, rest @ ..] = left {
        let here = role_of(&at.1);
        let ended = ended(calls.as_slice(), at, frames);
        if is_barred(before, here, first_role(rest), ended) {
            return Ok(Some(at.0));
        }
        before = here;
        left = rest;
        frames = frames_from(frames, 1);
    }
    Ok(None)
}

/// The first offset behind 0 at which a frame is given.
fn first_given(frames: &[(u32, Frame)]) -> Option<u32>
    ensures first { IsFirst (IsGivenBehind (view_frames frames.now)) result }
{
    let mut least = None;
    for frame in frames {
        if 0 < frame.0 {
            least = lesser(least, Some(frame.0));
        }
    }
    least
}

/// The first offset of an instruction in a range of the exception table.
fn first_covered(typed: &Typed) -> Option<u32>
    requires rising { IsRising (view_instructions typed.now.code.instructions) }
    ensures first { IsFirst (IsCovered (view_typed typed.now)) result }
{
    let handlers = typed.code.handlers.as_slice();
    if handlers.is_empty() {
        return None;
    }
    let mut left = typed.code.instructions.as_slice();
    while let [at, rest @ ..] = left {
        if in_range(handlers, at.0) {
            return Some(at.0);
        }
        left = rest;
    }
    None
}

/// The first offset up to a call of an instruction that lets a checked class escape.
fn first_escaping(
    alloc: Global,
    world: &World,
    typed: &Typed,
    call: u32,
) -> Result<Option<u32>, AllocError>
    requires rising { IsRising (view_instructions typed.now.code.instructions) }
    ensures first { IfOk result (IsFirst (EscapesUpTo world.now (view_typed typed.now) call)) }
{
    let mut left = typed.code.instructions.as_slice();
    let mut before = typed.frames.as_slice();
    while let [at, rest @ ..] = left {
        let [frame, more @ ..] = before else {
            return Ok(None);
        };
        if call < at.0 {
            return Ok(None);
        }
        if lets_escape(alloc, world, &typed.code, &at.1, frame)? {
            return Ok(Some(at.0));
        }
        left = rest;
        before = more;
    }
    Ok(None)
}

/// The first offset up to a call at which a rule is broken.
fn first_up_to(
    alloc: Global,
    world: &World,
    typed: &Typed,
    call: u32,
) -> Result<Option<u32>, AllocError>
    requires rising { IsRising (view_instructions typed.now.code.instructions) }
    ensures first { IfOk result (IsFirst (IsBrokenUpTo world.now (view_typed typed.now) call)) }
{
    let inside = before(call, first_misplaced(alloc, typed)?);
    let given = up_to(call, first_given(typed.code.frames.as_slice()));
    let covered = up_to(call, first_covered(typed));
    let escaping = first_escaping(alloc, world, typed, call)?;
    let deep = up_to(call, first_deep(typed.code.instructions.as_slice()));
    Ok(lesser(
        inside,
        lesser(given, lesser(covered, lesser(escaping, deep))),
    ))
}

/// The offset at which a constructor first breaks a rule on what stands up to its call of another one.
pub fn first_before_super(
    alloc: Global,
    world: &World,
    typed: &Typed,
) -> Result<Option<u32>, AllocError>
    requires rising { IsRising (view_instructions typed.now.code.instructions) }
    ensures first { IfOk result (λ found. MatchOption found ((pc : ℕ) → ¬ HasBeforeSuperAt world.now (view_typed typed.now) pc) (IsLeast (HasBeforeSuperAt world.now (view_typed typed.now)))) }
{
    if !is_constructor(&typed.code.name) {
        return Ok(None);
    }
    let instructions = typed.code.instructions.as_slice();
    let frames = typed.frames.as_slice();
    if !begins_with_receiver(alloc, instructions, frames)? {
        return Ok(Some(0));
    }
    match first_own_call(instructions, frames) {
        Some(call) => first_up_to(alloc, world, typed, call),
        None => Ok(None),
    }
}
