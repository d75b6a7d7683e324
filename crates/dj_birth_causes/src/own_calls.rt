//! Calls of a constructor on `this`, in another one (JLS 8.8.7.1).

ghost use Rattle.std.specs.Prelude.{ℕ, map, MatchOption};
ghost use Rattle.dj_instructions.specs.Instructions.{IsRising, view_instructions};
ghost use Rattle.dj_frames.specs.Frames.{view_frame};
ghost use Rattle.dj_code.specs.Targets.{IsLeast};
ghost use Rattle.dj_receivers.specs.OwnCalls.{calls_own};
ghost use Rattle.dj_birth_causes.specs.OwnCalls.{StandsAt};

use dj_code::{Frame, Instruction};
use dj_receivers::calls_own;

/// The offset of the first of these instructions that calls a constructor on `this`.
pub fn first_own_call(instructions: &[(u32, Instruction)], frames: &[Frame]) -> Option<u32>
    requires rising { IsRising (view_instructions instructions.now) }
    ensures first { MatchOption result ((pc : ℕ) → ¬ StandsAt calls_own (view_instructions instructions.now) (map view_frame frames.now) pc) (IsLeast (StandsAt calls_own (view_instructions instructions.now) (map view_frame frames.now))) }
{
    let mut left = instructions;
    let mut before = frames;
    while let [at, rest @ ..] = left {
        let [frame, more @ ..] = before else {
            return None;
        };
        if calls_own(&at.1, frame) {
            return Some(at.0);
        }
        left = rest;
        before = more;
    }
    None
}
