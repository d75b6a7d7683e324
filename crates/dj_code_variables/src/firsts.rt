//! The frames with which blocks begin.

ghost use Rattle.std.specs.Prelude.{◌≡◌, IfOk, IfErr, map};
ghost use Rattle.dj_instructions.specs.Instructions.{view_instructions, IsRising};
ghost use Rattle.dj_instructions.specs.Places.{IsPlaceOf, IsNoPlace};
ghost use Rattle.dj_code.specs.MethodCode.{view_typed};
ghost use Rattle.dj_numbers.specs.Frames.{view_first};
ghost use Rattle.dj_code_variables.specs.Firsts.{IsFirstAt, AreFirsts};

use dj_code::{Frame, Instruction, Typed};
use dj_names::Items;
use std::alloc::{AllocError, Global};

/// The place of the instruction at a pc, or that there is none.
fn place_of(instructions: &[(u32, Instruction)], pc: u32) -> Result<usize, usize>
    requires rising { IsRising (view_instructions instructions.now) }
    ensures found { IfOk result (IsPlaceOf instructions.now pc) }
    ensures absent { IfErr result (λ _. IsNoPlace instructions.now pc) }
{
    instructions.binary_search_by_key(&pc, |(at, _)| *at)
}

/// The frame before the instruction at a pc, where there are both.
fn first_frame(alloc: Global, typed: &Typed, start: u32) -> Result<Option<Frame>, AllocError>
    requires rising { IsRising (view_instructions typed.now.code.instructions) }
    ensures first { IfOk result (λ first. IsFirstAt (view_typed typed.now) start (view_first first)) }
{
    match place_of(typed.code.instructions.as_slice(), start) {
        Ok(place) => match typed.frames.get(place) {
            Some(frame) => {
                let copy = frame.copy(alloc)?;
                Ok(Some(copy))
            }
            None => Ok(None),
        },
        Err(_) => Ok(None),
    }
}

/// The frames with which the blocks begin that start at these pcs.
pub fn first_frames(
    alloc: Global,
    typed: &Typed,
    starts: &[u32],
) -> Result<Items<Option<Frame>>, AllocError>
    requires rising { IsRising (view_instructions typed.now.code.instructions) }
    ensures firsts { IfOk result (λ firsts. AreFirsts (view_typed typed.now) starts.now (map view_first firsts)) }
{
    let mut firsts = Items::new(alloc);
    for start in starts {
        let first = first_frame(alloc, typed, *start)?;
        firsts.push(first)?;
    }
    Ok(firsts)
}
