//! Where instructions stand.

ghost use Rattle.std.specs.Prelude.{IfOk, IfErr};
ghost use Rattle.dj_instructions.specs.Instructions.{IsRising, view_instructions};
ghost use Rattle.dj_instructions.specs.Places.{IsPlaceOf, IsNoPlace};

use dj_code::Instruction;

/// The place of the instruction at a pc, or that there is none.
pub fn place_of(instructions: &[(u32, Instruction)], pc: u32) -> Result<usize, usize>
    requires rising { IsRising (view_instructions instructions.now) }
    ensures found { IfOk result (IsPlaceOf instructions.now pc) }
    ensures absent { IfErr result (λ _. IsNoPlace instructions.now pc) }
{
    instructions.binary_search_by_key(&pc, |(at, _)| *at)
}
