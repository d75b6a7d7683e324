//! Instructions by their pcs, looked up by halves.

ghost use Rattle.std.specs.Prelude.{◌≡◌, ◌↔◌, IsTrue, IsSome, IfOk, IfErr};
ghost use Rattle.std.specs.Option.{option_copied, option_map};
ghost use Rattle.dj_instructions.specs.Instructions.{IsRising, instruction_at, view_instruction, view_instructions};
ghost use Rattle.dj_instructions.specs.Places.{IsPlaceOf, IsNoPlace};

use crate::instruction::Instruction;

/// The place of the instruction at a pc, or that there is none.
fn place_of(instructions: &[(u32, Instruction)], pc: u32) -> Result<usize, usize>
    requires rising { IsRising (view_instructions instructions.now) }
    ensures found { IfOk result (IsPlaceOf instructions.now pc) }
    ensures absent { IfErr result (λ _. IsNoPlace instructions.now pc) }
{
    instructions.binary_search_by_key(&pc, |(at, _)| *at)
}

/// The instruction that begins at a pc.
pub fn instruction_at(instructions: &[(u32, Instruction)], pc: u32) -> Option<&Instruction>
    requires rising { IsRising (view_instructions instructions.now) }
    ensures found { option_map view_instruction (option_copied result) ≡ instruction_at (view_instructions instructions.now) pc }
{
    match place_of(instructions, pc) {
        Ok(place) => Some(&instructions[place].1),
        Err(_) => None,
    }
}

/// Whether an instruction begins at a pc.
pub fn is_start(instructions: &[(u32, Instruction)], pc: u32) -> bool
    requires rising { IsRising (view_instructions instructions.now) }
    ensures start { IsTrue result ↔ IsSome (instruction_at (view_instructions instructions.now) pc) }
{
    instruction_at(instructions, pc).is_some()
}
