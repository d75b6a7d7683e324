//! Where instructions begin (JVMS 4.7.3).

ghost use Rattle.std.specs.Prelude.{◌≡◌, ◌↔◌, IsSome, IfSome, IsTrue, IfOk, IfErr, MatchOption};
ghost use Rattle.dj_instructions.specs.Instructions.{view_instruction, view_instructions, instruction_at, IsRising};
ghost use Rattle.dj_instructions.specs.Places.{IsPlaceOf, IsNoPlace};
ghost use Rattle.dj_stack_map.specs.Reading.{IsNew};
ghost use Rattle.dj_stack_map.specs.StackMap.{IsNewAt};

use dj_instructions::{Instruction, instruction_at};

/// How many instructions are looked at before all are searched.
const NEAR: usize = 16;

/// The place of the instruction at an offset, where it is among some from a place on.
fn place_near(instructions: &[(u32, Instruction)], near: usize, at: u64) -> Option<usize>
    ensures found { IfSome result (IsPlaceOf instructions.now at) }
{
    for place in near..instructions.len().min(near.saturating_add(NEAR)) {
        if u64::from(instructions[place].0) == at {
            return Some(place);
        }
    }
    None
}

/// The place of the instruction at an offset, which may be larger than a pc, or that there is none.
fn place_of(instructions: &[(u32, Instruction)], at: u64) -> Result<usize, usize>
    requires rising { IsRising (view_instructions instructions.now) }
    ensures found { IfOk result (IsPlaceOf instructions.now at) }
    ensures absent { IfErr result (λ _. IsNoPlace instructions.now at) }
{
    instructions.binary_search_by_key(&at, |(pc, _)| u64::from(*pc))
}

/// The place of the instruction at an offset, which is found sooner where it is near.
fn place_at(instructions: &[(u32, Instruction)], near: usize, at: u64) -> Option<usize>
    requires rising { IsRising (view_instructions instructions.now) }
    ensures place { MatchOption result (IsNoPlace instructions.now at) (IsPlaceOf instructions.now at) }
{
    match place_near(instructions, near, at) {
        Some(place) => Some(place),
        None => place_of(instructions, at).ok(),
    }
}

/// The place of the instruction that begins at an offset, and the offset as a pc. It is found sooner
/// where it is near: at the given place, or not far behind it.
pub fn start_at(instructions: &[(u32, Instruction)], near: usize, at: u64) -> Option<(usize, u32)>
    requires rising { IsRising (view_instructions instructions.now) }
    ensures start { MatchOption result (¬ IsSome (instruction_at (view_instructions instructions.now) at)) (λ x. (x.1 ≡ at) × IsSome (instruction_at (view_instructions instructions.now) at)) }
    ensures place { IfSome result (λ x. IsPlaceOf instructions.now at x.0) }
{
    match place_at(instructions, near, at) {
        Some(place) => Some((place, instructions[place].0)),
        None => None,
    }
}

/// Whether the instruction is a `new`.
fn is_new(instruction: &Instruction) -> bool
    ensures exact { IsTrue result ↔ IsNew (view_instruction instruction.now) }
{
    matches!(instruction, Instruction::New(_))
}

/// Whether a `new` begins at a pc.
pub fn is_new_at(instructions: &[(u32, Instruction)], pc: u32) -> bool
    requires rising { IsRising (view_instructions instructions.now) }
    ensures exact { IsTrue result ↔ IsNewAt (view_instructions instructions.now) pc }
{
    match instruction_at(instructions, pc) {
        Some(instruction) => is_new(instruction),
        None => false,
    }
}
