//! Where the instructions of a method begin, looked up by their offsets.

ghost use Rattle.std.specs.Prelude.{◌≡◌, IfOk, drop};
ghost use Rattle.dj_instructions.specs.Instructions.{view_instructions};
ghost use Rattle.dj_bytecode.specs.Machine as machine;
ghost use Rattle.dj_machine.specs.Runs.{AreStartsFrom};

use dj_code::Instruction;
use std::alloc::{AllocError, Global};
use std::collections::BTreeMap;

/// The place of the first instruction at each offset.
#[derive(Drop)]
pub struct Starts {
    places: BTreeMap<u32, usize>,
}

impl Starts {
    /// Those of these instructions.
    pub fn new(alloc: Global, instructions: &[(u32, Instruction)]) -> Result<Starts, AllocError>
        ensures starts { IfOk result (λ starts. AreStartsFrom 0 (view_instructions instructions.now) starts.places) }
    {
        let mut places = BTreeMap::new(alloc);
        let mut from = instructions.len();
        while from > 0 {
            from -= 1;
            places.insert(instructions[from].0, from)?;
        }
        Ok(Starts { places })
    }

    /// The instructions from an offset on, none where none begins there.
    pub fn code_from<'a>(
        &self,
        instructions: &'a [(u32, Instruction)],
        pc: u32,
    ) -> &'a [(u32, Instruction)]
        requires starts { AreStartsFrom 0 (view_instructions instructions.now) self.now.places }
        ensures from { view_instructions result.now ≡ machine.code_from pc (view_instructions instructions.now) }
    {
        match self.places.get(&pc) {
            Some(place) => instructions_from(instructions, *place),
            None => &[],
        }
    }
}

/// The instructions from a place on.
fn instructions_from(instructions: &[(u32, Instruction)], place: usize) -> &[(u32, Instruction)]
    ensures from { result.now ≡ drop place instructions.now }
{
    if place < instructions.len() {
        &instructions[place..]
    } else {
        &[]
    }
}
