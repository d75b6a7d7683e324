//! The instructions of a method's code (JVMS 4.7.3, 4.9.1).

ghost use Rattle.std.specs.Prelude.{◌≡◌, ◌≢◌, ◌≤◌, length, [], Ok, Err, IfOk, IfErr};
ghost use Rattle.dj_layout.specs.declared.fault.Fault.{Fault};
ghost use Rattle.dj_layout.specs.Whole.{Gives};
ghost use Rattle.dj_instructions.specs.declared.kinds.BadKind as kinds;
ghost use Rattle.dj_instructions.specs.Instructions.{Instructions, IsRising, view_instructions};
ghost use Rattle.dj_instructions.specs.Listing.{IsListing, HasBadInstruction, IsBad, IsRead};

use crate::instruction::Instruction;
use crate::kinds::BadKind;
use crate::reading::instruction_read;
use dj_layout::Stop;
use dj_names::Items;
use dj_pool::Pool;
use std::alloc::Global;

/// The instructions of a method's code, each with its pc.
fn listed(
    alloc: Global,
    pool: &Pool,
    code: &[u8],
) -> Result<Items<(u32, Instruction)>, Stop<BadKind>>
    requires { length code.now ≤ 65535 }
    ensures reads { IsRead pool.now code.now result }
{
    let end = code.len();
    let mut found = Items::new(alloc);
    let mut rest = code;
    while !rest.is_empty() {
        let pc = (end - rest.len()) as u32;
        let (instruction, after) = instruction_read(alloc, pool, pc, rest, end)?;
        found.push((pc, instruction))?;
        rest = after;
    }
    Ok(found)
}

/// The instructions of a method's code, each with its pc; an answer without a fault is their listing,
/// and a fault is Opcode or CutOff at the pc of the first bad instruction. Targets aren't looked at.
pub fn read_instructions(
    alloc: Global,
    pool: &Pool,
    code: &[u8],
) -> Result<Items<(u32, Instruction)>, Stop<BadKind>>
    requires { length code.now ≤ 65535 }
    // What is read is the listing of the code.
    ensures read { IfOk result (λ found. IsListing pool.now code.now (view_instructions found)) }
    // A fault is that of the first bad instruction.
    ensures broken { IfErr result (IsBad pool.now code.now) }
    // The listing of the code is read, unless memory runs out.
    ensures value { (instructions : Instructions) → IsListing pool.now code.now instructions → Gives view_instructions result (Ok instructions) }
    // The fault of the code is answered, unless memory runs out.
    ensures fault { (fault : Fault kinds.BadKind) → HasBadInstruction pool.now code.now fault → Gives view_instructions result (Err fault) }
    // The pcs rise from 0.
    ensures rising { IfOk result (λ found. IsRising (view_instructions found)) }
    // Code that isn't empty has an instruction.
    ensures some { IfOk result (λ found. length code.now ≢ 0 → found ≢ []) }
{
    listed(alloc, pool, code)
}
