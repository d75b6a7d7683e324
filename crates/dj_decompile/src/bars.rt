//! What keeps code from being one block.

ghost use Rattle.std.specs.Prelude.{◌≡◌};
ghost use Rattle.dj_instructions.specs.Instructions.{view_instruction, view_instructions};
ghost use Rattle.dj_decompiled.specs.Decompiled as spec;

use dj_code::{Handler, Instruction};
use dj_starts::{Control, control_of, in_range};

/// Whether control leaves an instruction by a jump or a switch, or it is one of monitors.
fn is_jump(control: Control) -> bool
    ensures jump { result ≡ spec.is_jump control }
{
    match control {
        Control::Branch | Control::Jump | Control::Enter | Control::Exit => true,
        Control::On | Control::OnOrThrown | Control::Return | Control::Throw => false,
    }
}

/// Whether an instruction is so, or an exception range has it.
fn is_barred(handlers: &[Handler], at: &(u32, Instruction)) -> bool
    ensures barred { result ≡ spec.is_barred handlers.now (at.now.0, view_instruction at.now.1) }
{
    let jumps = is_jump(control_of(&at.1));
    let ranged = in_range(handlers, at.0);
    jumps || ranged
}

/// The offset of the first of these instructions that is.
pub fn first_barred(handlers: &[Handler], instructions: &[(u32, Instruction)]) -> Option<u32>
    ensures first { result ≡ spec.first_barred handlers.now (view_instructions instructions.now) }
{
    let mut left = instructions;
    while let [at, rest @ ..] = left {
        if is_barred(handlers, at) {
            return Some(at.0);
        }
        left = rest;
    }
    None
}
