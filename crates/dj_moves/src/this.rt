//! Whether a method keeps `this` in its first local.

ghost use Rattle.std.specs.Prelude.{◌≡◌};
ghost use Rattle.dj_values.specs.Fits.{is_static};
ghost use Rattle.dj_instructions.specs.Instructions.{view_instruction, view_instructions};
ghost use Rattle.dj_code.specs.MethodCode.{view_code};
ghost use Rattle.dj_edges.specs.Edges as edges;
ghost use Rattle.dj_edges.specs.Edges.{is_slot};
ghost use Rattle.dj_moves.specs.Moves.{slot_written};

use dj_code::{Code, Instruction};

const STATIC: u16 = 0x8;

/// Whether an instruction writes the first local.
fn writes_first(instruction: &Instruction) -> bool
    ensures writes { result ≡ is_slot 0 (slot_written (view_instruction instruction.now)) }
{
    match instruction {
        Instruction::Store(_, slot) => *slot == 0,
        Instruction::Iinc(slot, _) => *slot == 0,
        _ => false,
    }
}

/// Whether one of some instructions does.
fn write_first(instructions: &[(u32, Instruction)]) -> bool
    ensures writes { result ≡ edges.writes_slot 0 (view_instructions instructions.now) }
{
    for at in instructions {
        if writes_first(&at.1) {
            return true;
        }
    }
    false
}

/// Whether flags are those of a static method.
fn is_static(flags: u16) -> bool
    ensures exact { result ≡ is_static flags }
{
    flags & STATIC != 0
}

/// Whether the first local is `this` throughout.
pub fn keeps_this(code: &Code) -> bool
    ensures keeps { result ≡ edges.keeps_this (view_code code.now) }
{
    !is_static(code.flags) && !write_first(code.instructions.as_slice())
}
