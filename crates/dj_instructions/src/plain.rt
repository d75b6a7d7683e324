//! The instructions with a number or two behind their opcode (JVMS 6.5).

ghost use Rattle.std.specs.Prelude.{◌≡◌};
ghost use Rattle.std.specs.Option.{option_map};
ghost use Rattle.dj_instructions.specs.Instructions.{view_instruction};
ghost use Rattle.dj_instructions.specs.Meanings.{with_byte, with_short, with_count, widened_load};
ghost use Rattle.dj_instructions.specs.Answers.{IsAnswer};

use crate::alone::{load, store};
use crate::constants::{long_constant, word_constant};
use crate::instruction::Instruction;
use crate::jumps::{jump, target};
use crate::members::{dynamic, field_access, method_call};
use crate::objects::{cast_at, instance_at, new_array_at, new_at, primitive_array};
use dj_names::Constant;
use dj_pool::Pool;
use std::alloc::{AllocError, Global};

/// An opcode with one byte behind it.
#[tactic(auto, unfolding(crate::specs::Meanings::with_byte))]
pub fn with_byte(
    alloc: Global,
    pool: &Pool,
    opcode: u8,
    x: u8,
) -> Result<Option<Instruction>, AllocError>
    ensures meant { IsAnswer pool.now (with_byte pool.now opcode x) result }
{
    match opcode {
        16 => Ok(Some(Instruction::Push(Constant::Int(i32::from(x.cast_signed()))))),
        18 => word_constant(alloc, pool, u16::from(x)),
        21..=25 => Ok(load(opcode - 21, u16::from(x))),
        54..=58 => Ok(store(opcode - 54, u16::from(x))),
        188 => Ok(primitive_array(x)),
        _ => Ok(None),
    }
}

/// An opcode with two bytes behind it.
#[tactic(auto, unfolding(crate::specs::Meanings::with_short))]
pub fn with_short(
    alloc: Global,
    pool: &Pool,
    pc: u32,
    opcode: u8,
    x: u16,
) -> Result<Option<Instruction>, AllocError>
    ensures meant { IsAnswer pool.now (with_short pool.now pc opcode x) result }
{
    match opcode {
        17 => Ok(Some(Instruction::Push(Constant::Int(i32::from(x.cast_signed()))))),
        19 => word_constant(alloc, pool, x),
        20 => Ok(long_constant(pool, x)),
        178..=181 => field_access(alloc, pool, opcode, x),
        182..=184 => method_call(alloc, pool, opcode, x),
        187 => new_at(alloc, pool, x),
        189 => new_array_at(alloc, pool, x),
        192 => cast_at(alloc, pool, x),
        193 => instance_at(alloc, pool, x),
        _ => Ok(jump(opcode, target(pc, i32::from(x.cast_signed())))),
    }
}

/// An opcode with an index and two bytes that aren't looked at behind it.
pub fn with_count(
    alloc: Global,
    pool: &Pool,
    opcode: u8,
    x: u16,
) -> Result<Option<Instruction>, AllocError>
    ensures meant { IsAnswer pool.now (with_count pool.now opcode x) result }
{
    match opcode {
        185 => method_call(alloc, pool, opcode, x),
        _ => dynamic(alloc, pool, x),
    }
}

/// A load or a store that is made wide.
pub fn widened_load(opcode: u8, slot: u16) -> Option<Instruction>
    ensures load { option_map view_instruction result ≡ widened_load opcode slot }
{
    match opcode {
        21..=25 => load(opcode - 21, slot),
        54..=58 => store(opcode - 54, slot),
        _ => None,
    }
}
