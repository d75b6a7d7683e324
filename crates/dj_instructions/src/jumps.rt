//! Jumps and switches (JVMS 6.5).

ghost use Rattle.std.specs.Prelude.{◌≡◌, slice_get};
ghost use Rattle.std.specs.Option.{option_map};
ghost use Rattle.dj_instructions.specs.Instructions.{IfZero, IfInts, view_instruction};
ghost use Rattle.dj_instructions.specs.Jumps.{tests, target, jump, do_rise};

use crate::instruction::Instruction;
use crate::kinds::Test;

/// The pc that lies so far from this one.
pub fn target(pc: u32, offset: i32) -> u32
    ensures target { result ≡ target pc offset }
{
    pc.wrapping_add_signed(offset)
}

/// The test at a place in the order of `ifeq` to `ifle`.
fn test_at(place: u8) -> Option<Test>
    ensures test { result ≡ slice_get tests place }
{
    match place {
        0 => Some(Test::Eq),
        1 => Some(Test::Ne),
        2 => Some(Test::Lt),
        3 => Some(Test::Ge),
        4 => Some(Test::Gt),
        5 => Some(Test::Le),
        _ => None,
    }
}

/// `ifeq` to `ifle`.
fn if_zero(place: u8, to: u32) -> Option<Instruction>
    ensures jump { option_map view_instruction result ≡ option_map (λ t. IfZero t to) (slice_get tests place) }
{
    Some(Instruction::IfZero(test_at(place)?, to))
}

/// `if_icmpeq` to `if_icmple`.
fn if_ints(place: u8, to: u32) -> Option<Instruction>
    ensures jump { option_map view_instruction result ≡ option_map (λ t. IfInts t to) (slice_get tests place) }
{
    Some(Instruction::IfInts(test_at(place)?, to))
}

/// A jump with an offset of two bytes, to this pc.
#[tactic(auto, unfolding(crate::specs::Jumps::jump))]
pub fn jump(opcode: u8, to: u32) -> Option<Instruction>
    ensures jump { option_map view_instruction result ≡ jump opcode to }
{
    match opcode {
        153..=158 => if_zero(opcode - 153, to),
        159..=164 => if_ints(opcode - 159, to),
        165..=166 => Some(Instruction::IfRefs(opcode == 165, to)),
        167 => Some(Instruction::Goto(to)),
        198..=199 => Some(Instruction::IfNull(opcode == 198, to)),
        _ => None,
    }
}

/// Whether each key is above the one before it.
pub fn do_rise(cases: &[(i32, u32)]) -> bool
    ensures rise { result ≡ do_rise cases.now }
{
    let mut left = cases;
    while let [one, rest @ ..] = left {
        if let [next, ..] = rest {
            if one.0 >= next.0 {
                return false;
            }
        }
        left = rest;
    }
    true
}
