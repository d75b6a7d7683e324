//! The instructions that no operands follow (JVMS 6.5).

ghost use Rattle.std.specs.Prelude.{◌≡◌, ◌/◌, ◌%◌, slice_get};
ghost use Rattle.std.specs.Option.{option_map};
ghost use Rattle.dj_names.specs.declared.members.Constant.TheVariants as constant;
ghost use Rattle.dj_instructions.specs.Instructions.{Push, ArrayLoad, ArrayStore, Return, view_instruction};
ghost use Rattle.dj_instructions.specs.AloneOpcodes.{kinds, elements, calcs, bit_calcs, stack_moves, conversions, comparisons, float_bits, double_bits, load, store, calculation, alone};

use crate::instruction::Instruction;
use crate::kinds::{Calc, Element, Kind};
use dj_names::{Constant, JType};

/// The kind at a place in the order of opcodes.
pub fn kind_at(place: u8) -> Option<Kind>
    ensures kind { result ≡ slice_get kinds place }
{
    match place {
        0 => Some(Kind::Int),
        1 => Some(Kind::Long),
        2 => Some(Kind::Float),
        3 => Some(Kind::Double),
        4 => Some(Kind::Ref),
        _ => None,
    }
}

/// The element at a place in the order of `iaload` to `saload`.
fn element_at(place: u8) -> Option<Element>
    ensures element { result ≡ slice_get elements place }
{
    match place {
        0 => Some(Element::Int),
        1 => Some(Element::Long),
        2 => Some(Element::Float),
        3 => Some(Element::Double),
        4 => Some(Element::Ref),
        5 => Some(Element::Byte),
        6 => Some(Element::Char),
        7 => Some(Element::Short),
        _ => None,
    }
}

/// A load of the kind at a place.
pub fn load(place: u8, slot: u16) -> Option<Instruction>
    ensures load { option_map view_instruction result ≡ load place slot }
{
    Some(Instruction::Load(kind_at(place)?, slot))
}

/// A store of the kind at a place.
pub fn store(place: u8, slot: u16) -> Option<Instruction>
    ensures store { option_map view_instruction result ≡ store place slot }
{
    Some(Instruction::Store(kind_at(place)?, slot))
}

/// `iadd` to `dneg`, without their kinds.
fn calc_at(place: u8) -> Option<Calc>
    ensures calc { result ≡ slice_get calcs place }
{
    match place {
        0 => Some(Calc::Add),
        1 => Some(Calc::Sub),
        2 => Some(Calc::Mul),
        3 => Some(Calc::Div),
        4 => Some(Calc::Rem),
        5 => Some(Calc::Neg),
        _ => None,
    }
}

/// `ishl` to `lxor`, without their kinds.
fn bit_calc_at(place: u8) -> Option<Calc>
    ensures calc { result ≡ slice_get bit_calcs place }
{
    match place {
        0 => Some(Calc::Shl),
        1 => Some(Calc::Shr),
        2 => Some(Calc::Ushr),
        3 => Some(Calc::And),
        4 => Some(Calc::Or),
        5 => Some(Calc::Xor),
        _ => None,
    }
}

/// `iadd` to `dneg`, by their places.
fn calculation(place: u8) -> Option<Instruction>
    ensures calculation { option_map view_instruction result ≡ calculation calcs (place / 4) (place % 4) }
{
    Some(Instruction::Calc(calc_at(place / 4)?, kind_at(place % 4)?))
}

/// `ishl` to `lxor`, by their places.
fn bit_calculation(place: u8) -> Option<Instruction>
    ensures calculation { option_map view_instruction result ≡ calculation bit_calcs (place / 2) (place % 2) }
{
    Some(Instruction::Calc(bit_calc_at(place / 2)?, kind_at(place % 2)?))
}

/// `pop` to `swap`.
fn stack_move(place: u8) -> Option<Instruction>
    ensures moved { option_map view_instruction result ≡ slice_get stack_moves place }
{
    match place {
        0 => Some(Instruction::Pop),
        1 => Some(Instruction::Pop2),
        2 => Some(Instruction::Dup),
        3 => Some(Instruction::DupX1),
        4 => Some(Instruction::DupX2),
        5 => Some(Instruction::Dup2),
        6 => Some(Instruction::Dup2X1),
        7 => Some(Instruction::Dup2X2),
        8 => Some(Instruction::Swap),
        _ => None,
    }
}

/// `i2l` to `i2s`.
fn conversion(place: u8) -> Option<Instruction>
    ensures converted { option_map view_instruction result ≡ slice_get conversions place }
{
    match place {
        0 => Some(Instruction::Convert(Kind::Int, JType::Long)),
        1 => Some(Instruction::Convert(Kind::Int, JType::Float)),
        2 => Some(Instruction::Convert(Kind::Int, JType::Double)),
        3 => Some(Instruction::Convert(Kind::Long, JType::Int)),
        4 => Some(Instruction::Convert(Kind::Long, JType::Float)),
        5 => Some(Instruction::Convert(Kind::Long, JType::Double)),
        6 => Some(Instruction::Convert(Kind::Float, JType::Int)),
        7 => Some(Instruction::Convert(Kind::Float, JType::Long)),
        8 => Some(Instruction::Convert(Kind::Float, JType::Double)),
        9 => Some(Instruction::Convert(Kind::Double, JType::Int)),
        10 => Some(Instruction::Convert(Kind::Double, JType::Long)),
        11 => Some(Instruction::Convert(Kind::Double, JType::Float)),
        12 => Some(Instruction::Convert(Kind::Int, JType::Byte)),
        13 => Some(Instruction::Convert(Kind::Int, JType::Char)),
        14 => Some(Instruction::Convert(Kind::Int, JType::Short)),
        _ => None,
    }
}

/// `lcmp` to `dcmpg`.
fn comparison(place: u8) -> Option<Instruction>
    ensures compared { option_map view_instruction result ≡ slice_get comparisons place }
{
    match place {
        0 => Some(Instruction::Compare(Kind::Long, false)),
        1 => Some(Instruction::Compare(Kind::Float, false)),
        2 => Some(Instruction::Compare(Kind::Float, true)),
        3 => Some(Instruction::Compare(Kind::Double, false)),
        4 => Some(Instruction::Compare(Kind::Double, true)),
        _ => None,
    }
}

/// `fconst_0` to `fconst_2`.
fn float_constant(place: u8) -> Option<Instruction>
    ensures pushed { option_map view_instruction result ≡ option_map (λ bits. Push (constant.Float bits)) (slice_get float_bits place) }
{
    match place {
        0 => Some(Instruction::Push(Constant::Float(0))),
        1 => Some(Instruction::Push(Constant::Float(0x3f80_0000))),
        2 => Some(Instruction::Push(Constant::Float(0x4000_0000))),
        _ => None,
    }
}

/// `dconst_0` and `dconst_1`.
fn double_constant(place: u8) -> Option<Instruction>
    ensures pushed { option_map view_instruction result ≡ option_map (λ bits. Push (constant.Double bits)) (slice_get double_bits place) }
{
    match place {
        0 => Some(Instruction::Push(Constant::Double(0))),
        1 => Some(Instruction::Push(Constant::Double(0x3ff0_0000_0000_0000))),
        _ => None,
    }
}

/// `iaload` to `saload`.
fn array_load(place: u8) -> Option<Instruction>
    ensures load { option_map view_instruction result ≡ option_map ArrayLoad (slice_get elements place) }
{
    Some(Instruction::ArrayLoad(element_at(place)?))
}

/// `iastore` to `sastore`.
fn array_store(place: u8) -> Option<Instruction>
    ensures store { option_map view_instruction result ≡ option_map ArrayStore (slice_get elements place) }
{
    Some(Instruction::ArrayStore(element_at(place)?))
}

/// `ireturn` to `areturn`.
fn returning(place: u8) -> Option<Instruction>
    ensures returned { option_map view_instruction result ≡ option_map (λ k. Return (Some k)) (slice_get kinds place) }
{
    Some(Instruction::Return(Some(kind_at(place)?)))
}

/// The instruction of an opcode that no operands follow.
#[tactic(auto, unfolding(crate::specs::AloneOpcodes::alone))]
pub fn alone(opcode: u8) -> Option<Instruction>
    ensures alone { option_map view_instruction result ≡ alone opcode }
{
    match opcode {
        0 => Some(Instruction::Nop),
        1 => Some(Instruction::PushNull),
        2..=8 => Some(Instruction::Push(Constant::Int(i32::from(opcode) - 3))),
        9..=10 => Some(Instruction::Push(Constant::Long(i64::from(opcode - 9)))),
        11..=13 => float_constant(opcode - 11),
        14..=15 => double_constant(opcode - 14),
        26..=45 => load((opcode - 26) / 4, u16::from((opcode - 26) % 4)),
        46..=53 => array_load(opcode - 46),
        59..=78 => store((opcode - 59) / 4, u16::from((opcode - 59) % 4)),
        79..=86 => array_store(opcode - 79),
        87..=95 => stack_move(opcode - 87),
        96..=119 => calculation(opcode - 96),
        120..=131 => bit_calculation(opcode - 120),
        133..=147 => conversion(opcode - 133),
        148..=152 => comparison(opcode - 148),
        172..=176 => returning(opcode - 172),
        177 => Some(Instruction::Return(None)),
        190 => Some(Instruction::ArrayLength),
        191 => Some(Instruction::Throw),
        194 => Some(Instruction::MonitorEnter),
        195 => Some(Instruction::MonitorExit),
        _ => None,
    }
}
