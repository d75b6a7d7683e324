//! Which values of instructions an opcode spells (JVMS 4.9.1, 6.5).

ghost use Rattle.std.specs.Prelude.{◌≡◌, ◌+◌, nat_le, IfSome, IfNone};
ghost use Rattle.std.specs.Int.{is_in_range};
ghost use Rattle.dj_names.specs.Types.{view_type, view_descriptor};
ghost use Rattle.dj_names.specs.Descriptors.{dimensions};
ghost use Rattle.dj_instructions.specs.Jumps.{do_rise};
ghost use Rattle.dj_instructions.specs.PoolMeanings.{is_plain_name};
ghost use Rattle.dj_instructions.specs.Instructions.{view_instruction, view_method_ref};
ghost use Rattle.dj_effects.specs.Spelled as spec;
ghost use Rattle.dj_effects.specs.Spelled.{is_named, is_method, is_number, is_whole_number, has_calc, is_kind, are_two_numbers, has_conversion, has_comparison, has_keys, is_method_of, is_spelled};

use dj_instructions::{Calc, Instruction, Kind, MethodRef};
use dj_names::{Descriptor, JType, Units, is_constructor, is_initialiser};

/// Whether a Class entry may name the type.
fn is_named(kind: &JType) -> bool
    ensures named { result ≡ is_named (view_type kind.now) }
{
    match kind {
        JType::Class(_) | JType::Array(_) => true,
        JType::Boolean
        | JType::Byte
        | JType::Char
        | JType::Short
        | JType::Int
        | JType::Long
        | JType::Float
        | JType::Double => false,
    }
}

/// Whether the descriptor is a method's.
fn is_method(descriptor: &Descriptor) -> bool
    ensures method { result ≡ is_method (view_descriptor descriptor.now) }
{
    match descriptor {
        Descriptor::Method { .. } => true,
        Descriptor::Field(_) => false,
    }
}

/// Whether the name is neither that of a constructor nor that of a static initialiser.
fn is_plain_name(name: &Units) -> bool
    ensures plain { result ≡ is_plain_name name.now }
{
    !(is_constructor(name) || is_initialiser(name))
}

/// Whether the kind is one of numbers.
fn is_number(kind: Kind) -> bool
    ensures number { result ≡ is_number kind }
{
    match kind {
        Kind::Int | Kind::Long | Kind::Float | Kind::Double => true,
        Kind::Ref => false,
    }
}

/// Whether the kind is one of numbers that are kept as bits.
fn is_whole_number(kind: Kind) -> bool
    ensures whole { result ≡ is_whole_number kind }
{
    match kind {
        Kind::Int | Kind::Long => true,
        Kind::Float | Kind::Double | Kind::Ref => false,
    }
}

/// Whether the calculation has the kind.
fn has_calc(calc: Calc, kind: Kind) -> bool
    ensures calc { result ≡ has_calc calc kind }
{
    match calc {
        Calc::Add | Calc::Sub | Calc::Mul | Calc::Div | Calc::Rem | Calc::Neg => is_number(kind),
        Calc::Shl | Calc::Shr | Calc::Ushr | Calc::And | Calc::Or | Calc::Xor => {
            is_whole_number(kind)
        }
    }
}

/// The place of a kind in the order of opcodes.
fn place_of(kind: Kind) -> u8
    ensures place { result ≡ spec.place_of kind }
{
    match kind {
        Kind::Int => 0,
        Kind::Long => 1,
        Kind::Float => 2,
        Kind::Double => 3,
        Kind::Ref => 4,
    }
}

/// Whether two kinds are the same.
pub fn is_kind(first: Kind, second: Kind) -> bool
    ensures kind { result ≡ is_kind first second }
{
    place_of(first) == place_of(second)
}

/// Whether the first is a kind of numbers, and another than the second.
fn are_two_numbers(from: Kind, to: Kind) -> bool
    ensures two { result ≡ are_two_numbers from to }
{
    is_number(from) && !is_kind(from, to)
}

/// Whether there is such a conversion.
fn has_conversion(from: Kind, to: &JType) -> bool
    ensures conversion { result ≡ has_conversion from (view_type to.now) }
{
    match to {
        JType::Byte | JType::Char | JType::Short => is_kind(from, Kind::Int),
        JType::Int => are_two_numbers(from, Kind::Int),
        JType::Long => are_two_numbers(from, Kind::Long),
        JType::Float => are_two_numbers(from, Kind::Float),
        JType::Double => are_two_numbers(from, Kind::Double),
        JType::Boolean | JType::Class(_) | JType::Array(_) => false,
    }
}

/// Whether there is such a comparison.
fn has_comparison(kind: Kind, greater: bool) -> bool
    ensures comparison { result ≡ has_comparison kind greater }
{
    match kind {
        Kind::Long => !greater,
        Kind::Float | Kind::Double => true,
        Kind::Int | Kind::Ref => false,
    }
}

/// Whether a `tableswitch` has a key or more, each of which is an int.
fn has_keys(low: i32, targets: &[u32]) -> bool
    ensures keys { result ≡ has_keys low targets.now }
{
    !targets.is_empty() && i64::from(low) + targets.len() as i64 <= 0x8000_0000
}

/// Whether each key is above the one before it.
fn do_rise(cases: &[(i32, u32)]) -> bool
    ensures rise { result ≡ do_rise cases.now }
{
    let mut left = cases;
    while let [one, rest @ ..] = left {
        if let [next, ..] = rest {
            if one.0 >= next.0 {
                return false;
            }
        }
        left = rest;
    }
    true
}

/// The type of the elements of an array.
fn element_of(kind: &JType) -> Option<&JType>
    ensures array { IfSome result (λ element. dimensions (view_type kind.now) ≡ dimensions (view_type element.now) + 1) }
    ensures other { IfNone result (dimensions (view_type kind.now) ≡ 0) }
{
    match kind {
        JType::Array(element) => Some(element.get()),
        JType::Boolean
        | JType::Byte
        | JType::Char
        | JType::Short
        | JType::Int
        | JType::Long
        | JType::Float
        | JType::Double
        | JType::Class(_) => None,
    }
}

/// Whether a type has so many dimensions, or more.
fn has_dimensions(kind: &JType, least: u8) -> bool
    ensures dimensions { result ≡ nat_le least (dimensions (view_type kind.now)) }
{
    let mut inner = kind;
    for _ in 0..least {
        match element_of(inner) {
            Some(element) => inner = element,
            None => return false,
        }
    }
    true
}

/// Whether the method is one of a class or an array type, with a method's descriptor.
fn is_method_of(method: &MethodRef) -> bool
    ensures method { result ≡ is_method_of (view_method_ref method.now) }
{
    is_named(&method.owner) && is_method(&method.descriptor)
}

/// Whether there can be an array of so many sizes.
fn has_sizes(class: &JType, sizes: u8) -> bool
    ensures sizes { result ≡ is_in_range 1 (dimensions (view_type class.now)) sizes }
{
    sizes >= 1 && has_dimensions(class, sizes)
}

/// Whether an opcode spells the instruction.
pub fn is_spelled(instruction: &Instruction) -> bool
    ensures spelled { result ≡ is_spelled (view_instruction instruction.now) }
{
    match instruction {
        Instruction::PushClass(class) => is_named(class),
        Instruction::PushHandle { owner, .. } => is_named(owner),
        Instruction::PushMethodType(descriptor) => is_method(descriptor),
        Instruction::Calc(calc, kind) => has_calc(*calc, *kind),
        Instruction::Convert(from, to) => has_conversion(*from, to),
        Instruction::Compare(kind, greater) => has_comparison(*kind, *greater),
        Instruction::TableSwitch { low, targets, .. } => has_keys(*low, targets.as_slice()),
        Instruction::LookupSwitch { cases, .. } => do_rise(cases.as_slice()),
        Instruction::GetStatic(field) => is_named(&field.owner),
        Instruction::PutStatic(field) => is_named(&field.owner),
        Instruction::GetField(field) => is_named(&field.owner),
        Instruction::PutField(field) => is_named(&field.owner),
        Instruction::InvokeVirtual(method) => {
            is_method_of(method) && is_plain_name(&method.name) && !method.interface
        }
        Instruction::InvokeSpecial(method) => {
            is_method_of(method) && !is_initialiser(&method.name)
        }
        Instruction::InvokeStatic(method) => is_method_of(method) && is_plain_name(&method.name),
        Instruction::InvokeInterface(method) => {
            is_method_of(method) && is_plain_name(&method.name) && method.interface
        }
        Instruction::InvokeDynamic {
            name,
            descriptor,
            ..
        } => is_method(descriptor) && is_plain_name(name),
        Instruction::NewArray(element) => !has_dimensions(element, 255),
        Instruction::MultiNewArray(class, sizes) => has_sizes(class, *sizes),
        Instruction::CheckCast(class) => is_named(class),
        Instruction::InstanceOf(class) => is_named(class),
        Instruction::Nop
        | Instruction::PushNull
        | Instruction::Push(_)
        | Instruction::Load(..)
        | Instruction::Store(..)
        | Instruction::ArrayLoad(_)
        | Instruction::ArrayStore(_)
        | Instruction::Pop
        | Instruction::Pop2
        | Instruction::Dup
        | Instruction::DupX1
        | Instruction::DupX2
        | Instruction::Dup2
        | Instruction::Dup2X1
        | Instruction::Dup2X2
        | Instruction::Swap
        | Instruction::Iinc(..)
        | Instruction::IfZero(..)
        | Instruction::IfInts(..)
        | Instruction::IfRefs(..)
        | Instruction::IfNull(..)
        | Instruction::Goto(_)
        | Instruction::Return(_)
        | Instruction::New(_)
        | Instruction::ArrayLength
        | Instruction::Throw
        | Instruction::MonitorEnter
        | Instruction::MonitorExit => true,
    }
}
