//! What instructions do to the entries of the stack, whatever they are (JVMS 6.5).

ghost use Rattle.std.specs.Prelude.{◌≡◌, ◌+◌, length, map, reverse, IfOk};
ghost use Rattle.std.specs.Option.{option_copied, option_map};
ghost use Rattle.dj_names.specs.Types.{view_descriptor, parameters_of};
ghost use Rattle.dj_instructions.specs.Instructions.{view_instruction};
ghost use Rattle.dj_frames.specs.Frames.{view_tags};
ghost use Rattle.dj_effects.specs.Operands.{moved_words, form_of as first_form};
ghost use Rattle.dj_applying.specs.Done.{view_form};
ghost use Rattle.dj_receivers.specs.Passing as spec;
ghost use Rattle.dj_receivers.specs.Passed.{view_pass};

use dj_applying::{DUP, DUP_X1, DUP_X2, DUP2, DUP2_X1, DUP2_X2, Form, POP, POP2, SWAP, form_of};
use dj_code::{Instruction, Slots};
use dj_effects::Stack;
use dj_instructions::Calc;
use dj_names::Descriptor;
use std::alloc::{AllocError, Global};

/// What an instruction does to the entries of the stack, whatever they are.
#[derive(Clone, Copy)]
pub enum Pass {
    /// It takes so many of them, and puts another one there, or none.
    Takes(usize, bool),
    /// It puts there what local 0 holds.
    Own,
    /// It puts them elsewhere, in the first of these ways that fits.
    Moves(&'static [Form]),
}

/// What a calculation does.
fn pass_of_calc(calc: Calc) -> Pass
    ensures pass { view_pass result ≡ spec.pass_of_calc calc }
{
    match calc {
        Calc::Neg => Pass::Takes(1, true),
        Calc::Add
        | Calc::Sub
        | Calc::Mul
        | Calc::Div
        | Calc::Rem
        | Calc::Shl
        | Calc::Shr
        | Calc::Ushr
        | Calc::And
        | Calc::Or
        | Calc::Xor => Pass::Takes(2, true),
    }
}

/// How many parameters a descriptor has.
pub fn count_of(descriptor: &Descriptor) -> usize
    ensures count { result ≡ length (parameters_of (view_descriptor descriptor.now)) }
{
    match descriptor {
        Descriptor::Field(_) => 0,
        Descriptor::Method { parameters, .. } => parameters.as_slice().len(),
    }
}

/// What a call does that takes its arguments alone.
fn pass_of_call(descriptor: &Descriptor) -> Pass
    ensures pass { view_pass result ≡ spec.pass_of_call 0 (view_descriptor descriptor.now) }
{
    match descriptor {
        Descriptor::Field(_) => Pass::Takes(0, true),
        Descriptor::Method { parameters, result } => {
            Pass::Takes(parameters.as_slice().len(), result.is_some())
        }
    }
}

/// What a call does that takes an object besides.
fn pass_of_call_on(descriptor: &Descriptor) -> Pass
    ensures pass { view_pass result ≡ spec.pass_of_call 1 (view_descriptor descriptor.now) }
{
    match descriptor {
        Descriptor::Field(_) => Pass::Takes(1, true),
        Descriptor::Method { parameters, result } => {
            Pass::Takes(parameters.as_slice().len() + 1, result.is_some())
        }
    }
}

/// What an instruction does to the entries of the stack.
pub fn pass_of(instruction: &Instruction) -> Pass
    ensures pass { view_pass result ≡ spec.pass_of (view_instruction instruction.now) }
{
    match instruction {
        Instruction::Nop
        | Instruction::Iinc(_, _)
        | Instruction::Goto(_)
        | Instruction::Return(_) => Pass::Takes(0, false),
        Instruction::PushNull
        | Instruction::Push(_)
        | Instruction::PushClass(_)
        | Instruction::PushHandle { .. }
        | Instruction::PushMethodType(_)
        | Instruction::GetStatic(_)
        | Instruction::New(_) => Pass::Takes(0, true),
        Instruction::Load(_, slot) => {
            if *slot == 0 {
                Pass::Own
            } else {
                Pass::Takes(0, true)
            }
        }
        Instruction::Store(_, _)
        | Instruction::IfZero(_, _)
        | Instruction::IfNull(_, _)
        | Instruction::TableSwitch { .. }
        | Instruction::LookupSwitch { .. }
        | Instruction::PutStatic(_)
        | Instruction::Throw
        | Instruction::MonitorEnter
        | Instruction::MonitorExit => Pass::Takes(1, false),
        Instruction::Convert(_, _)
        | Instruction::GetField(_)
        | Instruction::NewArray(_)
        | Instruction::ArrayLength
        | Instruction::CheckCast(_)
        | Instruction::InstanceOf(_) => Pass::Takes(1, true),
        Instruction::IfInts(_, _) | Instruction::IfRefs(_, _) | Instruction::PutField(_) => {
            Pass::Takes(2, false)
        }
        Instruction::ArrayLoad(_) | Instruction::Compare(_, _) => Pass::Takes(2, true),
        Instruction::ArrayStore(_) => Pass::Takes(3, false),
        Instruction::MultiNewArray(_, sizes) => Pass::Takes(usize::from(*sizes), true),
        Instruction::Calc(operation, _) => pass_of_calc(*operation),
        Instruction::InvokeVirtual(method)
        | Instruction::InvokeSpecial(method)
        | Instruction::InvokeInterface(method) => pass_of_call_on(&method.descriptor),
        Instruction::InvokeStatic(method) => pass_of_call(&method.descriptor),
        Instruction::InvokeDynamic { descriptor, .. } => pass_of_call(descriptor),
        Instruction::Pop => Pass::Moves(&POP),
        Instruction::Pop2 => Pass::Moves(&POP2),
        Instruction::Dup => Pass::Moves(&DUP),
        Instruction::DupX1 => Pass::Moves(&DUP_X1),
        Instruction::DupX2 => Pass::Moves(&DUP_X2),
        Instruction::Dup2 => Pass::Moves(&DUP2),
        Instruction::Dup2X1 => Pass::Moves(&DUP2_X1),
        Instruction::Dup2X2 => Pass::Moves(&DUP2_X2),
        Instruction::Swap => Pass::Moves(&SWAP),
    }
}

/// The first form that fits a stack, which is listed from the bottom up.
pub fn form_at(
    alloc: Global,
    stack: &Slots,
    forms: &'static [Form],
) -> Result<Option<&'static Form>, AllocError>
    ensures first { IfOk result (λ found. option_map view_form (option_copied found) ≡ first_form (map view_form forms.now) (map moved_words (reverse (view_tags stack.now)))) }
{
    let entries = Stack::from_slots(alloc, stack)?;
    Ok(form_of(&entries, forms))
}
