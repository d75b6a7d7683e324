//! What instructions do to the stack whatever values are there (JVMS 2.11.2, 6.5).

ghost use Rattle.std.specs.Prelude.{◌≡◌, ◌↔◌, ◌++◌, List, Some, IsTrue, map, slice_get, slice_index_or, option_map, IfOk, OnOk};
ghost use Rattle.std.specs.Option.{option_copied};
ghost use Rattle.dj_names.specs.declared.header.Header.{Header};
ghost use Rattle.dj_names.specs.Headers.{Name};
ghost use Rattle.dj_values.specs.Values.{Null};
ghost use Rattle.dj_values.specs.Views.{view_value, view_values};
ghost use Rattle.dj_instructions.specs.Instructions.{view_instruction};
ghost use Rattle.dj_bytecode.specs.Shuffles as spec;
ghost use Rattle.dj_bytecode.specs.Shuffles.{value_words, moved, shuffled};
ghost use Rattle.dj_bytecode.specs.Meanings.{meaning_of};
ghost use Rattle.dj_operands.specs.Families.{forms_of};
ghost use Rattle.dj_operands.specs.Stacks.{stacked, view_form, form_of, as_shuffled};

use crate::stack::Stack;
use dj_instructions::Instruction;
use dj_names::Items;
use dj_values::Value;
use std::alloc::{AllocError, Global};

/// The words of the values that are taken, and the places among them of those that are put back; the
/// top first in both.
#[derive(Clone, Copy)]
struct Form {
    takes: &'static [u8],
    gives: &'static [usize],
}

const POP: [Form; 1] = [Form {
    takes: &[1],
    gives: &[],
}];

const POP2: [Form; 2] = [
    Form {
        takes: &[1, 1],
        gives: &[],
    },
    Form {
        takes: &[2],
        gives: &[],
    },
];

const DUP: [Form; 1] = [Form {
    takes: &[1],
    gives: &[0, 0],
}];

const DUP_X1: [Form; 1] = [Form {
    takes: &[1, 1],
    gives: &[0, 1, 0],
}];

const DUP_X2: [Form; 2] = [
    Form {
        takes: &[1, 1, 1],
        gives: &[0, 1, 2, 0],
    },
    Form {
        takes: &[1, 2],
        gives: &[0, 1, 0],
    },
];

const DUP2: [Form; 2] = [
    Form {
        takes: &[1, 1],
        gives: &[0, 1, 0, 1],
    },
    Form {
        takes: &[2],
        gives: &[0, 0],
    },
];

const DUP2_X1: [Form; 2] = [
    Form {
        takes: &[1, 1, 1],
        gives: &[0, 1, 2, 0, 1],
    },
    Form {
        takes: &[2, 1],
        gives: &[0, 1, 0],
    },
];

const DUP2_X2: [Form; 4] = [
    Form {
        takes: &[1, 1, 1, 1],
        gives: &[0, 1, 2, 3, 0, 1],
    },
    Form {
        takes: &[2, 1, 1],
        gives: &[0, 1, 2, 0],
    },
    Form {
        takes: &[1, 1, 2],
        gives: &[0, 1, 2, 0, 1],
    },
    Form {
        takes: &[2, 2],
        gives: &[0, 1, 0],
    },
];

const SWAP: [Form; 1] = [Form {
    takes: &[1, 1],
    gives: &[1, 0],
}];

/// How many words a value takes.
fn words(value: &Value) -> u8
    ensures words { result ≡ value_words (view_value value.now) }
{
    match value {
        Value::Long(_) => 2,
        Value::Int(_) | Value::Null | Value::Ref(_) => 1,
    }
}

/// Whether the value at a place has these words.
fn has_word(stack: &Stack, place: usize, wanted: u8) -> bool
    ensures word { IsTrue result ↔ (slice_get (map value_words (stacked stack.now)) place ≡ Some wanted) }
{
    match stack.get(place) {
        Some(value) => words(value) == wanted,
        None => false,
    }
}

/// Whether the topmost values have these words.
fn has_words(stack: &Stack, takes: &[u8]) -> bool
    ensures words { result ≡ spec.has_words takes.now (stacked stack.now) }
{
    for place in 0..takes.len() {
        if !has_word(stack, place, takes[place]) {
            return false;
        }
    }
    true
}

/// The first form that fits the stack.
fn form_of<'a>(stack: &Stack, forms: &'a [Form]) -> Option<&'a Form>
    ensures first { option_map view_form (option_copied result) ≡ form_of (map view_form forms.now) (stacked stack.now) }
{
    for form in forms {
        if has_words(stack, form.takes) {
            return Some(form);
        }
    }
    None
}

/// A copy of the value at a place, null where there is none.
fn copied(alloc: Global, place: usize, stack: &Stack) -> Result<Value, AllocError>
    ensures copied { IfOk result (λ copy. view_value copy ≡ slice_index_or (stacked stack.now) place Null) }
{
    match stack.get(place) {
        Some(value) => Ok(value.copy(alloc)?),
        None => Ok(Value::Null),
    }
}

/// Copies of the values at these places.
fn copies(alloc: Global, places: &[usize], stack: &Stack) -> Result<Items<Value>, AllocError>
    ensures copied { IfOk result (λ copies. view_values copies ≡ map (λ place. slice_index_or (stacked stack.now) place Null) places.now) }
{
    let mut copies = Items::new(alloc);
    for place in places {
        copies.push(copied(alloc, *place, stack)?)?;
    }
    Ok(copies)
}

/// Puts values on the stack, the first on top.
fn put(values: Items<Value>, stack: &mut Stack) -> Result<(), AllocError>
    ensures put { OnOk result (stacked stack.new ≡ view_values values ++ stacked stack.old) }
{
    let mut left = values;
    while let Some(value) = left.pop() {
        stack.push(value)?;
    }
    Ok(())
}

/// Moves the values of the stack in a form.
fn rearrange(alloc: Global, form: &Form, stack: &mut Stack) -> Result<(), AllocError>
    ensures moved { OnOk result (stacked stack.new ≡ moved (view_form form.now) (stacked stack.old)) }
{
    let copies = copies(alloc, form.gives, stack)?;
    stack.shrink(form.takes.len());
    put(copies, stack)?;
    Ok(())
}

/// Moves the values of the stack in the first of these forms that fits; false where none does.
fn moves(alloc: Global, forms: &[Form], stack: &mut Stack) -> Result<bool, AllocError>
    ensures moved { IfOk result (λ done. as_shuffled done (stacked stack.new) ≡ shuffled (map view_form forms.now) (stacked stack.old)) }
{
    match form_of(stack, forms) {
        Some(form) => {
            rearrange(alloc, form, stack)?;
            Ok(true)
        }
        None => Ok(false),
    }
}

/// `pop` to `swap`, by the first form that fits the stack; false where none does, and for another
/// instruction.
pub fn shuffle(
    alloc: Global,
    instruction: &Instruction,
    stack: &mut Stack,
) -> Result<bool, AllocError>
    ensures shuffled { (headers : List Header) (class : Name) → IfOk result (λ done. as_shuffled done (stacked stack.new)
        ≡ shuffled (forms_of (meaning_of headers class (view_instruction instruction.now))) (stacked stack.old)) }
{
    match instruction {
        Instruction::Pop => moves(alloc, &POP, stack),
        Instruction::Pop2 => moves(alloc, &POP2, stack),
        Instruction::Dup => moves(alloc, &DUP, stack),
        Instruction::DupX1 => moves(alloc, &DUP_X1, stack),
        Instruction::DupX2 => moves(alloc, &DUP_X2, stack),
        Instruction::Dup2 => moves(alloc, &DUP2, stack),
        Instruction::Dup2X1 => moves(alloc, &DUP2_X1, stack),
        Instruction::Dup2X2 => moves(alloc, &DUP2_X2, stack),
        Instruction::Swap => moves(alloc, &SWAP, stack),
        Instruction::Nop
        | Instruction::PushNull
        | Instruction::Push(_)
        | Instruction::PushClass(_)
        | Instruction::PushHandle { .. }
        | Instruction::PushMethodType(_)
        | Instruction::Load(_, _)
        | Instruction::Store(_, _)
        | Instruction::ArrayLoad(_)
        | Instruction::ArrayStore(_)
        | Instruction::Calc(_, _)
        | Instruction::Iinc(_, _)
        | Instruction::Convert(_, _)
        | Instruction::Compare(_, _)
        | Instruction::IfZero(_, _)
        | Instruction::IfInts(_, _)
        | Instruction::IfRefs(_, _)
        | Instruction::IfNull(_, _)
        | Instruction::Goto(_)
        | Instruction::TableSwitch { .. }
        | Instruction::LookupSwitch { .. }
        | Instruction::Return(_)
        | Instruction::GetStatic(_)
        | Instruction::PutStatic(_)
        | Instruction::GetField(_)
        | Instruction::PutField(_)
        | Instruction::InvokeVirtual(_)
        | Instruction::InvokeSpecial(_)
        | Instruction::InvokeStatic(_)
        | Instruction::InvokeInterface(_)
        | Instruction::InvokeDynamic { .. }
        | Instruction::New(_)
        | Instruction::NewArray(_)
        | Instruction::MultiNewArray(_, _)
        | Instruction::ArrayLength
        | Instruction::Throw
        | Instruction::CheckCast(_)
        | Instruction::InstanceOf(_)
        | Instruction::MonitorEnter
        | Instruction::MonitorExit => Ok(false),
    }
}
