//! What instructions of each family do to a run (JVMS 2.11, 6.5).

ghost use Rattle.std.specs.Prelude.{◌≡◌, ◌+◌, ◌<◌, ◌++◌, ℕ, List, Some, MatchOption, length, option_map};
ghost use Rattle.std.specs.Option.{option_copied};
ghost use Rattle.dj_names.specs.declared.header.Header.{Header};
ghost use Rattle.dj_names.specs.Types as types;
ghost use Rattle.dj_names.specs.Types.{view_type, view_descriptor};
ghost use Rattle.dj_values.specs.Values as values;
ghost use Rattle.dj_values.specs.Views.{view_value};
ghost use Rattle.dj_values.specs.Outcomes as outcomes;
ghost use Rattle.dj_instructions.specs.Instructions.{Instructions, view_instruction, view_instructions};
ghost use Rattle.dj_code.specs.MethodCode.{view_code};
ghost use Rattle.dj_code.specs.MethodCode as method_code;
ghost use Rattle.dj_bytecode.specs.Operands as operands;
ghost use Rattle.dj_bytecode.specs.Meanings as meanings;
ghost use Rattle.dj_bytecode.specs.Meanings.{meaning_of, return_of};
ghost use Rattle.dj_bytecode.specs.Machine as machine;
ghost use Rattle.dj_bytecode.specs.Machine.{local_slots};
ghost use Rattle.dj_operands.specs.Stacks.{stacked, top_down};
ghost use Rattle.dj_operands.specs.Replies.{operation_of, choice_of};
ghost use Rattle.dj_operands.specs.Families.{forms_of};
ghost use Rattle.dj_outside.specs.Runs.{Ends};
ghost use Rattle.dj_machine.specs.Runs.{run_state, IsReady, HasDone, HasCome};

use crate::locals::is_of_kind;
use crate::replies::reply_to;
use crate::run::{Method, Place, Run};
use crate::settling::settle;
use dj_code::{Instruction, Kind};
use dj_names::{Descriptor, JType};
use dj_operands::{Jump, fitted, jump_of, shuffle};
use dj_outside::Stop;
use dj_values::Value;

/// What a strict instruction gives, with its operands taken from the stack; None where there were too
/// few.
fn give(
    method: &Method<'_>,
    operands: Option<Vec<Value>>,
    instruction: &Instruction,
    run: &mut Run<'_>,
) -> Result<(), Stop>
    ensures done { (meaning : meanings.Family) (count : ℕ) (stack : List values.Value) → meaning ≡ meaning_of method.now.headers.now method.now.code.now.class (view_instruction instruction.now)
        → MatchOption operands (length stack < count) (λ taken. (stack ≡ top_down taken.items ++ stacked run.old.stack) × (length taken.items ≡ count))
        → (rest : Instructions) → Ends (λ done. machine.Before rest (stacked run.new.stack)) result (run_state run.new)
        (machine.step method.now.headers.now local_slots (view_code method.now.code.now) (meanings.Strict count (operation_of meaning)) rest stack (run_state run.old)) }
{
    let Some(operands) = operands else {
        return Err(Stop::Stuck);
    };
    let reply = reply_to(
        method.alloc,
        method.headers,
        &method.code.class,
        instruction,
        operands.as_slice(),
    )?;
    let given = settle(method.alloc, method.headers, reply, &mut run.outside)?;
    match given {
        Some(value) => {
            run.stack.push(value)?;
            Ok(())
        }
        None => Ok(()),
    }
}

/// A strict instruction: it takes its operands, and pushes what it gives.
pub fn strict(
    method: &Method<'_>,
    count: usize,
    instruction: &Instruction,
    run: &mut Run<'_>,
) -> Result<(), Stop>
    ensures done { (meaning : meanings.Family) → meaning ≡ meaning_of method.now.headers.now method.now.code.now.class (view_instruction instruction.now)
        → HasDone method.now.headers.now (view_code method.now.code.now) (meanings.Strict count (operation_of meaning)) result run.old run.new }
{
    let operands = run.stack.take(count)?;
    give(method, operands, instruction, run)
}

/// A call on an object: it takes so many arguments, and the receiver below them.
pub fn called(
    method: &Method<'_>,
    count: usize,
    instruction: &Instruction,
    run: &mut Run<'_>,
) -> Result<(), Stop>
    ensures done { (meaning : meanings.Family) → meaning ≡ meaning_of method.now.headers.now method.now.code.now.class (view_instruction instruction.now)
        → HasDone method.now.headers.now (view_code method.now.code.now) (meanings.Strict (count + 1) (operation_of meaning)) result run.old run.new }
{
    let operands = run.stack.take_with_one(count)?;
    give(method, operands, instruction, run)
}

/// A shuffle of the stack.
pub fn moved(method: &Method<'_>, instruction: &Instruction, run: &mut Run<'_>) -> Result<(), Stop>
    ensures done { (meaning : meanings.Family) → meaning ≡ meaning_of method.now.headers.now method.now.code.now.class (view_instruction instruction.now)
        → HasDone method.now.headers.now (view_code method.now.code.now) (meanings.Moves (forms_of meaning)) result run.old run.new }
{
    if shuffle(method.alloc, instruction, &mut run.stack)? {
        Ok(())
    } else {
        Err(Stop::Stuck)
    }
}

/// A load: the local, where it is of the kind.
pub fn load(method: &Method<'_>, kind: Kind, slot: u16, run: &mut Run<'_>) -> Result<(), Stop>
    ensures done { (headers : List Header) (code : method_code.Code) → HasDone headers code (meanings.Loads (operands.of_kind kind) slot) result run.old run.new }
{
    let Some(value) = run.locals.get(slot) else {
        return Err(Stop::Stuck);
    };
    if !is_of_kind(kind, value) {
        return Err(Stop::Stuck);
    }
    let value = value.copy(method.alloc)?;
    run.stack.push(value)?;
    Ok(())
}

/// A store of the value on top, where it is of the kind.
pub fn store(kind: Kind, slot: u16, run: &mut Run<'_>) -> Result<(), Stop>
    ensures done { (headers : List Header) (code : method_code.Code) → HasDone headers code (meanings.Stores (operands.of_kind kind) slot) result run.old run.new }
{
    let Some(value) = run.stack.pop() else {
        return Err(Stop::Stuck);
    };
    if !is_of_kind(kind, &value) {
        return Err(Stop::Stuck);
    }
    run.locals.set(slot, value);
    Ok(())
}

/// `iinc`
pub fn count(slot: u16, by: i16, run: &mut Run<'_>) -> Result<(), Stop>
    ensures done { (headers : List Header) (code : method_code.Code) → HasDone headers code (meanings.Counts slot by) result run.old run.new }
{
    let Some(Value::Int(number)) = run.locals.get(slot) else {
        return Err(Stop::Stuck);
    };
    let sum = number.wrapping_add(i32::from(by));
    run.locals.set(slot, Value::Int(sum));
    Ok(())
}

/// A jump: to the instructions that it leads to, or on to those behind it.
pub fn lead<'a>(
    method: &Method<'a>,
    count: usize,
    instruction: &Instruction,
    rest: &'a [(u32, Instruction)],
    run: &mut Run<'_>,
) -> Result<Place<'a>, Stop>
    requires ready { IsReady method.now }
    ensures come { (meaning : meanings.Family) → meaning ≡ meaning_of method.now.headers.now method.now.code.now.class (view_instruction instruction.now)
        → HasCome result run.new (machine.step method.now.headers.now local_slots (view_code method.now.code.now) (meanings.Leads count (choice_of meaning)) (view_instructions rest.now) (stacked run.old.stack) (run_state run.old)) }
{
    let Some(operands) = run.stack.take(count)? else {
        return Err(Stop::Stuck);
    };
    match jump_of(instruction, operands.as_slice()) {
        Jump::On => Ok(Place::Before(rest)),
        Jump::To(pc) => Ok(Place::Before(method.code_from(pc))),
        Jump::Stuck => Err(Stop::Stuck),
    }
}

/// The result of a method.
fn result_of(descriptor: &Descriptor) -> Option<&JType>
    ensures result { option_map view_type (option_copied result) ≡ types.result_of (view_descriptor descriptor.now) }
{
    match descriptor {
        Descriptor::Method { result, .. } => result.as_ref(),
        Descriptor::Field(kind) => Some(kind),
    }
}

/// What a return of a value gives, as the method's result.
fn returned_value(
    method: &Method<'_>,
    kind: Kind,
    wanted: &JType,
    run: &mut Run<'_>,
) -> Result<Value, Stop>
    ensures given { (headers : List Header) → Ends (λ value. Some (view_value value)) result (run_state run.new) (outcomes.outside headers (meanings.returned_value kind (Some (view_type wanted.now)) (stacked run.old.stack)) (run_state run.old)) }
{
    let Some(value) = run.stack.pop() else {
        return Err(Stop::Stuck);
    };
    if !is_of_kind(kind, &value) {
        return Err(Stop::Stuck);
    }
    match fitted(method.alloc, wanted, &value)? {
        Some(kept) => Ok(kept),
        None => Err(Stop::Stuck),
    }
}

/// What a return gives; one of another form than the method's result is stuck.
pub fn returned<'a>(
    method: &Method<'a>,
    kind: Option<Kind>,
    run: &mut Run<'_>,
) -> Result<Place<'a>, Stop>
    ensures come { (headers : List Header) (rest : Instructions) → HasCome result run.new (machine.step headers local_slots (view_code method.now.code.now) (return_of kind) rest (stacked run.old.stack) (run_state run.old)) }
{
    match kind {
        None => match result_of(&method.code.descriptor) {
            None => Ok(Place::Returned(None)),
            Some(_) => Err(Stop::Stuck),
        },
        Some(kind) => match result_of(&method.code.descriptor) {
            None => Err(Stop::Stuck),
            Some(wanted) => {
                let value = returned_value(method, kind, wanted, run)?;
                Ok(Place::Returned(Some(value)))
            }
        },
    }
}
