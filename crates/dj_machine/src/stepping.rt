//! One step: an instruction, and the handler of an exception that it throws (JVMS 2.6, 2.10).

ghost use Rattle.dj_values.specs.Views.{view_reference};
ghost use Rattle.dj_values.specs.Outcomes as outcomes;
ghost use Rattle.dj_instructions.specs.Instructions.{view_instruction, view_instructions};
ghost use Rattle.dj_code.specs.MethodCode.{view_code};
ghost use Rattle.dj_bytecode.specs.Meanings.{meaning_of};
ghost use Rattle.dj_bytecode.specs.Machine as machine;
ghost use Rattle.dj_bytecode.specs.Machine.{local_slots, caught, pc_of, step_first};
ghost use Rattle.dj_operands.specs.Stacks.{stacked};
ghost use Rattle.dj_outside.specs.Runs.{Ends};
ghost use Rattle.dj_machine.specs.Runs.{run_state, IsReady, HasCome};
ghost use Rattle.dj_machine.specs.declared.run.Run.{Run};

use crate::families::{called, count, lead, load, moved, returned, store, strict};
use crate::handlers::handler_for;
use crate::run::{Method, Place, Run};
use dj_code::Instruction;
use dj_operands::{Family, family_of};
use dj_outside::Stop;
use dj_values::{RefValue, Value};

/// On before these instructions, if the run hasn't stopped.
fn before<'a>(done: Result<(), Stop>, rest: &'a [(u32, Instruction)]) -> Result<Place<'a>, Stop>
    ensures before { (run : Run) (outcome : outcomes.Outcome machine.Locals machine.Place) → Ends (λ done. machine.Before (view_instructions rest.now) (stacked run.stack)) done (run_state run) outcome → HasCome result run outcome }
{
    match done {
        Ok(()) => Ok(Place::Before(rest)),
        Err(stop) => Err(stop),
    }
}

/// An instruction in front of others, by its family.
fn step<'a>(
    method: &Method<'a>,
    instruction: &Instruction,
    rest: &'a [(u32, Instruction)],
    run: &mut Run<'_>,
) -> Result<Place<'a>, Stop>
    requires ready { IsReady method.now }
    ensures come { HasCome result run.new (machine.step method.now.headers.now local_slots (view_code method.now.code.now) (meaning_of method.now.headers.now method.now.code.now.class (view_instruction instruction.now)) (view_instructions rest.now) (stacked run.old.stack) (run_state run.old)) }
{
    match family_of(instruction) {
        Family::Strict(count) => before(strict(method, count, instruction, run), rest),
        Family::Calls(count) => before(called(method, count, instruction, run), rest),
        Family::Moves => before(moved(method, instruction, run), rest),
        Family::Loads(kind, slot) => before(load(method, kind, slot, run), rest),
        Family::Stores(kind, slot) => before(store(kind, slot, run), rest),
        Family::Counts(slot, by) => before(count(slot, by, run), rest),
        Family::Leads(count) => lead(method, count, instruction, rest, run),
        Family::Returns(kind) => returned(method, kind, run),
        Family::NotRun => Err(Stop::More),
    }
}

/// An exception goes on in its handler, with the reference alone on the stack, or leaves the method.
fn catch<'a>(
    method: &Method<'a>,
    pc: u32,
    reference: RefValue,
    run: &mut Run<'_>,
) -> Result<Place<'a>, Stop>
    requires ready { IsReady method.now }
    ensures caught { HasCome result run.new (caught method.now.headers.now (view_code method.now.code.now) pc (outcomes.Stops (outcomes.Throws (view_reference reference)) (run_state run.old))) }
{
    let handlers = method.code.handlers.as_slice();
    match handler_for(method.headers, pc, &reference, handlers) {
        Some(target) => {
            run.stack.clear();
            run.stack.push(Value::Ref(reference))?;
            Ok(Place::Before(method.code_from(target)))
        }
        None => Err(Stop::Throws(reference)),
    }
}

/// The first of some instructions, and the handler of an exception that it throws; past the last one
/// nothing is left to run.
pub fn advance<'a>(
    method: &Method<'a>,
    instructions: &'a [(u32, Instruction)],
    run: &mut Run<'_>,
) -> Result<Place<'a>, Stop>
    requires ready { IsReady method.now }
    ensures come { HasCome result run.new (caught method.now.headers.now (view_code method.now.code.now) (pc_of (view_instructions instructions.now)) (step_first method.now.headers.now local_slots (view_code method.now.code.now) (view_instructions instructions.now) (stacked run.old.stack) (run_state run.old))) }
{
    let [first, rest @ ..] = instructions else {
        return Err(Stop::Stuck);
    };
    match step(method, &first.1, rest, run) {
        Ok(place) => Ok(place),
        Err(Stop::Throws(reference)) => catch(method, first.0, reference, run),
        Err(Stop::More) => Err(Stop::More),
        Err(Stop::Stuck) => Err(Stop::Stuck),
        Err(Stop::Memory(error)) => Err(Stop::Memory(error)),
    }
}
