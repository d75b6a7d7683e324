//! Bounded runs (JVMS 2.6).

ghost use Rattle.std.specs.Prelude.{◌≡◌, ◌≢◌, List, [], IfOk, map, option_map, Option};
ghost use Rattle.dj_names.specs.declared.header.Header.{Header};
ghost use Rattle.dj_values.specs.Values as values;
ghost use Rattle.dj_values.specs.Views.{view_value, view_values, view_action, view_answer, view_end, view_show};
ghost use Rattle.dj_values.specs.Outcomes as outcomes;
ghost use Rattle.dj_values.specs.Outcomes.{shown};
ghost use Rattle.dj_instructions.specs.Instructions.{view_instructions};
ghost use Rattle.dj_code.specs.MethodCode.{view_code, view_typed};
ghost use Rattle.dj_bytecode.specs.Machine as machine;
ghost use Rattle.dj_bytecode.specs.Machine.{local_slots, bytecode_show};
ghost use Rattle.dj_bytecode.specs.SameShows.{AreArgumentsOf};
ghost use Rattle.dj_tags.specs.Laxly.{Laxly};
ghost use Rattle.dj_verify.specs.Verified.{IsTyped};
ghost use Rattle.dj_sound.specs.Runs as sound;
ghost use Rattle.dj_sound.specs.Runs.{IsStuck};
ghost use Rattle.dj_operands.specs.Stacks.{stacked};
ghost use Rattle.dj_outside.specs.Runs.{Ends};
ghost use Rattle.dj_machine.specs.Runs.{run_state, IsReady};

use crate::locals::Locals;
use crate::run::{Method, Place, Run};
use crate::starts::Starts;
use crate::stepping::advance;
use dj_code::Typed;
use dj_headers::Headers;
use dj_operands::Stack;
use dj_outside::{Outside, Stop};
use dj_values::{Answer, End, Show, Value};
use std::alloc::{AllocError, Global};

/// At most so many steps from the start of a method.
fn go(method: &Method<'_>, steps: u64, run: &mut Run<'_>) -> Result<Option<Value>, Stop>
    requires ready { IsReady method.now }
    ensures gone { Ends (option_map view_value) result (run_state run.new) (machine.steps method.now.headers.now local_slots (view_code method.now.code.now) steps (view_instructions method.now.code.now.instructions) (stacked run.old.stack) (run_state run.old)) }
{
    let mut instructions = method.code.instructions.as_slice();
    let mut left = steps;
    while left > 0 {
        left -= 1;
        match advance(method, instructions, run)? {
            Place::Before(next) => instructions = next,
            Place::Returned(value) => return Ok(value),
        }
    }
    Err(Stop::More)
}

/// How a run stands; one that is stuck goes on.
fn end_of(outcome: Result<Option<Value>, Stop>) -> Result<End, AllocError>
    ensures end { (state : outcomes.State machine.Locals) (run : outcomes.Outcome machine.Locals (Option values.Value)) → Ends (option_map view_value) outcome state run
        → IfOk result (λ end. shown run ≡ record { actions = state.world.actions; end = view_end end }) }
{
    match outcome {
        Ok(value) => Ok(End::Return(value)),
        Err(Stop::Throws(reference)) => Ok(End::Throw(reference)),
        Err(Stop::More) => Ok(End::More),
        Err(Stop::Stuck) => Ok(End::More),
        Err(Stop::Memory(error)) => Err(error),
    }
}

/// What at most so many instructions of a method show, by these headers, with these arguments, `this`
/// first where it has one, and these answers. An action whose answer is missing or can't be is shown,
/// and the run goes on from there.
///
/// The run that is shown is never stuck, from arguments that fit: neither lacks an instruction of it an
/// operand nor meets it one of a wrong kind, if the method's code has an instruction and its frames are
/// a table of it, over headers of any classes, those that run or others (JVMS 2.11.1, 4.10).
pub fn show_code(
    alloc: Global,
    headers: &Headers,
    typed: &Typed,
    arguments: &[Value],
    answers: &[Answer],
    steps: u64,
) -> Result<Show, AllocError>
    ensures show { IfOk result (λ show. view_show show ≡ bytecode_show headers.now (view_code typed.now.code) (view_values arguments.now) (map view_answer answers.now) steps) }
    ensures never { (world : List Header) → view_instructions typed.now.code.instructions ≢ [] → IsTyped (Laxly world) world (view_typed typed.now)
        → AreArgumentsOf headers.now (view_code typed.now.code) (view_values arguments.now)
        → ¬ IsStuck (sound.run headers.now (view_code typed.now.code) (view_values arguments.now) (map view_answer answers.now) steps) }
{
    let starts = Starts::new(alloc, typed.code.instructions.as_slice())?;
    let locals = Locals::new(alloc, typed.code.max_locals, arguments)?;
    let method = Method {
        alloc,
        headers,
        code: &typed.code,
        starts: &starts,
    };
    let mut run = Run {
        stack: Stack::new(alloc),
        locals,
        outside: Outside::new(alloc, answers),
    };
    let end = end_of(go(&method, steps, &mut run))?;
    Ok(Show {
        actions: run.outside.into_actions(),
        end,
    })
}
