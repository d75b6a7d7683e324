//! What a body shows (JLS 8.4.7, 14.17).

ghost use Rattle.std.specs.Prelude.{◌≡◌, ◌<◌, ◌^◌, IfOk, Option, length, map};
ghost use Rattle.std.specs.Option.{option_map, option_copied};
ghost use Rattle.dj_names.specs.Types as names;
ghost use Rattle.dj_names.specs.Types.{view_type, view_descriptor};
ghost use Rattle.dj_syntax.specs.Trees.{view_body, view_stms};
ghost use Rattle.dj_syntax.specs.declared.variable.Var as variables;
ghost use Rattle.dj_values.specs.Values as values;
ghost use Rattle.dj_values.specs.Views.{view_value, view_values, view_answer, view_end, view_show};
ghost use Rattle.dj_values.specs.Fits.{is_static, this_of, behind_this};
ghost use Rattle.dj_values.specs.Outcomes as outcomes;
ghost use Rattle.dj_values.specs.Outcomes.{State, shown};
ghost use Rattle.dj_outside.specs.Runs.{Ends};
ghost use Rattle.dj_static.specs.Scopes.{scope_of};
ghost use Rattle.dj_meaning.specs.Runs.{Store};
ghost use Rattle.dj_meaning.specs.Meaning as spec;
ghost use Rattle.dj_objects.specs.Runs.{context_of, run_state, values_of};
ghost use Rattle.dj_source.specs.Running.{ended_statements, parameter, view_completion};

use crate::completion::{Completion, Place};
use crate::running::run_list;
use dj_headers::Headers;
use dj_members::MemberTable;
use dj_names::{Descriptor, Items, JType, is_constructor};
use dj_objects::{Method, Run, Values};
use dj_outside::{Outside, Stop};
use dj_scopes::parameters_in;
use dj_static::{Classes, Scope};
use dj_syntax::{Body, Var, VarKind};
use dj_values::{Answer, End, Show, Value};
use std::alloc::{AllocError, Global};

/// A completion at the end of a body: what fits no method is stuck.
fn ended(wanted: Option<&JType>, completion: Completion) -> Result<Option<Value>, Stop>
    ensures ended { (state : State Store) → Ends (option_map view_value) result state (spec.ended (option_map view_type (option_copied wanted.entry)) (view_completion completion) state) }
{
    match completion {
        Completion::Normal => match wanted {
            None => Ok(None),
            Some(_) => Err(Stop::Stuck),
        },
        Completion::Return(value) => Ok(value),
        Completion::Break(_) | Completion::Continue(_) | Completion::Misfit => Err(Stop::Stuck),
    }
}

/// How a run stands; one that is stuck goes on.
fn end_of(outcome: Result<Option<Value>, Stop>) -> Result<End, AllocError>
    ensures end { (state : State Store) (run : outcomes.Outcome Store (Option values.Value)) → Ends (option_map view_value) outcome state run
        → IfOk result (λ end. shown run ≡ record { actions = state.world.actions; end = view_end end }) }
{
    match outcome {
        Ok(value) => Ok(End::Return(value)),
        Err(Stop::Throws(reference)) => Ok(End::Throw(reference)),
        Err(Stop::More) | Err(Stop::Stuck) => Ok(End::More),
        Err(Stop::Memory(error)) => Err(error),
    }
}

/// The result of a method.
fn result_of(descriptor: &Descriptor) -> Option<&JType>
    ensures result { option_map view_type (option_copied result) ≡ names.result_of (view_descriptor descriptor.now) }
{
    match descriptor {
        Descriptor::Method { result, .. } => result.as_ref(),
        Descriptor::Field(kind) => Some(kind),
    }
}

/// A parameter.
fn parameter(number: u32) -> Var
    ensures parameter { result ≡ parameter number }
{
    Var {
        kind: VarKind::Param,
        number,
    }
}

/// The arguments, which the parameters have as a body begins.
fn parameter_values(alloc: Global, arguments: &[Value]) -> Result<Values, AllocError>
    ensures values { length arguments.now < 2 ^ 32 → IfOk result (λ values. (variable : variables.Var) → values_of values variable ≡ spec.of_parameter (view_values arguments.now) variable) }
{
    let mut values = Values::new(alloc);
    let mut number = 0u32;
    for argument in arguments {
        let copy = argument.copy(alloc)?;
        values.put(parameter(number), copy)?;
        number = number.wrapping_add(1);
    }
    Ok(values)
}

/// `this`, where a method isn't static and is given it, and the other arguments.
fn parts_of_arguments(flags: u16, arguments: &[Value]) -> (Option<&Value>, &[Value])
    ensures this { option_map view_value (option_copied result.0) ≡ this_of (is_static flags) (view_values arguments.now) }
    ensures rest { view_values result.1.now ≡ behind_this (is_static flags) (view_values arguments.now) }
{
    if flags & 8 != 0 {
        return (None, arguments);
    }
    match arguments {
        [this, rest @ ..] => (Some(this), rest),
        [] => (None, arguments),
    }
}

/// The run of a body.
fn run_body(
    method: &Method<'_>,
    scope: &mut Scope,
    run: &mut Run<'_>,
    body: &Body,
) -> Result<Option<Value>, Stop>
    ensures done { Ends (option_map view_value) result (run_state run.new) (ended_statements (context_of method.now) (scope_of scope.old) method.now.bound (view_stms body.now.statements) (run_state run.old)) }
{
    let completion = run_list(method, scope, run, Place::First, body.statements.as_slice())?;
    ended(method.result, completion)
}

/// What a body shows, each of its loops having at most so many turns, by these headers and members,
/// with these arguments, `this` first where it has one, and these answers. An action whose answer is
/// missing or can't be is shown, and the run goes on from there. Parameters are told apart by the first 32 bits of
/// their numbers, so a method has fewer of them than 2^32.
pub fn show_source(
    alloc: Global,
    headers: &Headers,
    members: &MemberTable,
    body: &Body,
    arguments: &[Value],
    answers: &[Answer],
    bound: u64,
) -> Result<Show, AllocError>
    ensures show { length (names.parameters_of (view_descriptor body.now.descriptor)) < 2 ^ 32 → length arguments.now < 2 ^ 32 → IfOk result (λ show. view_show show ≡ spec.source_show headers.now members.now (view_body body.now) (view_values arguments.now) (map view_answer answers.now) bound) }
{
    let (this, rest) = parts_of_arguments(body.flags, arguments);
    let classes = Classes {
        headers,
        members,
        from: &body.class,
    };
    let method = Method {
        alloc,
        classes,
        result: result_of(&body.descriptor),
        this,
        constructs: is_constructor(&body.name),
        bound,
    };
    let mut scope = parameters_in(alloc, &body.descriptor)?;
    let values = parameter_values(alloc, rest)?;
    let mut run = Run {
        values,
        held: Items::new(alloc),
        outside: Outside::new(alloc, answers),
    };
    let outcome = run_body(&method, &mut scope, &mut run, body);
    let end = end_of(outcome)?;
    Ok(Show {
        actions: run.outside.into_actions(),
        end,
    })
}
