//! What statements do (JLS 14).

ghost use Rattle.std.specs.Prelude.{◌≡◌, ◌||◌, List, IfOk, option_map, if◌then◌else◌};
ghost use Rattle.dj_names.specs.declared.header.Header.{Header};
ghost use Rattle.dj_names.specs.Types.{Class};
ghost use Rattle.dj_syntax.specs.Trees as trees;
ghost use Rattle.dj_syntax.specs.Trees.{view_exp, view_stm, view_stms, view_groups, view_catches};
ghost use Rattle.dj_values.specs.Views.{view_reference, view_value};
ghost use Rattle.dj_values.specs.Outcomes.{Throws, State, Outcome, Is, outside};
ghost use Rattle.dj_outside.specs.Runs.{Ends};
ghost use Rattle.dj_static.specs.Scopes.{scope_of};
ghost use Rattle.dj_meaning.specs.StaticTypes as types;
ghost use Rattle.dj_meaning.specs.StaticTypes.{with_type};
ghost use Rattle.dj_meaning.specs.Runs.{Store, Meaning, pure, stop};
ghost use Rattle.dj_meaning.specs.Expressions as expressions;
ghost use Rattle.dj_meaning.specs.Expressions.{either};
ghost use Rattle.dj_meaning.specs.Completions as completions;
ghost use Rattle.dj_meaning.specs.Declarations.{caught, declared, passed, within, behind};
ghost use Rattle.dj_meaning.specs.Statements as statements;
ghost use Rattle.dj_meaning.specs.Statements.{Elsewhere, label_at};
ghost use Rattle.dj_meaning.specs.Meaning as spec;
ghost use Rattle.dj_objects.specs.Runs.{context_of, run_state};
ghost use Rattle.dj_scopes.specs.Keeping.{scope_back};
ghost use Rattle.dj_source.specs.Keeping.{back};
ghost use Rattle.dj_source.specs.Running.{WhereItEnds, Opens, Turns, Leaves, begun, step_of, turn_of, caught_body, entered_with, view_completion, view_place};

use crate::completion::{Completion, Place};
use crate::scopes::{Before, keep, keep_declared, nothing_kept, open, pass, put_back};
use crate::simple::{
    construct, declare, rethrow, returned, run_call, set, set_element, set_field, set_static, throw,
};
use crate::switches::{has_label, label_for};
use crate::throwing::{is_instance, object};
use dj_evaluating::{assign, evaluate, test};
use dj_names::{Items, JType};
use dj_objects::{Method, Reply, Run};
use dj_outside::Stop;
use dj_scopes::Kept;
use dj_static::Scope;
use dj_syntax::{Catch, Exp, Group, Stm, Var};
use dj_values::{Action, RefValue, Value};

/// The number that is switched on.
fn number_of(value: &Value) -> Result<i32, Stop>
    ensures number { (headers : List Header) (state : State Store) → Ends (λ number. number) result state (outside headers (statements.number_of (view_value value.now)) state) }
{
    match value {
        Value::Int(number) => Ok(*number),
        Value::Long(_) | Value::Null | Value::Ref(_) => Err(Stop::Stuck),
    }
}

/// A labelled statement takes the breaks to its label; a continue of it is one of no loop.
fn taken(label: u32, completion: Completion) -> Result<Completion, Stop>
    ensures taken { (state : State Store) → Ends view_completion result state (completions.taken label (view_completion completion) state) }
{
    match completion {
        Completion::Break(other) if other == label => Ok(Completion::Normal),
        Completion::Continue(other) if other == label => Err(Stop::Stuck),
        completion => Ok(completion),
    }
}

/// How a `finally` completes whose first list completed so: otherwise where its own doesn't complete normally.
fn after_last(last: Completion, first: Completion) -> Completion
    ensures same { (state : State Store) → completions.sequence (pure (view_completion first)) (view_completion last) state ≡ Is (view_completion result) state }
{
    match last {
        Completion::Normal => first,
        other => other,
    }
}

/// How a `finally` completes whose first list threw: so too, unless its own doesn't complete normally.
fn thrown_after(last: Completion, reference: RefValue) -> Result<Completion, Stop>
    ensures same { (state : State Store) → Ends view_completion result state (completions.sequence (stop (Throws (view_reference reference))) (view_completion last) state) }
{
    match last {
        Completion::Normal => Err(Stop::Throws(reference)),
        other => Ok(other),
    }
}

/// Whether a loop goes on behind its body: that completed normally, or by a continue of its label.
fn goes_on(place: Place, completion: &Completion) -> bool
    ensures goes { (again : Meaning completions.Completion) → completions.next_turn (label_at (view_place place)) again (view_completion completion.now) ≡ (if result then again else pure (view_completion completion.now)) }
{
    match completion {
        Completion::Normal => true,
        Completion::Continue(label) => place.is_own(*label),
        Completion::Break(_) | Completion::Return(_) | Completion::Misfit => false,
    }
}

/// The step of a `for`, if a loop has one.
fn step_on(
    method: &Method<'_>,
    scope: &Scope,
    run: &mut Run<'_>,
    step: Option<(Var, &Exp)>,
) -> Result<(), Stop>
    ensures stepped { Ends (λ done. done) result (run_state run.new) (step_of (context_of method.now) (scope_of scope.now) (option_map (λ one. (one.0, view_exp one.1.now)) step.entry) (run_state run.old)) }
{
    match step {
        Some((variable, new)) => {
            assign(method, scope, run, variable, new)?;
            Ok(())
        }
        None => Ok(()),
    }
}

/// A statement, in the scope that there is; what the variable was that it declares is kept.
#[cycle(running)]
fn run_kept(
    method: &Method<'_>,
    scope: &mut Scope,
    run: &mut Run<'_>,
    place: Place,
    inner: &Stm,
    kept: &mut Items<Kept>,
) -> Result<Completion, Stop>
    ensures done { Ends view_completion result (run_state run.new) (spec.run (context_of method.now) (scope_of scope.old) method.now.bound (view_place place) (view_stm inner.now) (run_state run.old)) }
    ensures scope { WhereItEnds result (scope_back kept.new (scope_of scope.new) ≡ scope_back kept.old (scope_of scope.old)) }
{
    dj_scopes::keep_declared(method.alloc, scope, inner, kept)?;
    run_statement(method, scope, run, place, inner)
}

/// A statement behind a label; what it declares is out of scope behind it.
#[cycle(running)]
fn run_inner(
    method: &Method<'_>,
    scope: &mut Scope,
    run: &mut Run<'_>,
    place: Place,
    inner: &Stm,
) -> Result<Completion, Stop>
    ensures done { Ends view_completion result (run_state run.new) (spec.run (context_of method.now) (scope_of scope.old) method.now.bound (view_place place) (view_stm inner.now) (run_state run.old)) }
    ensures scope { WhereItEnds result (scope_of scope.new ≡ scope_of scope.old) }
{
    let mut kept = Items::new(method.alloc);
    let outcome = run_kept(method, scope, run, place, inner, &mut kept);
    dj_scopes::put_back(scope, kept)?;
    outcome
}

/// A labelled statement.
#[cycle(running)]
fn run_labelled(
    method: &Method<'_>,
    scope: &mut Scope,
    run: &mut Run<'_>,
    inner: &Stm,
    label: u32,
) -> Result<Completion, Stop>
    ensures done { Ends view_completion result (run_state run.new) (spec.run (context_of method.now) (scope_of scope.old) method.now.bound Elsewhere (trees.Labelled label (view_stm inner.now)) (run_state run.old)) }
    ensures scope { WhereItEnds result (scope_of scope.new ≡ scope_of scope.old) }
{
    let completion = run_inner(method, scope, run, Place::Behind(label), inner)?;
    taken(label, completion)
}

/// The catch clauses of a `try`, behind what its list came to: they take what that throws, and not what they throw themselves.
#[cycle(running)]
fn run_handlers(
    method: &Method<'_>,
    scope: &mut Scope,
    run: &mut Run<'_>,
    clauses: &[Catch],
    outcome: Result<Completion, Stop>,
) -> Result<Completion, Stop>
    ensures done { (there : types.Scope) (first : Outcome Store completions.Completion) → WhereItEnds outcome (scope_of scope.old ≡ there) → Ends view_completion outcome (run_state run.old) first
        → Ends view_completion result (run_state run.new) (completions.handled (spec.run_clauses (context_of method.now) there method.now.bound (view_catches clauses.now)) first) }
    ensures scope { (there : types.Scope) → WhereItEnds outcome (scope_of scope.old ≡ there) → WhereItEnds result (scope_of scope.new ≡ there) }
{
    match outcome {
        Ok(completion) => Ok(completion),
        Err(Stop::Throws(reference)) => run_clauses(method, scope, run, clauses, reference),
        Err(Stop::More) => Err(Stop::More),
        Err(Stop::Stuck) => Err(Stop::Stuck),
        Err(Stop::Memory(error)) => Err(Stop::Memory(error)),
    }
}

/// The list of a `finally`, behind what the first one came to: it runs however that completes, and hides it where it doesn't complete normally.
#[cycle(running)]
fn run_last(
    method: &Method<'_>,
    scope: &mut Scope,
    run: &mut Run<'_>,
    last: &[Stm],
    before: Result<Completion, Stop>,
) -> Result<Completion, Stop>
    ensures done { (there : types.Scope) (first : Outcome Store completions.Completion) → WhereItEnds before (scope_of scope.old ≡ there) → Ends view_completion before (run_state run.old) first
        → Ends view_completion result (run_state run.new) (completions.finished (spec.run_all (context_of method.now) there method.now.bound (view_stms last.now)) first) }
    ensures scope { (there : types.Scope) → WhereItEnds before (scope_of scope.old ≡ there) → WhereItEnds result (scope_of scope.new ≡ there) }
{
    match before {
        Ok(completion) => {
            let end = run_list(method, scope, run, Place::Elsewhere, last)?;
            Ok(after_last(end, completion))
        }
        Err(Stop::Throws(reference)) => {
            let end = run_list(method, scope, run, Place::Elsewhere, last)?;
            thrown_after(end, reference)
        }
        Err(Stop::More) => Err(Stop::More),
        Err(Stop::Stuck) => Err(Stop::Stuck),
        Err(Stop::Memory(error)) => Err(Stop::Memory(error)),
    }
}

/// A statement at a place.
#[cycle(running)]
pub fn run_statement(
    method: &Method<'_>,
    scope: &mut Scope,
    run: &mut Run<'_>,
    place: Place,
    statement: &Stm,
) -> Result<Completion, Stop>
    ensures done { Ends view_completion result (run_state run.new) (spec.run (context_of method.now) (scope_of scope.old) method.now.bound (view_place place) (view_stm statement.now) (run_state run.old)) }
    ensures scope { WhereItEnds result (scope_of scope.new ≡ within (declared (view_stm statement.now)) (scope_of scope.old)) }
{
    match statement {
        Stm::Block(list) => run_list(method, scope, run, Place::Elsewhere, list.as_slice()),
        Stm::Labelled(label, inner) => run_labelled(method, scope, run, inner.get(), *label),
        Stm::If(condition, first, second) => {
            let holds = test(method, scope, run, condition)?;
            if holds {
                run_list(method, scope, run, Place::Elsewhere, first.as_slice())
            } else {
                run_list(method, scope, run, Place::Elsewhere, second.as_slice())
            }
        }
        Stm::While(condition, body) => {
            run_loop(method, scope, run, place, body.as_slice(), condition, None)
        }
        Stm::Switch(on, groups) => run_switch(method, scope, run, groups.as_slice(), on),
        Stm::Try(body, clauses) => {
            let outcome = run_list(method, scope, run, Place::Elsewhere, body.as_slice());
            run_handlers(method, scope, run, clauses.as_slice(), outcome)
        }
        Stm::Synchronized(monitor, body) => {
            run_holding(method, scope, run, body.as_slice(), monitor)
        }
        Stm::Do(body, condition) => {
            run_do(method, scope, run, place, body.as_slice(), condition)
        }
        Stm::For(condition, variable, step, body) => {
            let step = Some((*variable, step));
            run_loop(method, scope, run, place, body.as_slice(), condition, step)
        }
        Stm::Finally(body, last) => {
            let outcome = run_list(method, scope, run, Place::Elsewhere, body.as_slice());
            run_last(method, scope, run, last.as_slice(), outcome)
        }
        Stm::Declare(variable, kind, initial) => {
            declare(method, scope, run, *variable, kind, initial.as_ref())
        }
        Stm::Set(variable, new) => set(method, scope, run, *variable, new),
        Stm::SetField(object, name, new) => set_field(method, scope, run, object, name, new),
        Stm::SetStatic(class, name, new) => set_static(method, scope, run, class, name, new),
        Stm::SetElement(array, index, new) => set_element(method, scope, run, array, index, new),
        Stm::Run(call) => run_call(method, scope, run, call),
        Stm::Break(label) => Ok(Completion::Break(*label)),
        Stm::Continue(label) => Ok(Completion::Continue(*label)),
        Stm::Return(result) => returned(method, scope, run, result.as_ref()),
        Stm::Throw(exception) => throw(method, scope, run, exception),
        Stm::Rethrow(variable) => rethrow(method, scope, run, *variable),
        Stm::Construct(own, arguments) => {
            construct(method, scope, run, place, *own, arguments.as_slice())
        }
    }
}

/// Statements in order, in the scope that there is; what the variables were that they declare is kept.
#[cycle(running)]
fn run_open(
    method: &Method<'_>,
    scope: &mut Scope,
    run: &mut Run<'_>,
    first: Place,
    list: &[Stm],
    kept: &mut Before,
) -> Result<Completion, Stop>
    ensures opens { (next : Meaning completions.Completion) → Opens result kept.new.values (run_state run.new) next (back kept.old.values (begun (context_of method.now) (scope_of scope.old) method.now.bound (view_place first) (view_stms list.now) next (run_state run.old))) }
    ensures scope { WhereItEnds result (scope_back kept.new.kinds (scope_of scope.new) ≡ scope_back kept.old.kinds (scope_of scope.old)) }
    ensures behind { IfOk result (λ completion. view_completion completion ≡ completions.Normal → scope_of scope.new ≡ behind (view_stms list.now) (scope_of scope.old)) }
{
    let mut place = first;
    for statement in list {
        keep_declared(method.alloc, scope, run, statement, kept)?;
        let completion = run_statement(method, scope, run, place, statement)?;
        match completion {
            Completion::Normal => place = Place::Elsewhere,
            other => return Ok(other),
        }
    }
    Ok(Completion::Normal)
}

/// Statements in order; what they declare is theirs alone.
#[cycle(running)]
pub fn run_list(
    method: &Method<'_>,
    scope: &mut Scope,
    run: &mut Run<'_>,
    first: Place,
    list: &[Stm],
) -> Result<Completion, Stop>
    ensures done { Ends view_completion result (run_state run.new) (begun (context_of method.now) (scope_of scope.old) method.now.bound (view_place first) (view_stms list.now) (pure completions.Normal) (run_state run.old)) }
    ensures scope { WhereItEnds result (scope_of scope.new ≡ scope_of scope.old) }
{
    let mut kept = nothing_kept(method.alloc);
    let outcome = run_open(method, scope, run, first, list, &mut kept);
    put_back(scope, run, kept)?;
    outcome
}

/// A turn of a loop: its body, and its step where it goes on; it answers how the loop completes where it doesn't.
#[cycle(running)]
fn run_turn(
    method: &Method<'_>,
    scope: &mut Scope,
    run: &mut Run<'_>,
    place: Place,
    body: &[Stm],
    step: Option<(Var, &Exp)>,
) -> Result<Option<Completion>, Stop>
    ensures turns { (next : Meaning completions.Completion) → Turns result (run_state run.new) next (turn_of (context_of method.now) (scope_of scope.old) method.now.bound (view_place place) (view_stms body.now) (option_map (λ one. (one.0, view_exp one.1.now)) step.entry) next (run_state run.old)) }
    ensures scope { WhereItEnds result (scope_of scope.new ≡ scope_of scope.old) }
{
    let completion = run_list(method, scope, run, Place::Elsewhere, body)?;
    if !goes_on(place, &completion) {
        return Ok(Some(completion));
    }
    step_on(method, scope, run, step)?;
    Ok(None)
}

/// `while`, and `for` with its step: at most so many turns of the body, each behind its test.
#[cycle(running)]
fn run_loop(
    method: &Method<'_>,
    scope: &mut Scope,
    run: &mut Run<'_>,
    place: Place,
    body: &[Stm],
    condition: &Exp,
    step: Option<(Var, &Exp)>,
) -> Result<Completion, Stop>
    ensures done { Ends view_completion result (run_state run.new) (completions.turns method.now.bound (label_at (view_place place)) (expressions.test (context_of method.now) (scope_of scope.old) (view_exp condition.now)) (step_of (context_of method.now) (scope_of scope.old) (option_map (λ one. (one.0, view_exp one.1.now)) step.entry)) (spec.run_all (context_of method.now) (scope_of scope.old) method.now.bound (view_stms body.now)) (run_state run.old)) }
    ensures scope { WhereItEnds result (scope_of scope.new ≡ scope_of scope.old) }
{
    let mut left = method.bound;
    while left > 0 {
        left -= 1;
        let holds = test(method, scope, run, condition)?;
        if !holds {
            return Ok(Completion::Normal);
        }
        let turn = run_turn(method, scope, run, place, body, step)?;
        if let Some(completion) = turn {
            return Ok(completion);
        }
    }
    let more = test(method, scope, run, condition)?;
    if more {
        Err(Stop::More)
    } else {
        Ok(Completion::Normal)
    }
}

/// `do`: the body comes first.
#[cycle(running)]
fn run_do(
    method: &Method<'_>,
    scope: &mut Scope,
    run: &mut Run<'_>,
    place: Place,
    body: &[Stm],
    condition: &Exp,
) -> Result<Completion, Stop>
    ensures done { Ends view_completion result (run_state run.new) (completions.do_turns method.now.bound (label_at (view_place place)) (expressions.test (context_of method.now) (scope_of scope.old) (view_exp condition.now)) (spec.run_all (context_of method.now) (scope_of scope.old) method.now.bound (view_stms body.now)) (run_state run.old)) }
    ensures scope { WhereItEnds result (scope_of scope.new ≡ scope_of scope.old) }
{
    let mut left = method.bound;
    while left > 0 {
        left -= 1;
        let turn = run_turn(method, scope, run, place, body, None)?;
        if let Some(completion) = turn {
            return Ok(completion);
        }
        let holds = test(method, scope, run, condition)?;
        if !holds {
            return Ok(Completion::Normal);
        }
    }
    Err(Stop::More)
}

/// Whether a switch reaches a group: one before it has the label, or it has it itself.
fn is_reached(found: bool, wanted: Option<i32>, labels: &[Option<i32>]) -> bool
    ensures reached { result ≡ (found || statements.has_label wanted labels.now) }
{
    found || has_label(wanted, labels)
}

/// A group of a switch: its statements, where the switch has reached it; else what they declare is in scope, without a value.
#[cycle(running)]
fn run_group(
    method: &Method<'_>,
    scope: &mut Scope,
    run: &mut Run<'_>,
    body: &[Stm],
    reached: bool,
    kept: &mut Before,
) -> Result<Completion, Stop>
    ensures opens { (next : Meaning completions.Completion) → Opens result kept.new.values (run_state run.new) next (back kept.old.values (either reached (spec.run_then (context_of method.now) (scope_of scope.old) method.now.bound (view_stms body.now) next) (passed (scope_of scope.old) (view_stms body.now) next) (run_state run.old))) }
    ensures scope { WhereItEnds result (scope_back kept.new.kinds (scope_of scope.new) ≡ scope_back kept.old.kinds (scope_of scope.old)) }
    ensures behind { IfOk result (λ completion. view_completion completion ≡ completions.Normal → scope_of scope.new ≡ behind (view_stms body.now) (scope_of scope.old)) }
{
    if reached {
        run_open(method, scope, run, Place::Elsewhere, body, kept)
    } else {
        pass(method, scope, run, body, kept)?;
        Ok(Completion::Normal)
    }
}

/// The groups of a switch from the one of a label on; what those before it declare is in scope, without a value.
#[cycle(running)]
fn run_groups(
    method: &Method<'_>,
    scope: &mut Scope,
    run: &mut Run<'_>,
    groups: &[Group],
    wanted: Option<i32>,
    kept: &mut Before,
) -> Result<Completion, Stop>
    ensures opens { Opens result kept.new.values (run_state run.new) (pure completions.Normal) (back kept.old.values (spec.run_from (context_of method.now) (scope_of scope.old) method.now.bound (view_groups groups.now) wanted (run_state run.old))) }
    ensures scope { WhereItEnds result (scope_back kept.new.kinds (scope_of scope.new) ≡ scope_back kept.old.kinds (scope_of scope.old)) }
{
    let mut found = false;
    for group in groups {
        found = is_reached(found, wanted, group.labels.as_slice());
        let completion = run_group(method, scope, run, group.body.as_slice(), found, kept)?;
        match completion {
            Completion::Normal => {}
            other => return Ok(other),
        }
    }
    Ok(Completion::Normal)
}

/// A switch, which completes where its number leads nowhere.
#[cycle(running)]
fn run_switch(
    method: &Method<'_>,
    scope: &mut Scope,
    run: &mut Run<'_>,
    groups: &[Group],
    on: &Exp,
) -> Result<Completion, Stop>
    ensures done { Ends view_completion result (run_state run.new) (spec.run (context_of method.now) (scope_of scope.old) method.now.bound Elsewhere (trees.Switch (view_exp on.now) (view_groups groups.now)) (run_state run.old)) }
    ensures scope { WhereItEnds result (scope_of scope.new ≡ scope_of scope.old) }
{
    let value = evaluate(method, scope, run, on)?;
    let number = number_of(&value)?;
    let target = label_for(groups, number);
    let Some(wanted) = target else {
        return Ok(Completion::Normal);
    };
    let mut kept = nothing_kept(method.alloc);
    let outcome = run_groups(method, scope, run, groups, wanted, &mut kept);
    put_back(scope, run, kept)?;
    outcome
}

/// The body of a catch clause, whose variable has the exception.
#[cycle(running)]
fn run_caught(
    method: &Method<'_>,
    scope: &mut Scope,
    run: &mut Run<'_>,
    clause: &Catch,
    reference: RefValue,
) -> Result<Completion, Stop>
    ensures done { Ends view_completion result (run_state run.new) (caught_body (context_of method.now) (scope_of scope.old) method.now.bound clause.now.class clause.now.variable (view_stms clause.now.body) (view_reference reference) (run_state run.old)) }
    ensures scope { WhereItEnds result (scope_of scope.new ≡ with_type clause.now.variable (Class clause.now.class) (scope_of scope.old)) }
{
    let copy = clause.class.copy(method.alloc)?;
    let kind = JType::Class(copy);
    open(method, scope, run, clause.variable, &kind)?;
    run.put(clause.variable, Value::Ref(reference))?;
    run_list(method, scope, run, Place::Elsewhere, clause.body.as_slice())
}

/// A catch clause that takes an exception; its variable is its own.
#[cycle(running)]
fn run_clause(
    method: &Method<'_>,
    scope: &mut Scope,
    run: &mut Run<'_>,
    clause: &Catch,
    reference: RefValue,
) -> Result<Completion, Stop>
    ensures done { Ends view_completion result (run_state run.new) (caught (scope_of scope.old) clause.now.variable (view_reference reference) (spec.run_all (context_of method.now) (with_type clause.now.variable (Class clause.now.class) (scope_of scope.old)) method.now.bound (view_stms clause.now.body)) (run_state run.old)) }
    ensures scope { WhereItEnds result (scope_of scope.new ≡ scope_of scope.old) }
{
    let mut kept = nothing_kept(method.alloc);
    keep(method.alloc, scope, run, clause.variable, &mut kept)?;
    let outcome = run_caught(method, scope, run, clause, reference);
    put_back(scope, run, kept)?;
    outcome
}

/// The first catch clause that takes an exception, or none: then it is thrown on.
#[cycle(running)]
fn run_clauses(
    method: &Method<'_>,
    scope: &mut Scope,
    run: &mut Run<'_>,
    clauses: &[Catch],
    reference: RefValue,
) -> Result<Completion, Stop>
    ensures done { Ends view_completion result (run_state run.new) (spec.run_clauses (context_of method.now) (scope_of scope.old) method.now.bound (view_catches clauses.now) (view_reference reference) (run_state run.old)) }
    ensures scope { WhereItEnds result (scope_of scope.new ≡ scope_of scope.old) }
{
    for clause in clauses {
        if is_instance(method.classes.headers, &reference.class, &clause.class) {
            return run_clause(method, scope, run, clause, reference);
        }
    }
    Err(Stop::Throws(reference))
}

/// Leaves the innermost monitor that is held, if one is.
fn leave(method: &Method<'_>, run: &mut Run<'_>) -> Result<(), Stop>
    ensures left { (next : Meaning completions.Completion) → Leaves result (run_state run.new) next (completions.exited method.now.classes.headers.now next (run_state run.old)) }
{
    match run.held.pop() {
        Some(monitor) => {
            method.settle(run, Reply::Asks(Action::Exit(monitor)))?;
            Ok(())
        }
        None => Ok(()),
    }
}

/// Enters a monitor and holds it.
fn enter(method: &Method<'_>, run: &mut Run<'_>, monitor: Value) -> Result<(), Stop>
    ensures entered { Ends (λ done. done) result (run_state run.new) (entered_with method.now.classes.headers.now (view_value monitor) (run_state run.old)) }
{
    let reference = object(method, run, monitor)?;
    let copy = reference.copy(method.alloc)?;
    method.settle(run, Reply::Asks(Action::Enter(copy)))?;
    run.held.push(reference)?;
    Ok(())
}

/// A part that holds a monitor, which it leaves however it completes.
#[cycle(running)]
fn run_holding(
    method: &Method<'_>,
    scope: &mut Scope,
    run: &mut Run<'_>,
    body: &[Stm],
    monitor: &Exp,
) -> Result<Completion, Stop>
    ensures done { Ends view_completion result (run_state run.new) (spec.run (context_of method.now) (scope_of scope.old) method.now.bound Elsewhere (trees.Synchronized (view_exp monitor.now) (view_stms body.now)) (run_state run.old)) }
    ensures scope { WhereItEnds result (scope_of scope.new ≡ scope_of scope.old) }
{
    let value = evaluate(method, scope, run, monitor)?;
    enter(method, run, value)?;
    match run_list(method, scope, run, Place::Elsewhere, body) {
        Ok(completion) => {
            leave(method, run)?;
            Ok(completion)
        }
        Err(Stop::Throws(reference)) => {
            leave(method, run)?;
            Err(Stop::Throws(reference))
        }
        Err(Stop::More) => Err(Stop::More),
        Err(Stop::Stuck) => Err(Stop::Stuck),
        Err(Stop::Memory(error)) => Err(Stop::Memory(error)),
    }
}
