//! The values of expressions (JLS 15).

ghost use Rattle.std.specs.Prelude.{◌≡◌, replicate, IfOk, option_map};
ghost use Rattle.std.specs.Option.{option_copied};
ghost use Rattle.dj_names.specs.Types.{Int, view_type, view_types};
ghost use Rattle.dj_values.specs.Views.{view_value, view_values};
ghost use Rattle.dj_values.specs.Outcomes.{State};
ghost use Rattle.dj_outside.specs.Runs.{Ends};
ghost use Rattle.dj_syntax.specs.Trees as trees;
ghost use Rattle.dj_syntax.specs.Trees.{view_exp, view_exps};
ghost use Rattle.dj_static.specs.Scopes.{scope_of};
ghost use Rattle.dj_meaning.specs.Runs.{Store, given, assigned};
ghost use Rattle.dj_meaning.specs.StaticTypes as types;
ghost use Rattle.dj_meaning.specs.Objects.{length_read};
ghost use Rattle.dj_meaning.specs.Expressions as spec;
ghost use Rattle.dj_static.specs.Views.{view_selection};
ghost use Rattle.dj_objects.specs.Replies.{view_value_reply};
ghost use Rattle.dj_objects.specs.Runs.{context_of, run_state};
ghost use Rattle.dj_evaluating.specs.Parts.{value_to};

use crate::operands::{Left, after_left, joined, truth};
use dj_names::{ClassName, Items, JType, Units};
use dj_objects::calls::call;
use dj_objects::scoping::{
    class_target, element_kind, is_floating, new_target, object_target, selection, static_field,
    super_target,
};
use dj_objects::{Method, Reply, Run, arrays, fields};
use dj_operators::{cast, inverted, is_of, negated, truth_of};
use dj_outside::{Stop, Trap};
use dj_static::{Scope, Selection, array_of};
use dj_syntax::{Exp, Var};
use dj_values::{Action, Value};
use std::alloc::{AllocError, Global};

/// The length of an array.
fn length(array: &Value) -> Reply
    ensures read { view_value_reply result ≡ length_read (view_value array.now) }
{
    match array {
        Value::Ref(reference) => Reply::Gives(Value::Int(reference.length.cast_signed())),
        Value::Null => Reply::Traps(Trap::Null),
        Value::Int(_) | Value::Long(_) => Reply::Stuck,
    }
}

/// What a name selects of an object of a type.
fn read_selected(
    alloc: Global,
    class: JType,
    name: &Units,
    selection: Selection<'_>,
    object: Value,
) -> Result<Reply, AllocError>
    ensures read { IfOk result (λ reply. view_value_reply reply ≡ spec.selected_read name.now (view_selection (view_type class) selection.entry) (view_value object)) }
{
    match selection {
        Selection::Length => Ok(length(&object)),
        Selection::Field(field) => fields::read_field(alloc, class, name, field, object),
    }
}

/// So many times the type int.
fn ints(alloc: Global, count: usize) -> Result<Items<JType>, AllocError>
    ensures ints { IfOk result (λ kinds. view_types kinds ≡ replicate count Int) }
{
    let mut kinds = Items::new(alloc);
    for _made in 0..count {
        kinds.push(JType::Int)?;
    }
    Ok(kinds)
}

/// A static field of a class.
fn static_value(
    method: &Method<'_>,
    run: &mut Run<'_>,
    class: &ClassName,
    name: &Units,
) -> Result<Value, Stop>
    ensures value { (scope : types.Scope) → Ends view_value result (run_state run.new) (spec.value (context_of method.now) scope (trees.Static class.now name.now) (run_state run.old)) }
{
    let found = static_field(method, class, name)?;
    let Some(field) = found else {
        return Err(Stop::Stuck);
    };
    let class = JType::Class(class.copy(method.alloc)?);
    let reply = fields::read_static(method.alloc, class, name, field)?;
    method.settle_value(run, reply)
}

/// A boolean that a value is.
fn tested(value: &Value) -> Result<bool, Stop>
    ensures tested { (method : types.Context) (state : State Store) → Ends (λ answer. answer) result state (spec.tested method (view_value value.now) state) }
{
    match truth_of(value) {
        Some(answer) => Ok(answer),
        None => Err(Stop::Stuck),
    }
}

/// A boolean expression.
pub fn test(method: &Method<'_>, scope: &Scope, run: &mut Run<'_>, exp: &Exp) -> Result<bool, Stop>
    ensures test { Ends (λ answer. answer) result (run_state run.new) (spec.test (context_of method.now) (scope_of scope.now) (view_exp exp.now) (run_state run.old)) }
{
    let value = evaluate(method, scope, run, exp)?;
    tested(&value)
}

/// The value of an expression where a type is wanted.
#[cycle(evaluating)]
pub fn evaluate_to(
    method: &Method<'_>,
    scope: &Scope,
    run: &mut Run<'_>,
    exp: &Exp,
    kind: &JType,
) -> Result<Value, Stop>
    ensures value { Ends view_value result (run_state run.new) (value_to (context_of method.now) (scope_of scope.now) (view_exp exp.now) (view_type kind.now) (run_state run.old)) }
{
    let value = evaluate(method, scope, run, exp)?;
    method.fitted(run, kind, value)
}

/// A value that is assigned to a variable, as the variable's type keeps it.
#[cycle(evaluating)]
pub fn assign(
    method: &Method<'_>,
    scope: &Scope,
    run: &mut Run<'_>,
    variable: Var,
    new: &Exp,
) -> Result<Value, Stop>
    ensures assigned { Ends view_value result (run_state run.new) (assigned method.now.classes.headers.now (scope_of scope.now) variable (spec.value (context_of method.now) (scope_of scope.now) (view_exp new.now)) (run_state run.old)) }
{
    let Some(kind) = scope.kind(variable) else {
        return Err(Stop::Stuck);
    };
    let value = evaluate_to(method, scope, run, new, kind)?;
    let kept = value.copy(method.alloc)?;
    run.put(variable, kept)?;
    Ok(value)
}

/// What a name selects of an expression.
#[cycle(evaluating)]
fn select(
    method: &Method<'_>,
    scope: &Scope,
    run: &mut Run<'_>,
    object: &Exp,
    name: &Units,
) -> Result<Value, Stop>
    ensures value { Ends view_value result (run_state run.new) (spec.value (context_of method.now) (scope_of scope.now) (trees.Field (view_exp object.now) name.now) (run_state run.old)) }
{
    let selected = selection(method, scope, object, name)?;
    let Some((kind, chosen)) = selected else {
        return Err(Stop::Stuck);
    };
    let value = evaluate(method, scope, run, object)?;
    let reply = read_selected(method.alloc, kind, name, chosen, value)?;
    method.settle_value(run, reply)
}

/// A new array.
#[cycle(evaluating)]
fn make_array(
    method: &Method<'_>,
    scope: &Scope,
    run: &mut Run<'_>,
    sizes: &[Exp],
    kind: &JType,
    more: u32,
) -> Result<Value, Stop>
    ensures value { Ends view_value result (run_state run.new) (spec.value (context_of method.now) (scope_of scope.now) (trees.NewArray (view_type kind.now) (view_exps sizes.now) more) (run_state run.old)) }
{
    let alloc = method.alloc;
    let kinds = ints(alloc, sizes.len())?;
    let array = array_of(alloc, sizes.len() as u64 + u64::from(more), kind)?;
    let numbers = evaluate_all(method, scope, run, sizes, kinds.as_slice())?;
    let reply = arrays::make(alloc, array, numbers.as_slice())?;
    method.settle_value(run, reply)
}

/// A new object: it is made before the arguments of its constructor are evaluated.
#[cycle(evaluating)]
fn make(
    method: &Method<'_>,
    scope: &Scope,
    run: &mut Run<'_>,
    arguments: &[Exp],
    class: &ClassName,
) -> Result<Value, Stop>
    ensures value { Ends view_value result (run_state run.new) (spec.value (context_of method.now) (scope_of scope.now) (trees.New class.now (view_exps arguments.now)) (run_state run.old)) }
{
    let alloc = method.alloc;
    let asked = new_target(method, scope, class, arguments)?;
    let Some(target) = asked else {
        return Err(Stop::Stuck);
    };
    let named = class.copy(alloc)?;
    let object = method.ask_value(run, Action::New(named))?;
    let given = evaluate_all(method, scope, run, arguments, target.parameters())?;
    let receiver = object.copy(alloc)?;
    let reply = call(alloc, target, receiver, given)?;
    method.settle(run, reply)?;
    Ok(object)
}

/// A call of a class's static method.
#[cycle(evaluating)]
fn call_class(
    method: &Method<'_>,
    scope: &Scope,
    run: &mut Run<'_>,
    arguments: &[Exp],
    class: &ClassName,
    name: &Units,
) -> Result<Option<Value>, Stop>
    ensures called { Ends (option_map view_value) result (run_state run.new) (spec.effect (context_of method.now) (scope_of scope.now) (trees.StaticCall class.now name.now (view_exps arguments.now)) (run_state run.old)) }
{
    let asked = class_target(method, scope, class, name, arguments)?;
    let Some(target) = asked else {
        return Err(Stop::Stuck);
    };
    let values = evaluate_all(method, scope, run, arguments, target.parameters())?;
    let reply = call(method.alloc, target, Value::Null, values)?;
    method.settle(run, reply)
}

/// A call behind `super`.
#[cycle(evaluating)]
fn call_super(
    method: &Method<'_>,
    scope: &Scope,
    run: &mut Run<'_>,
    arguments: &[Exp],
    above: Option<&ClassName>,
    name: &Units,
) -> Result<Option<Value>, Stop>
    ensures called { Ends (option_map view_value) result (run_state run.new) (spec.effect (context_of method.now) (scope_of scope.now) (trees.SuperCall (option_copied above.entry) name.now (view_exps arguments.now)) (run_state run.old)) }
{
    let asked = super_target(method, scope, above, name, arguments)?;
    let Some(target) = asked else {
        return Err(Stop::Stuck);
    };
    let receiver = method.this_value()?;
    let values = evaluate_all(method, scope, run, arguments, target.parameters())?;
    let reply = call(method.alloc, target, receiver, values)?;
    method.settle(run, reply)
}

/// A call or a new object as a statement, whatever it gives (JLS 14.8).
#[cycle(evaluating)]
pub fn perform(
    method: &Method<'_>,
    scope: &Scope,
    run: &mut Run<'_>,
    exp: &Exp,
) -> Result<Option<Value>, Stop>
    ensures done { Ends (option_map view_value) result (run_state run.new) (spec.effect (context_of method.now) (scope_of scope.now) (view_exp exp.now) (run_state run.old)) }
{
    match exp {
        Exp::Call(object, name, arguments) => {
            let arguments = arguments.get().as_slice();
            let asked = object_target(method, scope, object.get(), name, arguments)?;
            let Some(target) = asked else {
                return Err(Stop::Stuck);
            };
            let receiver = evaluate(method, scope, run, object.get())?;
            let values = evaluate_all(method, scope, run, arguments, target.parameters())?;
            let reply = call(method.alloc, target, receiver, values)?;
            method.settle(run, reply)
        }
        Exp::StaticCall(class, name, arguments) => {
            call_class(method, scope, run, arguments.get().as_slice(), class, name)
        }
        Exp::SuperCall(above, name, arguments) => {
            call_super(
                method,
                scope,
                run,
                arguments.get().as_slice(),
                above.as_ref(),
                name,
            )
        }
        Exp::New(class, arguments) => {
            make(method, scope, run, arguments.get().as_slice(), class)?;
            Ok(None)
        }
        Exp::Int(_)
        | Exp::Long(_)
        | Exp::Text(_)
        | Exp::Bool(_)
        | Exp::Null
        | Exp::This
        | Exp::Var(_)
        | Exp::ClassOf(_)
        | Exp::Field(_, _)
        | Exp::Static(_, _)
        | Exp::Element(_, _)
        | Exp::NewArray(_, _, _)
        | Exp::Cast(_, _)
        | Exp::InstanceOf(_, _)
        | Exp::Negative(_)
        | Exp::Not(_)
        | Exp::Binary(_, _, _)
        | Exp::Choice(_, _, _)
        | Exp::Assign(_, _) => Err(Stop::Stuck),
    }
}

/// The value that a call gives, which has to be there.
#[cycle(evaluating)]
fn call_value(
    method: &Method<'_>,
    scope: &Scope,
    run: &mut Run<'_>,
    exp: &Exp,
) -> Result<Value, Stop>
    ensures given { Ends view_value result (run_state run.new) (given (spec.effect (context_of method.now) (scope_of scope.now) (view_exp exp.now)) (run_state run.old)) }
{
    let told = perform(method, scope, run, exp)?;
    match told {
        Some(value) => Ok(value),
        None => Err(Stop::Stuck),
    }
}

/// The value of an expression; operands are evaluated from left to right, and fully.
#[cycle(evaluating)]
pub fn evaluate(
    method: &Method<'_>,
    scope: &Scope,
    run: &mut Run<'_>,
    exp: &Exp,
) -> Result<Value, Stop>
    ensures value { Ends view_value result (run_state run.new) (spec.value (context_of method.now) (scope_of scope.now) (view_exp exp.now) (run_state run.old)) }
{
    match exp {
        Exp::Int(number) => Ok(Value::Int(*number)),
        Exp::Long(number) => Ok(Value::Long(*number)),
        Exp::Text(units) => Ok(fields::text(method.alloc, units)?),
        Exp::Bool(known) => Ok(truth(*known)),
        Exp::Null => Ok(Value::Null),
        Exp::This => method.this_value(),
        Exp::Var(variable) => run.look(method.alloc, scope, *variable),
        Exp::ClassOf(kind) => {
            let kind = kind.copy(method.alloc)?;
            method.ask_value(run, Action::ClassConstant(kind))
        }
        Exp::Field(object, name) => select(method, scope, run, object.get(), name),
        Exp::Static(class, name) => static_value(method, run, class, name),
        Exp::Element(array, index) => {
            let Some(_) = element_kind(method, scope, array.get())? else {
                return Err(Stop::Stuck);
            };
            let found = evaluate(method, scope, run, array.get())?;
            let place = evaluate(method, scope, run, index.get())?;
            method.settle_value(run, arrays::read(found, &place))
        }
        Exp::Call(_, _, _) | Exp::StaticCall(_, _, _) | Exp::SuperCall(_, _, _) => {
            call_value(method, scope, run, exp)
        }
        Exp::New(class, arguments) => {
            make(method, scope, run, arguments.get().as_slice(), class)
        }
        Exp::NewArray(kind, sizes, more) => {
            make_array(method, scope, run, sizes.get().as_slice(), kind, *more)
        }
        Exp::Cast(kind, operand) => {
            let object = evaluate(method, scope, run, operand.get())?;
            method.compute(run, cast(method.classes.headers, kind, object))
        }
        Exp::InstanceOf(operand, kind) => {
            let instance = evaluate(method, scope, run, operand.get())?;
            method.compute(run, is_of(method.classes.headers, kind, &instance))
        }
        Exp::Negative(operand) => {
            let number = evaluate(method, scope, run, operand.get())?;
            method.compute(run, negated(&number))
        }
        Exp::Not(operand) => {
            let answer = evaluate(method, scope, run, operand.get())?;
            method.compute(run, inverted(&answer))
        }
        Exp::Binary(operator, left, right) => {
            let floating = is_floating(method, scope, *operator, left.get(), right.get())?;
            let first = evaluate(method, scope, run, left.get())?;
            let left = after_left(*operator, floating, first)?;
            match left {
                Left::Gives(value) => Ok(value),
                Left::Wants(first) => {
                    let second = evaluate(method, scope, run, right.get())?;
                    method.compute(run, joined(*operator, &first, &second))
                }
            }
        }
        Exp::Choice(condition, first, second) => {
            let decided = evaluate(method, scope, run, condition.get())?;
            let holds = tested(&decided)?;
            if holds {
                evaluate(method, scope, run, first.get())
            } else {
                evaluate(method, scope, run, second.get())
            }
        }
        Exp::Assign(variable, new) => assign(method, scope, run, *variable, new.get()),
    }
}

/// The values of expressions where types are wanted, one for each; a value is converted as soon as it
/// is there.
#[cycle(evaluating)]
pub fn evaluate_all(
    method: &Method<'_>,
    scope: &Scope,
    run: &mut Run<'_>,
    exps: &[Exp],
    kinds: &[JType],
) -> Result<Items<Value>, Stop>
    ensures values { Ends view_values result (run_state run.new) (spec.values (context_of method.now) (scope_of scope.now) (view_exps exps.now) (view_types kinds.now) (run_state run.old)) }
{
    let mut values = Items::new(method.alloc);
    let mut left = kinds;
    for exp in exps {
        let [kind, rest @ ..] = left else {
            return Err(Stop::Stuck);
        };
        let value = evaluate_to(method, scope, run, exp, kind)?;
        values.push(value)?;
        left = rest;
    }
    if left.is_empty() {
        Ok(values)
    } else {
        Err(Stop::Stuck)
    }
}
