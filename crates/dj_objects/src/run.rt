//! What a run of a body knows, and what it changes.

ghost use Rattle.std.specs.Prelude.{◌≡◌, Some, None, Err, OnOk};
ghost use Rattle.std.specs.Option.{option_map};
ghost use Rattle.dj_names.specs.Types.{view_type};
ghost use Rattle.dj_values.specs.Views.{view_value, view_action};
ghost use Rattle.dj_values.specs.Outcomes as outcomes;
ghost use Rattle.dj_outside.specs.Runs.{trap_class, Ends};
ghost use Rattle.dj_static.specs.Scopes.{scope_of};
ghost use Rattle.dj_operators.specs.Computed.{view_computed};
ghost use Rattle.dj_meaning.specs.Runs as spec;
ghost use Rattle.dj_objects.specs.Replies.{view_value_reply, view_reply};
ghost use Rattle.dj_objects.specs.Runs.{context_of, run_state};

use crate::replies::{Reply, reply_of};
use crate::values::Values;
use dj_names::{Items, JType};
use dj_operators::{Computed, converted};
use dj_outside::{Outside, Stop, Trap};
use dj_static::{Classes, Scope};
use dj_syntax::Var;
use dj_values::{Action, RefValue, Value};
use std::alloc::{AllocError, Global};

/// What a run of a body knows: the classes, its method's result, `this` where it has one, whether it
/// is a constructor's, and the most turns of each loop.
#[derive(Clone, Copy)]
pub struct Method<'a> {
    pub alloc: Global,
    pub classes: Classes<'a>,
    pub result: Option<&'a JType>,
    pub this: Option<&'a Value>,
    pub constructs: bool,
    pub bound: u64,
}

/// What a run of a body changes: the values of its variables, the monitors that it holds, the innermost last, and
/// the outside.
#[derive(Drop)]
pub struct Run<'a> {
    pub values: Values,
    pub held: Items<RefValue>,
    pub outside: Outside<'a>,
}

impl<'a> Run<'a> {
    /// The value of a variable in scope.
    pub fn look(&self, alloc: Global, scope: &Scope, variable: Var) -> Result<Value, Stop>
        ensures looked { Ends view_value result (run_state self.now) (spec.look (scope_of scope.now) variable (run_state self.now)) }
    {
        match scope.kind(variable) {
            None => Err(Stop::Stuck),
            Some(_) => match self.values.get(variable) {
                Some(value) => Ok(value.copy(alloc)?),
                None => Err(Stop::Stuck),
            },
        }
    }

    /// A variable has this value from now on.
    pub fn put(&mut self, variable: Var, value: Value) -> Result<(), AllocError>
        ensures put { OnOk result (run_state self.new ≡ spec.with_store (spec.with_value variable (Some (view_value value))) (run_state self.old)) }
    {
        self.values.put(variable, value)?;
        Ok(())
    }

    /// A variable has no value from now on.
    pub fn forget(&mut self, variable: Var)
        ensures forgotten { run_state self.new ≡ spec.with_store (spec.with_value variable None) (run_state self.old) }
    {
        self.values.forget(variable);
    }
}

impl<'a> Method<'a> {
    /// `this`
    pub fn this_value(&self) -> Result<Value, Stop>
        ensures this { (state : outcomes.State spec.Store) → Ends view_value result state (spec.present (context_of self.now).this state) }
    {
        match self.this {
            Some(this) => Ok(this.copy(self.alloc)?),
            None => Err(Stop::Stuck),
        }
    }

    /// An action, and what the outside tells of it.
    fn ask(&self, run: &mut Run<'_>, action: Action) -> Result<Option<Value>, Stop>
        ensures asked { Ends (option_map view_value) result (run_state run.new) (outcomes.outside self.now.classes.headers.now (outcomes.ask (view_action action)) (run_state run.old)) }
    {
        run.outside.ask(self.alloc, self.classes.headers, action)
    }

    /// An action that is answered by a value.
    pub fn ask_value(&self, run: &mut Run<'_>, action: Action) -> Result<Value, Stop>
        ensures asked { Ends view_value result (run_state run.new) (outcomes.outside self.now.classes.headers.now (outcomes.ask_value (view_action action)) (run_state run.old)) }
    {
        let told = self.ask(run, action)?;
        match told {
            Some(value) => Ok(value),
            None => Err(Stop::Stuck),
        }
    }

    /// Why a run stops at an exception that the machine throws by itself.
    pub fn trap(&self, run: &mut Run<'_>, trap: Trap) -> Stop
        ensures trapped { Ends (option_map view_value) (Err result) (run_state run.new) (outcomes.outside self.now.classes.headers.now (outcomes.trap (trap_class trap)) (run_state run.old)) }
    {
        run.outside.trap(self.alloc, self.classes.headers, trap)
    }

    /// What a reply comes to: what is given, or told of the action that is asked.
    pub fn settle(&self, run: &mut Run<'_>, reply: Reply) -> Result<Option<Value>, Stop>
        ensures settled { Ends (option_map view_value) result (run_state run.new) (outcomes.outside self.now.classes.headers.now (view_reply reply) (run_state run.old)) }
    {
        match reply {
            Reply::Gives(value) => Ok(Some(value)),
            Reply::Asks(action) => self.ask(run, action),
            Reply::Traps(trap) => Err(self.trap(run, trap)),
            Reply::More => Err(Stop::More),
            Reply::Stuck => Err(Stop::Stuck),
        }
    }

    /// What a reply comes to that gives a value.
    pub fn settle_value(&self, run: &mut Run<'_>, reply: Reply) -> Result<Value, Stop>
        ensures settled { Ends view_value result (run_state run.new) (outcomes.outside self.now.classes.headers.now (view_value_reply reply) (run_state run.old)) }
    {
        match reply {
            Reply::Gives(value) => Ok(value),
            Reply::Asks(action) => self.ask_value(run, action),
            Reply::Traps(trap) => Err(self.trap(run, trap)),
            Reply::More => Err(Stop::More),
            Reply::Stuck => Err(Stop::Stuck),
        }
    }

    /// What an operation on values comes to.
    pub fn compute(&self, run: &mut Run<'_>, computed: Computed) -> Result<Value, Stop>
        ensures computed { Ends view_value result (run_state run.new) (outcomes.outside self.now.classes.headers.now (view_computed computed) (run_state run.old)) }
    {
        self.settle_value(run, reply_of(computed))
    }

    /// A value that goes where a type is wanted.
    pub fn fitted(&self, run: &mut Run<'_>, kind: &JType, value: Value) -> Result<Value, Stop>
        ensures fitted { Ends view_value result (run_state run.new) (spec.fitted self.now.classes.headers.now (view_type kind.now) (view_value value) (run_state run.old)) }
    {
        self.compute(run, converted(kind, value))
    }
}
