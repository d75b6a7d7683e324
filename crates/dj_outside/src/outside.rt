//! What a run asks of the outside, and is told.

ghost use Rattle.std.specs.Prelude.{◌≡◌, map, MatchOption, option_map, IfSome, Option};
ghost use Rattle.dj_values.specs.Values as values;
ghost use Rattle.dj_values.specs.Views.{view_value, view_action, view_answer};
ghost use Rattle.dj_values.specs.Outcomes as outcomes;
ghost use Rattle.dj_values.specs.Outcomes.{opening, Stops};
ghost use Rattle.dj_outside.specs.Runs.{trap_class, world_of, alone, stop_of, Ends, IsTold, IsUntold};

use crate::stop::Stop;
use crate::trap::{Trap, class_name};
use dj_headers::{Headers, class_of};
use dj_names::Items;
use dj_values::{Action, Answer, Value, fits};
use std::alloc::Global;

/// The answers that are left, and the actions so far.
#[derive(Drop)]
pub struct Outside<'a> {
    answers: &'a [Answer],
    actions: Items<Action>,
}

impl<'a> Outside<'a> {
    /// These answers, and no action yet.
    pub fn new(alloc: Global, answers: &'a [Answer]) -> Outside<'a>
        ensures opening { world_of result ≡ opening (map view_answer answers.now) }
    {
        Outside {
            answers,
            actions: Items::new(alloc),
        }
    }

    /// The actions, the oldest first.
    pub fn into_actions(self) -> Items<Action>
        ensures actions { map view_action result ≡ (world_of self.entry).actions }
    {
        self.actions
    }

    /// The next answer, where it is one that the action can have.
    fn answer_to(&mut self, headers: &Headers, action: &Action) -> Option<&'a Answer>
        ensures told { MatchOption result
            (IsUntold headers.now (view_action action.now) (world_of self.old) × (world_of self.new ≡ world_of self.old))
            (λ answer. IsTold headers.now (view_action action.now) (view_answer answer.now) (world_of self.old) (world_of self.new)) }
    {
        let [first, rest @ ..] = self.answers else {
            return None;
        };
        if !fits(headers, action, first) {
            return None;
        }
        self.answers = rest;
        Some(first)
    }

    /// An action, and what the outside tells of it: a value, none, or an exception; without an answer that the action can
    /// have, the run ends here. Takes the action, and a copy of the answer.
    pub fn ask(
        &mut self,
        alloc: Global,
        headers: &Headers,
        action: Action,
    ) -> Result<Option<Value>, Stop>
        ensures asked { Ends (option_map view_value) result (alone (world_of self.new))
            (outcomes.outside headers.now (outcomes.ask (view_action action)) (alone (world_of self.old))) }
    {
        let answer = self.answer_to(headers, &action);
        self.actions.push(action)?;
        match answer {
            Some(Answer::Value(value)) => Ok(Some(value.copy(alloc)?)),
            Some(Answer::Done) => Ok(None),
            Some(Answer::Thrown(reference)) => Err(Stop::Throws(reference.copy(alloc)?)),
            None => Err(Stop::More),
        }
    }

    /// Why a run stops at an exception that the machine throws by itself: the exception that the outside answers, or that it answers none.
    pub fn trap(&mut self, alloc: Global, headers: &Headers, trap: Trap) -> Stop
        ensures trapped { IfSome (stop_of result) (λ why.
            outcomes.outside {A = Option values.Value} headers.now (outcomes.trap (trap_class trap)) (alone (world_of self.old)) ≡ Stops why (alone (world_of self.new))) }
    {
        let class = match class_of(alloc, class_name(trap)) {
            Ok(class) => class,
            Err(error) => return Stop::Memory(error),
        };
        match self.ask(alloc, headers, Action::Trap(class)) {
            Ok(_) => Stop::Stuck,
            Err(stop) => stop,
        }
    }
}
