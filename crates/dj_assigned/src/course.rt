//! How far a walk over statements has come.

ghost use Rattle.std.specs.Prelude.{◌≡◌, ◌++◌, IfOk};
ghost use Rattle.dj_assigned.specs.Walks as spec;

use dj_conditions::Walk;
use dj_names::{Items, Shared};
use dj_places::plus;
use dj_reach::Jump;
use dj_syntax::Var;
use dj_variables::{common, union};
use std::alloc::{AllocError, Global};
use std::mem;

/// A jump that leaves what is walked over, and the variables that aren't assigned there.
#[derive(Drop)]
pub struct Pending {
    pub jump: Jump,
    pub unassigned: Shared<Items<Var>>,
}

/// How far a walk over statements in the order of the text has come.
#[derive(Drop)]
pub struct Course {
    /// The place, and the variables that aren't assigned there.
    pub walk: Walk,
    /// The jumps that leave what is walked over, so far.
    pub jumps: Items<Pending>,
}

impl Course {
    /// At the first statement of a body.
    pub fn new(alloc: Global) -> Course
        ensures opening { result ≡ spec.opening }
    {
        Course {
            walk: Walk::new(alloc),
            jumps: Items::new(alloc),
        }
    }

    /// Goes past a jump.
    pub fn leave_by(&mut self, alloc: Global, jump: Jump) -> Result<(), AllocError>
        ensures left { IfOk result (λ _. self.new ≡ spec.leave_by jump self.old) }
    {
        self.walk.place = plus(self.walk.place, 1);
        let unassigned = mem::replace(&mut self.walk.unassigned, Items::new(alloc));
        let unassigned = Shared::new(alloc, unassigned)?;
        self.jumps.push(Pending { jump, unassigned })
    }

    /// Goes behind a labelled statement, given the jumps before it.
    pub fn end_label(
        &mut self,
        alloc: Global,
        label: u32,
        before: Items<Pending>,
    ) -> Result<(), AllocError>
        ensures ended { IfOk result (λ _. self.new ≡ spec.end_label label before self.old) }
    {
        let inner = mem::replace(&mut self.jumps, before);
        gather(
            alloc,
            Jump::Break(label),
            inner.as_slice(),
            &mut self.walk.unassigned,
        )?;
        add_others(label, inner.as_slice(), &mut self.jumps)
    }

    /// Goes to where a turn of a loop ends, given the label before it and the jumps before it.
    pub fn end_turn(
        &mut self,
        alloc: Global,
        own: Option<u32>,
        before: Items<Pending>,
    ) -> Result<(), AllocError>
        ensures ended { IfOk result (λ _. self.new ≡ spec.turn_ended own before self.old) }
    {
        let inner = mem::replace(&mut self.jumps, before);
        if let Some(label) = own {
            gather(
                alloc,
                Jump::Continue(label),
                inner.as_slice(),
                &mut self.walk.unassigned,
            )?;
        }
        self.jumps.append(inner)
    }

    /// Goes to the list of a `finally`, given what isn't assigned and the jumps before it; gives what the
    /// first part left of both.
    pub fn begin_last(
        &mut self,
        unassigned: Items<Var>,
        before: Items<Pending>,
    ) -> (Items<Var>, Items<Pending>)
        ensures begun { self.new ≡ spec.begin_last unassigned before self.old }
        ensures unassigned { result.0 ≡ self.old.walk.unassigned }
        ensures jumps { result.1 ≡ self.old.jumps }
    {
        let unassigned = mem::replace(&mut self.walk.unassigned, unassigned);
        let stopped = mem::replace(&mut self.jumps, before);
        (unassigned, stopped)
    }

    /// Goes behind a `finally`, given whether its list completes, and what the first part left.
    pub fn end_last(
        &mut self,
        alloc: Global,
        completes: bool,
        unassigned: Items<Var>,
        stopped: Items<Pending>,
    ) -> Result<(), AllocError>
        ensures ended { IfOk result (λ _. self.new ≡ spec.end_last completes unassigned stopped self.old) }
    {
        if completes {
            add_behind(
                alloc,
                self.walk.unassigned.as_slice(),
                stopped.as_slice(),
                &mut self.jumps,
            )?;
        }
        self.walk.unassigned = common(
            alloc,
            unassigned.as_slice(),
            self.walk.unassigned.as_slice(),
        )?;
        Ok(())
    }
}

/// Adds what isn't assigned at each such jump.
fn gather(
    alloc: Global,
    jump: Jump,
    from: &[Pending],
    list: &mut Items<Var>,
) -> Result<(), AllocError>
    ensures gathered { IfOk result (λ _. list.new ≡ spec.gathered jump from.now list.old) }
{
    for one in from {
        if one.jump.is_same(jump) {
            *list = union(alloc, list.as_slice(), one.unassigned.get().as_slice())?;
        }
    }
    Ok(())
}

/// Adds the jumps that don't name a label.
fn add_others(label: u32, from: &[Pending], jumps: &mut Items<Pending>) -> Result<(), AllocError>
    ensures added { IfOk result (λ _. jumps.new ≡ jumps.old ++ spec.others label from.now) }
{
    for one in from {
        if !one.jump.is_to(label) {
            let unassigned = one.unassigned.share()?;
            jumps.push(Pending {
                jump: one.jump,
                unassigned,
            })?;
        }
    }
    Ok(())
}

/// Adds the jumps, each behind a list that assigns all but these variables.
fn add_behind(
    alloc: Global,
    unassigned: &[Var],
    from: &[Pending],
    jumps: &mut Items<Pending>,
) -> Result<(), AllocError>
    ensures added { IfOk result (λ _. jumps.new ≡ jumps.old ++ spec.behind_last unassigned.now from.now) }
{
    for one in from {
        let both = common(alloc, one.unassigned.get().as_slice(), unassigned)?;
        let unassigned = Shared::new(alloc, both)?;
        jumps.push(Pending {
            jump: one.jump,
            unassigned,
        })?;
    }
    Ok(())
}
