//! How far a walk over statements has come.

ghost use Rattle.std.specs.Prelude.{◌≡◌, ◌++◌, option_map, IfOk};
ghost use Rattle.dj_syntax.specs.Trees.{view_exp, view_exps};
ghost use Rattle.dj_reach.specs.Walks as spec;

use crate::jump::{Jump, is_one_of};
use dj_names::Items;
use dj_places::{all_places, is_always, lower, option_places, places, plus};
use dj_static::Classes;
use dj_syntax::Exp;
use std::alloc::{AllocError, Global};
use std::mem;

/// Where statements stand: the classes that names may mean, and whether a `return` may stand there.
#[derive(Clone, Copy)]
pub struct Site<'a> {
    pub classes: Classes<'a>,
    pub may_return: bool,
}

/// How far a walk over statements in the order of the text has come.
#[derive(Drop)]
pub struct Walk {
    /// The place of the next statement or expression, at most 4,294,967,295.
    pub place: u32,
    /// Whether control can come here.
    pub alive: bool,
    /// The lowest place at which a rule is broken so far.
    pub fault: Option<u32>,
    /// The jumps that leave what is walked over, so far.
    pub jumps: Items<Jump>,
}

impl Walk {
    /// At the first statement of a body.
    pub fn new(alloc: Global) -> Walk
        ensures opening { result ≡ spec.opening }
    {
        Walk {
            place: 0,
            alive: true,
            fault: None,
            jumps: Items::new(alloc),
        }
    }

    /// Goes past one place.
    pub fn step(&mut self)
        ensures stepped { self.new ≡ spec.step self.old }
    {
        self.place = plus(self.place, 1);
    }

    /// Goes past an expression.
    pub fn skip(&mut self, exp: &Exp)
        ensures skipped { self.new ≡ spec.skip_exp (view_exp exp.now) self.old }
    {
        self.place = plus(self.place, places(exp));
    }

    /// Goes past expressions.
    pub fn skip_all(&mut self, exps: &[Exp])
        ensures skipped { self.new ≡ spec.skip_exps (view_exps exps.now) self.old }
    {
        self.place = plus(self.place, all_places(exps));
    }

    /// Goes past an expression, where there is one.
    pub fn skip_option(&mut self, exp: &Option<Exp>)
        ensures skipped { self.new ≡ spec.skip_option (option_map view_exp exp.now) self.old }
    {
        self.place = plus(self.place, option_places(exp));
    }

    /// Looks at a rule at the place.
    pub fn note(&mut self, kept: bool)
        ensures noted { self.new ≡ spec.note kept self.old }
    {
        if !kept {
            self.fault = lower(self.fault, Some(self.place));
        }
    }

    /// Goes past the test of a loop, given its answer where it is constant.
    pub fn begin_loop(&mut self, known: Option<bool>, test: &Exp)
        ensures begun { self.new ≡ spec.begin_loop known (view_exp test.now) self.old }
    {
        self.note(!is_always(false, known));
        self.step();
        self.skip(test);
    }

    /// Goes behind a loop that was reached or not.
    pub fn end_loop(&mut self, alive: bool, known: Option<bool>)
        ensures ended { self.new ≡ spec.end_loop alive known self.old }
    {
        self.alive = alive && !is_always(true, known);
    }

    /// Goes past a jump.
    pub fn leave_by(&mut self, jump: Jump) -> Result<(), AllocError>
        ensures left { IfOk result (λ _. self.new ≡ spec.leave_by jump self.old) }
    {
        self.place = plus(self.place, 1);
        if self.alive {
            self.jumps.push(jump)?;
        }
        self.alive = false;
        Ok(())
    }

    /// Goes behind a labelled statement, given the jumps before it.
    pub fn end_label(&mut self, label: u32, before: Items<Jump>) -> Result<(), AllocError>
        ensures ended { IfOk result (λ _. self.new ≡ spec.end_label label before self.old) }
    {
        let inner = mem::replace(&mut self.jumps, before);
        self.alive = self.alive || is_one_of(Jump::Break(label), inner.as_slice());
        add_others(label, inner.as_slice(), &mut self.jumps)
    }

    /// Goes behind a `do` and past its test, given the label before it, the test's answer where it is
    /// constant, and the jumps before it.
    pub fn end_do(
        &mut self,
        own: Option<u32>,
        known: Option<bool>,
        before: Items<Jump>,
        test: &Exp,
    ) -> Result<(), AllocError>
        ensures ended { IfOk result (λ _. self.new ≡ spec.end_do own known before (view_exp test.now) self.old) }
    {
        let goes_on = match own {
            None => false,
            Some(label) => is_one_of(Jump::Continue(label), self.jumps.as_slice()),
        };
        let inner = mem::replace(&mut self.jumps, before);
        self.alive = (self.alive || goes_on) && !is_always(true, known);
        self.jumps.append(inner)?;
        self.skip(test);
        Ok(())
    }

    /// Goes to the list of a `finally`, which was reached or not, given the jumps before; gives whether
    /// the first part completes, and its jumps.
    pub fn begin_last(&mut self, reached: bool, before: Items<Jump>) -> (bool, Items<Jump>)
        ensures begun { self.new ≡ spec.begin_last reached before self.old }
        ensures completes { result.0 ≡ self.old.alive }
        ensures jumps { result.1 ≡ self.old.jumps }
    {
        let completes = mem::replace(&mut self.alive, reached);
        let stopped = mem::replace(&mut self.jumps, before);
        (completes, stopped)
    }

    /// Goes behind a `finally`, given whether its first part completes, and the jumps of that.
    pub fn end_last(&mut self, completes: bool, stopped: Items<Jump>) -> Result<(), AllocError>
        ensures ended { IfOk result (λ _. self.new ≡ spec.end_last completes stopped self.old) }
    {
        if self.alive {
            self.jumps.append(stopped)?;
        }
        self.alive = completes && self.alive;
        Ok(())
    }
}

/// Adds the jumps that don't name a label.
fn add_others(label: u32, from: &[Jump], jumps: &mut Items<Jump>) -> Result<(), AllocError>
    ensures added { IfOk result (λ _. jumps.new ≡ jumps.old ++ spec.others label from.now) }
{
    for jump in from {
        if !jump.is_to(label) {
            jumps.push(*jump)?;
        }
    }
    Ok(())
}
