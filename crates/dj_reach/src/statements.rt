//! The walk over the statements of a body.

ghost use Rattle.std.specs.Prelude.{◌≡◌, None, IfOk};
ghost use Rattle.dj_syntax.specs.Trees.{view_catches, view_groups, view_stm, view_stms};
ghost use Rattle.dj_meaning.specs.Statements.{has_label, is_labelled};
ghost use Rattle.dj_reach.specs.Walks as spec;
ghost use Rattle.dj_reach.specs.Walks.{view_site};

use crate::clauses::are_in_order;
use crate::jump::Jump;
use crate::walk::{Site, Walk};
use dj_names::Items;
use dj_places::constant_truth;
use dj_syntax::{Catch, Group, Stm};
use std::alloc::{AllocError, Global};
use std::mem;

/// Whether a label is `default`.
fn has_default_label(labels: &[Option<i32>]) -> bool
    ensures default { result ≡ has_label None labels.now }
{
    labels.iter().any(|label| label.is_none())
}

/// Whether a group has the label `default`.
pub fn has_default(groups: &[Group]) -> bool
    ensures default { result ≡ is_labelled None (view_groups groups.now) }
{
    for group in groups {
        if has_default_label(group.labels.as_slice()) {
            return true;
        }
    }
    false
}

/// Walks past a statement, given the label right before it.
#[cycle(pass)]
pub fn pass(
    alloc: Global,
    site: &Site<'_>,
    own: Option<u32>,
    statement: &Stm,
    walk: &mut Walk,
) -> Result<(), AllocError>
    ensures walked { IfOk result (λ _. walk.new ≡ spec.pass (view_site site.now) own (view_stm statement.now) walk.old) }
{
    match statement {
        Stm::Block(list) => {
            walk.step();
            pass_list(alloc, site, list.as_slice(), walk)
        }
        Stm::Labelled(label, statement) => {
            walk.step();
            let before = mem::replace(&mut walk.jumps, Items::new(alloc));
            pass(alloc, site, Some(*label), statement.get(), walk)?;
            walk.end_label(*label, before)
        }
        Stm::Declare(_, _, value) => {
            walk.step();
            walk.skip_option(value);
            Ok(())
        }
        Stm::Set(_, value) | Stm::SetStatic(_, _, value) | Stm::Run(value) => {
            walk.step();
            walk.skip(value);
            Ok(())
        }
        Stm::SetField(object, _, value) => {
            walk.step();
            walk.skip(object);
            walk.skip(value);
            Ok(())
        }
        Stm::SetElement(array, index, value) => {
            walk.step();
            walk.skip(array);
            walk.skip(index);
            walk.skip(value);
            Ok(())
        }
        Stm::If(test, first, second) => {
            let reached = walk.alive;
            walk.step();
            walk.skip(test);
            pass_list(alloc, site, first.as_slice(), walk)?;
            let completes = mem::replace(&mut walk.alive, reached);
            pass_list(alloc, site, second.as_slice(), walk)?;
            walk.alive = completes || walk.alive;
            Ok(())
        }
        Stm::While(test, body) => {
            let reached = walk.alive;
            let known = constant_truth(alloc, &site.classes, test)?;
            walk.begin_loop(known, test);
            pass_list(alloc, site, body.as_slice(), walk)?;
            walk.end_loop(reached, known);
            Ok(())
        }
        Stm::Switch(value, groups) => {
            let reached = walk.alive;
            walk.step();
            walk.skip(value);
            pass_groups(alloc, site, reached, groups.as_slice(), walk)?;
            walk.alive = (reached && !has_default(groups.as_slice())) || walk.alive;
            Ok(())
        }
        Stm::Break(label) => walk.leave_by(Jump::Break(*label)),
        Stm::Continue(label) => walk.leave_by(Jump::Continue(*label)),
        Stm::Return(value) => {
            walk.note(site.may_return);
            walk.step();
            walk.skip_option(value);
            walk.alive = false;
            Ok(())
        }
        Stm::Throw(value) => {
            walk.step();
            walk.skip(value);
            walk.alive = false;
            Ok(())
        }
        Stm::Rethrow(_) => {
            walk.step();
            walk.alive = false;
            Ok(())
        }
        Stm::Try(body, catches) => {
            let reached = walk.alive;
            walk.note(are_in_order(site.classes.headers, catches.as_slice()));
            walk.step();
            pass_list(alloc, site, body.as_slice(), walk)?;
            pass_catches(alloc, site, reached, catches.as_slice(), walk)
        }
        Stm::Synchronized(monitor, body) => {
            walk.step();
            walk.skip(monitor);
            pass_list(alloc, site, body.as_slice(), walk)
        }
        Stm::Construct(_, arguments) => {
            walk.step();
            walk.skip_all(arguments.as_slice());
            Ok(())
        }
        Stm::Do(body, test) => {
            let known = constant_truth(alloc, &site.classes, test)?;
            walk.step();
            let before = mem::replace(&mut walk.jumps, Items::new(alloc));
            pass_list(alloc, site, body.as_slice(), walk)?;
            walk.end_do(own, known, before, test)
        }
        Stm::For(test, _, next, body) => {
            let reached = walk.alive;
            let known = constant_truth(alloc, &site.classes, test)?;
            walk.begin_loop(known, test);
            walk.skip(next);
            pass_list(alloc, site, body.as_slice(), walk)?;
            walk.end_loop(reached, known);
            Ok(())
        }
        Stm::Finally(body, last) => {
            let reached = walk.alive;
            walk.step();
            let before = mem::replace(&mut walk.jumps, Items::new(alloc));
            pass_list(alloc, site, body.as_slice(), walk)?;
            let (completes, stopped) = walk.begin_last(reached, before);
            pass_list(alloc, site, last.as_slice(), walk)?;
            walk.end_last(completes, stopped)?;
            Ok(())
        }
    }
}

/// Walks past statements.
#[cycle(pass)]
pub fn pass_list(
    alloc: Global,
    site: &Site<'_>,
    list: &[Stm],
    walk: &mut Walk,
) -> Result<(), AllocError>
    ensures walked { IfOk result (λ _. walk.new ≡ spec.pass_list (view_site site.now) (view_stms list.now) walk.old) }
{
    for statement in list {
        walk.note(walk.alive);
        pass(alloc, site, None, statement, walk)?;
    }
    Ok(())
}

/// Walks past the groups of a switch that was reached or not.
#[cycle(pass)]
fn pass_groups(
    alloc: Global,
    site: &Site<'_>,
    reached: bool,
    groups: &[Group],
    walk: &mut Walk,
) -> Result<(), AllocError>
    ensures walked { IfOk result (λ _. walk.new ≡ spec.pass_groups (view_site site.now) reached (view_groups groups.now) walk.old) }
{
    for group in groups {
        walk.alive = reached;
        pass_list(alloc, site, group.body.as_slice(), walk)?;
    }
    Ok(())
}

/// Walks past the clauses of a try that was reached or not.
#[cycle(pass)]
fn pass_catches(
    alloc: Global,
    site: &Site<'_>,
    reached: bool,
    catches: &[Catch],
    walk: &mut Walk,
) -> Result<(), AllocError>
    ensures walked { IfOk result (λ _. walk.new ≡ spec.pass_catches (view_site site.now) reached (view_catches catches.now) walk.old) }
{
    for catch in catches {
        let completes = mem::replace(&mut walk.alive, reached);
        pass_list(alloc, site, catch.body.as_slice(), walk)?;
        walk.alive = completes || walk.alive;
    }
    Ok(())
}
