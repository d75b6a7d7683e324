//! Statements: lines at their level, inner lists one level deeper.

ghost use Rattle.std.specs.Prelude.{◌≡◌, ◌++◌, is_some};
ghost use Rattle.std.specs.List.{flat_map};
ghost use Rattle.dj_syntax.specs.Items.{render};
ghost use Rattle.dj_syntax.specs.Trees.{view_catches, view_groups, view_stm, view_stms, view_unit};
ghost use Rattle.dj_syntax.specs.UnitText.{braced, case_items, catches_items, deeper, else_items, groups_items, is_empty, stm_items, stms_items};
ghost use Rattle.dj_syntax.specs.WellFormed.{AreWellFormedCatches, AreWellFormedGroups, AreWellFormedStms, IsWellFormedStm};
ghost use Rattle.dj_print.specs.Spelled.{IsNamedUnit, spellings};

mod parts;
mod stores;

use crate::out::Out;
use crate::print::statement::parts::{
    cases, caught, deeper, do_test, for_head, headed, is_empty, jump, labelled, rethrow,
};
pub use crate::print::statement::stores::first_value;
use crate::print::statement::stores::{
    construct, declare, return_value, run, set, set_element, set_field, set_static, throw,
};
use crate::print::text::line;
use dj_syntax::{Catch, Group, Stm, Unit};

/// Prints a statement from its first word on; its further lines stand at this level.
#[cycle(statement)]
pub fn statement<O: Out>(out: &mut O, one: &Stm, depth: u32, unit: &Unit)
    requires named { IsNamedUnit (view_unit unit.now) }
    requires well_formed { IsWellFormedStm (is_some unit.now.helper) (view_stm one.now) }
    ensures prints { O.prints out.old out.new (render (stm_items (spellings unit.now) depth (view_stm one.now))) }
{
    match one {
        Stm::Block(list) => braces(out, list.as_slice(), depth, unit),
        Stm::Labelled(label, inner) => {
            labelled(out, *label);
            statement(out, inner.get(), depth, unit);
        }
        Stm::Declare(variable, kind, value) => declare(out, *variable, kind, value, unit),
        Stm::Set(variable, value) => set(out, *variable, value, unit),
        Stm::SetField(object, name, value) => set_field(out, object, name, value, unit),
        Stm::SetStatic(class, name, value) => set_static(out, class, name, value, unit),
        Stm::SetElement(array, index, value) => set_element(out, array, index, value, unit),
        Stm::Run(call) => run(out, call, unit),
        Stm::If(test, first, second) => {
            headed(out, b"if ", test, unit);
            braces(out, first.as_slice(), depth, unit);
            otherwise(out, second.as_slice(), depth, unit);
        }
        Stm::While(test, body) => {
            headed(out, b"while ", test, unit);
            braces(out, body.as_slice(), depth, unit);
        }
        Stm::Switch(value, list) => {
            headed(out, b"switch ", value, unit);
            out.put(b"{");
            groups(out, list.as_slice(), deeper(depth), unit);
            line(out, depth);
            out.put(b"}");
        }
        Stm::Break(label) => jump(out, b"break ", *label),
        Stm::Continue(label) => jump(out, b"continue ", *label),
        Stm::Return(value) => return_value(out, value, unit),
        Stm::Throw(value) => throw(out, value, unit),
        Stm::Rethrow(variable) => rethrow(out, *variable, unit),
        Stm::Try(body, list) => {
            out.put(b"try ");
            braces(out, body.as_slice(), depth, unit);
            catches(out, list.as_slice(), depth, unit);
        }
        Stm::Synchronized(monitor, body) => {
            headed(out, b"synchronized ", monitor, unit);
            braces(out, body.as_slice(), depth, unit);
        }
        Stm::Construct(own, arguments) => construct(out, *own, arguments.as_slice(), unit),
        Stm::Do(body, test) => {
            out.put(b"do ");
            braces(out, body.as_slice(), depth, unit);
            do_test(out, test, unit);
        }
        Stm::For(test, variable, step, body) => {
            for_head(out, test, *variable, step, unit);
            braces(out, body.as_slice(), depth, unit);
        }
        Stm::Finally(body, last) => {
            out.put(b"try ");
            braces(out, body.as_slice(), depth, unit);
            out.put(b" finally ");
            braces(out, last.as_slice(), depth, unit);
        }
    }
}

/// Prints statements at this level, each on a line of its own with the line end before it.
#[cycle(statement)]
pub fn statements<O: Out>(out: &mut O, list: &[Stm], depth: u32, unit: &Unit)
    requires named { IsNamedUnit (view_unit unit.now) }
    requires well_formed { AreWellFormedStms (is_some unit.now.helper) (view_stms list.now) }
    ensures prints { O.prints out.old out.new (render (stms_items (spellings unit.now) depth (view_stms list.now))) }
{
    for item in list {
        line(out, depth);
        statement(out, item, depth, unit);
    }
}

// Prints statements in braces, the last of which stands on a line at this level.
#[cycle(statement)]
fn braces<O: Out>(out: &mut O, inner: &[Stm], depth: u32, unit: &Unit)
    requires named { IsNamedUnit (view_unit unit.now) }
    requires well_formed { AreWellFormedStms (is_some unit.now.helper) (view_stms inner.now) }
    ensures prints { O.prints out.old out.new (render (braced depth (stms_items (spellings unit.now) (deeper depth) (view_stms inner.now)))) }
{
    out.put(b"{");
    statements(out, inner, deeper(depth), unit);
    line(out, depth);
    out.put(b"}");
}

// Prints the `else` of an `if`, unless its list is empty.
#[cycle(statement)]
fn otherwise<O: Out>(out: &mut O, inner: &[Stm], depth: u32, unit: &Unit)
    requires named { IsNamedUnit (view_unit unit.now) }
    requires well_formed { AreWellFormedStms (is_some unit.now.helper) (view_stms inner.now) }
    ensures prints { O.prints out.old out.new (render (else_items (is_empty (view_stms inner.now)) depth (stms_items (spellings unit.now) (deeper depth) (view_stms inner.now)))) }
{
    if is_empty(inner) {
        return;
    }
    out.put(b" else ");
    braces(out, inner, depth, unit);
}

// Prints groups of a switch: labels at this level, statements one level deeper.
#[cycle(statement)]
fn groups<O: Out>(out: &mut O, list: &[Group], depth: u32, unit: &Unit)
    requires named { IsNamedUnit (view_unit unit.now) }
    requires well_formed { AreWellFormedGroups (is_some unit.now.helper) (view_groups list.now) }
    ensures prints { O.prints out.old out.new (render (groups_items (spellings unit.now) depth (view_groups list.now))) }
{
    for one in list {
        group(out, one, depth, unit);
    }
}

// Prints a group of a switch: labels at this level, statements one level deeper.
#[cycle(statement)]
fn group<O: Out>(out: &mut O, group: &Group, depth: u32, unit: &Unit)
    requires named { IsNamedUnit (view_unit unit.now) }
    requires well_formed { AreWellFormedStms (is_some unit.now.helper) (view_stms group.now.body) }
    ensures prints { O.prints out.old out.new (render (flat_map (case_items depth) group.now.labels ++ stms_items (spellings unit.now) (deeper depth) (view_stms group.now.body))) }
{
    cases(out, group.labels.as_slice(), depth);
    statements(out, group.body.as_slice(), deeper(depth), unit);
}

// Prints catch clauses, each behind the brace before it.
#[cycle(statement)]
fn catches<O: Out>(out: &mut O, list: &[Catch], depth: u32, unit: &Unit)
    requires named { IsNamedUnit (view_unit unit.now) }
    requires well_formed { AreWellFormedCatches (is_some unit.now.helper) (view_catches list.now) }
    ensures prints { O.prints out.old out.new (render (catches_items (spellings unit.now) depth (view_catches list.now))) }
{
    for catch in list {
        caught(out, &catch.class, catch.variable, unit);
        braces(out, catch.body.as_slice(), depth, unit);
    }
}
