//! Expressions.

ghost use Rattle.std.specs.Prelude.{◌≡◌};
ghost use Rattle.dj_names.specs.Identifiers.{IsIdentifier};
ghost use Rattle.dj_syntax.specs.Items.{render};
ghost use Rattle.dj_syntax.specs.Trees.{Element, Field, view_exp, view_exps};
ghost use Rattle.dj_syntax.specs.UnitText.{arguments_items, exp_items, is_atom, is_negated, is_receiver, operand, parenthesised, shape, sizes_items};
ghost use Rattle.dj_syntax.specs.WellFormed.{AreWellFormedExps, IsWellFormedExp};
ghost use Rattle.dj_print.specs.Spelled.{spellings};

mod parts;

use crate::out::Out;
use crate::print::expression::parts::{
    above, cast_type, class_literal, comma, long, member, new_class, new_type, operator, pairs,
    tested_type, truth,
};
pub use crate::print::expression::parts::{assigned, int, member_of_class};
use crate::print::text::{quoted, variable};
use dj_names::Units;
use dj_syntax::{Exp, Shape, Unit};

/// Prints an expression.
#[cycle(expression)]
pub fn expression<O: Out>(out: &mut O, value: &Exp, unit: &Unit)
    requires well_formed { IsWellFormedExp (view_exp value.now) }
    ensures prints { O.prints out.old out.new (render (exp_items (spellings unit.now) (view_exp value.now))) }
{
    match value {
        Exp::Int(value) => int(out, *value),
        Exp::Long(value) => long(out, *value),
        Exp::Text(units) => quoted(out, units.as_slice()),
        Exp::Bool(value) => truth(out, *value),
        Exp::Null => out.put(b"null"),
        Exp::This => out.put(b"this"),
        Exp::Var(named) => variable(out, *named),
        Exp::ClassOf(kind) => class_literal(out, kind, unit),
        Exp::Field(object, name) => field(out, object.get(), name, unit),
        Exp::Static(class, name) => member_of_class(out, class, name, unit),
        Exp::Element(array, index) => {
            operand(out, array.get(), unit);
            out.put(b"[");
            expression(out, index.get(), unit);
            out.put(b"]");
        }
        Exp::Call(object, name, list) => {
            receiver(out, object.get(), unit);
            member(out, name);
            arguments(out, list.get().as_slice(), unit);
        }
        Exp::StaticCall(class, name, list) => {
            member_of_class(out, class, name, unit);
            arguments(out, list.get().as_slice(), unit);
        }
        Exp::SuperCall(interface, name, list) => {
            above(out, interface, unit);
            member(out, name);
            arguments(out, list.get().as_slice(), unit);
        }
        Exp::New(class, list) => {
            new_class(out, class, unit);
            arguments(out, list.get().as_slice(), unit);
        }
        Exp::NewArray(kind, list, more) => {
            new_type(out, kind, unit);
            sizes(out, list.get().as_slice(), unit);
            pairs(out, *more);
        }
        Exp::Cast(kind, cast) => {
            cast_type(out, kind, unit);
            operand(out, cast.get(), unit);
        }
        Exp::InstanceOf(value, kind) => {
            operand(out, value.get(), unit);
            tested_type(out, kind, unit);
        }
        Exp::Negative(value) => {
            out.put(b"-");
            negated(out, value.get(), unit);
        }
        Exp::Not(value) => {
            out.put(b"!");
            operand(out, value.get(), unit);
        }
        Exp::Binary(op, left, right) => {
            operand(out, left.get(), unit);
            operator(out, *op);
            operand(out, right.get(), unit);
        }
        Exp::Choice(test, first, second) => {
            operand(out, test.get(), unit);
            out.put(b" ? ");
            operand(out, first.get(), unit);
            out.put(b" : ");
            operand(out, second.get(), unit);
        }
        Exp::Assign(variable, value) => {
            assigned(out, *variable);
            expression(out, value.get(), unit);
        }
    }
}

/// Prints a field of an object.
#[cycle(expression)]
pub fn field<O: Out>(out: &mut O, object: &Exp, name: &Units, unit: &Unit)
    requires object { IsWellFormedExp (view_exp object.now) }
    requires identifier { IsIdentifier name.now }
    ensures prints { O.prints out.old out.new (render (exp_items (spellings unit.now) (Field (view_exp object.now) name.now))) }
{
    receiver(out, object, unit);
    member(out, name);
}

/// Prints an element of an array.
pub fn element<O: Out>(out: &mut O, array: &Exp, index: &Exp, unit: &Unit)
    requires array { IsWellFormedExp (view_exp array.now) }
    requires index { IsWellFormedExp (view_exp index.now) }
    ensures prints { O.prints out.old out.new (render (exp_items (spellings unit.now) (Element (view_exp array.now) (view_exp index.now)))) }
{
    operand(out, array, unit);
    out.put(b"[");
    expression(out, index, unit);
    out.put(b"]");
}

// Prints an expression as an operand.
#[cycle(expression)]
fn operand<O: Out>(out: &mut O, value: &Exp, unit: &Unit)
    requires well_formed { IsWellFormedExp (view_exp value.now) }
    ensures prints { O.prints out.old out.new (render (operand (is_atom (shape (view_exp value.now))) (exp_items (spellings unit.now) (view_exp value.now)))) }
{
    part(out, value, Shape::of(value).is_atom(), unit);
}

// Prints an expression in front of a dot.
#[cycle(expression)]
fn receiver<O: Out>(out: &mut O, value: &Exp, unit: &Unit)
    requires well_formed { IsWellFormedExp (view_exp value.now) }
    ensures prints { O.prints out.old out.new (render (operand (is_receiver (shape (view_exp value.now))) (exp_items (spellings unit.now) (view_exp value.now)))) }
{
    part(out, value, Shape::of(value).is_receiver(), unit);
}

// Prints an expression behind a minus sign.
#[cycle(expression)]
fn negated<O: Out>(out: &mut O, value: &Exp, unit: &Unit)
    requires well_formed { IsWellFormedExp (view_exp value.now) }
    ensures prints { O.prints out.old out.new (render (operand (is_negated (shape (view_exp value.now))) (exp_items (spellings unit.now) (view_exp value.now)))) }
{
    part(out, value, Shape::of(value).is_negated(), unit);
}

// Prints an expression, in parentheses unless it stands bare.
#[cycle(expression)]
fn part<O: Out>(out: &mut O, value: &Exp, bare: bool, unit: &Unit)
    requires well_formed { IsWellFormedExp (view_exp value.now) }
    ensures prints { O.prints out.old out.new (render (operand bare (exp_items (spellings unit.now) (view_exp value.now)))) }
{
    if bare {
        expression(out, value, unit);
    } else {
        in_parentheses(out, value, unit);
    }
}

/// Prints an expression in parentheses.
#[cycle(expression)]
pub fn in_parentheses<O: Out>(out: &mut O, value: &Exp, unit: &Unit)
    requires well_formed { IsWellFormedExp (view_exp value.now) }
    ensures prints { O.prints out.old out.new (render (parenthesised (exp_items (spellings unit.now) (view_exp value.now)))) }
{
    out.put(b"(");
    expression(out, value, unit);
    out.put(b")");
}

/// Prints arguments in parentheses.
#[cycle(expression)]
pub fn arguments<O: Out>(out: &mut O, list: &[Exp], unit: &Unit)
    requires well_formed { AreWellFormedExps (view_exps list.now) }
    ensures prints { O.prints out.old out.new (render (parenthesised (arguments_items (spellings unit.now) (view_exps list.now)))) }
{
    out.put(b"(");
    argument_list(out, list, unit);
    out.put(b")");
}

// Prints arguments, with commas between them.
#[cycle(expression)]
fn argument_list<O: Out>(out: &mut O, list: &[Exp], unit: &Unit)
    requires well_formed { AreWellFormedExps (view_exps list.now) }
    ensures prints { O.prints out.old out.new (render (arguments_items (spellings unit.now) (view_exps list.now))) }
{
    for (index, exp) in list.iter().enumerate() {
        comma(out, index);
        expression(out, exp, unit);
    }
}

// Prints the sizes of a new array, each in brackets.
#[cycle(expression)]
fn sizes<O: Out>(out: &mut O, list: &[Exp], unit: &Unit)
    requires well_formed { AreWellFormedExps (view_exps list.now) }
    ensures prints { O.prints out.old out.new (render (sizes_items (spellings unit.now) (view_exps list.now))) }
{
    for exp in list {
        out.put(b"[");
        expression(out, exp, unit);
        out.put(b"]");
    }
}
