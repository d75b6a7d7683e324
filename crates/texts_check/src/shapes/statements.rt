//! Statements and blocks.

mod simple;

use crate::shapes::expressions::{put_exp, put_paren};
use crate::shapes::names::{ClassShape, name_of, name_of_label, put_variable};
use crate::shapes::out::Out;
use crate::shapes::statements::simple::{put_set, put_simple};
use dj_syntax::{Catch, Exp, Group, Stm, Unit};

/// Puts a statement.
#[cycle(statement)]
fn put_stm(out: &mut Out, stm: &Stm, unit: &Unit) {
    match stm {
        Stm::Block(list) => return put_block(out, list.as_slice(), unit),
        Stm::Labelled(label, inner) => {
            out.node_of("label", &name_of_label(*label));
            put_stm(out, inner.get(), unit);
        }
        Stm::If(test, first, second) => {
            open_headed(out, "if", test);
            put_block(out, first.as_slice(), unit);
            put_else(out, second.as_slice(), unit);
        }
        Stm::While(test, body) => {
            open_headed(out, "while", test);
            put_block(out, body.as_slice(), unit);
        }
        Stm::Synchronized(monitor, body) => {
            open_headed(out, "synchronized", monitor);
            put_block(out, body.as_slice(), unit);
        }
        Stm::Switch(value, groups) => {
            open_headed(out, "switch", value);
            put_groups(out, groups.as_slice(), unit);
        }
        Stm::Do(body, test) => {
            out.node("do");
            put_block(out, body.as_slice(), unit);
            put_paren(out, test);
        }
        _ => return put_flow(out, stm, unit),
    }
    out.close();
}

/// Puts a `for`, a `try`, or a statement without statements in it.
#[cycle(statement)]
fn put_flow(out: &mut Out, stm: &Stm, unit: &Unit) {
    match stm {
        Stm::For(test, variable, step, body) => {
            out.node("for");
            out.empty();
            put_exp(out, test);
            out.open();
            put_set(out, *variable, step);
            out.close();
            put_block(out, body.as_slice(), unit);
        }
        Stm::Try(body, catches) => {
            out.node("try");
            out.empty();
            put_block(out, body.as_slice(), unit);
            put_catches(out, catches.as_slice(), unit);
            out.none();
        }
        Stm::Finally(body, last) => {
            out.node("try");
            out.empty();
            put_block(out, body.as_slice(), unit);
            out.empty();
            put_block(out, last.as_slice(), unit);
        }
        _ => return put_simple(out, stm, unit),
    }
    out.close();
}

/// Opens a statement, and puts the expression that stands in parentheses behind its first word.
fn open_headed(out: &mut Out, word: &str, head: &Exp) {
    out.node(word);
    put_paren(out, head);
}

/// Puts a block of statements.
#[cycle(statement)]
pub fn put_block(out: &mut Out, list: &[Stm], unit: &Unit) {
    out.node("block");
    put_stms(out, list, unit);
    out.close();
}

/// Puts statements.
#[cycle(statement)]
pub fn put_stms(out: &mut Out, list: &[Stm], unit: &Unit) {
    for stm in list {
        put_stm(out, stm, unit);
    }
}

/// Puts what stands behind `else`, where there are statements.
#[cycle(statement)]
fn put_else(out: &mut Out, list: &[Stm], unit: &Unit) {
    if list.is_empty() {
        out.none();
    } else {
        put_block(out, list, unit);
    }
}

/// Puts a case for each label of a switch; the last one of a group has its statements.
#[cycle(statement)]
fn put_groups(out: &mut Out, groups: &[Group], unit: &Unit) {
    for group in groups {
        put_labels(out, group.labels.as_slice());
        put_stms(out, group.body.as_slice(), unit);
        out.close();
    }
}

/// Puts the labels of a group, and leaves the last one open.
fn put_labels(out: &mut Out, labels: &[Option<i32>]) {
    for (index, label) in labels.iter().enumerate() {
        if index > 0 {
            out.close();
        }
        out.node("case");
        match label {
            None => out.word("default"),
            Some(number) => out.leaf("int", number),
        }
    }
}

/// Puts the clauses of a try.
#[cycle(statement)]
fn put_catches(out: &mut Out, catches: &[Catch], unit: &Unit) {
    out.open();
    for catch in catches {
        open_catch(out, catch);
        put_block(out, catch.body.as_slice(), unit);
        out.close();
    }
    out.close();
}

/// Opens a catch clause, and puts its variable.
fn open_catch(out: &mut Out, catch: &Catch) {
    out.node("catch");
    put_variable(out, &ClassShape(&catch.class), name_of(catch.variable));
}
