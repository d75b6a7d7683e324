//! Expressions, with the parentheses in which their text puts the parts.

use crate::shapes::names::{ArrayShape, ClassShape, TextShape, TypeShape, name_of};
use crate::shapes::out::Out;
use dj_names::{ClassName, Units};
use dj_syntax::{Exp, Op, Shape};

/// Puts an expression.
#[cycle(expression)]
pub fn put_exp(out: &mut Out, exp: &Exp) {
    match exp {
        Exp::Int(number) => out.leaf("int", number),
        Exp::Long(number) => out.leaf("long", number),
        Exp::Text(units) => out.leaf("text", &TextShape(units)),
        Exp::Bool(value) => out.word(if *value { "true" } else { "false" }),
        Exp::Null => out.word("null"),
        Exp::This => out.word("this"),
        Exp::Var(variable) => out.part(&name_of(*variable)),
        Exp::ClassOf(kind) => out.dotted(&TypeShape(kind), &"class"),
        Exp::Field(object, name) => put_member(out, object.get(), name),
        Exp::Static(class, name) => out.dotted(&ClassShape(class), name),
        Exp::Element(array, index) => {
            out.node("index");
            put_operand(out, array.get());
            put_exp(out, index.get());
            out.close();
        }
        Exp::Call(object, name, list) => {
            open_call(out);
            put_member(out, object.get(), name);
            put_arguments(out, list.get().as_slice());
        }
        Exp::StaticCall(class, name, list) => {
            open_call(out);
            out.dotted(&ClassShape(class), name);
            put_arguments(out, list.get().as_slice());
        }
        Exp::SuperCall(above, name, list) => {
            open_call(out);
            put_above(out, above, name);
            put_arguments(out, list.get().as_slice());
        }
        _ => put_operation(out, exp),
    }
}

/// Puts a new object or array, an operation or an assignment.
#[cycle(expression)]
fn put_operation(out: &mut Out, exp: &Exp) {
    match exp {
        Exp::New(class, list) => {
            out.node_of("new", &ClassShape(class));
            return put_arguments(out, list.get().as_slice());
        }
        Exp::NewArray(kind, sizes, more) => {
            out.node_of("newarray", &ArrayShape(kind, *more));
            return put_arguments(out, sizes.get().as_slice());
        }
        Exp::Cast(kind, operand) => {
            out.node_of("cast", &TypeShape(kind));
            put_operand(out, operand.get());
        }
        Exp::InstanceOf(operand, kind) => {
            out.node("instanceof");
            put_operand(out, operand.get());
            out.part(&TypeShape(kind));
        }
        Exp::Negative(operand) => {
            out.node("neg");
            put_part(out, operand.get(), Shape::of(operand.get()).is_negated());
        }
        Exp::Not(operand) => {
            out.node("!");
            put_operand(out, operand.get());
        }
        Exp::Binary(op, left, right) => {
            out.node(operator(*op));
            put_operand(out, left.get());
            put_operand(out, right.get());
        }
        Exp::Choice(test, first, second) => {
            out.node("?");
            put_operand(out, test.get());
            put_operand(out, first.get());
            put_operand(out, second.get());
        }
        Exp::Assign(variable, value) => {
            out.node_of("=", &name_of(*variable));
            put_exp(out, value.get());
        }
        _ => return,
    }
    out.close();
}

/// Puts an expression, in parentheses unless it stands bare.
#[cycle(expression)]
fn put_part(out: &mut Out, exp: &Exp, bare: bool) {
    if bare {
        put_exp(out, exp);
    } else {
        put_paren(out, exp);
    }
}

/// Puts an expression as an operand.
#[cycle(expression)]
fn put_operand(out: &mut Out, exp: &Exp) {
    put_part(out, exp, Shape::of(exp).is_atom());
}

/// Puts an expression in parentheses.
#[cycle(expression)]
pub fn put_paren(out: &mut Out, exp: &Exp) {
    out.node("paren");
    put_exp(out, exp);
    out.close();
}

/// Puts a name behind an object.
#[cycle(expression)]
pub fn put_member(out: &mut Out, object: &Exp, name: &Units) {
    out.node(".");
    put_part(out, object, Shape::of(object).is_receiver());
    out.part(name);
    out.close();
}

/// Puts an element of an array.
pub fn put_element(out: &mut Out, array: &Exp, index: &Exp) {
    out.node("index");
    put_operand(out, array);
    put_exp(out, index);
    out.close();
}

/// Puts the arguments or sizes with which a node ends.
#[cycle(expression)]
pub fn put_arguments(out: &mut Out, list: &[Exp]) {
    out.open();
    for exp in list {
        put_exp(out, exp);
    }
    out.close();
    out.close();
}

/// Puts an expression where there is one.
pub fn put_option(out: &mut Out, value: &Option<Exp>) {
    match value {
        None => out.none(),
        Some(value) => put_exp(out, value),
    }
}

/// Opens a call without type arguments.
pub fn open_call(out: &mut Out) {
    out.node("call");
    out.empty();
}

/// Puts a name behind `super`, of an interface where one is named.
fn put_above(out: &mut Out, above: &Option<ClassName>, name: &Units) {
    out.node(".");
    match above {
        None => out.word("super"),
        Some(class) => out.dotted(&ClassShape(class), &"super"),
    }
    out.part(name);
    out.close();
}

/// The spelling of an operator.
fn operator(op: Op) -> &'static str {
    match op {
        Op::Mul => "*",
        Op::Div => "/",
        Op::Rem => "%",
        Op::Add => "+",
        Op::Sub => "-",
        Op::Shl => "<<",
        Op::Shr => ">>",
        Op::Ushr => ">>>",
        Op::Lt => "<",
        Op::Le => "<=",
        Op::Gt => ">",
        Op::Ge => ">=",
        Op::Eq => "==",
        Op::Ne => "!=",
        Op::And => "&",
        Op::Xor => "^",
        Op::Or => "|",
        Op::AndAlso => "&&",
        Op::OrElse => "||",
    }
}
