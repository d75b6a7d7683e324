//! Parts of expressions without expressions in them.

ghost use Rattle.std.specs.Prelude.{◌≡◌, ◌∷◌, ◌++◌, [], codes, IfSome};
ghost use Rattle.dj_names.specs.Identifiers.{IsIdentifier};
ghost use Rattle.dj_names.specs.Sayable.{IsSayable};
ghost use Rattle.dj_names.specs.Types.{view_type};
ghost use Rattle.dj_syntax.specs.Items.{Space, render};
ghost use Rattle.dj_syntax.specs.UnitText.{int_items, long_items, operator_text, pairs_items, parenthesised, sign, super_items, truth_text, type_items, variable_name};
ghost use Rattle.dj_syntax.specs.WellFormed.{IsNamed, IsQualified};
ghost use Rattle.dj_print.specs.Spelled.{comma_text, spellings};

use crate::out::Out;
use crate::print::names::{class_name, said_name};
use crate::print::text::{integer, simple_name, variable};
use crate::print::types::type_name;
use dj_names::{ClassName, JType, Units};
use dj_syntax::{Op, Unit, Var};

/// Prints an int literal.
pub fn int<O: Out>(out: &mut O, value: i32)
    ensures prints { O.prints out.old out.new (render (int_items value)) }
{
    integer(out, i64::from(value));
}

/// Prints a long literal.
pub fn long<O: Out>(out: &mut O, value: i64)
    ensures prints { O.prints out.old out.new (render (long_items value)) }
{
    integer(out, value);
    out.put(b"L");
}

/// Prints `true` or `false`.
pub fn truth<O: Out>(out: &mut O, value: bool)
    ensures prints { O.prints out.old out.new (truth_text value) }
{
    out.put(if value { b"true" } else { b"false" });
}

/// Prints a class literal.
pub fn class_literal<O: Out>(out: &mut O, kind: &JType, unit: &Unit)
    requires named { IsNamed (view_type kind.now) }
    ensures prints { O.prints out.old out.new (render (type_items (spellings unit.now) (view_type kind.now)) ++ codes ".class") }
{
    type_name(out, kind, unit);
    out.put(b".class");
}

/// Prints a dot and the name of a member.
pub fn member<O: Out>(out: &mut O, name: &Units)
    requires identifier { IsIdentifier name.now }
    ensures prints { O.prints out.old out.new (46 ∷ name.now) }
{
    out.put(b".");
    simple_name(out, name);
}

/// Prints a static member of a class.
pub fn member_of_class<O: Out>(out: &mut O, class: &ClassName, name: &Units, unit: &Unit)
    requires sayable { IsSayable class.now }
    requires identifier { IsIdentifier name.now }
    ensures prints { O.prints out.old out.new (render ((spellings unit.now).class_name class.now) ++ 46 ∷ name.now) }
{
    said_name(out, class, unit);
    member(out, name);
}

/// Prints `super`, of an interface where one is named.
pub fn above<O: Out>(out: &mut O, interface: &Option<ClassName>, unit: &Unit)
    requires qualified { IfSome interface.now IsQualified }
    ensures prints { O.prints out.old out.new (render (super_items (spellings unit.now) interface.now)) }
{
    match interface {
        None => out.put(b"super"),
        Some(interface) => {
            class_name(out, interface, unit);
            out.put(b".super");
        }
    }
}

/// Prints `new` and a class.
pub fn new_class<O: Out>(out: &mut O, class: &ClassName, unit: &Unit)
    requires qualified { IsQualified class.now }
    ensures prints { O.prints out.old out.new (codes "new " ++ render ((spellings unit.now).class_name class.now)) }
{
    out.put(b"new ");
    class_name(out, class, unit);
}

/// Prints `new` and a type.
pub fn new_type<O: Out>(out: &mut O, kind: &JType, unit: &Unit)
    requires named { IsNamed (view_type kind.now) }
    ensures prints { O.prints out.old out.new (codes "new " ++ render (type_items (spellings unit.now) (view_type kind.now))) }
{
    out.put(b"new ");
    type_name(out, kind, unit);
}

/// Prints pairs of brackets with nothing between them.
pub fn pairs<O: Out>(out: &mut O, count: u32)
    ensures prints { O.prints out.old out.new (render (pairs_items count)) }
{
    for _ in 0..count {
        out.put(b"[]");
    }
}

/// Prints a type in parentheses, and a space.
pub fn cast_type<O: Out>(out: &mut O, kind: &JType, unit: &Unit)
    requires named { IsNamed (view_type kind.now) }
    ensures prints { O.prints out.old out.new (render (parenthesised (type_items (spellings unit.now) (view_type kind.now)) ++ Space ∷ [])) }
{
    out.put(b"(");
    type_name(out, kind, unit);
    out.put(b") ");
}

/// Prints what follows the operand of `instanceof`.
pub fn tested_type<O: Out>(out: &mut O, kind: &JType, unit: &Unit)
    requires named { IsNamed (view_type kind.now) }
    ensures prints { O.prints out.old out.new (codes " instanceof " ++ render (type_items (spellings unit.now) (view_type kind.now))) }
{
    out.put(b" instanceof ");
    type_name(out, kind, unit);
}

/// Prints a variable and the sign behind which its value stands.
pub fn assigned<O: Out>(out: &mut O, named: Var)
    ensures prints { O.prints out.old out.new (variable_name named ++ codes " = ") }
{
    variable(out, named);
    out.put(b" = ");
}

/// Prints an operator between spaces.
pub fn operator<O: Out>(out: &mut O, op: Op)
    ensures prints { O.prints out.old out.new (32 ∷ operator_text op ++ 32 ∷ []) }
{
    out.put(b" ");
    out.put(spelling(op));
    out.put(b" ");
}

/// Prints the comma before each argument but the first.
pub fn comma<O: Out>(out: &mut O, index: usize)
    ensures prints { O.prints out.old out.new (comma_text index) }
{
    if index > 0 {
        out.put(b", ");
    }
}

// The spelling of an operator.
fn spelling(op: Op) -> &'static [u8]
    ensures spelled { result.now ≡ operator_text op }
{
    match op {
        Op::Mul => b"*",
        Op::Div => b"/",
        Op::Rem => b"%",
        Op::Add => b"+",
        Op::Sub => b"-",
        Op::Shl => b"<<",
        Op::Shr => b">>",
        Op::Ushr => b">>>",
        Op::Lt => b"<",
        Op::Le => b"<=",
        Op::Gt => b">",
        Op::Ge => b">=",
        Op::Eq => b"==",
        Op::Ne => b"!=",
        Op::And => b"&",
        Op::Xor => b"^",
        Op::Or => b"|",
        Op::AndAlso => b"&&",
        Op::OrElse => b"||",
    }
}
