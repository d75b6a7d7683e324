//! Parts of statements without statements in them.

ghost use Rattle.std.specs.Prelude.{◌≡◌, ◌∷◌, ◌++◌, [], codes};
ghost use Rattle.std.specs.List.{flat_map};
ghost use Rattle.dj_syntax.specs.Items.{Space, render};
ghost use Rattle.dj_syntax.specs.Trees.{view_exp, view_stms, view_unit};
ghost use Rattle.dj_syntax.specs.UnitText.{case_items, deeper, exp_items, is_empty, label_name, parenthesised, rethrow_items, variable_name};
ghost use Rattle.dj_syntax.specs.WellFormed.{IsQualified, IsWellFormedExp};
ghost use Rattle.dj_print.specs.Spelled.{IsNamedUnit, spellings};

use crate::out::Out;
use crate::print::expression::{assigned, expression, in_parentheses, int};
use crate::print::names::{class_name, helper_name, own_name};
use crate::print::text::{label, line, variable};
use dj_names::ClassName;
use dj_syntax::{Exp, Stm, Unit, Var};

/// One level deeper; the twentieth is the deepest.
pub fn deeper(depth: u32) -> u32
    ensures deeper { result ≡ deeper depth }
{
    depth.saturating_add(1).min(20)
}

/// Whether a list has no statement.
pub fn is_empty(list: &[Stm]) -> bool
    ensures empty { result ≡ is_empty (view_stms list.now) }
{
    list.is_empty()
}

/// Prints a label before its statement.
pub fn labelled<O: Out>(out: &mut O, named: u32)
    ensures prints { O.prints out.old out.new (label_name named ++ codes ": ") }
{
    label(out, named);
    out.put(b": ");
}

/// Prints a keyword with its space, an expression in parentheses, and a space.
pub fn headed<O: Out>(out: &mut O, keyword: &[u8], value: &Exp, unit: &Unit)
    requires well_formed { IsWellFormedExp (view_exp value.now) }
    ensures prints { O.prints out.old out.new (keyword.now ++ render (parenthesised (exp_items (spellings unit.now) (view_exp value.now)) ++ Space ∷ [])) }
{
    out.put(keyword);
    in_parentheses(out, value, unit);
    out.put(b" ");
}

/// Prints a jump to a label, by its keyword with a space.
pub fn jump<O: Out>(out: &mut O, keyword: &[u8], named: u32)
    ensures prints { O.prints out.old out.new (keyword.now ++ (label_name named ++ codes ";")) }
{
    out.put(keyword);
    label(out, named);
    out.put(b";");
}

/// Prints a throw through the helper.
pub fn rethrow<O: Out>(out: &mut O, thrown: Var, unit: &Unit)
    requires named { IsNamedUnit (view_unit unit.now) }
    ensures prints { O.prints out.old out.new (render (rethrow_items (spellings unit.now) thrown)) }
{
    out.put(b"throw ");
    own_name(out, unit);
    out.put(b".<java.lang.RuntimeException>");
    helper_name(out, unit);
    out.put(b"(");
    variable(out, thrown);
    out.put(b");");
}

/// Prints labels of a switch, each on a line at this level.
pub fn cases<O: Out>(out: &mut O, labels: &[Option<i32>], depth: u32)
    ensures prints { O.prints out.old out.new (render (flat_map (case_items depth) labels.now)) }
{
    for label in labels {
        case(out, *label, depth);
    }
}

// Prints a label of a switch: a number, or None for `default`.
fn case<O: Out>(out: &mut O, label: Option<i32>, depth: u32)
    ensures prints { O.prints out.old out.new (render (case_items depth label)) }
{
    match label {
        None => {
            line(out, depth);
            out.put(b"default:");
        }
        Some(number) => {
            line(out, depth);
            out.put(b"case ");
            int(out, number);
            out.put(b":");
        }
    }
}

/// Prints the head of a catch clause, and a space.
pub fn caught<O: Out>(out: &mut O, class: &ClassName, named: Var, unit: &Unit)
    requires qualified { IsQualified class.now }
    ensures prints { O.prints out.old out.new (codes " catch (" ++ (render ((spellings unit.now).class_name class.now) ++ (32 ∷ variable_name named ++ codes ") "))) }
{
    out.put(b" catch (");
    class_name(out, class, unit);
    out.put(b" ");
    variable(out, named);
    out.put(b") ");
}

/// Prints what follows the body of a `do`.
pub fn do_test<O: Out>(out: &mut O, test: &Exp, unit: &Unit)
    requires well_formed { IsWellFormedExp (view_exp test.now) }
    ensures prints { O.prints out.old out.new (codes " while " ++ (render (parenthesised (exp_items (spellings unit.now) (view_exp test.now))) ++ codes ";")) }
{
    out.put(b" while ");
    in_parentheses(out, test, unit);
    out.put(b";");
}

/// Prints the head of a `for`, and a space.
pub fn for_head<O: Out>(out: &mut O, test: &Exp, stepped: Var, step: &Exp, unit: &Unit)
    requires test { IsWellFormedExp (view_exp test.now) }
    requires step { IsWellFormedExp (view_exp step.now) }
    ensures prints { O.prints out.old out.new (codes "for (; " ++ (render (exp_items (spellings unit.now) (view_exp test.now)) ++ (codes "; " ++ (variable_name stepped ++ (codes " = " ++ (render (exp_items (spellings unit.now) (view_exp step.now)) ++ codes ") ")))))) }
{
    out.put(b"for (; ");
    expression(out, test, unit);
    out.put(b"; ");
    assigned(out, stepped);
    expression(out, step, unit);
    out.put(b") ");
}
