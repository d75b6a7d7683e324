//! Statements that have no statements in them: declarations, stores, calls, returns and throws.

ghost use Rattle.std.specs.Prelude.{◌≡◌, codes, if◌then◌else◌, IfSome, option_map};
ghost use Rattle.dj_names.specs.Identifiers.{IsIdentifier};
ghost use Rattle.dj_names.specs.Sayable.{IsSayable};
ghost use Rattle.dj_names.specs.Types.{view_type};
ghost use Rattle.dj_syntax.specs.Items.{render};
ghost use Rattle.dj_syntax.specs.Trees.{Construct, Declare, Return, Run, Set, SetElement, SetField, SetStatic, Throw, view_exp, view_exps};
ghost use Rattle.dj_syntax.specs.UnitText.{answer_items, stm_items, stored_items, value_items};
ghost use Rattle.dj_syntax.specs.WellFormed.{AreWellFormedExps, IsNamed, IsWellFormedExp};
ghost use Rattle.dj_print.specs.Spelled.{spellings};

use crate::out::Out;
use crate::print::expression::{arguments, element, expression, field, member_of_class};
use crate::print::text::variable;
use crate::print::types::type_name;
use dj_names::{ClassName, JType, Units};
use dj_syntax::{Exp, Unit, Var};

/// Prints what is stored, and the end of the statement.
fn stored<O: Out>(out: &mut O, value: &Exp, unit: &Unit)
    requires well_formed { IsWellFormedExp (view_exp value.now) }
    ensures prints { O.prints out.old out.new (render (stored_items (spellings unit.now) (view_exp value.now))) }
{
    out.put(b" = ");
    expression(out, value, unit);
    out.put(b";");
}

/// Prints the first value of a variable or a field, where it has one, and the end of its declaration.
pub fn first_value<O: Out>(out: &mut O, value: &Option<Exp>, unit: &Unit)
    requires well_formed { IfSome (option_map view_exp value.now) IsWellFormedExp }
    ensures prints { O.prints out.old out.new (render (value_items (spellings unit.now) (option_map view_exp value.now))) }
{
    match value {
        None => out.put(b";"),
        Some(value) => stored(out, value, unit),
    }
}

/// Prints a declaration.
pub fn declare<O: Out>(out: &mut O, named: Var, kind: &JType, value: &Option<Exp>, unit: &Unit)
    requires kind { IsNamed (view_type kind.now) }
    requires value { IfSome (option_map view_exp value.now) IsWellFormedExp }
    ensures prints { O.prints out.old out.new (render (stm_items (spellings unit.now) 0 (Declare named (view_type kind.now) (option_map view_exp value.now)))) }
{
    type_name(out, kind, unit);
    out.put(b" ");
    variable(out, named);
    first_value(out, value, unit);
}

/// Prints a store to a variable.
pub fn set<O: Out>(out: &mut O, named: Var, value: &Exp, unit: &Unit)
    requires well_formed { IsWellFormedExp (view_exp value.now) }
    ensures prints { O.prints out.old out.new (render (stm_items (spellings unit.now) 0 (Set named (view_exp value.now)))) }
{
    variable(out, named);
    stored(out, value, unit);
}

/// Prints a store to a field, spelled as the field.
pub fn set_field<O: Out>(out: &mut O, object: &Exp, name: &Units, value: &Exp, unit: &Unit)
    requires object { IsWellFormedExp (view_exp object.now) }
    requires identifier { IsIdentifier name.now }
    requires value { IsWellFormedExp (view_exp value.now) }
    ensures prints { O.prints out.old out.new (render (stm_items (spellings unit.now) 0 (SetField (view_exp object.now) name.now (view_exp value.now)))) }
{
    field(out, object, name, unit);
    stored(out, value, unit);
}

/// Prints a store to a static field.
pub fn set_static<O: Out>(out: &mut O, class: &ClassName, name: &Units, value: &Exp, unit: &Unit)
    requires sayable { IsSayable class.now }
    requires identifier { IsIdentifier name.now }
    requires value { IsWellFormedExp (view_exp value.now) }
    ensures prints { O.prints out.old out.new (render (stm_items (spellings unit.now) 0 (SetStatic class.now name.now (view_exp value.now)))) }
{
    member_of_class(out, class, name, unit);
    stored(out, value, unit);
}

/// Prints a store to an element, spelled as the element.
pub fn set_element<O: Out>(out: &mut O, array: &Exp, index: &Exp, value: &Exp, unit: &Unit)
    requires array { IsWellFormedExp (view_exp array.now) }
    requires index { IsWellFormedExp (view_exp index.now) }
    requires value { IsWellFormedExp (view_exp value.now) }
    ensures prints { O.prints out.old out.new (render (stm_items (spellings unit.now) 0 (SetElement (view_exp array.now) (view_exp index.now) (view_exp value.now)))) }
{
    element(out, array, index, unit);
    stored(out, value, unit);
}

/// Prints a call as a statement.
pub fn run<O: Out>(out: &mut O, call: &Exp, unit: &Unit)
    requires well_formed { IsWellFormedExp (view_exp call.now) }
    ensures prints { O.prints out.old out.new (render (stm_items (spellings unit.now) 0 (Run (view_exp call.now)))) }
{
    expression(out, call, unit);
    out.put(b";");
}

/// Prints a return, with its value where it has one.
pub fn return_value<O: Out>(out: &mut O, value: &Option<Exp>, unit: &Unit)
    requires well_formed { IfSome (option_map view_exp value.now) IsWellFormedExp }
    ensures prints { O.prints out.old out.new (render (stm_items (spellings unit.now) 0 (Return (option_map view_exp value.now)))) }
{
    out.put(b"return");
    answer(out, value, unit);
}

// Prints what a return answers, where it answers something, and its end.
fn answer<O: Out>(out: &mut O, value: &Option<Exp>, unit: &Unit)
    requires well_formed { IfSome (option_map view_exp value.now) IsWellFormedExp }
    ensures prints { O.prints out.old out.new (render (answer_items (spellings unit.now) (option_map view_exp value.now))) }
{
    match value {
        None => out.put(b";"),
        Some(value) => {
            out.put(b" ");
            run(out, value, unit);
        }
    }
}

/// Prints a throw.
pub fn throw<O: Out>(out: &mut O, value: &Exp, unit: &Unit)
    requires well_formed { IsWellFormedExp (view_exp value.now) }
    ensures prints { O.prints out.old out.new (render (stm_items (spellings unit.now) 0 (Throw (view_exp value.now)))) }
{
    out.put(b"throw ");
    expression(out, value, unit);
    out.put(b";");
}

/// Prints a call of a constructor of this class, or else of the superclass.
pub fn construct<O: Out>(out: &mut O, own: bool, list: &[Exp], unit: &Unit)
    requires well_formed { AreWellFormedExps (view_exps list.now) }
    ensures prints { O.prints out.old out.new (render (stm_items (spellings unit.now) 0 (Construct own (view_exps list.now)))) }
{
    out.put(constructor_word(own));
    arguments(out, list, unit);
    out.put(b";");
}

// The keyword that stands for a constructor of this class, or else of the superclass.
fn constructor_word(own: bool) -> &'static [u8]
    ensures word { result.now ≡ (if own then codes "this" else codes "super") }
{
    if own { b"this" } else { b"super" }
}
