//! The names of classes, as a unit writes them.

ghost use Rattle.std.specs.Prelude.{◌≡◌};
ghost use Rattle.std.specs.List.{AllByRecursion};
ghost use Rattle.dj_names.specs.Sayable.{IsSayable};
ghost use Rattle.dj_syntax.specs.Items.{render};
ghost use Rattle.dj_syntax.specs.Trees.{view_unit};
ghost use Rattle.dj_syntax.specs.UnitText.{classes_items, helper_name};
ghost use Rattle.dj_syntax.specs.WellFormed.{IsQualified};
ghost use Rattle.dj_print.specs.Spelled.{IsNamedUnit, more_classes, spellings};

use crate::out::Out;
use crate::print::text::{ascii, full_name, simple_class};
use dj_names::ClassName;
use dj_syntax::Unit;

/// Prints the name of a class.
pub fn class_name<O: Out>(out: &mut O, name: &ClassName, unit: &Unit)
    requires qualified { IsQualified name.now }
    ensures prints { O.prints out.old out.new (render ((spellings unit.now).class_name name.now)) }
{
    full_name(out, name.as_slice());
}

/// Prints the name of a class that stands before a static member.
pub fn said_name<O: Out>(out: &mut O, name: &ClassName, unit: &Unit)
    requires sayable { IsSayable name.now }
    ensures prints { O.prints out.old out.new (render ((spellings unit.now).class_name name.now)) }
{
    class_name(out, name, unit);
}

/// Prints the name of the unit's own class.
pub fn own_name<O: Out>(out: &mut O, unit: &Unit)
    requires named { IsNamedUnit (view_unit unit.now) }
    ensures prints { O.prints out.old out.new (render ((spellings unit.now).class_name (spellings unit.now).class)) }
{
    match &unit.package {
        None => simple_class(out, &unit.name),
        Some(package) => {
            full_name(out, package.as_slice());
            out.put(b".");
            simple_class(out, &unit.name);
        }
    }
}

/// Prints the name of the unit's helper, where it has one.
pub fn helper_name<O: Out>(out: &mut O, unit: &Unit)
    requires named { IsNamedUnit (view_unit unit.now) }
    ensures prints { O.prints out.old out.new (helper_name unit.now.helper) }
{
    match &unit.helper {
        None => {}
        Some(name) => ascii(out, name.as_slice()),
    }
}

/// Prints classes behind a keyword, with commas between them, where there are any.
pub fn class_list<O: Out>(out: &mut O, keyword: &[u8], classes: &[ClassName], unit: &Unit)
    requires qualified { AllByRecursion IsQualified classes.now }
    ensures prints { O.prints out.old out.new (render (classes_items (spellings unit.now) keyword.now classes.now)) }
{
    match classes {
        [] => {}
        [first, rest @ ..] => {
            out.put(b" ");
            out.put(keyword);
            out.put(b" ");
            class_name(out, first, unit);
            more_classes(out, rest, unit);
        }
    }
}

// Prints classes, each with the comma before it.
fn more_classes<O: Out>(out: &mut O, classes: &[ClassName], unit: &Unit)
    requires qualified { AllByRecursion IsQualified classes.now }
    ensures prints { O.prints out.old out.new (render (more_classes (spellings unit.now) classes.now)) }
{
    for class in classes {
        out.put(b", ");
        class_name(out, class, unit);
    }
}
