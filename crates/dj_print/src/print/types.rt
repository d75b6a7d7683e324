//! Types.

ghost use Rattle.std.specs.Prelude.{◌≡◌};
ghost use Rattle.dj_names.specs.Types.{view_type};
ghost use Rattle.dj_syntax.specs.Items.{render};
ghost use Rattle.dj_syntax.specs.UnitText.{type_items};
ghost use Rattle.dj_syntax.specs.WellFormed.{IsNamed};
ghost use Rattle.dj_print.specs.Spelled.{spellings};

use crate::out::Out;
use crate::print::names::class_name;
use dj_names::JType;
use dj_syntax::Unit;

/// Prints a type.
pub fn type_name<O: Out>(out: &mut O, kind: &JType, unit: &Unit)
    requires named { IsNamed (view_type kind.now) }
    ensures prints { O.prints out.old out.new (render (type_items (spellings unit.now) (view_type kind.now))) }
{
    match kind {
        JType::Boolean => out.put(b"boolean"),
        JType::Byte => out.put(b"byte"),
        JType::Char => out.put(b"char"),
        JType::Short => out.put(b"short"),
        JType::Int => out.put(b"int"),
        JType::Long => out.put(b"long"),
        JType::Float => out.put(b"float"),
        JType::Double => out.put(b"double"),
        JType::Class(name) => class_name(out, name, unit),
        JType::Array(element) => {
            type_name(out, element.get(), unit);
            out.put(b"[]");
        }
    }
}
