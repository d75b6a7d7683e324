//! Modifiers, fields and the helper, members on lines of their own with the line end before them.

ghost use Rattle.std.specs.Prelude.{◌≡◌, IfSome};
ghost use Rattle.dj_syntax.specs.Items.{render};
ghost use Rattle.dj_syntax.specs.Trees.{view_field};
ghost use Rattle.dj_syntax.specs.UnitText.{field_items, helper_items, modifiers_items, modifier_items};
ghost use Rattle.dj_syntax.specs.WellFormed.{IsHelperName, IsWellFormedField};
ghost use Rattle.dj_print.specs.Spelled.{spellings};

use crate::out::Out;
use crate::print::statement::first_value;
use crate::print::text::{ascii, line, simple_name};
use crate::print::types::type_name;
use dj_names::Units;
use dj_syntax::{FieldText, Unit, field_bits};

/// Prints the modifiers whose bits are among these, each with a space behind it.
pub fn modifiers<O: Out>(out: &mut O, bits: u16)
    ensures prints { O.prints out.old out.new (render (modifiers_items bits)) }
{
    modifier(out, bits, 0x0001, b"public");
    modifier(out, bits, 0x0004, b"protected");
    modifier(out, bits, 0x0002, b"private");
    modifier(out, bits, 0x0400, b"abstract");
    modifier(out, bits, 0x0008, b"static");
    modifier(out, bits, 0x0010, b"final");
    modifier(out, bits, 0x0020, b"synchronized");
    modifier(out, bits, 0x0100, b"native");
    modifier(out, bits, 0x0080, b"transient");
    modifier(out, bits, 0x0040, b"volatile");
}

// Prints one modifier and a space, where its bit is among these.
fn modifier<O: Out>(out: &mut O, bits: u16, bit: u16, word: &[u8])
    ensures prints { O.prints out.old out.new (render (modifier_items bits (bit, word.now))) }
{
    if bits & bit == 0 {
        return;
    }
    out.put(word);
    out.put(b" ");
}

/// Prints a field: modifiers, type, name and value.
pub fn field<O: Out>(out: &mut O, field: &FieldText, interface: bool, unit: &Unit)
    requires well_formed { IsWellFormedField interface (view_field field.now) }
    ensures prints { O.prints out.old out.new (render (field_items (spellings unit.now) interface (view_field field.now))) }
{
    line(out, 1);
    modifiers(
        out,
        field.flags & field_bits(interface, field.value.is_some()),
    );
    type_name(out, &field.kind, unit);
    out.put(b" ");
    simple_name(out, &field.name);
    first_value(out, &field.value, unit);
}

/// Prints the helper that throws its argument, where the unit has it.
pub fn helper<O: Out>(out: &mut O, name: &Option<Units>)
    requires helper { IfSome name.now IsHelperName }
    ensures prints { O.prints out.old out.new (render (helper_items name.now)) }
{
    match name {
        None => {}
        Some(name) => {
            line(out, 1);
            out.put(b"static <T extends java.lang.Throwable> java.lang.RuntimeException ");
            ascii(out, name.as_slice());
            out.put(b"(java.lang.Throwable t) throws T {");
            line(out, 2);
            out.put(b"throw (T) t;");
            line(out, 1);
            out.put(b"}");
        }
    }
}
