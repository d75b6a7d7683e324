//! The printer: the one text of a unit, as bytes, into a sink, or compared with bytes.

ghost use Rattle.std.specs.Prelude.{◌≡◌, ◌↔◌, codes, if◌then◌else◌, IfOk, IfSome, IsTrue, is_some, map};
ghost use Rattle.std.specs.List.{AllByRecursion, flat_map};
ghost use Rattle.dj_outer.specs.Sink.{Puts};
ghost use Rattle.dj_syntax.specs.Items.{render};
ghost use Rattle.dj_syntax.specs.Trees.{view_field, view_method, view_unit};
ghost use Rattle.dj_syntax.specs.UnitText.{class_name, field_items, is_interface, method_items, members_items, package_items, superclass_items, unit_head_items, unit_items, unit_text};
ghost use Rattle.dj_syntax.specs.WellFormed.{IsQualified, IsWellFormed, IsWellFormedField, IsWellFormedMethod};
ghost use Rattle.dj_print.specs.Spelled.{IsNamedUnit, spellings};

mod expression;
mod member;
mod method;
mod names;
mod statement;
mod text;
mod types;

use crate::out::{Compared, Memory, Out, Told};
use crate::print::member::{field, helper, modifiers};
use crate::print::method::method;
use crate::print::names::{class_list, class_name};
use crate::print::text::{full_name, line, simple_name};
use dj_names::ClassName;
use dj_outer::{Failed, Sink};
use dj_syntax::{FieldText, MethodText, Unit, class_bits, is_interface};
use std::alloc::{AllocError, Global};

/// The one text of a unit, as bytes.
#[tactic(auto, unfolding(dj_syntax::specs::UnitText::unit_text))]
pub fn unit_bytes(alloc: Global, unit: &Unit) -> Result<Vec<u8>, AllocError>
    requires well_formed { IsWellFormed (view_unit unit.now) }
    ensures text { IfOk result (λ text. text.items ≡ unit_text (view_unit unit.now)) }
{
    let mut out = Memory::new(alloc);
    whole_unit(&mut out, unit);
    let Memory { bytes, full } = out;
    if full {
        return Err(AllocError);
    }
    Ok(bytes)
}

/// Puts the one text of a unit, in pieces and without memory. Where a put fails, none follows.
#[tactic(auto, unfolding(dj_syntax::specs::UnitText::unit_text))]
pub fn print_unit<T: Sink>(unit: &Unit, sink: &mut T) -> Result<(), Failed>
    requires well_formed { IsWellFormed (view_unit unit.now) }
    ensures puts { Puts result (T.taken sink.old) (T.taken sink.new) (T.faults sink.old) (T.faults sink.new) (unit_text (view_unit unit.now)) }
{
    let mut out = Told {
        sink,
        stopped: false,
    };
    whole_unit(&mut out, unit);
    let Told { sink: _, stopped } = out;
    if stopped { Err(Failed) } else { Ok(()) }
}

/// Whether bytes are the one text of a unit. It takes no memory.
#[tactic(auto, unfolding(dj_syntax::specs::UnitText::unit_text))]
pub fn is_text(unit: &Unit, bytes: &[u8]) -> bool
    requires well_formed { IsWellFormed (view_unit unit.now) }
    ensures text { IsTrue result ↔ (unit_text (view_unit unit.now) ≡ bytes.now) }
{
    let mut out = Compared {
        left: bytes,
        differs: false,
    };
    whole_unit(&mut out, unit);
    let Compared { left, differs } = out;
    !differs && left.is_empty()
}

// Prints a unit.
fn whole_unit<O: Out>(out: &mut O, unit: &Unit)
    requires well_formed { IsWellFormed (view_unit unit.now) }
    ensures prints { O.prints out.old out.new (render (unit_items (spellings unit.now) (view_unit unit.now))) }
{
    package_line(out, &unit.package);
    head(out, unit);
    members(out, unit);
    line(out, 0);
    out.put(b"}");
    line(out, 0);
}

// Prints the line that names the package, where there is one.
fn package_line<O: Out>(out: &mut O, name: &Option<ClassName>)
    requires qualified { IfSome name.now IsQualified }
    ensures prints { O.prints out.old out.new (render (package_items name.now)) }
{
    match name {
        None => {}
        Some(name) => {
            out.put(b"package ");
            full_name(out, name.as_slice());
            out.put(b";");
            line(out, 0);
        }
    }
}

// Prints the head of a class or an interface.
fn head<O: Out>(out: &mut O, unit: &Unit)
    requires well_formed { IsWellFormed (view_unit unit.now) }
    ensures prints { O.prints out.old out.new (render (unit_head_items (spellings unit.now) (view_unit unit.now))) }
{
    let interface = is_interface(unit.flags);
    modifiers(out, unit.flags & class_bits(interface));
    out.put(class_word(interface));
    out.put(b" ");
    simple_name(out, &unit.name);
    superclass(out, &unit.superclass, unit);
    class_list(out, list_word(interface), unit.interfaces.as_slice(), unit);
    out.put(b" {");
}

// The keyword of a class or an interface.
fn class_word(interface: bool) -> &'static [u8]
    ensures word { result.now ≡ (if interface then codes "interface" else codes "class") }
{
    if interface { b"interface" } else { b"class" }
}

// The keyword behind which the interfaces above a class or an interface stand.
fn list_word(interface: bool) -> &'static [u8]
    ensures word { result.now ≡ (if interface then codes "extends" else codes "implements") }
{
    if interface { b"extends" } else { b"implements" }
}

// Prints the superclass, where the text names it.
fn superclass<O: Out>(out: &mut O, superclass: &Option<ClassName>, unit: &Unit)
    requires qualified { IfSome superclass.now IsQualified }
    ensures prints { O.prints out.old out.new (render (superclass_items (spellings unit.now) superclass.now)) }
{
    match superclass {
        None => {}
        Some(name) => {
            out.put(b" extends ");
            class_name(out, name, unit);
        }
    }
}

// Prints the fields, the helper, then the methods and constructors.
fn members<O: Out>(out: &mut O, unit: &Unit)
    requires well_formed { IsWellFormed (view_unit unit.now) }
    ensures prints { O.prints out.old out.new (render (members_items (spellings unit.now) (view_unit unit.now))) }
{
    let interface = is_interface(unit.flags);
    fields(out, unit.fields.as_slice(), interface, unit);
    helper(out, &unit.helper);
    methods(out, unit.methods.as_slice(), interface, unit);
}

// Prints fields, in order.
fn fields<O: Out>(out: &mut O, fields: &[FieldText], interface: bool, unit: &Unit)
    requires well_formed { AllByRecursion (IsWellFormedField interface) (map view_field fields.now) }
    ensures prints { O.prints out.old out.new (render (flat_map (field_items (spellings unit.now) interface) (map view_field fields.now))) }
{
    for one in fields {
        field(out, one, interface, unit);
    }
}

// Prints methods and constructors, in order.
fn methods<O: Out>(out: &mut O, methods: &[MethodText], interface: bool, unit: &Unit)
    requires named { IsNamedUnit (view_unit unit.now) }
    requires well_formed { AllByRecursion (IsWellFormedMethod interface (is_some unit.now.helper) (class_name (view_unit unit.now))) (map view_method methods.now) }
    ensures prints { O.prints out.old out.new (render (flat_map (method_items (spellings unit.now) interface) (map view_method methods.now))) }
{
    for one in methods {
        method(out, one, interface, unit);
    }
}
