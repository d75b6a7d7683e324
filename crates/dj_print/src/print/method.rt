//! Methods, constructors and static initialisers, on lines of their own with the line end before them.

ghost use Rattle.std.specs.Prelude.{◌≡◌, ◌∷◌, ◌++◌, [], false, codes, if◌then◌else◌, IfSome, is_some, option_map, decimal};
ghost use Rattle.std.specs.List.{AllByRecursion};
ghost use Rattle.dj_names.specs.Types.{parameters_of, result_of, view_descriptor, view_type, view_types};
ghost use Rattle.dj_syntax.specs.Items.{render};
ghost use Rattle.dj_syntax.specs.Trees.{view_body, view_method, view_unit};
ghost use Rattle.dj_syntax.specs.UnitText.{body_items, class_name, default_items, head_items, is_initialiser, method_items, more_parameters, name_items, parameters_items, result_items, type_items, word};
ghost use Rattle.dj_syntax.specs.WellFormed.{AreWellFormedStms, HasMethodName, IsMethodDescriptor, IsNamed, IsWellFormedMethod};
ghost use Rattle.dj_print.specs.Spelled.{IsNamedUnit, spellings};

use crate::out::Out;
use crate::print::member::modifiers;
use crate::print::names::class_list;
use crate::print::statement::statements;
use crate::print::text::{line, number, simple_name};
use crate::print::types::type_name;
use dj_names::{Descriptor, JType};
use dj_syntax::{Body, MethodText, Unit, is_constructor, is_initialiser, method_bits};

/// Prints a method, a constructor or a static initialiser.
pub fn method<O: Out>(out: &mut O, method: &MethodText, interface: bool, unit: &Unit)
    requires named { IsNamedUnit (view_unit unit.now) }
    requires well_formed { IsWellFormedMethod interface (is_some unit.now.helper) (class_name (view_unit unit.now)) (view_method method.now) }
    ensures prints { O.prints out.old out.new (render (method_items (spellings unit.now) interface (view_method method.now))) }
{
    line(out, 1);
    opening(out, method, interface, unit);
    body(out, &method.body, unit);
}

// Prints what stands before the body of a method: its head, or `static`.
fn opening<O: Out>(out: &mut O, method: &MethodText, interface: bool, unit: &Unit)
    requires named { IsNamedUnit (view_unit unit.now) }
    requires well_formed { IsWellFormedMethod interface (is_some unit.now.helper) (class_name (view_unit unit.now)) (view_method method.now) }
    ensures prints { O.prints out.old out.new (render (if is_initialiser method.now.name then word (codes "static") ∷ [] else head_items (spellings unit.now) interface (view_method method.now))) }
{
    if is_initialiser(&method.name) {
        out.put(b"static");
    } else {
        head(out, method, interface, unit);
    }
}

// Prints the head of a method, up to its body.
fn head<O: Out>(out: &mut O, method: &MethodText, interface: bool, unit: &Unit)
    requires named { IsNamedUnit (view_unit unit.now) }
    requires well_formed { IsWellFormedMethod interface (is_some unit.now.helper) (class_name (view_unit unit.now)) (view_method method.now) }
    requires other { is_initialiser method.now.name ≡ false }
    ensures prints { O.prints out.old out.new (render (head_items (spellings unit.now) interface (view_method method.now))) }
{
    modifiers(out, method.flags & method_bits(interface));
    default_word(out, method, interface);
    result_and_name(out, method, unit);
    out.put(b"(");
    parameters(out, &method.descriptor, unit);
    out.put(b")");
    class_list(out, b"throws", method.thrown.as_slice(), unit);
}

// Prints `default` where a method of an interface has a body and isn't static.
fn default_word<O: Out>(out: &mut O, method: &MethodText, interface: bool)
    ensures prints { O.prints out.old out.new (render (default_items interface (view_method method.now))) }
{
    if interface && method.body.is_some() && method.flags & 0x0008 == 0 {
        out.put(b"default ");
    }
}

// Prints a method's result and name; a constructor has its class's simple name alone.
fn result_and_name<O: Out>(out: &mut O, method: &MethodText, unit: &Unit)
    requires named { IsNamedUnit (view_unit unit.now) }
    requires name { HasMethodName (view_method method.now) }
    requires other { is_initialiser method.now.name ≡ false }
    requires descriptor { IsMethodDescriptor (view_descriptor method.now.descriptor) }
    ensures prints { O.prints out.old out.new (render (name_items (spellings unit.now) (view_method method.now))) }
{
    if is_constructor(&method.name) {
        simple_name(out, &unit.name);
    } else {
        result_type(out, &method.descriptor, unit);
        out.put(b" ");
        simple_name(out, &method.name);
    }
}

// Prints a method's result: a type, or `void`.
fn result_type<O: Out>(out: &mut O, descriptor: &Descriptor, unit: &Unit)
    requires method { IsMethodDescriptor (view_descriptor descriptor.now) }
    ensures prints { O.prints out.old out.new (render (result_items (spellings unit.now) (result_of (view_descriptor descriptor.now)))) }
{
    match descriptor {
        Descriptor::Field(kind) => type_name(out, kind, unit),
        Descriptor::Method {
            parameters: _,
            result,
        } => type_or_void(out, result, unit),
    }
}

// Prints a type, or `void`.
fn type_or_void<O: Out>(out: &mut O, kind: &Option<JType>, unit: &Unit)
    requires named { IfSome (option_map view_type kind.now) IsNamed }
    ensures prints { O.prints out.old out.new (render (result_items (spellings unit.now) (option_map view_type kind.now))) }
{
    match kind {
        None => out.put(b"void"),
        Some(kind) => type_name(out, kind, unit),
    }
}

// Prints the parameters of a method, `p0` and so on.
fn parameters<O: Out>(out: &mut O, descriptor: &Descriptor, unit: &Unit)
    requires method { IsMethodDescriptor (view_descriptor descriptor.now) }
    ensures prints { O.prints out.old out.new (render (parameters_items (spellings unit.now) (parameters_of (view_descriptor descriptor.now)))) }
{
    match descriptor {
        Descriptor::Field(_) => {}
        Descriptor::Method {
            parameters,
            result: _,
        } => all_parameters(out, parameters.as_slice(), unit),
    }
}

// Prints parameters of these types, with commas between them.
fn all_parameters<O: Out>(out: &mut O, kinds: &[JType], unit: &Unit)
    requires named { AllByRecursion IsNamed (view_types kinds.now) }
    ensures prints { O.prints out.old out.new (render (parameters_items (spellings unit.now) (view_types kinds.now))) }
{
    match kinds {
        [] => {}
        [first, rest @ ..] => {
            parameter(out, first, 0, unit);
            more_parameters(out, rest, unit);
        }
    }
}

// Prints parameters from `p1` on, each with the comma before it.
fn more_parameters<O: Out>(out: &mut O, kinds: &[JType], unit: &Unit)
    requires named { AllByRecursion IsNamed (view_types kinds.now) }
    ensures prints { O.prints out.old out.new (render (more_parameters (spellings unit.now) 1 (view_types kinds.now))) }
{
    for (index, kind) in kinds.iter().enumerate() {
        out.put(b", ");
        parameter(out, kind, index + 1, unit);
    }
}

// Prints a parameter: its type, and its name by its number.
fn parameter<O: Out>(out: &mut O, kind: &JType, index: usize, unit: &Unit)
    requires named { IsNamed (view_type kind.now) }
    ensures prints { O.prints out.old out.new (render (type_items (spellings unit.now) (view_type kind.now)) ++ 32 ∷ 112 ∷ decimal index) }
{
    type_name(out, kind, unit);
    out.put(b" p");
    number(out, index as u64);
}

// Prints a body in braces, or the semicolon of a method without one.
fn body<O: Out>(out: &mut O, body: &Option<Body>, unit: &Unit)
    requires named { IsNamedUnit (view_unit unit.now) }
    requires well_formed { IfSome (option_map view_body body.now) (λ body. AreWellFormedStms (is_some unit.now.helper) body.statements) }
    ensures prints { O.prints out.old out.new (render (body_items (spellings unit.now) (option_map view_body body.now))) }
{
    match body {
        None => out.put(b";"),
        Some(body) => {
            out.put(b" {");
            statements(out, body.statements.as_slice(), 2, unit);
            line(out, 1);
            out.put(b"}");
        }
    }
}
