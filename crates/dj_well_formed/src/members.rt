//! Fields, methods, constructors and static initialisers of a unit, and their bodies (JLS 8.3 to 8.8, 9.3, 9.4).

ghost use Rattle.std.specs.Prelude.{◌≡◌, ◌↔◌, [], ◌∷◌, ◌++◌, IsTrue, IfSome, is_some, map};
ghost use Rattle.std.specs.List.{AllByRecursion};
ghost use Rattle.dj_names.specs.Types.{Method, result_of, view_descriptor};
ghost use Rattle.dj_syntax.specs.Trees.{view_body, view_field, view_method, view_unit};
ghost use Rattle.dj_syntax.specs.UnitText.{is_interface};
ghost use Rattle.dj_syntax.specs.WellFormed.{HasHeadOf, HasMethodName, IsInitialiser, IsWellFormedBody, IsWellFormedField, IsWellFormedMethod, class_name};

use crate::expressions::is_well_formed_value;
use crate::names::{SLASH, are_qualified, behind, is_joined, is_method_descriptor, is_named};
use crate::same::{same_descriptor, same_names};
use crate::statements::are_well_formed_stms;
use dj_names::{Descriptor, is_identifier};
use dj_syntax::{
    Body, FieldText, MethodText, Unit, held_field, held_method, is_constructor, is_initialiser,
    is_interface,
};

/// Whether each field is well formed.
pub fn are_well_formed_fields(interface: bool, fields: &[FieldText]) -> bool
    ensures well_formed { IsTrue result ↔ AllByRecursion (IsWellFormedField interface) (map view_field fields.now) }
{
    fields
        .iter()
        .all(|field| is_well_formed_field(interface, field))
}

/// Whether a field is well formed.
fn is_well_formed_field(interface: bool, field: &FieldText) -> bool
    ensures well_formed { IsTrue result ↔ IsWellFormedField interface (view_field field.now) }
{
    is_identifier(&field.name)
        && is_named(&field.kind)
        && field.flags == held_field(interface, field)
        && is_well_formed_value(&field.value)
}

/// Whether each method is well formed in this unit.
pub fn are_well_formed_methods(unit: &Unit, methods: &[MethodText]) -> bool
    ensures well_formed { IsTrue result ↔ AllByRecursion (IsWellFormedMethod (is_interface unit.now.flags) (is_some unit.now.helper) (class_name (view_unit unit.now))) (map view_method methods.now) }
{
    methods
        .iter()
        .all(|method| is_well_formed_method(unit, method))
}

/// Whether a method is well formed in this unit.
fn is_well_formed_method(unit: &Unit, method: &MethodText) -> bool
    ensures well_formed { IsTrue result ↔ IsWellFormedMethod (is_interface unit.now.flags) (is_some unit.now.helper) (class_name (view_unit unit.now)) (view_method method.now) }
{
    has_method_name(method)
        && is_method_descriptor(&method.descriptor)
        && are_qualified(method.thrown.as_slice())
        && method.flags == held_method(is_interface(unit.flags), method)
        && is_well_formed_body(unit, method)
}

/// Whether a method's name is an identifier, or that of a constructor without a result or of a static initialiser.
fn has_method_name(method: &MethodText) -> bool
    ensures name { IsTrue result ↔ HasMethodName (view_method method.now) }
{
    if is_constructor(&method.name) {
        has_no_result(&method.descriptor)
    } else if is_initialiser(&method.name) {
        is_initialiser_head(method)
    } else {
        is_identifier(&method.name)
    }
}

/// Whether a descriptor is that of a method without a result.
pub fn has_no_result(descriptor: &Descriptor) -> bool
    ensures none { IsTrue result ↔ (result_of (view_descriptor descriptor.now) ≡ None) }
{
    match descriptor {
        Descriptor::Field(_) => false,
        Descriptor::Method {
            parameters: _,
            result,
        } => result.is_none(),
    }
}

/// Whether a method takes nothing, gives nothing, lists no exception and has a body.
fn is_initialiser_head(method: &MethodText) -> bool
    ensures initialiser { IsTrue result ↔ IsInitialiser (view_method method.now) }
{
    takes_and_gives_nothing(&method.descriptor) && method.thrown.is_empty() && method.body.is_some()
}

/// Whether a descriptor is that of a method without parameters and without a result.
pub fn takes_and_gives_nothing(descriptor: &Descriptor) -> bool
    ensures nothing { IsTrue result ↔ (view_descriptor descriptor.now ≡ Method [] None) }
{
    match descriptor {
        Descriptor::Field(_) => false,
        Descriptor::Method { parameters, result } => match parameters.as_slice() {
            [] => result.is_none(),
            [_, ..] => false,
        },
    }
}

/// Whether a method has no body, or one with the head of the method in this unit.
fn is_well_formed_body(unit: &Unit, method: &MethodText) -> bool
    ensures well_formed { IsTrue result ↔ IfSome (view_method method.now).body (IsWellFormedBody (is_some unit.now.helper) (class_name (view_unit unit.now)) (view_method method.now)) }
{
    match &method.body {
        None => true,
        Some(body) => {
            has_head_of(unit, method, body)
                && are_well_formed_stms(body.statements.as_slice(), unit.helper.is_some())
        }
    }
}

/// Whether the head of a body is that of its method, in the class of its unit.
fn has_head_of(unit: &Unit, method: &MethodText, body: &Body) -> bool
    ensures head { IsTrue result ↔ HasHeadOf (class_name (view_unit unit.now)) (view_method method.now) (view_body body.now) }
{
    is_class_of(unit, body.class.as_slice())
        && body.flags == method.flags
        && body.name == method.name
        && same_descriptor(&body.descriptor, &method.descriptor)
        && same_names(body.thrown.as_slice(), method.thrown.as_slice())
}

/// Whether a name is that of the unit's class: the package's segments and its own.
fn is_class_of(unit: &Unit, name: &[u16]) -> bool
    ensures class { IsTrue result ↔ (name.now ≡ class_name (view_unit unit.now)) }
{
    match &unit.package {
        None => name == unit.name.as_slice(),
        Some(package) => is_in_package(package.as_slice(), unit.name.as_slice(), name),
    }
}

/// Whether a name is a package's, a slash, and this simple name.
fn is_in_package(front: &[u16], simple: &[u16], name: &[u16]) -> bool
    ensures parts { IsTrue result ↔ (name.now ≡ front.now ++ 47 ∷ simple.now) }
{
    match behind(front, name) {
        Some(rest) => is_joined(&[SLASH], simple, rest),
        None => false,
    }
}
