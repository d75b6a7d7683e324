//! The test of a world's classes.

ghost use Rattle.std.specs.Prelude.{◌≡◌, IfOk};
ghost use Rattle.std.specs.Str.{bytes_eq};
ghost use Rattle.std.specs.List.{list_all};
ghost use Rattle.dj_names.specs.Types.{view_type};
ghost use Rattle.dj_names.specs.Assignable.{object_name};
ghost use Rattle.dj_values.specs.Deciding as deciding;
ghost use Rattle.dj_typing.specs.Sites as sites;
ghost use Rattle.dj_known_world.specs.Known as spec;

use dj_headers::{Headers, class_of};
use dj_names::{
    ClassMembers, ClassName, Constant, Descriptor, Field, Header, JType, MethodHead, is_word,
};
use dj_world::World;
use std::alloc::{AllocError, Global};

/// Whether units are these characters.
fn is_text(units: &[u16], text: &str) -> bool
    ensures text { result ≡ bytes_eq units.now text.now }
{
    is_word(units, text)
}

/// Which constants a field of a type may have.
fn kind_of(kind: &JType) -> u8
    ensures kind { result ≡ spec.kind_of (view_type kind.now) }
{
    match kind {
        JType::Boolean | JType::Byte | JType::Char | JType::Short | JType::Int => 1,
        JType::Long => 2,
        JType::Float => 3,
        JType::Double => 4,
        JType::Class(name) => {
            if is_text(name.as_slice(), "java/lang/String") {
                5
            } else {
                0
            }
        }
        JType::Array(_) => 0,
    }
}

/// Which a constant is.
fn number_of(constant: &Constant) -> u8
    ensures number { result ≡ spec.number_of constant.now }
{
    match constant {
        Constant::Int(_) => 1,
        Constant::Long(_) => 2,
        Constant::Float(_) => 3,
        Constant::Double(_) => 4,
        Constant::Text(_) => 5,
    }
}

/// Whether a field's constant is of its type.
fn field_fits(field: &Field) -> bool
    ensures fits { result ≡ spec.field_fits field.now }
{
    match &field.constant {
        None => true,
        Some(constant) => kind_of(&field.descriptor) == number_of(constant),
    }
}

/// Whether each constant of these fields is.
fn fields_fit(fields: &[Field]) -> bool
    ensures fit { result ≡ list_all spec.field_fits fields.now }
{
    for field in fields {
        if !field_fits(field) {
            return false;
        }
    }
    true
}

/// Whether each constant of these classes is.
fn classes_fit(classes: &[ClassMembers]) -> bool
    ensures fit { result ≡ list_all spec.class_fits classes.now }
{
    for class in classes {
        if !fields_fit(class.fields.as_slice()) {
            return false;
        }
    }
    true
}

/// Whether a method that may be `clone` gives a value.
fn gives(method: &MethodHead) -> bool
    ensures gives { result ≡ spec.gives method.now }
{
    if !is_text(method.name.as_slice(), "clone") {
        return true;
    }
    match &method.descriptor {
        Descriptor::Field(_) => true,
        Descriptor::Method { parameters, result } => !parameters.as_slice().is_empty()
            || result.is_some(),
    }
}

/// Whether each of these methods does.
fn all_give(methods: &[MethodHead]) -> bool
    ensures give { result ≡ list_all spec.gives methods.now }
{
    for method in methods {
        if !gives(method) {
            return false;
        }
    }
    true
}

/// Whether each method of Object does.
fn objects_give(headers: &[Header], classes: &[ClassMembers]) -> bool
    ensures give { result ≡ spec.objects_give headers.now classes.now }
{
    for at in 0..headers.len() {
        if at >= classes.len() {
            return true;
        }
        if is_text(headers[at].name.as_slice(), "java/lang/Object") {
            return all_give(classes[at].methods.as_slice());
        }
    }
    true
}

/// Whether a class has a header.
fn has_header(headers: &Headers, name: &ClassName) -> bool
    ensures header { result ≡ sites.has_header headers.now name.now }
{
    match headers.place(name) {
        None => false,
        Some(_) => true,
    }
}

/// Whether a class stands below another by superclasses.
fn is_below(headers: &Headers, lower: &ClassName, upper: &ClassName) -> bool
    ensures below { result ≡ deciding.is_subclass headers.now lower.now upper.now }
{
    headers.is_subclass(lower, upper)
}

/// Whether a world has the core of classes and right members.
pub fn is_known(alloc: Global, world: &World) -> Result<bool, AllocError>
    ensures known { IfOk result (λ known. known ≡ spec.is_known_world world.now.headers world.now.members) }
{
    let object = class_of(alloc, "java/lang/Object")?;
    let throwable = class_of(alloc, "java/lang/Throwable")?;
    let headers = world.headers();
    let classes = world.members().classes.as_slice();
    let fit = classes_fit(classes);
    let give = objects_give(headers.as_slice(), classes);
    let there = has_header(headers, &object);
    let below = is_below(headers, &throwable, &object);
    Ok(fit & give & there & below)
}
