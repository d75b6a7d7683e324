//! The methods that the text of a class shows (JVMS 4.6).

ghost use Rattle.std.specs.Prelude.{◌≡◌, ◌<◌, ◌++◌, Some, None, map, option_map, length, reverse, IfOk, OnOk, MatchOption};
ghost use Rattle.std.specs.Option.{option_to_list};
ghost use Rattle.dj_syntax.specs.Trees as trees;
ghost use Rattle.dj_syntax.specs.Trees.{view_body};
ghost use Rattle.dj_syntax.specs.UnitText.{is_interface};
ghost use Rattle.dj_class.specs.Views.{view_class, view_method};
ghost use Rattle.dj_causes.specs.BareCauses.{HasBareCause};
ghost use Rattle.dj_causes.specs.Tables.{AreCauses};
ghost use Rattle.dj_class_text.specs.Methods.{bare_method, method_text, IsFreeOfCauses, IsTextOfMethod, ShowsMethods};

use dj_causes::{Cause, Causes};
use dj_class::{ClassFile, Method};
use dj_names::{Items, copy_names};
use dj_syntax::{Body, MethodText, held_method, is_interface};
use dj_world::World;
use std::alloc::{AllocError, Global};

/// The text of a method without a body, with its flags in the file.
fn bare_method(alloc: Global, method: &Method) -> Result<MethodText, AllocError>
    ensures bare { IfOk result (λ text. trees.view_method text ≡ bare_method (view_method method.now) None) }
{
    let name = method.name.copy(alloc)?;
    let descriptor = method.descriptor.copy(alloc)?;
    Ok(MethodText {
        flags: method.flags,
        name,
        descriptor,
        thrown: copy_names(alloc, method.thrown.as_slice())?,
        body: None,
    })
}

/// The text of a method with this body, if any.
fn method_text(
    alloc: Global,
    interface: bool,
    method: &Method,
    body: Option<Body>,
) -> Result<MethodText, AllocError>
    ensures text { IfOk result (λ text. trees.view_method text ≡ method_text interface (view_method method.now) (option_map view_body body)) }
{
    let mut text = bare_method(alloc, method)?;
    text.body = body;
    text.flags = held_method(interface, &text);
    Ok(text)
}

/// The text of a method with code, where it has a body.
fn coded_text(
    alloc: Global,
    interface: bool,
    method: &Method,
    body: Option<Body>,
) -> Result<Option<MethodText>, AllocError>
    ensures text { IfOk result (λ text. option_map trees.view_method text ≡ option_map (λ found. method_text interface (view_method method.now) (Some found)) (option_map view_body body)) }
{
    match body {
        Some(found) => {
            let text = method_text(alloc, interface, method, Some(found))?;
            Ok(Some(text))
        }
        None => Ok(None),
    }
}

/// The text of the method without code at a place, where it has no cause.
fn bare_text(
    alloc: Global,
    world: &World,
    class: &ClassFile,
    causes: &Causes,
    at: usize,
    method: &Method,
) -> Result<Option<MethodText>, AllocError>
    requires made { AreCauses world.now (view_class class.now) causes.now }
    requires within { at < length class.now.methods }
    ensures bare { IfOk result (λ text. MatchOption (option_map trees.view_method text) ((cause : Cause) × HasBareCause world.now (view_class class.now) at cause)
        (λ found. IsFreeOfCauses world.now (view_class class.now) at × (found ≡ method_text (is_interface class.now.flags) (view_method method.now) None))) }
{
    let cause = causes.bare_cause(alloc, world, class, at)?;
    match cause {
        Some(_) => Ok(None),
        None => {
            let text = method_text(alloc, is_interface(class.flags), method, None)?;
            Ok(Some(text))
        }
    }
}

/// The text of the method at a place, if the text of its class shows it.
fn shown_method(
    alloc: Global,
    world: &World,
    class: &ClassFile,
    causes: &Causes,
    at: usize,
    method: &Method,
    body: Option<Body>,
) -> Result<Option<MethodText>, AllocError>
    requires made { AreCauses world.now (view_class class.now) causes.now }
    requires within { at < length class.now.methods }
    ensures shown { IfOk result (λ text. IsTextOfMethod world.now (view_class class.now) (is_interface class.now.flags) at (view_method method.now) (option_map view_body body) (option_map trees.view_method text)) }
{
    match &method.code {
        Some(_) => {
            let text = coded_text(alloc, is_interface(class.flags), method, body)?;
            Ok(text)
        }
        None => {
            let text = bare_text(alloc, world, class, causes, at, method)?;
            Ok(text)
        }
    }
}

/// Puts a text behind the others, if there is one.
fn push_shown(texts: &mut Items<MethodText>, text: Option<MethodText>) -> Result<(), AllocError>
    ensures pushed { OnOk result (texts.new ≡ texts.old ++ option_to_list text) }
{
    match text {
        Some(text) => {
            texts.push(text)?;
            Ok(())
        }
        None => Ok(()),
    }
}

/// Texts in the other order.
fn turned(alloc: Global, mut texts: Items<MethodText>) -> Result<Items<MethodText>, AllocError>
    ensures turned { IfOk result (λ turned. turned ≡ reverse texts) }
{
    let mut turned = Items::new(alloc);
    while let Some(text) = texts.pop() {
        turned.push(text)?;
    }
    Ok(turned)
}

/// The texts of the methods that the text of a class shows, in file order, given their bodies.
pub fn method_texts(
    alloc: Global,
    world: &World,
    class: &ClassFile,
    causes: &Causes,
    mut bodies: Items<Option<Body>>,
) -> Result<Items<MethodText>, AllocError>
    requires made { AreCauses world.now (view_class class.now) causes.now }
    requires paired { length bodies ≡ length class.now.methods }
    ensures shows { IfOk result (λ texts. ShowsMethods world.now (view_class class.now) (is_interface class.now.flags) 0 (view_class class.now).methods (map (option_map view_body) bodies) (map trees.view_method texts)) }
{
    let methods = class.methods.as_slice();
    let mut texts = Items::new(alloc);
    while let Some(body) = bodies.pop() {
        let at = bodies.len();
        let text = shown_method(alloc, world, class, causes, at, &methods[at], body)?;
        push_shown(&mut texts, text)?;
    }
    let texts = turned(alloc, texts)?;
    Ok(texts)
}
