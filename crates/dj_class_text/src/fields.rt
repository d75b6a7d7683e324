//! The fields that the text of a class shows (JVMS 4.5, 4.7.2).

ghost use Rattle.std.specs.Prelude.{◌≡◌, ◌<◌, ◌++◌, map, option_map, length, IfOk, OnOk, MatchOption};
ghost use Rattle.std.specs.Option.{option_to_list};
ghost use Rattle.dj_names.specs.Types.{view_type};
ghost use Rattle.dj_syntax.specs.Trees as trees;
ghost use Rattle.dj_syntax.specs.Trees.{view_exp};
ghost use Rattle.dj_syntax.specs.UnitText.{is_interface};
ghost use Rattle.dj_class.specs.Views.{view_class, view_field};
ghost use Rattle.dj_causes.specs.FieldCauses.{HasFieldCause};
ghost use Rattle.dj_causes.specs.Tables.{AreCauses};
ghost use Rattle.dj_class_text.specs.Fields.{int_value, value_of, shown_value, bare_field, field_text, ShowsFields};

use dj_causes::{Causes, FieldCause};
use dj_class::ClassFile;
use dj_names::{Constant, Field, Items, JType};
use dj_syntax::{Exp, FieldText, held_field, is_interface};
use dj_world::World;
use std::alloc::{AllocError, Global};

const STATIC: u16 = 0x0008;

/// The expression of an int constant in a field of a type.
fn int_value(kind: &JType, number: i32) -> Exp
    ensures value { view_exp result ≡ int_value (view_type kind.now) number }
{
    match kind {
        JType::Boolean => Exp::Bool(number != 0),
        JType::Byte => Exp::Int(number),
        JType::Char => Exp::Int(number),
        JType::Short => Exp::Int(number),
        JType::Int => Exp::Int(number),
        JType::Long => Exp::Int(number),
        JType::Float => Exp::Int(number),
        JType::Double => Exp::Int(number),
        JType::Class(_) => Exp::Int(number),
        JType::Array(_) => Exp::Int(number),
    }
}

/// The expression of a constant in a field of a type, None for a float and a double.
fn value_of(alloc: Global, kind: &JType, constant: &Constant) -> Result<Option<Exp>, AllocError>
    ensures value { IfOk result (λ value. option_map view_exp value ≡ value_of (view_type kind.now) constant.now) }
{
    match constant {
        Constant::Int(number) => Ok(Some(int_value(kind, *number))),
        Constant::Long(number) => Ok(Some(Exp::Long(*number))),
        Constant::Text(units) => Ok(Some(Exp::Text(units.copy(alloc)?))),
        Constant::Float(_) => Ok(None),
        Constant::Double(_) => Ok(None),
    }
}

/// The value that the text of a field shows, if any.
fn shown_value(alloc: Global, field: &Field) -> Result<Option<Exp>, AllocError>
    ensures value { IfOk result (λ value. option_map view_exp value ≡ shown_value (view_field field.now)) }
{
    if field.flags & STATIC == 0 {
        return Ok(None);
    }
    match &field.constant {
        Some(constant) => {
            let value = value_of(alloc, &field.descriptor, constant)?;
            Ok(value)
        }
        None => Ok(None),
    }
}

/// The text of a field, with its flags in the file.
fn bare_field(alloc: Global, field: &Field) -> Result<FieldText, AllocError>
    ensures bare { IfOk result (λ text. trees.view_field text ≡ bare_field (view_field field.now)) }
{
    let value = shown_value(alloc, field)?;
    Ok(FieldText {
        flags: field.flags,
        kind: field.descriptor.copy(alloc)?,
        name: field.name.copy(alloc)?,
        value,
    })
}

/// The text of a field.
fn field_text(alloc: Global, interface: bool, field: &Field) -> Result<FieldText, AllocError>
    ensures text { IfOk result (λ text. trees.view_field text ≡ field_text interface (view_field field.now)) }
{
    let mut text = bare_field(alloc, field)?;
    text.flags = held_field(interface, &text);
    Ok(text)
}

/// The text of the field at a place, where it has no cause.
fn shown_field(
    alloc: Global,
    world: &World,
    class: &ClassFile,
    causes: &Causes,
    at: usize,
    field: &Field,
) -> Result<Option<FieldText>, AllocError>
    requires made { AreCauses world.now (view_class class.now) causes.now }
    requires within { at < length class.now.fields }
    ensures shown { IfOk result (λ text. MatchOption text ((cause : FieldCause) × HasFieldCause world.now (view_class class.now) at cause)
        (λ found. ((cause : FieldCause) → ¬ HasFieldCause world.now (view_class class.now) at cause) × (trees.view_field found ≡ field_text (is_interface class.now.flags) (view_field field.now)))) }
{
    let cause = causes.field_cause(alloc, world, class, at)?;
    match cause {
        Some(_) => Ok(None),
        None => {
            let text = field_text(alloc, is_interface(class.flags), field)?;
            Ok(Some(text))
        }
    }
}

/// Puts a text behind the others, if there is one.
fn push_shown(texts: &mut Items<FieldText>, text: Option<FieldText>) -> Result<(), AllocError>
    ensures pushed { OnOk result (texts.new ≡ texts.old ++ option_to_list text) }
{
    match text {
        Some(text) => {
            texts.push(text)?;
            Ok(())
        }
        None => Ok(()),
    }
}

/// The texts of the fields that no cause leaves out, in file order.
pub fn field_texts(
    alloc: Global,
    world: &World,
    class: &ClassFile,
    causes: &Causes,
) -> Result<Items<FieldText>, AllocError>
    requires made { AreCauses world.now (view_class class.now) causes.now }
    ensures shows { IfOk result (λ texts. ShowsFields world.now (view_class class.now) (is_interface class.now.flags) 0 (view_class class.now).fields (map trees.view_field texts)) }
{
    let fields = class.fields.as_slice();
    let mut texts = Items::new(alloc);
    for at in 0..fields.len() {
        let text = shown_field(alloc, world, class, causes, at, &fields[at])?;
        push_shown(&mut texts, text)?;
    }
    Ok(texts)
}
