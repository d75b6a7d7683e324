//! The attributes that a class tells of: ConstantValue, Code and Exceptions (JVMS 4.7.2, 4.7.3, 4.7.5).

ghost use Rattle.std.specs.Prelude.{OnOk, IfOk};
ghost use Rattle.dj_pool.specs.PoolFormat.{text_at};
ghost use Rattle.dj_write.specs.Found.{IsLed, constant_at};
ghost use Rattle.dj_write.specs.Written.{AreClasses, AreOfField, AreOfMethod, HasClasses, HasCodeName, HasConstant, HasThrown, IsConstantContent, IsExceptionsContent, IsPushed, PushesCode, PushesExceptions};

use crate::file::put_indices;
use crate::index::Index;
use crate::parts::put_u16;
use dj_class::{Attribute, Method};
use dj_names::{ClassName, Constant, Items};
use std::alloc::{AllocError, Global};

/// Indices of classes.
pub(crate) fn class_indices(
    alloc: Global,
    index: &Index,
    names: &[ClassName],
) -> Result<Items<u16>, AllocError>
    requires there { HasClasses index.now names.now }
    ensures lead { IfOk result (AreClasses index.now names.now) }
{
    let mut indices = Items::new(alloc);
    for name in names {
        indices.push(index.class(name))?;
    }
    Ok(indices)
}

/// The content of a ConstantValue.
fn constant_content(
    alloc: Global,
    index: &Index,
    constant: &Constant,
) -> Result<Items<u8>, AllocError>
    requires there { IsLed (constant_at index.now) constant.now }
    ensures content { IfOk result (IsConstantContent index.now constant.now) }
{
    let mut content = Vec::new(alloc);
    put_u16(&mut content, index.constant(alloc, constant)?)?;
    Ok(Items::from_vec(content))
}

/// The content of an Exceptions.
fn exceptions_content(
    alloc: Global,
    index: &Index,
    thrown: &[ClassName],
) -> Result<Items<u8>, AllocError>
    requires there { HasClasses index.now thrown.now }
    ensures content { IfOk result (IsExceptionsContent index.now thrown.now) }
{
    let indices = class_indices(alloc, index, thrown)?;
    let mut content = Vec::new(alloc);
    put_indices(&mut content, indices.as_slice())?;
    Ok(Items::from_vec(content))
}

/// Puts an attribute behind others.
fn push_attribute(
    alloc: Global,
    index: &Index,
    attributes: &mut Items<Attribute>,
    name: &str,
    content: Items<u8>,
) -> Result<(), AllocError>
    requires there { IsLed (text_at index.now) name.now }
    ensures pushed { OnOk result (IsPushed index.now name.now content attributes.old attributes.new) }
{
    let name = index.word(alloc, name)?;
    attributes.push(Attribute { name, content })?;
    Ok(())
}

/// The attributes of a field with this constant.
pub(crate) fn field_attributes(
    alloc: Global,
    index: &Index,
    constant: &Option<Constant>,
) -> Result<Items<Attribute>, AllocError>
    requires there { HasConstant index.now constant.now }
    ensures attributes { IfOk result (AreOfField index.now constant.now) }
{
    let mut attributes = Items::new(alloc);
    match constant {
        Some(constant) => {
            let content = constant_content(alloc, index, constant)?;
            push_attribute(alloc, index, &mut attributes, "ConstantValue", content)?;
            Ok(attributes)
        }
        None => Ok(attributes),
    }
}

/// Puts the Code of a method, if it has one, behind its other attributes.
fn push_code(
    alloc: Global,
    index: &Index,
    attributes: &mut Items<Attribute>,
    code: &Option<Items<u8>>,
) -> Result<(), AllocError>
    requires there { HasCodeName index.now code.now }
    ensures pushed { OnOk result (PushesCode index.now code.now attributes.old attributes.new) }
{
    match code {
        Some(content) => {
            let content = Items::from_slice(alloc, content.as_slice())?;
            push_attribute(alloc, index, attributes, "Code", content)
        }
        None => Ok(()),
    }
}

/// Puts the Exceptions of a method, if it throws any, behind its other attributes.
fn push_exceptions(
    alloc: Global,
    index: &Index,
    attributes: &mut Items<Attribute>,
    thrown: &[ClassName],
) -> Result<(), AllocError>
    requires there { HasThrown index.now thrown.now }
    ensures pushed { OnOk result (PushesExceptions index.now thrown.now attributes.old attributes.new) }
{
    if thrown.is_empty() {
        return Ok(());
    }
    let content = exceptions_content(alloc, index, thrown)?;
    push_attribute(alloc, index, attributes, "Exceptions", content)
}

/// The attributes of a method.
pub(crate) fn method_attributes(
    alloc: Global,
    index: &Index,
    method: &Method,
) -> Result<Items<Attribute>, AllocError>
    requires code { HasCodeName index.now method.now.code }
    requires thrown { HasThrown index.now method.now.thrown }
    ensures attributes { IfOk result (AreOfMethod index.now method.now.code method.now.thrown) }
{
    let mut attributes = Items::new(alloc);
    push_code(alloc, index, &mut attributes, &method.code)?;
    push_exceptions(alloc, index, &mut attributes, method.thrown.as_slice())?;
    Ok(attributes)
}
