//! Fields of objects and of classes (JLS 15.11, 15.26; JVMS 6.5, `getfield` to `putstatic`).

ghost use Rattle.std.specs.Prelude.{◌≡◌, IfOk, Some, option_map};
ghost use Rattle.std.specs.Option.{option_copied};
ghost use Rattle.dj_names.specs.Types.{view_type};
ghost use Rattle.dj_values.specs.Fits as fits;
ghost use Rattle.dj_instructions.specs.Instructions.{view_field_ref};
ghost use Rattle.dj_syntax.specs.Trees.{SetField, SetStatic};
ghost use Rattle.dj_rebuilding.specs.Pending.{set_field, set_static};
ghost use Rattle.dj_pending.specs.Trees.{view_tree};
ghost use Rattle.dj_pending.specs.Stacks.{stacked};
ghost use Rattle.dj_pending.specs.Building.{view_built, as_built};
ghost use Rattle.dj_pending.specs.Spilling.{behind};
ghost use Rattle.dj_member_trees.specs.Calling.{effect_put};
ghost use Rattle.dj_member_trees.specs.Stepping as spec;

use crate::fitting::take_fitted;
use crate::trees::static_tree;
use dj_headers::Headers;
use dj_instructions::FieldRef;
use dj_names::{ClassName, JType, StaticType, Units};
use dj_pending::{Built, Entry, Tree};
use dj_syntax::Stm;
use std::alloc::{AllocError, Global};

/// The class that a type is of, if it is one.
pub fn class_of(kind: &JType) -> Option<&ClassName>
    ensures class { option_copied result ≡ fits.class_of (view_type kind.now) }
{
    match kind {
        JType::Class(name) => Some(name),
        JType::Boolean
        | JType::Byte
        | JType::Char
        | JType::Short
        | JType::Int
        | JType::Long
        | JType::Float
        | JType::Double
        | JType::Array(_) => None,
    }
}

/// A read of an object's field.
pub fn read_field(
    alloc: Global,
    headers: &Headers,
    built: &mut Built,
    field: &FieldRef,
) -> Result<bool, AllocError>
    ensures built { IfOk result (λ done. as_built done (view_built built.new)
        ≡ behind (view_built built.old).emitted (spec.field_read headers.now (view_field_ref field.now) built.old.next (stacked built.old.stack))) }
{
    let Some(object) = take_fitted(alloc, headers, &mut built.stack, false, &field.owner)? else {
        return Ok(false);
    };
    let tree = Tree::field(alloc, object, &field.name)?;
    let kind = StaticType::Of(field.kind.copy(alloc)?);
    built.push(Entry::Whole(kind, tree))?;
    Ok(true)
}

/// A read of a class's field.
pub fn read_static(alloc: Global, built: &mut Built, field: &FieldRef) -> Result<bool, AllocError>
    ensures built { IfOk result (λ done. as_built done (view_built built.new)
        ≡ behind (view_built built.old).emitted (spec.static_read (view_field_ref field.now) built.old.next (stacked built.old.stack))) }
{
    let Some(class) = class_of(&field.owner) else {
        return Ok(false);
    };
    let tree = static_tree(alloc, class, &field.name)?;
    let kind = StaticType::Of(field.kind.copy(alloc)?);
    built.push(Entry::Whole(kind, tree))?;
    Ok(true)
}

/// A store of a value to an object's field, as a statement.
fn put_field(
    alloc: Global,
    built: &mut Built,
    object: Tree,
    name: &Units,
    new: Tree,
) -> Result<bool, AllocError>
    ensures built { IfOk result (λ done. as_built done (view_built built.new)
        ≡ behind (view_built built.old).emitted (effect_put built.old.next (stacked built.old.stack) (Some (SetField (view_tree object) name.now (view_tree new), set_field)))) }
{
    let name = name.copy(alloc)?;
    let done = built.emit(alloc, &[], Stm::SetField(object.exp, name, new.exp))?;
    Ok(done)
}

/// A write of an object's field.
pub fn write_field(
    alloc: Global,
    headers: &Headers,
    built: &mut Built,
    field: &FieldRef,
) -> Result<bool, AllocError>
    ensures built { IfOk result (λ done. as_built done (view_built built.new)
        ≡ behind (view_built built.old).emitted (spec.field_written headers.now (view_field_ref field.now) built.old.next (stacked built.old.stack))) }
{
    let Some(new) = take_fitted(alloc, headers, &mut built.stack, true, &field.kind)? else {
        return Ok(false);
    };
    let Some(object) = take_fitted(alloc, headers, &mut built.stack, false, &field.owner)? else {
        return Ok(false);
    };
    let done = put_field(alloc, built, object, &field.name, new)?;
    Ok(done)
}

/// A store of a value to a class's field, as a statement.
fn put_static(
    alloc: Global,
    built: &mut Built,
    class: &ClassName,
    name: &Units,
    new: Tree,
) -> Result<bool, AllocError>
    ensures built { IfOk result (λ done. as_built done (view_built built.new)
        ≡ behind (view_built built.old).emitted (effect_put built.old.next (stacked built.old.stack) (Some (SetStatic class.now name.now (view_tree new), set_static)))) }
{
    let class = class.copy(alloc)?;
    let name = name.copy(alloc)?;
    let done = built.emit(alloc, &[], Stm::SetStatic(class, name, new.exp))?;
    Ok(done)
}

/// A write of a class's field.
pub fn write_static(
    alloc: Global,
    headers: &Headers,
    built: &mut Built,
    field: &FieldRef,
) -> Result<bool, AllocError>
    ensures built { IfOk result (λ done. as_built done (view_built built.new)
        ≡ behind (view_built built.old).emitted (spec.static_written headers.now (view_field_ref field.now) built.old.next (stacked built.old.stack))) }
{
    let Some(class) = class_of(&field.owner) else {
        return Ok(false);
    };
    let Some(new) = take_fitted(alloc, headers, &mut built.stack, true, &field.kind)? else {
        return Ok(false);
    };
    let done = put_static(alloc, built, class, &field.name, new)?;
    Ok(done)
}
