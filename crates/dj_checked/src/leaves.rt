//! Expressions without parts.

ghost use Rattle.std.specs.Prelude.{◌≡◌, ◌&&◌, IfOk, Some, is_some};
ghost use Rattle.std.specs.Option.{option_map, option_copied};
ghost use Rattle.dj_names.specs.Types.{Of, Class, view_type, view_static};
ghost use Rattle.dj_values.specs.Deciding as tests;
ghost use Rattle.dj_static.specs.Scopes.{scope_of};
ghost use Rattle.dj_meaning.specs.StaticTypes.{typed};
ghost use Rattle.dj_typing.specs.Sites as sites;
ghost use Rattle.dj_checked.specs.Sites.{site_of};
ghost use Rattle.dj_checked.specs.Walks as spec;

use crate::casting::is_reference;
use crate::given::{copied, is_typed, library_type, object_type, static_type};
use crate::site::{Site, may_name_member, may_name_type};
use crate::walk::Walk;
use dj_names::{ClassName, JType, StaticType, Units};
use dj_places::TypeKind;
use dj_static::Scope;
use dj_syntax::Var;
use std::alloc::{AllocError, Global};

/// A text.
pub fn text(
    alloc: Global,
    site: &Site<'_>,
    walk: &mut Walk,
) -> Result<Option<StaticType>, AllocError>
    ensures walked { IfOk result (λ _. walk.new ≡ spec.note_whole (site_of site.now) walk.old.place spec.text_type (spec.step walk.old)) }
    ensures typed { IfOk result (λ found. option_map view_static found ≡ spec.text_type) }
{
    let found = library_type(alloc, "java/lang/String")?;
    let place = walk.step();
    walk.note_whole(alloc, site, place, &found)?;
    Ok(found)
}

/// `this`.
pub fn this(
    alloc: Global,
    site: &Site<'_>,
    walk: &mut Walk,
) -> Result<Option<StaticType>, AllocError>
    ensures walked { IfOk result (λ _. walk.new ≡ spec.note_this (site_of site.now) walk.old.place (spec.step walk.old)) }
    ensures typed { IfOk result (λ found. option_map view_static found ≡ Some (Of (Class (site_of site.now).class))) }
{
    let found = object_type(alloc, site.classes.from)?;
    let place = walk.step();
    walk.note(place, TypeKind::Name, site.has_this);
    walk.note_whole(alloc, site, place, &found)?;
    Ok(found)
}

/// Whether there is a type.
pub fn is_declared(kind: Option<&JType>) -> bool
    ensures declared { result ≡ is_some (option_map view_type (option_copied kind.entry)) }
{
    match kind {
        None => false,
        Some(_) => true,
    }
}

/// A variable.
pub fn variable(
    alloc: Global,
    site: &Site<'_>,
    scope: &Scope,
    variable: Var,
    walk: &mut Walk,
) -> Result<Option<StaticType>, AllocError>
    ensures walked { IfOk result (λ _. walk.new ≡ spec.note_variable (site_of site.now) walk.old.place (scope_of scope.now variable) (spec.step walk.old)) }
    ensures typed { IfOk result (λ found. option_map view_static found ≡ typed (scope_of scope.now variable)) }
{
    let declared = scope.kind(variable);
    let found = copied(alloc, declared)?;
    let place = walk.step();
    walk.note(place, TypeKind::Name, is_declared(declared));
    walk.note_whole(alloc, site, place, &found)?;
    Ok(found)
}

/// Whether a class literal names this type: one of a class or an array, which can be named.
fn is_literal(alloc: Global, site: &Site<'_>, kind: &JType) -> Result<bool, AllocError>
    ensures literal { IfOk result (λ may. may ≡ (tests.is_reference (view_type kind.now) && sites.may_name_type (site_of site.now) (view_type kind.now))) }
{
    let named = may_name_type(alloc, site, kind)?;
    Ok(is_reference(kind) && named)
}

/// A class literal.
pub fn class_literal(
    alloc: Global,
    site: &Site<'_>,
    kind: &JType,
    walk: &mut Walk,
) -> Result<Option<StaticType>, AllocError>
    ensures walked { IfOk result (λ _. walk.new ≡ spec.note_class (site_of site.now) walk.old.place (view_type kind.now) (spec.step walk.old)) }
    ensures typed { IfOk result (λ found. option_map view_static found ≡ spec.class_type) }
{
    let named = is_literal(alloc, site, kind)?;
    let found = library_type(alloc, "java/lang/Class")?;
    let place = walk.step();
    walk.note(place, TypeKind::Name, named);
    walk.note_whole(alloc, site, place, &found)?;
    Ok(found)
}

/// A static field.
pub fn static_field(
    alloc: Global,
    site: &Site<'_>,
    class: &ClassName,
    name: &Units,
    walk: &mut Walk,
) -> Result<Option<StaticType>, AllocError>
    ensures walked { IfOk result (λ _. walk.new ≡ spec.note_static (site_of site.now) walk.old.place class.now name.now (spec.step walk.old)) }
    ensures typed { IfOk result (λ found. option_map view_static found ≡ spec.static_type (site_of site.now) class.now name.now) }
{
    let named = may_name_member(alloc, site, class, name)?;
    let found = static_type(alloc, &site.classes, class, name)?;
    let place = walk.step();
    walk.note(place, TypeKind::Name, named);
    walk.note(place, TypeKind::Access, is_typed(&found));
    walk.note_whole(alloc, site, place, &found)?;
    Ok(found)
}
