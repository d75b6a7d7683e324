//! Calls, whose objects and arguments are looked at already, by the types of these (JLS 15.9, 15.12).

ghost use Rattle.std.specs.Prelude.{◌≡◌, ◌&&◌, not, IfOk, Some, map};
ghost use Rattle.std.specs.Option.{option_map};
ghost use Rattle.dj_names.specs.Types.{Of, Class, view_static};
ghost use Rattle.dj_typing.specs.Expressions.{gives_value, is_meant, is_abstract, has_super, means_abstract};
ghost use Rattle.dj_meaning.specs.StaticTypes.{plain, object_target, class_target, super_target};
ghost use Rattle.dj_typing.specs.Operands.{if_typed};
ghost use Rattle.dj_typing.specs.Sites.{context_of};
ghost use Rattle.dj_static.specs.Targets.{view_target};
ghost use Rattle.dj_checked.specs.Sites.{site_of};
ghost use Rattle.dj_typing.specs.Words.{is_identifier};
ghost use Rattle.dj_checked.specs.Walks as spec;

use crate::casting::has_flag;
use crate::given::{
    class_target, given_type, new_target, object_target, object_type, plain, super_target,
};
use crate::leaves::is_declared;
use crate::site::{Site, can_name, may_name, may_name_member};
use crate::supers::{has_super, means_abstract};
use crate::walk::Walk;
use dj_names::{ClassName, Items, StaticType, Units};
use dj_places::TypeKind;
use dj_static::Target;
use std::alloc::{AllocError, Global};

/// Whether a call gives a value, where it means a target.
fn gives_value(target: &Option<Target>) -> bool
    ensures gives { result ≡ gives_value (option_map view_target target.now) }
{
    match target {
        None => true,
        Some(target) => is_declared(target.result()),
    }
}

/// Whether a call means a target, where its arguments have types.
pub fn is_meant(given: &Option<Items<StaticType>>, target: &Option<Target>) -> bool
    ensures meant { result ≡ is_meant (option_map (map view_static) given.now) (option_map view_target target.now) }
{
    match given {
        None => true,
        Some(_) => match target {
            None => false,
            Some(_) => true,
        },
    }
}

/// Whether a call means a target, where the object and the arguments have types.
fn is_called(
    object: &Option<StaticType>,
    given: &Option<Items<StaticType>>,
    target: &Option<Target>,
) -> bool
    ensures called { result ≡ if_typed (option_map view_static object.now) (λ _. is_meant (option_map (map view_static) given.now) (option_map view_target target.now)) }
{
    match object {
        None => true,
        Some(_) => is_meant(given, target),
    }
}

/// A call of an object's method, whether it gives a value or not. Answers what it asks for.
pub fn call_itself(
    alloc: Global,
    site: &Site<'_>,
    place: u32,
    object: &Option<StaticType>,
    name: &Units,
    given: &Option<Items<StaticType>>,
    walk: &mut Walk,
) -> Result<Option<Target>, AllocError>
    ensures walked { IfOk result (λ _. walk.new ≡ spec.note_call_itself (site_of site.now) place name.now (option_map view_static object.now) (option_map (map view_static) given.now) walk.old) }
    ensures target { IfOk result (λ target. option_map view_target target ≡ object_target (context_of (site_of site.now)) name.now (plain (option_map view_static object.now)) (option_map (map view_static) given.now)) }
{
    let target = object_target(alloc, &site.classes, plain(object), name, given)?;
    let found = given_type(alloc, &target)?;
    walk.note(place, TypeKind::Name, can_name(name));
    walk.note(place, TypeKind::Call, is_called(object, given, &target));
    walk.note_whole(alloc, site, place, &found)?;
    Ok(target)
}

/// A call of an object's method.
pub fn call(
    alloc: Global,
    site: &Site<'_>,
    place: u32,
    object: &Option<StaticType>,
    name: &Units,
    given: &Option<Items<StaticType>>,
    walk: &mut Walk,
) -> Result<Option<StaticType>, AllocError>
    ensures walked { IfOk result (λ _. walk.new ≡ spec.note_call (site_of site.now) place name.now (option_map view_static object.now) (option_map (map view_static) given.now) walk.old) }
    ensures typed { IfOk result (λ found. option_map view_static found ≡ spec.call_type (site_of site.now) name.now (option_map view_static object.now) (option_map (map view_static) given.now)) }
{
    let target = call_itself(alloc, site, place, object, name, given, walk)?;
    let found = given_type(alloc, &target)?;
    walk.note(place, TypeKind::WrongType, gives_value(&target));
    Ok(found)
}

/// A call of a static method, whether it gives a value or not. Answers what it asks for.
pub fn static_call_itself(
    alloc: Global,
    site: &Site<'_>,
    place: u32,
    class: &ClassName,
    name: &Units,
    given: &Option<Items<StaticType>>,
    walk: &mut Walk,
) -> Result<Option<Target>, AllocError>
    ensures walked { IfOk result (λ _. walk.new ≡ spec.note_static_call_itself (site_of site.now) place class.now name.now (option_map (map view_static) given.now) walk.old) }
    ensures target { IfOk result (λ target. option_map view_target target ≡ class_target (context_of (site_of site.now)) class.now name.now (option_map (map view_static) given.now)) }
{
    let named = may_name_member(alloc, site, class, name)?;
    let target = class_target(alloc, &site.classes, class, name, given)?;
    let found = given_type(alloc, &target)?;
    walk.note(place, TypeKind::Name, named);
    walk.note(place, TypeKind::Call, is_meant(given, &target));
    walk.note_whole(alloc, site, place, &found)?;
    Ok(target)
}

/// A call of a static method.
pub fn static_call(
    alloc: Global,
    site: &Site<'_>,
    place: u32,
    class: &ClassName,
    name: &Units,
    given: &Option<Items<StaticType>>,
    walk: &mut Walk,
) -> Result<Option<StaticType>, AllocError>
    ensures walked { IfOk result (λ _. walk.new ≡ spec.note_static_call (site_of site.now) place class.now name.now (option_map (map view_static) given.now) walk.old) }
    ensures typed { IfOk result (λ found. option_map view_static found ≡ spec.static_call_type (site_of site.now) class.now name.now (option_map (map view_static) given.now)) }
{
    let target = static_call_itself(alloc, site, place, class, name, given, walk)?;
    let found = given_type(alloc, &target)?;
    walk.note(place, TypeKind::WrongType, gives_value(&target));
    Ok(found)
}

/// Whether `super` and a name of a method can stand so.
fn may_call_super(site: &Site<'_>, above: &Option<ClassName>, name: &Units) -> bool
    ensures may { result ≡ ((site_of site.now).has_this && has_super (site_of site.now) above.now && is_identifier name.now) }
{
    site.has_this && has_super(site, above) && can_name(name)
}

/// Whether a call behind `super` means a method that isn't abstract, where its arguments have types.
fn is_meant_above(
    alloc: Global,
    site: &Site<'_>,
    above: &Option<ClassName>,
    name: &Units,
    given: &Option<Items<StaticType>>,
    target: &Option<Target>,
) -> Result<bool, AllocError>
    ensures meant { IfOk result (λ meant. meant ≡ (is_meant (option_map (map view_static) given.now) (option_map view_target target.now) && not (means_abstract (site_of site.now) above.now name.now (option_map (map view_static) given.now)))) }
{
    let abstracted = means_abstract(alloc, site, above, name, given)?;
    Ok(is_meant(given, target) && !abstracted)
}

/// A call behind `super`, whether it gives a value or not. Answers what it asks for.
pub fn super_call_itself(
    alloc: Global,
    site: &Site<'_>,
    place: u32,
    above: &Option<ClassName>,
    name: &Units,
    given: &Option<Items<StaticType>>,
    walk: &mut Walk,
) -> Result<Option<Target>, AllocError>
    ensures walked { IfOk result (λ _. walk.new ≡ spec.note_super_call_itself (site_of site.now) place above.now name.now (option_map (map view_static) given.now) walk.old) }
    ensures target { IfOk result (λ target. option_map view_target target ≡ super_target (context_of (site_of site.now)) above.now name.now (option_map (map view_static) given.now)) }
{
    let target = super_target(alloc, &site.classes, above, name, given)?;
    let meant = is_meant_above(alloc, site, above, name, given, &target)?;
    let found = given_type(alloc, &target)?;
    walk.note(place, TypeKind::Name, may_call_super(site, above, name));
    walk.note(place, TypeKind::Call, meant);
    walk.note_whole(alloc, site, place, &found)?;
    Ok(target)
}

/// A call behind `super`.
pub fn super_call(
    alloc: Global,
    site: &Site<'_>,
    place: u32,
    above: &Option<ClassName>,
    name: &Units,
    given: &Option<Items<StaticType>>,
    walk: &mut Walk,
) -> Result<Option<StaticType>, AllocError>
    ensures walked { IfOk result (λ _. walk.new ≡ spec.note_super_call (site_of site.now) place above.now name.now (option_map (map view_static) given.now) walk.old) }
    ensures typed { IfOk result (λ found. option_map view_static found ≡ spec.super_call_type (site_of site.now) above.now name.now (option_map (map view_static) given.now)) }
{
    let target = super_call_itself(alloc, site, place, above, name, given, walk)?;
    let found = given_type(alloc, &target)?;
    walk.note(place, TypeKind::WrongType, gives_value(&target));
    Ok(found)
}

/// Whether objects of a class are made by a constructor that is meant, where its arguments have types.
fn is_made(
    site: &Site<'_>,
    class: &ClassName,
    given: &Option<Items<StaticType>>,
    target: &Option<Target>,
) -> bool
    ensures made { result ≡ (not (is_abstract (site_of site.now).headers class.now) && is_meant (option_map (map view_static) given.now) (option_map view_target target.now)) }
{
    !has_flag(site.classes.headers, class, 0x0600) && is_meant(given, target)
}

/// A new object.
pub fn new(
    alloc: Global,
    site: &Site<'_>,
    place: u32,
    class: &ClassName,
    given: &Option<Items<StaticType>>,
    walk: &mut Walk,
) -> Result<Option<StaticType>, AllocError>
    ensures walked { IfOk result (λ _. walk.new ≡ spec.note_new (site_of site.now) place class.now (option_map (map view_static) given.now) walk.old) }
    ensures typed { IfOk result (λ found. option_map view_static found ≡ Some (Of (Class class.now))) }
{
    let named = may_name(alloc, site, class)?;
    let target = new_target(alloc, &site.classes, class, given)?;
    let found = object_type(alloc, class)?;
    walk.note(place, TypeKind::Name, named);
    walk.note(place, TypeKind::Call, is_made(site, class, given, &target));
    Ok(found)
}
