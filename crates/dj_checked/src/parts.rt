//! Expressions with parts, which are looked at already, by the types of these.

ghost use Rattle.std.specs.Prelude.{◌≡◌, ◌+◌, ◌==◌, ◌^◌, ◌<◌, ◌&&◌, not, IfOk, Some, is_some, option_and_then};
ghost use Rattle.std.specs.Option.{option_map, option_copied};
ghost use Rattle.dj_names.specs.Types.{Of, Boolean, view_type, view_static};
ghost use Rattle.dj_values.specs.Deciding.{is_array};
ghost use Rattle.dj_meaning.specs.Promotions.{promoted};
ghost use Rattle.dj_meaning.specs.StaticTypes as types;
ghost use Rattle.dj_typing.specs.Operands.{if_typed};
ghost use Rattle.dj_typing.specs.Sites.{may_name_type};
ghost use Rattle.dj_checked.specs.Sites.{site_of};
ghost use Rattle.dj_checked.specs.Walks as spec;

use crate::given::{copied, is_typed, plain, selected_type};
use crate::leaves::is_declared;
use crate::operands::{Test, agree_both, casts, goes, if_of, is_asked, passes, takes_both};
use crate::site::{Site, can_name, may_name_type};
use crate::walk::Walk;
use dj_names::{JType, StaticType, Units};
use dj_operators::{promoted, result_type};
use dj_places::TypeKind;
use dj_static::{array_of, element_of};
use dj_syntax::Op;
use std::alloc::{AllocError, Global};

/// The type of what a name selects of an object that may have a type.
fn selection_of(
    alloc: Global,
    site: &Site<'_>,
    object: &Option<StaticType>,
    name: &Units,
) -> Result<Option<StaticType>, AllocError>
    ensures typed { IfOk result (λ found. option_map view_static found ≡ spec.field_type (site_of site.now) name.now (option_map view_static object.now)) }
{
    match plain(object) {
        None => Ok(None),
        Some(kind) => selected_type(alloc, &site.classes, kind, name),
    }
}

/// Whether there is a type of what a name selects, where the object has one.
fn is_selected(object: &Option<StaticType>, found: &Option<StaticType>) -> bool
    ensures selected { result ≡ if_typed (option_map view_static object.now) (λ _. is_some (option_map view_static found.now)) }
{
    match object {
        None => true,
        Some(_) => is_typed(found),
    }
}

/// What a name selects of an object.
pub fn field(
    alloc: Global,
    site: &Site<'_>,
    place: u32,
    object: &Option<StaticType>,
    name: &Units,
    walk: &mut Walk,
) -> Result<Option<StaticType>, AllocError>
    ensures walked { IfOk result (λ _. walk.new ≡ spec.note_field (site_of site.now) place name.now (option_map view_static object.now) walk.old) }
    ensures typed { IfOk result (λ found. option_map view_static found ≡ spec.field_type (site_of site.now) name.now (option_map view_static object.now)) }
{
    let found = selection_of(alloc, site, object, name)?;
    walk.note(place, TypeKind::Name, can_name(name));
    walk.note(place, TypeKind::Access, is_selected(object, &found));
    walk.note_whole(alloc, site, place, &found)?;
    Ok(found)
}

/// The type of the elements of an array that may have a type.
fn element_type(alloc: Global, array: &Option<StaticType>) -> Result<Option<StaticType>, AllocError>
    ensures typed { IfOk result (λ found. option_map view_static found ≡ spec.element_type (option_map view_static array.now)) }
{
    match plain(array) {
        None => Ok(None),
        Some(kind) => copied(alloc, element_of(kind)),
    }
}

/// An element of an array.
pub fn element(
    alloc: Global,
    site: &Site<'_>,
    place: u32,
    array: &Option<StaticType>,
    index: &Option<StaticType>,
    walk: &mut Walk,
) -> Result<Option<StaticType>, AllocError>
    ensures walked { IfOk result (λ _. walk.new ≡ spec.note_element (site_of site.now) place (option_map view_static array.now) (option_map view_static index.now) walk.old) }
    ensures typed { IfOk result (λ found. option_map view_static found ≡ spec.element_type (option_map view_static array.now)) }
{
    let found = element_type(alloc, array)?;
    walk.note(place, TypeKind::WrongType, if_of(Test::Array, array));
    walk.note(place, TypeKind::WrongType, if_of(Test::Int, index));
    walk.note_whole(alloc, site, place, &found)?;
    Ok(found)
}

/// Whether the innermost elements of a new array can be named, are no arrays, and there is a size.
fn may_make_array(
    alloc: Global,
    site: &Site<'_>,
    kind: &JType,
    sized: bool,
) -> Result<bool, AllocError>
    ensures may { IfOk result (λ may. may ≡ (may_name_type (site_of site.now) (view_type kind.now) && not (is_array (view_type kind.now)) && sized)) }
{
    let named = may_name_type(alloc, site, kind)?;
    Ok(named && !passes(Test::Array, kind) && sized)
}

/// A new array, of so many sizes and so many dimensions more.
pub fn new_array(
    alloc: Global,
    site: &Site<'_>,
    place: u32,
    kind: &JType,
    sizes: usize,
    indexed: bool,
    more: u32,
    walk: &mut Walk,
) -> Result<Option<StaticType>, AllocError>
    requires few { sizes + more < 2 ^ 64 }
    ensures walked { IfOk result (λ _. walk.new ≡ spec.note_new_array (site_of site.now) place (view_type kind.now) (not (sizes == 0)) indexed walk.old) }
    ensures typed { IfOk result (λ found. option_map view_static found ≡ Some (Of (types.array_of (sizes + more) (view_type kind.now)))) }
{
    let named = may_make_array(alloc, site, kind, sizes != 0)?;
    let array = array_of(alloc, sizes as u64 + u64::from(more), kind)?;
    walk.note(place, TypeKind::Name, named);
    walk.note(place, TypeKind::WrongType, indexed);
    Ok(Some(StaticType::Of(array)))
}

/// A cast.
pub fn cast(
    alloc: Global,
    site: &Site<'_>,
    place: u32,
    kind: &JType,
    operand: &Option<StaticType>,
    walk: &mut Walk,
) -> Result<Option<StaticType>, AllocError>
    ensures walked { IfOk result (λ _. walk.new ≡ spec.note_cast (site_of site.now) place (view_type kind.now) (option_map view_static operand.now) walk.old) }
    ensures typed { IfOk result (λ found. option_map view_static found ≡ Some (Of (view_type kind.now))) }
{
    let named = may_name_type(alloc, site, kind)?;
    let found = copied(alloc, Some(kind))?;
    walk.note(place, TypeKind::Name, named);
    walk.note(
        place,
        TypeKind::WrongType,
        casts(site.classes.headers, operand, kind),
    );
    Ok(found)
}

/// A test of a type.
pub fn instance_of(
    alloc: Global,
    site: &Site<'_>,
    place: u32,
    operand: &Option<StaticType>,
    kind: &JType,
    walk: &mut Walk,
) -> Result<Option<StaticType>, AllocError>
    ensures walked { IfOk result (λ _. walk.new ≡ spec.note_instance_of (site_of site.now) place (view_type kind.now) (option_map view_static operand.now) walk.old) }
    ensures typed { IfOk result (λ found. option_map view_static found ≡ Some (Of Boolean)) }
{
    let named = may_name_type(alloc, site, kind)?;
    walk.note(place, TypeKind::Name, named);
    walk.note(
        place,
        TypeKind::WrongType,
        is_asked(site.classes.headers, operand, kind),
    );
    Ok(Some(StaticType::Of(JType::Boolean)))
}

/// The type of a number with its sign changed.
fn negated(operand: &Option<StaticType>) -> Option<StaticType>
    ensures typed { option_map view_static result ≡ types.typed (option_and_then promoted (types.plain (option_map view_static operand.now))) }
{
    match plain(operand) {
        None => None,
        Some(kind) => match promoted(kind) {
            None => None,
            Some(number) => Some(StaticType::Of(number.kind())),
        },
    }
}

/// A number with its sign changed.
pub fn negative(place: u32, operand: &Option<StaticType>, walk: &mut Walk) -> Option<StaticType>
    ensures walked { walk.new ≡ spec.note_negative place (option_map view_static operand.now) walk.old }
    ensures typed { option_map view_static result ≡ types.typed (option_and_then promoted (types.plain (option_map view_static operand.now))) }
{
    walk.note(place, TypeKind::WrongType, if_of(Test::Number, operand));
    negated(operand)
}

/// A condition that is turned round.
pub fn opposite(place: u32, operand: &Option<StaticType>, walk: &mut Walk) -> Option<StaticType>
    ensures walked { walk.new ≡ spec.note_not place (option_map view_static operand.now) walk.old }
    ensures typed { option_map view_static result ≡ Some (Of Boolean) }
{
    walk.note(place, TypeKind::WrongType, if_of(Test::Boolean, operand));
    Some(StaticType::Of(JType::Boolean))
}

/// The type of an operator's result.
fn result_of(
    operator: Op,
    left: &Option<StaticType>,
    right: &Option<StaticType>,
) -> Option<StaticType>
    ensures typed { option_map view_static result ≡ spec.binary_type operator (option_map view_static left.now) (option_map view_static right.now) }
{
    match result_type(operator, plain(left), plain(right)) {
        None => None,
        Some(kind) => Some(StaticType::Of(kind)),
    }
}

/// An operator with two operands.
pub fn binary(
    site: &Site<'_>,
    place: u32,
    operator: Op,
    left: &Option<StaticType>,
    right: &Option<StaticType>,
    walk: &mut Walk,
) -> Option<StaticType>
    ensures walked { walk.new ≡ spec.note_binary (site_of site.now) place operator (option_map view_static left.now) (option_map view_static right.now) walk.old }
    ensures typed { option_map view_static result ≡ spec.binary_type operator (option_map view_static left.now) (option_map view_static right.now) }
{
    let taken = takes_both(site.classes.headers, operator, left, right);
    walk.note(place, TypeKind::WrongType, taken);
    result_of(operator, left, right)
}

/// The type of a choice.
fn chosen(first: Option<StaticType>, second: Option<StaticType>) -> Option<StaticType>
    ensures typed { option_map view_static result ≡ types.choice_type (option_map view_static first) (option_map view_static second) }
{
    match first {
        None => None,
        Some(StaticType::Null) => second,
        Some(StaticType::Of(kind)) => Some(StaticType::Of(kind)),
    }
}

/// A choice.
pub fn choice(
    place: u32,
    test: &Option<StaticType>,
    first: Option<StaticType>,
    second: Option<StaticType>,
    walk: &mut Walk,
) -> Option<StaticType>
    ensures walked { walk.new ≡ spec.note_choice place (option_map view_static test.now) (option_map view_static first) (option_map view_static second) walk.old }
    ensures typed { option_map view_static result ≡ types.choice_type (option_map view_static first) (option_map view_static second) }
{
    walk.note(place, TypeKind::WrongType, if_of(Test::Boolean, test));
    walk.note(place, TypeKind::WrongType, agree_both(&first, &second));
    chosen(first, second)
}

/// An assignment of a variable.
pub fn assign(
    alloc: Global,
    site: &Site<'_>,
    place: u32,
    new: &Option<StaticType>,
    declared: Option<&JType>,
    walk: &mut Walk,
) -> Result<Option<StaticType>, AllocError>
    ensures walked { IfOk result (λ _. walk.new ≡ spec.note_assign (site_of site.now) place (option_map view_type (option_copied declared.entry)) (option_map view_static new.now) walk.old) }
    ensures typed { IfOk result (λ found. option_map view_static found ≡ types.typed (option_map view_type (option_copied declared.entry))) }
{
    let found = copied(alloc, declared)?;
    walk.note(place, TypeKind::Name, is_declared(declared));
    walk.note(
        place,
        TypeKind::WrongType,
        goes(site.classes.headers, new, declared),
    );
    walk.note_whole(alloc, site, place, &found)?;
    Ok(found)
}
