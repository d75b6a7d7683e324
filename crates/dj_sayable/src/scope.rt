//! What is in scope in a class, and which names of classes its text can say by that (JLS 6.4.2).

ghost use Rattle.std.specs.Prelude.{◌≡◌, ◌↔◌, ◌++◌, ◌∷◌, List, [], Any, Contains, IsTrue, OnOk, IfOk};
ghost use Rattle.dj_names.specs.declared.header.Header.{Header};
ghost use Rattle.dj_names.specs.declared.members.ClassMembers.{ClassMembers};
ghost use Rattle.dj_names.specs.Headers.{Name, names};
ghost use Rattle.dj_members.specs.Tables.{field_names};
ghost use Rattle.dj_sayable.specs.Saying.{HasPackage, DeclaresField, HasFieldInScope, HasClassInFront, IsUnobscured, IsTakenForPackage, CanBeSaid, first_segment};
ghost use Rattle.dj_sayable.specs.Scopes.{IsScope};
ghost use Rattle.dj_sayable.specs.Gathering.{Gains};

use crate::above::all_above;
use crate::segments::{SLASH, first_segment, has_package, package_of};
use dj_headers::Headers;
use dj_members::NameTable;
use dj_names::{ClassName, Field, Items, Members, Units, is_sayable};
use std::alloc::{AllocError, Global};

/// `java/lang/`, in units.
const CORE_PACKAGE: [u16; 10] = [106, 97, 118, 97, 47, 108, 97, 110, 103, 47];

/// A class, and the names of the fields in scope in it.
#[derive(Drop)]
pub struct Scope {
    class: ClassName,
    fields: NameTable,
}

/// Puts the names of fields behind the others.
fn add_names(names: &mut NameTable, fields: &[Field]) -> Result<(), AllocError>
    ensures added { OnOk result (names.new ≡ names.old ++ field_names fields.now) }
{
    for field in fields {
        names.push(&field.name)?;
    }
    Ok(())
}

/// The fields that a class declares, none where it isn't there.
fn fields_in<'a>(headers: &Headers, members: &'a Members, class: &ClassName) -> &'a [Field]
    ensures fields { (field : Name) → Contains (field_names result.now) field ↔ DeclaresField headers.now members.now.classes field class.now }
{
    if headers.as_slice().is_empty() {
        return &[];
    }
    match headers.place(class) {
        None => &[],
        Some(at) => match members.classes.get(at) {
            None => &[],
            Some(declared) => declared.fields.as_slice(),
        },
    }
}

/// The names of the fields that these classes declare.
fn fields_of(
    alloc: Global,
    headers: &Headers,
    members: &Members,
    classes: &[ClassName],
) -> Result<NameTable, AllocError>
    ensures gains { IfOk result (λ names. Gains [] names (λ field. Any (DeclaresField headers.now members.now.classes field) classes.now)) }
{
    let mut names = NameTable::new(alloc);
    for class in classes {
        add_names(&mut names, fields_in(headers, members, class))?;
    }
    Ok(names)
}

/// The class of this simple name in a package.
fn class_in(alloc: Global, prefix: &[u16], simple: &[u16]) -> Result<ClassName, AllocError>
    ensures joined { IfOk result (λ name. name ≡ prefix.now ++ simple.now) }
{
    let mut units = Vec::from_slice(alloc, prefix)?;
    units.extend_from_slice(simple)?;
    Ok(ClassName::new(Units::from_vec(units)?))
}

/// Whether a name is among others.
pub fn is_among(names: &NameTable, name: &Units) -> bool
    ensures among { IsTrue result ↔ Contains names.now name.now }
{
    names.last(name).is_some()
}

/// Whether a class has a header.
fn is_known(headers: &Headers, class: &ClassName) -> bool
    ensures known { IsTrue result ↔ Contains (names headers.now) class.now }
{
    headers.place(class).is_some()
}

/// Whether a slash stands behind the name of a class in a package.
fn is_behind_class(
    alloc: Global,
    headers: &Headers,
    front: &[u16],
    unit: u16,
) -> Result<bool, AllocError>
    ensures behind { IfOk result (λ is. IsTrue is ↔ ((unit ≡ 47) × HasPackage front.now × Contains (names headers.now) front.now)) }
{
    if unit != SLASH || !has_package(front) {
        return Ok(false);
    }
    let class = ClassName::new(Units::from_slice(alloc, front)?);
    Ok(is_known(headers, &class))
}

/// Whether a front of a name, of two segments or more but not of all, is the name of a class.
fn has_class_in_front(alloc: Global, headers: &Headers, name: &[u16]) -> Result<bool, AllocError>
    ensures front { IfOk result (λ has. IsTrue has ↔ HasClassInFront headers.now name.now) }
{
    for (at, unit) in name.iter().enumerate() {
        if is_behind_class(alloc, headers, &name[..at], *unit)? {
            return Ok(true);
        }
    }
    Ok(false)
}

/// Whether neither of two classes has a header.
fn are_unknown(headers: &Headers, first: &ClassName, second: &ClassName) -> bool
    ensures unknown { IsTrue result ↔ (¬ Contains (names headers.now) first.now × ¬ Contains (names headers.now) second.now) }
{
    !is_known(headers, first) && !is_known(headers, second)
}

/// Whether the first segment of a name is taken for a package in a class.
fn is_taken_for_package(
    alloc: Global,
    headers: &Headers,
    class: &ClassName,
    name: &ClassName,
) -> Result<bool, AllocError>
    ensures taken { IfOk result (λ taken. IsTrue taken ↔ IsTakenForPackage headers.now class.now name.now) }
{
    let first = first_segment(name.as_slice());
    let beside = class_in(alloc, package_of(class.as_slice()), first)?;
    let core = class_in(alloc, &CORE_PACKAGE, first)?;
    Ok(are_unknown(headers, &beside, &core))
}

/// A class alone.
fn one_class(alloc: Global, class: &ClassName) -> Result<Items<ClassName>, AllocError>
    ensures one { IfOk result (λ classes. classes ≡ class.now ∷ []) }
{
    let mut classes = Items::new(alloc);
    classes.push(class.copy(alloc)?)?;
    Ok(classes)
}

/// The names of the fields in scope in a class.
fn fields_in_scope(
    alloc: Global,
    headers: &Headers,
    members: &Members,
    class: &ClassName,
) -> Result<NameTable, AllocError>
    ensures fields { IfOk result (λ fields. (field : Name) → Contains fields field ↔ HasFieldInScope headers.now members.now.classes class.now field) }
{
    let own = one_class(alloc, class)?;
    let all = all_above(alloc, headers, own.as_slice())?;
    let fields = fields_of(alloc, headers, members, all.as_slice())?;
    Ok(fields)
}

impl Scope {
    /// The scope of a class.
    pub fn new(
        alloc: Global,
        headers: &Headers,
        members: &Members,
        class: &ClassName,
    ) -> Result<Scope, AllocError>
        ensures scope { IfOk result (IsScope headers.now members.now.classes class.now) }
    {
        let fields = fields_in_scope(alloc, headers, members, class)?;
        Ok(Scope {
            class: class.copy(alloc)?,
            fields,
        })
    }

    /// Whether the first segment of a name is taken for no field.
    fn is_no_field(&self, alloc: Global, name: &ClassName) -> Result<bool, AllocError>
        ensures free { IfOk result (λ free. (headers : List Header) (members : List ClassMembers) (class : Name) → IsScope headers members class self.now → IsTrue free ↔ ¬ HasFieldInScope headers members class (first_segment name.now)) }
    {
        let first = Units::from_slice(alloc, first_segment(name.as_slice()))?;
        Ok(!is_among(&self.fields, &first))
    }

    /// Whether each segment of a name is an identifier, the first is taken for no variable and no field,
    /// and no package in front for a class.
    pub fn is_unobscured(
        &self,
        alloc: Global,
        headers: &Headers,
        name: &ClassName,
    ) -> Result<bool, AllocError>
        ensures unobscured { IfOk result (λ yes. (members : List ClassMembers) (class : Name) → IsScope headers.now members class self.now → IsTrue yes ↔ IsUnobscured headers.now members class name.now) }
    {
        if !is_sayable(name.as_slice()) {
            return Ok(false);
        }
        if !self.is_no_field(alloc, name)? {
            return Ok(false);
        }
        let hidden = has_class_in_front(alloc, headers, name.as_slice())?;
        Ok(!hidden)
    }

    /// Whether the text of the class can say a name.
    pub fn can_be_said(
        &self,
        alloc: Global,
        headers: &Headers,
        name: &ClassName,
    ) -> Result<bool, AllocError>
        ensures said { IfOk result (λ said. (members : List ClassMembers) (class : Name) → IsScope headers.now members class self.now → IsTrue said ↔ CanBeSaid headers.now members class name.now) }
    {
        if !self.is_unobscured(alloc, headers, name)? {
            return Ok(false);
        }
        if has_package(name.as_slice()) {
            let taken = is_taken_for_package(alloc, headers, &self.class, name)?;
            Ok(taken)
        } else {
            Ok(!has_package(self.class.as_slice()))
        }
    }
}
