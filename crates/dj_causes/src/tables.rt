//! What is made once of a class to tell the causes of it and of its members, and the causes.

ghost use Rattle.std.specs.Prelude.{◌≡◌, ◌↔◌, ◌<◌, [], ◌∷◌, ◌++◌, Any, Some, None, map, length, MatchOption, Contains, IsTrue, IsSomeAnd, IfOk, IfSome, slice_get};
ghost use Rattle.dj_names.specs.Headers.{Name};
ghost use Rattle.dj_class.specs.Described.{ClassOf};
ghost use Rattle.dj_class.specs.Views.{view_class, view_field};
ghost use Rattle.dj_sayable.specs.Scopes.{IsScope};
ghost use Rattle.dj_world.specs.Worlds.{WorldOf};
ghost use Rattle.dj_causes.specs.ClassCauses.{IsFirstUnsaid, IsClassCause};
ghost use Rattle.dj_causes.specs.FieldCauses.{IsRepeated, IsUnsaidInField, IsFieldCause, field_names};
ghost use Rattle.dj_causes.specs.BareCauses.{IsUnsaid, IsBareCause};
ghost use Rattle.dj_signatures.specs.Signatures.{method_names};
ghost use Rattle.dj_causes.specs.Tables.{AreTables, IsBareTable};

use crate::bare::{BareTable, has_bare};
use crate::cause::{Cause, ClassCause, FieldCause};
use crate::class_causes::{
    describes_package, first_unsaid_parent, is_annotation, is_enum, is_root, unset_name,
};
use crate::constants::has_wrong_constant;
use crate::types::class_of;
use crate::unsaid::{units_of, unsaid_name};
use dj_class::ClassFile;
use dj_members::NameTable;
use dj_names::{Field, Units, is_identifier};
use dj_sayable::{Scope, is_among};
use dj_signatures::table_of;
use dj_world::World;
use std::alloc::{AllocError, Global};

/// What tells the causes of a class and of its members.
#[derive(Drop)]
pub struct Tables {
    scope: Scope,
    fields: NameTable,
    methods: NameTable,
    /// What the causes of methods without code rest on, where the class has such a method.
    bare: Option<BareTable>,
}

/// The names of fields, in order.
fn names_of_fields(alloc: Global, fields: &[Field]) -> Result<NameTable, AllocError>
    ensures names { IfOk result (λ names. names ≡ field_names (map view_field fields.now)) }
{
    let mut names = NameTable::new(alloc);
    for field in fields {
        names.push(&field.name)?;
    }
    Ok(names)
}

/// What the causes of the methods of a class without code rest on, where it has such a method.
fn bare_table(
    alloc: Global,
    world: &World,
    class: &ClassFile,
    scope: &Scope,
) -> Result<Option<BareTable>, AllocError>
    requires scope { IsScope world.now.headers world.now.members class.now.this_class scope.now }
    ensures made { IfOk result (λ found. IfSome found (IsBareTable world.now (view_class class.now))) }
    ensures none { IfOk result (λ found. found ≡ None → ¬ Any (λ method. method.code ≡ None) class.now.methods) }
{
    if has_bare(class.methods.as_slice()) {
        let table = BareTable::new(alloc, world, class, scope)?;
        Ok(Some(table))
    } else {
        Ok(None)
    }
}

/// The field at a place.
fn field_at(class: &ClassFile, at: usize) -> &Field
    requires within { at < length class.now.fields }
    ensures there { slice_get (view_class class.now).fields at ≡ Some (view_field result.now) }
{
    let fields = class.fields.as_slice();
    &fields[at]
}

/// Whether the name at a place stands before it too.
fn is_repeated(names: &NameTable, at: usize) -> bool
    requires within { at < length names.now }
    ensures repeated { IsTrue result ↔ IsRepeated names.now at }
{
    match names.before(at) {
        Some(_) => true,
        None => false,
    }
}

impl Tables {
    /// What tells the causes of a class and of its members.
    pub fn new(alloc: Global, world: &World, class: &ClassFile) -> Result<Tables, AllocError>
        ensures made { IfOk result (AreTables world.now (view_class class.now)) }
    {
        let scope = Scope::new(alloc, world.headers(), world.members(), &class.this_class)?;
        let bare = bare_table(alloc, world, class, &scope)?;
        let fields = names_of_fields(alloc, class.fields.as_slice())?;
        let methods = table_of(alloc, class.methods.as_slice())?;
        Ok(Tables {
            scope,
            fields,
            methods,
            bare,
        })
    }

    /// Whether a method of the class has this name.
    pub fn has_method(&self, name: &Units) -> bool
        ensures has { (world : WorldOf) (class : ClassOf) → AreTables world class self.now → IsTrue result ↔ Contains (method_names class.methods) name.now }
    {
        is_among(&self.methods, name)
    }

    /// The first of a class's name and those of its parents that its text can't say.
    fn unsaid_in_class(
        &self,
        alloc: Global,
        world: &World,
        class: &ClassFile,
    ) -> Result<Option<Units>, AllocError>
        requires made { AreTables world.now (view_class class.now) self.now }
        ensures first { IfOk result (λ found. MatchOption found ((name : Name) → ¬ IsFirstUnsaid world.now (view_class class.now) name) (IsFirstUnsaid world.now (view_class class.now))) }
    {
        let own = self
            .scope
            .is_unobscured(alloc, world.headers(), &class.this_class)?;
        if own {
            let parent = first_unsaid_parent(alloc, world, &self.scope, class)?;
            Ok(parent)
        } else {
            let units = units_of(alloc, &class.this_class)?;
            Ok(Some(units))
        }
    }

    /// The first cause for which the class isn't printed.
    pub fn class_cause(
        &self,
        alloc: Global,
        world: &World,
        class: &ClassFile,
    ) -> Result<Option<ClassCause>, AllocError>
        requires made { AreTables world.now (view_class class.now) self.now }
        ensures first { IfOk result (IsClassCause world.now (view_class class.now)) }
    {
        if is_enum(class.flags) {
            return Ok(Some(ClassCause::Enum));
        }
        if is_annotation(class.flags) {
            return Ok(Some(ClassCause::Annotation));
        }
        if describes_package(&class.this_class) {
            return Ok(Some(ClassCause::Package));
        }
        if is_root(class) {
            return Ok(Some(ClassCause::Root));
        }
        if let Some(name) = self.unsaid_in_class(alloc, world, class)? {
            return Ok(Some(ClassCause::Name(name)));
        }
        let unset = unset_name(alloc, class)?;
        match unset {
            Some(name) => Ok(Some(ClassCause::Constant(name))),
            None => Ok(None),
        }
    }

    /// The first of a field's own name and its type's that can't be said.
    fn unsaid_in_field(
        &self,
        alloc: Global,
        world: &World,
        class: &ClassFile,
        field: &Field,
    ) -> Result<Option<Units>, AllocError>
        requires made { AreTables world.now (view_class class.now) self.now }
        ensures first { IfOk result (λ found. MatchOption found ((name : Name) → ¬ IsUnsaidInField world.now (view_class class.now) (view_field field.now) name) (IsUnsaidInField world.now (view_class class.now) (view_field field.now))) }
    {
        if !is_identifier(&field.name) {
            return Ok(Some(field.name.copy(alloc)?));
        }
        match class_of(&field.descriptor) {
            Some(name) => {
                let found = unsaid_name(alloc, world, &self.scope, name)?;
                Ok(found)
            }
            None => Ok(None),
        }
    }

    /// The first cause for which the field at a place isn't printed.
    pub fn field_cause(
        &self,
        alloc: Global,
        world: &World,
        class: &ClassFile,
        at: usize,
    ) -> Result<Option<FieldCause>, AllocError>
        requires made { AreTables world.now (view_class class.now) self.now }
        requires within { at < length class.now.fields }
        ensures first { IfOk result (IsFieldCause world.now (view_class class.now) at) }
    {
        let field = field_at(class, at);
        if let Some(name) = self.unsaid_in_field(alloc, world, class, field)? {
            return Ok(Some(FieldCause::Name(name)));
        }
        if is_repeated(&self.fields, at) {
            return Ok(Some(FieldCause::Signature));
        }
        if has_wrong_constant(field) {
            return Ok(Some(FieldCause::Constant));
        }
        Ok(None)
    }

    /// The first cause for which the method at a place, which has no code, isn't printed.
    pub fn bare_cause(
        &self,
        alloc: Global,
        world: &World,
        class: &ClassFile,
        at: usize,
    ) -> Result<Option<Cause>, AllocError>
        requires made { AreTables world.now (view_class class.now) self.now }
        requires within { at < length class.now.methods }
        ensures first { IfOk result (IsBareCause world.now (view_class class.now) at) }
        // No name of such a method is unsaid, where it has no cause.
        ensures said { IfOk result (λ found. found ≡ None → (name : Name) → ¬ IsSomeAnd (slice_get (view_class class.now).methods at) (λ method. IsUnsaid world.now (view_class class.now) method name)) }
    {
        match &self.bare {
            Some(table) => {
                let cause = table.cause(alloc, world, class, &self.scope, at)?;
                Ok(cause)
            }
            None => {
                let table = BareTable::new(alloc, world, class, &self.scope)?;
                let cause = table.cause(alloc, world, class, &self.scope, at)?;
                Ok(cause)
            }
        }
    }
}
