//! The causes of a class and of its members; each member's is found once.

ghost use Rattle.std.specs.Prelude.{◌≡◌, ◌↔◌, ◌<◌, None, length, Contains, IsTrue, IsSomeAnd, IfOk, slice_get};
ghost use Rattle.dj_class.specs.Described.{ClassOf};
ghost use Rattle.dj_class.specs.Views.{view_class};
ghost use Rattle.dj_world.specs.Worlds.{WorldOf};
ghost use Rattle.dj_names.specs.Headers.{Name};
ghost use Rattle.dj_causes.specs.ClassCauses.{IsClassCause};
ghost use Rattle.dj_causes.specs.FieldCauses.{IsFieldCause};
ghost use Rattle.dj_causes.specs.BareCauses.{IsUnsaid, IsBareCause};
ghost use Rattle.dj_signatures.specs.Signatures.{method_names};
ghost use Rattle.dj_causes.specs.Tables.{AreTables, AreCauses, TellsFields, TellsMethods, IsToldOf};

use crate::cause::{Cause, ClassCause, FieldCause};
use crate::tables::Tables;
use dj_class::ClassFile;
use dj_names::{Items, Units};
use dj_world::World;
use std::alloc::{AllocError, Global};
use std::collections::BTreeSet;

/// The causes of a class and of its members.
#[derive(Drop)]
pub struct Causes {
    tables: Tables,
    /// The cause of each field, if it has one, in file order.
    fields: Items<Option<FieldCause>>,
    /// The cause of each method without code, if it has one, in file order; none of one with code.
    methods: Items<Option<Cause>>,
}

/// An equal name, which shares its units with each that was given before.
fn shared(alloc: Global, names: &mut BTreeSet<Units>, name: Units) -> Result<Units, AllocError>
    ensures equal { IfOk result (λ shared. shared ≡ name) }
{
    match names.get(&name) {
        Some(known) => Ok(known.copy(alloc)?),
        None => {
            names.insert(name.copy(alloc)?)?;
            Ok(name)
        }
    }
}

/// An equal cause, whose name is shared.
fn share_field_cause(
    alloc: Global,
    names: &mut BTreeSet<Units>,
    cause: Option<FieldCause>,
) -> Result<Option<FieldCause>, AllocError>
    ensures equal { IfOk result (λ shared. shared ≡ cause) }
{
    match cause {
        Some(FieldCause::Name(name)) => {
            let name = shared(alloc, names, name)?;
            Ok(Some(FieldCause::Name(name)))
        }
        other => Ok(other),
    }
}

/// An equal cause, whose name is shared.
fn share_cause(
    alloc: Global,
    names: &mut BTreeSet<Units>,
    cause: Option<Cause>,
) -> Result<Option<Cause>, AllocError>
    ensures equal { IfOk result (λ shared. shared ≡ cause) }
{
    match cause {
        Some(Cause::Name(name)) => {
            let name = shared(alloc, names, name)?;
            Ok(Some(Cause::Name(name)))
        }
        other => Ok(other),
    }
}

/// The cause of each field of a class, if it has one.
fn field_causes(
    alloc: Global,
    world: &World,
    class: &ClassFile,
    tables: &Tables,
) -> Result<Items<Option<FieldCause>>, AllocError>
    requires made { AreTables world.now (view_class class.now) tables.now }
    ensures told { IfOk result (TellsFields world.now (view_class class.now)) }
{
    let mut causes = Items::new(alloc);
    let mut names = BTreeSet::new(alloc);
    for at in 0..class.fields.len() {
        let found = tables.field_cause(alloc, world, class, at)?;
        let cause = share_field_cause(alloc, &mut names, found)?;
        causes.push(cause)?;
    }
    Ok(causes)
}

/// The cause of the method at a place, if it has no code and has one.
fn method_cause(
    alloc: Global,
    world: &World,
    class: &ClassFile,
    tables: &Tables,
    at: usize,
) -> Result<Option<Cause>, AllocError>
    requires made { AreTables world.now (view_class class.now) tables.now }
    requires within { at < length class.now.methods }
    ensures told { IfOk result (IsToldOf world.now (view_class class.now) at) }
{
    match &class.methods.as_slice()[at].code {
        Some(_) => Ok(None),
        None => {
            let cause = tables.bare_cause(alloc, world, class, at)?;
            Ok(cause)
        }
    }
}

/// The cause of each method of a class that has no code, if it has one.
fn method_causes(
    alloc: Global,
    world: &World,
    class: &ClassFile,
    tables: &Tables,
) -> Result<Items<Option<Cause>>, AllocError>
    requires made { AreTables world.now (view_class class.now) tables.now }
    ensures told { IfOk result (TellsMethods world.now (view_class class.now)) }
{
    let mut causes = Items::new(alloc);
    let mut names = BTreeSet::new(alloc);
    for at in 0..class.methods.len() {
        let found = method_cause(alloc, world, class, tables, at)?;
        let cause = share_cause(alloc, &mut names, found)?;
        causes.push(cause)?;
    }
    Ok(causes)
}

/// An equal cause, if there is one.
fn copy_field_cause(
    alloc: Global,
    cause: &Option<FieldCause>,
) -> Result<Option<FieldCause>, AllocError>
    ensures equal { IfOk result (λ copy. copy ≡ cause.now) }
{
    match cause {
        None => Ok(None),
        Some(cause) => Ok(Some(cause.copy(alloc)?)),
    }
}

/// An equal cause, if there is one.
fn copy_cause(alloc: Global, cause: &Option<Cause>) -> Result<Option<Cause>, AllocError>
    ensures equal { IfOk result (λ copy. copy ≡ cause.now) }
{
    match cause {
        None => Ok(None),
        Some(cause) => Ok(Some(cause.copy(alloc)?)),
    }
}

impl Causes {
    /// The causes of a class and of its members.
    pub fn new(alloc: Global, world: &World, class: &ClassFile) -> Result<Causes, AllocError>
        ensures made { IfOk result (AreCauses world.now (view_class class.now)) }
    {
        let tables = Tables::new(alloc, world, class)?;
        let fields = field_causes(alloc, world, class, &tables)?;
        let methods = method_causes(alloc, world, class, &tables)?;
        Ok(Causes {
            tables,
            fields,
            methods,
        })
    }

    /// Whether a method of the class has this name.
    pub fn has_method(&self, name: &Units) -> bool
        ensures has { (world : WorldOf) (class : ClassOf) → AreCauses world class self.now → IsTrue result ↔ Contains (method_names class.methods) name.now }
    {
        self.tables.has_method(name)
    }

    /// The first cause for which the class isn't printed.
    pub fn class_cause(
        &self,
        alloc: Global,
        world: &World,
        class: &ClassFile,
    ) -> Result<Option<ClassCause>, AllocError>
        requires made { AreCauses world.now (view_class class.now) self.now }
        ensures first { IfOk result (IsClassCause world.now (view_class class.now)) }
    {
        let cause = self.tables.class_cause(alloc, world, class)?;
        Ok(cause)
    }

    /// The first cause for which the field at a place isn't printed.
    pub fn field_cause(
        &self,
        alloc: Global,
        _world: &World,
        _class: &ClassFile,
        at: usize,
    ) -> Result<Option<FieldCause>, AllocError>
        requires made { AreCauses _world.now (view_class _class.now) self.now }
        requires within { at < length _class.now.fields }
        ensures first { IfOk result (IsFieldCause _world.now (view_class _class.now) at) }
    {
        let cause = copy_field_cause(alloc, &self.fields.as_slice()[at])?;
        Ok(cause)
    }

    /// The first cause for which the method at a place, which has no code, isn't printed.
    pub fn bare_cause(
        &self,
        alloc: Global,
        world: &World,
        class: &ClassFile,
        at: usize,
    ) -> Result<Option<Cause>, AllocError>
        requires made { AreCauses world.now (view_class class.now) self.now }
        requires within { at < length class.now.methods }
        ensures first { IfOk result (IsBareCause world.now (view_class class.now) at) }
        // No name of such a method is unsaid, where it has no cause.
        ensures said { IfOk result (λ found. found ≡ None → (name : Name) → ¬ IsSomeAnd (slice_get (view_class class.now).methods at) (λ method. IsUnsaid world.now (view_class class.now) method name)) }
    {
        match &class.methods.as_slice()[at].code {
            Some(_) => {
                let cause = self.tables.bare_cause(alloc, world, class, at)?;
                Ok(cause)
            }
            None => {
                let cause = copy_cause(alloc, &self.methods.as_slice()[at])?;
                Ok(cause)
            }
        }
    }
}
