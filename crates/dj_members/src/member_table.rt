//! The members of each class, with tables of their names.

ghost use Rattle.std.specs.Prelude.{◌≡◌, ◌+◌, ◌<◌, ◌^◌, List, [], ◌∷◌, ◌++◌, true, false, Some, IfOk, IfSome, OnOk, OnErr, map, length, slice_get};
ghost use Rattle.std.specs.Option.{option_copied};
ghost use Rattle.dj_names.specs.declared.members.ClassMembers.{ClassMembers};
ghost use Rattle.dj_members.specs.Tables.{field_names, method_names, names_in, Covers};

use crate::name_table::NameTable;
use crate::sites::Sites;
use dj_names::{ClassMembers, Field, Items, Members, MethodHead};
use std::alloc::{AllocError, Global};
use std::marker::Model;

/// The names of a class's fields and methods.
#[derive(Drop)]
pub struct ClassTable {
    pub fields: NameTable,
    pub methods: NameTable,
}

/// The members of each class in the order of the headers, with a table of names for each class.
#[derive(Drop)]
pub struct MemberTable {
    members: Members,
    tables: Items<ClassTable>,
    sites: Sites,
    alloc: Global,
}

impl Model for MemberTable {
    ghost use Rattle.std.specs.Prelude.{List};
    ghost use Rattle.std.specs.Coded.{coded_list};
    ghost use Rattle.dj_names.specs.declared.members.ClassMembers.{ClassMembers};
    ghost use Rattle.dj_names.specs.contracts.members.ClassMembers.{the_row};
    ghost use Rattle.dj_members.specs.Tables.{KeepsTables};

    ghost Value = { List ClassMembers };

    ghost coded = { coded_list the_row.coded };

    ghost view = { λ t. t.members.classes };

    ghost invariant = { λ t. KeepsTables t.members.classes t.tables t.sites.names t.sites.members };
}

impl MemberTable {
    /// The members of no class.
    pub fn new(alloc: Global) -> MemberTable
        ensures empty { result ≡ [] }
    {
        MemberTable {
            members: Members {
                classes: Items::new(alloc),
            },
            tables: Items::new(alloc),
            sites: Sites::new(alloc),
            alloc,
        }
    }

    /// The members of each class, in the order in which they were added.
    pub fn members(&self) -> &Members
        ensures members { result.now.classes ≡ self.now }
    {
        &self.members
    }

    /// Adds the members of one more class, in time near linear in their number.
    pub fn push(&mut self, class: ClassMembers) -> Result<(), AllocError>
        requires room { length self.old + 1 < 2 ^ 32 }
        requires fields { length class.fields < 2 ^ 32 }
        requires methods { length class.methods < 2 ^ 32 }
        ensures ok { OnOk result (self.new ≡ self.old ++ class ∷ []) }
        ensures kept { OnErr result (self.new ≡ self.old) }
    {
        let table = class_table(self.alloc, &class)?;
        self.sites.add(self.members.classes.len() as u32, &class)?;
        self.tables.push(table)?;
        match self.members.classes.push(class) {
            Ok(()) => Ok(()),
            Err(error) => {
                self.tables.pop();
                Err(error)
            }
        }
    }

    /// Takes the members of the last class away.
    pub fn pop(&mut self)
        ensures popped { (front : List ClassMembers) (last : ClassMembers) → self.old ≡ front ++ last ∷ [] → self.new ≡ front }
    {
        self.tables.pop();
        self.members.classes.pop();
    }

    /// The members of the class at a place.
    pub fn at(&self, place: usize) -> Option<&ClassMembers>
        ensures own { option_copied result ≡ slice_get self.now place }
    {
        self.members.classes.get(place)
    }

    /// The names of the members of the class at a place. Its place and theirs fit a `Member`.
    pub fn names_at(&self, place: usize) -> &ClassTable
        requires there { place < length self.now }
        ensures names { (own : ClassMembers) → slice_get self.now place ≡ Some own → result.now ≡ names_in own }
        ensures room { length self.now < 2 ^ 32 }
        ensures fields { (own : ClassMembers) → slice_get self.now place ≡ Some own → length own.fields < 2 ^ 32 }
        ensures methods { (own : ClassMembers) → slice_get self.now place ≡ Some own → length own.methods < 2 ^ 32 }
    {
        &self.tables.as_slice()[place]
    }

    /// Where each name of a member stands.
    pub fn sites(&self) -> &Sites
        ensures covers { Covers self.now result.now.names result.now.members }
        ensures size { length result.now.names ≡ length result.now.members }
    {
        &self.sites
    }
}

/// The names of fields, in order.
fn names_of_fields(alloc: Global, fields: &[Field]) -> Result<NameTable, AllocError>
    ensures names { IfOk result (λ names. names ≡ field_names fields.now) }
{
    let mut names = NameTable::new(alloc);
    for field in fields {
        names.push(&field.name)?;
    }
    Ok(names)
}

/// The names of methods, in order.
fn names_of_methods(alloc: Global, methods: &[MethodHead]) -> Result<NameTable, AllocError>
    ensures names { IfOk result (λ names. names ≡ method_names methods.now) }
{
    let mut names = NameTable::new(alloc);
    for method in methods {
        names.push(&method.name)?;
    }
    Ok(names)
}

/// The names of a class's members.
fn class_table(alloc: Global, class: &ClassMembers) -> Result<ClassTable, AllocError>
    ensures names { IfOk result (λ table. table ≡ names_in class.now) }
{
    let fields = names_of_fields(alloc, class.fields.as_slice())?;
    let methods = names_of_methods(alloc, class.methods.as_slice())?;
    Ok(ClassTable { fields, methods })
}
