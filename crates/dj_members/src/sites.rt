//! The members of all classes by their names.

ghost use Rattle.std.specs.Prelude.{◌≡◌, ◌<◌, ◌^◌, ℕ, List, [], ◌∷◌, ◌++◌, true, false, Some, OnOk, OnErr, length, slice_get};
ghost use Rattle.dj_members.specs.Tables.{field_names, method_names, member_names, IsListed, Lists, Grows};

use crate::name_table::NameTable;
use dj_names::{ClassMembers, Field, Items, Member, MethodHead, Units};
use std::alloc::{AllocError, Global};

/// Members with their names. One whose class was refused for want of memory may stand here too.
#[derive(Drop)]
pub struct Sites {
    pub names: NameTable,
    pub members: Items<Member>,
}

impl Sites {
    /// No members.
    pub fn new(alloc: Global) -> Sites
        ensures names { result.names ≡ [] }
        ensures members { result.members ≡ [] }
    {
        Sites {
            names: NameTable::new(alloc),
            members: Items::new(alloc),
        }
    }

    /// Puts a member behind the others.
    fn push(&mut self, name: &Units, member: Member) -> Result<(), AllocError>
        requires size { length self.old.names ≡ length self.old.members }
        ensures listed { OnOk result (IsListed self.new.names self.new.members member name.now) }
        ensures grows { Grows self.old.names self.old.members self.new.names self.new.members }
    {
        self.members.push(member)?;
        match self.names.push(name) {
            Ok(()) => Ok(()),
            Err(error) => {
                self.members.pop();
                Err(error)
            }
        }
    }

    /// Puts the fields of a class behind the others.
    fn add_fields(&mut self, class: u32, fields: &[Field]) -> Result<(), AllocError>
        requires size { length self.old.names ≡ length self.old.members }
        requires fits { length fields.now < 2 ^ 32 }
        ensures listed { OnOk result (Lists class false (field_names fields.now) self.new.names self.new.members) }
        ensures grows { Grows self.old.names self.old.members self.new.names self.new.members }
    {
        for (number, field) in fields.iter().enumerate() {
            let number = number as u32;
            self.push(
                &field.name,
                Member {
                    class,
                    method: false,
                    number,
                },
            )?;
        }
        Ok(())
    }

    /// Puts the methods of a class behind the others.
    fn add_methods(&mut self, class: u32, methods: &[MethodHead]) -> Result<(), AllocError>
        requires size { length self.old.names ≡ length self.old.members }
        requires fits { length methods.now < 2 ^ 32 }
        ensures listed { OnOk result (Lists class true (method_names methods.now) self.new.names self.new.members) }
        ensures grows { Grows self.old.names self.old.members self.new.names self.new.members }
    {
        for (number, method) in methods.iter().enumerate() {
            let number = number as u32;
            self.push(
                &method.name,
                Member {
                    class,
                    method: true,
                    number,
                },
            )?;
        }
        Ok(())
    }

    /// Puts the members of a class behind the others.
    pub fn add(&mut self, class: u32, own: &ClassMembers) -> Result<(), AllocError>
        requires size { length self.old.names ≡ length self.old.members }
        requires fields { length own.now.fields < 2 ^ 32 }
        requires methods { length own.now.methods < 2 ^ 32 }
        ensures fields { OnOk result (Lists class false (field_names own.now.fields) self.new.names self.new.members) }
        ensures methods { OnOk result (Lists class true (method_names own.now.methods) self.new.names self.new.members) }
        ensures grows { Grows self.old.names self.old.members self.new.names self.new.members }
    {
        self.add_fields(class, own.fields.as_slice())?;
        self.add_methods(class, own.methods.as_slice())?;
        Ok(())
    }
}
