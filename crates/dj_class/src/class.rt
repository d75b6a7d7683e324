//! A class as its file describes it, and the reader of class files (JVMS 4.1).

ghost use Rattle.std.specs.Prelude.{◌≡◌, IfOk, IfErr};
ghost use Rattle.dj_layout.specs.declared.fault.Fault.{Fault};
ghost use Rattle.dj_pool.specs.declared.fault.BrokenKind as spec;
ghost use Rattle.dj_class.specs.Described.{ClassOf, SpellsClass, HasFault};
ghost use Rattle.dj_class.specs.Views.{view_class, IsBroken, GivesClass, GivesFault};
ghost use Rattle.dj_class.specs.FileParts.{ReadsFile};

use crate::copies::copy_methods;
use crate::fault::{ClassFault, fault_of};
use crate::front::read_front;
use crate::listed::{Members, sound_at};
use crate::method::Method;
use crate::own::OwnNames;
use dj_layout::Stop;
use dj_names::{ClassName, Field, Items, copy_fields, copy_names};
use dj_pool::{BrokenKind, Pool};
use std::alloc::{AllocError, Global};

/// A class as its file describes it.
#[derive(Drop)]
pub struct ClassFile {
    pub minor: u16,
    pub major: u16,
    pub pool: Pool,
    pub flags: u16,
    pub this_class: ClassName,
    pub super_class: Option<ClassName>,
    pub interfaces: Items<ClassName>,
    pub fields: Items<Field>,
    pub methods: Items<Method>,
}

impl ClassFile {
    /// An equal class, which shares its names and its types with this one.
    pub fn copy(&self, alloc: Global) -> Result<ClassFile, AllocError>
        ensures equal { IfOk result (λ copy. copy ≡ self.now) }
    {
        // Each part is one value till all are there, so that an exit between them drops little.
        let pool = self.pool.copy(alloc)?;
        let own = self.copy_own(alloc)?;
        let members = self.copy_members(alloc)?;
        Ok(ClassFile {
            minor: self.minor,
            major: self.major,
            pool,
            flags: own.flags,
            this_class: own.this_class,
            super_class: own.super_class,
            interfaces: members.interfaces,
            fields: members.fields,
            methods: members.methods,
        })
    }

    fn copy_own(&self, alloc: Global) -> Result<OwnNames, AllocError>
        ensures flags { IfOk result (λ own. own.flags ≡ self.now.flags) }
        ensures class { IfOk result (λ own. own.this_class ≡ self.now.this_class) }
        ensures superclass { IfOk result (λ own. own.super_class ≡ self.now.super_class) }
    {
        let super_class = match &self.super_class {
            Some(name) => Some(name.copy(alloc)?),
            None => None,
        };
        Ok(OwnNames {
            flags: self.flags,
            this_class: self.this_class.copy(alloc)?,
            super_class,
        })
    }

    fn copy_members(&self, alloc: Global) -> Result<Members, AllocError>
        ensures interfaces { IfOk result (λ members. members.interfaces ≡ self.now.interfaces) }
        ensures fields { IfOk result (λ members. members.fields ≡ self.now.fields) }
        ensures methods { IfOk result (λ members. members.methods ≡ self.now.methods) }
    {
        Ok(Members {
            interfaces: copy_names(alloc, self.interfaces.as_slice())?,
            fields: copy_fields(alloc, self.fields.as_slice())?,
            methods: copy_methods(alloc, self.methods.as_slice())?,
        })
    }
}

/// The class of the bytes, or their fault.
fn read_file(alloc: Global, bytes: &[u8], oldest: u16) -> Result<ClassFile, Stop<BrokenKind>>
    ensures reads { ReadsFile bytes.now oldest result }
{
    let front = read_front(alloc, oldest, bytes)?;
    let pool = Pool::new(alloc, front.pool)?;
    let ((own, members), _rest) = sound_at(alloc, oldest, &pool, bytes, bytes.len())?;
    Ok(ClassFile {
        minor: front.minor,
        major: front.major,
        pool,
        flags: own.flags,
        this_class: own.this_class,
        super_class: own.super_class,
        interfaces: members.interfaces,
        fields: members.fields,
        methods: members.methods,
    })
}

/// The class whose file the bytes are, of a major version from `oldest` to 52.
pub fn read_class(alloc: Global, bytes: &[u8], oldest: u16) -> Result<ClassFile, ClassFault>
    // What is read is the class of the bytes.
    ensures read { IfOk result (λ class. SpellsClass bytes.now oldest (view_class class)) }
    // What is broken is so at the first fault of the bytes.
    ensures broken { IfErr result (IsBroken bytes.now oldest) }
    // The class of the bytes is read, unless memory runs out.
    ensures value { (class : ClassOf) → SpellsClass bytes.now oldest class → GivesClass result class }
    // The fault of the bytes is answered, unless memory runs out.
    ensures fault { (fault : Fault spec.BrokenKind) → HasFault bytes.now oldest fault → GivesFault result fault }
    // Bytes have one class at most.
    ensures one_class { (a b : ClassOf) → SpellsClass bytes.now oldest a → SpellsClass bytes.now oldest b → a ≡ b }
    // Bytes have one fault at most.
    ensures one_fault { (f g : Fault spec.BrokenKind) → HasFault bytes.now oldest f → HasFault bytes.now oldest g → f ≡ g }
{
    match read_file(alloc, bytes, oldest) {
        Ok(class) => Ok(class),
        Err(why) => Err(fault_of(why)),
    }
}
