//! Fields and methods as a class file declares them (JVMS 4.5, 4.6).

ghost use Rattle.std.specs.Prelude.{◌≡◌, IfOk};

use crate::class_name::{ClassName, copy_names};
use crate::descriptor::Descriptor;
use crate::types::JType;
use crate::units::Units;
use sqlite_items::Items;
use std::alloc::{AllocError, Global};

/// A constant; a float and a double are kept by their bits.
#[derive(Drop)]
pub enum Constant {
    Int(i32),
    Long(i64),
    Text(Units),
    Float(u32),
    Double(u64),
}

impl Constant {
    /// An equal constant.
    pub fn copy(&self, alloc: Global) -> Result<Constant, AllocError>
        ensures equal { IfOk result (λ copy. copy ≡ self.now) }
    {
        match self {
            Constant::Int(number) => Ok(Constant::Int(*number)),
            Constant::Long(number) => Ok(Constant::Long(*number)),
            Constant::Text(units) => Ok(Constant::Text(units.copy(alloc)?)),
            Constant::Float(bits) => Ok(Constant::Float(*bits)),
            Constant::Double(bits) => Ok(Constant::Double(*bits)),
        }
    }
}

/// A field, and its constant value where it has one.
#[derive(Drop)]
pub struct Field {
    pub flags: u16,
    pub name: Units,
    pub descriptor: JType,
    pub constant: Option<Constant>,
}

impl Field {
    /// An equal field.
    pub fn copy(&self, alloc: Global) -> Result<Field, AllocError>
        ensures equal { IfOk result (λ copy. copy ≡ self.now) }
    {
        let constant = match &self.constant {
            Some(constant) => Some(constant.copy(alloc)?),
            None => None,
        };
        Ok(Field {
            flags: self.flags,
            name: self.name.copy(alloc)?,
            descriptor: self.descriptor.copy(alloc)?,
            constant,
        })
    }
}

/// A method without its code, and the classes that it declares to throw.
#[derive(Drop)]
pub struct MethodHead {
    pub flags: u16,
    pub name: Units,
    pub descriptor: Descriptor,
    pub thrown: Items<ClassName>,
}

impl MethodHead {
    /// An equal method.
    pub fn copy(&self, alloc: Global) -> Result<MethodHead, AllocError>
        ensures equal { IfOk result (λ copy. copy ≡ self.now) }
    {
        Ok(MethodHead {
            flags: self.flags,
            name: self.name.copy(alloc)?,
            descriptor: self.descriptor.copy(alloc)?,
            thrown: copy_names(alloc, self.thrown.as_slice())?,
        })
    }
}

/// The fields and methods of a class in file order, and the classes that its file names.
#[derive(Drop)]
pub struct ClassMembers {
    pub fields: Items<Field>,
    pub methods: Items<MethodHead>,
    pub named: Items<ClassName>,
}

impl ClassMembers {
    /// Equal members.
    pub fn copy(&self, alloc: Global) -> Result<ClassMembers, AllocError>
        ensures equal { IfOk result (λ copy. copy ≡ self.now) }
    {
        Ok(ClassMembers {
            fields: copy_fields(alloc, self.fields.as_slice())?,
            methods: copy_methods(alloc, self.methods.as_slice())?,
            named: copy_names(alloc, self.named.as_slice())?,
        })
    }
}

/// The members of each class, in the order of the headers that they go with.
#[derive(Drop)]
pub struct Members {
    pub classes: Items<ClassMembers>,
}

impl Members {
    /// Equal members.
    pub fn copy(&self, alloc: Global) -> Result<Members, AllocError>
        ensures equal { IfOk result (λ copy. copy ≡ self.now) }
    {
        let mut classes = Items::new(alloc);
        for class in self.classes.as_slice() {
            classes.push(class.copy(alloc)?)?;
        }
        Ok(Members { classes })
    }
}

/// One field or method: the place of its class among the headers, whether it is a method, and
/// its place among the methods or the fields of the class.
#[derive(Clone, Copy, PartialEq, Eq)]
pub struct Member {
    pub class: u32,
    pub method: bool,
    pub number: u32,
}

impl Member {
    /// An equal member.
    pub fn copy(&self) -> Member
        ensures equal { result ≡ self.now }
    {
        *self
    }
}

/// Equal fields, in order.
pub fn copy_fields(alloc: Global, fields: &[Field]) -> Result<Items<Field>, AllocError>
    ensures equal { IfOk result (λ copy. copy ≡ fields.now) }
{
    let mut copy = Items::new(alloc);
    for field in fields {
        copy.push(field.copy(alloc)?)?;
    }
    Ok(copy)
}

/// Equal methods, in order.
fn copy_methods(alloc: Global, methods: &[MethodHead]) -> Result<Items<MethodHead>, AllocError>
    ensures equal { IfOk result (λ copy. copy ≡ methods.now) }
{
    let mut copy = Items::new(alloc);
    for method in methods {
        copy.push(method.copy(alloc)?)?;
    }
    Ok(copy)
}
