//! A compilation unit with one class or interface (JLS 7.3, 8, 9).

ghost use Rattle.std.specs.Prelude.{◌≡◌, IfOk};

use crate::expression::{Exp, copy_name, copy_option};
use crate::statement::{Stm, copy_list};
use dj_names::{ClassName, Descriptor, Items, JType, Units, copy_names};
use std::alloc::{AllocError, Global};

/// A unit: the package that it is in, and its class or interface.
#[derive(Drop)]
pub struct Unit {
    /// The package, with `/` between its segments; None for the unnamed one.
    pub package: Option<ClassName>,
    /// The access and property flags (JVMS 4.1) that the text shows or implies.
    pub flags: u16,
    /// The simple name.
    pub name: Units,
    /// None for java/lang/Object, and in an interface.
    pub superclass: Option<ClassName>,
    pub interfaces: Items<ClassName>,
    pub fields: Items<FieldText>,
    /// The name of the helper that throws any throwable.
    pub helper: Option<Units>,
    pub methods: Items<MethodText>,
}

/// A field of a unit.
#[derive(Drop)]
pub struct FieldText {
    /// The flags (JVMS 4.5) that the text shows or implies.
    pub flags: u16,
    pub kind: JType,
    pub name: Units,
    pub value: Option<Exp>,
}

/// A method, constructor or static initialiser of a unit.
#[derive(Drop)]
pub struct MethodText {
    /// The flags (JVMS 4.6) that the text shows or implies.
    pub flags: u16,
    /// `<init>` for a constructor, `<clinit>` for a static initialiser.
    pub name: Units,
    pub descriptor: Descriptor,
    pub thrown: Items<ClassName>,
    pub body: Option<Body>,
}

/// The body of a method, with the head of the method in which it stands.
#[derive(Drop)]
pub struct Body {
    pub class: ClassName,
    pub flags: u16,
    pub name: Units,
    pub descriptor: Descriptor,
    pub thrown: Items<ClassName>,
    pub statements: Items<Stm>,
}

impl Unit {
    /// An equal unit.
    pub fn copy(&self, alloc: Global) -> Result<Unit, AllocError>
        ensures equal { IfOk result (λ copy. copy ≡ self.now) }
    {
        // Each part is one value till all are there, so that an exit between them drops little.
        let own = copy_own_names(alloc, self)?;
        let above = copy_names_above(alloc, self)?;
        let members = copy_members(alloc, self)?;
        let (package, name) = own;
        let (superclass, interfaces) = above;
        let (fields, helper, methods) = members;
        Ok(Unit {
            package,
            flags: self.flags,
            name,
            superclass,
            interfaces,
            fields,
            helper,
            methods,
        })
    }
}

/// The package and the name of a unit.
type OwnNames = (Option<ClassName>, Units);

/// The superclass and the interfaces of a unit.
type NamesAbove = (Option<ClassName>, Items<ClassName>);

/// The fields, the helper and the methods of a unit.
type UnitMembers = (Items<FieldText>, Option<Units>, Items<MethodText>);

/// The name, the descriptor and the thrown classes of a method.
type MethodHead = (Units, Descriptor, Items<ClassName>);

fn copy_own_names(alloc: Global, unit: &Unit) -> Result<OwnNames, AllocError>
    ensures equal { IfOk result (λ copy. copy ≡ (unit.now.«package», unit.now.name)) }
{
    let package = copy_name(alloc, &unit.package)?;
    Ok((package, unit.name.copy(alloc)?))
}

fn copy_names_above(alloc: Global, unit: &Unit) -> Result<NamesAbove, AllocError>
    ensures equal { IfOk result (λ copy. copy ≡ (unit.now.superclass, unit.now.interfaces)) }
{
    let superclass = copy_name(alloc, &unit.superclass)?;
    Ok((superclass, copy_names(alloc, unit.interfaces.as_slice())?))
}

fn copy_members(alloc: Global, unit: &Unit) -> Result<UnitMembers, AllocError>
    ensures equal { IfOk result (λ copy. copy ≡ (unit.now.fields, unit.now.helper, unit.now.methods)) }
{
    let fields = copy_fields(alloc, unit.fields.as_slice())?;
    let helper = copy_helper(alloc, &unit.helper)?;
    Ok((
        fields,
        helper,
        copy_methods(alloc, unit.methods.as_slice())?,
    ))
}

impl FieldText {
    /// An equal field.
    pub fn copy(&self, alloc: Global) -> Result<FieldText, AllocError>
        ensures equal { IfOk result (λ copy. copy ≡ self.now) }
    {
        Ok(FieldText {
            flags: self.flags,
            kind: self.kind.copy(alloc)?,
            name: self.name.copy(alloc)?,
            value: copy_option(alloc, &self.value)?,
        })
    }
}

impl MethodText {
    /// An equal method.
    pub fn copy(&self, alloc: Global) -> Result<MethodText, AllocError>
        ensures equal { IfOk result (λ copy. copy ≡ self.now) }
    {
        let body = copy_body(alloc, &self.body)?;
        let (name, descriptor, thrown) = copy_head(
            alloc,
            &self.name,
            &self.descriptor,
            &self.thrown,
        )?;
        Ok(MethodText {
            flags: self.flags,
            name,
            descriptor,
            thrown,
            body,
        })
    }
}

impl Body {
    /// An equal body.
    pub fn copy(&self, alloc: Global) -> Result<Body, AllocError>
        ensures equal { IfOk result (λ copy. copy ≡ self.now) }
    {
        let class = self.class.copy(alloc)?;
        let statements = copy_list(alloc, self.statements.as_slice())?;
        let (name, descriptor, thrown) = copy_head(
            alloc,
            &self.name,
            &self.descriptor,
            &self.thrown,
        )?;
        Ok(Body {
            class,
            flags: self.flags,
            name,
            descriptor,
            thrown,
            statements,
        })
    }
}

fn copy_head(
    alloc: Global,
    name: &Units,
    descriptor: &Descriptor,
    thrown: &Items<ClassName>,
) -> Result<MethodHead, AllocError>
    ensures equal { IfOk result (λ copy. copy ≡ (name.now, descriptor.now, thrown.now)) }
{
    let thrown = copy_names(alloc, thrown.as_slice())?;
    let name = name.copy(alloc)?;
    Ok((name, descriptor.copy(alloc)?, thrown))
}

fn copy_helper(alloc: Global, name: &Option<Units>) -> Result<Option<Units>, AllocError>
    ensures equal { IfOk result (λ copy. copy ≡ name.now) }
{
    match name {
        Some(name) => Ok(Some(name.copy(alloc)?)),
        None => Ok(None),
    }
}

fn copy_body(alloc: Global, body: &Option<Body>) -> Result<Option<Body>, AllocError>
    ensures equal { IfOk result (λ copy. copy ≡ body.now) }
{
    match body {
        Some(body) => Ok(Some(body.copy(alloc)?)),
        None => Ok(None),
    }
}

fn copy_fields(alloc: Global, fields: &[FieldText]) -> Result<Items<FieldText>, AllocError>
    ensures equal { IfOk result (λ copy. copy ≡ fields.now) }
{
    let mut copy = Items::new(alloc);
    for field in fields {
        copy.push(field.copy(alloc)?)?;
    }
    Ok(copy)
}

fn copy_methods(alloc: Global, methods: &[MethodText]) -> Result<Items<MethodText>, AllocError>
    ensures equal { IfOk result (λ copy. copy ≡ methods.now) }
{
    let mut copy = Items::new(alloc);
    for method in methods {
        copy.push(method.copy(alloc)?)?;
    }
    Ok(copy)
}
