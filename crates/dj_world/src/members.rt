//! The header and the members that a class file gives (JVMS 4.1, 4.5, 4.6).

ghost use Rattle.std.specs.Prelude.{◌≡◌, IfOk, map};
ghost use Rattle.dj_world.specs.Worlds.{AreMembersOf, header_of, head_of};

use crate::named::named_of;
use dj_class::{ClassFile, Method};
use dj_names::{ClassMembers, Header, Items, MethodHead, copy_fields, copy_names};
use std::alloc::{AllocError, Global};

/// The header of a class file.
pub fn header_of(alloc: Global, class: &ClassFile) -> Result<Header, AllocError>
    ensures header { IfOk result (λ header. header ≡ header_of class.now) }
{
    let superclass = match &class.super_class {
        Some(superclass) => Some(superclass.copy(alloc)?),
        None => None,
    };
    Ok(Header {
        name: class.this_class.copy(alloc)?,
        superclass,
        interfaces: copy_names(alloc, class.interfaces.as_slice())?,
        flags: class.flags,
    })
}

/// A method without its code.
fn head_of(alloc: Global, method: &Method) -> Result<MethodHead, AllocError>
    ensures head { IfOk result (λ head. head ≡ head_of method.now) }
{
    Ok(MethodHead {
        flags: method.flags,
        name: method.name.copy(alloc)?,
        descriptor: method.descriptor.copy(alloc)?,
        thrown: copy_names(alloc, method.thrown.as_slice())?,
    })
}

/// Methods without their code.
fn heads_of(alloc: Global, methods: &[Method]) -> Result<Items<MethodHead>, AllocError>
    ensures heads { IfOk result (λ heads. heads ≡ map head_of methods.now) }
{
    let mut heads = Items::new(alloc);
    for method in methods {
        heads.push(head_of(alloc, method)?)?;
    }
    Ok(heads)
}

/// The members of a class file, and the classes that it names.
pub fn members_of(alloc: Global, class: &ClassFile) -> Result<ClassMembers, AllocError>
    ensures members { IfOk result (AreMembersOf class.now) }
{
    Ok(ClassMembers {
        fields: copy_fields(alloc, class.fields.as_slice())?,
        methods: heads_of(alloc, class.methods.as_slice())?,
        named: named_of(alloc, class)?,
    })
}
