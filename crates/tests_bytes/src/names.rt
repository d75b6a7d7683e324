//! Copies of descriptors, members and static types; stored runs show what is read.
use dj_names::{
    ClassMembers, Constant, Descriptor, Field, Items, JType, Members, MethodHead, NameFault,
    StaticType, Units, read_descriptor, read_units,
};
use std::alloc::{AllocError, Global};
use std::test::Fail;

fn units(alloc: Global, text: &str) -> Result<Units, NameFault> {
    read_units(alloc, text.as_bytes())
}

fn one<T: Drop>(alloc: Global, item: T) -> Result<Items<T>, AllocError> {
    let mut items = Items::new(alloc);
    items.push(item)?;
    Ok(items)
}

/// Whether this is `([ILA;J)V`.
fn has_its_parts(descriptor: &Descriptor) -> bool {
    let Descriptor::Method {
        parameters,
        result: None,
    } = descriptor
    else {
        return false;
    };
    let [JType::Array(element), JType::Class(name), JType::Long] = parameters.as_slice() else {
        return false;
    };
    matches!(element.get(), JType::Int) && name.as_slice() == [65].as_slice()
}

fn descriptor(alloc: Global, text: &str) -> Result<Descriptor, NameFault> {
    let units = units(alloc, text)?;
    read_descriptor(alloc, &units)
}

/// Whether a copy of the descriptor is `([ILA;J)V`.
fn has_its_parts_copied(alloc: Global, descriptor: &Descriptor) -> Result<bool, NameFault> {
    let copy = descriptor.copy(alloc)?;
    Ok(has_its_parts(&copy))
}

/// Whether the text is read as `([ILA;J)V`, and copied.
fn is_read_and_copied(alloc: Global, text: &str) -> Result<bool, NameFault> {
    let read = descriptor(alloc, text)?;
    has_its_parts_copied(alloc, &read)
}

#[test]
fn a_copied_descriptor_has_its_parts(rt: HostRuntime) -> Result<(), Fail> {
    assert!(rt; is_read_and_copied(rt.alloc(), "([ILA;J)V")?);
    Ok(())
}

fn fields(alloc: Global) -> Result<Items<Field>, NameFault> {
    let name = units(alloc, "x")?;
    let field = Field {
        flags: 8,
        name,
        descriptor: JType::Int,
        constant: Some(Constant::Int(5)),
    };
    Ok(one(alloc, field)?)
}

fn methods(alloc: Global) -> Result<Items<MethodHead>, NameFault> {
    let name = units(alloc, "f")?;
    let method = MethodHead {
        flags: 8,
        name,
        descriptor: Descriptor::Field(JType::Int),
        thrown: Items::new(alloc),
    };
    Ok(one(alloc, method)?)
}

fn members_of_a_class(alloc: Global) -> Result<ClassMembers, NameFault> {
    let fields = fields(alloc)?;
    let methods = methods(alloc)?;
    Ok(ClassMembers {
        fields,
        methods,
        named: Items::new(alloc),
    })
}

fn members(alloc: Global) -> Result<Members, NameFault> {
    let class = members_of_a_class(alloc)?;
    let classes = one(alloc, class)?;
    Ok(Members { classes })
}

/// Whether there is one class, with a field of the flags 8 and a method.
fn has_its_members(members: &Members) -> bool {
    let [class] = members.classes.as_slice() else {
        return false;
    };
    let [field] = class.fields.as_slice() else {
        return false;
    };
    field.flags == 8 && class.methods.len() == 1
}

/// Whether a copy of the members has one class, with a field of the flags 8 and a method.
fn has_its_members_copied(alloc: Global, members: &Members) -> Result<bool, NameFault> {
    let copy = members.copy(alloc)?;
    Ok(has_its_members(&copy))
}

fn are_copied(alloc: Global) -> Result<bool, NameFault> {
    let members = members(alloc)?;
    has_its_members_copied(alloc, &members)
}

#[test]
fn members_are_copied(rt: HostRuntime) -> Result<(), Fail> {
    assert!(rt; are_copied(rt.alloc())?);
    Ok(())
}

/// Whether a copy of the type of longs is one.
fn is_long_copied(alloc: Global) -> Result<bool, AllocError> {
    let kind = StaticType::Of(JType::Long);
    let copy = kind.copy(alloc)?;
    Ok(matches!(copy, StaticType::Of(JType::Long)))
}

#[test]
fn static_types_are_copied(rt: HostRuntime) -> Result<(), Fail> {
    assert!(rt; is_long_copied(rt.alloc())?);
    Ok(())
}
