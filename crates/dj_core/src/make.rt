//! The classes of the table, made one at a time.

ghost use Rattle.std.specs.Prelude.{◌≡◌, ◌<◌, [], flat_map, IfOk, OnOk, IsSomeAnd, slice_get};
ghost use Rattle.dj_core.specs.CoreClass.{view_head, IsMade};
ghost use Rattle.dj_core.specs.CoreTable.{core_classes};
ghost use Rattle.dj_core.specs.Rows.{IsSpelling, IsSound, HasSpellings, AddsLines, AreRowMembers, texts, group_lines, row_lines, row_header, spell_method};

use crate::rows::{Group, Row, row_at};
use crate::texts::{class_of, classes_of, descriptor_of, maybe_class, units_of};
use dj_names::{ClassMembers, Header, Items, MethodHead};
use std::alloc::{AllocError, Global};

/// How many classes there are.
pub const CORE_CLASSES: usize = 24;

/// The header and the members of a class.
#[derive(Drop)]
pub struct CoreClass {
    pub header: Header,
    pub members: ClassMembers,
}

/// The method of a group with this name and this descriptor.
fn head_of(
    alloc: Global,
    group: &Group,
    name: &str,
    descriptor: &str,
) -> Result<MethodHead, AllocError>
    requires spelling { IsSpelling descriptor.now }
    ensures line { IfOk result (λ head. spell_method (view_head head) ≡ record { flags = group.now.flags; name = name.now; descriptor = descriptor.now; thrown = texts group.now.thrown.now }) }
    ensures sound { IfOk result (λ head. IsSound (view_head head)) }
{
    let descriptor = descriptor_of(alloc, descriptor)?;
    Ok(MethodHead {
        flags: group.flags,
        name: units_of(alloc, name)?,
        descriptor,
        thrown: classes_of(alloc, group.thrown)?,
    })
}

/// Adds the methods of a group.
fn push_group(alloc: Global, heads: &mut Items<MethodHead>, group: &Group) -> Result<(), AllocError>
    requires spellings { HasSpellings (group_lines group.now) }
    ensures lines { OnOk result (AddsLines heads.old heads.new (group_lines group.now)) }
{
    for (name, descriptor) in group.methods {
        heads.push(head_of(alloc, group, name, descriptor)?)?;
    }
    Ok(())
}

/// The methods of a class.
fn heads_of(alloc: Global, groups: &[Group]) -> Result<Items<MethodHead>, AllocError>
    requires spellings { HasSpellings (flat_map group_lines groups.now) }
    ensures lines { IfOk result (λ heads. AddsLines [] heads (flat_map group_lines groups.now)) }
{
    let mut heads = Items::new(alloc);
    for group in groups {
        push_group(alloc, &mut heads, group)?;
    }
    Ok(heads)
}

/// The header of a class.
fn header_of(alloc: Global, row: &Row) -> Result<Header, AllocError>
    ensures header { IfOk result (λ header. header ≡ row_header row.now) }
{
    let superclass = maybe_class(alloc, row.superclass)?;
    Ok(Header {
        name: class_of(alloc, row.name)?,
        superclass,
        interfaces: classes_of(alloc, row.interfaces)?,
        flags: row.flags,
    })
}

/// The members of a class, which names itself alone.
fn members_of(alloc: Global, row: &Row) -> Result<ClassMembers, AllocError>
    requires spellings { HasSpellings (row_lines row.now).methods }
    ensures members { IfOk result (AreRowMembers row.now) }
{
    let mut named = Items::new(alloc);
    named.push(class_of(alloc, row.name)?)?;
    Ok(ClassMembers {
        fields: Items::new(alloc),
        methods: heads_of(alloc, row.groups)?,
        named,
    })
}

/// The class at a place of the table.
pub fn core_class(alloc: Global, at: usize) -> Result<CoreClass, AllocError>
    requires within { at < CORE_CLASSES }
    ensures made { IfOk result (λ made. IsSomeAnd (slice_get core_classes at) (λ core. IsMade core made.header made.members)) }
{
    let row = row_at(at);
    Ok(CoreClass {
        header: header_of(alloc, row)?,
        members: members_of(alloc, row)?,
    })
}
