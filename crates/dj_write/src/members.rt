//! Fields, methods and attributes, written (JVMS 4.5 to 4.7).

ghost use Rattle.std.specs.Prelude.{◌≡◌, ◌<◌, ◌^◌, All, length};
ghost use Rattle.dj_class.specs.Members.{member};
ghost use Rattle.dj_pool.specs.SharedParts.{attribute, counted};
ghost use Rattle.dj_write.specs.Appends.{Appends};
ghost use Rattle.dj_write.specs.Files.{HasRoomForContent, HasRoomForMember, view_member, view_members};

use crate::parts::{put_sized, put_u16};
use dj_class::Attribute;
use dj_names::Items;
use std::alloc::AllocError;

/// A field or a method: its flags, the indices of its name and its descriptor, and its attributes.
#[derive(Drop)]
pub struct RawMember {
    pub flags: u16,
    pub name: u16,
    pub descriptor: u16,
    pub attributes: Items<Attribute>,
}

/// An attribute.
fn put_attribute(out: &mut Vec<u8>, raw: &Attribute) -> Result<(), AllocError>
    requires room { HasRoomForContent raw.now }
    ensures put { Appends attribute raw.now out.old.items out.new.items result }
{
    put_u16(out, raw.name)?;
    put_sized(out, raw.content.as_slice())
}

/// Attributes behind their number.
pub fn put_attributes(out: &mut Vec<u8>, attributes: &[Attribute]) -> Result<(), AllocError>
    requires few { length attributes.now < 2 ^ 16 }
    requires room { All HasRoomForContent attributes.now }
    ensures put { Appends (counted attribute) attributes.now out.old.items out.new.items result }
{
    put_u16(out, attributes.len() as u16)?;
    for attribute in attributes {
        put_attribute(out, attribute)?;
    }
    Ok(())
}

/// A field or a method.
fn put_member(out: &mut Vec<u8>, raw: &RawMember) -> Result<(), AllocError>
    requires room { HasRoomForMember (view_member raw.now) }
    ensures put { Appends member (view_member raw.now) out.old.items out.new.items result }
{
    put_u16(out, raw.flags)?;
    put_u16(out, raw.name)?;
    put_u16(out, raw.descriptor)?;
    put_attributes(out, raw.attributes.as_slice())
}

/// Fields or methods behind their number.
pub(crate) fn put_members(out: &mut Vec<u8>, members: &[RawMember]) -> Result<(), AllocError>
    requires few { length members.now < 2 ^ 16 }
    requires room { All HasRoomForMember (view_members members.now) }
    ensures put { Appends (counted member) (view_members members.now) out.old.items out.new.items result }
{
    put_u16(out, members.len() as u16)?;
    for member in members {
        put_member(out, member)?;
    }
    Ok(())
}
