//! Numbers and runs of bytes, put behind what is written.

ghost use Rattle.std.specs.Prelude.{◌≡◌, ◌<◌, ◌^◌, length};
ghost use Rattle.dj_pool.specs.SharedParts.{sized, u2};
ghost use Rattle.dj_write.specs.Appends.{Appends, u1, u4, u8};

use byteorder::{BigEndian, ByteOrder};
use std::alloc::AllocError;

/// A number of one byte.
#[tactic(auto, unfolding(dj_layout::specs::Parts::number))]
pub(crate) fn put_u8(out: &mut Vec<u8>, number: u8) -> Result<(), AllocError>
    ensures put { Appends u1 number out.old.items out.new.items result }
{
    out.push(number)?;
    Ok(())
}

/// A number of two bytes.
#[tactic(auto, unfolding(dj_layout::specs::Parts::number))]
pub fn put_u16(out: &mut Vec<u8>, number: u16) -> Result<(), AllocError>
    ensures put { Appends u2 number out.old.items out.new.items result }
{
    let mut bytes = [0; 2];
    BigEndian::write_u16(&mut bytes, number);
    out.extend_from_slice(&bytes)
}

/// A number of four bytes.
#[tactic(auto, unfolding(dj_layout::specs::Parts::number))]
pub(crate) fn put_u32(out: &mut Vec<u8>, number: u32) -> Result<(), AllocError>
    ensures put { Appends u4 number out.old.items out.new.items result }
{
    let mut bytes = [0; 4];
    BigEndian::write_u32(&mut bytes, number);
    out.extend_from_slice(&bytes)
}

/// A number of eight bytes.
#[tactic(auto, unfolding(dj_layout::specs::Parts::number))]
pub(crate) fn put_u64(out: &mut Vec<u8>, number: u64) -> Result<(), AllocError>
    ensures put { Appends u8 number out.old.items out.new.items result }
{
    let mut bytes = [0; 8];
    BigEndian::write_u64(&mut bytes, number);
    out.extend_from_slice(&bytes)
}

/// Bytes behind their number, in four.
pub fn put_sized(out: &mut Vec<u8>, bytes: &[u8]) -> Result<(), AllocError>
    requires room { length bytes.now < 2 ^ 32 }
    ensures put { Appends sized bytes.now out.old.items out.new.items result }
{
    put_u32(out, bytes.len() as u32)?;
    out.extend_from_slice(bytes)
}
