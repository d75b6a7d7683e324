//! Reading and writing units in modified UTF-8 (JVMS 4.4.7).

ghost use Rattle.std.specs.Prelude.{◌≡◌, ◌≢◌, ◌≤◌, ℕ, List, [], ◌∷◌, ◌++◌, length, take, All, IfOk, OnOk, IfErr, IfSome, IfNone};
ghost use Rattle.dj_names.specs.Utf8.{encode, spell_units, IsUnit};
ghost use Rattle.dj_names.specs.Faults.{IsUnitsFault, GivesOnly};

use crate::fault::{NameFault, place};
use crate::units::Units;
use std::alloc::{AllocError, Global};

/// Reads units in modified UTF-8. A fault is where the first wrong sequence begins.
pub fn read_units(alloc: Global, bytes: &[u8]) -> Result<Units, NameFault>
    ensures ok { IfOk result (λ units. spell_units units ≡ bytes.now) }
    ensures units { IfOk result (λ units. All IsUnit units) }
    ensures value { (units : List ℕ) → All IsUnit units → spell_units units ≡ bytes.now → GivesOnly (λ read. read) result units }
    ensures fault { IfErr result (λ fault. IsUnitsFault bytes.now fault) }
{
    let mut units = Vec::with_capacity(alloc, bytes.len())?;
    let mut at = 0;
    while at < bytes.len() {
        let Some((unit, size)) = read_unit(&bytes[at..]) else {
            return Err(NameFault::BadUnits(place(at)));
        };
        units.push(unit)?;
        at += size;
    }
    Ok(Units::from_vec(units)?)
}

/// Writes the one spelling of units in modified UTF-8.
pub fn write_units(alloc: Global, units: &Units) -> Result<Vec<u8>, AllocError>
    ensures spelled { IfOk result (λ bytes. bytes.items ≡ spell_units units.now) }
{
    let mut bytes = Vec::new(alloc);
    for unit in units.as_slice() {
        push_unit(&mut bytes, *unit)?;
    }
    Ok(bytes)
}

/// Adds the bytes of a unit.
fn push_unit(bytes: &mut Vec<u8>, unit: u16) -> Result<(), AllocError>
    ensures pushed { OnOk result (bytes.new.items ≡ bytes.old.items ++ encode unit) }
{
    match unit {
        0x01..=0x7f => bytes.extend_from_slice(&[unit as u8]),
        0x00 | 0x80..=0x7ff => {
            bytes.extend_from_slice(&[(0xc0 + unit / 64) as u8, (0x80 + unit % 64) as u8])
        }
        0x800..=0xffff => bytes.extend_from_slice(&[
            (0xe0 + unit / 4096) as u8,
            (0x80 + unit / 64 % 64) as u8,
            (0x80 + unit % 64) as u8,
        ]),
    }
}

/// The unit that the bytes begin with, and how many bytes it takes.
fn read_unit(bytes: &[u8]) -> Option<(u16, usize)>
    ensures some { IfSome result (λ read. encode read.0 ≡ take read.1 bytes.now) }
    ensures unit { IfSome result (λ read. IsUnit read.0) }
    ensures some_bytes { IfSome result (λ read. 1 ≤ read.1) }
    ensures within { IfSome result (λ read. read.1 ≤ length bytes.now) }
    ensures none { IfNone result ((unit : ℕ) (rest : List ℕ) → IsUnit unit → encode unit ++ rest ≢ bytes.now) }
{
    match bytes {
        [0x01..=0x7f, ..] => Some((u16::from(bytes[0]), 1)),
        [0xc0..=0xdf, second, ..] => Some((two_byte_unit(bytes[0], *second)?, 2)),
        [0xe0..=0xef, second, third, ..] => Some((three_byte_unit(bytes[0], *second, *third)?, 3)),
        _ => None,
    }
}

/// The unit that is spelled by these two bytes.
fn two_byte_unit(first: u8, second: u8) -> Option<u16>
    requires low { 192 ≤ first }
    requires high { first ≤ 223 }
    ensures some { IfSome result (λ unit. encode unit ≡ first ∷ second ∷ []) }
    ensures unit { IfSome result IsUnit }
    ensures none { IfNone result ((unit : ℕ) → IsUnit unit → encode unit ≢ first ∷ second ∷ []) }
{
    if second < 0x80 || second > 0xbf {
        return None;
    }
    let unit = u16::from(first - 0xc0) * 64 + u16::from(second - 0x80);
    if unit != 0 && unit < 0x80 {
        None
    } else {
        Some(unit)
    }
}

/// The unit that is spelled by these three bytes.
fn three_byte_unit(first: u8, second: u8, third: u8) -> Option<u16>
    requires low { 224 ≤ first }
    requires high { first ≤ 239 }
    ensures some { IfSome result (λ unit. encode unit ≡ first ∷ second ∷ third ∷ []) }
    ensures unit { IfSome result IsUnit }
    ensures none { IfNone result ((unit : ℕ) → IsUnit unit → encode unit ≢ first ∷ second ∷ third ∷ []) }
{
    if second < 0x80 || second > 0xbf || third < 0x80 || third > 0xbf {
        return None;
    }
    let unit = u16::from(first - 0xe0) * 4096
        + u16::from(second - 0x80) * 64
        + u16::from(third - 0x80);
    if unit < 0x800 { None } else { Some(unit) }
}
