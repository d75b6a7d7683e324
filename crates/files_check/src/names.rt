//! What bytes and units are as names.

use anyhow::Result;
use dj_names::{NameFault, Units, is_identifier, read_descriptor, read_units, write_units};
use std::alloc::Global;
use std::io::Write;

/// The units that pairs of bytes are, the high byte first.
fn units_of_pairs(alloc: Global, bytes: &[u8]) -> Result<Units> {
    let mut units = Vec::new(alloc);
    for pair in bytes.chunks_exact(2) {
        if let [high, low] = pair {
            units.push(u16::from_be_bytes([*high, *low]))?;
        }
    }
    Ok(Units::from_vec(units)?)
}

/// Tells where a name is bad.
fn put_fault<W: Write>(out: &mut W, fault: NameFault) -> Result<()> {
    match fault {
        NameFault::BadDescriptor(at) | NameFault::BadUnits(at) => writeln!(out, "bad {at}")?,
        NameFault::Memory(error) => return Err(error.into()),
    }
    Ok(())
}

/// Tells the units that bytes spell, and whether they are spelled as these bytes again.
fn put_units<W: Write>(alloc: Global, out: &mut W, bytes: &[u8]) -> Result<()> {
    match read_units(alloc, bytes) {
        Ok(units) => {
            let same = write_units(alloc, &units)?.as_slice() == bytes;
            writeln!(out, "{same} {units}")?;
            Ok(())
        }
        Err(fault) => put_fault(out, fault),
    }
}

/// Tells whether units are a descriptor.
fn put_descriptor<W: Write>(alloc: Global, out: &mut W, units: &Units) -> Result<()> {
    match read_descriptor(alloc, units) {
        Ok(_) => Ok(writeln!(out, "ok")?),
        Err(fault) => put_fault(out, fault),
    }
}

/// Answers a line: `u` and bytes, `d` and the units of a descriptor, `i` and those of an identifier.
pub fn put_name<W: Write>(alloc: Global, out: &mut W, line: &str) -> Result<()> {
    let (kind, digits) = line.split_once(' ').unwrap_or((line, ""));
    let bytes = hex::decode(alloc, digits.as_bytes())?;
    if kind == "u" {
        return put_units(alloc, out, bytes.as_slice());
    }
    let units = units_of_pairs(alloc, bytes.as_slice())?;
    if kind == "d" {
        return put_descriptor(alloc, out, &units);
    }
    writeln!(out, "{}", is_identifier(&units))?;
    Ok(())
}
