//! Bytes that are the text of no unit are misread, and a unit without a text isn't well formed.

use crate::texts::{DIFFERENCE, FINAL_CLASS, KINDS};
use dj_names::{ClassName, Units};
use dj_read::{ReadUnitFault, read_unit};
use dj_syntax::Unit;
use dj_well_formed::is_well_formed;
use std::alloc::{AllocError, Global};
use std::test::*;

// Without a head, and with a `final` that only a field with a value shows; the stored run of `texts_check` has others.
const NO_TEXTS: &[&str] = &["}\n", "class C {\n    final int x;\n}\n"];

fn is_misread(alloc: Global, bytes: &[u8]) -> Result<bool, AllocError> {
    match read_unit(alloc, bytes) {
        Ok(_) | Err(ReadUnitFault::Deep) => Ok(false),
        Err(ReadUnitFault::Misread) => Ok(true),
        Err(ReadUnitFault::Memory(error)) => Err(error),
    }
}

#[test]
fn other_texts_are_misread(rt: HostRuntime) -> Result<(), Fail> {
    for text in NO_TEXTS {
        assert!(rt; is_misread(rt.alloc(), text.as_bytes())?, "{text}");
    }
    Ok(())
}

fn joined(alloc: Global, front: &[u8], middle: &[u8], back: &[u8]) -> Result<Vec<u8>, AllocError> {
    let mut bytes = Vec::from_slice(alloc, front)?;
    bytes.extend_from_slice(middle)?;
    bytes.extend_from_slice(back)?;
    Ok(bytes)
}

/// Whether the text is misread with these bytes in place of those from one place to before another.
fn is_misread_with(
    alloc: Global,
    text: &[u8],
    from: usize,
    to: usize,
    bytes: &[u8],
) -> Result<bool, AllocError> {
    let front = text.get(..from).unwrap_or(&[]);
    let back = text.get(to..).unwrap_or(&[]);
    let other = joined(alloc, front, bytes, back)?;
    is_misread(alloc, other.as_slice())
}

// No text has a `#`.
#[test]
fn a_byte_added_or_changed_is_misread(rt: HostRuntime) -> Result<(), Fail> {
    let text = DIFFERENCE.as_bytes();
    for (at, _) in text.iter().enumerate() {
        let behind = at.saturating_add(1);
        assert!(rt;
            is_misread_with(rt.alloc(), text, at, at, b"#")?,
            "added at {at}"
        );
        assert!(rt;
            is_misread_with(rt.alloc(), text, at, behind, b"#")?,
            "changed at {at}"
        );
    }
    Ok(())
}

// No text has a byte above 126.
#[test]
fn each_byte_of_a_text_counts(rt: HostRuntime) -> Result<(), Fail> {
    let text = KINDS.as_bytes();
    for (at, _) in text.iter().enumerate() {
        assert!(rt;
            is_misread_with(rt.alloc(), text, at, at.saturating_add(1), &[0x80])?,
            "changed at {at}"
        );
    }
    Ok(())
}

/// In how many places the text is that of a unit where the byte there is removed.
fn texts_without_a_byte(alloc: Global, text: &[u8]) -> Result<u32, AllocError> {
    let mut count = 0u32;
    for (at, _) in text.iter().enumerate() {
        if !is_misread_with(alloc, text, at, at.saturating_add(1), b"")? {
            count = count.saturating_add(1);
        }
    }
    Ok(count)
}

// Without one byte the text is that of another unit in twelve places: without a letter of an `int`, of which
// there are three, or the blank before the first, a class is named; without the `p` of an operand it is a number.
#[test]
fn without_a_byte_it_is_mostly_misread(rt: HostRuntime) -> Result<(), Fail> {
    let others = texts_without_a_byte(rt.alloc(), DIFFERENCE.as_bytes())?;
    assert_eq!(rt; others, 12);
    Ok(())
}

/// In how many places the text is that of a unit where the byte there and the next one, if it differs, are swapped.
fn texts_with_a_swap(alloc: Global, text: &[u8]) -> Result<u32, AllocError> {
    let mut count = 0u32;
    for (at, pair) in text.windows(2).enumerate() {
        if let [first, second] = pair
            && first != second
            && !is_misread_with(alloc, text, at, at.saturating_add(2), &[*second, *first])?
        {
            count = count.saturating_add(1);
        }
    }
    Ok(count)
}

// With two bytes swapped the text is that of another unit in eight places: `nit` and `itn` for each of the three
// `int`, `in tf` and `fi(nt`.
#[test]
fn with_two_bytes_swapped_it_is_mostly_misread(rt: HostRuntime) -> Result<(), Fail> {
    let others = texts_with_a_swap(rt.alloc(), DIFFERENCE.as_bytes())?;
    assert_eq!(rt; others, 8);
    Ok(())
}

// `java/lang/Object`, in units.
const OBJECT: [u16; 16] = [
    106, 97, 118, 97, 47, 108, 97, 110, 103, 47, 79, 98, 106, 101, 99, 116,
];

fn object(alloc: Global) -> Result<ClassName, AllocError> {
    Ok(ClassName::new(Units::from_slice(alloc, OBJECT.as_slice())?))
}

fn with_superclass(mut unit: Unit, name: ClassName) -> Unit {
    unit.superclass = Some(name);
    unit
}

#[test]
fn refuses_object_as_a_superclass(rt: HostRuntime) -> Result<(), Fail> {
    let object = object(rt.alloc())?;
    let unit = read_unit(rt.alloc(), FINAL_CLASS.as_bytes())?;
    assert!(rt; is_well_formed(&unit));
    let below_object = with_superclass(unit, object);
    assert!(rt; !is_well_formed(&below_object));
    Ok(())
}
