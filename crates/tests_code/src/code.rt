//! The code of one method, read and copied, with the frame that it begins with (JVMS 4.7.3, 4.7.4, 4.9.1); the stored run of `files_check` has a fault of each kind.
ghost use Rattle.std.specs.Prelude.{◌≡◌, Some, IsSome, slice_get};

use dj_class::{ClassFault, ClassFile, Method, read_class};
use dj_code::{CodeFault, Typed, read_code};
use dj_frames::{Frame, entry_frame};
use dj_instructions::{Instruction, Kind};
use dj_names::{Constant, Items};
use std::alloc::{AllocError, Global};
use std::test::Fail;

/// A class `C` up to the content of the Code of its one method, static `f` of two ints and an int
/// result; the text at 8 is StackMapTable, and from 9 on stands what instructions may name: `f` as
/// a method, as an interface's and as an int field, a call site, a string, a handle, a method type,
/// and the class of arrays of arrays of ints.
const HEAD: [u8; 149] = [
    0xca, 0xfe, 0xba, 0xbe, 0x00, 0x00, 0x00, 0x34, 0x00, 0x15, 0x01, 0x00, 0x01, 0x43, 0x07, 0x00,
    0x01, 0x01, 0x00, 0x10, 0x6a, 0x61, 0x76, 0x61, 0x2f, 0x6c, 0x61, 0x6e, 0x67, 0x2f, 0x4f, 0x62,
    0x6a, 0x65, 0x63, 0x74, 0x07, 0x00, 0x03, 0x01, 0x00, 0x01, 0x66, 0x01, 0x00, 0x05, 0x28, 0x49,
    0x49, 0x29, 0x49, 0x01, 0x00, 0x04, 0x43, 0x6f, 0x64, 0x65, 0x01, 0x00, 0x0d, 0x53, 0x74, 0x61,
    0x63, 0x6b, 0x4d, 0x61, 0x70, 0x54, 0x61, 0x62, 0x6c, 0x65, 0x0c, 0x00, 0x05, 0x00, 0x06, 0x0a,
    0x00, 0x02, 0x00, 0x09, 0x0b, 0x00, 0x02, 0x00, 0x09, 0x01, 0x00, 0x01, 0x49, 0x0c, 0x00, 0x05,
    0x00, 0x0c, 0x09, 0x00, 0x02, 0x00, 0x0d, 0x12, 0x00, 0x00, 0x00, 0x09, 0x08, 0x00, 0x05, 0x0f,
    0x06, 0x00, 0x0a, 0x10, 0x00, 0x06, 0x01, 0x00, 0x03, 0x5b, 0x5b, 0x49, 0x07, 0x00, 0x13, 0x00,
    0x21, 0x00, 0x02, 0x00, 0x04, 0x00, 0x00, 0x00, 0x00, 0x00, 0x01, 0x00, 0x08, 0x00, 0x05, 0x00,
    0x06, 0x00, 0x01, 0x00, 0x07,
];

/// The bytes up to the content; of a function that says nothing, proofs carry no list of bytes.
fn head() -> &'static [u8] {
    &HEAD
}

/// The class whose Code has this content, as bytes.
fn class_with(alloc: Global, content: &[u8]) -> Result<Vec<u8>, AllocError> {
    let mut bytes = Vec::from_slice(alloc, head())?;
    let length = u32::try_from(content.len()).unwrap_or(0);
    bytes.extend_from_slice(&length.to_be_bytes())?;
    bytes.extend_from_slice(content)?;
    bytes.extend_from_slice(&[0, 0])?;
    Ok(bytes)
}

/// The frame that a method begins with.
fn first_frames(
    alloc: Global,
    class: &ClassFile,
    method: &Method,
) -> Result<Items<Frame>, AllocError> {
    let mut frames = Items::new(alloc);
    frames.push(entry_frame(alloc, &class.this_class, method)?)?;
    Ok(frames)
}

/// Code with frames, copied.
fn copied(alloc: Global, typed: &Typed) -> Result<Option<Typed>, AllocError> {
    Ok(Some(typed.copy(alloc)?))
}

/// The code of a class's first method with that frame, copied; none where it is bad.
fn code_of_method(
    alloc: Global,
    class: &ClassFile,
    method: &Method,
) -> Result<Option<Typed>, AllocError>
    requires first { slice_get class.now.methods 0 ≡ Some method.now }
    requires coded { IsSome method.now.code }
{
    let frames = first_frames(alloc, class, method)?;
    match read_code(alloc, class, 0) {
        Ok(code) => copied(alloc, &Typed { code, frames }),
        Err(CodeFault::BadCode { .. }) => Ok(None),
        Err(CodeFault::Memory(error)) => Err(error),
    }
}

/// The same of a class, where it has a method with code.
fn code_of_class(alloc: Global, class: &ClassFile) -> Result<Option<Typed>, AllocError> {
    match class.methods.get(0) {
        Some(method) => {
            if method.code.is_none() {
                return Ok(None);
            }
            code_of_method(alloc, class, method)
        }
        None => Ok(None),
    }
}

/// The same of the class whose Code has this content.
fn code_with(alloc: Global, content: &[u8]) -> Result<Option<Typed>, AllocError> {
    let bytes = class_with(alloc, content)?;
    match read_class(alloc, bytes.as_slice(), 50) {
        Ok(class) => code_of_class(alloc, &class),
        Err(ClassFault::Broken { .. }) => Ok(None),
        Err(ClassFault::Memory(error)) => Err(error),
    }
}

/// Contents of a Code, each with how many instructions it has, and the pcs of its frames.
static ROWS: [(&[u8], usize, &[u32]); 2] = [
    // A loop with frames at 0 and 11.
    (
        b"\x00\x02\x00\x02\x00\x00\x00\x0d\x1a\x1b\xa2\x00\x09\x84\x00\x01\xa7\xff\xf8\x1a\xac\x00\x00\x00\x01\x00\x08\x00\x00\x00\x04\x00\x02\x00\x0a",
        7,
        &[0, 11],
    ),
    // An instruction of each kind that names something, and both switches.
    (
        b"\x00\x02\x00\x02\x00\x00\x00\x5d\x12\x10\x12\x02\x12\x11\x12\x12\xb2\x00\x0e\xb3\x00\x0e\xb4\x00\x0e\xb5\x00\x0e\xb6\x00\x0a\xb7\x00\x0a\xb8\x00\x0a\xb9\x00\x0b\x03\x00\xba\x00\x0f\x00\x00\xbb\x00\x02\xbd\x00\x02\xc5\x00\x14\x02\xc0\x00\x02\xc1\x00\x02\xaa\x00\x00\x00\x11\x00\x00\x00\x00\x00\x00\x00\x00\x00\x00\x00\x11\xab\x00\x00\x00\x00\x00\x00\x14\x00\x00\x00\x01\x00\x00\x00\x05\x00\x00\x00\x14\xac\x00\x00\x00\x00",
        21,
        &[],
    ),
];

/// The rows, of which proofs carry no list.
fn rows() -> &'static [(&'static [u8], usize, &'static [u32])] {
    &ROWS
}

/// Whether code has so many instructions, the frame that it begins with, and others at these pcs.
fn has_parts(typed: &Typed, count: usize, frames: &[u32]) -> bool {
    let pcs = typed.code.frames.as_slice().iter().map(|frame| frame.0);
    typed.code.instructions.len() == count
        && typed.frames.len() == 1
        && pcs.eq(frames.iter().copied())
}

#[test]
fn code_is_read_and_copied(rt: HostRuntime) -> Result<(), Fail> {
    for (content, count, frames) in rows() {
        match code_with(rt.alloc(), content)? {
            Some(typed) => assert!(rt; has_parts(&typed, *count, frames), "{count}"),
            None => assert!(rt; false, "{count}"),
        }
    }
    Ok(())
}

/// `spin` of JVMS 3.2, which counts a local to 100.
fn spin() -> &'static [u8] {
    b"\x00\x02\x00\x02\x00\x00\x00\x0f\x03\x3c\xa7\x00\x06\x84\x01\x01\x1b\x10\x64\xa1\xff\xfa\xb1\x00\x00\x00\x00"
}

/// Its instructions.
fn spin_lines() -> &'static [(u32, char, i64)] {
    &[
        (0, 'p', 0),
        (1, 's', 1),
        (2, 'g', 8),
        (5, 'i', 1),
        (8, 'l', 1),
        (9, 'p', 100),
        (11, 'c', 5),
        (14, 'r', 0),
    ]
}

/// What an instruction is, by a letter, and a number of it.
fn told(instruction: &Instruction) -> (char, i64) {
    match instruction {
        Instruction::Push(Constant::Int(number)) => ('p', i64::from(*number)),
        Instruction::Load(Kind::Int, slot) => ('l', i64::from(*slot)),
        Instruction::Store(Kind::Int, slot) => ('s', i64::from(*slot)),
        Instruction::Iinc(_, by) => ('i', i64::from(*by)),
        Instruction::IfInts(_, to) => ('c', i64::from(*to)),
        Instruction::Goto(to) => ('g', i64::from(*to)),
        Instruction::Return(Some(_)) => ('r', 1),
        Instruction::Return(None) => ('r', 0),
        _ => ('?', 0),
    }
}

/// What the instructions of the code with this content are.
fn listed(alloc: Global, content: &[u8]) -> Result<Vec<(u32, char, i64)>, AllocError> {
    let mut lines = Vec::new(alloc);
    if let Some(typed) = code_with(alloc, content)? {
        for (pc, instruction) in typed.code.instructions.as_slice() {
            let (letter, number) = told(instruction);
            lines.push((*pc, letter, number))?;
        }
    }
    Ok(lines)
}

#[test]
fn a_loop_is_read(rt: HostRuntime) -> Result<(), Fail> {
    assert!(rt; listed(rt.alloc(), spin())?.as_slice() == spin_lines());
    Ok(())
}

/// Whether an instruction is a switch with these targets, the last for what is no key.
fn has_targets(instruction: &Instruction, wanted: &[u32], last: u32) -> bool {
    match instruction {
        Instruction::TableSwitch { targets, other, .. } => {
            targets.as_slice() == wanted && *other == last
        }
        Instruction::LookupSwitch { cases, other } => {
            let targets = cases.as_slice().iter().map(|case| case.1);
            targets.eq(wanted.iter().copied()) && *other == last
        }
        _ => false,
    }
}

/// Whether the second instruction of the code with this content is such a switch.
fn is_switch(alloc: Global, content: &[u8], wanted: &[u32], last: u32) -> Result<bool, AllocError> {
    match code_with(alloc, content)? {
        Some(typed) => Ok(match typed.code.instructions.get(1) {
            Some((_, instruction)) => has_targets(instruction, wanted, last),
            None => false,
        }),
        None => Ok(false),
    }
}

/// `chooseNear` and `chooseFar` of JVMS 3.10, switches by a table and by a lookup, with their targets.
static SWITCHES: [(&[u8], &[u32], u32); 2] = [
    (
        b"\x00\x02\x00\x02\x00\x00\x00\x24\x1b\xaa\x00\x00\x00\x00\x00\x21\x00\x00\x00\x00\x00\x00\x00\x02\x00\x00\x00\x1b\x00\x00\x00\x1d\x00\x00\x00\x1f\x03\xac\x04\xac\x05\xac\x02\xac\x00\x00\x00\x00",
        &[28, 30, 32],
        34,
    ),
    (
        b"\x00\x02\x00\x02\x00\x00\x00\x2c\x1b\xab\x00\x00\x00\x00\x00\x29\x00\x00\x00\x03\xff\xff\xff\x9c\x00\x00\x00\x23\x00\x00\x00\x00\x00\x00\x00\x25\x00\x00\x00\x64\x00\x00\x00\x27\x02\xac\x03\xac\x04\xac\x05\xac\x00\x00\x00\x00",
        &[36, 38, 40],
        42,
    ),
];

/// The switches, of which proofs carry no list.
fn switches() -> &'static [(&'static [u8], &'static [u32], u32)] {
    &SWITCHES
}

#[test]
fn switches_are_read(rt: HostRuntime) -> Result<(), Fail> {
    for (content, wanted, last) in switches() {
        assert!(rt; is_switch(rt.alloc(), content, wanted, *last)?);
    }
    Ok(())
}
