//! The table of a method with a loop and a handler, what Java asks besides, and violations that the stored run of `files_check` doesn't have.
ghost use Rattle.dj_code.specs.MethodCode.{view_typed};
ghost use Rattle.dj_instructions.specs.Instructions.{IsRising, view_instructions};
ghost use Rattle.dj_verify.specs.Tabled.{HasTable};

use crate::made::{Sketch, method};
use dj_code::{Frame, Tag, Typed};
use dj_headers::Headers;
use dj_verify::{Rule, VerifyFault, strict, verify};
use std::alloc::{AllocError, Global};
use std::test::Fail;

/// What is told of a method, as far as a test looks.
#[derive(Clone, Copy, Debug, PartialEq, Eq)]
enum Told {
    /// So many frames.
    Typed(usize),
    Unverified(u32, Rule),
    /// Bytes that are no code.
    NoCode,
    NoMemory,
}

/// What is told of a method, in a world without classes.
fn outcome(alloc: Global, sketch: &Sketch) -> Told {
    let Ok(code) = method(alloc, sketch) else {
        return Told::NoCode;
    };
    match verify(alloc, &Headers::new(alloc), code) {
        Ok(typed) => Told::Typed(typed.frames.len()),
        Err(VerifyFault::Unverified { pc, rule }) => Told::Unverified(pc, rule),
        Err(VerifyFault::Memory(_)) => Told::NoMemory,
    }
}

/// What is told of typed code, by what Java asks of references.
fn strictly(alloc: Global, headers: &Headers, typed: &Typed) -> Told
    requires rising { IsRising (view_instructions typed.now.code.instructions) }
    requires table { HasTable (view_typed typed.now) }
{
    match strict(alloc, headers, typed) {
        Ok(()) => Told::Typed(typed.frames.len()),
        Err(VerifyFault::Unverified { pc, rule }) => Told::Unverified(pc, rule),
        Err(VerifyFault::Memory(_)) => Told::NoMemory,
    }
}

/// What is told of a method that has a table, likewise.
fn strict_outcome(alloc: Global, headers: &Headers, sketch: &Sketch) -> Told {
    let Ok(code) = method(alloc, sketch) else {
        return Told::NoCode;
    };
    match verify(alloc, headers, code) {
        Ok(typed) => strictly(alloc, headers, &typed),
        Err(_) => Told::NoCode,
    }
}

/// The same in a world without classes.
fn strict_alone(alloc: Global, sketch: &Sketch) -> Told {
    let headers = Headers::new(alloc);
    strict_outcome(alloc, &headers, sketch)
}

/// The frames that the loop wants.
const LOOP: &[(u32, u8, u8)] = &[
    (2, b'I', b'-'),
    (14, b'I', b'-'),
    (17, b'I', b'T'),
    (18, b'I', b'-'),
];

/// So too, but nothing on the stack of the handler's.
const CATCHES_NOTHING: &[(u32, u8, u8)] = &[
    (2, b'I', b'-'),
    (14, b'I', b'-'),
    (17, b'I', b'-'),
    (18, b'I', b'-'),
];

/// Frames that hold nothing, the last one first.
const LATEST_FIRST: &[(u32, u8, u8)] = &[(5, b'-', b'-'), (4, b'-', b'-'), (3, b'-', b'-')];

/// A method of nothing with one local.
fn sketch(
    bytes: &'static [u8],
    handler: Option<(u32, u32, u32)>,
    frames: &'static [(u32, u8, u8)],
) -> Sketch {
    Sketch {
        bytes,
        max_locals: 1,
        handler,
        frames,
    }
}

/// Counts a local to ten, inside a handler of everything.
fn counts(frames: &'static [(u32, u8, u8)]) -> Sketch {
    sketch(
        b"\x03\x3b\x1a\x10\x0a\xa2\x00\x09\x84\x00\x01\xa7\xff\xf7\xa7\x00\x04\x57\xb1",
        Some((2, 14, 17)),
        frames,
    )
}

/// What the local of a frame is, by a letter, and how many entries its stack has.
fn shape(frame: &Frame) -> (u8, usize) {
    let letter = match frame.locals.get(0) {
        Some(Tag::Int) => b'I',
        Some(Tag::Top) => b'.',
        _ => b'?',
    };
    (letter, frame.stack.len())
}

/// Whether a method is typed, and its frames have these shapes.
fn has_shapes(
    alloc: Global,
    sketch: &Sketch,
    expected: &[(u8, usize)],
) -> Result<bool, AllocError> {
    let mut shapes = Vec::new(alloc);
    let Ok(code) = method(alloc, sketch) else {
        return Ok(false);
    };
    if let Ok(typed) = verify(alloc, &Headers::new(alloc), code) {
        for frame in typed.frames.as_slice() {
            shapes.push(shape(frame))?;
        }
    }
    Ok(shapes.as_slice() == expected)
}

#[test]
fn a_loop_with_a_handler_has_a_table(rt: HostRuntime) -> Result<(), Fail> {
    let shapes = [
        (b'.', 0),
        (b'.', 1),
        (b'I', 0),
        (b'I', 1),
        (b'I', 2),
        (b'I', 0),
        (b'I', 0),
        (b'I', 0),
        (b'I', 1),
        (b'I', 0),
    ];
    assert!(rt; has_shapes(rt.alloc(), &counts(LOOP), &shapes)?);
    Ok(())
}

/// Stores a Throwable where the frame behind wants a Runnable.
fn stores() -> Sketch {
    sketch(
        b"\x00\xb1\x4b\xb1",
        Some((0, 1, 2)),
        &[(2, b'-', b'T'), (3, b'R', b'-')],
    )
}

#[test]
fn java_asks_more_than_the_machine(rt: HostRuntime) -> Result<(), Fail> {
    let stores = stores();
    assert_eq!(rt; outcome(rt.alloc(), &stores), Told::Typed(4));
    assert_eq!(rt;
        strict_alone(rt.alloc(), &stores),
        Told::Unverified(3, Rule::Into)
    );
    assert_eq!(rt; strict_alone(rt.alloc(), &counts(LOOP)), Told::Typed(10));
    Ok(())
}

/// Methods, each with what is told of it.
fn methods() -> [(Sketch, Told); 2] {
    [
        // The handler's frame wants nothing on the stack.
        (counts(CATCHES_NOTHING), Told::Unverified(2, Rule::Handler)),
        // A `pop` of nothing at 3 and at 4, of which the frame of the later one is given first.
        (
            sketch(b"\xa7\x00\x05\x57\x57\xb1", None, LATEST_FIRST),
            Told::Unverified(3, Rule::Operands),
        ),
    ]
}

#[test]
fn the_first_violation_is_told(rt: HostRuntime) -> Result<(), Fail> {
    for (sketch, expected) in methods() {
        assert_eq!(rt; outcome(rt.alloc(), &sketch), expected);
    }
    Ok(())
}
