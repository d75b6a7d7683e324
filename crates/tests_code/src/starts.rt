//! Edges, what control reaches, block starts and births.
ghost use Rattle.dj_instructions.specs.Instructions.{IsRising, view_instructions};

use crate::made::{Sketch, method};
use dj_code::{BadKind, Code, Instruction, Typed};
use dj_headers::Headers;
use dj_layout::Stop;
use dj_names::Items;
use dj_starts::{Birth, Control, births, block_starts, can_throw, control_of, edges, reached};
use dj_verify::verify;
use std::alloc::{AllocError, Global};
use std::test::Fail;

/// The targets of the ways from the instruction at a pc, 1,000 more where an exception takes them.
fn ways(alloc: Global, code: &Code, pc: u32) -> Result<Items<u32>, AllocError>
    requires rising { IsRising (view_instructions code.now.instructions) }
{
    let mut ways = Items::new(alloc);
    for way in edges(alloc, code, pc)?.as_slice() {
        let more = if way.caught { 1000 } else { 0 };
        ways.push(way.target.wrapping_add(more))?;
    }
    Ok(ways)
}

/// The pcs of the instructions that control reaches.
fn reached_pcs(alloc: Global, code: &Code) -> Result<Items<u32>, AllocError>
    requires rising { IsRising (view_instructions code.now.instructions) }
{
    let seen = reached(alloc, code)?;
    let mut pcs = Items::new(alloc);
    for at in code.instructions.as_slice() {
        if seen.get(at.0 as usize) == Some(&true) {
            pcs.push(at.0)?;
        }
    }
    Ok(pcs)
}

/// The block starts of code whose frames aren't known.
fn starts(alloc: Global, code: Code) -> Result<Items<u32>, AllocError>
    requires rising { IsRising (view_instructions code.instructions) }
{
    let frames = Items::new(alloc);
    let typed = Typed { code, frames };
    let starts = block_starts(alloc, &typed)?;
    Ok(starts)
}

/// A method of nothing with this code, this handler and these frames.
fn sketch(
    bytes: &'static [u8],
    handler: Option<(u32, u32, u32)>,
    frames: &'static [(u32, u8, u8)],
) -> Sketch {
    Sketch {
        bytes,
        max_locals: 0,
        handler,
        frames,
    }
}

/// Code by its bytes, its handler and the frames that it gives, and what is told of it: the ways from the instruction at
/// 1, what is reached, and where blocks start.
type Row = (
    &'static [u8],
    Option<(u32, u32, u32)>,
    &'static [(u32, u8, u8)],
    &'static [u32],
    &'static [u32],
    &'static [u32],
);

fn rows() -> &'static [Row] {
    &ROWS
}

static ROWS: [Row; 4] = [
    // iconst_0, ifeq 5, nop, return
    (
        b"\x03\x99\x00\x04\x00\xb1",
        None,
        &[],
        &[4, 5],
        &[0, 1, 4, 5],
        &[0, 4, 5],
    ),
    // nop, goto 5, nop, return
    (
        b"\x00\xa7\x00\x04\x00\xb1",
        None,
        &[],
        &[5],
        &[0, 1, 5],
        &[0, 5],
    ),
    // nop, nop, goto 6, nop, return; frames given where nothing jumps, at 1, and where nothing gets, at 5
    (
        b"\x00\x00\xa7\x00\x04\x00\xb1",
        None,
        &[(1, b'-', b'-'), (5, b'-', b'-')],
        &[2],
        &[0, 1, 2, 6],
        &[0, 1, 6],
    ),
    // aconst_null, arraylength, pop, return; a handler at 4: pop, return
    (
        b"\x01\xbe\x57\xb1\x57\xb1",
        Some((0, 2, 4)),
        &[],
        &[2, 1004],
        &[0, 1, 2, 3, 4, 5],
        &[0, 2, 4],
    ),
];

/// Whether a row is told so.
fn is_told(alloc: Global, row: &Row) -> Result<bool, Stop<BadKind>> {
    let code = method(alloc, &sketch(row.0, row.1, row.2))?;
    let ways = ways(alloc, &code, 1)?;
    let pcs = reached_pcs(alloc, &code)?;
    let starts = starts(alloc, code)?;
    Ok(ways.as_slice() == row.3 && pcs.as_slice() == row.4 && starts.as_slice() == row.5)
}

#[test]
fn ways_and_starts_are_those_of_the_table(rt: HostRuntime) -> Result<(), Fail> {
    for row in rows() {
        assert!(rt; matches!(is_told(rt.alloc(), row), Ok(true)));
    }
    Ok(())
}

/// The births of typed code, of which there is at most one here.
fn only_birth(alloc: Global, code: Code) -> Result<Option<Birth>, AllocError>
    requires rising { IsRising (view_instructions code.instructions) }
{
    let Ok(typed) = verify(alloc, &Headers::new(alloc), code) else {
        return Ok(None);
    };
    let births = births(alloc, &typed)?;
    Ok(births.get(0).copied())
}

/// The birth in code with a `new`, `dup`, the call of the constructor, `pop` and `return`.
fn birth(alloc: Global) -> Result<Option<Birth>, Stop<BadKind>> {
    let code = method(
        alloc,
        &sketch(b"\xbb\x00\x02\x59\xb7\x00\x06\x57\xb1", None, &[]),
    )?;
    let birth = only_birth(alloc, code)?;
    Ok(birth)
}

#[test]
fn a_birth_goes_to_the_constructor_call(rt: HostRuntime) {
    let wanted = Birth {
        start: 0,
        end: 4,
        written: true,
    };
    assert!(rt; matches!(birth(rt.alloc()), Ok(Some(birth)) if birth == wanted));
}

#[test]
fn an_array_length_can_throw_and_a_jump_cannot(rt: HostRuntime) -> Result<(), Fail> {
    assert!(rt; can_throw(&Instruction::ArrayLength));
    assert!(rt; !can_throw(&Instruction::Goto(0)));
    assert!(rt; matches!(control_of(&Instruction::Goto(0)), Control::Jump));
    Ok(())
}
