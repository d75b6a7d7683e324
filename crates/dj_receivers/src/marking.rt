//! The marks of `this` on the operand stack, along the ways of control.

ghost use Rattle.std.specs.Prelude.{◌≡◌, ◌≤◌, ◌<◌, length, map, reverse, IfOk, OnOk};
ghost use Rattle.dj_instructions.specs.Instructions.{IsRising, view_instructions};
ghost use Rattle.dj_frames.specs.Frames.{view_frame};
ghost use Rattle.dj_code.specs.MethodCode.{view_typed};
ghost use Rattle.dj_receivers.specs.Receivers as spec;
ghost use Rattle.dj_receivers.specs.Walks.{tallest, IsLowered, Lowers, Sends, SendsAll};

use crate::bits::{cut, has_more, met};
use crate::places::place_of;
use dj_code::Typed;
use dj_names::Items;
use dj_starts::{Edge, is_marked};
use std::alloc::{AllocError, Global};

/// What is known of marks: for each pc to which control jumps those that hold on each way there that
/// was looked at, the bottom entry first; the pcs from where ways are to be looked at again; which calls
/// are on `this`, by their pcs; and the marks that hold here.
#[derive(Drop)]
pub struct Marking {
    pub table: Items<Option<Items<bool>>>,
    pub waiting: Items<u32>,
    pub calls: Items<bool>,
    pub now: Items<bool>,
}

/// How many entries the stack has before the instruction at a pc.
pub fn height_at(typed: &Typed, pc: u32) -> usize
    requires rising { IsRising (view_instructions typed.now.code.instructions) }
    ensures height { result ≡ spec.height_at (view_instructions typed.now.code.instructions) (map view_frame typed.now.frames) pc }
    ensures low { result ≤ tallest (map view_frame typed.now.frames) }
{
    match place_of(typed.code.instructions.as_slice(), pc) {
        Ok(place) => match typed.frames.get(place) {
            Some(frame) => frame.stack.len(),
            None => 0,
        },
        Err(_) => 0,
    }
}

/// What is to be kept in the place of what is known, by marks of which so many count; nothing where no mark falls.
fn lowered(
    alloc: Global,
    known: &Option<Items<bool>>,
    marks: &[bool],
    height: usize,
) -> Result<Option<Items<bool>>, AllocError>
    ensures lowered { IfOk result (IsLowered known.now (reverse marks.now) height) }
{
    match known {
        None => {
            let found = cut(alloc, marks, height)?;
            Ok(Some(found))
        }
        Some(known) => {
            if has_more(known.as_slice(), marks, height) {
                let found = met(alloc, known.as_slice(), marks, height)?;
                Ok(Some(found))
            } else {
                Ok(None)
            }
        }
    }
}

/// Takes the marks that hold here along to a pc, so many of them.
fn lower(alloc: Global, pc: u32, height: usize, marking: &mut Marking) -> Result<(), AllocError>
    ensures lowers { OnOk result (Lowers marking.old marking.new pc height) }
{
    let place = pc as usize;
    if place < marking.table.len() {
        let known = &marking.table.as_slice()[place];
        if let Some(found) = lowered(alloc, known, marking.now.as_slice(), height)? {
            marking.table.set(place, Some(found));
            marking.waiting.push(pc)?;
        }
    }
    Ok(())
}

/// Takes them along a way.
fn send(alloc: Global, typed: &Typed, way: &Edge, marking: &mut Marking) -> Result<(), AllocError>
    requires rising { IsRising (view_instructions typed.now.code.instructions) }
    ensures sends { OnOk result (Sends (view_typed typed.now) marking.old marking.new way.now) }
{
    let height = if way.caught {
        0
    } else {
        height_at(typed, way.target)
    };
    lower(alloc, way.target, height, marking)?;
    Ok(())
}

/// Takes them along each way that leads to where control jumps.
pub fn send_all(
    alloc: Global,
    typed: &Typed,
    joins: &[bool],
    ways: &[Edge],
    marking: &mut Marking,
) -> Result<(), AllocError>
    requires rising { IsRising (view_instructions typed.now.code.instructions) }
    ensures sends { OnOk result (SendsAll (view_typed typed.now) joins.now marking.old marking.new ways.now) }
{
    for way in ways {
        if is_marked(joins, way.target) {
            send(alloc, typed, way, marking)?;
        }
    }
    Ok(())
}
