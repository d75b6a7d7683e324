//! The handlers of blocks, by the numbers of catchers.

ghost use Rattle.std.specs.Prelude.{◌≡◌, [], map, length, IfOk};
ghost use Rattle.dj_split.specs.Ranges as spec;
ghost use Rattle.dj_split.specs.Ranges.{numbers_at, handlers_of};

use crate::catchers::Range;
use dj_graph::Context;
use std::alloc::{AllocError, Global};

/// Whether a range has a pc.
fn has(range: &Range, pc: u32) -> bool
    ensures has { result ≡ spec.has range.now pc }
{
    range.start <= pc && pc < range.end
}

/// The catchers of what is thrown at a pc, up to and with the first that takes everything.
fn numbers_at(alloc: Global, ranges: &[Range], pc: u32) -> Result<Vec<u32>, AllocError>
    ensures numbers { IfOk result (λ numbers. numbers.items ≡ numbers_at ranges.now pc) }
{
    let mut numbers = Vec::new(alloc);
    let mut left = ranges;
    while let [range, rest @ ..] = left {
        if has(range, pc) {
            numbers.push(range.catcher)?;
            if range.all {
                return Ok(numbers);
            }
        }
        left = rest;
    }
    Ok(numbers)
}

/// The context of a block: its handlers, and no monitors.
fn context_at(alloc: Global, ranges: &[Range], pc: u32) -> Result<Context, AllocError>
    ensures handlers { IfOk result (λ context. context.handlers.items ≡ numbers_at ranges.now pc) }
    ensures free { IfOk result (λ context. context.monitors.items ≡ []) }
{
    let handlers = numbers_at(alloc, ranges, pc)?;
    Ok(Context {
        handlers,
        monitors: Vec::new(alloc),
    })
}

/// The contexts of the blocks that start at these pcs.
pub fn contexts(alloc: Global, ranges: &[Range], starts: &[u32]) -> Result<Vec<Context>, AllocError>
    ensures handlers { IfOk result (λ contexts. handlers_of contexts.items ≡ map (numbers_at ranges.now) starts.now) }
    ensures free { IfOk result (λ contexts. map (λ context. context.monitors.items) contexts.items ≡ map (λ start. []) starts.now) }
{
    let mut contexts = Vec::new(alloc);
    for start in starts {
        let context = context_at(alloc, ranges, *start)?;
        contexts.push(context)?;
    }
    Ok(contexts)
}
