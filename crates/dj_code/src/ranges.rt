//! Whether the exception table is right (JVMS 4.7.3).

ghost use Rattle.std.specs.Prelude.{◌≡◌, ◌↔◌, All, IsTrue, IfOk, MatchOption, map};
ghost use Rattle.dj_instructions.specs.Instructions.{view_instructions, IsRising};
ghost use Rattle.dj_code.specs.Targets.{IsLeast, LeadsRight, RangesRight, StartsWrong, class_taken, handler_of};

use crate::content::RawHandler;
use crate::method_code::Handler;
use crate::targets::least_wrong;
use dj_instructions::{Instruction, is_start};
use dj_names::{ClassName, Items};
use dj_pool::{Pool, class_name_of, is_class_index};
use std::alloc::{AllocError, Global};

/// Whether an entry's handler is an instruction.
fn leads_right(instructions: &[(u32, Instruction)], handler: &RawHandler) -> bool
    requires rising { IsRising (view_instructions instructions.now) }
    ensures exact { IsTrue result ↔ LeadsRight (view_instructions instructions.now) handler.now }
{
    is_start(instructions, u32::from(handler.target))
}

/// The least start among the entries whose handler is no instruction.
pub fn wrong_target(instructions: &[(u32, Instruction)], handlers: &[RawHandler]) -> Option<u32>
    requires rising { IsRising (view_instructions instructions.now) }
    ensures least { MatchOption result (All (LeadsRight (view_instructions instructions.now)) handlers.now) (IsLeast (StartsWrong (LeadsRight (view_instructions instructions.now)) handlers.now)) }
{
    let mut least = None;
    for handler in handlers {
        let right = leads_right(instructions, handler);
        least = least_wrong(right, least, u32::from(handler.start));
    }
    least
}

/// Whether an entry's range and class are right in code of this size.
fn ranges_right(
    pool: &Pool,
    instructions: &[(u32, Instruction)],
    size: usize,
    handler: &RawHandler,
) -> bool
    requires rising { IsRising (view_instructions instructions.now) }
    ensures exact { IsTrue result ↔ RangesRight pool.now (view_instructions instructions.now) size handler.now }
{
    is_start(instructions, u32::from(handler.start))
        && (is_start(instructions, u32::from(handler.end)) || usize::from(handler.end) == size)
        && handler.start < handler.end
        && (handler.class == 0 || is_class_index(pool, handler.class))
}

/// The least start among the entries whose range or class isn't right.
pub fn wrong_range(
    pool: &Pool,
    instructions: &[(u32, Instruction)],
    size: usize,
    handlers: &[RawHandler],
) -> Option<u32>
    requires rising { IsRising (view_instructions instructions.now) }
    ensures least { MatchOption result (All (RangesRight pool.now (view_instructions instructions.now) size) handlers.now) (IsLeast (StartsWrong (RangesRight pool.now (view_instructions instructions.now) size) handlers.now)) }
{
    let mut least = None;
    for handler in handlers {
        let right = ranges_right(pool, instructions, size, handler);
        least = least_wrong(right, least, u32::from(handler.start));
    }
    least
}

/// The class that an entry takes.
fn class_taken(alloc: Global, pool: &Pool, index: u16) -> Result<Option<ClassName>, AllocError>
    ensures class { IfOk result (λ class. class ≡ class_taken pool.now index) }
{
    if index == 0 {
        return Ok(None);
    }
    class_name_of(alloc, pool, index)
}

/// The entries of an exception table with the classes that they take.
pub fn handlers_of(
    alloc: Global,
    pool: &Pool,
    handlers: &[RawHandler],
) -> Result<Items<Handler>, AllocError>
    ensures handlers { IfOk result (λ found. found ≡ map (handler_of pool.now) handlers.now) }
{
    let mut found = Items::new(alloc);
    for handler in handlers {
        let class = class_taken(alloc, pool, handler.class)?;
        found.push(Handler {
            start: u32::from(handler.start),
            end: u32::from(handler.end),
            target: u32::from(handler.target),
            class,
        })?;
    }
    Ok(found)
}
