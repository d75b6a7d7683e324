//! Frames from outside, with Top in the locals of which they say nothing.

ghost use Rattle.std.specs.Prelude.{◌≡◌, IfOk};
ghost use Rattle.dj_class.specs.Views.{view_method};
ghost use Rattle.dj_code.specs.MethodCode.{view_code};
ghost use Rattle.dj_verify.specs.Rules.{padded, head_of, entry};
ghost use Rattle.dj_verify.specs.Frames.{working_of};

use dj_class::Method;
use dj_code::Code;
use dj_frames::{Frame, entry_frame};
use dj_names::Items;
use std::alloc::{AllocError, Global};

/// The same frame with all locals; those that are put behind share one part.
pub fn padded_frame(alloc: Global, frame: &Frame, max_locals: u16) -> Result<Frame, AllocError>
    ensures padded { IfOk result (λ all. working_of all ≡ padded max_locals (working_of frame.now)) }
{
    let mut all = frame.copy(alloc)?;
    all.locals.pad(alloc, usize::from(max_locals))?;
    Ok(all)
}

/// The head of the method whose code it is.
fn head_of(alloc: Global, code: &Code) -> Result<Method, AllocError>
    ensures head { IfOk result (λ method. view_method method ≡ head_of (view_code code.now)) }
{
    Ok(Method {
        flags: code.flags,
        name: code.name.copy(alloc)?,
        descriptor: code.descriptor.copy(alloc)?,
        thrown: Items::new(alloc),
        code: None,
    })
}

/// The frame that the method begins with.
pub fn entry(alloc: Global, code: &Code) -> Result<Frame, AllocError>
    ensures entry { IfOk result (λ frame. working_of frame ≡ entry (view_code code.now)) }
{
    let method = head_of(alloc, code)?;
    let frame = entry_frame(alloc, &code.class, &method)?;
    let all = padded_frame(alloc, &frame, code.max_locals)?;
    Ok(all)
}
