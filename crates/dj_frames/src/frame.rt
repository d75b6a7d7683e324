//! A frame: what the locals and the operand stack hold at an instruction (JVMS 4.7.4, 4.10.1.4).

ghost use Rattle.std.specs.Prelude.{◌≡◌, IfOk};

use crate::slots::Slots;
use std::alloc::{AllocError, Global};

/// The locals, where a Long or a Double is followed by a Top; the operand stack from the bottom,
/// each value one entry; and whether `this` isn't constructed yet.
#[derive(Drop)]
pub struct Frame {
    pub locals: Slots,
    pub stack: Slots,
    pub unborn_this: bool,
}

impl Frame {
    /// An equal frame, which shares its locals and its stack with this one.
    pub fn copy(&self, alloc: Global) -> Result<Frame, AllocError>
        ensures equal { IfOk result (λ copy. copy ≡ self.now) }
    {
        Ok(Frame {
            locals: self.locals.copy(alloc)?,
            stack: self.stack.copy(alloc)?,
            unborn_this: self.unborn_this,
        })
    }
}
