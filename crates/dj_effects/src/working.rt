//! A frame as an instruction works on it.

ghost use Rattle.std.specs.Prelude.{◌≡◌, IfOk, OnOk};
ghost use Rattle.dj_frames.specs.Frames.{view_frame};
ghost use Rattle.dj_tags.specs.Goes.{top_down};
ghost use Rattle.dj_effects.specs.Doing.{view_working};

use crate::stack::Stack;
use dj_frames::{Frame, Slots};
use std::alloc::{AllocError, Global};

/// The locals, the operand stack and whether `this` isn't constructed yet, to be changed.
#[derive(Drop)]
pub struct Working {
    pub locals: Slots,
    pub stack: Stack,
    pub unborn_this: bool,
}

impl Working {
    /// A frame to be changed, which shares its parts with the one that stays.
    pub fn from_frame(alloc: Global, frame: &Frame) -> Result<Working, AllocError>
        ensures same { IfOk result (λ working. view_working working ≡ top_down (view_frame frame.now)) }
    {
        Ok(Working {
            locals: frame.locals.copy(alloc)?,
            stack: Stack::from_slots(alloc, &frame.stack)?,
            unborn_this: frame.unborn_this,
        })
    }

    /// The frame that it is now, which shares its parts with it.
    pub fn frame(&mut self, alloc: Global) -> Result<Frame, AllocError>
        ensures frame { IfOk result (λ frame. top_down (view_frame frame) ≡ view_working self.old) }
        ensures same { OnOk result (view_working self.new ≡ view_working self.old) }
    {
        let stack = self.stack.slots(alloc)?;
        Ok(Frame {
            locals: self.locals.copy(alloc)?,
            stack,
            unborn_this: self.unborn_this,
        })
    }

    /// Lays what was pushed on the stack with what was there before, where it is more than 16 entries.
    pub fn settle(&mut self, alloc: Global) -> Result<(), AllocError>
        ensures same { OnOk result (view_working self.new ≡ view_working self.old) }
    {
        self.stack.settle(alloc)?;
        Ok(())
    }
}
