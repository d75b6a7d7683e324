//! What a run has, and where it is (JVMS 2.6).

ghost use Rattle.std.specs.Prelude.{◌≡◌};
ghost use Rattle.dj_instructions.specs.Instructions.{view_instructions};
ghost use Rattle.dj_bytecode.specs.Machine as machine;
ghost use Rattle.dj_machine.specs.Runs.{IsReady};

use crate::locals::Locals;
use crate::starts::Starts;
use dj_code::{Code, Instruction};
use dj_headers::Headers;
use dj_operands::Stack;
use dj_outside::Outside;
use dj_values::Value;
use std::alloc::Global;

/// The method that runs, where its instructions begin, and the classes there are.
#[derive(Clone, Copy)]
pub struct Method<'a> {
    pub alloc: Global,
    pub headers: &'a Headers,
    pub code: &'a Code,
    pub starts: &'a Starts,
}

impl<'a> Method<'a> {
    /// The instructions from an offset on, none where none begins there.
    pub fn code_from(&self, pc: u32) -> &'a [(u32, Instruction)]
        requires ready { IsReady self.now }
        ensures from { view_instructions result.now ≡ machine.code_from pc (view_instructions self.now.code.now.instructions) }
    {
        self.starts.code_from(self.code.instructions.as_slice(), pc)
    }
}

/// What a run has: a stack, locals, and the outside.
#[derive(Drop)]
pub struct Run<'a> {
    pub stack: Stack,
    pub locals: Locals,
    pub outside: Outside<'a>,
}

/// Where a run is: before some instructions, or at its end.
#[derive(Drop)]
pub enum Place<'a> {
    Before(&'a [(u32, Instruction)]),
    Returned(Option<Value>),
}
