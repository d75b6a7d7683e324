//! The code of a method by its parts (JVMS 4.7.3).

ghost use Rattle.std.specs.Prelude.{◌≡◌, IfOk};

use dj_frames::Frame;
use dj_instructions::Instruction;
use dj_names::{ClassName, Descriptor, Items, Units, copy_names};
use std::alloc::{AllocError, Global};

/// An entry of the exception table: the pcs where its range begins and ends, the pc of its handler,
/// and the class that it takes, None for all.
#[derive(Drop)]
pub struct Handler {
    pub start: u32,
    pub end: u32,
    pub target: u32,
    pub class: Option<ClassName>,
}

impl Handler {
    /// An equal entry.
    pub fn copy(&self, alloc: Global) -> Result<Handler, AllocError>
        ensures equal { IfOk result (λ copy. copy ≡ self.now) }
    {
        let class = match &self.class {
            Some(name) => Some(name.copy(alloc)?),
            None => None,
        };
        Ok(Handler {
            start: self.start,
            end: self.end,
            target: self.target,
            class,
        })
    }
}

/// The code of a method: the method's class and head, the limits, the instructions by their pcs, the
/// exception table in order, and the frames that the class file gives, by their pcs.
#[derive(Drop)]
pub struct Code {
    pub class: ClassName,
    pub name: Units,
    pub flags: u16,
    /// Whether the class is an interface.
    pub interface: bool,
    pub descriptor: Descriptor,
    pub thrown: Items<ClassName>,
    pub max_stack: u16,
    pub max_locals: u16,
    pub instructions: Items<(u32, Instruction)>,
    pub handlers: Items<Handler>,
    pub frames: Items<(u32, Frame)>,
}

impl Code {
    /// Equal code, which shares names, types and frames with this one.
    pub fn copy(&self, alloc: Global) -> Result<Code, AllocError>
        ensures equal { IfOk result (λ copy. copy ≡ self.now) }
    {
        Ok(Code {
            class: self.class.copy(alloc)?,
            name: self.name.copy(alloc)?,
            flags: self.flags,
            interface: self.interface,
            descriptor: self.descriptor.copy(alloc)?,
            thrown: copy_names(alloc, self.thrown.as_slice())?,
            max_stack: self.max_stack,
            max_locals: self.max_locals,
            instructions: copy_instructions(alloc, self.instructions.as_slice())?,
            handlers: copy_handlers(alloc, self.handlers.as_slice())?,
            frames: copy_given(alloc, self.frames.as_slice())?,
        })
    }
}

/// Code with a frame for each instruction.
#[derive(Drop)]
pub struct Typed {
    pub code: Code,
    pub frames: Items<Frame>,
}

impl Typed {
    /// Equal code with equal frames.
    pub fn copy(&self, alloc: Global) -> Result<Typed, AllocError>
        ensures equal { IfOk result (λ copy. copy ≡ self.now) }
    {
        Ok(Typed {
            code: self.code.copy(alloc)?,
            frames: copy_frames(alloc, self.frames.as_slice())?,
        })
    }
}

/// Equal instructions, in order.
fn copy_instructions(
    alloc: Global,
    instructions: &[(u32, Instruction)],
) -> Result<Items<(u32, Instruction)>, AllocError>
    ensures equal { IfOk result (λ copy. copy ≡ instructions.now) }
{
    let mut copy = Items::new(alloc);
    for at in instructions {
        copy.push((at.0, at.1.copy(alloc)?))?;
    }
    Ok(copy)
}

/// Equal entries of an exception table, in order.
fn copy_handlers(alloc: Global, handlers: &[Handler]) -> Result<Items<Handler>, AllocError>
    ensures equal { IfOk result (λ copy. copy ≡ handlers.now) }
{
    let mut copy = Items::new(alloc);
    for handler in handlers {
        copy.push(handler.copy(alloc)?)?;
    }
    Ok(copy)
}

/// Equal frames by their pcs, in order.
fn copy_given(alloc: Global, frames: &[(u32, Frame)]) -> Result<Items<(u32, Frame)>, AllocError>
    ensures equal { IfOk result (λ copy. copy ≡ frames.now) }
{
    let mut copy = Items::new(alloc);
    for at in frames {
        copy.push((at.0, at.1.copy(alloc)?))?;
    }
    Ok(copy)
}

/// Equal frames, in order.
fn copy_frames(alloc: Global, frames: &[Frame]) -> Result<Items<Frame>, AllocError>
    ensures equal { IfOk result (λ copy. copy ≡ frames.now) }
{
    let mut copy = Items::new(alloc);
    for frame in frames {
        copy.push(frame.copy(alloc)?)?;
    }
    Ok(copy)
}
