//! Methods made from the bytes of their code, with frames spelled by letters.
ghost use Rattle.std.specs.Prelude.{IfOk};
ghost use Rattle.dj_instructions.specs.Instructions.{IsRising, view_instructions};

use dj_class::{Entry, Pool};
use dj_code::{BadKind, Code, Frame, Handler, Instruction, Slots, Tag, read_instructions};
use dj_headers::class_of;
use dj_layout::{Fault, Stop};
use dj_names::{Descriptor, Items, JType, SharedList, Units};
use std::alloc::{AllocError, Global};

/// A static method `f` of `C`, of nothing, whose stack has two words at most: its code, how many locals it has, the
/// pcs where a handler's range begins and ends and where the handler is, and the frames that it gives by their pcs, each
/// with a letter for the first local and one for the stack, `-` where nothing is there.
#[derive(Clone, Copy)]
pub struct Sketch {
    pub bytes: &'static [u8],
    pub max_locals: u16,
    pub handler: Option<(u32, u32, u32)>,
    pub frames: &'static [(u32, u8, u8)],
}

/// The tag of a letter: an int, a Throwable, a Runnable, or nothing known.
fn tag(alloc: Global, letter: u8) -> Result<Tag, AllocError> {
    match letter {
        b'I' => Ok(Tag::Int),
        b'T' => Ok(Tag::Object(JType::Class(class_of(alloc, "java/lang/Throwable")?))),
        b'R' => Ok(Tag::Object(JType::Class(class_of(alloc, "java/lang/Runnable")?))),
        _ => Ok(Tag::Top),
    }
}

/// One tag, or none.
fn slots(alloc: Global, letter: u8) -> Result<Slots, AllocError> {
    let mut slots = Slots::new();
    if letter != b'-' {
        slots.push(alloc, tag(alloc, letter)?)?;
    }
    Ok(slots)
}

/// A frame of a local and an entry of the stack.
fn frame(alloc: Global, local: u8, entry: u8) -> Result<Frame, AllocError> {
    Ok(Frame {
        locals: slots(alloc, local)?,
        stack: slots(alloc, entry)?,
        unborn_this: false,
    })
}

/// The frames.
fn frames(alloc: Global, given: &[(u32, u8, u8)]) -> Result<Items<(u32, Frame)>, AllocError> {
    let mut frames = Items::new(alloc);
    for (pc, local, entry) in given {
        frames.push((*pc, frame(alloc, *local, *entry)?))?;
    }
    Ok(frames)
}

/// A handler of everything, or none.
fn handlers(alloc: Global, handler: Option<(u32, u32, u32)>) -> Result<Items<Handler>, AllocError> {
    let mut handlers = Items::new(alloc);
    if let Some((start, end, target)) = handler {
        handlers.push(Handler {
            start,
            end,
            target,
            class: None,
        })?;
    }
    Ok(handlers)
}

/// The units of an ASCII text.
fn units(alloc: Global, text: &str) -> Result<Units, AllocError> {
    let mut units = Vec::new(alloc);
    for byte in text.as_bytes() {
        units.push(u16::from(*byte))?;
    }
    Units::from_vec(units)
}

/// An entry of the pool, by its index below seven.
fn entry(alloc: Global, index: usize) -> Result<Entry, AllocError> {
    match index {
        1 => Ok(Entry::Utf8(units(alloc, "C")?)),
        2 => Ok(Entry::Class(1)),
        3 => Ok(Entry::Utf8(units(alloc, "<init>")?)),
        4 => Ok(Entry::Utf8(units(alloc, "()V")?)),
        5 => Ok(Entry::NameAndType(3, 4)),
        6 => Ok(Entry::MethodRef(2, 5)),
        _ => Ok(Entry::Skip),
    }
}

/// A pool with the class `C` at 2 and its constructor at 6.
fn pool(alloc: Global) -> Result<Pool, AllocError> {
    let mut entries = Items::new(alloc);
    for index in 0..7 {
        entries.push(entry(alloc, index)?)?;
    }
    Pool::new(alloc, entries)
}

/// The instructions of a code; one that is longer than code may be is told as cut off.
fn instructions(alloc: Global, bytes: &[u8]) -> Result<Items<(u32, Instruction)>, Stop<BadKind>>
    ensures rising { IfOk result (λ found. IsRising (view_instructions found)) }
{
    if bytes.len() > 65_535 {
        return Err(Stop::Fault(Fault {
            kind: BadKind::CutOff,
            offset: 0,
        }));
    }
    let pool = pool(alloc)?;
    let found = read_instructions(alloc, &pool, bytes)?;
    Ok(found)
}

/// The descriptor of a method of nothing.
fn of_nothing(alloc: Global) -> Result<Descriptor, AllocError> {
    let parameters = SharedList::from_vec(alloc, Vec::new(alloc))?;
    Ok(Descriptor::Method {
        parameters,
        result: None,
    })
}

/// The method, with these instructions.
fn with_instructions(
    alloc: Global,
    sketch: &Sketch,
    instructions: Items<(u32, Instruction)>,
) -> Result<Code, Stop<BadKind>>
    requires rising { IsRising (view_instructions instructions) }
    ensures rising { IfOk result (λ code. IsRising (view_instructions code.instructions)) }
{
    let class = class_of(alloc, "C")?;
    let name = units(alloc, "f")?;
    let descriptor = of_nothing(alloc)?;
    let handlers = handlers(alloc, sketch.handler)?;
    let frames = frames(alloc, sketch.frames)?;
    Ok(Code {
        class,
        name,
        flags: 8,
        interface: false,
        descriptor,
        thrown: Items::new(alloc),
        max_stack: 2,
        max_locals: sketch.max_locals,
        instructions,
        handlers,
        frames,
    })
}

/// The method.
pub fn method(alloc: Global, sketch: &Sketch) -> Result<Code, Stop<BadKind>>
    ensures rising { IfOk result (λ code. IsRising (view_instructions code.instructions)) }
{
    let instructions = instructions(alloc, sketch.bytes)?;
    let code = with_instructions(alloc, sketch, instructions)?;
    Ok(code)
}
