//! What hexadecimal bytes are as a class file, and what its methods are.
ghost use Rattle.std.specs.Prelude.{IsSome};

use crate::frames::FrameText;
use crate::instructions::InstructionText;
use crate::methods::put_found;
use anyhow::Result;
use dj_class::{ClassFault, ClassFile, Method, read_class};
use dj_code::{Code, CodeFault, read_code_of};
use dj_headers::Headers;
use run_lines::DescriptorText;
use std::alloc::Global;
use std::io::Write;

/// The oldest major version that is read.
const OLDEST: u16 = 50;

/// The class file that the bytes are, or none, of which is told why behind this word.
fn class_or_told<W: Write>(
    alloc: Global,
    out: &mut W,
    word: &str,
    digits: &str,
) -> Result<Option<ClassFile>> {
    let bytes = hex::decode(alloc, digits.as_bytes())?;
    match read_class(alloc, bytes.as_slice(), OLDEST) {
        Ok(class) => return Ok(Some(class)),
        Err(ClassFault::Broken { kind, offset }) => writeln!(out, "{word}{kind:?} {offset}")?,
        Err(ClassFault::Memory(error)) => return Err(error.into()),
    }
    Ok(None)
}

/// Tells whether the bytes are a class file.
pub fn put_file<W: Write>(alloc: Global, out: &mut W, digits: &str) -> Result<()> {
    if class_or_told(alloc, out, "", digits)?.is_some() {
        writeln!(out, "whole")?;
    }
    Ok(())
}

/// Puts each line of code as it is made, since 65,535 frames may have 65,535 locals each.
fn put_lines<W: Write>(out: &mut W, code: &Code) -> Result<()> {
    writeln!(out, "limits {} {}", code.max_stack, code.max_locals)?;
    for (pc, instruction) in code.instructions.as_slice() {
        writeln!(out, "{pc} {}", InstructionText(instruction))?;
    }
    for handler in code.handlers.as_slice() {
        write!(
            out,
            "handler {} {} {}",
            handler.start, handler.end, handler.target
        )?;
        match &handler.class {
            Some(class) => writeln!(out, " {class}")?,
            None => writeln!(out)?,
        }
    }
    for (pc, frame) in code.frames.as_slice() {
        writeln!(out, "frame {pc} {}", FrameText(frame))?;
    }
    Ok(())
}

/// Tells the code of a method that has some.
fn put_method<W: Write>(
    alloc: Global,
    out: &mut W,
    class: &ClassFile,
    method: &Method,
) -> Result<()>
    requires body { IsSome method.now.code }
{
    let descriptor = DescriptorText(&method.descriptor);
    writeln!(out, "method {} {descriptor}", method.name)?;
    match read_code_of(alloc, class, method) {
        Ok(code) => put_lines(out, &code),
        Err(CodeFault::BadCode { pc, kind }) => Ok(writeln!(out, "bad {kind:?} {pc}")?),
        Err(CodeFault::Memory(error)) => Err(error.into()),
    }
}

/// Tells the code of the methods of the class file that the bytes are.
pub fn put_code<W: Write>(alloc: Global, out: &mut W, digits: &str) -> Result<()> {
    if let Some(class) = class_or_told(alloc, out, "broken ", digits)? {
        for method in class.methods.as_slice() {
            if method.code.is_some() {
                put_method(alloc, out, &class, method)?;
            }
        }
    }
    writeln!(out, "end")?;
    Ok(())
}

/// Tells what type checking finds of the methods of the class file that the bytes are.
pub fn put_verified<W: Write>(
    alloc: Global,
    headers: &Headers,
    out: &mut W,
    digits: &str,
) -> Result<()> {
    if let Some(class) = class_or_told(alloc, out, "broken ", digits)? {
        for method in class.methods.as_slice() {
            if method.code.is_some() {
                put_found(alloc, headers, out, &class, method)?;
            }
        }
    }
    writeln!(out, "end")?;
    Ok(())
}
