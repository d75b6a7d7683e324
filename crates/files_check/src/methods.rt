//! What type checking finds of a method with code.
ghost use Rattle.std.specs.Prelude.{IfOk, IsSome};
ghost use Rattle.dj_instructions.specs.Instructions.{IsRising, view_instructions};

use anyhow::Result;
use dj_class::{ClassFile, Method};
use dj_code::{Code, CodeFault, read_code_of};
use dj_headers::Headers;
use dj_verify::{VerifyFault, verify};
use run_lines::DescriptorText;
use std::alloc::Global;
use std::io::Write;

/// The code of a method, whose pcs rise.
fn code_of(alloc: Global, class: &ClassFile, method: &Method) -> Result<Code, CodeFault>
    requires body { IsSome method.now.code }
    ensures rising { IfOk result (λ code. IsRising (view_instructions code.instructions)) }
{
    let code = read_code_of(alloc, class, method)?;
    Ok(code)
}

/// Tells whether code is verified.
fn put_verdict<W: Write>(alloc: Global, headers: &Headers, out: &mut W, code: Code) -> Result<()>
    requires rising { IsRising (view_instructions code.instructions) }
{
    match verify(alloc, headers, code) {
        Ok(_) => writeln!(out, "verified")?,
        Err(VerifyFault::Unverified { pc, rule }) => writeln!(out, "unverified {rule:?} {pc}")?,
        Err(VerifyFault::Memory(error)) => return Err(error.into()),
    }
    Ok(())
}

/// Tells what is found of a method that has code, behind its class, its name and its descriptor.
pub fn put_found<W: Write>(
    alloc: Global,
    headers: &Headers,
    out: &mut W,
    class: &ClassFile,
    method: &Method,
) -> Result<()>
    requires body { IsSome method.now.code }
{
    let descriptor = DescriptorText(&method.descriptor);
    write!(out, "{}.{}{descriptor} ", class.this_class, method.name)?;
    match code_of(alloc, class, method) {
        Ok(code) => put_verdict(alloc, headers, out, code),
        Err(CodeFault::BadCode { pc, kind }) => Ok(writeln!(out, "bad {kind:?} {pc}")?),
        Err(CodeFault::Memory(error)) => Err(error.into()),
    }
}
