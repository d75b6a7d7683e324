//! The reader of a method's code (JVMS 4.7.3, 4.9.1).

ghost use Rattle.std.specs.Prelude.{◌≡◌, ◌≤◌, ℕ, Some, IsSome, IsSomeAnd, IfOk, IfErr, MatchOption, length, map, slice_get};
ghost use Rattle.dj_class.specs.Views.{view_class, view_method};
ghost use Rattle.dj_instructions.specs.declared.kinds.BadKind as kinds;
ghost use Rattle.dj_instructions.specs.Instructions.{view_instructions, IsRising};
ghost use Rattle.dj_instructions.specs.Listing.{IsListing};
ghost use Rattle.dj_frames.specs.Frames.{entry_values};
ghost use Rattle.dj_code.specs.MethodCode as spec;
ghost use Rattle.dj_code.specs.MethodCode.{view_code};
ghost use Rattle.dj_code.specs.Targets.{handler_of};
ghost use Rattle.dj_code.specs.ReadCode.{tables_of, HasHead, PassesChecks, BreaksCheck, SpellsCode, FirstCodeFault, IsCodeFault, GivesCode, GivesCodeFault};
ghost use Rattle.dj_code.specs.Checks.{ReadsContent, ReadsListing, ReadsChecked, ReadsGiven, ReadsCode};

use crate::content::{CodeContent, read_content};
use crate::fault::CodeFault;
use crate::method_code::Code;
use crate::ranges::{handlers_of, wrong_range, wrong_target};
use crate::targets::wrong_jump;
use dj_class::{ClassFile, Method, Pool, is_interface};
use dj_frames::Frame;
use dj_instructions::{BadKind, Instruction, read_instructions};
use dj_layout::Stop;
use dj_names::{Items, copy_names};
use dj_stack_map::read_frames;
use std::alloc::{AllocError, Global};

/// The content of a Code.
fn content_of(alloc: Global, bytes: &[u8]) -> Result<CodeContent, CodeFault>
    ensures content { ReadsContent bytes.now result }
    ensures short { IfOk result (λ content. length content.code ≤ 65535) }
{
    match read_content(alloc, bytes)? {
        Some(content) => Ok(content),
        None => Err(CodeFault::BadCode {
            pc: 0,
            kind: BadKind::CutOff,
        }),
    }
}

/// The instructions of a Code.
fn instructions_of(
    alloc: Global,
    pool: &Pool,
    code: &[u8],
) -> Result<Items<(u32, Instruction)>, CodeFault>
    requires short { length code.now ≤ 65535 }
    ensures listing { ReadsListing pool.now code.now result }
    ensures rising { IfOk result (λ found. IsRising (view_instructions found)) }
{
    match read_instructions(alloc, pool, code) {
        Ok(instructions) => Ok(instructions),
        Err(Stop::Fault(fault)) => Err(CodeFault::BadCode {
            pc: fault.offset as u32,
            kind: fault.kind,
        }),
        Err(Stop::Memory) => Err(CodeFault::Memory(AllocError)),
    }
}

/// What isn't right first of jumps, handlers and ranges, and its pc.
fn first_wrong(
    pool: &Pool,
    instructions: &[(u32, Instruction)],
    content: &CodeContent,
) -> Option<(BadKind, u32)>
    requires rising { IsRising (view_instructions instructions.now) }
    ensures first { MatchOption result (PassesChecks pool.now content.now (view_instructions instructions.now)) (λ x. BreaksCheck pool.now content.now (view_instructions instructions.now) x.0 x.1) }
{
    let handlers = content.handlers.as_slice();
    if let Some(pc) = wrong_jump(instructions) {
        return Some((BadKind::Target, pc));
    }
    if let Some(pc) = wrong_target(instructions, handlers) {
        return Some((BadKind::Target, pc));
    }
    match wrong_range(pool, instructions, content.code.len(), handlers) {
        Some(pc) => Some((BadKind::Range, pc)),
        None => None,
    }
}

/// The instructions of a Code, whose jumps and exception table are right.
fn checked(
    alloc: Global,
    pool: &Pool,
    content: &CodeContent,
) -> Result<Items<(u32, Instruction)>, CodeFault>
    requires short { length content.now.code ≤ 65535 }
    ensures checked { ReadsChecked pool.now content.now result }
    ensures rising { IfOk result (λ found. IsRising (view_instructions found)) }
{
    let instructions = instructions_of(alloc, pool, content.code.as_slice())?;
    match first_wrong(pool, instructions.as_slice(), content) {
        Some((kind, pc)) => Err(CodeFault::BadCode { pc, kind }),
        None => Ok(instructions),
    }
}

/// The frames that a Code gives.
fn frames_of(
    alloc: Global,
    class: &ClassFile,
    method: &Method,
    instructions: &[(u32, Instruction)],
    content: &CodeContent,
) -> Result<Items<(u32, Frame)>, CodeFault>
    requires rising { IsRising (view_instructions instructions.now) }
    requires listed { IsListing class.now.pool content.now.code (view_instructions instructions.now) }
    requires short { length content.now.code ≤ 65535 }
    ensures given { ReadsGiven class.now.pool (view_instructions instructions.now) (entry_values class.now.this_class (view_method method.now)) (tables_of class.now.pool content.now) result }
{
    match read_frames(
        alloc,
        class,
        method,
        instructions,
        content.attributes.as_slice(),
    ) {
        Ok(frames) => Ok(frames),
        Err(Stop::Fault(fault)) => Err(CodeFault::BadCode {
            pc: fault.offset as u32,
            kind: fault.kind,
        }),
        Err(Stop::Memory) => Err(CodeFault::Memory(AllocError)),
    }
}

/// Code of a method, from its parts.
fn code_with(
    alloc: Global,
    class: &ClassFile,
    method: &Method,
    content: &CodeContent,
    instructions: Items<(u32, Instruction)>,
    frames: Items<(u32, Frame)>,
) -> Result<Code, AllocError>
    ensures head { IfOk result (λ code. HasHead (view_class class.now) (view_method method.now) content.now (view_code code)) }
    ensures instructions { IfOk result (λ code. code.instructions ≡ instructions) }
    ensures handlers { IfOk result (λ code. code.handlers ≡ map (handler_of class.now.pool) content.now.handlers) }
    ensures frames { IfOk result (λ code. code.frames ≡ frames) }
{
    let handlers = handlers_of(alloc, &class.pool, content.handlers.as_slice())?;
    Ok(Code {
        class: class.this_class.copy(alloc)?,
        name: method.name.copy(alloc)?,
        flags: method.flags,
        interface: is_interface(class.flags),
        descriptor: method.descriptor.copy(alloc)?,
        thrown: copy_names(alloc, method.thrown.as_slice())?,
        max_stack: content.max_stack,
        max_locals: content.max_locals,
        instructions,
        handlers,
        frames,
    })
}

/// The code that this content of a Code is.
fn code_of(
    alloc: Global,
    class: &ClassFile,
    method: &Method,
    bytes: &[u8],
) -> Result<Code, CodeFault>
    requires body { (view_method method.now).code ≡ Some bytes.now }
    ensures reads { ReadsCode (view_class class.now) (view_method method.now) result }
{
    let content = content_of(alloc, bytes)?;
    let instructions = checked(alloc, &class.pool, &content)?;
    let frames = frames_of(alloc, class, method, instructions.as_slice(), &content)?;
    let code = code_with(alloc, class, method, &content, instructions, frames)?;
    Ok(code)
}

/// The code of a method that has code, or its first fault.
pub fn read_code_of(alloc: Global, class: &ClassFile, method: &Method) -> Result<Code, CodeFault>
    requires body { IsSome method.now.code }
    // What is read is the code of the method.
    ensures read { IfOk result (λ code. SpellsCode (view_class class.now) (view_method method.now) (view_code code)) }
    // A fault is the first one of the code.
    ensures bad { IfErr result (IsCodeFault (view_class class.now) (view_method method.now)) }
    // The code of the method is read, unless memory runs out.
    ensures value { (code : spec.Code) → SpellsCode (view_class class.now) (view_method method.now) code → GivesCode result code }
    // The first fault of the code is answered, unless memory runs out.
    ensures fault { (kind : kinds.BadKind) (pc : ℕ) → FirstCodeFault (view_class class.now) (view_method method.now) kind pc → GivesCodeFault result kind pc }
{
    match &method.code {
        Some(content) => code_of(alloc, class, method, content.as_slice()),
        None => unreachable!(),
    }
}

/// The code of the method with this number, which has code, or its first fault.
pub fn read_code(alloc: Global, class: &ClassFile, method: usize) -> Result<Code, CodeFault>
    requires body { IsSomeAnd (slice_get class.now.methods method) (λ one. IsSome one.code) }
    // What is read is the code of the method.
    ensures read { IfOk result (λ code. IsSomeAnd (slice_get (view_class class.now).methods method) (λ one. SpellsCode (view_class class.now) one (view_code code))) }
    // A fault is the first one of the code.
    ensures bad { IfErr result (λ why. IsSomeAnd (slice_get (view_class class.now).methods method) (λ one. IsCodeFault (view_class class.now) one why)) }
    // The code of the method is read, unless memory runs out.
    ensures value { (code : spec.Code) → IsSomeAnd (slice_get (view_class class.now).methods method) (λ one. SpellsCode (view_class class.now) one code) → GivesCode result code }
    // The first fault of the code is answered, unless memory runs out.
    ensures fault { (kind : kinds.BadKind) (pc : ℕ) → IsSomeAnd (slice_get (view_class class.now).methods method) (λ one. FirstCodeFault (view_class class.now) one kind pc) → GivesCodeFault result kind pc }
{
    match class.methods.get(method) {
        Some(one) => read_code_of(alloc, class, one),
        None => unreachable!(),
    }
}
