//! The ways from an instruction: to the one behind it, by jumps, and by exceptions (JVMS 2.10, 2.11.7).

ghost use Rattle.std.specs.Prelude.{◌≡◌, ◌++◌, ◌∷◌, [], map, IfOk, IfErr, OnOk};
ghost use Rattle.dj_instructions.specs.Instructions.{view_instruction, view_instructions, IsRising};
ghost use Rattle.dj_instructions.specs.Places.{IsPlaceOf, IsNoPlace};
ghost use Rattle.dj_code.specs.MethodCode.{view_code};
ghost use Rattle.dj_code.specs.Targets.{targets_of};
ghost use Rattle.dj_starts.specs.Edges as spec;
ghost use Rattle.dj_starts.specs.Edges.{fallen_to, plain, caught_edges, thrown_edges};

use crate::control::{can_throw, control_of};
use dj_code::{Code, Handler, Instruction};
use dj_names::Items;
use std::alloc::{AllocError, Global};

/// A way from an instruction: the pc that it leads to, and whether an exception takes it.
#[derive(Clone, Copy, PartialEq, Eq)]
pub struct Edge {
    pub target: u32,
    pub caught: bool,
}

/// The place of the instruction at a pc, or that there is none.
fn place_of(instructions: &[(u32, Instruction)], pc: u32) -> Result<usize, usize>
    requires rising { IsRising (view_instructions instructions.now) }
    ensures found { IfOk result (IsPlaceOf instructions.now pc) }
    ensures absent { IfErr result (λ _. IsNoPlace instructions.now pc) }
{
    instructions.binary_search_by_key(&pc, |(at, _)| *at)
}

/// The instructions from the one at a pc on, none where none begins there.
fn from_pc(instructions: &[(u32, Instruction)], pc: u32) -> &[(u32, Instruction)]
    requires rising { IsRising (view_instructions instructions.now) }
    ensures from { view_instructions result.now ≡ spec.from_pc pc (view_instructions instructions.now) }
{
    match place_of(instructions, pc) {
        Ok(place) => &instructions[place..],
        Err(_) => &instructions[instructions.len()..],
    }
}

/// Puts the targets of cases behind others.
fn push_cases(cases: &[(i32, u32)], targets: &mut Items<u32>) -> Result<(), AllocError>
    ensures pushed { OnOk result (targets.new ≡ targets.old ++ map (λ x. x.1) cases.now) }
{
    for case in cases {
        targets.push(case.1)?;
    }
    Ok(())
}

/// Puts pcs behind others.
fn push_all(more: &[u32], targets: &mut Items<u32>) -> Result<(), AllocError>
    ensures pushed { OnOk result (targets.new ≡ targets.old ++ more.now) }
{
    for target in more {
        targets.push(*target)?;
    }
    Ok(())
}

/// Puts the pcs that an instruction may jump to behind others.
pub fn push_targets(instruction: &Instruction, targets: &mut Items<u32>) -> Result<(), AllocError>
    ensures pushed { OnOk result (targets.new ≡ targets.old ++ targets_of (view_instruction instruction.now)) }
{
    match instruction {
        Instruction::IfZero(_, target)
        | Instruction::IfInts(_, target)
        | Instruction::IfRefs(_, target)
        | Instruction::IfNull(_, target)
        | Instruction::Goto(target) => targets.push(*target)?,
        Instruction::TableSwitch {
            targets: cases,
            other,
            ..
        } => {
            targets.push(*other)?;
            push_all(cases.as_slice(), targets)?;
        }
        Instruction::LookupSwitch { cases, other } => {
            targets.push(*other)?;
            push_cases(cases.as_slice(), targets)?;
        }
        Instruction::Nop
        | Instruction::PushNull
        | Instruction::Push(_)
        | Instruction::PushClass(_)
        | Instruction::PushHandle { .. }
        | Instruction::PushMethodType(_)
        | Instruction::Load(_, _)
        | Instruction::Store(_, _)
        | Instruction::ArrayLoad(_)
        | Instruction::ArrayStore(_)
        | Instruction::Pop
        | Instruction::Pop2
        | Instruction::Dup
        | Instruction::DupX1
        | Instruction::DupX2
        | Instruction::Dup2
        | Instruction::Dup2X1
        | Instruction::Dup2X2
        | Instruction::Swap
        | Instruction::Calc(_, _)
        | Instruction::Iinc(_, _)
        | Instruction::Convert(_, _)
        | Instruction::Compare(_, _)
        | Instruction::Return(_)
        | Instruction::GetStatic(_)
        | Instruction::PutStatic(_)
        | Instruction::GetField(_)
        | Instruction::PutField(_)
        | Instruction::InvokeVirtual(_)
        | Instruction::InvokeSpecial(_)
        | Instruction::InvokeStatic(_)
        | Instruction::InvokeInterface(_)
        | Instruction::InvokeDynamic { .. }
        | Instruction::New(_)
        | Instruction::NewArray(_)
        | Instruction::MultiNewArray(_, _)
        | Instruction::ArrayLength
        | Instruction::Throw
        | Instruction::CheckCast(_)
        | Instruction::InstanceOf(_)
        | Instruction::MonitorEnter
        | Instruction::MonitorExit => {}
    }
    Ok(())
}

/// Puts the pc to which control falls through, where these instructions stand behind, behind others.
fn push_fallen(
    instruction: &Instruction,
    rest: &[(u32, Instruction)],
    targets: &mut Items<u32>,
) -> Result<(), AllocError>
    ensures pushed { OnOk result (targets.new ≡ targets.old ++ fallen_to (view_instruction instruction.now) (view_instructions rest.now)) }
{
    if control_of(instruction).falls_through() {
        if let [next, ..] = rest {
            targets.push(next.0)?;
        }
    }
    Ok(())
}

/// Puts ways to these pcs, other than by an exception, behind others.
fn push_plain(targets: &[u32], edges: &mut Items<Edge>) -> Result<(), AllocError>
    ensures pushed { OnOk result (edges.new ≡ edges.old ++ map plain targets.now) }
{
    for target in targets {
        edges.push(Edge {
            target: *target,
            caught: false,
        })?;
    }
    Ok(())
}

/// Whether the range of an entry has the pc.
pub fn covers(handler: &Handler, pc: u32) -> bool
    ensures covers { result ≡ spec.covers handler.now pc }
{
    handler.start <= pc && pc < handler.end
}

/// Puts the ways to the handlers around a pc behind others.
fn push_caught(handlers: &[Handler], pc: u32, edges: &mut Items<Edge>) -> Result<(), AllocError>
    ensures pushed { OnOk result (edges.new ≡ edges.old ++ caught_edges handlers.now pc) }
{
    let mut left = handlers;
    while let [handler, rest @ ..] = left {
        if covers(handler, pc) {
            edges.push(Edge {
                target: handler.target,
                caught: true,
            })?;
            if handler.class.is_none() {
                return Ok(());
            }
        }
        left = rest;
    }
    Ok(())
}

/// Puts the ways from an instruction by an exception behind others.
fn push_thrown(
    handlers: &[Handler],
    pc: u32,
    instruction: &Instruction,
    edges: &mut Items<Edge>,
) -> Result<(), AllocError>
    ensures pushed { OnOk result (edges.new ≡ edges.old ++ thrown_edges handlers.now pc (view_instruction instruction.now)) }
{
    if can_throw(instruction) {
        push_caught(handlers, pc, edges)?;
    }
    Ok(())
}

/// The ways from the first of some instructions other than by an exception.
fn plain_edges(
    alloc: Global,
    instruction: &Instruction,
    rest: &[(u32, Instruction)],
) -> Result<Items<Edge>, AllocError>
    ensures edges { IfOk result (λ edges. edges ≡ map plain (fallen_to (view_instruction instruction.now) (view_instructions rest.now)) ++ map plain (targets_of (view_instruction instruction.now))) }
{
    let mut targets = Items::new(alloc);
    push_fallen(instruction, rest, &mut targets)?;
    push_targets(instruction, &mut targets)?;
    let mut edges = Items::new(alloc);
    push_plain(targets.as_slice(), &mut edges)?;
    Ok(edges)
}

/// The ways from the instruction at a pc, none where none begins there: to the one behind it, to its
/// targets, and to the handlers around it.
pub fn edges(alloc: Global, code: &Code, pc: u32) -> Result<Items<Edge>, AllocError>
    requires rising { IsRising (view_instructions code.now.instructions) }
    ensures edges { IfOk result (λ edges. edges ≡ spec.edges (view_code code.now) pc) }
{
    if let [at, rest @ ..] = from_pc(code.instructions.as_slice(), pc) {
        let mut edges = plain_edges(alloc, &at.1, rest)?;
        push_thrown(code.handlers.as_slice(), at.0, &at.1, &mut edges)?;
        return Ok(edges);
    }
    Ok(Items::new(alloc))
}
