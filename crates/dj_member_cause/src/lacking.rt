//! The instructions of a method whose member Java can't name as they do.

ghost use Rattle.std.specs.Prelude.{◌≡◌, ◌↔◌, ℕ, ◌+◌, ◌<◌, length, Some, IsTrue, IfOk, OnOk, IfSome, MatchOption};
ghost use Rattle.dj_instructions.specs.Instructions.{IsRising, view_instructions, instruction_at, InvokeSpecial, MethodRef};
ghost use Rattle.dj_code.specs.MethodCode.{view_typed};
ghost use Rattle.dj_code.specs.Targets.{IsLeast};
ghost use Rattle.dj_receivers.specs.Marked.{AreOnThis};
ghost use Rattle.dj_receivers.specs.Receivers.{IsOnThis};
ghost use Rattle.dj_world.specs.Clashes.{IsLawful};
ghost use Rattle.dj_member_cause.specs.Lacking.{LacksMember};
ghost use Rattle.dj_member_cause.specs.Deciding.{LacksIn};
ghost use Rattle.dj_member_cause.specs.Telling.{IsThereAt, LacksByPlace, IsKnown};

use crate::judging::Judgement;
use crate::known::{Known, tell};
use dj_code::Typed;
use dj_names::Items;
use dj_receivers::{calls_on_this, is_on_this};
use dj_static::Classes;
use dj_world::World;
use std::alloc::{AllocError, Global};

/// Whether the receiver of the call at a pc is `this`. Which calls are is found out once.
fn is_call_on_this(
    alloc: Global,
    typed: &Typed,
    pc: u32,
    calls: &mut Option<Items<bool>>,
) -> Result<bool, AllocError>
    requires rising { IsRising (view_instructions typed.now.code.instructions) }
    requires known { IfSome calls.old (AreOnThis (view_typed typed.now)) }
    ensures known { OnOk result (IfSome calls.new (AreOnThis (view_typed typed.now))) }
    ensures on_this { IfOk result (λ is. (method : MethodRef) → instruction_at (view_instructions typed.now.code.instructions) pc ≡ Some (InvokeSpecial method) → IsTrue is ↔ IsOnThis (view_typed typed.now) pc method) }
{
    match calls {
        Some(found) => Ok(is_on_this(found.as_slice(), pc)),
        None => {
            let found = calls_on_this(alloc, typed)?;
            let is = is_on_this(found.as_slice(), pc);
            *calls = Some(found);
            Ok(is)
        }
    }
}

/// Whether the instruction at a place lacks its member.
fn lacks(
    alloc: Global,
    classes: &Classes<'_>,
    typed: &Typed,
    place: usize,
    known: &mut Known,
) -> Result<bool, AllocError>
    requires lawful { IsLawful classes.now.headers.now }
    requires rising { IsRising (view_instructions typed.now.code.instructions) }
    requires within { place < length typed.now.code.instructions }
    requires framed { place < length typed.now.frames }
    requires there { IsThereAt typed.now place }
    requires known { IsKnown classes.now typed.now place known.old }
    ensures known { OnOk result (IsKnown classes.now typed.now (place + 1) known.new) }
    ensures lacks { IfOk result (LacksByPlace classes.now typed.now place) }
{
    let told = tell(alloc, classes, typed, place, known)?;
    match told {
        Judgement::Has => Ok(false),
        Judgement::Lacks => Ok(true),
        Judgement::OnThis => {
            let at = &typed.code.instructions.as_slice()[place];
            let is = is_call_on_this(alloc, typed, at.0, &mut known.calls)?;
            Ok(!is)
        }
    }
}

/// The offset of the first instruction that lacks its member, where names are those of these classes.
fn first_in(alloc: Global, classes: &Classes<'_>, typed: &Typed) -> Result<Option<u32>, AllocError>
    requires lawful { IsLawful classes.now.headers.now }
    requires rising { IsRising (view_instructions typed.now.code.instructions) }
    ensures first { IfOk result (λ found. MatchOption found ((pc : ℕ) → ¬ LacksIn classes.now (view_typed typed.now) pc) (IsLeast (LacksIn classes.now (view_typed typed.now)))) }
{
    let instructions = typed.code.instructions.as_slice();
    let frames = typed.frames.as_slice();
    let mut known = Known::new(alloc);
    for place in 0..instructions.len() {
        if place >= frames.len() {
            return Ok(None);
        }
        let at = &instructions[place];
        let lacks = lacks(alloc, classes, typed, place, &mut known)?;
        if lacks {
            return Ok(Some(at.0));
        }
    }
    Ok(None)
}

/// The offset of the first instruction of a method that lacks its member.
pub fn first_lacking(alloc: Global, world: &World, typed: &Typed) -> Result<Option<u32>, AllocError>
    requires rising { IsRising (view_instructions typed.now.code.instructions) }
    ensures first { IfOk result (λ found. MatchOption found ((pc : ℕ) → ¬ LacksMember world.now (view_typed typed.now) pc) (IsLeast (LacksMember world.now (view_typed typed.now)))) }
{
    let classes = Classes {
        headers: world.headers(),
        members: world.member_table(),
        from: &typed.code.class,
    };
    let found = first_in(alloc, &classes, typed)?;
    Ok(found)
}
