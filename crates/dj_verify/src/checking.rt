//! One instruction where it stands: the rules in order.

ghost use Rattle.std.specs.Prelude.{◌≡◌, ◌↔◌, ◌≤◌, ◌++◌, ◌∷◌, [], List, Option, None, IsTrue, IfOk, IfSome, OnOk};
ghost use Rattle.dj_instructions.specs.Instructions as instructions;
ghost use Rattle.dj_instructions.specs.Instructions.{Instructions, view_instruction};
ghost use Rattle.dj_code.specs.MethodCode.{view_code};
ghost use Rattle.dj_tags.specs.Goes as tags;
ghost use Rattle.dj_tags.specs.Goes.{FrameGoes};
ghost use Rattle.dj_effects.specs.Doing.{view_working};
ghost use Rattle.dj_effects.specs.Rows.{work};
ghost use Rattle.dj_effects.specs.Effects.{effect, locals_needed};
ghost use Rattle.dj_verify.specs.Rules.{HasRoom, FrameKeeps};
ghost use Rattle.dj_verify.specs.Frames.{working_of};
ghost use Rattle.dj_verify.specs.Checking.{flow_of, AreTold, IsReady, late_rules, IsBroken, IsAsked, IsPlaced, IsFrameChecked, IsChecked};
ghost use Rattle.dj_verify.specs.Landings.{HasLandings};

use crate::keeping::Keeping;
use crate::landing::handlers_take;
use crate::padding::padded_frame;
use crate::reaching::{falls, jumps};
use crate::rooms::{flow_fits, has_room};
use crate::rule::Rule;
use crate::subject::Subject;
use dj_applying::{apply, locals_needed};
use dj_code::Code;
use dj_effects::Working;
use dj_frames::Frame;
use dj_instructions::Instruction;
use dj_tags::{Goes, frame_goes};
use std::alloc::{AllocError, Global};

/// An instruction where it stands, and whether what flows in has no more locals than there are.
#[derive(Drop)]
pub struct Site<'a> {
    pub pc: u32,
    pub instruction: &'a Instruction,
    pub is_last: bool,
    pub fits: bool,
}

/// What the rules ask of a frame alone, whatever an instruction leaves of it.
#[derive(Clone, Copy)]
pub struct Before {
    /// The frame is within the limits.
    pub has_room: bool,
    /// The handlers that span the instruction take what may be thrown in the frame.
    pub is_taken: bool,
}

/// Whether what flows in goes into the frame that is given.
fn flows_into<G: Goes>(
    alloc: Global,
    goes: &G,
    flow: &mut Option<Working>,
    given: &Frame,
) -> Result<bool, AllocError>
    ensures into { IfOk result (λ into. IsTrue into ↔ IfSome (flow_of flow.old) (λ flow. FrameGoes (G.relation goes.now) flow (working_of given.now))) }
{
    match flow {
        Some(flow) => {
            let frame = flow.frame(alloc)?;
            Ok(frame_goes(goes, &frame, given))
        }
        None => Ok(true),
    }
}

/// Puts the frame at a place where what flows in is: the one given there, if there is one. Whether that takes what flows in.
fn place_frame<G: Goes>(
    alloc: Global,
    goes: &G,
    subject: &Subject<'_>,
    pc: u32,
    flow: &mut Option<Working>,
) -> Result<bool, AllocError>
    requires ready { IsReady subject.now }
    ensures placed { (instruction : instructions.Instruction) (rest : Instructions) → IfOk result (IsPlaced (G.relation goes.now) (G.known goes.now) (view_code subject.now.code.now) (record { flow = flow_of flow.old; pc = pc; instruction = instruction; rest = rest }) (flow_of flow.new)) }
{
    let Some(given) = subject.given(pc) else {
        return Ok(true);
    };
    if !flows_into(alloc, goes, flow, given)? {
        return Ok(false);
    }
    let all = padded_frame(alloc, given, subject.code.max_locals)?;
    *flow = Some(Working::from_frame(alloc, &all)?);
    Ok(true)
}

/// Whether there is room for a frame, for what the instruction leaves, and for what it stores.
fn keeps_room(code: &Code, site: &Site<'_>, before: Before, after: &Working) -> bool
    ensures room { IsTrue result ↔ (IsTrue before.has_room × HasRoom (view_code code.now) (view_working after.now) × (locals_needed (work (view_code code.now) (view_instruction site.now.instruction.now)) ≤ code.now.max_locals) × IsTrue site.now.fits) }
{
    before.has_room
        && has_room(code, after)
        && locals_needed(site.instruction) <= usize::from(code.max_locals)
        && site.fits
}

/// The first rule that is broken, of those on a frame and what the instruction leaves of it.
fn late_break<G: Goes>(
    alloc: Global,
    goes: &G,
    subject: &Subject<'_>,
    site: &Site<'_>,
    before: Before,
    after: &mut Working,
) -> Result<Option<Rule>, AllocError>
    requires ready { IsReady subject.now }
    ensures broken { (flow : Option tags.Working) (rest : Instructions) (frame : tags.Working)
        → AreTold (view_code subject.now.code.now) flow rest site.now.fits site.now.is_last
        → IsAsked (G.relation goes.now) (view_code subject.now.code.now) site.now.pc frame before
        → view_working after.old ≡ effect (view_code subject.now.code.now) site.now.pc (work (view_code subject.now.code.now) (view_instruction site.now.instruction.now)) frame
        → IfOk result (IsBroken (FrameKeeps (G.relation goes.now) (G.known goes.now) (view_code subject.now.code.now) (record { flow = flow; pc = site.now.pc; instruction = view_instruction site.now.instruction.now; rest = rest }) frame) late_rules) }
    ensures same { OnOk result (view_working after.new ≡ view_working after.old) }
{
    if !keeps_room(subject.code, site, before, after) {
        return Ok(Some(Rule::Room));
    }
    if !jumps(alloc, goes, subject, site.instruction, after)? {
        return Ok(Some(Rule::Target));
    }
    if !before.is_taken {
        return Ok(Some(Rule::Handler));
    }
    if site.is_last && falls(site.instruction) {
        return Ok(Some(Rule::Past));
    }
    Ok(None)
}

/// What the rules ask of a frame alone.
fn asked_of<G: Goes>(goes: &G, subject: &Subject<'_>, pc: u32, frame: &Working) -> Before
    requires landings { HasLandings (G.relation goes.now) subject.now }
    ensures asked { IsAsked (G.relation goes.now) (view_code subject.now.code.now) pc (view_working frame.now) result }
{
    Before {
        has_room: has_room(subject.code, frame),
        is_taken: handlers_take(goes, subject, pc, frame),
    }
}

/// The first rule that an instruction breaks with its frame, which becomes what the instruction leaves.
fn check_frame<G: Goes>(
    alloc: Global,
    goes: &G,
    subject: &Subject<'_>,
    site: &Site<'_>,
    frame: &mut Working,
) -> Result<Option<Rule>, AllocError>
    requires ready { IsReady subject.now }
    requires landings { HasLandings (G.relation goes.now) subject.now }
    ensures checked { (flow : Option tags.Working) (rest : Instructions)
        → AreTold (view_code subject.now.code.now) flow rest site.now.fits site.now.is_last
        → IfOk result (IsFrameChecked (G.relation goes.now) (G.known goes.now) (view_code subject.now.code.now) (record { flow = flow; pc = site.now.pc; instruction = view_instruction site.now.instruction.now; rest = rest }) (view_working frame.old) (view_working frame.new)) }
{
    let before = asked_of(goes, subject, site.pc, frame);
    if !apply(
        alloc,
        goes,
        subject.known,
        subject.code,
        site.pc,
        site.instruction,
        frame,
    )? {
        return Ok(Some(Rule::Operands));
    }
    let broken = late_break(alloc, goes, subject, site, before, frame)?;
    frame.settle(alloc)?;
    Ok(broken)
}

/// The first rule that is broken at a place, by what flows in. Where none is, its frame was taken behind the others, and what
/// flows on stands where that did.
pub fn check_place<G: Goes, K: Keeping>(
    alloc: Global,
    goes: &G,
    subject: &Subject<'_>,
    at: &(u32, Instruction),
    is_last: bool,
    kept: &mut K,
    flow: &mut Option<Working>,
) -> Result<Option<Rule>, AllocError>
    requires ready { IsReady subject.now }
    requires landings { HasLandings (G.relation goes.now) subject.now }
    ensures checked { (rest : Instructions) → (IsTrue is_last ↔ (rest ≡ []))
        → IfOk result (IsChecked (G.relation goes.now) (G.known goes.now) (view_code subject.now.code.now) (record { flow = flow_of flow.old; pc = at.now.0; instruction = view_instruction at.now.1; rest = rest }) (λ frame. (frames : List tags.Working) → K.keeps kept.old frames → K.keeps kept.new (frames ++ frame ∷ [])) (flow_of flow.new)) }
{
    let fits = flow_fits(subject.code, flow);
    let site = Site {
        pc: at.0,
        instruction: &at.1,
        is_last,
        fits,
    };
    if !place_frame(alloc, goes, subject, at.0, flow)? {
        return Ok(Some(Rule::Into));
    }
    let Some(frame) = flow else {
        return Ok(Some(Rule::NoFrame));
    };
    kept.keep(alloc, frame)?;
    let broken = check_frame(alloc, goes, subject, &site, frame)?;
    if !falls(&at.1) {
        *flow = None;
    }
    Ok(broken)
}
