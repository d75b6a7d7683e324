//! What is the same of a handler wherever it is thrown to, found once for all instructions that it spans (JVMS 4.10.1.6).

ghost use Rattle.std.specs.Prelude.{◌≡◌, ◌↔◌, ◌∷◌, [], All, IsTrue, IfOk, option_map};
ghost use Rattle.std.specs.Option.{option_copied};
ghost use Rattle.dj_frames.specs.Frames.{view_frame, view_tag};
ghost use Rattle.dj_code.specs.MethodCode.{view_code};
ghost use Rattle.dj_effects.specs.Rows.{object};
ghost use Rattle.dj_verify.specs.Rules.{caught_class, Covers, HandlerTakes};
ghost use Rattle.dj_verify.specs.Checking.{IsReady};
ghost use Rattle.dj_effects.specs.Doing.{view_working};
ghost use Rattle.dj_verify.specs.Landings.{LandsIn, Lands, IsTarget, IsLanding, AreLandings, HasLandings, target_in};

use crate::subject::Subject;
use dj_code::Handler;
use dj_effects::Working;
use dj_frames::{Frame, Slots, Tag};
use dj_instructions::is_start;
use dj_names::{ClassName, JType};
use dj_tags::{Goes, entries_go, local_goes, locals_go};
use std::alloc::{AllocError, Global};

/// A handler, and the frame at its target where what it catches goes there as far as the stack; none
/// where no frame may be thrown to it.
#[derive(Drop)]
pub struct Landing<'a> {
    pub handler: &'a Handler,
    pub target: Option<&'a Frame>,
}

/// A reference of the class that a handler takes.
fn caught(
    alloc: Global,
    subject: &Subject<'_>,
    class: &Option<ClassName>,
) -> Result<Tag, AllocError>
    requires ready { IsReady subject.now }
    ensures caught { IfOk result (λ tag. view_tag tag ≡ object (caught_class class.now)) }
{
    match class {
        Some(class) => Ok(Tag::Object(JType::Class(class.copy(alloc)?))),
        None => {
            let tag = subject.known.classes.throwable.copy(alloc)?;
            Ok(tag)
        }
    }
}

/// A stack with nothing but this.
fn stack_of(alloc: Global, caught: Tag) -> Result<Slots, AllocError>
    ensures stack { IfOk result (λ stack. stack ≡ caught ∷ []) }
{
    let mut stack = Slots::new();
    stack.push(alloc, caught)?;
    Ok(stack)
}

/// The frame given at a pc, where an instruction begins there and its stack takes this and nothing else.
fn target_of<'a, G: Goes>(
    alloc: Global,
    goes: &G,
    subject: &Subject<'a>,
    pc: u32,
    caught: Tag,
) -> Result<Option<&'a Frame>, AllocError>
    requires ready { IsReady subject.now }
    ensures target { IfOk result (λ target. IsTarget (G.relation goes.now) (view_code subject.now.code.now) pc (view_tag caught) (option_map view_frame (option_copied target))) }
{
    let Some(target) = subject.given(pc) else {
        return Ok(None);
    };
    if !is_start(subject.code.instructions.as_slice(), pc) {
        return Ok(None);
    }
    let stack = stack_of(alloc, caught)?;
    if entries_go(goes, &stack, &target.stack) {
        Ok(Some(target))
    } else {
        Ok(None)
    }
}

/// What is the same of a handler wherever it is thrown to.
fn landing_of<'a, G: Goes>(
    alloc: Global,
    goes: &G,
    subject: &Subject<'a>,
    handler: &'a Handler,
) -> Result<Landing<'a>, AllocError>
    requires ready { IsReady subject.now }
    ensures handler { IfOk result (λ landing. landing.handler.now ≡ handler.now) }
    ensures landing { IfOk result (IsLanding (G.relation goes.now) (view_code subject.now.code.now)) }
{
    let tag = caught(alloc, subject, &handler.class)?;
    if subject.code.max_stack < 1 || !local_goes(goes, &tag, &subject.known.classes.throwable) {
        let target = None;
        return Ok(Landing { handler, target });
    }
    let target = target_of(alloc, goes, subject, handler.target, tag)?;
    Ok(Landing { handler, target })
}

/// The same of each handler of the code, in order.
pub fn landings<'a, G: Goes>(
    alloc: Global,
    goes: &G,
    subject: &Subject<'a>,
) -> Result<Vec<Landing<'a>>, AllocError>
    requires ready { IsReady subject.now }
    ensures landings { IfOk result (λ landings. AreLandings (G.relation goes.now) (view_code subject.now.code.now) landings.items) }
{
    let mut landings = Vec::new(alloc);
    for handler in subject.code.handlers.as_slice() {
        landings.push(landing_of(alloc, goes, subject, handler)?)?;
    }
    Ok(landings)
}

/// Whether a frame but for its stack goes into another.
fn lands_in<G: Goes>(goes: &G, frame: &Working, target: &Frame) -> bool
    ensures lands { IsTrue result ↔ LandsIn (G.relation goes.now) (view_working frame.now) (view_frame target.now) }
{
    (target.unborn_this || !frame.unborn_this) && locals_go(goes, &frame.locals, &target.locals)
}

/// Whether what may be thrown in a frame goes to a handler.
fn lands<G: Goes>(goes: &G, landing: &Landing<'_>, frame: &Working) -> bool
    ensures lands { IsTrue result ↔ Lands (G.relation goes.now) (view_working frame.now) (target_in landing.now) }
{
    match landing.target {
        Some(target) => lands_in(goes, frame, target),
        None => false,
    }
}

/// Whether what may be thrown in a frame at a pc lands with each handler that spans it.
fn land<G: Goes>(goes: &G, landings: &[Landing<'_>], pc: u32, frame: &Working) -> bool
    ensures land { IsTrue result ↔ All (λ landing. Covers landing.handler.now pc → Lands (G.relation goes.now) (view_working frame.now) (target_in landing)) landings.now }
{
    for landing in landings {
        if landing.handler.start <= pc && pc < landing.handler.end && !lands(goes, landing, frame) {
            return false;
        }
    }
    true
}

/// Whether each handler that spans a pc takes what may be thrown there.
pub fn handlers_take<G: Goes>(goes: &G, subject: &Subject<'_>, pc: u32, frame: &Working) -> bool
    requires landings { HasLandings (G.relation goes.now) subject.now }
    ensures take { IsTrue result ↔ All (λ handler. Covers handler pc → HandlerTakes (G.relation goes.now) (view_code subject.now.code.now) (view_working frame.now) handler) subject.now.code.now.handlers }
{
    land(goes, subject.landings.as_slice(), pc, frame)
}
