//! Instructions that take entries from the stack and put one there.

ghost use Rattle.std.specs.Prelude.{◌≡◌, ◌++◌, ◌∷◌, [], ◌↔◌, Some, None, replicate, IsTrue, IsSomeAnd, IfOk, OnOk, option_map, slice_get};
ghost use Rattle.dj_names.specs.Types.{view_types};
ghost use Rattle.dj_frames.specs.Frames.{Int, view_tag, view_tags};
ghost use Rattle.dj_code.specs.MethodCode.{view_code};
ghost use Rattle.dj_effects.specs.Works.{Of, Plain};
ghost use Rattle.dj_effects.specs.Rows.{arguments};
ghost use Rattle.dj_effects.specs.Operands.{IsWanted, AreWanted, under};
ghost use Rattle.dj_effects.specs.Effects.{pushed};
ghost use Rattle.dj_effects.specs.Doing.{view_want, view_wants, view_working};
ghost use Rattle.dj_applying.specs.Done.{Did};

use dj_code::Code;
use dj_effects::{Stack, Want, Working, is_wanted};
use dj_frames::Tag;
use dj_names::JType;
use dj_tags::Goes;
use std::alloc::AllocError;

/// Whether the entry with so many on top of it is what is wanted.
fn has_at<G: Goes>(goes: &G, stack: &Stack, depth: usize, want: Want<'_>) -> bool
    ensures has { IsTrue result ↔ IsSomeAnd (slice_get (view_tags stack.now) depth) (IsWanted (G.relation goes.now) (view_want want.entry)) }
{
    match stack.peek(depth) {
        Some(found) => is_wanted(goes, want, found),
        None => false,
    }
}

/// Whether the stack begins with what is wanted.
pub fn has_wanted<G: Goes>(goes: &G, stack: &Stack, wants: &[Want<'_>]) -> bool
    ensures wanted { IsTrue result ↔ AreWanted (G.relation goes.now) (view_wants wants.now) (view_tags stack.now) }
{
    for depth in 0..wants.len() {
        if !has_at(goes, stack, depth, wants[depth]) {
            return false;
        }
    }
    true
}

/// Whether the stack begins with arguments of these types, the last one on top.
pub fn has_arguments<G: Goes>(goes: &G, stack: &Stack, parameters: &[JType]) -> bool
    ensures wanted { IsTrue result ↔ AreWanted (G.relation goes.now) (arguments (view_types parameters.now)) (view_tags stack.now) }
{
    for depth in 0..parameters.len() {
        let parameter = &parameters[parameters.len() - 1 - depth];
        if !has_at(goes, stack, depth, Want::Value(parameter)) {
            return false;
        }
    }
    true
}

/// Takes arguments of these types and then what is wanted from the stack, and tells whether all was
/// there.
pub fn take<G: Goes>(goes: &G, stack: &mut Stack, parameters: &[JType], wants: &[Want<'_>]) -> bool
    ensures wanted { IsTrue result ↔ AreWanted (G.relation goes.now) (arguments (view_types parameters.now) ++ view_wants wants.now) (view_tags stack.old) }
    ensures left { IsTrue result → view_tags stack.new ≡ under (arguments (view_types parameters.now) ++ view_wants wants.now) (view_tags stack.old) }
{
    if !has_arguments(goes, stack, parameters) {
        return false;
    }
    stack.remove(parameters.len());
    if !has_wanted(goes, stack, wants) {
        return false;
    }
    stack.remove(wants.len());
    true
}

/// Puts an entry on the stack, or none.
pub fn give(stack: &mut Stack, gives: Option<Tag>) -> Result<(), AllocError>
    ensures ok { OnOk result (view_tags stack.new ≡ pushed (option_map view_tag gives) (view_tags stack.old)) }
{
    if let Some(tag) = gives {
        stack.push(tag)?;
    }
    Ok(())
}

/// Takes arguments and what is wanted, and puts an entry there, or none.
pub fn call<G: Goes>(
    goes: &G,
    code: &Code,
    pc: u32,
    frame: &mut Working,
    parameters: &[JType],
    wants: &[Want<'_>],
    gives: Option<Tag>,
) -> Result<bool, AllocError>
    ensures did { IfOk result (λ done. Did (G.relation goes.now) (G.known goes.now) (view_code code.now) pc (Plain (arguments (view_types parameters.now) ++ view_wants wants.now) (option_map view_tag gives)) (view_working frame.old) done (view_working frame.new)) }
{
    if !take(goes, &mut frame.stack, parameters, wants) {
        return Ok(false);
    }
    give(&mut frame.stack, gives)?;
    Ok(true)
}

/// Takes nothing, and puts an entry on the stack, or none.
pub fn takes_none<G: Goes>(
    _goes: &G,
    code: &Code,
    _pc: u32,
    frame: &mut Working,
    gives: Option<Tag>,
) -> Result<bool, AllocError>
    ensures did { IfOk result (λ done. Did (G.relation _goes.now) (G.known _goes.now) (view_code code.now) _pc (Plain [] (option_map view_tag gives)) (view_working frame.old) done (view_working frame.new)) }
{
    give(&mut frame.stack, gives)?;
    Ok(true)
}

/// Takes what is wanted, and puts an entry there, or none.
fn plain<G: Goes>(
    goes: &G,
    code: &Code,
    _pc: u32,
    frame: &mut Working,
    wants: &[Want<'_>],
    gives: Option<Tag>,
) -> Result<bool, AllocError>
    ensures did { IfOk result (λ done. Did (G.relation goes.now) (G.known goes.now) (view_code code.now) _pc (Plain (view_wants wants.now) (option_map view_tag gives)) (view_working frame.old) done (view_working frame.new)) }
{
    if !has_wanted(goes, &frame.stack, wants) {
        return Ok(false);
    }
    frame.stack.remove(wants.len());
    give(&mut frame.stack, gives)?;
    Ok(true)
}

/// Takes an entry that is wanted, and puts one there, or none.
pub fn takes_one<G: Goes>(
    goes: &G,
    code: &Code,
    pc: u32,
    frame: &mut Working,
    want: Want<'_>,
    gives: Option<Tag>,
) -> Result<bool, AllocError>
    ensures did { IfOk result (λ done. Did (G.relation goes.now) (G.known goes.now) (view_code code.now) pc (Plain (view_want want.entry ∷ []) (option_map view_tag gives)) (view_working frame.old) done (view_working frame.new)) }
{
    let done = plain(goes, code, pc, frame, &[want], gives)?;
    Ok(done)
}

/// Takes two entries that are wanted, and puts one there, or none.
pub fn takes_two<G: Goes>(
    goes: &G,
    code: &Code,
    pc: u32,
    frame: &mut Working,
    first: Want<'_>,
    second: Want<'_>,
    gives: Option<Tag>,
) -> Result<bool, AllocError>
    ensures did { IfOk result (λ done. Did (G.relation goes.now) (G.known goes.now) (view_code code.now) pc (Plain (view_want first.entry ∷ view_want second.entry ∷ []) (option_map view_tag gives)) (view_working frame.old) done (view_working frame.new)) }
{
    let done = plain(goes, code, pc, frame, &[first, second], gives)?;
    Ok(done)
}

/// Takes a value, an index and an array to write it to.
pub fn takes_three<G: Goes>(
    goes: &G,
    code: &Code,
    pc: u32,
    frame: &mut Working,
    value: Want<'_>,
    array: Want<'_>,
) -> Result<bool, AllocError>
    ensures did { IfOk result (λ done. Did (G.relation goes.now) (G.known goes.now) (view_code code.now) pc (Plain (view_want value.entry ∷ Of Int ∷ view_want array.entry ∷ []) None) (view_working frame.old) done (view_working frame.new)) }
{
    let done = plain(
        goes,
        code,
        pc,
        frame,
        &[value, Want::Of(&Tag::Int), array],
        None,
    )?;
    Ok(done)
}

/// Whether the stack begins with so many ints.
fn has_ints<G: Goes>(goes: &G, stack: &Stack, count: u8) -> bool
    ensures wanted { IsTrue result ↔ AreWanted (G.relation goes.now) (replicate count (Of Int)) (view_tags stack.now) }
{
    for depth in 0..count {
        if !has_at(goes, stack, usize::from(depth), Want::Of(&Tag::Int)) {
            return false;
        }
    }
    true
}

/// Takes so many ints, and puts an entry there.
pub fn takes_ints<G: Goes>(
    goes: &G,
    code: &Code,
    _pc: u32,
    frame: &mut Working,
    count: u8,
    gives: Tag,
) -> Result<bool, AllocError>
    ensures did { IfOk result (λ done. Did (G.relation goes.now) (G.known goes.now) (view_code code.now) _pc (Plain (replicate count (Of Int)) (Some (view_tag gives))) (view_working frame.old) done (view_working frame.new)) }
{
    if !has_ints(goes, &frame.stack, count) {
        return Ok(false);
    }
    frame.stack.remove(usize::from(count));
    frame.stack.push(gives)?;
    Ok(true)
}
