//! The body of a method, or where it can't be had yet.

ghost use Rattle.std.specs.Prelude.{◌≡◌, ◌↔◌, ◌∷◌, [], IfOk, IsTrue, MatchBool, Some, None};
ghost use Rattle.dj_syntax.specs.Trees.{view_body, view_stms};
ghost use Rattle.dj_instructions.specs.Instructions.{IsRising, view_instructions};
ghost use Rattle.dj_code.specs.MethodCode.{view_code, view_typed};
ghost use Rattle.dj_places.specs.Surroundings.{surroundings_of};
ghost use Rattle.dj_vars.specs.Naming.{AreVars};
ghost use Rattle.dj_code_variables.specs.Views.{IsReady, view_vars};
ghost use Rattle.dj_one_block.specs.OneBlock as block;
ghost use Rattle.dj_known_world.specs.Known.{is_known_world};
ghost use Rattle.dj_given.specs.Given.{CallsNoOwn};
ghost use Rattle.dj_decompiled.specs.Decompiled as spec;
ghost use Rattle.dj_decompiled.specs.Decompiled.{IsCandidate, IsOneBlock, IsOpen, lone_parts};
ghost use Rattle.dj_world.specs.Worlds.{WorldOf};
ghost use Rattle.dj_decompile.specs.Answers.{IsAnswer, IsDone, IsFound};

use crate::bars::first_barred;
use crate::head::with_held_flags;
use crate::made::{made_body, may_throw};
use crate::writable::is_writable;
use dj_birth_causes::first_own_call;
use dj_code::{Code, Typed};
use dj_code_variables::{Vars, variables};
use dj_headers::Headers;
use dj_members::MemberTable;
use dj_names::is_constructor;
use dj_rebuild::lone_tree;
use dj_starts::block_starts;
use dj_static::Classes;
use dj_syntax::{Body, Stm};
use std::alloc::{AllocError, Global};

/// What comes of a method.
#[derive(Drop)]
pub enum Decompiled {
    /// It is printed with this body.
    Body(Body),
    /// It can't be printed yet, since an instruction at this offset stands against it, or for another reason at 0.
    NotYet(u32),
}

/// Whether one block starts, at 0.
fn is_one(starts: &[u32]) -> bool
    ensures one { IsTrue result ↔ (starts.now ≡ 0 ∷ []) }
{
    matches!(starts, [0])
}

/// The classes of the world, as the code of a class sees them.
fn classes_of<'a>(headers: &'a Headers, members: &'a MemberTable, code: &'a Code) -> Classes<'a>
    ensures classes { surroundings_of result ≡ block.known_in headers.now members.now (view_code code.now) }
{
    Classes {
        headers,
        members,
        from: &code.class,
    }
}

/// Whether no instruction calls another constructor on `this`.
fn calls_no_own(typed: &Typed) -> bool
    requires rising { IsRising (view_instructions typed.now.code.instructions) }
    ensures own { IsTrue result ↔ CallsNoOwn (view_typed typed.now) }
{
    first_own_call(typed.code.instructions.as_slice(), typed.frames.as_slice()).is_none()
}

/// Whether code without instructions that are barred may be printed, in a world of which enough is known or not.
fn is_candidate(known: bool, typed: &Typed) -> bool
    requires rising { IsRising (view_instructions typed.now.code.instructions) }
    requires straight { spec.first_barred (view_typed typed.now).code.handlers (view_typed typed.now).code.instructions ≡ None }
    ensures candidate { (world : WorldOf) → known ≡ is_known_world world.headers world.members → MatchBool result (IsCandidate world (view_typed typed.now)) (IsOpen world (view_typed typed.now)) }
{
    // Read, so that it is known to fit its type.
    let _locals = typed.code.max_locals;
    known
        && typed.code.handlers.is_empty()
        && !is_constructor(&typed.code.name)
        && calls_no_own(typed)
}

/// A body that is made, with the flags of its text, where what it throws may leave it and it can be written.
fn finished(
    alloc: Global,
    headers: &Headers,
    members: &MemberTable,
    typed: &Typed,
    body: Body,
) -> Result<Option<Body>, AllocError>
    ensures finished { IfOk result (IsDone (record { headers = headers.now; members = members.now }) (view_typed typed.now) (view_body body)) }
{
    if !may_throw(alloc, headers, members, &body)? {
        return Ok(None);
    }
    let held = with_held_flags(&typed.code, body);
    if is_writable(&held) {
        Ok(Some(held))
    } else {
        Ok(None)
    }
}

/// The body with the statements of the one block.
fn with_tree(
    alloc: Global,
    headers: &Headers,
    members: &MemberTable,
    typed: &Typed,
    vars: &Vars,
    tree: &[Stm],
) -> Result<Option<Body>, AllocError>
    requires ready { IsReady vars.now }
    requires candidate { IsCandidate (record { headers = headers.now; members = members.now }) (view_typed typed.now) }
    requires one { IsOneBlock (view_typed typed.now) }
    requires vars { AreVars (view_typed typed.now) (0 ∷ []) (view_vars vars.now) }
    requires tree { block.lone_tree (block.known_in headers.now members.now (view_typed typed.now).code) (lone_parts (view_typed typed.now) (view_vars vars.now)) ≡ Some (view_stms tree.now) }
    ensures found { IfOk result (IsFound (record { headers = headers.now; members = members.now }) (view_typed typed.now)) }
{
    let classes = classes_of(headers, members, &typed.code);
    let body = made_body(alloc, &classes, typed, vars, tree)?;
    finished(alloc, headers, members, typed, body)
}

/// The body of code that starts one block, where it can be had.
fn with_starts(
    alloc: Global,
    headers: &Headers,
    members: &MemberTable,
    typed: &Typed,
    starts: &[u32],
) -> Result<Option<Body>, AllocError>
    requires rising { IsRising (view_instructions typed.now.code.instructions) }
    requires candidate { IsCandidate (record { headers = headers.now; members = members.now }) (view_typed typed.now) }
    requires starts { starts.now ≡ 0 ∷ [] }
    requires one { IsOneBlock (view_typed typed.now) }
    ensures found { IfOk result (IsFound (record { headers = headers.now; members = members.now }) (view_typed typed.now)) }
{
    let vars = variables(alloc, typed, starts)?;
    let classes = classes_of(headers, members, &typed.code);
    match lone_tree(alloc, &classes, typed, &vars, starts)? {
        Some(tree) => with_tree(alloc, headers, members, typed, &vars, tree.as_slice()),
        None => Ok(None),
    }
}

/// The body of code that may be printed, where it can be had.
fn candidate_body(
    alloc: Global,
    headers: &Headers,
    members: &MemberTable,
    typed: &Typed,
) -> Result<Option<Body>, AllocError>
    requires rising { IsRising (view_instructions typed.now.code.instructions) }
    requires candidate { IsCandidate (record { headers = headers.now; members = members.now }) (view_typed typed.now) }
    ensures found { IfOk result (IsFound (record { headers = headers.now; members = members.now }) (view_typed typed.now)) }
{
    let starts = block_starts(alloc, typed)?;
    if !is_one(starts.as_slice()) {
        return Ok(None);
    }
    with_starts(alloc, headers, members, typed, starts.as_slice())
}

/// The body of a method with this code in a world of which enough is known or not, or where it can't be had yet.
pub fn decompile_method(
    alloc: Global,
    headers: &Headers,
    members: &MemberTable,
    known: bool,
    typed: &Typed,
) -> Result<Decompiled, AllocError>
    requires known { known ≡ is_known_world headers.now members.now }
    requires rising { IsRising (view_instructions typed.now.code.instructions) }
    ensures decompiled { IfOk result (IsAnswer (record { headers = headers.now; members = members.now }) (view_typed typed.now)) }
{
    let code = &typed.code;
    if let Some(pc) = first_barred(code.handlers.as_slice(), code.instructions.as_slice()) {
        return Ok(Decompiled::NotYet(pc));
    }
    if !is_candidate(known, typed) {
        return Ok(Decompiled::NotYet(0));
    }
    match candidate_body(alloc, headers, members, typed)? {
        Some(body) => Ok(Decompiled::Body(body)),
        None => Ok(Decompiled::NotYet(0)),
    }
}
