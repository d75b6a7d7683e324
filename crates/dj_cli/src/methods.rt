//! What is found of the methods of a class.

ghost use Rattle.std.specs.Prelude.{◌≡◌, ◌++◌, ◌∷◌, ◌<◌, [], List, None, IfOk, IsSome, OnOk, Some, length, map, option_map, slice_get};
ghost use Rattle.dj_class.specs.Described.{MethodOf};
ghost use Rattle.dj_class.specs.Views.{view_class, view_method};
ghost use Rattle.dj_syntax.specs.Trees.{view_body};
ghost use Rattle.dj_causes.specs.Tables.{AreCauses};
ghost use Rattle.dj_frames.specs.Frames.{view_frame};
ghost use Rattle.dj_code.specs.MethodCode.{view_code, view_typed};
ghost use Rattle.dj_code.specs.ReadCode.{SpellsCode};
ghost use Rattle.dj_world.specs.Worlds.{WorldOf};
ghost use Rattle.dj_straight.specs.DeclaredMethods.{Holds};
ghost use Rattle.dj_tags.specs.Laxly.{Laxly};
ghost use Rattle.dj_verify.specs.Table.{IsFrameTable};
ghost use Rattle.dj_method_causes.specs.Telling.{AreMethodCauses, IsUntold};
ghost use Rattle.dj_cli.specs.Lines.{lines_bytes};
ghost use Rattle.dj_cli.specs.Methods.{AreJudged, IsFound, IsToldOf};

use crate::basis::Basis;
use crate::endings::{Ending, MemberLine, Subject, method_ending};
use dj_causes::{Cause, Causes};
use dj_class::{ClassFile, Method};
use dj_code::{BadKind, Code, CodeFault, Typed, read_code_of};
use dj_decompile::{Decompiled, decompile_method};
use dj_method_causes::MethodCauses;
use dj_names::Items;
use dj_report::{bad_tail, not_yet_tail, unverified_tail};
use dj_straight::{Declared, Judged, judge, returning_body};
use dj_syntax::{Body, Exp};
use dj_verify::{Rule, VerifyFault};
use dj_world::World;
use std::alloc::{AllocError, Global};

/// What is found of the methods of a class.
#[derive(Drop)]
pub struct Judgement<'a> {
    /// The body that each is printed with, where it has one.
    pub bodies: Items<Option<Body>>,
    /// The lines on those that aren't printed, in file order.
    pub lines: Vec<MemberLine<'a>>,
}

/// What is found of a method.
#[derive(Drop)]
enum Finding {
    /// It returns this expression.
    Straight(Exp),
    /// Its code is decompiled to this body.
    Decompiled(Body),
    /// It has no code, and is printed without.
    Bare,
    /// This is its first cause; its code is verified, where it has some.
    Refused(Cause),
    /// Its code has this fault first, at this offset.
    Bad { pc: u32, kind: BadKind },
    /// Its code breaks this rule first, at this offset.
    Unverified { pc: u32, rule: Rule },
    /// It isn't straight, nor is its code decompiled yet, at this offset.
    NotYet(u32),
}

/// What is told of a method: its body, that it is printed without one, or how its line ends.
#[derive(Drop)]
enum Told {
    Body(Body),
    Bare,
    Line(Ending),
}

/// What is found of a method that has this typed code, of which no cause is told, where the table holds those before it;
/// it is put into the table.
fn find_untold<'a>(
    alloc: Global,
    basis: &Basis<'_>,
    class: &ClassFile,
    declared: &mut Declared<'a>,
    method: &'a Method,
    typed: &Typed,
) -> Result<Finding, AllocError>
    requires spelled { SpellsCode (view_class class.now) (view_method method.now) (view_code typed.now.code) }
    ensures found { IfOk result (λ found. (before : List MethodOf) → slice_get (view_class class.now).methods (length before) ≡ Some (view_method method.now) → IsFrameTable (Laxly basis.now.world.now.headers) basis.now.world.now.headers (view_code typed.now.code) (map view_frame typed.now.frames)
        → IsUntold basis.now.world.now (view_class class.now) (length before) (view_typed typed.now) → Holds declared.old before → IsFound basis.now.world.now (view_class class.now) before (view_method method.now) found) }
    ensures declared { OnOk result ((before : List MethodOf) → Holds declared.old before → Holds declared.new (before ++ view_method method.now ∷ [])) }
{
    let headers = basis.world.headers();
    let members = basis.world.member_table();
    match judge(alloc, class, declared, method, &typed.code)? {
        Judged::Straight(exp) => Ok(Finding::Straight(exp)),
        Judged::NotYet(_) => match decompile_method(alloc, headers, members, basis.known, typed)? {
            Decompiled::Body(body) => Ok(Finding::Decompiled(body)),
            Decompiled::NotYet(pc) => Ok(Finding::NotYet(pc)),
        },
    }
}

/// What is found of the method at a place, which has this typed code, where the table holds those before it; it is put
/// into the table.
fn find_verified<'a>(
    alloc: Global,
    basis: &Basis<'_>,
    class: &ClassFile,
    causes: &MethodCauses,
    declared: &mut Declared<'a>,
    at: usize,
    method: &'a Method,
    typed: &Typed,
) -> Result<Finding, AllocError>
    requires made { AreMethodCauses basis.now.world.now (view_class class.now) causes.now }
    requires within { at < length class.now.methods }
    requires here { slice_get (view_class class.now).methods at ≡ Some (view_method method.now) }
    requires spelled { SpellsCode (view_class class.now) (view_method method.now) (view_code typed.now.code) }
    requires table { IsFrameTable (Laxly basis.now.world.now.headers) basis.now.world.now.headers (view_code typed.now.code) (map view_frame typed.now.frames) }
    ensures found { IfOk result (λ found. (before : List MethodOf) → length before ≡ at → Holds declared.old before → IsFound basis.now.world.now (view_class class.now) before (view_method method.now) found) }
    ensures declared { OnOk result ((before : List MethodOf) → Holds declared.old before → Holds declared.new (before ++ view_method method.now ∷ [])) }
{
    match causes.told_cause(alloc, basis.world, class, at, typed)? {
        Some(cause) => {
            declared.admit(method)?;
            Ok(Finding::Refused(cause))
        }
        None => find_untold(alloc, basis, class, declared, method, typed),
    }
}

/// What is found of the method at a place, which has this code, where the table holds those before it; it is put into the
/// table.
fn find_spelled<'a>(
    alloc: Global,
    basis: &Basis<'_>,
    class: &ClassFile,
    causes: &MethodCauses,
    declared: &mut Declared<'a>,
    at: usize,
    method: &'a Method,
    code: Code,
) -> Result<Finding, AllocError>
    requires made { AreMethodCauses basis.now.world.now (view_class class.now) causes.now }
    requires within { at < length class.now.methods }
    requires here { slice_get (view_class class.now).methods at ≡ Some (view_method method.now) }
    requires spelled { SpellsCode (view_class class.now) (view_method method.now) (view_code code) }
    ensures found { IfOk result (λ found. (before : List MethodOf) → length before ≡ at → Holds declared.old before → IsFound basis.now.world.now (view_class class.now) before (view_method method.now) found) }
    ensures declared { OnOk result ((before : List MethodOf) → Holds declared.old before → Holds declared.new (before ++ view_method method.now ∷ [])) }
{
    match basis.verifier.verify(alloc, basis.world.headers(), code) {
        Ok(typed) => find_verified(alloc, basis, class, causes, declared, at, method, &typed),
        Err(VerifyFault::Unverified { pc, rule }) => {
            declared.admit(method)?;
            Ok(Finding::Unverified { pc, rule })
        }
        Err(VerifyFault::Memory(error)) => Err(error),
    }
}

/// What is found of the method at a place, which has code, where the table holds those before it; it is put into the
/// table.
fn find_coded<'a>(
    alloc: Global,
    basis: &Basis<'_>,
    class: &ClassFile,
    causes: &MethodCauses,
    declared: &mut Declared<'a>,
    at: usize,
    method: &'a Method,
) -> Result<Finding, AllocError>
    requires made { AreMethodCauses basis.now.world.now (view_class class.now) causes.now }
    requires within { at < length class.now.methods }
    requires here { slice_get (view_class class.now).methods at ≡ Some (view_method method.now) }
    requires coded { IsSome method.now.code }
    ensures found { IfOk result (λ found. (before : List MethodOf) → length before ≡ at → Holds declared.old before → IsFound basis.now.world.now (view_class class.now) before (view_method method.now) found) }
    ensures declared { OnOk result ((before : List MethodOf) → Holds declared.old before → Holds declared.new (before ++ view_method method.now ∷ [])) }
{
    match read_code_of(alloc, class, method) {
        Ok(code) => find_spelled(alloc, basis, class, causes, declared, at, method, code),
        Err(CodeFault::BadCode { pc, kind }) => {
            declared.admit(method)?;
            Ok(Finding::Bad { pc, kind })
        }
        Err(CodeFault::Memory(error)) => Err(error),
    }
}

/// What is found of the method at a place, without code.
fn find_bare(
    alloc: Global,
    world: &World,
    class: &ClassFile,
    causes: &Causes,
    at: usize,
) -> Result<Finding, AllocError>
    requires made { AreCauses world.now (view_class class.now) causes.now }
    requires within { at < length class.now.methods }
    ensures found { IfOk result (λ found. (before : List MethodOf) (method : MethodOf) → length before ≡ at → method.code ≡ None → IsFound world.now (view_class class.now) before method found) }
{
    let cause = causes.bare_cause(alloc, world, class, at)?;
    match cause {
        Some(cause) => Ok(Finding::Refused(cause)),
        None => Ok(Finding::Bare),
    }
}

/// What is found of the method at a place, where the table holds those before it; it is put into the table.
fn find<'a>(
    alloc: Global,
    basis: &Basis<'_>,
    class: &ClassFile,
    causes: &Causes,
    coded: &MethodCauses,
    declared: &mut Declared<'a>,
    at: usize,
    method: &'a Method,
) -> Result<Finding, AllocError>
    requires made { AreCauses basis.now.world.now (view_class class.now) causes.now }
    requires coded { AreMethodCauses basis.now.world.now (view_class class.now) coded.now }
    requires within { at < length class.now.methods }
    requires here { slice_get (view_class class.now).methods at ≡ Some (view_method method.now) }
    ensures found { IfOk result (λ found. (before : List MethodOf) → length before ≡ at → Holds declared.old before → IsFound basis.now.world.now (view_class class.now) before (view_method method.now) found) }
    ensures declared { OnOk result ((before : List MethodOf) → Holds declared.old before → Holds declared.new (before ++ view_method method.now ∷ [])) }
{
    match &method.code {
        Some(_) => {
            let found = find_coded(alloc, basis, class, coded, declared, at, method)?;
            Ok(found)
        }
        None => {
            declared.admit(method)?;
            let found = find_bare(alloc, basis.world, class, causes, at)?;
            Ok(found)
        }
    }
}

/// What is told of a method of which this is found.
fn told_of(
    alloc: Global,
    class: &ClassFile,
    method: &Method,
    found: Finding,
) -> Result<Told, AllocError>
    ensures told { (world : WorldOf) (before : List MethodOf) → IsFound world (view_class class.now) before (view_method method.now) found → IfOk result (IsToldOf world (view_class class.now) before (view_method method.now)) }
{
    match found {
        Finding::Straight(exp) => Ok(Told::Body(returning_body(alloc, class, method, exp)?)),
        Finding::Decompiled(body) => Ok(Told::Body(body)),
        Finding::Bare => Ok(Told::Bare),
        Finding::Refused(cause) => Ok(Told::Line(method_ending(alloc, &cause)?)),
        Finding::Bad { pc, kind } => Ok(Told::Line(Ending::Text(bad_tail(alloc, kind, pc)?))),
        Finding::Unverified { pc, rule } => {
            Ok(Told::Line(Ending::Text(unverified_tail(alloc, rule, pc)?)))
        }
        Finding::NotYet(pc) => Ok(Told::Line(Ending::Text(not_yet_tail(alloc, pc)?))),
    }
}

/// What is told of the method at a place, where the table holds those before it; it is put into the table.
fn judge_method<'a>(
    alloc: Global,
    basis: &Basis<'_>,
    class: &ClassFile,
    causes: &Causes,
    coded: &MethodCauses,
    declared: &mut Declared<'a>,
    at: usize,
    method: &'a Method,
) -> Result<Told, AllocError>
    requires made { AreCauses basis.now.world.now (view_class class.now) causes.now }
    requires coded { AreMethodCauses basis.now.world.now (view_class class.now) coded.now }
    requires within { at < length class.now.methods }
    requires here { slice_get (view_class class.now).methods at ≡ Some (view_method method.now) }
    ensures told { IfOk result (λ told. (before : List MethodOf) → length before ≡ at → Holds declared.old before → IsToldOf basis.now.world.now (view_class class.now) before (view_method method.now) told) }
    ensures declared { OnOk result ((before : List MethodOf) → Holds declared.old before → Holds declared.new (before ++ view_method method.now ∷ [])) }
{
    let found = find(alloc, basis, class, causes, coded, declared, at, method)?;
    let told = told_of(alloc, class, method, found)?;
    Ok(told)
}

/// What is found of the methods of a class of the world.
pub fn judge_methods<'a>(
    alloc: Global,
    basis: &Basis<'_>,
    class: &'a ClassFile,
    causes: &Causes,
) -> Result<Judgement<'a>, AllocError>
    requires made { AreCauses basis.now.world.now (view_class class.now) causes.now }
    ensures judged { IfOk result (λ found. AreJudged basis.now.world.now (view_class class.now) (view_class class.now).methods (map (option_map view_body) found.bodies) (lines_bytes class.now.this_class found.lines.items) (length found.lines.items)) }
{
    let mut bodies = Items::new(alloc);
    let mut lines = Vec::new(alloc);
    let mut declared = Declared::new(alloc);
    let coded = MethodCauses::new(alloc, basis.world, class)?;
    let methods = class.methods.as_slice();
    for at in 0..methods.len() {
        let method = &methods[at];
        match judge_method(
            alloc,
            basis,
            class,
            causes,
            &coded,
            &mut declared,
            at,
            method,
        )? {
            Told::Body(body) => bodies.push(Some(body))?,
            Told::Bare => bodies.push(None)?,
            Told::Line(ending) => {
                let subject = Subject::Method(method);
                lines.push(MemberLine { subject, ending })?;
                bodies.push(None)?;
            }
        }
    }
    Ok(Judgement { bodies, lines })
}
