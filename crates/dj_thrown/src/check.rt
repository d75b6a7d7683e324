//! What a body throws and catches, by the rules on a whole body.

ghost use Rattle.std.specs.Prelude.{◌≡◌, [], IfOk, IfErr, OnOk};
ghost use Rattle.dj_syntax.specs.Trees.{view_body, view_stms};
ghost use Rattle.dj_places.specs.Rules.{Holds};
ghost use Rattle.dj_faults.specs.FirstFault.{IsFaultOf};
ghost use Rattle.dj_thrown.specs.Bodies.{all_told, body_throws, body_thrown, scope_in};
ghost use Rattle.dj_thrown.specs.Settings.{setting_in};
ghost use Rattle.dj_thrown.specs.Walks as spec;

use crate::catching::first_escaping;
use crate::statements::pass_list;
use crate::throwing::Throwing;
use crate::walk::Walk;
use dj_faults::{BodyFault, lower};
use dj_headers::Headers;
use dj_members::MemberTable;
use dj_names::Items;
use dj_scopes::parameters_in;
use dj_static::Classes;
use dj_syntax::Body;
use std::alloc::{AllocError, Global};

/// The walk over a whole body.
fn walk_over(
    alloc: Global,
    headers: &Headers,
    members: &MemberTable,
    body: &Body,
) -> Result<Walk, AllocError>
    ensures walked { IfOk result (λ walk. walk ≡ spec.pass_list (setting_in headers.now members.now (view_body body.now)) [] (scope_in (view_body body.now)) (view_stms body.now.statements) spec.opening) }
{
    let classes = Classes {
        headers,
        members,
        from: &body.class,
    };
    let mut scope = parameters_in(alloc, &body.descriptor)?;
    let mut held = Items::new(alloc);
    let mut walk = Walk::new(alloc);
    let statements = body.statements.as_slice();
    pass_list(
        alloc, &classes, &mut scope, &mut held, statements, &mut walk,
    )?;
    Ok(walk)
}

/// All that a body can throw, in no order: classes of exceptions, each with the place of what throws it,
/// at most 4,294,967,295. The members are those of the classes of the headers, in the same order.
pub fn throws(
    alloc: Global,
    headers: &Headers,
    members: &MemberTable,
    body: &Body,
) -> Result<Items<Throwing>, AllocError>
    ensures throws { IfOk result (λ thrown. thrown ≡ all_told (body_throws headers.now members.now (view_body body.now))) }
{
    let walk = walk_over(alloc, headers, members, body)?;
    Ok(walk.thrown)
}

/// Checks that a body throws only checked classes that it catches or declares, and that each of its
/// catch clauses takes something that can be thrown (JLS 11.2.3).
pub fn check_thrown(
    alloc: Global,
    headers: &Headers,
    members: &MemberTable,
    body: &Body,
) -> Result<(), BodyFault>
    ensures kept { OnOk result (Holds (body_thrown headers.now members.now (view_body body.now))) }
    ensures broken { IfErr result (IsFaultOf (body_thrown headers.now members.now (view_body body.now))) }
{
    let walk = walk_over(alloc, headers, members, body)?;
    let declared = body.thrown.as_slice();
    let escaping = first_escaping(alloc, headers, declared, walk.thrown.as_slice())?;
    match lower(walk.fault, escaping) {
        None => Ok(()),
        Some(fault) => Err(BodyFault::TypeFault {
            place: fault.place,
            kind: fault.kind,
        }),
    }
}
