//! Whether Java accepts a body, by all the rules on it.

ghost use Rattle.std.specs.Prelude.{IfErr, IfOk, OnOk};
ghost use Rattle.dj_syntax.specs.Trees.{view_body};
ghost use Rattle.dj_faults.specs.FirstFault.{Tells};
ghost use Rattle.dj_typed.specs.Bodies.{body_rules, IsTyped, IsTypeFault};
ghost use Rattle.dj_body_types.specs.Views.{writing_of};

use crate::parts::{found, unassigned, unreached};
use crate::said::said_in;
use dj_assigned::check_assigned;
use dj_body_types::check_types;
use dj_faults::{BodyFault, Fault, lower};
use dj_headers::Headers;
use dj_members::MemberTable;
use dj_names::ClassName;
use dj_reach::check_reach;
use dj_syntax::Body;
use dj_thrown::check_thrown;
use dj_world::World;
use std::alloc::{AllocError, Global};
use std::collections::BTreeSet;

/// The first rule that a body breaks, given the names of classes that can be said in its class.
fn first_fault(
    alloc: Global,
    headers: &Headers,
    members: &MemberTable,
    said: &BTreeSet<ClassName>,
    body: &Body,
) -> Result<Option<Fault>, AllocError>
    ensures tells { IfOk result (Tells (body_rules (writing_of said.now) headers.now members.now (view_body body.now))) }
{
    let types = found(check_types(alloc, headers, members, said, body))?;
    let reach = unreached(check_reach(alloc, headers, members, body))?;
    let reads = unassigned(check_assigned(alloc, headers, members, body))?;
    let thrown = found(check_thrown(alloc, headers, members, body))?;
    Ok(lower(types, lower(reach, lower(reads, thrown))))
}

/// Checks a body by the rules of Java's types, of reachability, definite assignment and exceptions, in
/// the world in which its class is. A fault is of the lowest place, in the order of the text, at which a
/// rule is broken, at most 4,294,967,295, and there of the first kind. It takes time that is linear in
/// the number of classes for the names that can be said, and then what the body takes.
pub fn type_body(alloc: Global, world: &World, body: &Body) -> Result<(), BodyFault>
    ensures typed { OnOk result (IsTyped world.now.headers world.now.members (view_body body.now)) }
    ensures fault { IfErr result (IsTypeFault world.now.headers world.now.members (view_body body.now)) }
{
    let said = said_in(alloc, world.headers(), world.members(), &body.class)?;
    let headers = world.headers();
    let members = world.member_table();
    match first_fault(alloc, headers, members, &said, body)? {
        None => Ok(()),
        Some(fault) => Err(BodyFault::TypeFault {
            place: fault.place,
            kind: fault.kind,
        }),
    }
}
