//! Whether each variable is assigned where it is read.

ghost use Rattle.std.specs.Prelude.{IfErr, OnOk};
ghost use Rattle.dj_syntax.specs.Trees.{view_body};
ghost use Rattle.dj_places.specs.Rules.{Holds};
ghost use Rattle.dj_assigned.specs.Bodies.{body_reads};
ghost use Rattle.dj_assigned.specs.Faults.{IsFaultOf};

use crate::course::Course;
use crate::fault::FlowFault;
use crate::statements::pass_list;
use dj_headers::Headers;
use dj_members::MemberTable;
use dj_static::Classes;
use dj_syntax::Body;
use std::alloc::Global;

/// Checks that each variable that a body declares is assigned wherever it is read (JLS 16). The members
/// are those of the classes of the headers, in the same order.
pub fn check_assigned(
    alloc: Global,
    headers: &Headers,
    members: &MemberTable,
    body: &Body,
) -> Result<(), FlowFault>
    ensures kept { OnOk result (Holds (body_reads headers.now members.now (view_body body.now))) }
    ensures unassigned { IfErr result (IsFaultOf (body_reads headers.now members.now (view_body body.now))) }
{
    let classes = Classes {
        headers,
        members,
        from: &body.class,
    };
    let mut course = Course::new(alloc);
    pass_list(alloc, &classes, body.statements.as_slice(), &mut course)?;
    match course.walk.fault {
        None => Ok(()),
        Some(place) => Err(FlowFault::Unassigned(place)),
    }
}
