//! Whether the statements of a body can be reached, and whether it ends as it has to.

ghost use Rattle.std.specs.Prelude.{◌≡◌, IfOk, IfErr, OnOk};
ghost use Rattle.dj_syntax.specs.Trees.{view_body, view_stms};
ghost use Rattle.dj_places.specs.Rules.{Holds};
ghost use Rattle.dj_places.specs.Surroundings.{surroundings_of};
ghost use Rattle.dj_reach.specs.Bodies.{body_reach, ends_well};
ghost use Rattle.dj_reach.specs.Faults.{IsFaultOf};
ghost use Rattle.dj_reach.specs.Reach.{list_completes};

use crate::fault::ReachFault;
use crate::statements::pass_list;
use crate::walk::{Site, Walk};
use dj_headers::Headers;
use dj_members::MemberTable;
use dj_names::Descriptor;
use dj_static::Classes;
use dj_syntax::{Body, Stm, is_initialiser};
use std::alloc::{AllocError, Global};

/// Whether statements can complete normally, where they can be reached.
pub fn completes(alloc: Global, classes: &Classes<'_>, list: &[Stm]) -> Result<bool, AllocError>
    ensures completes { IfOk result (λ answer. answer ≡ list_completes (surroundings_of classes.now) (view_stms list.now)) }
{
    let site = Site {
        classes: *classes,
        may_return: true,
    };
    let mut walk = Walk::new(alloc);
    pass_list(alloc, &site, list, &mut walk)?;
    Ok(walk.alive)
}

/// Whether a body may end so: one with a result doesn't complete normally, a static initialiser does.
fn ends_well(body: &Body, completes: bool) -> bool
    ensures well { result ≡ ends_well (view_body body.now) completes }
{
    let has_result = match &body.descriptor {
        Descriptor::Method { result, .. } => result.is_some(),
        Descriptor::Field(_) => true,
    };
    (!has_result || !completes) && (!is_initialiser(&body.name) || completes)
}

/// Checks that each statement of a body can be reached, that its loops don't begin with a test that is
/// constant false, that its catch clauses stand in order, and that it ends as its descriptor and its
/// name ask (JLS 8.4.7, 8.7, 14.21). The members are those of the classes of the headers, in the same
/// order.
pub fn check_reach(
    alloc: Global,
    headers: &Headers,
    members: &MemberTable,
    body: &Body,
) -> Result<(), ReachFault>
    ensures kept { OnOk result (Holds (body_reach headers.now members.now (view_body body.now))) }
    ensures unreached { IfErr result (IsFaultOf (body_reach headers.now members.now (view_body body.now))) }
{
    let site = Site {
        classes: Classes {
            headers,
            members,
            from: &body.class,
        },
        may_return: !is_initialiser(&body.name),
    };
    let mut walk = Walk::new(alloc);
    pass_list(alloc, &site, body.statements.as_slice(), &mut walk)?;
    if !ends_well(body, walk.alive) {
        return Err(ReachFault::Unreached(0));
    }
    match walk.fault {
        None => Ok(()),
        Some(place) => Err(ReachFault::Unreached(place)),
    }
}
