//! Whether Java accepts the statements of a body by their types, by the rules on a whole body.

ghost use Rattle.std.specs.Prelude.{◌≡◌, [], IfOk, IfErr, OnOk};
ghost use Rattle.dj_syntax.specs.Trees.{view_body, view_stms};
ghost use Rattle.dj_static.specs.Scopes.{scope_of};
ghost use Rattle.dj_places.specs.Rules.{Holds};
ghost use Rattle.dj_faults.specs.FirstFault.{IsFaultOf};
ghost use Rattle.dj_values.specs.Fits.{is_static};
ghost use Rattle.dj_typed.specs.Bodies.{around_in, begins_with_construct, body_types};
ghost use Rattle.dj_body_types.specs.Views.{around_of, writing_of};
ghost use Rattle.dj_body_types.specs.Walks as spec;

use crate::around::{Around, Position};
use crate::statements::{pass, pass_list};
use dj_checked::{Site, Walk, may_name};
use dj_faults::BodyFault;
use dj_headers::Headers;
use dj_members::MemberTable;
use dj_names::{ClassName, Items, is_constructor};
use dj_places::TypeKind;
use dj_reach::Jump;
use dj_scopes::parameters_in;
use dj_static::{Classes, Scope};
use dj_syntax::{Body, Stm};
use std::alloc::{AllocError, Global};
use std::collections::BTreeSet;

/// Whether the first of some statements calls another constructor.
fn begins_with_construct(list: &[Stm]) -> bool
    ensures begins { result ≡ begins_with_construct (view_stms list.now) }
{
    match list {
        [Stm::Construct(_, _), ..] => true,
        _ => false,
    }
}

/// The rules on a body itself: its class can be named, and a constructor calls another one first.
fn note_body(
    alloc: Global,
    around: &Around<'_>,
    body: &Body,
    walk: &mut Walk,
) -> Result<(), AllocError>
    ensures noted { IfOk result (λ _. walk.new ≡ spec.note_body (around_of around.now []) (view_body body.now) walk.old) }
{
    let named = may_name(alloc, &around.site, &body.class)?;
    let begins = begins_with_construct(body.statements.as_slice());
    walk.note(0, TypeKind::Name, named);
    walk.note(0, TypeKind::Call, !around.constructs || begins);
    Ok(())
}

/// Walks past the statements of a body, of which the first stands at its beginning.
fn pass_all(
    alloc: Global,
    around: &Around<'_>,
    scope: &mut Scope,
    list: &[Stm],
    walk: &mut Walk,
) -> Result<(), AllocError>
    ensures walked { IfOk result (λ _. walk.new ≡ spec.pass_all (around_of around.now []) (scope_of scope.old) (view_stms list.now) walk.old) }
{
    let mut targets: Items<Jump> = Items::new(alloc);
    match list {
        [] => Ok(()),
        [first, rest @ ..] => {
            let at = Position::First;
            pass(alloc, around, at, scope, &mut targets, first, walk)?;
            pass_list(alloc, around, scope, &mut targets, rest, walk)
        }
    }
}

/// The walk over a whole body.
fn walk_over(alloc: Global, around: &Around<'_>, body: &Body) -> Result<Walk, AllocError>
    ensures walked { IfOk result (λ walk. walk ≡ spec.walked (around_of around.now []) (view_body body.now)) }
{
    let mut scope = parameters_in(alloc, &body.descriptor)?;
    let mut walk = Walk::new();
    note_body(alloc, around, body, &mut walk)?;
    pass_all(
        alloc,
        around,
        &mut scope,
        body.statements.as_slice(),
        &mut walk,
    )?;
    Ok(walk)
}

/// Whether a method is static.
fn is_static(flags: u16) -> bool
    ensures of_class { result ≡ is_static flags }
{
    flags & 0x0008 != 0
}

/// What stands around the statements of a body.
fn around<'a>(
    headers: &'a Headers,
    members: &'a MemberTable,
    said: &'a BTreeSet<ClassName>,
    body: &'a Body,
) -> Around<'a>
    ensures around { around_of result [] ≡ around_in (writing_of said.now) headers.now members.now (view_body body.now) }
{
    let classes = Classes {
        headers,
        members,
        from: &body.class,
    };
    let has_this = !is_static(body.flags);
    let constructs = is_constructor(&body.name);
    Around {
        site: Site {
            classes,
            has_this,
            said,
        },
        descriptor: &body.descriptor,
        constructs,
    }
}

/// Checks the rules of types on a body (JLS 14, 15), given the names of classes that can be said in its
/// class. The members are those of the classes of the headers, in the same order.
pub fn check_types(
    alloc: Global,
    headers: &Headers,
    members: &MemberTable,
    said: &BTreeSet<ClassName>,
    body: &Body,
) -> Result<(), BodyFault>
    ensures kept { OnOk result (Holds (body_types (writing_of said.now) headers.now members.now (view_body body.now))) }
    ensures broken { IfErr result (IsFaultOf (body_types (writing_of said.now) headers.now members.now (view_body body.now))) }
{
    let around = around(headers, members, said, body);
    let walk = walk_over(alloc, &around, body)?;
    match walk.fault {
        None => Ok(()),
        Some(fault) => Err(BodyFault::TypeFault {
            place: fault.place,
            kind: fault.kind,
        }),
    }
}
