//! The body of code that is one block, by the statements of the block.

ghost use Rattle.std.specs.Prelude.{◌≡◌, ◌↔◌, ◌≤◌, IfOk, IsTrue, length, Some};
ghost use Rattle.dj_names.specs.Types.{parameters_of, view_descriptor};
ghost use Rattle.dj_syntax.specs.Trees.{view_body, view_stms};
ghost use Rattle.dj_places.specs.Rules.{Holds};
ghost use Rattle.dj_thrown.specs.Bodies.{body_thrown};
ghost use Rattle.dj_code.specs.MethodCode.{view_typed};
ghost use Rattle.dj_code_variables.specs.Views.{IsReady, view_vars};
ghost use Rattle.dj_decompile.specs.Answers.{lone_body};

use crate::entry::{entry_of, parameters_of};
use crate::head::head_of;
use dj_code::Typed;
use dj_code_variables::Vars;
use dj_declarer::declare;
use dj_faults::BodyFault;
use dj_headers::Headers;
use dj_members::MemberTable;
use dj_renumber::{numbered, with_parameters};
use dj_static::Classes;
use dj_syntax::{Body, Stm};
use dj_thrown::check_thrown;
use std::alloc::{AllocError, Global};

/// Whether a method has so few parameters that each has a number.
fn has_few(typed: &Typed) -> bool
    ensures few { IsTrue result ↔ (length (parameters_of (view_descriptor typed.now.code.descriptor)) ≤ 4294967295) }
{
    parameters_of(&typed.code.descriptor).len() <= 4_294_967_295
}

/// The body with these statements of the one block, before its flags are looked at.
pub fn made_body(
    alloc: Global,
    classes: &Classes<'_>,
    typed: &Typed,
    vars: &Vars,
    tree: &[Stm],
) -> Result<Body, AllocError>
    requires ready { IsReady vars.now }
    ensures made { IfOk result (λ body. view_body body ≡ lone_body classes.now (view_typed typed.now) (view_vars vars.now) (view_stms tree.now)) }
{
    if !has_few(typed) {
        return Err(AllocError);
    }
    let head = head_of(alloc, &typed.code)?;
    let entry = entry_of(alloc, vars, typed)?;
    let kinds = vars.kinds();
    let parameters = parameters_of(&typed.code.descriptor);
    let tree = with_parameters(alloc, parameters, kinds, &entry, tree)?;
    let body = declare(alloc, classes, head, kinds, &entry, 0, tree.as_slice())?;
    numbered(alloc, body)
}

/// Whether all that a body throws may leave it.
pub fn may_throw(
    alloc: Global,
    headers: &Headers,
    members: &MemberTable,
    body: &Body,
) -> Result<bool, AllocError>
    ensures may { IfOk result (λ may. IsTrue may ↔ Holds (body_thrown headers.now members.now (view_body body.now))) }
{
    match check_thrown(alloc, headers, members, body) {
        Ok(()) => Ok(true),
        Err(BodyFault::TypeFault { .. }) => Ok(false),
        Err(BodyFault::Memory(error)) => Err(error),
    }
}
