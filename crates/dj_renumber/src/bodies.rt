//! Trees and bodies with other names.

ghost use Rattle.std.specs.Prelude.{◌≡◌, map, IfOk};
ghost use Rattle.dj_names.specs.Types.{view_type};
ghost use Rattle.dj_syntax.specs.Trees.{view_body, view_stms};
ghost use Rattle.dj_parameters.specs.Parameters as parameters_spec;
ghost use Rattle.dj_numbered.specs.Numbering as spec;

use crate::copies::Copies;
use crate::names::NewNames;
use crate::openings::behind_opening;
use crate::statements::all_renamed;
use crate::used::nothing_used;
use crate::uses::use_in_list;
use dj_declaring::Entry;
use dj_names::{Items, JType};
use dj_syntax::{Body, Stm};
use std::alloc::{AllocError, Global};

/// A tree with parameters in place of the variables that hold them as the method begins, given the types of the
/// parameters, the kinds of the variables, and which hold parameters.
pub fn with_parameters(
    alloc: Global,
    parameters: &[JType],
    kinds: &[JType],
    entry: &Entry,
    tree: &[Stm],
) -> Result<Items<Stm>, AllocError>
    ensures made { IfOk result (λ made. view_stms made ≡ parameters_spec.with_parameters (map view_type parameters.now) (map view_type kinds.now) entry.now (view_stms tree.now)) }
{
    let copies = Copies {
        parameters,
        kinds,
        entry,
    };
    behind_opening(alloc, &NewNames::Exchanged(copies), tree)
}

/// The body whose numbers of variables and labels stand in the order of its text.
pub fn numbered(alloc: Global, body: Body) -> Result<Body, AllocError>
    ensures numbered { IfOk result (λ made. view_body made ≡ spec.numbered (view_body body)) }
{
    let mut used = nothing_used(alloc);
    use_in_list(body.statements.as_slice(), &mut used)?;
    let statements = all_renamed(alloc, &NewNames::Counted(&used), body.statements.as_slice())?;
    let Body {
        class,
        flags,
        name,
        descriptor,
        thrown,
        ..
    } = body;
    Ok(Body {
        class,
        flags,
        name,
        descriptor,
        thrown,
        statements,
    })
}
