//! The variables of code: one for each slot and type.

ghost use Rattle.std.specs.Prelude.{◌≡◌, IfOk, map};
ghost use Rattle.dj_names.specs.Types.{view_type};
ghost use Rattle.dj_instructions.specs.Instructions.{view_instructions, IsRising};
ghost use Rattle.dj_code.specs.MethodCode.{view_typed};
ghost use Rattle.dj_vars.specs.Naming.{AreVars};
ghost use Rattle.dj_code_variables.specs.Views.{IsReady, view_vars, kinds_of};

use crate::firsts::first_frames;
use crate::stores::add_stores;
use crate::vars::Vars;
use dj_code::Typed;
use dj_names::{Items, JType};
use dj_numbers::{Numbers, PlainTypes, Variable, add_frames};
use std::alloc::{AllocError, Global};

/// The types of variables, in order.
fn kinds_of(alloc: Global, variables: &[Variable]) -> Result<Items<JType>, AllocError>
    ensures kinds { IfOk result (λ kinds. map view_type kinds ≡ kinds_of variables.now) }
{
    let mut kinds = Items::new(alloc);
    for variable in variables {
        let kind = variable.kind.copy(alloc)?;
        kinds.push(kind)?;
    }
    Ok(kinds)
}

/// The variables of code whose blocks start at these pcs.
pub fn variables(alloc: Global, typed: &Typed, starts: &[u32]) -> Result<Vars, AllocError>
    requires rising { IsRising (view_instructions typed.now.code.instructions) }
    ensures ready { IfOk result IsReady }
    ensures vars { IfOk result (λ vars. AreVars (view_typed typed.now) starts.now (view_vars vars)) }
{
    let plain = PlainTypes::new(alloc)?;
    let most = typed.code.max_locals;
    let firsts = first_frames(alloc, typed, starts)?;
    let mut numbers = Numbers::new(alloc);
    add_frames(alloc, &plain, most, firsts.as_slice(), &mut numbers)?;
    let after = add_stores(alloc, &plain, typed, &mut numbers)?;
    let kinds = kinds_of(alloc, numbers.variables.as_slice())?;
    Ok(Vars {
        firsts,
        most,
        plain,
        numbers,
        kinds,
        after,
    })
}
