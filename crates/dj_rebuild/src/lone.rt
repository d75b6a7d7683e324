//! The statements of code that is one block.

ghost use Rattle.std.specs.Prelude.{◌≡◌, [], IfOk, option_map};
ghost use Rattle.dj_syntax.specs.Trees.{Empty, view_stms};
ghost use Rattle.dj_pending.specs.Building.{view_built};
ghost use Rattle.dj_places.specs.Surroundings.{surroundings_of};
ghost use Rattle.dj_code.specs.MethodCode.{view_typed};
ghost use Rattle.dj_code_variables.specs.Views.{IsReady, view_vars};
ghost use Rattle.dj_names.specs.Types.{view_descriptor, result_of};
ghost use Rattle.dj_instructions.specs.Instructions.{view_instructions};
ghost use Rattle.dj_rebuilt.specs.Rebuilding as rebuilding;
ghost use Rattle.dj_one_block.specs.OneBlock as spec;
ghost use Rattle.dj_rebuild.specs.Walking.{exit_built};
ghost use Rattle.dj_rebuild.specs.Leaving.{IsLoneWay};

use crate::leaving::leave_at;
use crate::names::first_names;
use crate::walking::{Exit, walk};
use dj_code::Typed;
use dj_code_variables::Vars;
use dj_headers::Headers;
use dj_instructions::Instruction;
use dj_names::{Descriptor, Items};
use dj_pending::{Built, Stack};
use dj_static::Classes;
use dj_syntax::Stm;
use std::alloc::{AllocError, Global};

/// Nothing is built; an error says that there are too many variables.
fn nothing_built(alloc: Global, count: usize) -> Result<Built, AllocError>
    ensures nothing { IfOk result (λ built. view_built built ≡ record { emitted = Empty; stack = []; next = count }) }
{
    let Ok(next) = u32::try_from(count) else {
        return Err(AllocError);
    };
    Ok(Built {
        emitted: Items::new(alloc),
        stack: Stack::new(alloc),
        next,
    })
}

/// The statements of a run that ended, with those by which control leaves; None where it can't be rebuilt.
fn close(
    alloc: Global,
    headers: &Headers,
    descriptor: &Descriptor,
    built: Built,
    instructions: &[(u32, Instruction)],
    exit: Exit,
) -> Result<Option<Items<Stm>>, AllocError>
    ensures closed { (ways : rebuilding.Ways) (names : rebuilding.Names) → IsLoneWay headers.now (result_of (view_descriptor descriptor.now)) ways
        → IfOk result (λ found. option_map view_stms found ≡ exit_built ways (view_instructions instructions.now) exit (view_built built) names) }
{
    match exit {
        Exit::No => Ok(None),
        Exit::Falls(_) => Ok(None),
        Exit::Leaves(at) => {
            let mut built = built;
            let left = leave_at(alloc, headers, descriptor, &mut built, instructions, at)?;
            if left {
                Ok(Some(built.emitted))
            } else {
                Ok(None)
            }
        }
    }
}

/// The statements of code that is one block; None where it can't be rebuilt.
pub fn lone_tree(
    alloc: Global,
    classes: &Classes<'_>,
    typed: &Typed,
    vars: &Vars,
    starts: &[u32],
) -> Result<Option<Items<Stm>>, AllocError>
    requires ready { IsReady vars.now }
    ensures tree { IfOk result (λ found. option_map view_stms found ≡ spec.lone_tree (surroundings_of classes.now) (record { typed = view_typed typed.now; starts = starts.now; vars = view_vars vars.now })) }
{
    let code = &typed.code;
    let instructions = code.instructions.as_slice();
    let mut names = first_names(alloc, code, vars)?;
    let mut built = nothing_built(alloc, vars.kinds().len())?;
    let exit = walk(
        alloc,
        classes,
        vars,
        starts,
        instructions,
        &mut names,
        &mut built,
    )?;
    let found = close(
        alloc,
        classes.headers,
        &code.descriptor,
        built,
        instructions,
        exit,
    )?;
    Ok(found)
}
