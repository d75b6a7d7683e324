//! The variables of code as names of slots, and `this`.

ghost use Rattle.std.specs.Prelude.{◌≡◌, Some, IfOk, option_map, slice_get};
ghost use Rattle.std.specs.Option.{option_copied};
ghost use Rattle.dj_names.specs.Types.{Class};
ghost use Rattle.dj_code_variables.specs.Views.{view_vars};
ghost use Rattle.dj_one_block.specs.OneBlock.{variable_of};
ghost use Rattle.dj_rebuilding.specs.Pending as spec;
ghost use Rattle.dj_pending.specs.Steps.{view_local, view_target};
ghost use Rattle.dj_rebuild.specs.Targets.{as_name};

use dj_code::Code;
use dj_code_variables::Vars;
use dj_names::JType;
use dj_pending::{Atom, Local, Target};
use dj_syntax::{Var, VarKind};
use std::alloc::{AllocError, Global};

/// The type of a number.
fn kind_at(kinds: &[JType], number: u32) -> Option<&JType>
    ensures kind { option_copied result ≡ slice_get kinds.now number }
{
    kinds.get(number as usize)
}

/// A variable of the code, with its type.
pub fn target_of(
    alloc: Global,
    vars: &Vars,
    found: Option<u32>,
) -> Result<Option<Target>, AllocError>
    ensures target { IfOk result (λ target. option_map view_target target ≡ variable_of (view_vars vars.now).kinds found) }
{
    let Some(number) = found else {
        return Ok(None);
    };
    let Some(kind) = kind_at(vars.kinds(), number) else {
        return Ok(None);
    };
    let kind = kind.copy(alloc)?;
    let variable = Var {
        kind: VarKind::Local,
        number,
    };
    Ok(Some(Target { variable, kind }))
}

/// What a slot is whose variable is this.
pub fn named(target: Option<Target>) -> Option<Local>
    ensures named { option_map view_local result ≡ spec.and_then (option_map view_target target) (λ found. Some (as_name found)) }
{
    let Some(target) = target else {
        return None;
    };
    Some(Local {
        kind: target.kind,
        atom: Atom::Named(target.variable),
    })
}

/// `this`, in code of its class.
pub fn own(alloc: Global, code: &Code) -> Result<Local, AllocError>
    ensures own { IfOk result (λ local. view_local local ≡ (Class code.now.class, spec.Own)) }
{
    let class = code.class.copy(alloc)?;
    Ok(Local {
        kind: JType::Class(class),
        atom: Atom::Own,
    })
}
