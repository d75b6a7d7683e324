//! Other names of variables and of labels.

ghost use Rattle.std.specs.Prelude.{◌≡◌, ◌+◌, IfOk};
ghost use Rattle.dj_numbered.specs.Numbering as spec;
ghost use Rattle.dj_renumber.specs.Views.{names_of, view_used};

use crate::copies::{Copies, number_of, with_copy};
use crate::used::Used;
use dj_syntax::{Var, VarKind};
use indexmap::IndexSet;
use std::alloc::AllocError;

/// Other names: those that parameters and their copies exchange, or numbers in the order of a text.
#[derive(Clone, Copy)]
pub enum NewNames<'a> {
    Exchanged(Copies<'a>),
    Counted(&'a Used),
}

/// A number with as many more; what is too large is refused as want of memory.
fn behind(number: u32, count: u32) -> Result<u32, AllocError>
    ensures sum { IfOk result (λ sum. sum ≡ number + count) }
{
    match number.checked_add(count) {
        Some(sum) => Ok(sum),
        None => Err(AllocError),
    }
}

/// The new number of one.
fn place_of(numbers: &IndexSet<u32>, number: u32) -> Result<u32, AllocError>
    ensures place { IfOk result (λ place. place ≡ spec.place_of numbers.now.keys number) }
{
    match numbers.get_index_of(&number) {
        Some(place) => number_of(place),
        None => {
            let count = number_of(numbers.len())?;
            behind(number, count)
        }
    }
}

/// A variable of this kind, by its new number.
fn numbered(numbers: &IndexSet<u32>, variable: Var) -> Result<Var, AllocError>
    ensures named { IfOk result (λ other. (other.kind ≡ variable.kind) × (other.number ≡ spec.place_of numbers.now.keys variable.number)) }
{
    let number = place_of(numbers, variable.number)?;
    Ok(Var {
        kind: variable.kind,
        number,
    })
}

/// The new name of a variable, by the numbers of a text.
fn counted(used: &Used, variable: Var) -> Result<Var, AllocError>
    ensures named { IfOk result (λ other. other ≡ spec.variable_named (view_used used.now) variable) }
{
    match variable.kind {
        VarKind::Param => Ok(variable),
        VarKind::Local => numbered(&used.locals, variable),
        VarKind::Caught => numbered(&used.caught, variable),
        VarKind::State => numbered(&used.states, variable),
    }
}

/// The other name of a variable.
pub fn variable_named(names: &NewNames<'_>, variable: Var) -> Result<Var, AllocError>
    ensures named { IfOk result (λ other. other ≡ (names_of names.now).variable variable) }
{
    match names {
        NewNames::Exchanged(copies) => with_copy(copies, variable),
        NewNames::Counted(used) => counted(used, variable),
    }
}

/// The other name of a label.
pub fn label_named(names: &NewNames<'_>, label: u32) -> Result<u32, AllocError>
    ensures named { IfOk result (λ other. other ≡ (names_of names.now).label label) }
{
    match names {
        NewNames::Exchanged(_) => Ok(label),
        NewNames::Counted(used) => place_of(&used.labels, label),
    }
}
