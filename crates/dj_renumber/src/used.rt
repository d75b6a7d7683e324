//! The numbers that a text uses so far.

ghost use Rattle.std.specs.Prelude.{◌≡◌, IfOk};
ghost use Rattle.dj_numbered.specs.Numbering as spec;
ghost use Rattle.dj_renumber.specs.Views.{view_used};

use dj_syntax::{Var, VarKind};
use indexmap::IndexSet;
use std::alloc::{AllocError, Global};

/// The numbers of variables of each kind, and of labels, each once, in the order in which the text uses them first.
#[derive(Drop)]
pub struct Used {
    pub locals: IndexSet<u32>,
    pub caught: IndexSet<u32>,
    pub states: IndexSet<u32>,
    pub labels: IndexSet<u32>,
}

/// Nothing is used yet.
pub fn nothing_used(alloc: Global) -> Used
    ensures nothing { view_used result ≡ spec.nothing_used }
{
    Used {
        locals: IndexSet::new(alloc),
        caught: IndexSet::new(alloc),
        states: IndexSet::new(alloc),
        labels: IndexSet::new(alloc),
    }
}

/// A number is used.
fn add(numbers: &mut IndexSet<u32>, number: u32) -> Result<(), AllocError>
    ensures listed { IfOk result (λ _. numbers.new.keys ≡ spec.listed number numbers.old.keys) }
{
    numbers.insert(number)?;
    Ok(())
}

/// A variable is used.
pub fn use_variable(used: &mut Used, variable: Var) -> Result<(), AllocError>
    ensures used { IfOk result (λ _. view_used used.new ≡ spec.variable_used variable (view_used used.old)) }
{
    match variable.kind {
        VarKind::Param => Ok(()),
        VarKind::Local => add(&mut used.locals, variable.number),
        VarKind::Caught => add(&mut used.caught, variable.number),
        VarKind::State => add(&mut used.states, variable.number),
    }
}

/// A label is used.
pub fn use_label(used: &mut Used, label: u32) -> Result<(), AllocError>
    ensures used { IfOk result (λ _. view_used used.new ≡ spec.label_used label (view_used used.old)) }
{
    add(&mut used.labels, label)
}
