//! What the slots of locals are in the midst of a block.

ghost use Rattle.std.specs.Prelude.{◌≡◌, ℕ, ◌==◌, ◌&&◌, None, Some, IfOk, OnOk, option_map};
ghost use Rattle.std.specs.Option.{option_copied};
ghost use Rattle.dj_code.specs.MethodCode.{view_code};
ghost use Rattle.dj_code_variables.specs.Views.{IsReady, view_vars};
ghost use Rattle.dj_rebuilding.specs.Pending.{and_then};
ghost use Rattle.dj_rebuilt.specs.Rebuilding.{renamed};
ghost use Rattle.dj_one_block.specs.OneBlock.{variable_of};
ghost use Rattle.dj_pending.specs.Steps.{view_local};
ghost use Rattle.dj_rebuild.specs.Targets.{as_name};
ghost use Rattle.dj_rebuild.specs.Slots.{local_at, name_at, name_by, names_of};

use crate::targets::{named, own, target_of};
use dj_code::Code;
use dj_code_variables::Vars;
use dj_moves::keeps_this;
use dj_pending::Local;
use std::alloc::{AllocError, Global};
use std::collections::BTreeMap;

/// What slots are.
#[derive(Drop)]
pub struct Names {
    slots: BTreeMap<u16, Local>,
}

impl Names {
    /// Nothing is known of any slot.
    fn new(alloc: Global) -> Names
        ensures empty { (slot : ℕ) → names_of result slot ≡ None }
    {
        Names {
            slots: BTreeMap::new(alloc),
        }
    }

    /// What a slot is.
    pub fn get(&self, slot: u16) -> Option<&Local>
        ensures found { option_map view_local (option_copied result) ≡ names_of self.now slot }
    {
        self.slots.get(&slot)
    }

    /// A slot is this from now on.
    pub fn put(&mut self, slot: u16, local: Local) -> Result<(), AllocError>
        ensures put { OnOk result ((other : ℕ) → names_of self.new other ≡ renamed slot (view_local local) (names_of self.old) other) }
    {
        self.slots.insert(slot, local)?;
        Ok(())
    }

    /// A slot is this from now on, if there is anything.
    fn put_first(&mut self, slot: u16, found: Option<Local>) -> Result<(), AllocError>
        ensures put { OnOk result ((other : ℕ) → names_of self.new other ≡ name_by slot (option_map view_local found) (names_of self.old) other) }
    {
        match found {
            Some(local) => self.put(slot, local),
            None => Ok(()),
        }
    }
}

/// Whether a slot is `this` throughout.
fn is_own(keeps: bool, slot: u16) -> bool
    ensures own { result ≡ (keeps && slot == 0) }
{
    keeps && slot == 0
}

/// The variable that a slot is as the code begins.
fn variable(alloc: Global, vars: &Vars, slot: u16) -> Result<Option<Local>, AllocError>
    requires ready { IsReady vars.now }
    ensures variable { IfOk result (λ found. option_map view_local found ≡ and_then (variable_of (view_vars vars.now).kinds ((view_vars vars.now).of 0 slot)) (λ one. Some (as_name one))) }
{
    let found = target_of(alloc, vars, vars.of(0, u32::from(slot)))?;
    Ok(named(found))
}

/// What a slot is as the code begins.
fn first(
    alloc: Global,
    code: &Code,
    vars: &Vars,
    keeps: bool,
    slot: u16,
) -> Result<Option<Local>, AllocError>
    requires ready { IsReady vars.now }
    ensures first { IfOk result (λ found. option_map view_local found ≡ local_at keeps (view_code code.now) (view_vars vars.now) slot) }
{
    if is_own(keeps, slot) {
        let local = own(alloc, code)?;
        return Ok(Some(local));
    }
    variable(alloc, vars, slot)
}

/// What slots are as the code begins.
pub fn first_names(alloc: Global, code: &Code, vars: &Vars) -> Result<Names, AllocError>
    requires ready { IsReady vars.now }
    ensures first { IfOk result (λ names. (slot : ℕ) → names_of names slot ≡ name_at (view_code code.now) (view_vars vars.now) slot) }
{
    let keeps = keeps_this(code);
    let mut names = Names::new(alloc);
    for slot in 0..code.max_locals {
        let found = first(alloc, code, vars, keeps, slot)?;
        names.put_first(slot, found)?;
    }
    Ok(names)
}
