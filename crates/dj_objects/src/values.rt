//! The values of variables (JLS 4.12, 16).

ghost use Rattle.std.specs.Prelude.{◌≡◌, Some, None, OnOk, if◌then◌else◌};
ghost use Rattle.std.specs.Option.{option_map, option_copied};
ghost use Rattle.dj_syntax.specs.declared.variable.Var.{Var};
ghost use Rattle.dj_values.specs.Views.{view_value};
ghost use Rattle.dj_meaning.specs.StaticTypes.{is_same_variable};
ghost use Rattle.dj_objects.specs.Runs.{values_of};

use dj_syntax::{Var, VarKind};
use dj_values::Value;
use std::alloc::{AllocError, Global};
use std::collections::BTreeMap;

/// The value of each variable that has one: of each kind by their numbers.
#[derive(Drop)]
pub struct Values {
    parameters: BTreeMap<u32, Value>,
    locals: BTreeMap<u32, Value>,
    caught: BTreeMap<u32, Value>,
    states: BTreeMap<u32, Value>,
}

impl Values {
    /// No value.
    pub fn new(alloc: Global) -> Values
        ensures empty { (variable : Var) → values_of result variable ≡ None }
    {
        Values {
            parameters: BTreeMap::new(alloc),
            locals: BTreeMap::new(alloc),
            caught: BTreeMap::new(alloc),
            states: BTreeMap::new(alloc),
        }
    }

    /// The value of a variable, if it has one.
    pub fn get(&self, variable: Var) -> Option<&Value>
        ensures value { option_map view_value (option_copied result) ≡ values_of self.now variable }
    {
        match variable.kind {
            VarKind::Param => self.parameters.get(&variable.number),
            VarKind::Local => self.locals.get(&variable.number),
            VarKind::Caught => self.caught.get(&variable.number),
            VarKind::State => self.states.get(&variable.number),
        }
    }

    /// A variable has this value from now on.
    pub fn put(&mut self, variable: Var, value: Value) -> Result<(), AllocError>
        ensures ok { OnOk result ((other : Var) → values_of self.new other ≡ (if is_same_variable other variable then Some (view_value value) else values_of self.old other)) }
    {
        match variable.kind {
            VarKind::Param => self.parameters.insert(variable.number, value)?,
            VarKind::Local => self.locals.insert(variable.number, value)?,
            VarKind::Caught => self.caught.insert(variable.number, value)?,
            VarKind::State => self.states.insert(variable.number, value)?,
        };
        Ok(())
    }

    /// A variable has no value from now on.
    pub fn forget(&mut self, variable: Var)
        ensures forgotten { (other : Var) → values_of self.new other ≡ (if is_same_variable other variable then None else values_of self.old other) }
    {
        match variable.kind {
            VarKind::Param => self.parameters.remove(&variable.number),
            VarKind::Local => self.locals.remove(&variable.number),
            VarKind::Caught => self.caught.remove(&variable.number),
            VarKind::State => self.states.remove(&variable.number),
        };
    }
}
