//! The variables that are in scope, each with its type (JLS 6.3).

ghost use Rattle.std.specs.Prelude.{◌≡◌, None, OnOk};
ghost use Rattle.std.specs.Option.{option_map, option_copied};
ghost use Rattle.dj_names.specs.Types.{view_type};
ghost use Rattle.dj_syntax.specs.declared.variable.Var.{Var};
ghost use Rattle.dj_meaning.specs.StaticTypes.{with_type};
ghost use Rattle.dj_static.specs.Scopes.{scope_of, without};

use dj_names::JType;
use dj_syntax::{Var, VarKind};
use std::alloc::{AllocError, Global};
use std::collections::BTreeMap;

/// The variables in scope: of each kind the types by their numbers.
#[derive(Drop)]
pub struct Scope {
    parameters: BTreeMap<u32, JType>,
    locals: BTreeMap<u32, JType>,
    caught: BTreeMap<u32, JType>,
    states: BTreeMap<u32, JType>,
}

impl Scope {
    /// No variable.
    pub fn new(alloc: Global) -> Scope
        ensures empty { (variable : Var) → scope_of result variable ≡ None }
    {
        Scope {
            parameters: BTreeMap::new(alloc),
            locals: BTreeMap::new(alloc),
            caught: BTreeMap::new(alloc),
            states: BTreeMap::new(alloc),
        }
    }

    /// The type of a variable.
    pub fn kind(&self, variable: Var) -> Option<&JType>
        ensures kind { option_map view_type (option_copied result) ≡ scope_of self.now variable }
    {
        match variable.kind {
            VarKind::Param => self.parameters.get(&variable.number),
            VarKind::Local => self.locals.get(&variable.number),
            VarKind::Caught => self.caught.get(&variable.number),
            VarKind::State => self.states.get(&variable.number),
        }
    }

    /// A variable has a type from now on.
    pub fn declare(&mut self, variable: Var, kind: JType) -> Result<(), AllocError>
        ensures ok { OnOk result ((other : Var) → scope_of self.new other ≡ with_type variable (view_type kind) (scope_of self.old) other) }
    {
        match variable.kind {
            VarKind::Param => self.parameters.insert(variable.number, kind)?,
            VarKind::Local => self.locals.insert(variable.number, kind)?,
            VarKind::Caught => self.caught.insert(variable.number, kind)?,
            VarKind::State => self.states.insert(variable.number, kind)?,
        };
        Ok(())
    }

    /// A variable has no type from now on.
    pub fn forget(&mut self, variable: Var)
        ensures forgotten { (other : Var) → scope_of self.new other ≡ without variable (scope_of self.old) other }
    {
        match variable.kind {
            VarKind::Param => self.parameters.remove(&variable.number),
            VarKind::Local => self.locals.remove(&variable.number),
            VarKind::Caught => self.caught.remove(&variable.number),
            VarKind::State => self.states.remove(&variable.number),
        };
    }
}
