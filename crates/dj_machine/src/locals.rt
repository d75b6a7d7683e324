//! The locals of a method (JVMS 2.6.1).

ghost use Rattle.std.specs.Prelude.{◌≡◌, ◌-◌, ◌∷◌, ◌++◌, [], Some, None, IfOk, OnOk, length, replicate, option_map, slice_index_or, slice_set, if◌then◌else◌};
ghost use Rattle.std.specs.Option.{option_copied};
ghost use Rattle.dj_values.specs.Views.{view_value, view_values};
ghost use Rattle.dj_values.specs.Outcomes.{Gives, Halts, Stuck};
ghost use Rattle.dj_bytecode.specs.Operands.{of_kind};
ghost use Rattle.dj_bytecode.specs.Machine.{slots_of, first_locals};
ghost use Rattle.dj_machine.specs.Runs.{view_slots, located};

use dj_code::Kind;
use dj_names::Items;
use dj_values::Value;
use std::alloc::{AllocError, Global};

/// Locals by their slots.
#[derive(Drop)]
pub struct Locals {
    slots: Items<Option<Value>>,
}

impl Locals {
    /// The locals as a method with so many begins: its arguments, a long in two slots.
    pub fn new(alloc: Global, most: u16, arguments: &[Value]) -> Result<Locals, AllocError>
        ensures first { IfOk result (λ locals. located locals ≡ first_locals most (view_values arguments.now)) }
    {
        let mut slots = Items::new(alloc);
        push_arguments(alloc, arguments, &mut slots)?;
        fill(usize::from(most), &mut slots)?;
        Ok(Locals { slots })
    }

    /// The value in a slot, if any.
    pub fn get(&self, slot: u16) -> Option<&Value>
        ensures value { option_map view_value (option_copied result) ≡ slice_index_or (located self.now) slot None }
    {
        match self.slots.get(usize::from(slot)) {
            Some(Some(value)) => Some(value),
            Some(None) => None,
            None => None,
        }
    }

    /// Sets a slot, where there is one.
    pub fn set(&mut self, slot: u16, value: Value)
        ensures set { located self.new ≡ slice_set (located self.old) slot (Some (view_value value)) }
    {
        if usize::from(slot) < self.slots.len() {
            self.slots.set(usize::from(slot), Some(value));
        }
    }
}

/// Puts the slots of an argument behind others.
fn push_argument(
    alloc: Global,
    argument: &Value,
    slots: &mut Items<Option<Value>>,
) -> Result<(), AllocError>
    ensures pushed { OnOk result (view_slots slots.new ≡ view_slots slots.old ++ slots_of (view_value argument.now ∷ [])) }
{
    match argument {
        Value::Int(number) => {
            slots.push(Some(Value::Int(*number)))?;
            Ok(())
        }
        Value::Long(number) => {
            slots.push(Some(Value::Long(*number)))?;
            slots.push(None)?;
            Ok(())
        }
        Value::Null => {
            slots.push(Some(Value::Null))?;
            Ok(())
        }
        Value::Ref(reference) => {
            slots.push(Some(Value::Ref(reference.copy(alloc)?)))?;
            Ok(())
        }
    }
}

/// Puts the slots of arguments behind others.
fn push_arguments(
    alloc: Global,
    arguments: &[Value],
    slots: &mut Items<Option<Value>>,
) -> Result<(), AllocError>
    ensures pushed { OnOk result (view_slots slots.new ≡ view_slots slots.old ++ slots_of (view_values arguments.now)) }
{
    for argument in arguments {
        push_argument(alloc, argument, slots)?;
    }
    Ok(())
}

/// Puts empty slots behind others, until there are so many.
fn fill(most: usize, slots: &mut Items<Option<Value>>) -> Result<(), AllocError>
    ensures filled { OnOk result (view_slots slots.new ≡ view_slots slots.old ++ replicate (most - length slots.old) None) }
{
    while slots.len() < most {
        slots.push(None)?;
    }
    Ok(())
}

/// Whether a value is of a kind; none is a float or double.
pub fn is_of_kind(kind: Kind, value: &Value) -> bool
    ensures kind { of_kind kind (view_value value.now) ≡ (if result then Gives (view_value value.now) else Halts Stuck) }
{
    match kind {
        Kind::Int => matches!(value, Value::Int(_)),
        Kind::Long => matches!(value, Value::Long(_)),
        Kind::Float | Kind::Double => false,
        Kind::Ref => matches!(value, Value::Null | Value::Ref(_)),
    }
}
