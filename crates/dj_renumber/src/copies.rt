//! Variables that hold parameters as a method begins, and the parameters.

ghost use Rattle.std.specs.Prelude.{◌≡◌, map, slice_get, IfOk};
ghost use Rattle.std.specs.Option.{option_copied};
ghost use Rattle.dj_names.specs.Types.{view_type};
ghost use Rattle.dj_values.specs.Deciding.{is_type};
ghost use Rattle.dj_declaring.specs.Entries.{is_it as is_it_of, place_in as place_in_of};
ghost use Rattle.dj_parameters.specs.Parameters as spec;

use dj_declaring::Entry;
use dj_names::{JType, same_type};
use dj_syntax::{Var, VarKind};
use std::alloc::AllocError;

/// The types of a method's parameters, the kinds of its variables, and those that hold parameters as it begins.
#[derive(Clone, Copy)]
pub struct Copies<'a> {
    pub parameters: &'a [JType],
    pub kinds: &'a [JType],
    pub entry: &'a Entry,
}

/// A place as the number of a variable; what is too large for one is refused as want of memory.
pub fn number_of(place: usize) -> Result<u32, AllocError>
    ensures number { IfOk result (λ number. number ≡ place) }
{
    match u32::try_from(place) {
        Ok(number) => Ok(number),
        Err(_) => Err(AllocError),
    }
}

/// Whether a variable, where there is one, is the one of this number.
fn is_it(one: Option<u32>, number: u32) -> bool
    ensures it { result ≡ is_it_of one number }
{
    match one {
        None => false,
        Some(one) => one == number,
    }
}

/// The first of these parameters that the variable of this number holds.
fn place_in(list: &[Option<u32>], number: u32) -> Option<usize>
    ensures place { result ≡ place_in_of list.now 0 number }
{
    for place in 0..list.len() {
        if is_it(list[place], number) {
            return Some(place);
        }
    }
    None
}

/// What stands at a place of types.
fn type_at(kinds: &[JType], at: usize) -> Option<&JType>
    ensures there { option_copied result ≡ slice_get kinds.now at }
{
    kinds.get(at)
}

/// The variable that holds the parameter of a number.
fn holder_at(list: &[Option<u32>], at: usize) -> Option<Option<u32>>
    ensures there { result ≡ slice_get list.now at }
{
    list.get(at).copied()
}

/// Whether two types are one.
fn is_same(first: &JType, second: &JType) -> bool
    ensures same { result ≡ is_type (view_type first.now) (view_type second.now) }
{
    same_type(first, second)
}

/// Whether two places of types hold one type.
fn is_one(first: &[JType], at: usize, second: &[JType], place: usize) -> bool
    ensures one { result ≡ spec.is_one (slice_get (map view_type first.now) at) (slice_get (map view_type second.now) place) }
{
    match type_at(first, at) {
        None => false,
        Some(kind) => match type_at(second, place) {
            None => false,
            Some(other) => is_same(kind, other),
        },
    }
}

/// The parameter that the variable of this number holds as the method begins, where they are of one type.
fn held_parameter(copies: &Copies<'_>, number: u32) -> Result<Option<u32>, AllocError>
    ensures held { IfOk result (λ held. held ≡ spec.held_parameter (map view_type copies.now.parameters.now) (map view_type copies.now.kinds.now) copies.now.entry.now number) }
{
    if is_it(copies.entry.itself, number) {
        return Ok(None);
    }
    match place_in(copies.entry.parameters.as_slice(), number) {
        None => Ok(None),
        Some(place) => {
            if is_one(copies.kinds, number as usize, copies.parameters, place) {
                let number = number_of(place)?;
                Ok(Some(number))
            } else {
                Ok(None)
            }
        }
    }
}

/// The variable that holds a parameter, where they exchange names, or the parameter itself.
fn holder(copies: &Copies<'_>, parameter: Var) -> Result<Var, AllocError>
    ensures holder { IfOk result (λ other. other ≡ spec.holder_or (map view_type copies.now.parameters.now) (map view_type copies.now.kinds.now) copies.now.entry.now parameter (slice_get copies.now.entry.now.parameters parameter.number)) }
{
    match holder_at(
        copies.entry.parameters.as_slice(),
        parameter.number as usize,
    ) {
        None | Some(None) => Ok(parameter),
        Some(Some(number)) => {
            let held = held_parameter(copies, number)?;
            if is_it(held, parameter.number) {
                Ok(Var {
                    kind: VarKind::Local,
                    number,
                })
            } else {
                Ok(parameter)
            }
        }
    }
}

/// The parameter that a variable holds, or the variable itself.
fn held_or_own(copies: &Copies<'_>, variable: Var) -> Result<Var, AllocError>
    ensures held { IfOk result (λ other. other ≡ spec.parameter_or variable (spec.held_parameter (map view_type copies.now.parameters.now) (map view_type copies.now.kinds.now) copies.now.entry.now variable.number)) }
{
    match held_parameter(copies, variable.number)? {
        None => Ok(variable),
        Some(number) => Ok(Var {
            kind: VarKind::Param,
            number,
        }),
    }
}

/// The other name of a variable.
pub fn with_copy(copies: &Copies<'_>, variable: Var) -> Result<Var, AllocError>
    ensures named { IfOk result (λ other. other ≡ spec.with_copy (map view_type copies.now.parameters.now) (map view_type copies.now.kinds.now) copies.now.entry.now variable) }
{
    match variable.kind {
        VarKind::Param => holder(copies, variable),
        VarKind::Local => held_or_own(copies, variable),
        VarKind::Caught | VarKind::State => Ok(variable),
    }
}
