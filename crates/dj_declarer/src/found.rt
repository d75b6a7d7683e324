//! The variables that are found in a tree so far.

ghost use Rattle.std.specs.Prelude.{◌≡◌, map, slice_get, IfOk};
ghost use Rattle.dj_names.specs.Types.{view_type};
ghost use Rattle.dj_syntax.specs.NameText.{letter as letter_in_text};
ghost use Rattle.dj_meaning.specs.StaticTypes.{is_same_variable};
ghost use Rattle.dj_declaring.specs.Occurring as spec;

use dj_declaring::Found;
use dj_names::{Items, JType};
use dj_syntax::{Var, VarKind};
use std::alloc::{AllocError, Global};

/// The letter of a kind of variable.
fn letter(kind: VarKind) -> u8
    ensures letter { result ≡ letter_in_text kind }
{
    match kind {
        VarKind::Param => b'p',
        VarKind::Local => b'v',
        VarKind::Caught => b'e',
        VarKind::State => b's',
    }
}

/// Whether two variables are spelled alike.
fn is_same(first: Var, second: Var) -> bool
    ensures same { result ≡ is_same_variable first second }
{
    letter(first.kind) == letter(second.kind) && first.number == second.number
}

/// Whether a variable is one of these.
fn is_among(variable: Var, list: &[Var]) -> bool
    ensures among { result ≡ spec.is_among variable list.now }
{
    for one in list {
        if is_same(*one, variable) {
            return true;
        }
    }
    false
}

/// Nothing yet of the variables that have these kinds.
pub fn nothing_found(alloc: Global, kinds: &[JType]) -> Result<Found, AllocError>
    ensures nothing { IfOk result (λ found. found ≡ spec.nothing_found (map view_type kinds.now)) }
{
    let mut seen = Items::new(alloc);
    for _kind in kinds {
        seen.push(false)?;
    }
    Ok(Found {
        seen,
        locals: Items::new(alloc),
        states: Items::new(alloc),
    })
}

/// Notes a variable that may have a kind.
fn note_local(found: &mut Found, variable: Var) -> Result<(), AllocError>
    ensures noted { IfOk result (λ _. found.new ≡ spec.noted_local variable (slice_get found.old.seen variable.number) found.old) }
{
    let at = variable.number as usize;
    match found.seen.get(at) {
        None | Some(true) => Ok(()),
        Some(false) => {
            found.seen.set(at, true);
            found.locals.push(variable)
        }
    }
}

/// Notes a variable that holds a state.
fn note_state(found: &mut Found, variable: Var) -> Result<(), AllocError>
    ensures noted { IfOk result (λ _. found.new ≡ spec.noted_state variable found.old) }
{
    if is_among(variable, found.states.as_slice()) {
        return Ok(());
    }
    found.states.push(variable)
}

/// Notes a variable.
pub fn note(found: &mut Found, variable: Var) -> Result<(), AllocError>
    ensures noted { IfOk result (λ _. found.new ≡ spec.noted variable found.old) }
{
    match variable.kind {
        VarKind::Param | VarKind::Caught => Ok(()),
        VarKind::Local => note_local(found, variable),
        VarKind::State => note_state(found, variable),
    }
}
