//! Lists of variables in a rising order, each once.

ghost use Rattle.std.specs.Prelude.{◌≡◌, ◌++◌, IfOk};
ghost use Rattle.dj_syntax.specs.NameText.{letter as letter_in_text};
ghost use Rattle.dj_meaning.specs.StaticTypes.{is_same_variable};
ghost use Rattle.dj_variables.specs.Lists as spec;

use dj_names::Items;
use dj_syntax::{Var, VarKind};
use std::alloc::{AllocError, Global};

/// The letter of a kind of variable.
fn letter(kind: VarKind) -> u8
    ensures letter { result ≡ letter_in_text kind }
{
    match kind {
        VarKind::Param => b'p',
        VarKind::Local => b'v',
        VarKind::Caught => b'e',
        VarKind::State => b's',
    }
}

/// Whether two variables are spelled alike.
fn is_same(first: Var, second: Var) -> bool
    ensures same { result ≡ is_same_variable first second }
{
    letter(first.kind) == letter(second.kind) && first.number == second.number
}

/// Whether a variable stands before another.
fn is_lower(first: Var, second: Var) -> bool
    ensures lower { result ≡ spec.is_lower first second }
{
    first.number < second.number
        || (first.number == second.number && letter(first.kind) < letter(second.kind))
}

/// Whether a variable is among these.
pub fn is_among(variable: Var, list: &[Var]) -> bool
    ensures among { result ≡ spec.is_among variable list.now }
{
    for one in list {
        if is_same(variable, *one) {
            return true;
        }
    }
    false
}

/// The list without a variable.
pub fn removed(alloc: Global, variable: Var, list: &[Var]) -> Result<Items<Var>, AllocError>
    ensures removed { IfOk result (λ kept. kept ≡ spec.removed variable list.now) }
{
    let mut kept = Items::new(alloc);
    for one in list {
        if !is_same(*one, variable) {
            kept.push(*one)?;
        }
    }
    Ok(kept)
}

/// Adds the variables below one, and gives the list behind it.
fn add_below<'a>(at: Var, list: &'a [Var], found: &mut Items<Var>) -> Result<&'a [Var], AllocError>
    ensures parts { IfOk result (λ rest. (found.new ≡ found.old ++ spec.lower_part at list.now) × (rest.now ≡ spec.upper_part at list.now)) }
{
    let mut below = 0;
    for one in list {
        if !is_lower(*one, at) {
            if is_same(*one, at) {
                return Ok(&list[below + 1..]);
            }
            return Ok(&list[below..]);
        }
        found.push(*one)?;
        below += 1;
    }
    Ok(&list[below..])
}

/// The variables of either list.
pub fn union(alloc: Global, first: &[Var], second: &[Var]) -> Result<Items<Var>, AllocError>
    ensures union { IfOk result (λ both. both ≡ spec.union first.now second.now) }
{
    let mut found = Items::new(alloc);
    let mut rest = first;
    for one in second {
        rest = add_below(*one, rest, &mut found)?;
        found.push(*one)?;
    }
    found.append(Items::from_slice(alloc, rest)?)?;
    Ok(found)
}

/// The list from the first variable on that isn't below this one.
fn from_there(at: Var, list: &[Var]) -> &[Var]
    ensures rest { result.now ≡ spec.from_there at list.now }
{
    let mut below = 0;
    for one in list {
        if !is_lower(*one, at) {
            return &list[below..];
        }
        below += 1;
    }
    &list[below..]
}

/// Whether a list begins with this variable.
fn begins_with(at: Var, list: &[Var]) -> bool
    ensures begins { result ≡ spec.begins_with at list.now }
{
    match list.first() {
        None => false,
        Some(first) => is_same(*first, at),
    }
}

/// The variables of both lists.
pub fn common(alloc: Global, first: &[Var], second: &[Var]) -> Result<Items<Var>, AllocError>
    ensures common { IfOk result (λ both. both ≡ spec.common first.now second.now) }
{
    let mut found = Items::new(alloc);
    let mut rest = first;
    for one in second {
        rest = from_there(*one, rest);
        if begins_with(*one, rest) {
            found.push(*one)?;
        }
    }
    Ok(found)
}
