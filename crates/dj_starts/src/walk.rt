//! The walk over code that finds the births that can be written.

ghost use Rattle.std.specs.Prelude.{◌≡◌, ◌<◌, ◌↔◌, ◌⊎◌, ℕ, false, IsTrue, OnOk};
ghost use Rattle.std.specs.List.{AllPairs, Contains};
ghost use Rattle.dj_starts.specs.Walking as spec;
ghost use Rattle.dj_starts.specs.Walking.{IsCut, IsLastFrom, Begins, IsEnd, IsOver, IsStep};

use crate::marks::mark;
use crate::roles::Role;
use dj_names::Items;
use std::alloc::AllocError;

/// The pcs of the `new` whose births go on, in rising order; those whose births can be written; and
/// the role of the instruction before.
#[derive(Drop)]
pub struct Walk {
    pub unborn: Items<u32>,
    pub written: Items<bool>,
    pub before: Role,
}

/// Whether the last number is one from `low` on.
fn is_last_from(numbers: &[u32], low: u32) -> bool
    ensures exact { IsTrue result ↔ IsLastFrom numbers.now low }
{
    match numbers.last() {
        Some(last) => *last >= low,
        None => false,
    }
}

/// Takes away the numbers from one on; whether that was among them.
fn drop_from(low: u32, numbers: &mut Items<u32>) -> bool
    requires rising { AllPairs (λ x y. x < y) numbers.old }
    ensures rising { AllPairs (λ x y. x < y) numbers.new }
    ensures cut { IsCut numbers.old numbers.new low }
    ensures found { IsTrue result ↔ Contains numbers.old low }
{
    let mut found = false;
    while is_last_from(numbers.as_slice(), low) {
        if let Some(last) = numbers.pop() {
            if last == low {
                found = true;
            }
        }
    }
    found
}

/// From which `new` on births can't go on behind an instruction, None where all can.
pub fn barred_from(before: Role, here: Role, behind: Role, ended: Option<u32>) -> Option<u32>
    ensures barred { result ≡ spec.barred_from before here behind ended }
{
    match here {
        Role::Plain => None,
        Role::Never => Some(0),
        Role::New => match behind {
            Role::Dup => None,
            Role::Plain | Role::Never | Role::New | Role::Silent => Some(0),
        },
        Role::Dup => match before {
            Role::New => None,
            Role::Plain | Role::Never | Role::Dup | Role::Silent => Some(0),
        },
        Role::Silent => match ended {
            Some(start) => Some(start),
            None => Some(0),
        },
    }
}

/// Whether a birth ends with an instruction of this role.
fn is_end(here: Role, ended: Option<u32>) -> bool
    ensures end { IsTrue result ↔ IsEnd here ended }
{
    match here {
        Role::Silent => ended.is_some(),
        Role::Plain | Role::Never | Role::New | Role::Dup => false,
    }
}

/// Walks over an instruction that isn't fenced, but for the births that begin with it.
fn walk_over(here: Role, behind: Role, ended: Option<u32>, walk: &mut Walk)
    requires rising { AllPairs (λ x y. x < y) walk.old.unborn }
    ensures over { IsOver here behind ended walk.old walk.new }
{
    if let Some(low) = barred_from(walk.before, here, behind, ended) {
        if drop_from(low, &mut walk.unborn) && is_end(here, ended) {
            mark(low, &mut walk.written);
        }
    }
}

/// No birth goes on over a fence.
fn stop_fenced(fenced: bool, unborn: &mut Items<u32>)
    requires rising { AllPairs (λ x y. x < y) unborn.old }
    ensures rising { AllPairs (λ x y. x < y) unborn.new }
    ensures left { (start : ℕ) → Contains unborn.new start ↔ (Contains unborn.old start × (fenced ≡ false)) }
{
    if fenced {
        drop_from(0, unborn);
    }
}

/// A birth begins with a `new`.
fn push_new(here: Role, pc: u32, unborn: &mut Items<u32>) -> Result<(), AllocError>
    requires rising { AllPairs (λ x y. x < y) unborn.old }
    requires below { (start : ℕ) → Contains unborn.old start → start < pc }
    ensures rising { OnOk result (AllPairs (λ x y. x < y) unborn.new) }
    ensures begun { OnOk result ((start : ℕ) → Contains unborn.new start ↔ (Contains unborn.old start ⊎ Begins here pc start)) }
{
    match here {
        Role::New => unborn.push(pc)?,
        Role::Plain | Role::Never | Role::Dup | Role::Silent => {}
    }
    Ok(())
}

/// Walks over the instruction at a pc.
pub fn step(
    fenced: bool,
    pc: u32,
    here: Role,
    behind: Role,
    ended: Option<u32>,
    walk: &mut Walk,
) -> Result<(), AllocError>
    requires rising { AllPairs (λ x y. x < y) walk.old.unborn }
    requires below { (start : ℕ) → Contains walk.old.unborn start → start < pc }
    ensures step { OnOk result (IsStep fenced pc here behind ended walk.old walk.new) }
{
    stop_fenced(fenced, &mut walk.unborn);
    walk_over(here, behind, ended, walk);
    walk.before = here;
    push_new(here, pc, &mut walk.unborn)?;
    Ok(())
}
