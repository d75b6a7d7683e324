//! What is thrown, and what catch variables hold of it.

ghost use Rattle.std.specs.Prelude.{◌≡◌, ◌++◌, ◌==◌, IfOk};
ghost use Rattle.std.specs.Option.{option_copied};
ghost use Rattle.dj_syntax.specs.NameText.{letter};
ghost use Rattle.dj_values.specs.Deciding.{is_subclass as is_below};
ghost use Rattle.dj_meaning.specs.StaticTypes.{is_same_variable};
ghost use Rattle.dj_thrown.specs.Throws as spec;

use dj_headers::Headers;
use dj_names::{ClassName, Items};
use dj_syntax::{Var, VarKind};
use std::alloc::{AllocError, Global};

/// A class that can be thrown, and the place of what throws it, at most 4,294,967,295.
#[derive(Drop)]
pub struct Throwing {
    pub place: u32,
    pub class: ClassName,
}

/// A catch variable, and the classes of what it holds where nothing assigns it.
#[derive(Drop)]
pub struct Held {
    pub variable: Var,
    pub classes: Option<Items<ClassName>>,
}

/// Whether kinds of variables are spelled alike.
fn is_same_kind(first: VarKind, second: VarKind) -> bool
    ensures same { result ≡ (letter first == letter second) }
{
    match (first, second) {
        (VarKind::Param, VarKind::Param)
        | (VarKind::Local, VarKind::Local)
        | (VarKind::Caught, VarKind::Caught)
        | (VarKind::State, VarKind::State) => true,
        (VarKind::Param, VarKind::Local | VarKind::Caught | VarKind::State)
        | (VarKind::Local, VarKind::Param | VarKind::Caught | VarKind::State)
        | (VarKind::Caught, VarKind::Param | VarKind::Local | VarKind::State)
        | (VarKind::State, VarKind::Param | VarKind::Local | VarKind::Caught) => false,
    }
}

/// Whether variables are spelled alike.
pub fn is_same_variable(first: Var, second: Var) -> bool
    ensures same { result ≡ is_same_variable first second }
{
    is_same_kind(first.kind, second.kind) && first.number == second.number
}

/// Whether a class is another or below it.
pub fn is_below(headers: &Headers, lower: &ClassName, upper: &ClassName) -> bool
    ensures below { result ≡ is_below headers.now lower.now upper.now }
{
    headers.is_subclass(lower, upper)
}

/// What the innermost clause of a variable holds.
pub fn held_in(held: &[Held], variable: Var) -> Option<&Held>
    ensures held { option_copied result ≡ spec.held_in held.now variable }
{
    let mut found = None;
    for one in held {
        if is_same_variable(one.variable, variable) {
            found = Some(one);
        }
    }
    found
}

/// Adds classes that are thrown at a place.
pub fn add_thrown(
    alloc: Global,
    place: u32,
    classes: &[ClassName],
    thrown: &mut Items<Throwing>,
) -> Result<(), AllocError>
    ensures added { IfOk result (λ _. thrown.new ≡ thrown.old ++ spec.thrown_at place classes.now) }
{
    for class in classes {
        let class = class.copy(alloc)?;
        thrown.push(Throwing { place, class })?;
    }
    Ok(())
}

/// The classes of what a clause of a class takes.
pub fn classes_taken(
    alloc: Global,
    headers: &Headers,
    class: &ClassName,
    thrown: &[Throwing],
) -> Result<Items<ClassName>, AllocError>
    ensures taken { IfOk result (λ taken. taken ≡ spec.classes_of (spec.taken headers.now class.now thrown.now)) }
{
    let mut taken = Items::new(alloc);
    for one in thrown {
        if is_below(headers, &one.class, class) {
            taken.push(one.class.copy(alloc)?)?;
        }
    }
    Ok(taken)
}

/// What a clause of a class leaves.
pub fn left(
    alloc: Global,
    headers: &Headers,
    class: &ClassName,
    thrown: &[Throwing],
) -> Result<Items<Throwing>, AllocError>
    ensures left { IfOk result (λ left. left ≡ spec.left headers.now class.now thrown.now) }
{
    let mut left = Items::new(alloc);
    for one in thrown {
        if !is_below(headers, &one.class, class) {
            let class = one.class.copy(alloc)?;
            left.push(Throwing {
                place: one.place,
                class,
            })?;
        }
    }
    Ok(left)
}
