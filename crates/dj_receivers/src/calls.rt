//! Which calls are on `this`.

ghost use Rattle.std.specs.Prelude.{◌≡◌, ◌↔◌, ◌<◌, ℕ, None, length, IfOk, OnOk, IsTrue};
ghost use Rattle.dj_instructions.specs.Instructions.{IsRising, view_instructions};
ghost use Rattle.dj_code.specs.MethodCode.{view_code, view_typed};
ghost use Rattle.dj_starts.specs.Marks.{IsMarked};
ghost use Rattle.dj_receivers.specs.Receivers.{KeepsThis};
ghost use Rattle.dj_receivers.specs.Marked.{AreOnThis};
ghost use Rattle.dj_receivers.specs.Steps.{AreJoins};
ghost use Rattle.dj_receivers.specs.Walks.{kept, IsSound, IsClosed, Closes, Begins};

use crate::joins::{joins, keeps_this};
use crate::marking::Marking;
use crate::walking::run;
use dj_code::Typed;
use dj_names::Items;
use dj_starts::{is_marked, no_marks};
use std::alloc::{AllocError, Global};

/// Marks of so many pcs.
fn all_marks(alloc: Global, count: usize) -> Result<Items<bool>, AllocError>
    ensures size { IfOk result (λ marks. length marks ≡ count) }
    ensures all { IfOk result (λ marks. (pc : ℕ) → pc < count → IsMarked marks pc) }
{
    let mut marks = Items::new(alloc);
    for _ in 0..count {
        marks.push(true)?;
    }
    Ok(marks)
}

/// No marks that are kept, for so many pcs.
fn none_kept(alloc: Global, count: usize) -> Result<Items<Option<Items<bool>>>, AllocError>
    ensures size { IfOk result (λ table. length table ≡ count) }
    ensures none { IfOk result (λ table. (pc : ℕ) → kept table pc ≡ None) }
{
    let mut table = Items::new(alloc);
    for _ in 0..count {
        table.push(None)?;
    }
    Ok(table)
}

/// That control begins at 0, where there is room for it.
fn begin(alloc: Global, marking: &mut Marking) -> Result<(), AllocError>
    requires none { (pc : ℕ) → kept marking.old.table pc ≡ None }
    requires size { length marking.old.calls ≡ length marking.old.table }
    requires all { (pc : ℕ) → pc < length marking.old.table → IsMarked marking.old.calls pc }
    ensures begins { OnOk result (Begins (length marking.old.table) marking.new) }
{
    if !marking.table.is_empty() {
        marking.table.set(0, Some(Items::new(alloc)));
        marking.waiting.push(0)?;
    }
    Ok(())
}

/// What is known at first, with room for so many pcs.
fn begun(alloc: Global, count: usize) -> Result<Marking, AllocError>
    ensures begins { IfOk result (Begins count) }
{
    let mut marking = Marking {
        table: none_kept(alloc, count)?,
        waiting: Items::new(alloc),
        calls: all_marks(alloc, count)?,
        now: Items::new(alloc),
    };
    begin(alloc, &mut marking)?;
    Ok(marking)
}

/// Looks at all that is waited for.
fn finish(
    alloc: Global,
    typed: &Typed,
    joins: &[bool],
    marking: &mut Marking,
) -> Result<(), AllocError>
    requires rising { IsRising (view_instructions typed.now.code.instructions) }
    requires joins { AreJoins (view_code typed.now.code) joins.now }
    requires sound { IsSound (view_typed typed.now) marking.old }
    requires closed { IsClosed (view_typed typed.now) joins.now marking.old }
    ensures closes { OnOk result (Closes (view_typed typed.now) joins.now marking.old marking.new) }
{
    while let Some(pc) = marking.waiting.pop() {
        run(alloc, typed, joins, pc, marking)?;
    }
    Ok(())
}

/// Which calls are on `this` in a method that keeps it.
fn calls_kept(alloc: Global, typed: &Typed) -> Result<Items<bool>, AllocError>
    requires rising { IsRising (view_instructions typed.now.code.instructions) }
    requires keeps { KeepsThis (view_code typed.now.code) }
    ensures calls { IfOk result (AreOnThis (view_typed typed.now)) }
{
    let joins = joins(alloc, &typed.code)?;
    let mut marking = begun(alloc, joins.len())?;
    finish(alloc, typed, joins.as_slice(), &mut marking)?;
    let Marking { calls, .. } = marking;
    Ok(calls)
}

/// Which `invokespecial`s are calls on `this`, one mark by pc.
pub fn calls_on_this(alloc: Global, typed: &Typed) -> Result<Items<bool>, AllocError>
    requires rising { IsRising (view_instructions typed.now.code.instructions) }
    ensures calls { IfOk result (AreOnThis (view_typed typed.now)) }
{
    if keeps_this(&typed.code) {
        calls_kept(alloc, typed)
    } else {
        no_marks(alloc, typed.code.instructions.as_slice())
    }
}

/// Whether the call at a pc is on `this`.
pub fn is_on_this(calls: &[bool], pc: u32) -> bool
    ensures marked { IsTrue result ↔ IsMarked calls.now pc }
{
    is_marked(calls, pc)
}
