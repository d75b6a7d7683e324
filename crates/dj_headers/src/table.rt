//! A table of which class stands above which: what a new header adds to it.

ghost use Rattle.std.specs.Prelude.{◌≡◌, ◌↔◌, ◌⊎◌, ℕ, List, [], ◌∷◌, ◌++◌, Option, Some, ◌<◌, ◌≤◌, Contains, IsTrue, IfOk, OnOk, length};
ghost use Rattle.dj_names.specs.declared.header.Header.{Header};
ghost use Rattle.dj_names.specs.Headers.{Implements};
ghost use Rattle.dj_headers.specs.Rows.{IsSet, row_at, Opens, IsOpened};
ghost use Rattle.dj_headers.specs.Table.{HasPlace, IsIndex, IsTable, IsParent, IsUp};

use crate::places::{Places, place, place_at};
use crate::rows::{is_above, is_set, join_row, merge, set_bit, widen};
use dj_names::{ClassName, Items};
use std::alloc::{AllocError, Global};

/// Whether the table has the second name above the first.
pub fn has_above(places: &Places, rows: &[Items<u64>], lower: &ClassName, upper: &ClassName) -> bool
    ensures above { (headers : List Header) → IsIndex places.now → IsTable headers places.now rows.now
        → IsTrue result ↔ Implements headers lower.now upper.now }
{
    if lower == upper {
        return true;
    }
    match place(places, lower) {
        None => false,
        Some(from) => match place(places, upper) {
            None => false,
            Some(to) => is_above(rows, from, to),
        },
    }
}

/// The places of what is above these names.
fn above_all(
    alloc: Global,
    places: &Places,
    rows: &[Items<u64>],
    names: &[ClassName],
) -> Result<Items<u64>, AllocError>
    requires known { (name : List ℕ) → Contains names.now name → HasPlace places.now name }
    ensures up { IfOk result (λ up. (headers : List Header) → IsIndex places.now → IsTable headers places.now rows.now
        → IsUp headers (Contains names.now) places.now up) }
{
    let mut up = Items::new(alloc);
    for name in names {
        join_row(rows, place_at(places, name), &mut up)?;
    }
    Ok(up)
}

/// The places of what is above the parents of a header.
pub fn above_parents(
    alloc: Global,
    places: &Places,
    rows: &[Items<u64>],
    superclass: &Option<ClassName>,
    interfaces: &[ClassName],
) -> Result<Items<u64>, AllocError>
    requires known { (name : List ℕ) → IsParent superclass.now interfaces.now name → HasPlace places.now name }
    ensures up { IfOk result (λ up. (headers : List Header) → IsIndex places.now → IsTable headers places.now rows.now
        → IsUp headers (IsParent superclass.now interfaces.now) places.now up) }
{
    let mut up = above_all(alloc, places, rows, interfaces)?;
    match superclass {
        Some(superclass) => {
            join_row(rows, place_at(places, superclass), &mut up)?;
            Ok(up)
        }
        None => Ok(up),
    }
}

/// Adds empty rows until there is one at this place.
fn add_rows(alloc: Global, rows: &mut Vec<Items<u64>>, at: usize) -> Result<(), AllocError>
    ensures there { OnOk result (at < length rows.new.items) }
    ensures kept { (i : ℕ) → row_at rows.new.items i ≡ row_at rows.old.items i }
{
    while rows.len() <= at {
        rows.push(Items::new(alloc))?;
    }
    Ok(())
}

/// Widens the row of each place that has `class` above it.
fn make_room(rows: &mut [Items<u64>], class: usize, words: usize) -> Result<(), AllocError>
    ensures bits { (i j : ℕ) → IsSet (row_at rows.new i) j ↔ IsSet (row_at rows.old i) j }
    ensures room { OnOk result ((i : ℕ) → IsSet (row_at rows.new i) class → words ≤ length (row_at rows.new i)) }
{
    for row in rows.iter_mut() {
        if is_set(row.as_slice(), class) {
            widen(row, words)?;
        }
    }
    Ok(())
}

/// Sets the bit of a place in its own row, and makes room for what is above it.
fn open_rows(rows: &mut [Items<u64>], class: usize, words: usize) -> Result<(), AllocError>
    requires there { class < length rows.old }
    ensures opened { OnOk result (IsOpened class words rows.new) }
    ensures opens { Opens class rows.old rows.new }
{
    set_bit(&mut rows[class], class)?;
    make_room(rows, class, words)
}

/// Takes all the memory that a header's row and what is above it need.
pub fn open(
    alloc: Global,
    rows: &mut Vec<Items<u64>>,
    class: usize,
    words: usize,
) -> Result<(), AllocError>
    ensures opened { OnOk result (IsOpened class words rows.new.items) }
    ensures opens { Opens class rows.old.items rows.new.items }
{
    add_rows(alloc, rows, class)?;
    open_rows(rows.as_mut_slice(), class, words)
}

/// Sets what is set in `up` in the row of each place that has `class` above it.
fn raise_rows(rows: &mut [Items<u64>], class: usize, up: &[u64])
    requires room { (i : ℕ) → IsSet (row_at rows.old i) class → length up.now ≤ length (row_at rows.old i) }
    ensures len { length rows.new ≡ length rows.old }
    ensures bits { (i j : ℕ) → IsSet (row_at rows.new i) j
        ↔ (IsSet (row_at rows.old i) j ⊎ (IsSet (row_at rows.old i) class × IsSet up.now j)) }
{
    for row in rows.iter_mut() {
        if is_set(row.as_slice(), class) {
            merge(row, up);
        }
    }
}

/// Sets what is set in `up` in the row of each place that has `class` above it. It takes no memory.
pub fn raise(rows: &mut Vec<Items<u64>>, class: usize, up: &[u64])
    requires room { IsOpened class (length up.now) rows.old.items }
    ensures bits { (i j : ℕ) → IsSet (row_at rows.new.items i) j
        ↔ (IsSet (row_at rows.old.items i) j ⊎ (IsSet (row_at rows.old.items i) class × IsSet up.now j)) }
{
    raise_rows(rows.as_mut_slice(), class, up);
}
