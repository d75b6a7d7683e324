//! The two tables that headers keep: what is above a class by superclasses and interfaces, and what is by superclasses alone.

ghost use Rattle.std.specs.Prelude.{◌≡◌, ℕ, List, [], ◌∷◌, ◌++◌, None, IfOk, OnOk, IsSomeAnd, length};
ghost use Rattle.dj_names.specs.declared.header.Header.{Header};
ghost use Rattle.dj_headers.specs.Roots.{AreRoots, KnowsRoots};
ghost use Rattle.dj_headers.specs.Rows.{Opens, IsOpened};
ghost use Rattle.dj_headers.specs.Table.{HasPlace, IsIndex, IsTable, IsParent, IsUp, AreTables, IsReady};

use crate::places::{Places, learn_header, no_places};
use crate::roots::{Roots, learn_roots};
use crate::table::{above_parents, open, raise};
use dj_names::{ClassName, Header, Items};
use std::alloc::{AllocError, Global};

/// A place for each name, and by these places the rows of both tables.
#[derive(Drop)]
pub struct Tables {
    pub places: Places,
    pub above: Vec<Items<u64>>,
    pub lines: Vec<Items<u64>>,
    pub roots: Option<Roots>,
    pub alloc: Global,
}

/// What a new header adds: its place, and the rows of what is above it.
#[derive(Drop)]
pub struct Addition {
    pub class: usize,
    pub above: Items<u64>,
    pub lines: Items<u64>,
}

impl Tables {
    /// Tables of no headers.
    pub fn new(alloc: Global) -> Tables
        ensures empty { AreTables [] result.places result.above.items result.lines.items }
        ensures roots { result.roots ≡ None }
    {
        Tables {
            places: no_places(alloc),
            above: Vec::new(alloc),
            lines: Vec::new(alloc),
            roots: None,
            alloc,
        }
    }

    /// Takes all the memory that a header needs, and answers what it will add. The tables say what
    /// they said.
    pub fn prepare(&mut self, header: &Header) -> Result<Addition, AllocError>
        ensures kept { (headers : List Header) → AreTables headers self.old.places self.old.above.items self.old.lines.items
            → AreTables headers self.new.places self.new.above.items self.new.lines.items }
        ensures roots { (headers : List Header) → KnowsRoots headers self.old.roots → KnowsRoots headers self.new.roots }
        ensures known { OnOk result ((headers : List Header) → KnowsRoots headers self.old.roots → IsSomeAnd self.new.roots AreRoots) }
        ensures ready { IfOk result (λ addition. (headers : List Header) → AreTables headers self.old.places self.old.above.items self.old.lines.items
            → IsReady headers header.now self.new.places addition.class self.new.above.items self.new.lines.items addition.above addition.lines) }
        ensures above { IfOk result (λ addition. IsOpened addition.class (length addition.above) self.new.above.items) }
        ensures lines { IfOk result (λ addition. IsOpened addition.class (length addition.lines) self.new.lines.items) }
    {
        let alloc = self.alloc;
        learn_roots(alloc, &mut self.roots)?;
        let class = learn_header(alloc, &mut self.places, header)?;
        let superclass = &header.superclass;
        let interfaces = header.interfaces.as_slice();
        let above = find_above(
            alloc,
            &self.places,
            &mut self.above,
            class,
            superclass,
            interfaces,
        )?;
        let lines = find_above(alloc, &self.places, &mut self.lines, class, superclass, &[])?;
        Ok(Addition {
            class,
            above,
            lines,
        })
    }

    /// Adds what a header adds. It takes no memory.
    pub fn add(&mut self, addition: Addition)
        requires above { IsOpened addition.class (length addition.above) self.old.above.items }
        requires lines { IsOpened addition.class (length addition.lines) self.old.lines.items }
        ensures tables { (headers : List Header) (header : Header)
            → IsReady headers header self.old.places addition.class self.old.above.items self.old.lines.items addition.above addition.lines
            → AreTables (headers ++ header ∷ []) self.new.places self.new.above.items self.new.lines.items }
        ensures roots { self.new.roots ≡ self.old.roots }
    {
        raise(&mut self.above, addition.class, addition.above.as_slice());
        raise(&mut self.lines, addition.class, addition.lines.as_slice());
    }
}

/// The row of what is above the parents of a class, with room for it wherever it will go.
fn find_above(
    alloc: Global,
    places: &Places,
    rows: &mut Vec<Items<u64>>,
    class: usize,
    superclass: &Option<ClassName>,
    interfaces: &[ClassName],
) -> Result<Items<u64>, AllocError>
    requires known { (name : List ℕ) → IsParent superclass.now interfaces.now name → HasPlace places.now name }
    ensures up { IfOk result (λ up. (headers : List Header) → IsIndex places.now → IsTable headers places.now rows.old.items
        → IsUp headers (IsParent superclass.now interfaces.now) places.now up) }
    ensures opened { IfOk result (λ up. IsOpened class (length up) rows.new.items) }
    ensures opens { Opens class rows.old.items rows.new.items }
{
    let up = above_parents(alloc, places, rows.as_slice(), superclass, interfaces)?;
    open(alloc, rows, class, up.len())?;
    Ok(up)
}
