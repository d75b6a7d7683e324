//! The catchers of an exception table (JVMS 2.10).

ghost use Rattle.std.specs.Prelude.{◌≡◌, ◌<◌, ◌++◌, ◌∷◌, [], length, IfOk, OnOk};
ghost use Rattle.std.specs.List.{AllPairs};
ghost use Rattle.dj_code_variables.specs.Views.{IsReady};
ghost use Rattle.dj_edges.specs.Edges as edges;
ghost use Rattle.dj_edges.specs.Split as spec;
ghost use Rattle.dj_edges.specs.Split.{with_catcher, catchers_of};
ghost use Rattle.dj_split.specs.Ranges.{parts_of, with_range, ranges_of};

use dj_code::{Handler, Typed};
use dj_code_variables::Vars;
use dj_graph::Catcher;
use dj_names::Items;
use std::alloc::{AllocError, Global};

/// The range of an entry of the exception table, whether it takes everything, and the number of its catcher.
#[derive(Clone, Copy, PartialEq, Eq)]
pub struct Range {
    pub start: u32,
    pub end: u32,
    pub all: bool,
    pub catcher: u32,
}

/// The number of the block that starts at a pc.
fn number_of(starts: &[u32], pc: u32) -> Option<u32>
    requires rise { AllPairs (λ x y. x < y) starts.now }
    ensures number { result ≡ edges.number_of starts.now pc }
{
    match starts.binary_search(&pc) {
        Ok(place) => {
            let number = place as u32;
            Some(number)
        }
        Err(_) => None,
    }
}

/// The catcher of an entry of the exception table, where it has one.
fn catcher_of(
    alloc: Global,
    typed: &Typed,
    starts: &[u32],
    vars: &Vars,
    handler: &Handler,
) -> Result<Option<Catcher>, AllocError>
    requires rise { AllPairs (λ x y. x < y) starts.now }
    requires ready { IsReady vars.now }
    ensures catcher { IfOk result (λ catcher. catcher ≡ spec.catcher_of (parts_of typed.now starts.now vars.now) handler.now) }
{
    let number = match number_of(starts, handler.target) {
        Some(number) => number,
        None => return Ok(None),
    };
    let variable = match vars.of(number, u32::from(typed.code.max_locals)) {
        Some(variable) => variable,
        None => return Ok(None),
    };
    let class = match &handler.class {
        Some(name) => Some(name.copy(alloc)?),
        None => None,
    };
    Ok(Some(Catcher {
        class,
        target: number,
        variable,
    }))
}

/// Puts the catcher of an entry and its range behind others, where it has one; an error says that memory is
/// wanting, or that there are too many.
fn add_handler(
    alloc: Global,
    typed: &Typed,
    starts: &[u32],
    vars: &Vars,
    handler: &Handler,
    catchers: &mut Vec<Catcher>,
    ranges: &mut Items<Range>,
) -> Result<(), AllocError>
    requires rise { AllPairs (λ x y. x < y) starts.now }
    requires ready { IsReady vars.now }
    ensures catchers { OnOk result (catchers.new.items ≡ catchers.old.items ++ with_catcher (spec.catcher_of (parts_of typed.now starts.now vars.now) handler.now) []) }
    ensures ranges { OnOk result (ranges.new ≡ ranges.old ++ with_range (spec.catcher_of (parts_of typed.now starts.now vars.now) handler.now) handler.now (length catchers.old.items) []) }
{
    match catcher_of(alloc, typed, starts, vars, handler)? {
        Some(catcher) => {
            let number = match u32::try_from(catchers.len()) {
                Ok(number) => number,
                Err(_) => return Err(AllocError),
            };
            ranges.push(Range {
                start: handler.start,
                end: handler.end,
                all: handler.class.is_none(),
                catcher: number,
            })?;
            catchers.push(catcher)?;
            Ok(())
        }
        None => Ok(()),
    }
}

/// Puts the catchers of all entries, and their ranges, behind others.
pub fn add_handlers(
    alloc: Global,
    typed: &Typed,
    starts: &[u32],
    vars: &Vars,
    catchers: &mut Vec<Catcher>,
    ranges: &mut Items<Range>,
) -> Result<(), AllocError>
    requires rise { AllPairs (λ x y. x < y) starts.now }
    requires ready { IsReady vars.now }
    ensures catchers { OnOk result (catchers.new.items ≡ catchers.old.items ++ catchers_of (parts_of typed.now starts.now vars.now) typed.now.code.handlers) }
    ensures ranges { OnOk result (ranges.new ≡ ranges.old ++ ranges_of (parts_of typed.now starts.now vars.now) typed.now.code.handlers (length catchers.old.items)) }
{
    for handler in typed.code.handlers.as_slice() {
        add_handler(alloc, typed, starts, vars, handler, catchers, ranges)?;
    }
    Ok(())
}
