//! Code is split into its blocks, with their handlers.

ghost use Rattle.std.specs.Prelude.{◌≡◌, ◌<◌, [], map, length, IfOk};
ghost use Rattle.std.specs.List.{AllPairs};
ghost use Rattle.dj_code_variables.specs.Views.{IsReady};
ghost use Rattle.dj_edges.specs.Split.{catchers_of, handlers_from};
ghost use Rattle.dj_split.specs.Ranges.{parts_of, handlers_of};
ghost use Rattle.dj_split.specs.Caught.{BlocksAreCaught};

use crate::blocks::contexts;
use crate::catchers::add_handlers;
use dj_code::Typed;
use dj_code_variables::Vars;
use dj_graph::{Catcher, Context};
use dj_names::Items;
use std::alloc::{AllocError, Global};

/// The catchers of code, and the context of each of its blocks.
#[derive(Drop)]
pub struct Divided {
    pub catchers: Vec<Catcher>,
    pub contexts: Vec<Context>,
}

/// The blocks of code that start at these pcs, with their handlers.
pub fn split(
    alloc: Global,
    typed: &Typed,
    starts: &[u32],
    vars: &Vars,
) -> Result<Divided, AllocError>
    requires rise { AllPairs (λ x y. x < y) starts.now }
    requires ready { IsReady vars.now }
    ensures catchers { IfOk result (λ split. split.catchers.items ≡ catchers_of (parts_of typed.now starts.now vars.now) typed.now.code.handlers) }
    ensures handlers { IfOk result (λ split. handlers_of split.contexts.items ≡ map (λ start. handlers_from (parts_of typed.now starts.now vars.now) start typed.now.code.handlers 0) starts.now) }
    ensures free { IfOk result (λ split. map (λ context. context.monitors.items) split.contexts.items ≡ map (λ start. []) starts.now) }
    ensures caught { IfOk result (λ split. BlocksAreCaught (parts_of typed.now starts.now vars.now) split.catchers.items (handlers_of split.contexts.items)) }
{
    let mut catchers = Vec::new(alloc);
    let mut ranges = Items::new(alloc);
    add_handlers(alloc, typed, starts, vars, &mut catchers, &mut ranges)?;
    let contexts = contexts(alloc, ranges.as_slice(), starts)?;
    Ok(Divided { catchers, contexts })
}
