//! The labels of a switch (JLS 14.11).

ghost use Rattle.std.specs.Prelude.{◌≡◌, ◌&&◌, ◌||◌, not, ℤ, Option, IfOk, OnOk};
ghost use Rattle.dj_syntax.specs.StmText.{is_empty};
ghost use Rattle.dj_syntax.specs.Trees.{view_groups, view_stms};
ghost use Rattle.dj_syntax.specs.WellFormedTrees.{has_no_group};
ghost use Rattle.dj_meaning.specs.Statements.{has_label, is_same_label};
ghost use Rattle.dj_typed.specs.Switches as spec;
ghost use Rattle.dj_body_types.specs.Seen.{all_fresh, has, nothing};

use dj_syntax::{Group, Stm};
use std::alloc::{AllocError, Global};
use std::collections::BTreeSet;

/// Whether there is a label.
fn has_some(labels: &[Option<i32>]) -> bool
    ensures some { result ≡ spec.has_some labels.now }
{
    match labels {
        [] => false,
        [_, ..] => true,
    }
}

/// Whether there is a statement.
fn has_statement(list: &[Stm]) -> bool
    ensures some { result ≡ not (is_empty (view_stms list.now)) }
{
    match list {
        [] => false,
        [_, ..] => true,
    }
}

/// Whether a group has a label, and a statement unless it is the last.
fn is_formed(group: &Group, last: bool) -> bool
    ensures formed { result ≡ (spec.has_some group.now.labels && (not (is_empty (view_stms group.now.body)) || last)) }
{
    has_some(group.labels.as_slice()) && (has_statement(group.body.as_slice()) || last)
}

/// Whether there is a group, each has a label, and each but the last a statement.
pub fn are_formed(groups: &[Group]) -> bool
    ensures formed { result ≡ (not (has_no_group (view_groups groups.now)) && spec.are_formed (view_groups groups.now)) }
{
    for (index, group) in groups.iter().enumerate() {
        if !is_formed(group, groups.len() <= index + 1) {
            return false;
        }
    }
    !groups.is_empty()
}

/// Whether both hold.
pub fn both(first: bool, second: bool) -> bool
    ensures both { result ≡ (first && second) }
{
    first && second
}

/// The labels that were seen: numbers, and whether `default` was.
#[derive(Drop)]
struct Seen {
    numbers: BTreeSet<i32>,
    default: bool,
}

impl Seen {
    /// None.
    fn new(alloc: Global) -> Seen
        ensures none { (label : Option ℤ) → has result label ≡ nothing label }
    {
        Seen {
            numbers: BTreeSet::new(alloc),
            default: false,
        }
    }

    /// A label is seen. Answers whether it is the first time.
    fn add(&mut self, label: &Option<i32>) -> Result<bool, AllocError>
        ensures fresh { IfOk result (λ fresh. fresh ≡ not (has self.old label.now)) }
        ensures added { OnOk result ((other : Option ℤ) → has self.new other ≡ (is_same_label label.now other || has self.old other)) }
    {
        match label {
            None => {
                let fresh = !self.default;
                self.default = true;
                Ok(fresh)
            }
            Some(number) => {
                let fresh = self.numbers.insert(*number)?;
                Ok(fresh)
            }
        }
    }

    /// Labels are seen, one after another. Answers whether it is the first time for each.
    fn add_all(&mut self, labels: &[Option<i32>]) -> Result<bool, AllocError>
        ensures fresh { IfOk result (λ fresh. fresh ≡ all_fresh (has self.old) labels.now) }
        ensures added { OnOk result ((other : Option ℤ) → has self.new other ≡ (has_label other labels.now || has self.old other)) }
    {
        let mut fresh = true;
        for label in labels {
            let first = self.add(label)?;
            fresh = both(fresh, first);
        }
        Ok(fresh)
    }
}

/// Whether no label of a switch stands twice.
pub fn are_distinct(alloc: Global, groups: &[Group]) -> Result<bool, AllocError>
    ensures distinct { IfOk result (λ distinct. distinct ≡ spec.are_distinct (spec.labels_of (view_groups groups.now))) }
{
    let mut seen = Seen::new(alloc);
    let mut distinct = true;
    for group in groups {
        let fresh = seen.add_all(group.labels.as_slice())?;
        distinct = both(distinct, fresh);
    }
    Ok(distinct)
}
