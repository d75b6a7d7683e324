//! Tags by slot in a binary tree whose leaves are lists; trees that differ in few slots share the most of it.

ghost use Rattle.std.specs.Prelude.{◌≡◌, ◌<◌, ◌^◌, ◌≤◌, ◌+◌, ◌-◌, suc, ℕ, length, IfOk, IfSome, IsTrue};
ghost use Rattle.dj_frames.specs.Frames.{view_tag, is_unborn, IsNext};
ghost use Rattle.dj_frames.specs.SlotTree.{listed, joined, tag_in, over, cut, first_tags, rank, unborn_in, IsUnder, IsMarked};
ghost use Rattle.dj_frames.specs.declared.tag.Tag.TheVariants.{Top};

use crate::tag::Tag;
use crate::unborn::{Unborn, is_unborn, rank, rank_of};
use dj_names::{Items, Shared};
use std::alloc::{AllocError, Global};
use std::rc::Rc;

/// A tree of this depth or less is one list.
pub const LEAF_DEPTH: u32 = 5;

/// The tags of the first slots, and that of each other one.
#[derive(Drop)]
pub struct Run {
    pub tags: Items<Tag>,
    pub rest: Tag,
}

/// A tree of some depth, which has 2 to the power of that depth slots.
#[derive(Drop)]
pub enum Tree {
    /// Each slot has this tag.
    All(Tag),
    /// The slots have these tags.
    Leaf(Shared<Run>),
    /// The lower and the upper half of the slots, and a rank that no object in them exceeds.
    Fork(Rc<Tree>, Rc<Tree>, u64),
}

/// A tree of these tags, and of Top behind them.
pub fn leaf(alloc: Global, tags: Items<Tag>) -> Result<Tree, AllocError>
    ensures tags { (depth slot : ℕ) → IfOk result (λ made. tag_in depth made slot ≡ listed tags Top slot) }
    ensures marked { IfOk result IsMarked }
{
    let rest = Tag::Top;
    let run = Shared::new(alloc, Run { tags, rest })?;
    Ok(Tree::Leaf(run))
}

/// The same tags, with all that is below the root shared.
pub fn share(alloc: Global, tree: &Tree) -> Result<Tree, AllocError>
    requires marked { IsMarked tree.now }
    ensures same { (depth slot : ℕ) → IfOk result (λ copy. tag_in depth copy slot ≡ tag_in depth tree.now slot) }
    ensures marked { IfOk result IsMarked }
{
    match tree {
        Tree::All(tag) => Ok(Tree::All(tag.copy(alloc)?)),
        Tree::Leaf(run) => Ok(Tree::Leaf(run.share()?)),
        Tree::Fork(lower, upper, bound) => Ok(Tree::Fork(lower.clone()?, upper.clone()?, *bound)),
    }
}

/// The tag in a slot of a list behind which all have another one.
fn listed<'a>(list: &'a [Tag], rest: &'a Tag, slot: usize) -> &'a Tag
    ensures tag { result.now ≡ listed list.now rest.now slot }
{
    match list.get(slot) {
        Some(tag) => tag,
        None => rest,
    }
}

/// A rank that no tag of a list exceeds, nor the one behind it.
fn most_listed(list: &[Tag], rest: &Tag) -> u64
    ensures most { (slot : ℕ) → rank (view_tag (listed list.now rest.now slot)) ≤ result }
{
    let mut most = rank(rest);
    for tag in list {
        most = most.max(rank(tag));
    }
    most
}

/// A rank that no object in a tree exceeds.
fn most(tree: &Tree) -> u64
    requires marked { IsMarked tree.now }
    ensures most { IsUnder result tree.now }
{
    match tree {
        Tree::All(tag) => rank(tag),
        Tree::Leaf(run) => {
            let run = run.get();
            most_listed(run.tags.as_slice(), &run.rest)
        }
        Tree::Fork(_, _, bound) => *bound,
    }
}

/// The tree of these halves.
fn fork(lower: Rc<Tree>, upper: Rc<Tree>) -> Tree
    requires lower { IsMarked lower.value }
    requires upper { IsMarked upper.value }
    ensures halves { (depth slot : ℕ) → tag_in (suc depth) result slot ≡ joined (2 ^ depth) (tag_in depth lower.value) (tag_in depth upper.value) slot }
    ensures marked { IsMarked result }
{
    let bound = most(&lower).max(most(&upper));
    Tree::Fork(lower, upper, bound)
}

/// Half of the slots of a tree.
fn half(depth: u32) -> usize
    requires deep { 0 < depth }
    requires small { depth ≤ 64 }
    ensures half { result ≡ 2 ^ (depth - 1) }
{
    1usize << (depth - 1)
}

/// The tag in a slot of a tree.
pub fn get(tree: &Tree, depth: u32, slot: usize) -> &Tag
    requires small { depth ≤ 64 }
    ensures tag { result.now ≡ tag_in depth tree.now slot }
{
    match tree {
        Tree::All(tag) => tag,
        Tree::Leaf(run) => {
            let run = run.get();
            listed(run.tags.as_slice(), &run.rest, slot)
        }
        Tree::Fork(lower, upper, _) => {
            if depth == 0 {
                return get(lower, 0, slot);
            }
            let half = half(depth);
            if slot < half {
                get(lower, depth - 1, slot)
            } else {
                get(upper, depth - 1, slot - half)
            }
        }
    }
}

/// The tag in a slot of a list with tags put over its own, from a slot on.
fn over<'a>(list: &'a [Tag], rest: &'a Tag, start: usize, tags: &'a [Tag], slot: usize) -> &'a Tag
    ensures tag { result.now ≡ over start tags.now (listed list.now rest.now) slot }
{
    if slot < start {
        return listed(list, rest, slot);
    }
    match tags.get(slot - start) {
        Some(tag) => tag,
        None => listed(list, rest, slot),
    }
}

/// So many tags of a list with tags put over its own.
fn put_list(
    alloc: Global,
    list: &[Tag],
    rest: &Tag,
    start: usize,
    tags: &[Tag],
    len: usize,
) -> Result<Items<Tag>, AllocError>
    ensures put { IfOk result (λ made. made ≡ first_tags len (over start tags.now (listed list.now rest.now))) }
{
    let mut made = Items::from_vec(Vec::with_capacity(alloc, len)?);
    for slot in 0..len {
        made.push(over(list, rest, start, tags, slot).copy(alloc)?)?;
    }
    Ok(made)
}

/// A leaf of a list with tags put over its own.
fn put_leaf(
    alloc: Global,
    list: &[Tag],
    rest: &Tag,
    start: usize,
    tags: &[Tag],
) -> Result<Tree, AllocError>
    requires few { start + length tags.now < 2 ^ 64 }
    ensures put { (depth slot : ℕ) → IfOk result (λ made. tag_in depth made slot ≡ over start tags.now (listed list.now rest.now) slot) }
    ensures marked { IfOk result IsMarked }
{
    let len = list.len().max(start + tags.len());
    let tags = put_list(alloc, list, rest, start, tags, len)?;
    let rest = rest.copy(alloc)?;
    let run = Shared::new(alloc, Run { tags, rest })?;
    Ok(Tree::Leaf(run))
}

/// The part of a list from a slot on.
fn behind(alloc: Global, list: &[Tag], rest: &Tag, from: usize) -> Result<Tree, AllocError>
    ensures behind { (depth slot : ℕ) → IfOk result (λ made. tag_in depth made slot ≡ listed list.now rest.now (from + slot)) }
    ensures marked { IfOk result IsMarked }
{
    if list.len() <= from {
        return Ok(Tree::All(rest.copy(alloc)?));
    }
    let made = put_leaf(alloc, &[], rest, 0, &list[from..])?;
    Ok(made)
}

/// The two halves of a tree.
fn halves(alloc: Global, tree: &Tree, half: usize) -> Result<(Rc<Tree>, Rc<Tree>), AllocError>
    requires marked { IsMarked tree.now }
    ensures halves { (depth slot : ℕ) → half ≡ 2 ^ depth → IfOk result (λ pair. tag_in (suc depth) tree.now slot ≡ joined half (tag_in depth pair.0.value) (tag_in depth pair.1.value) slot) }
    ensures lower { IfOk result (λ pair. IsMarked pair.0.value) }
    ensures upper { IfOk result (λ pair. IsMarked pair.1.value) }
{
    match tree {
        Tree::All(tag) => {
            let lower = Tree::All(tag.copy(alloc)?);
            let upper = Tree::All(tag.copy(alloc)?);
            Ok((Rc::new(alloc, lower)?, Rc::new(alloc, upper)?))
        }
        Tree::Leaf(run) => {
            let lower = Tree::Leaf(run.share()?);
            let run = run.get();
            let upper = behind(alloc, run.tags.as_slice(), &run.rest, half)?;
            Ok((Rc::new(alloc, lower)?, Rc::new(alloc, upper)?))
        }
        Tree::Fork(lower, upper, _) => Ok((lower.clone()?, upper.clone()?)),
    }
}

/// A tree of depth 0 with tags put over its own, from a slot on.
fn put_root(alloc: Global, tree: &Tree, start: usize, tags: &[Tag]) -> Result<Tree, AllocError>
    requires marked { IsMarked tree.now }
    ensures put { IfOk result (λ after. tag_in 0 after 0 ≡ over start tags.now (tag_in 0 tree.now) 0) }
    ensures marked { IfOk result IsMarked }
{
    match tags.first() {
        Some(tag) if start == 0 => Ok(Tree::All(tag.copy(alloc)?)),
        _ => {
            let same = share(alloc, tree)?;
            Ok(same)
        }
    }
}

/// The list that a tree is, and the tag behind it, where it isn't to be forked.
fn list_of(tree: &Tree, depth: u32) -> Option<(&[Tag], &Tag)>
    ensures same { (slot : ℕ) → IfSome result (λ x. tag_in depth tree.now slot ≡ listed x.0.now x.1.now slot) }
{
    match tree {
        Tree::All(tag) if depth <= LEAF_DEPTH => Some((&[], tag)),
        Tree::Leaf(run) if depth <= LEAF_DEPTH => {
            let run = run.get();
            Some((run.tags.as_slice(), &run.rest))
        }
        _ => None,
    }
}

/// The tree with tags put over its own, from a slot on.
pub fn put(
    alloc: Global,
    tree: &Tree,
    depth: u32,
    start: usize,
    tags: &[Tag],
) -> Result<Tree, AllocError>
    requires small { depth ≤ 64 }
    requires few { start + length tags.now < 2 ^ 64 }
    requires marked { IsMarked tree.now }
    ensures put { (slot : ℕ) → slot < 2 ^ depth → IfOk result (λ after. tag_in depth after slot ≡ over start tags.now (tag_in depth tree.now) slot) }
    ensures marked { IfOk result IsMarked }
{
    if depth == 0 {
        let root = put_root(alloc, tree, start, tags)?;
        return Ok(root);
    }
    if let Some((list, rest)) = list_of(tree, depth) {
        let leaf = put_leaf(alloc, list, rest, start, tags)?;
        return Ok(leaf);
    }
    let half = half(depth);
    let (lower, upper) = halves(alloc, tree, half)?;
    if half <= start {
        let after = put(alloc, &upper, depth - 1, start - half, tags)?;
        return Ok(fork(lower, Rc::new(alloc, after)?));
    }
    let room = half - start;
    if tags.len() <= room {
        let after = put(alloc, &lower, depth - 1, start, tags)?;
        return Ok(fork(Rc::new(alloc, after)?, upper));
    }
    let below = put(alloc, &lower, depth - 1, start, &tags[..room])?;
    let above = put(alloc, &upper, depth - 1, 0, &tags[room..])?;
    Ok(fork(Rc::new(alloc, below)?, Rc::new(alloc, above)?))
}

/// A tree of twice as many slots, with the same tags in the lower half; a fork gets this upper half.
pub fn deeper(alloc: Global, tree: &Tree, above: &Rc<Tree>) -> Result<Tree, AllocError>
    requires marked { IsMarked tree.now }
    requires above { IsMarked above.now.value }
    ensures same { (depth slot : ℕ) → slot < 2 ^ depth → IfOk result (λ after. tag_in (suc depth) after slot ≡ tag_in depth tree.now slot) }
    ensures marked { IfOk result IsMarked }
{
    let same = share(alloc, tree)?;
    match tree {
        Tree::All(_) | Tree::Leaf(_) => Ok(same),
        Tree::Fork(..) => {
            let lower = Rc::new(alloc, same)?;
            Ok(fork(lower, above.clone()?))
        }
    }
}

/// Whether each slot is known to have Top.
fn is_all_top(tree: &Tree) -> bool
    ensures top { (depth slot : ℕ) → IsTrue result → tag_in depth tree.now slot ≡ Top }
{
    matches!(tree, Tree::All(Tag::Top))
}

/// Whether each slot from one on has Top, as far as that is told by few looks.
pub fn is_clear(tree: &Tree, depth: u32, from: usize) -> bool
    requires small { depth ≤ 64 }
    ensures clear { (slot : ℕ) → from ≤ slot → IsTrue result → tag_in depth tree.now slot ≡ Top }
{
    match tree {
        Tree::All(tag) => matches!(tag, Tag::Top),
        Tree::Leaf(run) => {
            let run = run.get();
            run.tags.len() <= from && matches!(run.rest, Tag::Top)
        }
        Tree::Fork(lower, upper, _) => {
            if depth == 0 {
                return is_clear(lower, 0, from);
            }
            let half = half(depth);
            if half <= from {
                is_clear(upper, depth - 1, from - half)
            } else {
                is_all_top(upper) && is_clear(lower, depth - 1, from)
            }
        }
    }
}

/// A leaf of so many first tags of a list, and of Top behind them.
fn clear_leaf(alloc: Global, list: &[Tag], rest: &Tag, from: usize) -> Result<Tree, AllocError>
    ensures cut { (depth slot : ℕ) → IfOk result (λ made. tag_in depth made slot ≡ cut from (listed list.now rest.now) slot) }
    ensures marked { IfOk result IsMarked }
{
    let tags = put_list(alloc, list, rest, 0, &[], from)?;
    let made = leaf(alloc, tags)?;
    Ok(made)
}

/// The tree with Top in each slot from one on.
pub fn clear(alloc: Global, tree: &Tree, depth: u32, from: usize) -> Result<Tree, AllocError>
    requires small { depth ≤ 64 }
    requires marked { IsMarked tree.now }
    ensures cut { (slot : ℕ) → slot < 2 ^ depth → IfOk result (λ after. tag_in depth after slot ≡ cut from (tag_in depth tree.now) slot) }
    ensures marked { IfOk result IsMarked }
{
    if from == 0 {
        return Ok(Tree::All(Tag::Top));
    }
    if depth == 0 {
        let same = share(alloc, tree)?;
        return Ok(same);
    }
    if let Some((list, rest)) = list_of(tree, depth) {
        let leaf = clear_leaf(alloc, list, rest, from)?;
        return Ok(leaf);
    }
    let half = half(depth);
    let (lower, upper) = halves(alloc, tree, half)?;
    if half <= from {
        let after = clear(alloc, &upper, depth - 1, from - half)?;
        return Ok(fork(lower, Rc::new(alloc, after)?));
    }
    let after = clear(alloc, &lower, depth - 1, from)?;
    let above = Rc::new(alloc, Tree::All(Tag::Top))?;
    Ok(fork(Rc::new(alloc, after)?, above))
}

/// The first slot of a list, from one up to an end, that has an object which isn't constructed yet.
fn next_listed(list: &[Tag], rest: &Tag, start: usize, end: usize, unborn: Unborn) -> Option<usize>
    ensures next { IsNext (λ slot. is_unborn unborn (view_tag (listed list.now rest.now slot))) start end result }
{
    for slot in start..end.min(list.len()) {
        if is_unborn(unborn, &list[slot]) {
            return Some(slot);
        }
    }
    let behind = start.max(list.len());
    if behind < end && is_unborn(unborn, rest) {
        Some(behind)
    } else {
        None
    }
}

/// The first slot of a tree, from one up to an end, that has an object which isn't constructed yet.
pub fn next_of(tree: &Tree, depth: u32, start: usize, end: usize, unborn: Unborn) -> Option<usize>
    requires small { depth ≤ 64 }
    requires marked { IsMarked tree.now }
    ensures next { IsNext (unborn_in unborn depth tree.now) start end result }
{
    if end <= start {
        return None;
    }
    match tree {
        Tree::All(tag) => {
            if is_unborn(unborn, tag) {
                Some(start)
            } else {
                None
            }
        }
        Tree::Leaf(run) => {
            let run = run.get();
            next_listed(run.tags.as_slice(), &run.rest, start, end, unborn)
        }
        Tree::Fork(lower, upper, bound) => {
            if *bound < rank_of(unborn) {
                return None;
            }
            if depth == 0 {
                return next_of(lower, 0, start, end, unborn);
            }
            let half = half(depth);
            if let Some(slot) = next_of(lower, depth - 1, start, end.min(half), unborn) {
                return Some(slot);
            }
            let slot = next_of(
                upper,
                depth - 1,
                start.saturating_sub(half),
                end.saturating_sub(half),
                unborn,
            )?;
            Some(half + slot)
        }
    }
}
