//! A persistent list of tags: copies share their parts, and a change takes a path of a tree.

ghost use Rattle.std.specs.Prelude.{◌≡◌, ◌<◌, ◌≤◌, ◌^◌, ◌+◌, ◌-◌, ◌++◌, ◌∷◌, [], ℕ, length, take, replicate, flat_map, get_or, slice_get, slice_set, IfOk, OnOk, OnErr, IsTrue, ◌↔◌};
ghost use Rattle.std.specs.Option.{option_copied};
ghost use Rattle.dj_frames.specs.declared.tag.Tag.TheVariants as declared_tag;
ghost use Rattle.dj_frames.specs.Frames.{Top, view_tags, slots_of, is_unborn, IsNext};
ghost use Rattle.dj_frames.specs.SlotTree.{over, cut, tag_in, first_tags, words_in, IsMarked};

use crate::tag::Tag;
use crate::tree::{LEAF_DEPTH, Tree, clear, deeper, get, is_clear, leaf, next_of, put, share};
use crate::unborn::Unborn;
use dj_names::Items;
use std::alloc::{AllocError, Global};
use std::marker::Model;
use std::rc::Rc;
use std::slice;

/// Tags in order, kept in the first slots of a tree, with their number and that of their words.
#[derive(Drop)]
pub struct Slots {
    depth: u32,
    count: u32,
    words: u32,
    tree: Tree,
}

impl Model for Slots {
    ghost use Rattle.std.specs.Prelude.{List};
    ghost use Rattle.std.specs.Coded.{coded_list};
    ghost use Rattle.dj_frames.specs.declared.tag.Tag as spec;
    ghost use Rattle.dj_frames.specs.contracts.tag.Tag.{the_row};

    ghost Value = { List spec.Tag };

    ghost coded = { coded_list the_row.coded };

    ghost use Rattle.dj_frames.specs.SlotTree.{tag_in, first_tags, IsFilled};

    ghost view = { λ s. first_tags s.count (tag_in s.depth s.tree) };

    ghost invariant = { λ s. IsFilled s.depth s.count s.words s.tree };
}

/// A number with so many more; an error says that it is too large.
fn more(count: u32, by: usize) -> Result<u32, AllocError>
    ensures sum { IfOk result (λ sum. sum ≡ count + by) }
{
    match u32::try_from((count as usize).saturating_add(by)) {
        Ok(sum) => Ok(sum),
        Err(_) => Err(AllocError),
    }
}

/// So many words, and those of tags besides.
fn with_words(before: u32, tags: &[Tag]) -> Result<u32, AllocError>
    ensures sum { IfOk result (λ sum. sum ≡ before + words_in tags.now) }
{
    let mut words = before;
    for tag in tags {
        words = more(words, tag.words())?;
    }
    Ok(words)
}

/// The words of the tags in slots from one up to another.
fn words_between(tree: &Tree, depth: u32, start: u32, end: u32) -> usize
    requires small { depth ≤ 64 }
    ensures words { start ≤ end → words_in (first_tags start (tag_in depth tree.now)) + result ≡ words_in (first_tags end (tag_in depth tree.now)) }
{
    let mut sum = 0;
    for slot in start..end {
        sum += get(tree, depth, slot as usize).words();
    }
    sum
}

/// Whether a tree of a depth has room for so many tags.
fn has_room(depth: u32, count: u32) -> bool
    requires small { depth < 64 }
    ensures room { IsTrue result ↔ (count ≤ 2 ^ depth) }
{
    count as usize <= 1usize << depth
}

/// The same tags in a tree that has room for so many, and its depth; an error says that there is no
/// memory for it, or that no tree is as deep. The slots above share one part.
fn with_room(alloc: Global, tree: &Tree, depth: u32, count: u32) -> Result<(u32, Tree), AllocError>
    requires shallow { depth < 64 }
    requires marked { IsMarked tree.now }
    ensures small { IfOk result (λ after. after.0 < 64) }
    ensures room { IfOk result (λ after. count ≤ 2 ^ after.0) }
    ensures same { (slot : ℕ) → slot < 2 ^ depth → IfOk result (λ after. tag_in after.0 after.1 slot ≡ tag_in depth tree.now slot) }
    ensures marked { IfOk result (λ after. IsMarked after.1) }
{
    let mut grown = share(alloc, tree)?;
    if has_room(depth, count) {
        return Ok((depth, grown));
    }
    let above = Rc::new(alloc, Tree::All(Tag::Top))?;
    for now in depth + 1..64 {
        grown = deeper(alloc, &grown, &above)?;
        if has_room(now, count) {
            return Ok((now, grown));
        }
    }
    Err(AllocError)
}

/// Whether these tags stand in the slots from one on.
fn stand(tree: &Tree, depth: u32, start: usize, tags: &[Tag]) -> bool
    requires small { depth ≤ 64 }
    requires few { start + length tags.now < 2 ^ 64 }
    ensures stand { (slot : ℕ) → IsTrue result → tag_in depth tree.now slot ≡ over start tags.now (tag_in depth tree.now) slot }
{
    for place in 0..tags.len() {
        if !get(tree, depth, start + place).is_surely(&tags[place]) {
            return false;
        }
    }
    true
}

/// The tree with Top in each slot from one on, which is the same one where that is so.
fn cleared(alloc: Global, tree: Tree, depth: u32, from: usize) -> Result<Tree, AllocError>
    requires small { depth ≤ 64 }
    requires marked { IsMarked tree }
    ensures cut { (slot : ℕ) → slot < 2 ^ depth → IfOk result (λ after. tag_in depth after slot ≡ cut from (tag_in depth tree) slot) }
    ensures marked { IfOk result IsMarked }
{
    if is_clear(&tree, depth, from) {
        return Ok(tree);
    }
    let after = clear(alloc, &tree, depth, from)?;
    Ok(after)
}

/// Tags equal to these.
fn copy_tags(alloc: Global, tags: &[Tag]) -> Result<Items<Tag>, AllocError>
    ensures equal { IfOk result (λ copy. copy ≡ tags.now) }
{
    let mut copy = Items::from_vec(Vec::with_capacity(alloc, tags.len())?);
    for tag in tags {
        copy.push(tag.copy(alloc)?)?;
    }
    Ok(copy)
}

/// One tag.
fn one(alloc: Global, tag: &Tag) -> Result<Slots, AllocError>
    ensures one { IfOk result (λ slots. slots ≡ tag.now ∷ []) }
{
    let tag = tag.copy(alloc)?;
    Ok(Slots {
        depth: 0,
        count: 1,
        words: tag.words() as u32,
        tree: Tree::All(tag),
    })
}

/// Tags, put into a tree at once.
fn many(alloc: Global, tags: &[Tag]) -> Result<Slots, AllocError>
    ensures same { IfOk result (λ slots. slots ≡ tags.now) }
{
    let mut slots = Slots::new();
    slots.append(alloc, tags)?;
    Ok(slots)
}

impl Slots {
    /// No tags.
    pub fn new() -> Slots
        ensures none { result ≡ [] }
    {
        Slots {
            depth: 0,
            count: 0,
            words: 0,
            tree: Tree::All(Tag::Top),
        }
    }

    /// The tags of a list, which becomes a part of a tree.
    pub fn from_items(alloc: Global, tags: Items<Tag>) -> Result<Slots, AllocError>
        ensures same { IfOk result (λ slots. slots ≡ tags) }
    {
        if let [tag] = tags.as_slice() {
            return one(alloc, tag);
        }
        let count = tags.len();
        if count == 0 {
            return Ok(Slots::new());
        }
        if count <= 1 << LEAF_DEPTH {
            let words = with_words(0, tags.as_slice())?;
            return Ok(Slots {
                depth: LEAF_DEPTH,
                count: count as u32,
                words,
                tree: leaf(alloc, tags)?,
            });
        }
        many(alloc, tags.as_slice())
    }

    /// The tags of a slice.
    pub fn from_slice(alloc: Global, tags: &[Tag]) -> Result<Slots, AllocError>
        ensures same { IfOk result (λ slots. slots ≡ tags.now) }
    {
        if let [tag] = tags {
            return one(alloc, tag);
        }
        if tags.len() > 1 << LEAF_DEPTH {
            return many(alloc, tags);
        }
        let tags = copy_tags(alloc, tags)?;
        let slots = Slots::from_items(alloc, tags)?;
        Ok(slots)
    }

    /// How many tags there are.
    pub fn len(&self) -> usize
        ensures len { result ≡ length self.now }
    {
        self.count as usize
    }

    /// How many words they take: a Long or a Double two, each other one.
    pub fn words(&self) -> usize
        ensures words { result ≡ length (flat_map slots_of (view_tags self.now)) }
    {
        self.words as usize
    }

    /// The tag in a slot.
    pub fn get(&self, slot: usize) -> Option<&Tag>
        ensures tag { option_copied result ≡ slice_get self.now slot }
    {
        if slot < self.len() {
            Some(get(&self.tree, self.depth, slot))
        } else {
            None
        }
    }

    /// The first slot from one on that has an object which isn't constructed yet.
    pub fn next_of(&self, start: usize, unborn: Unborn) -> Option<usize>
        ensures next { IsNext (λ slot. is_unborn unborn (get_or (view_tags self.now) slot Top)) start (length self.now) result }
    {
        next_of(&self.tree, self.depth, start, self.count as usize, unborn)
    }

    /// Puts tags behind the others; an error says that memory is wanting, or that there would be more
    /// than 2^31 tags. Those that stood there before a cut take no room.
    pub fn append(&mut self, alloc: Global, tags: &[Tag]) -> Result<(), AllocError>
        ensures ok { OnOk result (self.new ≡ self.old ++ tags.now) }
        ensures err { OnErr result (self.new ≡ self.old) }
    {
        let count = more(self.count, tags.len())?;
        let words = with_words(self.words, tags)?;
        let start = self.count as usize;
        if has_room(self.depth, count) && stand(&self.tree, self.depth, start, tags) {
            self.count = count;
            self.words = words;
            return Ok(());
        }
        let (depth, tree) = with_room(alloc, &self.tree, self.depth, count)?;
        let tree = put(alloc, &tree, depth, start, tags)?;
        self.depth = depth;
        self.count = count;
        self.words = words;
        self.tree = tree;
        Ok(())
    }

    /// Puts a tag behind the others; an error says that memory is wanting, or that there are 2^31
    /// tags.
    pub fn push(&mut self, alloc: Global, tag: Tag) -> Result<(), AllocError>
        ensures ok { OnOk result (self.new ≡ self.old ++ tag ∷ []) }
        ensures err { OnErr result (self.new ≡ self.old) }
    {
        self.append(alloc, slice::from_ref(&tag))?;
        Ok(())
    }

    /// Puts Top behind the others until there are so many tags; the Tops share one part of a tree.
    pub fn pad(&mut self, alloc: Global, count: usize) -> Result<(), AllocError>
        ensures ok { OnOk result (self.new ≡ self.old ++ replicate (count - length self.old) declared_tag.Top) }
        ensures err { OnErr result (self.new ≡ self.old) }
    {
        let missing = count.saturating_sub(self.len());
        if missing == 0 {
            return Ok(());
        }
        let count = more(self.count, missing)?;
        let words = more(self.words, missing)?;
        let (depth, tree) = with_room(alloc, &self.tree, self.depth, count)?;
        let tree = cleared(alloc, tree, depth, self.count as usize)?;
        self.depth = depth;
        self.count = count;
        self.words = words;
        self.tree = tree;
        Ok(())
    }

    /// Puts a tag into a slot.
    pub fn set(&mut self, alloc: Global, slot: usize, tag: Tag) -> Result<(), AllocError>
        requires { slot < length self.old }
        ensures ok { OnOk result (self.new ≡ slice_set self.old slot tag) }
        ensures err { OnErr result (self.new ≡ self.old) }
    {
        let before = get(&self.tree, self.depth, slot).words() as u32;
        let words = more(self.words - before, tag.words())?;
        self.tree = put(alloc, &self.tree, self.depth, slot, slice::from_ref(&tag))?;
        self.words = words;
        Ok(())
    }

    /// Leaves the first so many tags.
    pub fn truncate(&mut self, len: usize)
        ensures first { self.new ≡ take len self.old }
    {
        if len < self.len() {
            let len = len as u32;
            let cut = words_between(&self.tree, self.depth, len, self.count);
            self.words -= cut as u32;
            self.count = len;
        }
    }

    /// Equal tags, which share their parts with these.
    pub fn copy(&self, alloc: Global) -> Result<Slots, AllocError>
        ensures equal { IfOk result (λ copy. copy ≡ self.now) }
    {
        let tree = share(alloc, &self.tree)?;
        Ok(Slots {
            depth: self.depth,
            count: self.count,
            words: self.words,
            tree,
        })
    }
}
