//! Which methods of a class can't stand beside another of its methods, by name and types (JVMS 4.6; JLS 8.4.2).

ghost use Rattle.std.specs.Prelude.{◌≡◌, ◌≢◌, ◌↔◌, ℕ, List, Some, IsTrue, IfOk, map, slice_get};
ghost use Rattle.std.specs.BTreeMap.{get};
ghost use Rattle.dj_class.specs.Described.{MethodOf};
ghost use Rattle.dj_class.specs.Views.{view_method};
ghost use Rattle.dj_signatures.specs.declared.keys.Key.{Key};
ghost use Rattle.dj_signatures.specs.Signatures.{HasRival, TellsRivals, HasTwin, IsUncounted};
ghost use Rattle.dj_signatures.specs.Keys.{AreKeys};
ghost use Rattle.dj_signatures.specs.Standing.{pair_cmp, TellsRepeats, TellsLeaders};

use crate::keys::{Key, keys_of};
use crate::standing::{Leader, Pair, alike_of, leader_before, leaders_of, repeated_of, twin_of};
use dj_class::Method;
use dj_names::Items;
use std::alloc::{AllocError, Global};
use std::collections::BTreeMap;

/// Whether keys repeat a name and a descriptor, where any has them.
fn repeats(repeated: &BTreeMap<Pair, bool>, pair: Pair) -> Option<bool>
    ensures value { result ≡ get pair_cmp repeated.now pair }
{
    repeated.get(&pair).copied()
}

/// Whether another key has the name and the descriptor of this one.
fn has_twin(repeated: &BTreeMap<Pair, bool>, key: &Key) -> bool
    ensures twin { (methods : List MethodOf) (keys : List Key) (at : ℕ) (method : MethodOf) → AreKeys methods keys → TellsRepeats keys repeated.now
        → slice_get methods at ≡ Some method → slice_get keys at ≡ Some key.now → IsTrue result ↔ HasTwin methods at method }
{
    match repeats(repeated, twin_of(key)) {
        Some(again) => again,
        None => false,
    }
}

/// Whether a place is another than this one.
fn is_elsewhere(place: usize, at: usize) -> bool
    ensures elsewhere { IsTrue result ↔ (place ≢ at) }
{
    place != at
}

/// Whether another place than this one counts, of those with the name and the parameters of its key.
fn is_uncounted(leaders: &BTreeMap<Pair, Leader>, at: usize, key: &Key) -> bool
    ensures uncounted { (methods : List MethodOf) (keys : List Key) (method : MethodOf) → AreKeys methods keys → TellsLeaders keys leaders.now
        → slice_get methods at ≡ Some method → slice_get keys at ≡ Some key.now → IsTrue result ↔ IsUncounted methods at method }
{
    match leader_before(leaders, alike_of(key)) {
        Some(leader) => is_elsewhere(leader.at, at),
        None => false,
    }
}

/// Whether the method at a place, which has this key, has a rival.
fn has_rival(
    repeated: &BTreeMap<Pair, bool>,
    leaders: &BTreeMap<Pair, Leader>,
    at: usize,
    key: &Key,
) -> bool
    ensures rival { (methods : List MethodOf) (keys : List Key) (method : MethodOf) → AreKeys methods keys → TellsRepeats keys repeated.now
        → TellsLeaders keys leaders.now → slice_get methods at ≡ Some method → slice_get keys at ≡ Some key.now → IsTrue result ↔ HasRival methods at method }
{
    has_twin(repeated, key) || is_uncounted(leaders, at, key)
}

/// Whether each of the methods of a class has a rival among them, in order.
pub fn rivals_of(alloc: Global, methods: &[Method]) -> Result<Items<bool>, AllocError>
    ensures rivals { IfOk result (TellsRivals (map view_method methods.now)) }
{
    let keys = keys_of(alloc, methods)?;
    let repeated = repeated_of(alloc, keys.as_slice())?;
    let leaders = leaders_of(alloc, keys.as_slice())?;
    let mut rivals = Items::new(alloc);
    for at in 0..keys.len() {
        rivals.push(has_rival(&repeated, &leaders, at, &keys[at]))?;
    }
    Ok(rivals)
}
