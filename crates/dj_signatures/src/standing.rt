//! Which keys stand more than once, and which place counts of those alike.

ghost use Rattle.std.specs.Prelude.{◌≡◌, ◌++◌, ◌∷◌, List, [], Some, IfOk, length};
ghost use Rattle.std.specs.BTreeMap.{get};
ghost use Rattle.dj_signatures.specs.declared.keys.Key.{Key};
ghost use Rattle.dj_signatures.specs.Standing.{pair_cmp, twin_of, alike_of, Leads, TellsRepeats, TellsLeaders};

use crate::keys::Key;
use std::alloc::{AllocError, Global};
use std::collections::BTreeMap;

/// Two numbers, of a name and of what the method takes.
pub type Pair = (usize, usize);

/// The place that counts of the methods of a name and parameters, and whether it is no bridge.
#[derive(Clone, Copy)]
pub struct Leader {
    pub at: usize,
    pub plain: bool,
}

/// The numbers of a key's name and descriptor.
pub fn twin_of(key: &Key) -> Pair
    ensures pair { result ≡ twin_of key.now }
{
    (key.name, key.descriptor)
}

/// The numbers of a key's name and parameters.
pub fn alike_of(key: &Key) -> Pair
    ensures pair { result ≡ alike_of key.now }
{
    (key.name, key.parameters)
}

/// Of each name and descriptor that keys have, whether more than one has it.
pub fn repeated_of(alloc: Global, keys: &[Key]) -> Result<BTreeMap<Pair, bool>, AllocError>
    ensures repeats { IfOk result (TellsRepeats keys.now) }
{
    let mut repeated = BTreeMap::new(alloc);
    for key in keys {
        let pair = twin_of(key);
        let again = repeated.contains_key(&pair);
        repeated.insert(pair, again)?;
    }
    Ok(repeated)
}

/// The place that counts, of the one that did so far, if any, and the place behind all others.
fn leader_of(before: Option<Leader>, at: usize, key: &Key) -> Leader
    ensures leads { (keys : List Key) → length keys ≡ at → Leads keys (alike_of key.now) before → Leads (keys ++ key.now ∷ []) (alike_of key.now) (Some result) }
{
    match before {
        None => Leader {
            at,
            plain: !key.bridge,
        },
        Some(leader) => {
            if leader.plain || key.bridge {
                leader
            } else {
                Leader { at, plain: true }
            }
        }
    }
}

/// The place that counts of the keys of a name and parameters, if any has them.
pub fn leader_before(leaders: &BTreeMap<Pair, Leader>, pair: Pair) -> Option<Leader>
    ensures value { result ≡ get pair_cmp leaders.now pair }
{
    leaders.get(&pair).copied()
}

/// Of each name and parameters that keys have, the place that counts.
pub fn leaders_of(alloc: Global, keys: &[Key]) -> Result<BTreeMap<Pair, Leader>, AllocError>
    ensures leads { IfOk result (TellsLeaders keys.now) }
{
    let mut leaders = BTreeMap::new(alloc);
    for at in 0..keys.len() {
        let key = &keys[at];
        let pair = alike_of(key);
        let leader = leader_of(leader_before(&leaders, pair), at, key);
        leaders.insert(pair, leader)?;
    }
    Ok(leaders)
}
