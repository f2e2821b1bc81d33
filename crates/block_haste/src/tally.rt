ghost use Rattle.std.specs.Prelude.{◌≡◌, ◌≢◌, ◌↔◌, ◌∷◌, ◌++◌, [], ◌<◌, ◌+◌, ◌-◌, length, Some};
ghost use Rattle.std.specs.Prelude.{slice_get, slice_set, Contains, IsTrue, IfOk, OnOk};
ghost use Rattle.std.specs.Prelude.{if◌then◌else◌, ◌^◌};
ghost use Rattle.indexmap.specs.IndexMap.{get};
ghost use Rattle.block_haste.specs.inside.Tallies.{Key as TheKey, key_eq, count_from, AreCounts};
ghost use Rattle.block_haste.specs.inside.Marking.{stands};

use indexmap::IndexMap;
use lore_lists::NoMemory;
use std::alloc::Global;
use std::marker::Model;

// An edge as it is counted: the node that it enters, its label, and the tag of its parent.
pub(crate) type Key = (usize, u32, usize);

// How often keys stand somewhere.
type Counts = IndexMap<Key, usize>;

// How often the key is counted.
fn count_of(counts: &Counts, key: Key) -> usize
    ensures { result ≡ count_from (get key_eq counts.now key) }
{
    match counts.get(&key) {
        Some(count) => *count,
        None => 0,
    }
}

// Counts the key once more.
fn count_more(counts: &mut Counts, key: Key) -> Result<(), NoMemory>
    requires { count_from (get key_eq counts.old key) < 2 ^ 63 }
    ensures { OnOk result ((other : TheKey) → count_from (get key_eq counts.new other)
        ≡ (if key_eq key other then count_from (get key_eq counts.old other) + 1
        else count_from (get key_eq counts.old other))) }
{
    let count = count_of(counts, key);
    counts.insert(key, count + 1)?;
    Ok(())
}

// Counts the key once less. A key that is counted no more isn't kept.
fn count_less(counts: &mut Counts, key: Key) -> Result<(), NoMemory>
    ensures { OnOk result ((other : TheKey) → count_from (get key_eq counts.new other)
        ≡ (if key_eq key other then count_from (get key_eq counts.old other) - 1
        else count_from (get key_eq counts.old other))) }
{
    let count = count_of(counts, key);
    if count <= 1 {
        let _ = counts.swap_remove(&key);
    } else {
        counts.insert(key, count - 1)?;
    }
    Ok(())
}

// Keys at places, with how often each stands there. Contracts see the keys.
#[derive(Drop)]
pub(crate) struct Tally {
    keys: Vec<Key>,
    counts: Counts,
}

impl Model for Tally {
    ghost use Rattle.std.specs.Prelude.{List};
    ghost use Rattle.indexmap.specs.IndexMap.{get};
    ghost use Rattle.block_haste.specs.inside.Tallies.{Key, key_eq, AreCounts};

    ghost Value = { List Key };

    ghost view = { λ tally. tally.keys.items };

    ghost invariant = { λ tally. AreCounts tally.keys.items (get key_eq tally.counts) };
}

impl Tally {
    // No key stands anywhere.
    pub(crate) fn new(alloc: Global) -> Tally
        ensures { result ≡ [] }
    {
        Tally {
            keys: Vec::new(alloc),
            counts: IndexMap::new(alloc),
        }
    }

    // Puts a key behind those that stand there. Where memory is refused nothing is promised of the
    // keys.
    pub(crate) fn push(self, key: Key) -> Result<Tally, NoMemory>
        ensures { IfOk result (λ tally. tally ≡ self ++ key ∷ []) }
    {
        let Tally {
            mut keys,
            mut counts,
        } = self;
        count_more(&mut counts, key)?;
        keys.push(key)?;
        Ok(Tally { keys, counts })
    }

    // The key at a place.
    pub(crate) fn key(&self, place: usize) -> Key
        requires { place < length self.now }
        ensures { slice_get self.now place ≡ Some result }
    {
        self.keys[place]
    }

    // Puts the key in the place of the one that stands there.
    pub(crate) fn set(self, place: usize, key: Key) -> Result<Tally, NoMemory>
        requires { place < length self }
        ensures { IfOk result (λ tally. tally ≡ slice_set self place key) }
    {
        let Tally {
            mut keys,
            mut counts,
        } = self;
        let old = keys[place];
        count_less(&mut counts, old)?;
        count_more(&mut counts, key)?;
        keys[place] = key;
        Ok(Tally { keys, counts })
    }

    // Whether the key stands somewhere.
    pub(crate) fn has(&self, key: Key) -> bool
        ensures stands { result ≡ stands self.now key }
        ensures somewhere { IsTrue result ↔ Contains self.now key }
    {
        count_of(&self.counts, key) > 0
    }
}
