ghost use Rattle.std.specs.Prelude.{◌≡◌, ◌+◌, ◌≤◌, cond, Some};
ghost use Rattle.indexmap.specs.IndexMap.{get, spare};
ghost use Rattle.doem_history.specs.inside.Chains.{link_told};

use indexmap::IndexMap;
use std::hash::Hash;

// The link to the key's newest run; 0 where it has none.
pub(crate) fn link_of<K: Copy + Eq + Hash>(newest: &IndexMap<K, u32>, key: K) -> u32
    ensures { result ≡ link_told (get K.eq newest.now key) }
{
    match newest.get(&key) {
        Some(link) => *link,
        None => 0,
    }
}

// Makes this the link to the key's newest run. Takes no memory.
pub(crate) fn put_link<K: Copy + Eq + Hash>(newest: &mut IndexMap<K, u32>, key: K, link: u32)
    requires { 1 ≤ spare newest.old }
    ensures told { (other : K) → get K.eq newest.new other
        ≡ cond (K.eq key other) (Some link) (get K.eq newest.old other) }
    ensures room { spare newest.old ≤ spare newest.new + 1 }
{
    let Ok(_) = newest.insert(key, link) else {
        unreachable!();
    };
}
