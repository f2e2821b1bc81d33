ghost use Rattle.std.specs.Prelude.{◌<◌, length, IfOk};
ghost use Rattle.edge_layers.specs.inside.Chains.{AreChains};

use key_sort::Key;
use lore_base::{Edge, NoMemory};
use std::alloc::Global;

/// Where edges of one key stand among others: a chain of places for each slot, into which keys fall
/// by what is left of them. A head is one above the place of the last edge of its slot, and behind
/// each edge comes the one before it there; 0 ends a chain.
#[derive(Drop)]
pub(crate) struct Chains {
    pub(crate) heads: Vec<usize>,
    pub(crate) back: Vec<usize>,
}

// The chains of the edges by a key, in so many slots.
pub(crate) fn chains_of<K: Key<Edge>>(
    alloc: Global,
    edges: &[Edge],
    count: usize,
) -> Result<Chains, NoMemory>
    requires { 0 < length edges.now → 0 < count }
    ensures { IfOk result
        (λ chains. AreChains K.key_of edges.now chains.heads.items chains.back.items) }
{
    let mut heads = vec![in alloc; 0usize; count]?;
    let mut back = Vec::with_capacity(alloc, edges.len())?;
    'edges: for (place, edge) in edges.iter().enumerate() {
        let slot = K::key(edge) as usize % count;
        back.push(heads[slot])?;
        heads[slot] = place + 1;
    }
    Ok(Chains { heads, back })
}
