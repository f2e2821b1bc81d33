ghost use Rattle.std.specs.Prelude.{◌≡◌, ◌↔◌, [], Contains, IsTrue, IfOk, OnOk};
ghost use Rattle.lore_base.specs.Databases.{IsLive, AreAscendingEdges};
ghost use Rattle.lore_base.specs.TargetSets.{ListsInOrder};
ghost use Rattle.lore_store.specs.Types.{Edge as TheEdge};
ghost use Rattle.lore_store.specs.inside.Cuts.{children_of as the_children, AreLiving};
ghost use Rattle.lore_store.specs.inside.Cuts.{AreCutLinks, ReadsChildren};

use index_traits::{Links, ValueOf};
use lore_base::{Edge, EdgeBuf, NoMemory, Oid, OidBuf, Steps};
use oem_set::OidSet;
use read_costs::entering_edges;
use std::alloc::Global;
use std::sync::ledger::Ledger;

// The children of edges that are cut, and the edges that enter them then, in ascending order.
#[derive(Drop)]
pub(crate) struct CutLinks {
    pub(crate) oids: OidSet,
    pub(crate) edges: EdgeBuf,
}

// How many edges may be cut so that it is worth to look what enters their children.
const FEW_CUT: usize = 64;

// With how many edges that enter them a guide is sooner planned without them.
const MANY_ENTERING: usize = 1024;

// The cut edges, or none where they are many.
pub(crate) fn few_of(cut: &[Edge]) -> &[Edge]
    ensures { (edge : TheEdge) → Contains result.now edge → Contains cut.now edge }
{
    if cut.len() > FEW_CUT {
        return &[];
    }
    cut
}

// The objects that the edges enter, each once, in ascending order.
fn children_of(alloc: Global, edges: &[Edge]) -> Result<OidSet, NoMemory>
    ensures { IfOk result (λ set. ListsInOrder (Contains (the_children edges.now)) set) }
{
    let mut oids = OidBuf::with_capacity(alloc, edges.len())?;
    'edges: for edge in edges {
        oids.push(edge.child)?;
    }
    let set = OidSet::from_buf(&mut oids)?;
    Ok(set)
}

// Whether the object is live.
fn is_live<V: ValueOf>(values: &V, oid: Oid) -> bool
    ensures { IsTrue result ↔ IsLive (V.objects values.now) oid }
{
    match values.value_of(oid) {
        Some(_) => true,
        None => false,
    }
}

// Those of the edges that leave live objects, in ascending order.
fn living_edges<V: ValueOf>(alloc: Global, edges: &[Edge], values: &V) -> Result<EdgeBuf, NoMemory>
    ensures ascend { IfOk result (λ living. AreAscendingEdges living) }
    ensures members { IfOk result (λ living. AreLiving edges.now (V.objects values.now) living) }
{
    let mut living = EdgeBuf::new(alloc);
    'edges: for edge in edges {
        if is_live(values, edge.parent) {
            living.push(*edge)?;
        }
    }
    living.sort_set();
    Ok(living)
}

// No object, of which nothing is told. Takes no memory.
fn nothing_told(alloc: Global) -> CutLinks
    ensures oids { result.oids ≡ [] }
    ensures edges { result.edges ≡ [] }
{
    CutLinks {
        oids: OidSet::from_ascending(OidBuf::new(alloc)),
        edges: EdgeBuf::new(alloc),
    }
}

// The children of the cut edges, and those of the links that enter them and leave live objects; no
// object where these are many. Each child is read once.
pub(crate) fn cut_links<K: Links, V: ValueOf, L: Ledger>(
    alloc: Global,
    cut: &[Edge],
    links: &K,
    values: &V,
    steps: &mut Steps<L>,
) -> Result<CutLinks, NoMemory>
    ensures found { IfOk result (λ found. AreCutLinks (K.edges links.now) (V.objects values.now)
        found.oids found.edges) }
    ensures reads { OnOk result
        (ReadsChildren (K.edges links.now) cut.now steps.old steps.new) }
{
    let oids = children_of(alloc, cut)?;
    let read = entering_edges(alloc, links, oids.as_slice(), steps)?;
    if read.len() > MANY_ENTERING {
        return Ok(nothing_told(alloc));
    }
    let edges = living_edges(alloc, read.as_slice(), values)?;
    Ok(CutLinks { oids, edges })
}
