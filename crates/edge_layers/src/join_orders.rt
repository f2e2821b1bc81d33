ghost use Rattle.std.specs.Prelude.{◌≡◌, ◌<◌, ◌+◌, length, IfOk, OnOk, List};
ghost use Rattle.lore_base.specs.Databases.{AreAscendingEdges};
ghost use Rattle.edge_lists.specs.Commits.{ArePlaces};
ghost use Rattle.edge_layers.specs.Types.{Edge as TheEdge};
ghost use Rattle.edge_layers.specs.inside.Chains.{label_of, slot_among, AreChains, ArePutFrom};

use crate::chains::{Chains, chains_of};
use crate::places::places_by_child;
use key_sort::Key;
use lore_base::{Edge, NoMemory};
use std::alloc::Global;

// How many labels have a slot of their own for each edge, and how many more.
const LABELS_AN_EDGE: usize = 4;

const MORE_LABELS: usize = 64;

// The key of the label.
struct ByLabel;

impl Key<Edge> for ByLabel {
    ghost key_of = { λ edge. edge.label.0 };

    fn key(edge: &Edge) -> u32 {
        edge.label.0
    }
}

/// The places of ascending edges in the order in which they are put into the in lists of their
/// children: that of child, label and parent, where each is looked for from the one before it. Where
/// no list has an edge yet, they come by falling label and parent: each stands at the front of its
/// list then, and no sort is needed.
pub fn join_order(alloc: Global, edges: &[Edge], none_yet: bool) -> Result<Vec<usize>, NoMemory>
    requires { AreAscendingEdges edges.now }
    ensures { IfOk result (λ places. ArePlaces (length edges.now) places.items) }
{
    if none_yet {
        return places_backward(alloc, edges);
    }
    places_by_child(alloc, edges)
}

// The places by falling label, and from the last on where labels are the same.
fn places_backward(alloc: Global, edges: &[Edge]) -> Result<Vec<usize>, NoMemory>
    ensures { IfOk result (λ places. ArePlaces (length edges.now) places.items) }
{
    let chains = chains_of::<ByLabel>(alloc, edges, label_slots(edges))?;
    let mut places = Vec::with_capacity(alloc, edges.len())?;
    let mut slot = chains.heads.len();
    'slots: while slot > 0 {
        slot -= 1;
        push_slot(&mut places, &chains, slot)?;
    }
    Ok(places)
}

// A slot for each label up to the greatest, unless these are far more than the edges.
fn label_slots(edges: &[Edge]) -> usize
    ensures { 0 < result }
{
    let mut greatest = 0;
    'edges: for edge in edges {
        greatest = edge.label.0.max(greatest);
    }
    let most = edges
        .len()
        .saturating_mul(LABELS_AN_EDGE)
        .saturating_add(MORE_LABELS);
    most.min(greatest as usize) + 1
}

// Puts the places in one slot behind those that are there, from the last one on.
fn push_slot(places: &mut Vec<usize>, chains: &Chains, slot: usize) -> Result<(), NoMemory>
    requires slot { slot < length chains.now.heads.items }
    requires chains { (edges : List TheEdge)
        × AreChains label_of edges chains.now.heads.items chains.now.back.items }
    ensures { OnOk result ((edges : List TheEdge)
        → AreChains label_of edges chains.now.heads.items chains.now.back.items
        → let slot_of = slot_among (length chains.now.heads.items) label_of in
        ArePutFrom slot_of edges (slot + 1) 0 places.old.items
        → ArePutFrom slot_of edges slot 0 places.new.items) }
{
    let mut above = chains.heads[slot];
    'chain: while above > 0 {
        let place = above - 1;
        places.push(place)?;
        above = chains.back[place];
    }
    Ok(())
}
